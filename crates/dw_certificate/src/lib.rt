//! Certificates: answers that anyone can check with the rules of the game, without a search.
//!
//! Everything is generic over the board. The rows of a certificate and its text allocate.
//!
//! Begin with `certify`, which takes a certificate from a memo, and with `certificate_text`.
#![tactic(auto)]

pub mod certificate;
pub mod fault;
pub mod laws;
mod positions;
pub mod text;

pub use certificate::{Certificate, certify};
pub use fault::CertificateFault;
pub use text::certificate_text;
