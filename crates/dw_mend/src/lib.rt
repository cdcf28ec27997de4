//! The sound problems that are one change away from a position: for a composer whose problem is not sound.
//!
//! Begin with `mend::mend`, which writes them, or with `neighbours::neighbours`, which lists all positions that one
//! change makes.
#![tactic(auto)]

pub mod change;
pub mod laws;
pub mod mend;
pub mod neighbours;
pub mod rows;
pub mod soundness;
pub mod text;

pub use change::{Change, changed};
pub use mend::{MendBounds, MendFault, Mended};
pub use neighbours::Neighbour;
pub use rows::Wording;
pub use soundness::sound_key;
pub use text::{change_text, count_line, sound_line};
