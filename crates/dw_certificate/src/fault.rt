//! Why there is no certificate.
ghost use Rattle.std.specs.Prelude.{◌≡◌};
ghost use Rattle.dw_certificate.specs.declared.fault.CertificateFault.TheVariants.{Memory};

use std::alloc::AllocError;
use thiserror::Error;

/// Why a memo gives no certificate.
#[derive(Clone, Copy, Debug, PartialEq, Eq, Error)]
pub enum CertificateFault {
    /// Memory was refused.
    #[error("1 memory")]
    Memory,
    /// The memo lacks a bound that is needed.
    #[error("2 missing")]
    Missing,
}

impl From<AllocError> for CertificateFault {
    ghost from_gives = { λ _ fault. fault ≡ Memory };

    fn from(_refused: AllocError) -> Self {
        CertificateFault::Memory
    }
}
