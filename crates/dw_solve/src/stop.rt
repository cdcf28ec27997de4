//! Why a search ends without an answer.
ghost use Rattle.std.specs.Prelude.{◌≡◌};
ghost use Rattle.dw_solve.specs.declared.stop.Stop.TheVariants.{Memory};

use std::alloc::AllocError;
use thiserror::Error;

/// Why a search ended without an answer. The question can be asked again.
#[derive(Clone, Copy, Debug, PartialEq, Eq, Error)]
pub enum Stop {
    /// Memory was refused.
    #[error("1 memory")]
    Memory,
    /// As many positions were expanded as the limit allows.
    #[error("2 limit")]
    Limit,
}

impl From<AllocError> for Stop {
    ghost from_gives = { λ _ stop. stop ≡ Memory };

    fn from(_refused: AllocError) -> Self {
        Stop::Memory
    }
}
