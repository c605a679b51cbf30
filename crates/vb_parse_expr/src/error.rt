// Why there is no tree.
ghost use Rattle.std.specs.Prelude.{◌≡◌};
ghost use Rattle.vb_parse_expr.specs.declared.error.ParseErr.TheVariants.{Memory};

use std::alloc::AllocError;
use thiserror::Error;
use vb_diag::Refusal;

/// Why a call found nothing.
#[derive(Debug, Drop, Error)]
pub enum ParseErr {
    /// What was asked for doesn't stand there, so the line isn't of the grammar: the rule, and the file and the number of the
    /// line.
    #[error("the line isn't of the grammar")]
    Refused(Refusal),
    /// There was no memory for the tree. Nothing is said of the line.
    #[error("out of memory")]
    Memory,
}

impl From<AllocError> for ParseErr {
    ghost from_gives = { λ _ e. e ≡ Memory };

    fn from(_: AllocError) -> Self {
        ParseErr::Memory
    }
}
