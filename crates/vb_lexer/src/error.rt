// Why a file has no logical lines.
ghost use Rattle.std.specs.Prelude.{◌≡◌};
ghost use Rattle.vb_lexer.specs.declared.error.LexErr.TheVariants.{Memory};

use std::alloc::AllocError;
use thiserror::Error;
use vb_diag::Refusal;

/// Why a file has no logical lines.
#[derive(Debug, Drop, Error)]
pub enum LexErr {
    /// It breaks a lexical rule: the least line that breaks one, and the least rule there.
    #[error("a lexical rule is broken")]
    Refused(Refusal),
    /// There is no memory for them.
    #[error("out of memory")]
    Memory,
}

impl From<AllocError> for LexErr {
    ghost from_gives = { λ _ e. e ≡ Memory };

    fn from(_: AllocError) -> Self {
        LexErr::Memory
    }
}
