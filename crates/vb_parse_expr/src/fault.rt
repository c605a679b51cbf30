// Why there is no tree, before its line is known.
ghost use Rattle.std.specs.Prelude.{◌≡◌};
ghost use Rattle.vb_parse_expr.specs.declared.fault.Fault.TheVariants.{Memory};

use std::alloc::AllocError;

/// Why a reader of tokens found nothing, before the line of the tokens is known.
#[derive(Clone, Copy, Debug, PartialEq, Eq)]
pub enum Fault {
    /// There was no memory for the tree. Nothing is said of the tokens.
    Memory,
    /// What was asked for doesn't stand there.
    Grammar,
}

impl From<AllocError> for Fault {
    ghost from_gives = { λ _ e. e ≡ Memory };

    fn from(_: AllocError) -> Self {
        Fault::Memory
    }
}
