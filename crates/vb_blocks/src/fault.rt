// Why there is no tree, before its line is known.
ghost use Rattle.std.specs.Prelude.{◌≡◌};
ghost use Rattle.vb_blocks.specs.declared.fault.Fault.TheVariants.{Memory};

use std::alloc::AllocError;

#[derive(Clone, Copy, Debug, PartialEq, Eq)]
pub enum Fault {
    Memory,
    Grammar,
}

impl From<AllocError> for Fault {
    ghost from_gives = { λ _ e. e ≡ Memory };

    fn from(_: AllocError) -> Self {
        Fault::Memory
    }
}
