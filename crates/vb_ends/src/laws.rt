// What callers' proofs may hold of marks.
ghost use Rattle.std.specs.Prelude.{ℕ, List, ◌∷◌};
ghost use Rattle.vb_ends.specs.declared.role.Mark.{Mark};
ghost use Rattle.vb_ends.specs.declared.role.Sort.{Sort as OneSort};
ghost use Rattle.vb_ends.specs.Brackets.{AreBrackets};
ghost use Rattle.vb_ends.specs.Enders.{AreOpen, BreaksBackwards, IsBroken};
ghost use Rattle.vb_ends.specs.OpenBlocks.{open_blocks};
ghost use Rattle.vb_ends.specs.Roles.{AreOpenBehind};

/// A law for callers' proofs: where each block has an end and each end a block, the blocks stand one behind or inside the
/// other, as brackets do. It does nothing.
pub fn blocks_nest()
    ensures { (marks : List Mark) → ((line : ℕ) → IsBroken marks line → ⊥) → AreBrackets marks }
{}

/// A law for callers' proofs: where the blocks stand as brackets do, each has an end, and each end a block. It does nothing.
pub fn brackets_end()
    ensures { (marks : List Mark) → AreBrackets marks → (line : ℕ) → IsBroken marks line → ⊥ }
{}

/// A law for callers' proofs: where each ender closes the innermost open block and one is open at the end, a block has no end.
/// It does nothing.
pub fn open_blocks_break()
    ensures { (marks : List Mark) (s : OneSort) (ss : List OneSort) → AreOpenBehind marks (s ∷ ss) → (line : ℕ) × BreaksBackwards marks line }
{}

/// A law for callers' proofs: the list of the open blocks has those that are open, the innermost first. It does nothing.
pub fn open_blocks_are_open()
    ensures { (marks : List Mark) → AreOpen (open_blocks marks) marks }
{}
