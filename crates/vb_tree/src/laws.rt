// What callers' proofs may hold of trees.
ghost use Rattle.std.specs.Prelude.{◌≡◌, ℕ, List};
ghost use Rattle.vb_syntax.specs.declared.item.Row.{Row as OneRow};
ghost use Rattle.vb_syntax.specs.declared.declaration.SourceFile.{SourceFile as Tree};
ghost use Rattle.vb_blocks.specs.Trees.{IsTree};

/// A law for callers' proofs: the rows of a file are one tree at most. It does nothing.
pub fn one_tree()
    ensures { (file : ℕ) (rows : List OneRow) (t u : Tree) → IsTree file rows t → IsTree file rows u → t ≡ u }
{}
