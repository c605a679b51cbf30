// What callers' proofs may hold of rows that are a tree.
ghost use Rattle.std.specs.Prelude.{ℕ, List};
ghost use Rattle.vb_syntax.specs.declared.item.Row.{Row as OneRow};
ghost use Rattle.vb_syntax.specs.declared.declaration.SourceFile.{SourceFile as Tree};
ghost use Rattle.vb_blocks.specs.Trees.{IsTree};
ghost use Rattle.vb_tree.specs.Excluded.{ArePlaced, HaveEnds, HaveItems};

use vb_ends::brackets_end;

/// A law for callers' proofs: no row of a tree is misplaced. It does nothing.
pub fn tree_is_placed()
    ensures { (file : ℕ) (rows : List OneRow) (t : Tree) → IsTree file rows t → ArePlaced rows }
{}

/// A law for callers' proofs: in a tree each block has an end, and each end a block. It does nothing.
pub fn tree_has_ends()
    ensures { (file : ℕ) (rows : List OneRow) (t : Tree) → IsTree file rows t → HaveEnds rows }
{
    brackets_end();
}

/// A law for callers' proofs: each row of a tree has an item. It does nothing.
pub fn tree_has_items()
    ensures { (file : ℕ) (rows : List OneRow) (t : Tree) → IsTree file rows t → HaveItems rows }
{}
