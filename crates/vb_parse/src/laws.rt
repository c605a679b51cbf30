// What callers' proofs may hold of lines that have a tree.
ghost use Rattle.std.specs.Prelude.{◌≤◌, ℕ, List, length, All};
ghost use Rattle.vb_syntax.specs.declared.declaration.SourceFile.{SourceFile as Tree};
ghost use Rattle.vb_syntax.specs.declared.tokens.Line.{Line as OneLine};
ghost use Rattle.vb_syntax.specs.declared.words.ContextualWords.{ContextualWords as Words};
ghost use Rattle.vb_syntax.specs.ContextualWords.{OptionsApart};
ghost use Rattle.vb_parse_expr.specs.TypeReading.{most_tokens};
ghost use Rattle.vb_parse.specs.Excluded.{BreakNoRuleOfForm};
ghost use Rattle.vb_parse.specs.Rules.{IsTreeOf};

use vb_rows::one_list_of_rows;
use vb_tree::{tree_has_ends, tree_is_placed};

/// A law for callers' proofs: where the lines of a file have a tree, their blocks have their ends, no row is misplaced, and no line breaks the
/// rule on its form but the first by a colon at its front, where the words of options are different names. It does nothing.
pub fn tree_excludes()
    ensures { (words : Words) (file : ℕ) (lines : List OneLine) (tree : Tree) → OptionsApart words → All (λ l. length l.tokens ≤ most_tokens) lines → IsTreeOf words file lines tree → BreakNoRuleOfForm words lines }
{
    one_list_of_rows();
    tree_is_placed();
    tree_has_ends();
}
