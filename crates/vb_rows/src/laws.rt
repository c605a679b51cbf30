// What callers' proofs may hold of rows.
ghost use Rattle.std.specs.Prelude.{◌≡◌, ◌≤◌, List, [], Option, length, All};
ghost use Rattle.vb_syntax.specs.declared.item.Row.{Row as OneRow};
ghost use Rattle.vb_syntax.specs.declared.tokens.Line.{Line as OneLine};
ghost use Rattle.vb_syntax.specs.declared.words.ContextualWords.{ContextualWords as Words};
ghost use Rattle.vb_syntax.specs.ContextualWords.{OptionsApart};
ghost use Rattle.vb_parse_expr.specs.TypeReading.{most_tokens};
ghost use Rattle.vb_rows.specs.Files.{AreRowsOf};
ghost use Rattle.vb_syntax.specs.declared.item.Item.{Item as OneItem};
ghost use Rattle.vb_rows.specs.Production.{InPlaceAsProduced};

use vb_parse_stmt::one_item;

/// A law for callers' proofs: lines have one list of rows, where the words of options are different names. It does nothing.
pub fn one_list_of_rows()
    ensures { (words : Words) (lines : List OneLine) (rows other : List OneRow) → OptionsApart words → All (λ l. length l.tokens ≤ most_tokens) lines → AreRowsOf words [] lines rows → AreRowsOf words [] lines other → rows ≡ other }
{
    one_item();
}

/// A law: the rows of a line are in place exactly where the productions make them a line. It does nothing.
pub fn in_place_as_produced()
    ensures { (words : Words) (before : List (Option OneItem)) (line : OneLine) (rows : List OneRow) → InPlaceAsProduced words before line rows }
{}
