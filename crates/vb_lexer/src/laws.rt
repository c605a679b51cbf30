// What callers' proofs may hold of the lines of a file.
ghost use Rattle.std.specs.Prelude.{◌≡◌, ◌∷◌, ◌++◌, ◌||◌, ℕ, true, List, Option as Optional};
ghost use Rattle.vb_diag.specs.declared.refusal.Refusal.{Refusal as OneRefusal};
ghost use Rattle.vb_diag.specs.Broken.{IsLeast, InFile};
ghost use Rattle.vb_text.specs.Names.{AreApart, Extends};
ghost use Rattle.vb_syntax.specs.declared.tokens.Line.{Line};
ghost use Rattle.vb_lexer.specs.Characters.{Character};
ghost use Rattle.vb_lexer.specs.declared.piece.Before.{Before};
ghost use Rattle.vb_lexer.specs.declared.piece.Piece.{Piece};
ghost use Rattle.vb_lexer.specs.Pieces.{Part, Falls, file_front, spelled};
ghost use Rattle.vb_lexer.specs.Lines.{Lexed, LexedFrom, Breaks, is_token};
ghost use Rattle.vb_lexer.specs.Longest.{Spells, IsLongest, stands_instead};

/// A law for callers' proofs: a file is its logical lines in one way, so bytes have at most one list of lines with the
/// names of a table. It does nothing.
pub fn one_reading()
    ensures { (table : List (List ℕ)) (file : ℕ) (bytes : List ℕ) (lines others : List Line) → AreApart table → Lexed table file bytes lines → Lexed table file bytes others → lines ≡ others }
{}

/// A law for callers' proofs: the names of a file are added to a table in one way. It does nothing.
pub fn one_table()
    ensures { (earlier table other : List (List ℕ)) (file other_file : ℕ) (bytes : List ℕ) (lines others : List Line) → LexedFrom earlier table file bytes lines → LexedFrom earlier other other_file bytes others → table ≡ other }
{}

/// A law for callers' proofs: a file that has logical lines breaks no rule. It does nothing.
pub fn lines_or_refusal()
    ensures { (table : List (List ℕ)) (file : ℕ) (bytes : List ℕ) (lines : List Line) (line rule : ℕ) → Lexed table file bytes lines → Breaks bytes line rule → ⊥ }
{}

/// A law for callers' proofs: a file has one least refusal, or none. It does nothing.
pub fn one_refusal()
    ensures { (file : ℕ) (bytes : List ℕ) (first other : Optional OneRefusal) → IsLeast (InFile file (Breaks bytes)) first → IsLeast (InFile file (Breaks bytes)) other → first ≡ other }
{}

/// A law for callers' proofs: put one after another, the pieces of a text spell it. It does nothing.
pub fn pieces_spell()
    ensures { (text : List Character) (parts : List Part) → Falls file_front text parts → spelled parts ≡ text }
{}

/// A law for callers' proofs: the lines of a file stay its lines when the table of names grows. It does nothing.
pub fn lines_stay()
    ensures { (table later : List (List ℕ)) (file : ℕ) (bytes : List ℕ) (lines : List Line) → Lexed table file bytes lines → Extends later table → Lexed later file bytes lines }
{}

/// A law for callers' proofs: where a text falls into pieces, the first of them, if it is a token, is spelled as its sort
/// is, and no longer front of the text is a token of any sort; so is each further one in what stands behind. It does nothing.
pub fn longest_token()
    ensures { (before : Before) (text : List Character) (first : Part) (others : List Part) → Falls before text (first ∷ others) → is_token first.piece ≡ true → IsLongest before.dot text first }
{}

/// A law for callers' proofs: where a token stands at the front of a text, the first piece is a token, the comment of `REM`,
/// or a place that breaks the rule on numbers, literals, bytes that are no UTF-8 or long names. It does nothing.
pub fn token_taken()
    ensures { (before : Before) (text : List Character) (first : Part) (others : List Part) (other : Piece) (front behind : List Character) → Falls before text (first ∷ others) → text ≡ front ++ behind → Spells before.dot other front → (is_token first.piece || stands_instead first.piece) ≡ true }
{}
