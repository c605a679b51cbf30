// What was read of a file, piece by piece.
ghost use Rattle.std.specs.Prelude.{◌≡◌, ◌≤◌, ◌<◌, ◌+◌, ◌^◌, ◌++◌, ◌∷◌, [], ℕ, Bool, true, false, List, length, take, drop, IfOk, OnOk, OnErr, Err, Some, if◌then◌else◌};
ghost use Rattle.vb_text.specs.Names.{Extends};
ghost use Rattle.vb_lexer.specs.declared.piece.Piece.TheVariants as piece;
ghost use Rattle.vb_lexer.specs.Characters.{Character};
ghost use Rattle.vb_lexer.specs.Pieces.{Part};
ghost use Rattle.vb_lexer.specs.Lines as spec;
ghost use Rattle.vb_lexer.specs.Lines.{Item, item, IsToken, is_token};
ghost use Rattle.vb_lexer.specs.Reader.{Reads, with_broken as spec_with_broken, closed_line, closed_least, parts_lines, items_here};

use crate::piece::{Fault, Piece, rule_of};
use std::alloc::{AllocError, Global};
use std::mem;
use vb_diag::{Refusal, broken_at, lesser};
use vb_syntax::{Items, Keyword, Line, Symbol, Token};

// The most tokens of a logical line.
const MOST_TOKENS: usize = 4096;

/// The logical lines that were read of a file.
#[derive(Drop)]
pub struct Reader {
    pub file: u32,
    /// The logical lines that are whole.
    pub lines: Items<Line>,
    /// The tokens of the logical line at hand, and its number.
    pub tokens: Items<Token>,
    pub start: u32,
    /// Whether the line goes on behind its last token, whatever comes.
    pub goes_on: bool,
    /// Whether a line end stands behind the last token.
    pub breaks: bool,
    /// The number of a logical line that would begin here.
    pub line: u32,
    /// The least rule that a logical line breaks.
    pub least: Option<Refusal>,
}

// Whether a line goes on behind a token.
fn goes_on(piece: Piece) -> bool
    ensures { result ≡ spec.goes_on piece }
{
    match piece {
        Piece::Symbol(symbol) => !matches!(
            symbol,
            Symbol::CloseParenthesis | Symbol::CloseBrace | Symbol::Colon
        ),
        Piece::Keyword(keyword) => matches!(
            keyword,
            Keyword::Of
                | Keyword::Mod
                | Keyword::Is
                | Keyword::IsNot
                | Keyword::And
                | Keyword::AndAlso
                | Keyword::Or
                | Keyword::OrElse
                | Keyword::Xor
        ),
        _ => false,
    }
}

// Whether a line goes on before a token.
fn closes(piece: Piece) -> bool
    ensures { result ≡ spec.closes piece }
{
    matches!(
        piece,
        Piece::Symbol(Symbol::CloseParenthesis | Symbol::CloseBrace)
    )
}

// The least of the broken rules, where a line of the file breaks one more.
fn with_broken(least: Option<Refusal>, file: u32, line: u32, fault: Fault) -> Option<Refusal>
    ensures { result ≡ spec_with_broken least file line fault }
{
    lesser(least, broken_at(file, rule_of(fault), Some(line)))
}

impl Reader {
    /// Nothing was read.
    pub fn new(alloc: Global, file: u32) -> Self
        ensures reads { (table : List (List ℕ)) → Reads table result [] }
        ensures line { result.line ≡ 1 }
        ensures breaks { result.breaks ≡ true }
        ensures file { result.file ≡ file }
    {
        Reader {
            file,
            lines: Items::new(alloc),
            tokens: Items::new(alloc),
            start: 1,
            goes_on: false,
            breaks: true,
            line: 1,
            least: None,
        }
    }

    /// The logical line at hand is whole.
    pub fn close(&mut self, alloc: Global) -> Result<(), AllocError>
        ensures lines { OnOk result (self.new.lines ≡ self.old.lines ++ closed_line self.old.file self.old.start self.old.tokens) }
        ensures least { OnOk result (self.new.least ≡ closed_least self.old.least self.old.file self.old.start self.old.tokens) }
        ensures tokens { OnOk result (self.new.tokens ≡ []) }
        ensures start { self.new.start ≡ self.old.start }
        ensures goes_on { self.new.goes_on ≡ self.old.goes_on }
        ensures breaks { self.new.breaks ≡ self.old.breaks }
        ensures line { self.new.line ≡ self.old.line }
        ensures file { self.new.file ≡ self.old.file }
    {
        if self.tokens.is_empty() {
            return Ok(());
        }
        let tokens = mem::replace(&mut self.tokens, Items::new(alloc));
        if tokens.len() > MOST_TOKENS {
            self.least = with_broken(self.least, self.file, self.start, Fault::LongLine);
            return Ok(());
        }
        let (file, number) = (self.file, self.start);
        self.lines.push(Line {
            file,
            number,
            tokens,
        })?;
        Ok(())
    }

    // An item comes, before which the line goes on in any case where `closes` says so.
    fn begin_item(&mut self, alloc: Global, closes: bool) -> Result<(), AllocError>
        ensures lines { OnOk result (self.new.lines ≡ (if parts_lines self.old closes then self.old.lines ++ closed_line self.old.file self.old.start self.old.tokens else self.old.lines)) }
        ensures least { OnOk result (self.new.least ≡ (if parts_lines self.old closes then closed_least self.old.least self.old.file self.old.start self.old.tokens else self.old.least)) }
        ensures tokens { OnOk result (self.new.tokens ≡ (if parts_lines self.old closes then [] else self.old.tokens)) }
        ensures fresh { OnOk result (self.new.tokens ≡ [] → self.new.start ≡ self.old.line) }
        ensures start { OnOk result ((self.new.tokens ≡ [] → ⊥) → self.new.start ≡ self.old.start) }
        ensures line { self.new.line ≡ self.old.line }
        ensures file { self.new.file ≡ self.old.file }
    {
        if self.breaks && !self.goes_on && !closes {
            self.close(alloc)?;
        }
        if self.tokens.is_empty() {
            self.start = self.line;
        }
        Ok(())
    }

    /// The physical line ends; a logical line that would begin behind it has the number `next`.
    pub fn end_line(&mut self, next: u32)
        ensures reads { (table : List (List ℕ)) (items : List Item) → Reads table self.old items → Reads table self.new items }
        ensures line { self.new.line ≡ next }
        ensures breaks { self.new.breaks ≡ true }
        ensures file { self.new.file ≡ self.old.file }
    {
        self.line = next;
        self.breaks = true;
    }

    /// A token comes.
    pub fn add_token(&mut self, alloc: Global, piece: Piece, token: Token) -> Result<(), AllocError>
        ensures reads { OnOk result ((table : List (List ℕ)) (items : List Item) (p : Part) → p.piece ≡ piece → IsToken table p token
            → Reads table self.old items → Reads table self.new (items ++ item p self.old.line self.old.breaks ∷ [])) }
        ensures breaks { OnOk result (self.new.breaks ≡ false) }
        ensures line { self.new.line ≡ self.old.line }
        ensures file { self.new.file ≡ self.old.file }
    {
        let (closes, goes_on) = (closes(piece), goes_on(piece));
        self.begin_item(alloc, closes)?;
        self.tokens.push(token)?;
        self.goes_on = goes_on;
        self.breaks = false;
        Ok(())
    }

    /// A place comes that breaks a rule; the logical line ends with it.
    pub fn add_fault(&mut self, alloc: Global, fault: Fault) -> Result<(), AllocError>
        ensures reads { OnOk result ((table : List (List ℕ)) (items : List Item) (p : Part) → p.piece ≡ piece.Fault fault
            → Reads table self.old items → Reads table self.new (items ++ item p self.old.line self.old.breaks ∷ [])) }
        ensures breaks { OnOk result (self.new.breaks ≡ false) }
        ensures line { self.new.line ≡ self.old.line }
        ensures file { self.new.file ≡ self.old.file }
    {
        self.begin_item(alloc, false)?;
        self.least = with_broken(self.least, self.file, self.start, fault);
        self.close(alloc)?;
        self.breaks = false;
        Ok(())
    }
}
