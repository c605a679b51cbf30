// What stands at a place of a text.
ghost use Rattle.std.specs.Prelude.{◌≡◌};
ghost use Rattle.vb_lexer.specs.Tokens as tokens;
ghost use Rattle.vb_lexer.specs.Lines.{fault_rule};

use crate::characters::{Run, run_len};
use vb_diag::Rule;
use vb_syntax::{IntegerLiteral, Keyword, Symbol};

/// A lexical rule that a text may break.
#[derive(Clone, Copy, Debug, PartialEq, Eq)]
pub enum Fault {
    /// Bytes are no UTF-8.
    NotUtf8,
    /// A character belongs to no token.
    UnknownCharacter,
    /// A string or character literal is malformed.
    TextLiteral,
    /// An integer literal is malformed or doesn't fit.
    NumberLiteral,
    /// An underscore is no continuation and no part of a name.
    Underscore,
    /// A bracketed name is malformed.
    BracketedName,
    /// A logical line has too many tokens.
    LongLine,
    /// A line with `#` is no region line.
    NumberSign,
    /// A region isn't closed or wasn't opened.
    Region,
    /// A name is too long.
    LongName,
}

/// A piece of a text.
#[derive(Clone, Copy, Debug, PartialEq, Eq)]
pub enum Piece {
    Name,
    EscapedName,
    Keyword(Keyword),
    Integer(IntegerLiteral),
    Text,
    Char(u16),
    Symbol(Symbol),
    /// One character of white space.
    Space,
    Comment,
    /// White space, an underscore and a line end.
    Continuation,
    LineEnd,
    RegionStart,
    RegionEnd,
    /// A place that breaks a rule, and what follows it in its physical line.
    Fault(Fault),
}

/// A piece, and how many characters it has.
#[derive(Clone, Copy, Debug, PartialEq, Eq)]
pub struct Found {
    pub piece: Piece,
    pub length: usize,
}

/// What stands before a place.
#[derive(Clone, Copy, Debug, PartialEq, Eq)]
pub struct Before {
    /// Nothing but white space stands before it in its physical line.
    pub line_front: bool,
    /// The token before it is a dot.
    pub dot: bool,
}

/// The base of an integer literal.
#[derive(Clone, Copy, Debug, PartialEq, Eq)]
pub enum Base {
    Decimal,
    Hexadecimal,
    Octal,
}

/// So many characters are this piece.
pub fn make_found(piece: Piece, length: usize) -> Found
    ensures { result ≡ tokens.found piece length }
{
    Found { piece, length }
}

/// A place that breaks a rule, with the rest of its physical line.
pub fn broken(fault: Fault, text: &[Option<char>]) -> Found
    ensures { result ≡ tokens.fault fault text.now }
{
    make_found(Piece::Fault(fault), run_len(Run::Line, text))
}

/// The rule of the table.
pub fn rule_of(fault: Fault) -> Rule
    ensures { result ≡ fault_rule fault }
{
    match fault {
        Fault::NotUtf8 => Rule::new(1),
        Fault::UnknownCharacter => Rule::new(2),
        Fault::TextLiteral => Rule::new(3),
        Fault::NumberLiteral => Rule::new(4),
        Fault::Underscore => Rule::new(5),
        Fault::BracketedName => Rule::new(6),
        Fault::LongLine => Rule::new(7),
        Fault::NumberSign => Rule::new(8),
        Fault::Region => Rule::new(9),
        Fault::LongName => Rule::new(10),
    }
}
