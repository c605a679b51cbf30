// Tokens and logical lines.
ghost use Rattle.std.specs.Prelude.{◌≡◌, IfOk};
ghost use Rattle.vb_syntax.specs.Literals as spec;

use crate::keyword::Keyword;
use crate::symbol::Symbol;
use sqlite_items::Items;
use std::alloc::{AllocError, Global};
use vb_text::{Name, Text};

/// The type of an integer literal (Visual Basic Language Specification 11.0, 2.4.2).
#[derive(Clone, Copy, Debug, PartialEq, Eq)]
pub enum IntegerType {
    Short,
    UShort,
    Integer,
    UInteger,
    Long,
    ULong,
}

/// What an integer literal stands for (Visual Basic Language Specification 11.0, 2.4.2). Its value is in the range of its type;
/// it is below 0 only where it was written in base 16 or 8, as the bits of its type.
#[derive(Clone, Copy, Debug, PartialEq, Eq)]
pub struct IntegerValue {
    pub kind: IntegerType,
    pub value: i128,
}

/// An integer literal as it is written (Visual Basic Language Specification 11.0, 2.4.2). Its value is in the range of its
/// type; it is below 0 only where it was written in base 16 or 8, as the bits of its type.
#[derive(Clone, Copy, Debug, PartialEq, Eq)]
pub struct IntegerLiteral {
    pub kind: IntegerType,
    pub value: i128,
    /// Whether it is written as one decimal digit, without a suffix.
    pub is_digit: bool,
}

impl IntegerLiteral {
    /// What it stands for, however it is written.
    pub fn integer(&self) -> IntegerValue
        ensures { result ≡ spec.integer self.now }
    {
        IntegerValue {
            kind: self.kind,
            value: self.value,
        }
    }
}

/// A token (Visual Basic Language Specification 11.0, 2). It keeps what it means, from which a text of it can be written
/// again: the case of a word and the base of a number are left out.
#[derive(Drop)]
pub enum Token {
    /// A name; also a reserved word after a `.`.
    Name(Name),
    /// A name between brackets, which is never read as a word of the grammar.
    EscapedName(Name),
    /// A reserved word.
    Keyword(Keyword),
    /// An integer literal.
    Integer(IntegerLiteral),
    /// A string literal: the text between its quotes, in which a doubled quote is one.
    Text(Text),
    /// A character literal, a UTF-16 unit.
    Char(u16),
    /// A separator or an operator.
    Symbol(Symbol),
}

impl Token {
    /// An equal token. The error is want of memory.
    pub fn copy(&self, alloc: Global) -> Result<Token, AllocError>
        ensures { IfOk result (λ token. token ≡ self.now) }
    {
        Ok(match self {
            Token::Name(name) => Token::Name(*name),
            Token::EscapedName(name) => Token::EscapedName(*name),
            Token::Keyword(keyword) => Token::Keyword(*keyword),
            Token::Integer(literal) => Token::Integer(*literal),
            Token::Text(text) => Token::Text(text.copy(alloc)?),
            Token::Char(unit) => Token::Char(*unit),
            Token::Symbol(symbol) => Token::Symbol(*symbol),
        })
    }
}

/// A logical line (Visual Basic Language Specification 11.0, 2.1): one physical line or several that are continued. It has
/// from 1 to 4,096 tokens.
#[derive(Drop)]
pub struct Line {
    /// The file, from 0 in the order in which the files were given.
    pub file: u32,
    /// The number of its first physical line, from 1.
    pub number: u32,
    /// The tokens, from left to right.
    pub tokens: Items<Token>,
}

/// The logical lines of a file that have tokens, in their order.
pub type Lines = Items<Line>;
