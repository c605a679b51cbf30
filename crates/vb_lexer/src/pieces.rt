// The pieces of a text.
ghost use Rattle.std.specs.Prelude.{◌≡◌, ℕ, ◌<◌, ◌≤◌, ◌+◌, List, [], ◌∷◌, length, take, drop};
ghost use Rattle.vb_lexer.specs.Characters.{run_len};
ghost use Rattle.vb_lexer.specs.Tokens as tokens;
ghost use Rattle.vb_lexer.specs.Pieces as spec;

use crate::characters::{
    Class, Run, behind, char_at, class_of, ends_line, is_at, is_line_end, name_at, run_len,
};
use crate::keywords::{is_word, keyword_of};
use crate::literals::quoted_at;
use crate::numbers::number_at;
use crate::piece::{Base, Before, Fault, Found, Piece, broken, make_found};
use crate::region_lines::region_at;
use crate::symbols::{symbol_len, symbol_of};
use vb_syntax::{Keyword, Symbol};

// The most characters of a name.
const LONGEST_NAME: usize = 1023;

fn keyword_or_name(keyword: Option<Keyword>) -> Piece
    ensures { result ≡ tokens.keyword_or_name keyword }
{
    match keyword {
        Some(keyword) => Piece::Keyword(keyword),
        None => Piece::Name,
    }
}

// A word, which is a name behind a dot.
#[tactic(auto, unfolding(crate::specs::Tokens::word_of))]
fn word_at(dot: bool, text: &[Option<char>]) -> Found
    ensures { result ≡ tokens.word_at dot text.now }
{
    let len = run_len(Run::Name, text);
    let word = name_at(text);
    if len > LONGEST_NAME {
        broken(Fault::LongName, text)
    } else if dot {
        make_found(Piece::Name, len)
    } else if is_word(word, b"rem") {
        make_found(
            Piece::Comment,
            len + run_len(Run::Remark, behind(text, len)),
        )
    } else {
        make_found(keyword_or_name(keyword_of(word)), len)
    }
}

// A name that begins with a connector, such as an underscore.
#[tactic(auto, unfolding(crate::specs::Tokens::connected_of))]
fn connected_at(text: &[Option<char>]) -> Found
    ensures { result ≡ tokens.connected_at text.now }
{
    let len = run_len(Run::Name, text);
    if len < 2 {
        let fault = if is_at(text, 0, '_') {
            Fault::Underscore
        } else {
            Fault::UnknownCharacter
        };
        broken(fault, text)
    } else if len > LONGEST_NAME {
        broken(Fault::LongName, text)
    } else {
        make_found(Piece::Name, len)
    }
}

// Whether a name of so many characters begins with a character of the class.
fn begins_name(class: Class, len: usize) -> bool
    ensures { result ≡ tokens.begins_name class len }
{
    match class {
        Class::Letter => true,
        Class::Connector => len >= 2,
        _ => false,
    }
}

// A name between brackets.
#[tactic(auto, unfolding(crate::specs::Tokens::bracketed_of))]
fn bracketed_at(text: &[Option<char>]) -> Found
    ensures { result ≡ tokens.bracketed_at text.now }
{
    let len = run_len(Run::Name, behind(text, 1));
    let begins = begins_name(class_of(char_at(text, 1)), len);
    if !(begins && is_at(text, len + 1, ']')) {
        broken(Fault::BracketedName, text)
    } else if len > LONGEST_NAME {
        broken(Fault::LongName, text)
    } else {
        make_found(Piece::EscapedName, len + 2)
    }
}

fn symbol_at(text: &[Option<char>]) -> Found
    ensures { result ≡ tokens.symbol_at text.now }
{
    match symbol_of(text) {
        Some(symbol) => make_found(Piece::Symbol(symbol), symbol_len(symbol)),
        None => broken(Fault::UnknownCharacter, text),
    }
}

// Whether an ampersand and the letter, given in lower case, are at the front.
fn is_mark(text: &[Option<char>], letter: char) -> bool
    ensures { result ≡ tokens.starts (38 ∷ letter ∷ []) text.now }
{
    match text {
        [Some(first), Some(second), ..] => *first == '&' && second.to_ascii_lowercase() == letter,
        _ => false,
    }
}

// A number behind `&H` or `&O`, or an operator.
#[tactic(auto, unfolding(crate::specs::Tokens::ampersand_at))]
fn ampersand_at(text: &[Option<char>]) -> Found
    ensures { result ≡ tokens.ampersand_at text.now }
{
    if is_mark(text, 'h') {
        number_at(Base::Hexadecimal, 2, text)
    } else if is_mark(text, 'o') {
        number_at(Base::Octal, 2, text)
    } else {
        symbol_at(text)
    }
}

// How many characters the line end at the front has.
fn line_end_len(text: &[Option<char>]) -> usize
    ensures { result ≡ spec.line_end_len text.now }
{
    match text.split_first() {
        Some((first, rest)) if is_line_end(*first) => {
            if is_at(text, 0, '\r') && is_at(rest, 0, '\n') {
                2
            } else {
                1
            }
        }
        _ => 0,
    }
}

// White space: one character of it, or a continuation of the line.
#[tactic(auto, unfolding(crate::specs::Pieces::space_of))]
fn space_at(text: &[Option<char>]) -> Found
    ensures { result ≡ spec.space_at text.now }
{
    if !is_at(text, 1, '_') {
        return make_found(Piece::Space, 1);
    }
    let len = run_len(Run::Space, behind(text, 2));
    let rest = behind(text, len + 2);
    if ends_line(rest) {
        make_found(Piece::Continuation, len + 2 + line_end_len(rest))
    } else {
        make_found(Piece::Space, 1)
    }
}

// The piece at the front of a text.
#[tactic(auto, unfolding(crate::specs::Pieces::piece_of))]
pub fn piece_at(before: Before, text: &[Option<char>]) -> Found
    requires { 0 < length text.now }
    ensures { result ≡ spec.piece_at before text.now }
{
    match class_of(char_at(text, 0)) {
        Class::Unreadable => broken(Fault::NotUtf8, text),
        Class::LineEnd => make_found(Piece::LineEnd, line_end_len(text)),
        Class::Space => space_at(text),
        Class::Letter => word_at(before.dot, text),
        Class::Connector => connected_at(text),
        Class::Digit => number_at(Base::Decimal, 0, text),
        Class::Quote => quoted_at(text),
        Class::Apostrophe => make_found(Piece::Comment, run_len(Run::Remark, text)),
        Class::Bracket => bracketed_at(text),
        Class::NumberSign if before.line_front => region_at(text),
        Class::NumberSign => broken(Fault::NumberSign, text),
        Class::Ampersand => ampersand_at(text),
        Class::Other => symbol_at(text),
    }
}

fn is_dot(symbol: Symbol) -> bool
    ensures { result ≡ spec.is_dot symbol }
{
    matches!(symbol, Symbol::Dot)
}

/// What stands before the place behind a piece.
pub fn behind_piece(before: Before, piece: Piece) -> Before
    ensures { result ≡ spec.behind before piece }
{
    let (line_front, dot) = match piece {
        Piece::Symbol(symbol) => (false, is_dot(symbol)),
        Piece::Space => (before.line_front, before.dot),
        Piece::LineEnd => (true, before.dot),
        Piece::Comment | Piece::Continuation | Piece::RegionStart | Piece::RegionEnd => {
            (false, before.dot)
        }
        _ => (false, false),
    };
    Before { line_front, dot }
}
