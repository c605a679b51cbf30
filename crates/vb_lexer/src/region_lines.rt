// Lines that begin and end regions (Visual Basic Language Specification 11.0, 3.2).
ghost use Rattle.std.specs.Prelude.{◌≡◌, ◌<◌, ◌≤◌, ◌+◌, length, drop, take};
ghost use Rattle.vb_lexer.specs.Tokens as tokens;
ghost use Rattle.vb_lexer.specs.Pieces as spec;

use crate::characters::{Run, behind, ends_line, is_at, name_at, run_len};
use crate::keywords::is_word;
use crate::literals::{content_len, quoted_at};
use crate::piece::{Fault, Found, Piece, broken, make_found};

// Whether nothing but white space and a comment is left in the line, where white space has been passed over.
fn is_rest(text: &[Option<char>]) -> bool
    ensures { result ≡ spec.is_rest text.now }
{
    ends_line(text) || is_at(text, 0, '\'') || is_word_at(text, b"rem")
}

fn behind_space(text: &[Option<char>]) -> &[Option<char>]
    ensures { result.now ≡ spec.behind_space text.now }
{
    behind(text, run_len(Run::Space, text))
}

// Whether the whole word, given in lower case, stands at the front.
fn is_word_at(text: &[Option<char>], word: &[u8]) -> bool
    ensures { result ≡ spec.is_word_at word.now text.now }
{
    is_word(name_at(text), word)
}

// A region line whose literal is this piece and which has so many characters.
fn region_start(literal: Piece, length: usize, text: &[Option<char>]) -> Found
    ensures { result ≡ spec.region_start literal length text.now }
{
    match literal {
        Piece::Text => make_found(Piece::RegionStart, length),
        Piece::Fault(Fault::NotUtf8) => broken(Fault::NotUtf8, text),
        _ => broken(Fault::NumberSign, text),
    }
}

// `#Region`, white space of so many characters, and a string literal.
#[tactic(auto, unfolding(crate::specs::Pieces::region_start_of))]
fn region_start_of(spaces: usize, text: &[Option<char>]) -> Found
    requires { spaces ≤ length text.now }
    ensures { result ≡ spec.region_start_of spaces text.now }
{
    if !is_at(text, spaces + 7, '"') {
        return broken(Fault::NumberSign, text);
    }
    let Some(content) = content_len(behind(text, spaces + 8)) else {
        return broken(Fault::NumberSign, text);
    };
    let length = spaces + 7 + content + 2;
    if is_rest(behind_space(behind(text, length))) {
        let whole = length + run_len(Run::Remark, behind(text, length));
        region_start(quoted_at(behind(text, spaces + 7)).piece, whole, text)
    } else {
        broken(Fault::NumberSign, text)
    }
}

// `#End`, white space of so many characters, and `Region`.
#[tactic(auto, unfolding(crate::specs::Pieces::region_end_of))]
fn region_end_of(spaces: usize, text: &[Option<char>]) -> Found
    requires { spaces ≤ length text.now }
    ensures { result ≡ spec.region_end_of spaces text.now }
{
    if is_word_at(behind(text, spaces + 4), b"region")
        && is_rest(behind_space(behind(text, spaces + 10)))
    {
        make_found(
            Piece::RegionEnd,
            spaces + 10 + run_len(Run::Remark, behind(text, spaces + 10)),
        )
    } else {
        broken(Fault::NumberSign, text)
    }
}

/// The piece that `#` begins at the front of a line.
pub fn region_at(text: &[Option<char>]) -> Found
    ensures { result ≡ spec.region_at text.now }
{
    let word = behind(text, 1);
    if is_word_at(word, b"region") {
        region_start_of(run_len(Run::Space, behind(text, 7)), text)
    } else if is_word_at(word, b"end") {
        region_end_of(run_len(Run::Space, behind(text, 4)), text)
    } else {
        broken(Fault::NumberSign, text)
    }
}
