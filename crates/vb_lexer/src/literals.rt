// String and character literals (Visual Basic Language Specification 11.0, 2.4.4 and 2.4.5).
ghost use Rattle.std.specs.Prelude.{◌≡◌, ◌<◌, [], ◌∷◌, ◌++◌, ◌≤◌, if◌then◌else◌, length, take, drop, slice_index, IfOk, IfSome, OnOk};
ghost use Rattle.std.specs.Char.Escape.{encode_utf16};
ghost use Rattle.vb_lexer.specs.Tokens as spec;

use crate::characters::{behind, char_at, is_at, is_line_end, is_readable};
use crate::numbers::starts;
use crate::piece::{Fault, Found, Piece, broken, make_found};
use std::alloc::{AllocError, Global};

// The most units of a text.
const MOST_UNITS: usize = 1_048_576;

/// How many characters stand before the quote that ends a literal, if it ends in its line. The text is what stands behind the
/// quote that begins it.
pub fn content_len(text: &[Option<char>]) -> Option<usize>
    ensures len { result ≡ spec.content_len text.now }
    ensures within { IfSome result (λ n. n < length text.now) }
{
    let mut i = 0;
    while i < text.len() {
        if is_line_end(char_at(text, i)) {
            return None;
        }
        let quote = is_at(text, i, '"');
        if quote && !is_at(text, i + 1, '"') {
            return Some(i);
        }
        i += step_by(quote);
    }
    None
}

// How many characters one of a literal's takes: a quote is doubled.
fn step_by(quote: bool) -> usize
    ensures { result ≡ (if quote then 2 else 1) }
{
    if quote { 2 } else { 1 }
}

fn push_units(units: &mut Vec<u16>, character: Option<char>) -> Result<(), AllocError>
    ensures { OnOk result (units.new.items ≡ units.old.items ++ spec.units_of (character ∷ [])) }
{
    match character {
        Some(c) => {
            let mut room = [0; 2];
            units.extend_from_slice(c.encode_utf16(&mut room))
        }
        None => Ok(()),
    }
}

/// The units of a literal's content. The error is want of memory.
pub fn units_of(alloc: Global, content: &[Option<char>]) -> Result<Vec<u16>, AllocError>
    ensures { IfOk result (λ v. v.items ≡ spec.units_of content.now) }
{
    let mut units = Vec::with_capacity(alloc, units_len(content))?;
    let mut i = 0;
    while i < content.len() {
        push_units(&mut units, char_at(content, i))?;
        i += step_by(is_at(content, i, '"'));
    }
    Ok(units)
}

fn len_utf16(character: Option<char>) -> usize
    ensures len { result ≡ length (spec.units_of (character ∷ [])) }
    ensures small { result ≤ 2 }
{
    match character {
        Some(c) => c.len_utf16(),
        None => 0,
    }
}

/// How many units a literal's content has. It takes no memory.
pub fn units_len(content: &[Option<char>]) -> usize
    ensures { result ≡ length (spec.units_of content.now) }
{
    let mut count = 0;
    let mut i = 0;
    while i < content.len() {
        count += len_utf16(char_at(content, i));
        i += step_by(is_at(content, i, '"'));
    }
    count
}

/// The first unit of a literal's content, if it has one.
pub fn first_unit(content: &[Option<char>]) -> u16
    ensures { result ≡ slice_index (spec.units_of content.now) 0 }
{
    for character in content {
        match *character {
            Some(c) => return lead_unit(c),
            None => {}
        }
    }
    0
}

fn lead_unit(c: char) -> u16
    ensures { result ≡ slice_index (encode_utf16 c) 0 }
{
    let mut room = [0; 2];
    c.encode_utf16(&mut room)[0]
}

// A character literal of this content, if that is one unit. Bytes that are no UTF-8 have no unit.
#[tactic(auto, unfolding(crate::specs::Tokens::char_literal))]
fn char_of(content: &[Option<char>], text: &[Option<char>]) -> Found
    requires { content.now ≡ take (length content.now) (drop 1 text.now) }
    ensures { result ≡ spec.char_literal (length content.now) (spec.units_of content.now) text.now }
{
    let count = units_len(content);
    if count > 1 {
        broken(Fault::TextLiteral, text)
    } else if !is_readable(content) {
        broken(Fault::NotUtf8, text)
    } else if count == 1 {
        make_found(Piece::Char(first_unit(content)), content.len() + 3)
    } else {
        broken(Fault::TextLiteral, text)
    }
}

// A string literal of this content, if that is no longer than a text may be.
#[tactic(auto, unfolding(crate::specs::Tokens::text_literal))]
fn text_of(content: &[Option<char>], text: &[Option<char>]) -> Found
    requires { content.now ≡ take (length content.now) (drop 1 text.now) }
    ensures { result ≡ spec.text_literal (length content.now) (spec.units_of content.now) text.now }
{
    if units_len(content) > MOST_UNITS {
        broken(Fault::TextLiteral, text)
    } else if !is_readable(content) {
        broken(Fault::NotUtf8, text)
    } else {
        make_found(Piece::Text, content.len() + 2)
    }
}

/// The literal that begins with the quote at the front.
pub fn quoted_at(text: &[Option<char>]) -> Found
    ensures { result ≡ spec.quoted_at text.now }
{
    let rest = behind(text, 1);
    let Some(n) = content_len(rest) else {
        return broken(Fault::TextLiteral, text);
    };
    let content = &rest[..n];
    if starts(b"c", &rest[n + 1..]) {
        char_of(content, text)
    } else {
        text_of(content, text)
    }
}
