// The characters of a file, and their classes.
ghost use Rattle.std.specs.Prelude.{◌≡◌, ℕ, ◌≤◌, ◌<◌, true, List, length, take, drop, slice_get, IfOk};
ghost use Rattle.unicode.specs.GeneralCategory.{general_category};
ghost use Rattle.vb_lexer.specs.Characters as spec;
ghost use Rattle.vb_lexer.specs.Tokens as tokens;
ghost use Rattle.vb_lexer.specs.Pieces as pieces;
ghost use Rattle.vb_lexer.specs.Characters.{Decodes, run_len};

use crate::piece::Base;
use bstr::decode_utf8;
use std::alloc::{AllocError, Global};
use unicode::properties::GeneralCategory;

/// What a character begins, by itself.
#[derive(Clone, Copy, Debug, PartialEq, Eq)]
pub enum Class {
    /// Bytes that are no UTF-8.
    Unreadable,
    LineEnd,
    Space,
    Letter,
    Connector,
    Digit,
    Quote,
    Apostrophe,
    Bracket,
    NumberSign,
    Ampersand,
    Other,
}

/// Characters that stand one behind the other.
#[derive(Clone, Copy, Debug, PartialEq, Eq)]
pub enum Run {
    /// White space.
    Space,
    /// Characters of a name.
    Name,
    /// What is left of a line.
    Line,
    /// What a comment goes on with.
    Remark,
    /// Digits of the base.
    Digits(Base),
}

/// The characters of a file's bytes, each with `None` where bytes are no UTF-8.
pub fn decoded(alloc: Global, bytes: &[u8]) -> Result<Vec<Option<char>>, AllocError>
    ensures { IfOk result (λ v. Decodes bytes.now v.items) }
{
    let mut text = Vec::new(alloc);
    let mut rest = bytes;
    while 0 < rest.len() {
        let (character, size) = decode_utf8(rest);
        text.push(character)?;
        let (_, behind) = rest.split_at(size);
        rest = behind;
    }
    Ok(text)
}

/// The text without a byte order mark at its front.
pub fn without_mark(text: &[Option<char>]) -> &[Option<char>]
    ensures { result.now ≡ spec.without_mark text.now }
{
    match text.split_first() {
        Some((first, rest)) if is_char(*first, '\u{FEFF}') => rest,
        _ => text,
    }
}

pub fn is_char(character: Option<char>, wanted: char) -> bool
    ensures { result ≡ spec.is_char character wanted }
{
    match character {
        Some(c) => c == wanted,
        None => false,
    }
}

/// The character at a place, if there is one that is readable.
pub fn char_at(text: &[Option<char>], place: usize) -> Option<char>
    ensures { result ≡ tokens.char_at text.now place }
{
    match text.get(place) {
        Some(character) => *character,
        None => None,
    }
}

/// Whether this character stands at a place.
pub fn is_at(text: &[Option<char>], place: usize, wanted: char) -> bool
    ensures { result ≡ spec.is_char (tokens.char_at text.now place) wanted }
{
    is_char(char_at(text, place), wanted)
}

fn is_line_end_code(c: char) -> bool
    ensures { result ≡ spec.is_line_end_code c }
{
    c == '\n' || c == '\r' || c == '\u{2028}' || c == '\u{2029}'
}

pub fn is_line_end(character: Option<char>) -> bool
    ensures { result ≡ spec.is_line_end character }
{
    match character {
        Some(c) => is_line_end_code(c),
        None => false,
    }
}

/// Whether the line or the text ends here.
pub fn ends_line(text: &[Option<char>]) -> bool
    ensures { result ≡ pieces.ends_line text.now }
{
    match text.first() {
        Some(first) => is_line_end(*first),
        None => true,
    }
}

/// What is behind so many characters, or nothing where there are fewer.
pub fn behind(text: &[Option<char>], count: usize) -> &[Option<char>]
    ensures { result.now ≡ drop count text.now }
{
    let (_, rest) = text.split_at(count.min(text.len()));
    rest
}

fn is_letter_category(category: GeneralCategory) -> bool
    ensures { result ≡ spec.is_letter_category category }
{
    matches!(
        category,
        GeneralCategory::UppercaseLetter
            | GeneralCategory::LowercaseLetter
            | GeneralCategory::TitlecaseLetter
            | GeneralCategory::ModifierLetter
            | GeneralCategory::OtherLetter
            | GeneralCategory::LetterNumber
    )
}

fn is_name_category(category: GeneralCategory) -> bool
    ensures { result ≡ spec.is_name_category category }
{
    matches!(
        category,
        GeneralCategory::UppercaseLetter
            | GeneralCategory::LowercaseLetter
            | GeneralCategory::TitlecaseLetter
            | GeneralCategory::ModifierLetter
            | GeneralCategory::OtherLetter
            | GeneralCategory::LetterNumber
            | GeneralCategory::DecimalNumber
            | GeneralCategory::ConnectorPunctuation
            | GeneralCategory::NonspacingMark
            | GeneralCategory::SpacingMark
            | GeneralCategory::Format
    )
}

fn is_connector_category(category: GeneralCategory) -> bool
    ensures { result ≡ spec.is_connector_category category }
{
    matches!(category, GeneralCategory::ConnectorPunctuation)
}

fn is_space_category(category: GeneralCategory) -> bool
    ensures { result ≡ spec.is_space_category category }
{
    matches!(category, GeneralCategory::SpaceSeparator)
}

fn is_decimal_digit(c: char) -> bool
    ensures { result ≡ spec.is_decimal_digit c }
{
    '0' <= c && c <= '9'
}

fn is_space(character: Option<char>) -> bool
    ensures { result ≡ spec.is_space character }
{
    match character {
        Some(c) => c == '\t' || is_space_category(GeneralCategory::for_char(c)),
        None => false,
    }
}

fn is_name_part(character: Option<char>) -> bool
    ensures { result ≡ spec.is_name_part character }
{
    match character {
        Some(c) => is_name_category(GeneralCategory::for_char(c)),
        None => false,
    }
}

fn is_in_line(character: Option<char>) -> bool
    ensures { result ≡ spec.is_in_line character }
{
    match character {
        Some(c) => !is_line_end_code(c),
        None => true,
    }
}

fn is_remark(character: Option<char>) -> bool
    ensures { result ≡ spec.is_remark character }
{
    match character {
        Some(c) => !is_line_end_code(c),
        None => false,
    }
}

fn class_of_category(category: GeneralCategory) -> Class
    ensures { result ≡ spec.class_of_category category }
{
    if is_space_category(category) {
        Class::Space
    } else if is_letter_category(category) {
        Class::Letter
    } else if is_connector_category(category) {
        Class::Connector
    } else {
        Class::Other
    }
}

fn class_of_code(c: char) -> Class
    ensures { result ≡ spec.class_of_code c }
{
    if is_line_end_code(c) {
        Class::LineEnd
    } else if c == '\t' {
        Class::Space
    } else if is_decimal_digit(c) {
        Class::Digit
    } else if c == '"' {
        Class::Quote
    } else if c == '\'' {
        Class::Apostrophe
    } else if c == '[' {
        Class::Bracket
    } else if c == '#' {
        Class::NumberSign
    } else if c == '&' {
        Class::Ampersand
    } else {
        class_of_category(GeneralCategory::for_char(c))
    }
}

pub fn class_of(character: Option<char>) -> Class
    ensures { result ≡ spec.class_of character }
{
    match character {
        Some(c) => class_of_code(c),
        None => Class::Unreadable,
    }
}

fn is_digit_code(base: Base, c: char) -> bool
    ensures { result ≡ tokens.is_digit_code base c }
{
    match base {
        Base::Decimal => '0' <= c && c <= '9',
        Base::Hexadecimal => {
            ('0' <= c && c <= '9') || ('A' <= c && c <= 'F') || ('a' <= c && c <= 'f')
        }
        Base::Octal => '0' <= c && c <= '7',
    }
}

fn is_digit(base: Base, character: Option<char>) -> bool
    ensures { result ≡ tokens.is_digit base character }
{
    match character {
        Some(c) => is_digit_code(base, c),
        None => false,
    }
}

fn is_in_run(run: Run, character: Option<char>) -> bool
    ensures { result ≡ tokens.is_in_run run character }
{
    match run {
        Run::Space => is_space(character),
        Run::Name => is_name_part(character),
        Run::Line => is_in_line(character),
        Run::Remark => is_remark(character),
        Run::Digits(base) => is_digit(base, character),
    }
}

/// How many characters at the front are of the run.
pub fn run_len(run: Run, text: &[Option<char>]) -> usize
    ensures count { result ≡ spec.run_len (tokens.is_in_run run) text.now }
    ensures within { result ≤ length text.now }
{
    for (i, character) in text.iter().enumerate() {
        if !is_in_run(run, *character) {
            return i;
        }
    }
    text.len()
}

/// The characters of a name that are at the front.
#[tactic(auto, using(crate::proofs::Runs::name_readable))]
pub fn name_at(text: &[Option<char>]) -> &[Option<char>]
    ensures name { result.now ≡ take (run_len spec.is_name_part text.now) text.now }
    ensures readable { spec.is_readable result.now ≡ true }
{
    let (name, _) = text.split_at(run_len(Run::Name, text));
    name
}

/// Whether no bytes among these are other than UTF-8.
pub fn is_readable(text: &[Option<char>]) -> bool
    ensures { result ≡ spec.is_readable text.now }
{
    for character in text {
        if character.is_none() {
            return false;
        }
    }
    true
}

/// Whether each character is one of ASCII.
pub fn is_ascii(text: &[Option<char>]) -> bool
    ensures { result ≡ spec.is_ascii text.now }
{
    for character in text {
        match character {
            Some(c) if c.is_ascii() => {}
            _ => return false,
        }
    }
    true
}
