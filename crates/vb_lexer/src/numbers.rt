// Integer literals (Visual Basic Language Specification 11.0, 2.4.2).
ghost use Rattle.std.specs.Prelude.{◌≡◌, ◌<◌, ◌≤◌, ◌^◌, true, nat_lt, if◌then◌else◌, length, Some, None};
ghost use Rattle.vb_lexer.specs.Tokens as spec;
ghost use Rattle.vb_lexer.specs.Tokens.{suffixes, suffix_in, suffix_type, suffix_len, value_from};

use crate::characters::{Run, char_at, run_len};
use crate::piece::{Base, Fault, Found, Piece, broken, make_found};
use vb_syntax::{IntegerLiteral, IntegerType};

/// Whether the text stands at the front, in any ASCII case.
pub fn starts(word: &[u8], text: &[Option<char>]) -> bool
    ensures found { result ≡ spec.starts word.now text.now }
    ensures within { result ≡ true → length word.now ≤ length text.now }
{
    for (i, byte) in word.iter().enumerate() {
        match char_at(text, i) {
            Some(c) if c.to_ascii_lowercase() as u32 == u32::from(*byte) => {}
            _ => return false,
        }
    }
    true
}

fn base_number(base: Base) -> u64
    ensures { result ≡ spec.base_number base }
{
    match base {
        Base::Decimal => 10,
        Base::Hexadecimal => 16,
        Base::Octal => 8,
    }
}

fn digit_value(character: Option<char>) -> u64
    ensures value { result ≡ spec.digit_value character }
    ensures small { result < 2 ^ 32 }
{
    match character {
        Some(c) => digit_code_value(c),
        None => 0,
    }
}

fn digit_code_value(c: char) -> u64
    ensures value { result ≡ spec.digit_code_value c }
    ensures small { result < 2 ^ 32 }
{
    let code = u64::from(c as u32);
    if code <= 57 {
        code.saturating_sub(48)
    } else if code <= 70 {
        code.saturating_sub(55)
    } else {
        code.saturating_sub(87)
    }
}

/// The value of the digits, if it has no more than 64 bits.
pub fn value_of(base: Base, digits: &[Option<char>]) -> Option<u64>
    ensures { result ≡ (let value = value_from (spec.base_number base) 0 digits.now in if nat_lt value (2 ^ 64) then Some value else None) }
{
    let number = base_number(base);
    let mut total: u64 = 0;
    for character in digits {
        let digit = digit_value(*character);
        if total > (u64::MAX - digit) / number {
            return None;
        }
        total = total * number + digit;
    }
    Some(total)
}

/// The type that a suffix at the front names, and how many characters it has.
pub fn suffix_of(text: &[Option<char>]) -> (Option<IntegerType>, usize)
    ensures kind { result.0 ≡ suffix_type (suffix_in suffixes text.now) }
    ensures len { result.1 ≡ suffix_len (suffix_in suffixes text.now) }
    ensures within { result.1 ≤ length text.now }
{
    if starts(b"us", text) {
        (Some(IntegerType::UShort), 2)
    } else if starts(b"ui", text) {
        (Some(IntegerType::UInteger), 2)
    } else if starts(b"ul", text) {
        (Some(IntegerType::ULong), 2)
    } else if starts(b"s", text) {
        (Some(IntegerType::Short), 1)
    } else if starts(b"i", text) || starts(b"%", text) {
        (Some(IntegerType::Integer), 1)
    } else if starts(b"l", text) || starts(b"&", text) {
        (Some(IntegerType::Long), 1)
    } else {
        (None, 0)
    }
}

fn decimal_bound(kind: IntegerType) -> u128
    ensures { result ≡ spec.decimal_bound kind }
{
    match kind {
        IntegerType::Short => 1 << 15,
        IntegerType::UShort => 1 << 16,
        IntegerType::Integer => 1 << 31,
        IntegerType::UInteger => 1 << 32,
        IntegerType::Long => 1 << 63,
        IntegerType::ULong => 1 << 64,
    }
}

fn bits_bound(kind: IntegerType) -> u128
    ensures { result ≡ spec.bits_bound kind }
{
    match kind {
        IntegerType::Short | IntegerType::UShort => 1 << 16,
        IntegerType::Integer | IntegerType::UInteger => 1 << 32,
        IntegerType::Long | IntegerType::ULong => 1 << 64,
    }
}

fn bits_value(kind: IntegerType, number: u64) -> i128
    ensures { result ≡ spec.bits_value kind number }
{
    let number = u128::from(number);
    if number < decimal_bound(kind) {
        return number as i128;
    }
    let over = (bits_bound(kind) - 1).saturating_sub(number);
    -1 - over as i128
}

// The literal of so many decimal digits.
fn decimal_literal(kind: Option<IntegerType>, digits: usize, number: u64) -> Option<IntegerLiteral>
    ensures { result ≡ spec.decimal_literal kind digits number }
{
    let is_digit = kind.is_none() && digits == 1;
    let kind = match kind {
        Some(kind) => kind,
        None if u128::from(number) < decimal_bound(IntegerType::Integer) => IntegerType::Integer,
        None => IntegerType::Long,
    };
    if u128::from(number) < decimal_bound(kind) {
        Some(IntegerLiteral {
            kind,
            value: i128::from(number),
            is_digit,
        })
    } else {
        None
    }
}

fn bits_literal(kind: Option<IntegerType>, number: u64) -> Option<IntegerLiteral>
    ensures { result ≡ spec.bits_literal kind number }
{
    let kind = match kind {
        Some(kind) => kind,
        None if u128::from(number) < bits_bound(IntegerType::Integer) => IntegerType::Integer,
        None => IntegerType::Long,
    };
    if u128::from(number) < bits_bound(kind) {
        Some(IntegerLiteral {
            kind,
            value: bits_value(kind, number),
            is_digit: false,
        })
    } else {
        None
    }
}

/// The literal of so many digits with this type and number, if the type has it.
#[tactic(auto, unfolding(crate::specs::Tokens::literal_of))]
pub fn literal_of(
    base: Base,
    kind: Option<IntegerType>,
    digits: usize,
    number: u64,
) -> Option<IntegerLiteral>
    ensures { result ≡ spec.literal_of base kind digits number }
{
    match base {
        Base::Decimal => decimal_literal(kind, digits, number),
        Base::Hexadecimal | Base::Octal => bits_literal(kind, number),
    }
}

#[tactic(auto, using(crate::proofs::Values::too_large))]
fn literal_in(
    base: Base,
    kind: Option<IntegerType>,
    digits: &[Option<char>],
) -> Option<IntegerLiteral>
    ensures { result ≡ spec.literal_of base kind (length digits.now) (value_from (spec.base_number base) 0 digits.now) }
{
    match value_of(base, digits) {
        Some(number) => literal_of(base, kind, digits.len(), number),
        None => None,
    }
}

/// The number whose digits stand behind so many characters.
pub fn number_at(base: Base, mark: usize, text: &[Option<char>]) -> Found
    requires { mark ≤ length text.now }
    ensures { result ≡ spec.number_at base mark text.now }
{
    let behind = &text[mark..];
    let n = run_len(Run::Digits(base), behind);
    if n == 0 {
        return broken(Fault::NumberLiteral, text);
    }
    let (kind, suffix) = suffix_of(&behind[n..]);
    match literal_in(base, kind, &behind[..n]) {
        Some(literal) => make_found(Piece::Integer(literal), mark + n + suffix),
        None => broken(Fault::NumberLiteral, text),
    }
}
