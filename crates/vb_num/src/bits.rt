// The operators on the bits of a number: two's complement in the width of its kind.
ghost use Rattle.std.specs.Prelude.{◌≡◌, ◌-◌, ◌<◌};
ghost use Rattle.vb_num.specs.Kind.{span};
ghost use Rattle.vb_num.specs.Operators as spec;

use crate::{Kind, Num};

/// The number of the kind with the bits that `a` lacks (Visual Basic Language Specification 11.0, 11.16).
pub fn not(a: Num) -> Num
    ensures kind { result.kind ≡ a.kind }
    ensures value { result.value ≡ spec.no_bits a.kind a.value }
{
    of_bits(a.kind, last_bits(a.kind) - bits(a))
}

/// The number with the bits that both have, of one kind (Visual Basic Language Specification 11.0, 11.16).
pub fn and(a: Num, b: Num) -> Num
    requires { a.kind ≡ b.kind }
    ensures kind { result.kind ≡ a.kind }
    ensures value { result.value ≡ spec.both_bits a.kind a.value b.value }
{
    of_bits(a.kind, bits(a) & bits(b))
}

/// The number with the bits that one or both have, of one kind (Visual Basic Language Specification 11.0, 11.16).
pub fn or(a: Num, b: Num) -> Num
    requires { a.kind ≡ b.kind }
    ensures kind { result.kind ≡ a.kind }
    ensures value { result.value ≡ spec.either_bits a.kind a.value b.value }
{
    of_bits(a.kind, bits(a) | bits(b))
}

/// The number with the bits that just one has, of one kind (Visual Basic Language Specification 11.0, 11.16).
pub fn xor(a: Num, b: Num) -> Num
    requires { a.kind ≡ b.kind }
    ensures kind { result.kind ≡ a.kind }
    ensures value { result.value ≡ spec.other_bits a.kind a.value b.value }
{
    of_bits(a.kind, bits(a) ^ bits(b))
}

/// The bits of `a`, moved up: what goes out is lost. Of the count only the lowest bits count: 3 for a width of 8, 4 for 16, 5 for 32
/// and 6 for 64 (Visual Basic Language Specification 11.0, 11.18).
pub fn shl(a: Num, count: i32) -> Num
    ensures kind { result.kind ≡ a.kind }
    ensures value { result.value ≡ spec.shifted_left a.kind a.value count }
{
    let moved = bits(a) << places(a.kind, count);
    of_bits(a.kind, moved & last_bits(a.kind))
}

/// The bits of `a`, moved down: the sign stays, as the quotient by a power of two is rounded down. The count is read as by [`shl`]
/// (Visual Basic Language Specification 11.0, 11.18).
pub fn shr(a: Num, count: i32) -> Num
    ensures kind { result.kind ≡ a.kind }
    ensures value { result.value ≡ spec.shifted_right a.kind a.value count }
{
    Num {
        kind: a.kind,
        value: a.value >> places(a.kind, count),
    }
}

fn places(kind: Kind, count: i32) -> u32
    ensures { result ≡ spec.places kind count }
{
    count.rem_euclid(kind.width() as i32) as u32
}

// All bits of the width.
fn last_bits(kind: Kind) -> u64
    ensures { result ≡ span kind - 1 }
{
    match kind {
        Kind::Byte | Kind::SByte => 0xFF,
        Kind::Short | Kind::UShort => 0xFFFF,
        Kind::Integer | Kind::UInteger => 0xFFFF_FFFF,
        Kind::Long | Kind::ULong => 0xFFFF_FFFF_FFFF_FFFF,
    }
}

fn bits(a: Num) -> u64
    ensures bits { result ≡ spec.bits a.kind a.value }
    ensures few { result < span a.kind }
{
    if a.value < 0 {
        last_bits(a.kind) - !a.value as u64
    } else {
        a.value as u64
    }
}

fn of_bits(kind: Kind, bits: u64) -> Num
    requires { bits < span kind }
    ensures kind { result.kind ≡ kind }
    ensures value { result.value ≡ spec.of_bits kind bits }
{
    let number = i128::from(bits);
    let value = if number <= kind.greatest() {
        number
    } else {
        number - i128::from(last_bits(kind)) - 1
    };
    Num { kind, value }
}
