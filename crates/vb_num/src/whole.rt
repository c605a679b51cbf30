// Whole numbers from text.
ghost use Rattle.std.specs.Prelude.{◌≡◌, ◌+◌, ◌-◌, ◌*◌, ◌≤◌, min, take, drop, length};
ghost use Rattle.std.specs.Str.Parse.{AllDigits};
ghost use Rattle.vb_num.specs.Whole.{Parses};
ghost use Rattle.vb_num.specs.WholeReading as spec;

use crate::{Kind, Num, Thrown, number};

// What goes on for several units.
#[derive(Clone, Copy)]
enum Run {
    Blanks,
    Digits,
}

// Above each number of a kind.
const TOO_LARGE: u128 = 0x1_0000_0000_0000_0000;

/// The number of a kind that a text spells: blanks, a sign or none, one decimal digit or more, and blanks, as the Parse of each
/// integral type of .NET reads it. A blank is a tab, a line feed, a vertical tab, a form feed, a carriage return or a space.
///
/// `Format` comes exactly where the text is none, and `Overflow` where the number is outside the kind's range. It takes no memory.
pub fn parse_whole(units: &[u16], kind: Kind) -> Result<Num, Thrown>
    ensures { Parses units.now kind result }
{
    let text = behind_run(Run::Blanks, units);
    let (digits, after) = digits_of(behind_sign(text));
    if digits.is_empty() || !behind_run(Run::Blanks, after).is_empty() {
        return Err(Thrown::Format);
    }
    number(kind, with_sign(is_minus(text), capped_value(digits)))
}

fn behind_run(run: Run, units: &[u16]) -> &[u16]
    ensures { result.now ≡ drop (spec.run_len (spec.is_in_run run) units.now) units.now }
{
    &units[run_len(run, units)..]
}

fn digits_of(units: &[u16]) -> (&[u16], &[u16])
    ensures digits { result.0.now ≡ take (spec.run_len spec.is_digit units.now) units.now }
    ensures after { result.1.now ≡ drop (spec.run_len spec.is_digit units.now) units.now }
{
    units.split_at(run_len(Run::Digits, units))
}

// How many units at the front are of the run.
fn run_len(run: Run, units: &[u16]) -> usize
    ensures count { result ≡ spec.run_len (spec.is_in_run run) units.now }
    ensures within { result ≤ length units.now }
{
    for (i, unit) in units.iter().enumerate() {
        if !is_in_run(run, *unit) {
            return i;
        }
    }
    units.len()
}

fn is_in_run(run: Run, unit: u16) -> bool
    ensures { result ≡ spec.is_in_run run unit }
{
    match run {
        Run::Blanks => 9 <= unit && unit <= 13 || unit == 32,
        Run::Digits => 48 <= unit && unit <= 57,
    }
}

fn behind_sign(units: &[u16]) -> &[u16]
    ensures { result.now ≡ spec.behind_sign units.now }
{
    match units {
        [45 | 43, behind @ ..] => behind,
        _ => units,
    }
}

fn is_minus(units: &[u16]) -> bool
    ensures { result ≡ spec.is_minus units.now }
{
    matches!(units, [45, ..])
}

// The number that the digits write, or one above each number of a kind.
fn capped_value(digits: &[u16]) -> u128
    requires { AllDigits 10 digits.now }
    ensures { result ≡ spec.capped_value digits.now }
{
    let mut value = 0;
    for digit in digits {
        value = with_digit(value, *digit);
    }
    value
}

fn with_digit(value: u128, digit: u16) -> u128
    requires { value ≤ spec.too_large }
    ensures { result ≡ min (value * 10 + (digit - 48)) spec.too_large }
{
    (value * 10 + u128::from(digit.saturating_sub(48))).min(TOO_LARGE)
}

fn with_sign(minus: bool, size: u128) -> i128
    requires { size ≤ spec.too_large }
    ensures { result ≡ spec.with_sign minus size }
{
    if minus { -(size as i128) } else { size as i128 }
}
