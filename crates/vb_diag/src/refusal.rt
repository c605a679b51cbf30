// A broken rule, and the line that tells it.
ghost use Rattle.std.specs.Prelude.{◌≡◌, ◌++◌, IfOk, OnOk, OnErr};
ghost use Rattle.vb_diag.specs.Rules.{refusal_text, three_digits};

use crate::rule::{Rule, rule_text};
use itoa::Buffer;
use std::alloc::{AllocError, Global};

/// A rule that a line of a file breaks. The lesser of two, by file, line and number, is told before the other.
#[derive(Clone, Copy, Debug, PartialEq, Eq, PartialOrd, Ord)]
pub struct Refusal {
    /// The file, from 0 in the order in which the files were given.
    pub file: u32,
    /// The line of the file, from 1.
    pub line: u32,
    /// The rule.
    pub rule: Rule,
}

/// Appends the line that tells a refusal: `FILE(LINE): error VNNN: TEXT` and the line's end, where
/// `file` is the name of the file and NNN the rule's number in three digits.
///
/// The error is want of memory, and `into` then holds what it held.
pub fn refusal_line(file: &str, refusal: &Refusal, into: &mut Vec<u8>) -> Result<(), AllocError>
    ensures ok { OnOk result (into.new.items ≡ into.old.items ++ refusal_text file.now refusal.now.line refusal.now.rule) }
    ensures err { OnErr result (into.new.items ≡ into.old.items) }
{
    let line = line_of(*into.allocator(), file, refusal)?;
    into.extend_from_slice(&line)
}

// The line that tells a refusal.
fn line_of(alloc: Global, file: &str, refusal: &Refusal) -> Result<Vec<u8>, AllocError>
    ensures { IfOk result (λ line. line.items ≡ refusal_text file.now refusal.now.line refusal.now.rule) }
{
    let mut buffer = Buffer::new();
    let mut line = Vec::from_slice(alloc, file.as_bytes())?;
    line.extend_from_slice(b"(")?;
    line.extend_from_slice(buffer.format(refusal.line).as_bytes())?;
    line.extend_from_slice(b"): error V")?;
    line.extend_from_slice(&digits_of(refusal.rule.number()))?;
    line.extend_from_slice(b": ")?;
    line.extend_from_slice(rule_text(refusal.rule).as_bytes())?;
    line.extend_from_slice(b"\n")?;
    Ok(line)
}

// The last three digits of a number.
fn digits_of(number: u16) -> [u8; 3]
    ensures { result ≡ three_digits number }
{
    [
        b'0' + (number / 100 % 10) as u8,
        b'0' + (number / 10 % 10) as u8,
        b'0' + (number % 10) as u8,
    ]
}
