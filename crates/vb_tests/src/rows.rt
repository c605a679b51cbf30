// The rows of lines, each told in words.

use crate::read::{FILE, Reader, SEVENTH, check, lexed, tell_rows};
use crate::words_of;
use std::alloc::{AllocError, Global};
use std::test::Fail;
use vb_rows::{FileRows, read_rows};
use vb_syntax::{Items, Lines};
use vb_text::NameTable;

// Lines of the grammar with colons or an `Else`.
const COLONS: [(&str, &str); 15] = [
    ("x = 1 : y", "[x] gets [1]. run [y]. fine"),
    ("x = 1 : : : y :", "[x] gets [1]. run [y]. fine"),
    ("a : b", "label a. run [b]. fine"),
    ("[a] : b", "label a. run [b]. fine"),
    ("a :", "label a. fine"),
    ("a : : b : c", "label a. run [b]. run [c]. fine"),
    ("a : Dim b As Integer", "label a. Dim b as Integer. fine"),
    ("Case Else", "case else. fine"),
    ("Case Else : x", "case else. run [x]. fine"),
    ("Else", "else. fine"),
    ("Else : x", "else. run [x]. fine"),
    ("If a Then : x", "if [a]. run [x]. fine"),
    ("If a Then x : While b", "if [a]> run [x]. while [b]. fine"),
    ("If a Then x : If b Then", "if [a]> run [x]. if [b]. fine"),
    ("If a Then x : : y :", "if [a]> run [x]: run [y]. fine"),
];

// Lines with `If`s on one line.
const IFS: [(&str, &str); 5] = [
    ("If a Then b Else c", "if [a]> run [b]| run [c]. fine"),
    (
        "If a Then If b Then x Else y",
        "if [a]> if [b]> run [x]| run [y]. fine",
    ),
    (
        "If a Then x = 1 : y = 1 Else z = 1",
        "if [a]> [x] gets [1]: [y] gets [1]| [z] gets [1]. fine",
    ),
    (
        "If a Then If b Then x Else y Else z",
        "if [a]> if [b]> run [x]| run [y]| run [z]. fine",
    ),
    (
        "If a Then x : If b Then y Else z Else c",
        "if [a]> run [x]: if [b]> run [y]| run [z]| run [c]. fine",
    ),
];

// Lines that aren't of the grammar where they are the first.
const BROKEN: [(&str, &str); 15] = [
    (": x", "run [x]. V030 at 7"),
    (":", "V030 at 7"),
    ("If a : x Else y", "if [a]. run [x]| run [y]. V030 at 7"),
    ("If a Then x : Else y", "if [a]> run [x]. none. V030 at 7"),
    ("If a Then While b", "if [a]> while [b]. V030 at 7"),
    ("If a Then If b", "if [a]> if [b]. V030 at 7"),
    ("If a Then Else x", "if [a]> none| run [x]. V030 at 7"),
    ("x = 1 Else y", "[x] gets [1]| run [y]. V030 at 7"),
    (
        "If a Then x Else y Else z",
        "if [a]> run [x]| run [y]| run [z]. V030 at 7",
    ),
    ("While a Else x", "while [a]| run [x]. V030 at 7"),
    ("ElseIf a Then x", "elseif [a]> run [x]. V030 at 7"),
    ("Dim d As Date", "none. V032 at 7"),
    ("x = 1 : Date", "[x] gets [1]. none. V032 at 7"),
    (
        "x = 1 : While : y = Date",
        "[x] gets [1]. none. none. V032 at 7",
    ),
    ("x = 1 : y =", "[x] gets [1]. none. V030 at 7"),
];

// Several lines.
const FILES: [(&str, &str); 8] = [
    ("", "fine"),
    ("x / : y / z = 1 :", "run [x]. run [y]. [z] gets [1]. fine"),
    (
        "x / While a Else x / Date",
        "run [x]. while [a]| run [x]. none. V030 at 8",
    ),
    (
        "Iterator Function a() As Integer / Yield 1 : End Function / Yield 1",
        "iterator function a as Integer. yield [1]. end Function. none. V030 at 9",
    ),
    (
        "MustOverride Iterator Function a() As Integer / x / Yield 1",
        "must override iterator function a as Integer. run [x]. none. V030 at 9",
    ),
    (
        "Iterator Function a() As Integer / Sub b() / Yield 1",
        "iterator function a as Integer. sub b. none. V030 at 9",
    ),
    (
        "Class c / Iterator Function a() As Integer / End Sub / Yield 1",
        "class c. iterator function a as Integer. end Sub. yield [1]. fine",
    ),
    (
        "Iterator Function a() As Integer / While b / Yield 1 / End While / Yield 2",
        "iterator function a as Integer. while [b]. yield [1]. end While. yield [2]. fine",
    ),
];

// `Yield` outside an iterator's body is a name.
const YIELDS: [(&str, &str); 1] = [(
    "Yield 1 / Yield(1) / x",
    "none. run [call[?] [1]]. run [x]. V030 at 7",
)];

#[test]
fn lines_fall_into_rows(rt: HostRuntime) -> Result<(), Fail> {
    check(&rt, rt.alloc(), Reader::Rows, SEVENTH, &COLONS)?;
    check(&rt, rt.alloc(), Reader::Rows, SEVENTH, &IFS)?;
    check(&rt, rt.alloc(), Reader::Rows, SEVENTH, &BROKEN)?;
    check(&rt, rt.alloc(), Reader::Rows, SEVENTH, &FILES)?;
    check(&rt, rt.alloc(), Reader::Rows, SEVENTH, &YIELDS)?;
    Ok(())
}

// Adds the line of a text, with a number.
fn add_line(
    alloc: Global,
    names: &mut NameTable,
    lines: &mut Lines,
    number: u32,
    text: &str,
) -> Result<(), AllocError> {
    let Ok(mut found) = lexed(alloc, text.as_bytes(), names) else {
        return Err(AllocError);
    };
    if let Some(mut line) = found.pop() {
        line.number = number;
        lines.push(line)?;
    }
    Ok(())
}

// What is read of these lines, with their numbers.
pub fn read(
    alloc: Global,
    names: &mut NameTable,
    numbered: &[(u32, &str)],
) -> Result<FileRows, AllocError> {
    let words = words_of(names)?;
    let mut lines = Items::new(alloc);
    for (number, text) in numbered {
        add_line(alloc, names, &mut lines, *number, text)?;
    }
    read_rows(alloc, &words, FILE, lines.as_slice())
}

const UNORDERED: [(u32, &str); 3] = [(9, "x ="), (8, "Date"), (8, "x =")];

#[test]
fn the_least_line_is_refused(rt: HostRuntime) -> Result<(), Fail> {
    let alloc = rt.alloc();
    let mut names = NameTable::new(alloc)?;
    let found = read(alloc, &mut names, &UNORDERED)?;
    let mut out = String::new(alloc);
    tell_rows(&mut out, &mut names, &found)?;
    assert_eq!(rt; out.as_str(), "none. none. none. V030 at 8");
    Ok(())
}

const NESTED: [(u32, &str); 4] = [
    (7, "a : x = (1) : y = ((1))"),
    (8, "y(z(((1))))"),
    (8, "If (a) Then If b Then x = (1) Else y()"),
    (9, ")(}{{ Date ) : x()"),
];

#[test]
fn nesting_is_counted_by_row(rt: HostRuntime) -> Result<(), Fail> {
    let alloc = rt.alloc();
    let mut names = NameTable::new(alloc)?;
    let found = read(alloc, &mut names, &NESTED)?;
    assert_eq!(rt;
        found.depths.as_slice(),
        [0, 1, 2, 4, 1, 1, 3, 3, 2, 1].as_slice()
    );
    let mut numbers = Items::new(alloc);
    for row in found.rows.as_slice() {
        numbers.push(row.line)?;
    }
    assert_eq!(rt;
        numbers.as_slice(),
        [7, 7, 7, 8, 8, 8, 8, 8, 9, 9].as_slice()
    );
    let refusal = found.refusal.ok_or("fine")?;
    assert_eq!(rt;
        (refusal.file, refusal.line, refusal.rule.number()),
        (FILE, 9, 32)
    );
    Ok(())
}
