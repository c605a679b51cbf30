// Expressions as they are read, told with each operation between brackets.

use crate::read::{Reader, SEVENTH, check, lexed};
use std::alloc::{AllocError, Global};
use std::test::Fail;
use vb_parse_expr::{
    ParseErr, parse_expr, parse_initializer, parse_primary, parse_simple_type, parse_type,
};
use vb_syntax::{Line, Lines};
use vb_text::NameTable;

const OPERATORS: [(&str, &str); 16] = [
    ("a = Not b And c", "[[[a]=[![b]]]And[c]]"),
    ("Not a = b", "[![[a]=[b]]]"),
    ("-a * b", "[[~[a]]*[b]]"),
    ("a * Not b + c", "[[a]*[![[b]+[c]]]]"),
    ("-Not a + b", "[~[![[a]+[b]]]]"),
    ("a - b - c * d Then", "[[[a]-[b]]-[[c]*[d]]] .."),
    ("AddressOf a.b", "[address[[a].b]]"),
    ("AddressOf a.b(c)", "[address[call[[a].b] [c]]]"),
    ("TypeOf a.b Is c.d() Is e", "[[typeof[[a].b].c.d()]Is[e]]"),
    ("TypeOf a Is Integer(b)", "[call[typeof[a]Integer] [b]]"),
    ("TypeOf -a Is b", "V030 at 7"),
    (
        "TypeOf AddressOf TypeOf a Is b Is c",
        "[typeof[address[typeof[a].b]].c]",
    ),
    ("a +", "V030 at 7"),
    ("a Like b)", "[a] .."),
    ("a + Like", "V032 at 7"),
    ("(a", "V030 at 7"),
];

const PRIMARIES: [(&str, &str); 16] = [
    ("New a.b()", "[new.a.b]"),
    ("New a(b, c).d", "[[new.a [b] [c]].d]"),
    (
        "New a(Of b(Of Integer()), c).d",
        "[[new.a<.b<Integer()>><.c>].d]",
    ),
    (
        "New a(b) {c, {}, {d, 1}}",
        "[array.a[b]{ [c] {} { [d] [1]}}]",
    ),
    ("New Integer() {}", "[arrayInteger{}]"),
    ("New a(b, c) {d}", "V030 at 7"),
    ("a(Of b)(c)()", "[call[call[a<.b>] [c]]]"),
    ("CInt(a + b)", "[to Integer[[a]+[b]]]"),
    ("CType(a, b(Of c))", "[CType[a].b<.c>]"),
    ("If(a, b, c).d", "[[if[a][b][c]].d]"),
    ("If(a, b)", "V030 at 7"),
    ("(a) + ((Me))", "[[paren[a]]+[paren[paren[me]]]]"),
    ("{a, {b}}", "{ [a] { [b]}}"),
    ("a()", "[call[a]]"),
    ("a(b,)", "V030 at 7"),
    ("a {b}", "V030 at 7"),
];

#[test]
fn expressions_are_read(rt: HostRuntime) -> Result<(), Fail> {
    check(&rt, rt.alloc(), Reader::Expression, SEVENTH, &OPERATORS)?;
    check(&rt, rt.alloc(), Reader::Expression, SEVENTH, &PRIMARIES)?;
    Ok(())
}

// The lines of a text.
fn lines_of(alloc: Global, text: &str) -> Result<Lines, AllocError> {
    let mut names = NameTable::new(alloc)?;
    match lexed(alloc, text.as_bytes(), &mut names) {
        Ok(lines) => Ok(lines),
        Err(_) => Err(AllocError),
    }
}

// The place behind what was found, or 0.
fn place_of<X: Drop>(found: Result<(X, usize), ParseErr>) -> usize {
    match found {
        Ok((_, place)) => place,
        Err(_) => 0,
    }
}

fn places_of(alloc: Global, line: &Line, from: usize) -> (usize, usize, usize, usize, usize) {
    let expression = place_of(parse_expr(alloc, line, from));
    let primary = place_of(parse_primary(alloc, line, from));
    let initializer = place_of(parse_initializer(alloc, line, from));
    let name = place_of(parse_type(alloc, line, from));
    let simple = place_of(parse_simple_type(alloc, line, from));
    (expression, primary, initializer, name, simple)
}

// From each place on, the place behind an expression, a primary, an initialiser, a type and a type that is no array; a place past the
// line's end has nothing.
const PLACES: [(usize, (usize, usize, usize, usize, usize)); 7] = [
    (0, (13, 6, 13, 1, 1)),
    (2, (5, 5, 5, 5, 3)),
    (4, (0, 0, 0, 0, 0)),
    (8, (13, 13, 13, 13, 11)),
    (14, (15, 15, 15, 15, 15)),
    (15, (0, 0, 0, 0, 0)),
    (16, (0, 0, 0, 0, 0)),
];

#[test]
fn each_kind_is_read(rt: HostRuntime) -> Result<(), Fail> {
    let alloc = rt.alloc();
    let lines = lines_of(alloc, "a(b()) = New c.d(), e")?;
    let line = lines.as_slice().first().ok_or("no line")?;
    for (from, places) in PLACES {
        assert_eq!(rt; places_of(alloc, line, from), places, "{from}");
    }
    Ok(())
}

// So many times the first text, then the second, and so many times the third.
fn nested(alloc: Global, times: usize, parts: (&str, &str, &str)) -> Result<String, AllocError> {
    let mut text = String::new(alloc);
    for _ in 0..times {
        text.push_str(parts.0)?;
    }
    text.push_str(parts.1)?;
    for _ in 0..times {
        text.push_str(parts.2)?;
    }
    Ok(text)
}

// Lines as wide as a line may be, 4,096 tokens or a few fewer.
const LONGEST: [((&str, &str, &str), usize, bool); 11] = [
    (("(", "a", ")"), 2047, true),
    (("a(", "b", ")"), 1365, true),
    (("Not ", "a", ""), 4095, true),
    (("AddressOf ", "a", ""), 4095, true),
    (("TypeOf ", "a", " Is b"), 1365, true),
    (("a * Not ", "a", ""), 1365, true),
    (("a + ", "a", ""), 2047, true),
    (("", "a", ".b"), 2047, true),
    (("a(Of ", "b", ")"), 1023, true),
    (("New a() {", "b", "}"), 682, true),
    (("(", "", ""), 4096, false),
];

#[test]
fn the_longest_lines_are_read(rt: HostRuntime) -> Result<(), Fail> {
    let alloc = rt.alloc();
    for (parts, times, is_read) in LONGEST {
        let lines = lines_of(alloc, &nested(alloc, times, parts)?)?;
        let line = lines.as_slice().first().ok_or("no line")?;
        let length = line.tokens.len();
        assert!(rt; 4090 < length && length <= 4096, "{times} times: {length}");
        let found = place_of(parse_expr(alloc, line, 0));
        assert_eq!(rt; found == length, is_read, "{times} times");
    }
    Ok(())
}
