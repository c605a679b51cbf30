// Files, each told by the program that it is, or by why it is none.

use crate::read::{ALONE, MAIN, Reader, check, file_of, told};
use std::test::Fail;

// Lines of a `Main` that is a program. A local without a first value is told by `-`.
const PROGRAMS: [(&str, &str); 13] = [
    ("", "program"),
    (
        "Dim I As Integer = 1 / Dim Square As Integer / While i <= 10 / square = I * i / Console.WriteLine(Square) / i = i + 1 / End While",
        "program 1 -; while $0 LessOrEqual 10; $1 = $0 Mul $0; write $1; $0 = $0 Add 1; end",
    ),
    (
        "Dim Text As Integer = 2147483647 / While 1 <> Text / End While",
        "program 2147483647; while 1 NotEqual $0; end",
    ),
    ("Console.WRITELINE(1)", "program; write 1"),
    (
        "Dim a As Integer = 16 / Dim [End] As Integer / [END] = A",
        "program 16 -; $1 = $0",
    ),
    ("Dim a As Integer", "program -"),
    (
        "DIM a AS INTEGER = 7 / dim B as integer = A\r / \r /  \t / \tb = a - B / console . writeline ( b )\r",
        "program 7 $0; $1 = $0 Sub $1; write $1",
    ),
    (
        "Dim a As Integer = 5 / While 3 < a / a = a - 1 / End While / While a >= 3 / a = a - 1 / End While / While a > 2 / End While / While a = 3 / End While",
        "program 5; while 3 Less $0; $0 = $0 Sub 1; end; while $0 GreaterOrEqual 3; $0 = $0 Sub 1; end; while $0 Greater 2; end; while $0 Equal 3; end",
    ),
    (
        "Dim i As Integer _/ = 3 / Console.WriteLine(i +/ 1)",
        "program 3; write $0 Add 1",
    ),
    (
        "#Region \"values\"/Dim [Dim] As Integer = &H10 ' sixteen/#End Region/Console.WriteLine([DIM])/REM none",
        "program 16; write $0",
    ),
    (
        "Dim Stra\u{df}e As Integer = 2 / Console.WriteLine(STRA\u{df}E)",
        "program 2; write $0",
    ),
    (
        "Console.WriteLine(1) : Console.WriteLine(2)",
        "program; write 1; write 2",
    ),
    (
        "Dim a As Integer / While a < 1 / While a < 2 / Console.WriteLine(a) / End While / End While",
        "program -; while $0 Less 1; while $0 Less 2; write $0; end; end",
    ),
];

// Lines of a `Main` that has built forms alone, and is none.
const NAMES: [(&str, &str); 13] = [
    ("Console.WriteLine(a)", "no program"),
    ("Console.WriteLine(1 + 2)", "no program"),
    ("Console.WriteLine(a * b)", "no program"),
    ("Dim a As Integer = b / Dim b As Integer", "no program"),
    ("Dim a As Integer / Dim A As Integer", "no program"),
    ("Dim squares As Integer", "no program"),
    ("Dim main As Integer", "no program"),
    ("Dim a As Integer / a = 1 / Dim b As Integer", "no program"),
    (
        "Dim a As Integer / While a < 1 / Dim b As Integer / End While",
        "no program",
    ),
    ("Dim a As Integer = b", "no program"),
    ("a = 1 + 2", "no program"),
    (
        "While a < 1 / a = b / Dim b As Integer / End While",
        "no program",
    ),
    ("a = 1 / Dim a As Integer / Dim A As Integer", "no program"),
];

// Lines of a `Main` with forms that aren't built, and the line of the first.
const FORMS: [(&str, &str); 23] = [
    ("Return", "no program at 5"),
    ("Dim a As Long", "no program at 5"),
    ("Const a As Integer = 1", "no program at 5"),
    ("Dim a() As Integer", "no program at 5"),
    ("Dim a As Integer = a + 1", "no program at 5"),
    ("Console.WriteLine(2147483648)", "no program at 5"),
    ("Console.WriteLine(255L)", "no program at 5"),
    ("Console.WriteLine(1, 1)", "no program at 5"),
    ("Console.Write(1)", "no program at 5"),
    ("1 = a", "no program at 5"),
    ("Dim a As Integer / a = a And 1", "no program at 6"),
    ("a = 1 < 2", "no program at 5"),
    ("While a / End While", "no program at 5"),
    ("If 1 = 1 Then Console.WriteLine(1)", "no program at 5"),
    ("Do While 1 = 1 / Loop", "no program at 5"),
    ("Dim i As Integer / i = 1 + 2 * i", "no program at 6"),
    // The first of several.
    ("a = 1 / Return / Console.Write(a)", "no program at 6"),
    (
        "While a < 1 / a = 1 / Return / End While",
        "no program at 7",
    ),
    (
        "While a < 1 / While b < 1 / Return / End While / End While / Return",
        "no program at 7",
    ),
    ("a = 1 / While a / Return / End While", "no program at 6"),
    (
        "While a < 1 / While b / End While / Return / End While",
        "no program at 6",
    ),
    // A rule of the grammar before any form.
    ("Dim i As Long / x = = 1", "V030 at 6"),
    ("Return / Dim d As Date", "V032 at 6"),
];

// Files around a `Main`. A form that isn't built is told before one inside; too many or too few parts have each a form, and are no
// program.
const AROUND: [(&str, &str); 22] = [
    ("", "no program"),
    (
        "Imports System / Module M / Sub Main() / Console.WriteLine(1) / End Sub / End Module",
        "program; write 1",
    ),
    (
        "Option Compare Binary / Imports System / Module M / Sub Main() / Return / End Sub / End Module",
        "no program at 1",
    ),
    (
        "Module M / Sub Main() / Console.WriteLine(1) / End Sub / End Module",
        "no program",
    ),
    (
        "Module M / Sub Main() / Return / End Sub / End Module",
        "no program at 3",
    ),
    (
        "Imports Squares / Module M / Sub Main() / Return / End Sub / End Module",
        "no program at 1",
    ),
    (
        "Imports System / Imports System / Module M / Sub Main() / Console.WriteLine(1) / End Sub / End Module",
        "no program",
    ),
    (
        "Imports System / Imports System / Module M / Sub Main() / Return / End Sub / End Module",
        "no program at 5",
    ),
    (
        "Imports System / Public Module M / Sub Main() / Return / End Sub / End Module",
        "no program at 2",
    ),
    (
        "Imports System / Module M / Sub Main() / End Sub / End Module / Module N / Sub Main() / End Sub / End Module",
        "no program",
    ),
    (
        "Imports System / Module M / Sub Main() / Return / End Sub / End Module / Module N / Sub Main() / Return / End Sub / End Module",
        "no program at 4",
    ),
    (
        "Imports System / Module M / Sub Squares() / Return / End Sub / End Module",
        "no program at 3",
    ),
    (
        "Imports System / Module M / Public Sub Main() / Return / End Sub / End Module",
        "no program at 3",
    ),
    (
        "Imports System / Module M / Dim a As Integer / End Module",
        "no program at 3",
    ),
    (
        "Imports System / Module M / Sub Main(a As Integer) / End Sub / End Module",
        "no program at 3",
    ),
    ("Imports System / Class C / End Class", "no program at 2"),
    // The usual front of a file, whose second line isn't built.
    (
        "Imports System / Imports System.Threading / Module M / Sub Main() / End Sub / End Module",
        "no program at 2",
    ),
    (
        "Imports System / Imports System.Threading / Module M / Sub Main() / If True Then Console.WriteLine(1) Else Console.WriteLine(2) / End Sub / End Module",
        "no program at 2",
    ),
    (
        "Imports System / Imports System.Threading / Module M / Sub Main() / Dim d As Date / End Sub / End Module",
        "V032 at 5",
    ),
    (
        "Imports System / Imports System.Threading / Module M / Sub Main() / Class X / End Class / End Sub / End Module",
        "V034 at 5",
    ),
    (
        "Imports System / Imports System.Threading / Module M / Sub Main() / If True Then / End Sub / End Module",
        "V031 at 5",
    ),
    (
        "Imports System / Imports System.Threading / Module M / Sub Main() / Dim i As Integer = (1 +_/2) / End Sub / End Module",
        "V005 at 5",
    ),
];

#[test]
fn programs_are_read(rt: HostRuntime) -> Result<(), Fail> {
    check(&rt, rt.alloc(), Reader::Program, MAIN, &PROGRAMS)?;
    check(&rt, rt.alloc(), Reader::Program, MAIN, &NAMES)?;
    check(&rt, rt.alloc(), Reader::Program, MAIN, &FORMS)?;
    check(&rt, rt.alloc(), Reader::Program, ALONE, &AROUND)?;
    Ok(())
}

#[test]
fn loops_in_loops_are_read(rt: HostRuntime) -> Result<(), Fail> {
    let alloc = rt.alloc();
    let mut text = String::from_str(alloc, "Dim a As Integer / ")?;
    text.push_str(&"While a < 1 / ".repeat(alloc, 50)?)?;
    text.push_str("Console.WriteLine(a)")?;
    text.push_str(&" / End While".repeat(alloc, 50)?)?;
    let mut wanted = String::from_str(alloc, "program -")?;
    wanted.push_str(&"; while $0 Less 1".repeat(alloc, 50)?)?;
    wanted.push_str("; write $0")?;
    wanted.push_str(&"; end".repeat(alloc, 50)?)?;
    let file = file_of(alloc, MAIN, &text)?;
    let seen = told(alloc, Reader::Program, &file)?;
    assert_eq!(rt; seen.as_str(), wanted.as_str());
    Ok(())
}
