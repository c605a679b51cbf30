// Lines as they are read, each told in words.

use crate::read::{Reader, SEVENTH, check};
use std::test::Fail;

// Lines of the front of a file, headers, ends and declarations.
const DECLARED: [(&str, &str); 20] = [
    ("Option Strict", "option Strict(On)"),
    ("Option Compare Text", "option CompareText"),
    ("Option Strict Strict", "V030 at 7"),
    // Words that are words in some places alone are so in any ASCII case, and in no other letters.
    ("OPTION STRICT ON", "option Strict(On)"),
    ("Option ſtrict", "V030 at 7"),
    ("Imports a.b, c", "imports .a.b .c"),
    ("Imports 1", "V030 at 7"),
    ("Imports a.", "V030 at 7"),
    ("Module a", "module a"),
    ("Sub a()", "sub a"),
    ("Sub", "V030 at 7"),
    ("End While", "end While"),
    ("End", "V030 at 7"),
    ("End If a", "V030 at 7"),
    ("Dim a As Integer", "Dim a as Integer"),
    (
        "Const a, b() As c.d = 1, c(2) As Integer() = {1}",
        "Const a b() as .c.d gets [1] c[2] as Integer() gets { [1]}",
    ),
    (
        "Static a As New b(1), c = 2",
        "Static a new .b [1] c gets [2]",
    ),
    ("Dim a", "V030 at 7"),
    ("Dim a As Integer = 1 2", "V030 at 7"),
    ("Dim a As Integer,", "V030 at 7"),
];

const SIMPLE: [(&str, &str); 17] = [
    ("ReDim a(1 + 2)", "redim a[[1]+[2]]"),
    ("ReDim a", "V030 at 7"),
    (
        "a.b(1)(2).c = b = 3",
        "[[call[call[[a].b] [1]] [2]].c] gets [[b]=[3]]",
    ),
    ("a =", "V030 at 7"),
    ("a += 1", "[a] Add [1]"),
    ("a(b) <<= 2", "[call[a] [b]] ShiftLeft [2]"),
    ("a(1)", "run [call[a] [1]]"),
    ("Call a", "run [a]"),
    ("1 +", "V030 at 7"),
    ("If(a, b, c).d(1)", "run [call[[if[a][b][c]].d] [1]]"),
    ("If(a, b, c) = 1", "[if[a][b][c]] gets [1]"),
    ("Throw", "throw"),
    ("Throw a", "throw [a]"),
    ("Return", "return"),
    ("Return 1", "return [1]"),
    ("Yield 1", "yield [1]"),
    ("Yield = 1", "V030 at 7"),
];

const JUMPS: [(&str, &str); 29] = [
    ("GoTo a", "goto a"),
    ("GoTo", "V030 at 7"),
    ("Exit Sub", "exit Sub"),
    ("Exit", "V030 at 7"),
    ("Continue Do", "continue Do"),
    ("Continue Sub", "V030 at 7"),
    ("On Error GoTo a", "on error goto a"),
    ("On Error GoTo 0", "on error none"),
    ("On Error GoTo -1", "on error forget"),
    ("On Error Resume Next", "on error next"),
    // The literals stand there as they are written: one decimal digit.
    ("On Error GoTo 2", "V030 at 7"),
    ("On Error GoTo &H0", "V030 at 7"),
    ("On Error GoTo 00", "V030 at 7"),
    ("On Error GoTo 0L", "V030 at 7"),
    ("On Error GoTo -&O1", "V030 at 7"),
    ("On Error GoTo -01", "V030 at 7"),
    ("Resume", "resume"),
    ("Resume Next", "resume next"),
    ("Resume a", "resume at a"),
    ("Resume 1", "V030 at 7"),
    ("AddHandler a.b, c", "add [[a].b] [c]"),
    ("RemoveHandler a, b", "remove [a] [b]"),
    ("AddHandler a", "V030 at 7"),
    ("AddHandler (a), b", "add [paren[a]] [b]"),
    ("AddHandler(a As Integer)", "add by value a Integer"),
    ("RaiseEvent()", "raise"),
    ("RaiseEvent a", "raise a"),
    ("RaiseEvent a(1, b)", "raise a [1] [b]"),
    ("RaiseEvent a.b", "V030 at 7"),
];

// What begins, parts or ends a loop or a choice.
const BLOCKS: [(&str, &str); 28] = [
    ("If a = 1 Then", "if [[a]=[1]]"),
    ("If a", "if [a]"),
    ("If (a) Then", "if [paren[a]]"),
    ("If a Then b = 1", "V030 at 7"),
    ("ElseIf a Then", "elseif [a]"),
    ("Else", "else"),
    ("Else a", "V030 at 7"),
    ("While a < 1", "while [[a]<[1]]"),
    ("While", "V030 at 7"),
    ("Do", "do"),
    ("Do While a", "do while [a]"),
    ("Do Until a", "do until [a]"),
    ("Do [Until] a", "V030 at 7"),
    ("Loop Until a", "loop until [a]"),
    ("Loop", "loop"),
    (
        "For a As Integer = 1 To b Step 2",
        "for a Integer [1] to [b] by [2]",
    ),
    ("For a = 1 To 2", "for a [1] to [2]"),
    ("For a = 1", "V030 at 7"),
    ("For Each a In b", "each a in [b]"),
    ("For Each a b", "V030 at 7"),
    ("Next", "next"),
    ("Next a", "next a"),
    ("Next 1", "V030 at 7"),
    ("Select Case a", "select [a]"),
    ("Select a", "select [a]"),
    ("Select", "V030 at 7"),
    ("Case 1, 2 To 3, Is < a, = b", "case [1] [2]to[3] <[a] =[b]"),
    ("Case", "V030 at 7"),
];

// What begins, parts or ends another block.
const GUARDS: [(&str, &str); 13] = [
    ("Case Else", "case else"),
    ("Try", "try"),
    ("Catch a As b.c When d", "catch a .b.c when [d]"),
    ("Catch", "catch"),
    ("Catch When a", "catch when [a]"),
    ("Catch a", "V030 at 7"),
    ("Finally", "finally"),
    ("SyncLock a", "lock [a]"),
    ("With a.b", "with [[a].b]"),
    ("Using a As New b(1)", "using a new .b [1]"),
    ("Using a As b = c", "using a .b gets [c]"),
    ("Using a", "using [a]"),
    ("Using a As b", "V030 at 7"),
];

#[test]
fn simple_statements_are_read(rt: HostRuntime) -> Result<(), Fail> {
    check(&rt, rt.alloc(), Reader::Statement, SEVENTH, &DECLARED)?;
    check(&rt, rt.alloc(), Reader::Statement, SEVENTH, &SIMPLE)?;
    check(&rt, rt.alloc(), Reader::Statement, SEVENTH, &JUMPS)?;
    Ok(())
}

#[test]
fn lines_of_blocks_are_read(rt: HostRuntime) -> Result<(), Fail> {
    check(&rt, rt.alloc(), Reader::Statement, SEVENTH, &BLOCKS)?;
    check(&rt, rt.alloc(), Reader::Statement, SEVENTH, &GUARDS)?;
    Ok(())
}
