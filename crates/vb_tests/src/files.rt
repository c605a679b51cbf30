// Files, each told by the least rule on lines and blocks that it breaks.

use crate::read::{ALONE, CLASS, PARSED, Reader, SUB, check, file_of, lexed, told};
use crate::words_of;
use std::alloc::{AllocError, Global};
use std::test::Fail;
use vb_parse::parse;
use vb_syntax::{Items, MemberForm, SourceFile, Statement, TypeForm};
use vb_text::NameTable;

// Lines of a subroutine.
const BLOCKS: [(&str, &str); 6] = [
    ("x = 1 / End While / End While", "V031 at 4"),
    ("If a Then x = 1 Else x = 1", "fine"),
    // A line that isn't of the grammar, and what stands beside and behind it.
    ("While a : x = = 1", "V030 at 3"),
    ("x = 1 / While a : Date", "V031 at 4"),
    ("While a / x = 1", "V031 at 3"),
    ("If a Then / x = = 1", "V031 at 3"),
];

// Lines of a file.
const OPTIONS: [(&str, &str); 10] = [
    (
        "Option Strict On / Option Explicit / Option Infer On",
        "fine",
    ),
    ("Option Compare Binary", "fine"),
    ("Option Strict Off", "V035 at 1"),
    ("Option Explicit Off", "V035 at 1"),
    ("Option Infer Off", "V035 at 1"),
    ("Option Compare Text", "V035 at 1"),
    ("Option Compare Text / Option Infer Off", "V035 at 1"),
    ("Option Strict Off / Date", "V035 at 1"),
    ("Date / Option Strict Off", "V032 at 1"),
    (
        "Option Infer Off : Class c : Shared Shared a As Integer : End Class",
        "V035 at 1",
    ),
];

// Lines of a class.
const MODIFIERS: [(&str, &str); 22] = [
    ("Protected Friend Shared a As Integer", "fine"),
    ("Friend Protected a As Integer", "V036 at 2"),
    ("Public Private Const a = 1", "V036 at 2"),
    (
        "MustOverride Public Sub s() / Overridable MustOverride Sub s()",
        "V036 at 3",
    ),
    ("NotOverridable Overrides Sub s() / End Sub", "fine"),
    (
        "MustOverride NotOverridable Function f() As Integer",
        "V036 at 2",
    ),
    ("Overrides Overridable Sub s() / End Sub", "V036 at 2"),
    ("Shared Sub New() / End Sub", "fine"),
    ("Shared Public Overrides Sub s() / End Sub", "V036 at 2"),
    ("NotOverridable Shared Sub s() / End Sub", "V036 at 2"),
    ("Overloads Overrides Sub s() / End Sub", "fine"),
    ("Shadows Overloads Sub s() / End Sub", "V036 at 2"),
    ("Overrides Shadows Event e()", "V036 at 2"),
    ("Overridable Private Sub s() / End Sub", "V036 at 2"),
    (
        "Private Public Custom Event e As a / AddHandler(b As a) / End AddHandler / RemoveHandler(b As a) / End RemoveHandler / RaiseEvent() / End RaiseEvent / End Event",
        "V036 at 2",
    ),
    ("Shared Overloads Shared Sub s()", "V031 at 2"),
    ("ReadOnly Property p As Integer", "fine"),
    ("ReadOnly Public Property p As Integer", "fine"),
    (
        "ReadOnly ReadOnly Public Property p As Integer",
        "V036 at 2",
    ),
    (
        "ReadOnly Shared ReadOnly Property p As Integer",
        "V036 at 2",
    ),
    ("ReadOnly WriteOnly Property p As Integer", "V036 at 2"),
    ("Overridable Overridable Property p As Integer", "V036 at 2"),
];

// Lines of a subroutine, of which one can't stand where it is.
const PLACES_IN_SUBS: [(&str, &str); 17] = [
    ("Do While a / Loop While a", "V034 at 4"),
    ("Do Until a / x = 1 / Loop Until a", "V034 at 5"),
    ("If a Then / Else / Else / End If", "V034 at 5"),
    ("If a Then / Else / ElseIf a Then / End If", "V034 at 5"),
    ("Try / Finally / Catch / End Try", "V034 at 5"),
    ("Try / Finally / Finally / End Try", "V034 at 5"),
    (
        "Select Case a / Case Else / Case 1 / End Select",
        "V034 at 5",
    ),
    ("Select Case a / x = 1 / Case 1 / End Select", "V034 at 4"),
    ("x = 1 / Else", "V034 at 4"),
    ("Case 1", "V034 at 3"),
    ("While a / Catch / End While", "V034 at 4"),
    ("Shared a As Integer", "V034 at 3"),
    ("Sub t() / End Sub", "V034 at 3"),
    ("Class c / End Class", "V034 at 3"),
    ("Get / End Get", "V034 at 3"),
    ("Imports a", "V034 at 3"),
    ("x = 1 : Case 1 : x = 1", "V034 at 3"),
];

// Lines of a class, of which one can't stand where it is.
const PLACES_IN_CLASSES: [(&str, &str); 12] = [
    ("x = 1", "V034 at 2"),
    ("Inherits a / Inherits b", "V034 at 3"),
    ("Dim a As Integer / Inherits b", "V034 at 3"),
    ("Implements a / Inherits b", "V034 at 3"),
    ("Dim a As Integer / Implements b", "V034 at 3"),
    (
        "Property p As Integer / Get / End Get / Get / End Get / End Property",
        "V034 at 5",
    ),
    (
        "Property p As Integer / Set / End Set / Set / End Set / End Property",
        "V034 at 5",
    ),
    (
        "Property p As Integer / Get / End Get / x = 1 / End Property",
        "V034 at 5",
    ),
    ("Get / End Get", "V034 at 2"),
    ("RaiseEvent() / End RaiseEvent", "V034 at 2"),
    (
        "Custom Event e As a / AddHandler(b As a) / End AddHandler / AddHandler(b As a) / End AddHandler / End Event",
        "V034 at 5",
    ),
    ("Class d / End Class", "V034 at 2"),
];

// Lines of a file, of which one can't stand where it is.
const PLACES_IN_FILES: [(&str, &str); 12] = [
    ("x = 1", "V034 at 1"),
    ("Module m / x = 1 / End Module", "V034 at 2"),
    ("Module m / Class c / End Class / End Module", "V034 at 2"),
    ("Sub s() / End Sub", "V034 at 1"),
    ("Dim a As Integer", "V034 at 1"),
    ("Module m / End Module / Imports a", "V034 at 3"),
    ("Imports a / Option Strict On", "V034 at 2"),
    ("Module m / End Module / Option Strict On", "V034 at 3"),
    (
        "Interface i / Public Property p As Integer / End Interface",
        "V034 at 2",
    ),
    (
        "Interface i / Public Sub s() / End Sub / End Interface",
        "V034 at 2",
    ),
    (
        "Interface i / Sub s() / Inherits a / End Interface",
        "V034 at 3",
    ),
    (
        "Interface i / Imports a : Function f() As b / End Interface",
        "V034 at 2",
    ),
];

// Lines of a file that break several rules.
const SEVERAL: [(&str, &str); 13] = [
    // An end of another block, and one without a block.
    (
        "Module m / Function f() As Integer / End Sub / End Module",
        "V031 at 2",
    ),
    ("End Sub", "V031 at 1"),
    ("/ Imports a / Module m / Sub s()", "V031 at 3"),
    // Two rules in one line: the lesser number is told.
    ("x =", "V030 at 1"),
    ("Date", "V032 at 1"),
    ("Imports a / Option Strict Off", "V034 at 2"),
    ("Shared Shared a As Integer", "V034 at 1"),
    // In two lines: the lesser line.
    ("x = 1 / Date", "V034 at 1"),
    ("x = 1 / Module m", "V034 at 1"),
    ("x = 1 / Option Strict Off", "V034 at 1"),
    ("Option Strict Off / x = 1", "V035 at 1"),
    (
        "Class c / Shared Shared a As Integer / End Class / x = 1",
        "V036 at 2",
    ),
    // A rule on tokens before any other.
    ("x = = 1 / y = &HG", "V004 at 2"),
];

// Whole files.
const WHOLE: [(&str, &str); 9] = [
    ("Module m / End Module", "fine"),
    (
        "Option Strict On / Imports a / Module m / End Module / Class c / End Class / Delegate Sub d()",
        "fine",
    ),
    (
        "Class c / Inherits a / Implements b / Dim d As Integer / Property p As Integer / Get / Return 1 / End Get / Set / End Set / End Property / End Class",
        "fine",
    ),
    (
        "Class c / MustOverride Sub s() / Custom Event e As a / RaiseEvent() / End RaiseEvent / AddHandler(b As a) / End AddHandler / RemoveHandler(b As a) / End RemoveHandler / End Event / End Class",
        "fine",
    ),
    (
        "Class c / Custom Event e As a / AddHandler(b As a) / End AddHandler / End Event / Custom Event f As a / End Event / End Class",
        "fine",
    ),
    (
        "Interface i / Inherits j / Sub s() / Function f() As Integer / Property p As Integer / Event e() / End Interface",
        "fine",
    ),
    (
        "Module m / Function f() As Integer / If a Then / ElseIf b Then / Return 1 / Else / End If / Select Case a / Case 1 / x = 1 / Case Else / End Select / End Function / End Module",
        "fine",
    ),
    (
        "Module m / Sub s() / Try / Catch / Catch / x = 1 / Finally / End Try / Do / Loop While a / Do While a / Loop / For x = 1 To 1 / For Each x In a / Next / Next x / End Sub / End Module",
        "fine",
    ),
    (
        "Module m / Sub s() / a : x = 1 : If a Then x = 1 : While b / With a : SyncLock a : End SyncLock : End With / End While / Using a / End Using / End Sub / End Module",
        "fine",
    ),
];

#[test]
fn the_least_rule_is_told(rt: HostRuntime) -> Result<(), Fail> {
    check(&rt, rt.alloc(), Reader::File, ALONE, &SEVERAL)?;
    check(&rt, rt.alloc(), Reader::File, SUB, &BLOCKS)?;
    check(&rt, rt.alloc(), Reader::File, ALONE, &OPTIONS)?;
    check(&rt, rt.alloc(), Reader::File, CLASS, &MODIFIERS)?;
    Ok(())
}

#[test]
fn lines_stand_in_their_places(rt: HostRuntime) -> Result<(), Fail> {
    check(&rt, rt.alloc(), Reader::File, SUB, &PLACES_IN_SUBS)?;
    check(&rt, rt.alloc(), Reader::File, CLASS, &PLACES_IN_CLASSES)?;
    check(&rt, rt.alloc(), Reader::File, ALONE, &PLACES_IN_FILES)?;
    check(&rt, rt.alloc(), Reader::File, ALONE, &WHOLE)?;
    Ok(())
}

// A number in so many brackets, between what stands before and behind in a subroutine.
const BRACKETS: [(&str, usize, &str, &str); 7] = [
    ("x = ", 98, "", "fine"),
    ("x = ", 99, "", "V033 at 3"),
    ("While a / x = ", 97, " / End While", "fine"),
    ("While a / x = ", 98, " / End While", "V033 at 4"),
    ("While a : x = ", 98, " : End While", "V033 at 3"),
    ("x = ", 97, " : x = ((1))", "fine"),
    // A line that can't stand there either.
    ("Case ", 99, "", "V033 at 3"),
];

// So many tests of `If`s on one line, between what stands before and behind in a subroutine.
const TESTS: [(&str, usize, &str, &str); 8] = [
    ("", 98, "x = 1", "fine"),
    ("", 99, "x = 1", "V033 at 3"),
    ("", 1_300, "x = 1", "V033 at 3"),
    ("", 97, "x = (1)", "fine"),
    ("", 98, "x = (1)", "V033 at 3"),
    ("While a / ", 97, "x = 1 / End While", "fine"),
    ("While a / ", 98, "x = 1 / End While", "V033 at 4"),
    // The `Then` of a block has nothing behind it in its line, or a colon.
    ("If a Then : x = (1) : End If / ", 98, "x = 1", "fine"),
];

// What is told of a row of these tables: what opens is repeated, and what closes behind the middle.
fn deep(
    alloc: Global,
    nest: (&'static str, &'static str, &'static str),
    row: (&'static str, usize, &'static str, &'static str),
) -> Result<String, AllocError> {
    let (before, count, behind, _) = row;
    let mut text = String::from_str(alloc, before)?;
    text.push_str(&nest.0.repeat(alloc, count)?)?;
    text.push_str(nest.1)?;
    text.push_str(&nest.2.repeat(alloc, count)?)?;
    text.push_str(behind)?;
    let file = file_of(alloc, SUB, &text)?;
    told(alloc, Reader::File, &file)
}

#[test]
fn blocks_and_brackets_are_no_deeper(rt: HostRuntime) -> Result<(), Fail> {
    let alloc = rt.alloc();
    for row in BRACKETS {
        let seen = deep(alloc, ("(", "1", ")"), row)?;
        assert_eq!(rt; seen.as_str(), row.3, "{}{}{}", row.0, row.1, row.2);
    }
    for row in TESTS {
        let seen = deep(alloc, ("If a Then ", "", ""), row)?;
        assert_eq!(rt; seen.as_str(), row.3, "{}{}{}", row.0, row.1, row.2);
    }
    Ok(())
}

// Rows of a subroutine that `parse` refuses by a rule with a lesser number.
const TREES: [(&str, &str); 5] = [
    ("If a / Else / End If", "fine"),
    ("If a / End While", "misplaced at 4"),
    ("Return / x = = 1", "misplaced at 4"),
    ("Select Case a / Return", "misplaced at 4"),
    ("While a", "misplaced at 4"),
];

// Rows of a file of which none is misplaced.
const UNENDED: [(&str, &str); 2] = [("Module m", "unended"), ("Module m / Sub s()", "unended")];

#[test]
fn rows_are_a_tree_or_one_is_misplaced(rt: HostRuntime) -> Result<(), Fail> {
    check(&rt, rt.alloc(), Reader::Tree, SUB, &TREES)?;
    check(&rt, rt.alloc(), Reader::Tree, ALONE, &UNENDED)?;
    Ok(())
}

// The statements of the first procedure of a file, which stands in a module.
fn first_body(tree: &SourceFile) -> Option<&[Statement]> {
    let first = tree.types.as_slice().first()?;
    let TypeForm::Module(members) = &first.form else {
        return None;
    };
    match &members.as_slice().first()?.form {
        MemberForm::Sub { body, .. } => Some(body.as_ref()?.as_slice()),
        _ => None,
    }
}

#[test]
fn trees_say_where(rt: HostRuntime) -> Result<(), Fail> {
    let alloc = rt.alloc();
    let mut names = NameTable::new(alloc)?;
    let words = words_of(&mut names)?;
    let file = file_of(alloc, SUB, "x = 1 : x = 1 / While a / End While")?;
    let lines = lexed(alloc, file.as_bytes(), &mut names).map_err(|_| "no lines")?;
    let tree = parse(alloc, &words, PARSED, lines.as_slice()).map_err(|_| "refused")?;
    assert_eq!(rt; tree.file, PARSED);
    let mut numbers = Items::new(alloc);
    for statement in first_body(&tree).ok_or("no subroutine")? {
        numbers.push(statement.line)?;
    }
    assert_eq!(rt; numbers.as_slice(), [3, 3, 4].as_slice());
    Ok(())
}
