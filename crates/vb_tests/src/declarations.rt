// Lines of declarations as they are read, each told in words.

use crate::read::{Reader, SEVENTH, check};
use std::test::Fail;

const TYPES: [(&str, &str); 16] = [
    ("Module a", "module a"),
    ("Public Module a", "public module a"),
    ("Friend Protected Module a", "V030 at 7"),
    ("Shared Module a", "V030 at 7"),
    ("Module a b", "V030 at 7"),
    ("Class a", "class a"),
    (
        "Protected Friend MustInherit Class a(Of b As Class, c As {New, d})",
        "protected friend class must a of b class of c new .d",
    ),
    ("Private NotInheritable Class a", "private class not a"),
    ("NotInheritable MustInherit Class a", "V030 at 7"),
    ("Class a(Of)", "V030 at 7"),
    ("Interface a(Of b As c)", "interface a of b .c"),
    ("Delegate Sub a", "delegate sub a"),
    (
        "Public Delegate Function a(Of b)(c As b) As b",
        "public delegate function a of b by value c .b as .b",
    ),
    ("Delegate a", "V030 at 7"),
    ("Inherits a.b, c", "inherits .a.b .c"),
    ("Implements a(Of Integer)", "implements .a<Integer>"),
];

const MEMBERS: [(&str, &str); 29] = [
    (
        "Private a, b As Integer",
        "private variables a b as Integer",
    ),
    (
        "Shared Dim a = 1, b = 1",
        "shared variables a gets [1] b gets [1]",
    ),
    ("a As Integer", "V030 at 7"),
    ("Dim a As Integer", "V030 at 7"),
    ("Public Const a = 1", "public constants a gets [1]"),
    ("Public Date", "V032 at 7"),
    ("Sub a", "sub a"),
    (
        "Shadows Overrides Sub a(ByRef b() As Integer, ByVal c As d) Implements c.d, a.b.c",
        "shadows overrides sub a by reference b() Integer by value c .d implements .c.d implements .a.b.c",
    ),
    ("Sub a(b)", "V030 at 7"),
    ("Overloads Sub a() Implements c", "V030 at 7"),
    ("Sub New(a As Integer)", "new by value a Integer"),
    ("Sub New(Of a)", "V030 at 7"),
    (
        "MustOverride Function a(Of b) As c",
        "must override function a of b as .c",
    ),
    ("Iterator Function a() As b", "iterator function a as .b"),
    ("[Iterator] Function a() As b", "V030 at 7"),
    ("Function a()", "V030 at 7"),
    (
        "ReadOnly Property a As Integer",
        "property read a as Integer",
    ),
    (
        "ReadOnly Public Property a As Integer",
        "public property read a as Integer",
    ),
    (
        "Public ReadOnly Property a As b",
        "public property read a as .b",
    ),
    (
        "ReadOnly Shared Property a() As b = 1 Implements c.d",
        "shared property read a() as .b gets [1] implements .c.d",
    ),
    (
        "ReadOnly Shared ReadOnly Public Property a As b",
        "read only shared public property read a as .b",
    ),
    (
        "Public ReadOnly WriteOnly Property a As b",
        "public read only property write a as .b",
    ),
    (
        "Overridable WriteOnly Property a As b",
        "overridable property write a as .b",
    ),
    ("Property a", "V030 at 7"),
    ("NotOverridable Event a()", "not overridable event a"),
    (
        "Event a As b Implements c.d",
        "event a as .b implements .c.d",
    ),
    ("Event a", "V030 at 7"),
    ("Custom Event a As b", "custom a as .b"),
    ("Custom Event a()", "V030 at 7"),
];

const ACCESSORS: [(&str, &str); 8] = [
    ("Get", "get"),
    ("Private Get", "private get"),
    ("Get a", "V030 at 7"),
    ("Set", "set"),
    ("Friend Set(a As b)", "friend set by value a .b"),
    ("AddHandler(a As b)", "add by value a .b"),
    ("RaiseEvent()", "raise"),
    ("AddHandler", "V030 at 7"),
];

#[test]
fn declarations_are_read(rt: HostRuntime) -> Result<(), Fail> {
    check(&rt, rt.alloc(), Reader::Declaration, SEVENTH, &TYPES)?;
    check(&rt, rt.alloc(), Reader::Declaration, SEVENTH, &MEMBERS)?;
    check(&rt, rt.alloc(), Reader::Declaration, SEVENTH, &ACCESSORS)?;
    Ok(())
}
