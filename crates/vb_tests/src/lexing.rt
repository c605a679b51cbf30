// Files and what is told of them: their logical lines, or the rule that they break.

use crate::read::{FILE, lexed};
use crate::tell::{count_line, tell_lex_error, tell_line};
use std::alloc::{AllocError, Global};
use std::process::Abort;
use std::test::Fail;
use vb_text::NameTable;

// What is told of a file. Its names are sought among the words.
fn told(alloc: Global, file: &[u8], words: &str) -> Result<String, AllocError> {
    let mut out = String::new(alloc);
    let mut names = NameTable::new(alloc)?;
    match lexed(alloc, file, &mut names) {
        Ok(lines) => {
            for line in lines.as_slice() {
                tell_line(&mut out, &mut names, line, words)?;
            }
        }
        Err(error) => tell_lex_error(&mut out, &error, FILE)?,
    }
    Ok(out)
}

// The same with the number of tokens alone.
fn counted(alloc: Global, file: &[u8]) -> Result<String, AllocError> {
    let mut out = String::new(alloc);
    let mut names = NameTable::new(alloc)?;
    match lexed(alloc, file, &mut names) {
        Ok(lines) => {
            for line in lines.as_slice() {
                count_line(&mut out, line)?;
            }
        }
        Err(error) => tell_lex_error(&mut out, &error, FILE)?,
    }
    Ok(out)
}

// A file is told so.
pub fn check_line(
    rt: &impl Abort,
    alloc: Global,
    file: &str,
    wanted: &str,
) -> Result<(), AllocError> {
    let seen = told(alloc, file.as_bytes(), wanted)?;
    assert_eq!(rt; seen.as_str(), wanted, "{file:?}");
    Ok(())
}

// Each row has a file and what is told of it.
fn check_lines(rt: &impl Abort, alloc: Global, rows: &[(&str, &str)]) -> Result<(), AllocError> {
    for (file, wanted) in rows {
        check_line(rt, alloc, file, wanted)?;
    }
    Ok(())
}

// Line ends, white space and what no file has.
const LINE_ENDS: [(&str, &str); 14] = [
    ("", ""),
    ("' c", ""),
    (" \t\n\n ", ""),
    ("\0", "V002 at 1"),
    ("\u{feff}a", "1: a"),
    ("\u{feff}", ""),
    ("\u{feff}\u{feff}a", "V002 at 1"),
    (
        "a\rb\r\nc\nd\u{2028}e\u{2029}f",
        "1: a | 2: b | 3: c | 4: d | 5: e | 6: f",
    ),
    ("\r\r\n\n\r\na", "5: a"),
    ("a\n\r\u{2028}\r\u{2029}\nb", "1: a | 7: b"),
    ("a\u{85}b", "V002 at 1"),
    ("a\u{b}b", "V002 at 1"),
    ("a\u{c}b", "V002 at 1"),
    (
        "a\tb c\u{a0}d\u{1680}e\u{2000}f\u{2001}g\u{2002}h\u{2003}i\u{2004}j\u{2005}k\u{2006}l\u{2007}m\u{2008}n\u{2009}o\u{200a}p\u{202f}q\u{205f}r\u{3000}s",
        "1: a b c d e f g h i j k l m n o p q r s",
    ),
];

// Underscores.
const CONTINUED: [(&str, &str); 23] = [
    ("a _\n+ b\nc", "1: a + b | 3: c"),
    ("a _\r\nb _\rc _\u{2028}d\ne", "1: a b c d | 5: e"),
    ("a _ \t \nb", "1: a b"),
    ("a\u{3000}_\u{2003}\nb", "1: a b"),
    ("a\t_\n_b", "1: a _b"),
    ("a _", "1: a"),
    ("a _  ", "1: a"),
    (" _", ""),
    ("a _\n\nb", "1: a | 3: b"),
    (" _\nb", "1: b"),
    (" _\n\nb", "3: b"),
    (" _\n _\nb\nc", "1: b | 4: c"),
    ("a\n _\nb", "1: a | 2: b"),
    ("a _\n' c\nb", "1: a | 3: b"),
    ("a_\nb", "1: a_ | 2: b"),
    ("a _ ' c\nb", "V005 at 1"),
    ("\n\n\n\n(1 +_\n 2)", "V005 at 5"),
    ("_", "V005 at 1"),
    ("_\nb", "V005 at 1"),
    ("a\n_\nb", "V005 at 2"),
    ("a _\n_\nb", "V005 at 1"),
    ("a = _ b", "V005 at 1"),
    ("a ' b _\nc", "1: a | 2: c"),
];

// Comments, colons, and lines that go on in the next.
const COMMENTS: [(&str, &str); 18] = [
    ("REM a _\nc", "2: c"),
    ("a:b : c", "1: a : b : c"),
    ("a : REM b\nc", "1: a : | 2: c"),
    (":' b\nc", "1: : | 2: c"),
    ("a rem b : c\nrEm\nREM: x\nREM-y\nd", "1: a | 5: d"),
    ("REMark _REM REM1", "1: REMark _REM REM1"),
    ("x.REM y", "1: x . REM y"),
    ("x. rem", "1: x . rem"),
    ("x.\nREM y\nz", "1: x . REM y | 3: z"),
    ("x. ' c\n\nMod\nz", "1: x . Mod | 4: z"),
    ("x. _\nREM y", "1: x . REM y"),
    ("x.Mod\nz", "1: x . Mod | 2: z"),
    ("[REM] a", "1: [REM] a"),
    ("'\0?\u{1f600}\"\na", "2: a"),
    ("f(a,\n\n b\n)\ng", "1: f ( a , b ) | 5: g"),
    (
        "{ 1, 2 }\n}\n\n' c\n)\nx",
        "1: { 1:Integer , 2:Integer } } ) | 6: x",
    ),
    ("\n)\na", "2: ) | 3: a"),
    ("a\n(", "1: a | 2: ("),
];

// Names and reserved words.
const WORDS: [(&str, &str); 25] = [
    ("DIM Dim dIm", "1: {Dim} {Dim} {Dim}"),
    ("Dimm x1 _Dim Dim_", "1: Dimm x1 _Dim Dim_"),
    ("x.Dim.End . If x", "1: x . Dim . End . If x"),
    ("x..Dim", "1: x . . Dim"),
    ("x.(Dim", "1: x . ( {Dim}"),
    ("x.y Dim", "1: x . y {Dim}"),
    ("[Select] [select]x[Dim]", "1: [Select] [Select] x [Dim]"),
    ("x.[Dim] Dim", "1: x . [Dim] {Dim}"),
    (
        "Custom Iterator Yield Until Off",
        "1: Custom Iterator Yield Until Off",
    ),
    (
        "Strict Explicit Infer Compare Binary Text",
        "1: Strict Explicit Infer Compare Binary Text",
    ),
    ("GETXMLNAMESPACE", "1: {GetXmlNamespace}"),
    ("Li\u{212a}e", "1: [Li\u{212a}e]"),
    ("Foo FOO [foo]", "1: Foo Foo [Foo]"),
    ("\u{e9} \u{c9}", "1: [\u{e9}] [\u{e9}]"),
    ("k \u{212a}", "1: k [k]"),
    (
        "\u{3a3} \u{3c2} \u{3c3}",
        "1: [\u{3a3}] [\u{3a3}] [\u{3a3}]",
    ),
    (
        "STRASSE stra\u{df}e Stra\u{1e9e}e",
        "1: STRASSE [stra\u{df}e] [stra\u{df}e]",
    ),
    (
        "\u{2167} \u{1d4b3} \u{aa}b \u{4e16}\u{754c}",
        "1: [\u{2167}] [\u{1d4b3}] [\u{aa}b] [\u{4e16}\u{754c}]",
    ),
    (
        "a\u{301}\u{903}\u{663}\u{203f}\u{200d}\u{feff}b",
        "1: [a\u{301}\u{903}\u{663}\u{203f}\u{200d}\u{feff}b]",
    ),
    ("_x __ _1 \u{203f}x", "1: _x __ _1 [\u{203f}x]"),
    ("\u{203f}", "V002 at 1"),
    ("\u{301}a", "V002 at 1"),
    ("\u{200d}a", "V002 at 1"),
    ("\u{663}", "V002 at 1"),
    ("\u{1f600}", "V002 at 1"),
];

// Names between brackets.
const ESCAPED: [(&str, &str); 11] = [
    ("[", "V006 at 1"),
    ("[]", "V006 at 1"),
    ("[a", "V006 at 1"),
    ("[a\n]", "V006 at 1"),
    ("[ a]", "V006 at 1"),
    ("[a b]", "V006 at 1"),
    ("[1a]", "V006 at 1"),
    ("[_]", "V006 at 1"),
    ("[_a]", "1: [_a]"),
    ("[\u{e9}]", "1: [\u{e9}]"),
    ("]", "V002 at 1"),
];

// Regions that are opened and closed.
const REGIONS: [(&str, &str); 16] = [
    ("#Region \"a\"", "V009 at 1"),
    ("#Region \"a\"\n#End Region", ""),
    (
        "a\n#region \"x\" ' c\nb\n #END  REGION REM c\nd",
        "1: a | 3: b | 5: d",
    ),
    ("\t#REGION\"a\"\"b\"\nb\n\u{3000}#end\tregion'c", "2: b"),
    ("#End Region", "V009 at 1"),
    ("#Region \"a\"\n#Region \"b\"\n#End Region\nc", "V009 at 1"),
    (
        "#Region \"a\"\n#Region \"b\"\n#End Region\n#End Region\nc",
        "5: c",
    ),
    ("#Region \"a\"\n#End Region\n#End Region", "V009 at 3"),
    ("#Region \"a\"\n#End Region\n#Region \"b\"", "V009 at 3"),
    ("#End Region\n#Region \"a\"", "V009 at 1"),
    ("a\n#End Region\n#Region \"a\"\n#End Region", "V009 at 2"),
    ("# Region \"a\"\n#End Region", "V008 at 1"),
    ("#Region \"a\"\n# End Region\n#End Region", "V008 at 2"),
    ("#If a Then", "V008 at 1"),
    ("#", "V008 at 1"),
    ("#Region", "V008 at 1"),
];

// Lines that begin with a number sign.
const REGION_LINES: [(&str, &str); 21] = [
    ("#Region a", "V008 at 1"),
    ("#Region \"a", "V008 at 1"),
    ("#Region \"a\"c", "V008 at 1"),
    ("#Region \"a\" b", "V008 at 1"),
    ("#Region \"a\" : b", "V008 at 1"),
    ("#Regions \"a\"", "V008 at 1"),
    ("#End", "V008 at 1"),
    ("#EndRegion", "V008 at 1"),
    ("#End Region a", "V008 at 1"),
    ("a #Region \"b\"", "V008 at 1"),
    ("a : #End Region", "V008 at 1"),
    (
        "a +\n#Region \"b\"\n\n b\n#End Region\nc",
        "1: a + b | 6: c",
    ),
    ("a\n#Region \"b\"\n)\n#End Region\nc", "1: a ) | 5: c"),
    ("a _\n#Region \"b\"", "V008 at 1"),
    (" _\n#Region \"b\"", "V008 at 1"),
    ("a +\n#b", "V008 at 1"),
    ("a\n#b\n)", "V008 at 2"),
    ("(\n#Region \"a\"\n)", "V009 at 2"),
    ("a.\n#Region \"b\" REM c\nb\n#End Region REM", "1: a . b"),
    (
        "a.\n#Region \"b\"\n#End Region REM\nMod\nb",
        "1: a . Mod | 5: b",
    ),
    ("\"#\" ' #\na", "1: \"#\" | 2: a"),
];

// Files that break several rules: the least by line and then by number is told, and of one logical line the rule of the first place.
const BROKEN: [(&str, &str); 19] = [
    ("\n\nx = &HG", "V004 at 3"),
    ("a ? b", "V002 at 1"),
    ("\u{201c}a\u{201d}", "V002 at 1"),
    ("#Region \"a\"\n\n&HG", "V009 at 1"),
    ("&HG\n\n#Region \"a\"", "V004 at 1"),
    ("? &HG", "V002 at 1"),
    ("&HG ?", "V004 at 1"),
    ("&HG\n?", "V004 at 1"),
    ("\"a\n?", "V003 at 1"),
    ("_ \"a", "V005 at 1"),
    ("[ &HG", "V006 at 1"),
    ("# ?", "V008 at 1"),
    ("a # ?", "V008 at 1"),
    ("(\n?", "V002 at 1"),
    ("a\n(\n\n&HG", "V004 at 2"),
    ("(&HG\n? )", "V004 at 1"),
    ("(\n#End Region\n&HG", "V004 at 1"),
    ("a\n#End Region\n&HG", "V009 at 2"),
    ("a ? _\n&HG", "V002 at 1"),
];

#[test]
fn falls_into_lines(rt: HostRuntime) -> Result<(), Fail> {
    check_lines(&rt, rt.alloc(), &LINE_ENDS)?;
    check_lines(&rt, rt.alloc(), &CONTINUED)?;
    check_lines(&rt, rt.alloc(), &COMMENTS)?;
    Ok(())
}

#[test]
fn names_are_told(rt: HostRuntime) -> Result<(), Fail> {
    check_lines(&rt, rt.alloc(), &WORDS)?;
    check_lines(&rt, rt.alloc(), &ESCAPED)?;
    Ok(())
}

#[test]
fn regions_are_closed(rt: HostRuntime) -> Result<(), Fail> {
    check_lines(&rt, rt.alloc(), &REGIONS)?;
    check_lines(&rt, rt.alloc(), &REGION_LINES)?;
    check_lines(&rt, rt.alloc(), &BROKEN)?;
    Ok(())
}

const RESERVED: &str =
    "AddHandler AddressOf Alias And AndAlso As Boolean ByRef Byte ByVal Call Case Catch CBool CByte CChar CDate CDbl CDec Char CInt Class CLng CObj Const Continue CSByte CShort CSng CStr CType CUInt CULng CUShort Date Decimal Declare Default Delegate Dim DirectCast Do Double Each Else ElseIf End EndIf Enum Erase Error Event Exit False Finally For Friend Function Get GetType Global GoSub GoTo Handles If Implements Imports In Inherits Integer Interface Is IsNot Let Lib Like Long Loop Me Mod Module MustInherit MustOverride MyBase MyClass Namespace Narrowing New Next Not Nothing NotInheritable NotOverridable Object Of On Operator Option Optional Or OrElse Overloads Overridable Overrides ParamArray Partial Private Property Protected Public RaiseEvent ReadOnly ReDim RemoveHandler Resume Return SByte Select Set Shadows Shared Short Single Static Step Stop String Structure Sub SyncLock Then Throw To True Try TryCast TypeOf UInteger ULong UShort Using Variant Wend When While Widening With WithEvents WriteOnly Xor";

const SYMBOLS: &str = "1: ( ) { } , . : = <> < <= > >= + - * \\ & << >> += -= *= \\= &= <<= >>=";

// Symbols without blanks between them.
const JOINED: [(&str, &str); 7] = [
    ("<<<=<<==", "1: << <= <<= ="),
    (">>>=>>==>==", "1: >> >= >>= = >= ="),
    ("<>=><=>", "1: <> = > <= >"),
    ("< = > > < >", "1: < = > > < >"),
    ("=<=>===", "1: = <= >= = ="),
    ("+++=+-=-*=*\\=\\", "1: + + += + -= - *= * \\= \\"),
    ("()){}{,,..::", "1: ( ) ) { } { , , . . : :"),
];

#[test]
fn knows_words_and_symbols(rt: HostRuntime) -> Result<(), Fail> {
    let alloc = rt.alloc();
    for word in RESERVED.split_whitespace() {
        let wanted = format!(in alloc; "1: {{{word}}}")?;
        let seen = told(alloc, word.as_bytes(), "")?;
        assert_eq!(rt; seen.as_str(), wanted.as_str());
    }
    let seen = told(alloc, &SYMBOLS.as_bytes()[3..], "")?;
    assert_eq!(rt; seen.as_str(), SYMBOLS);
    check_lines(&rt, alloc, &JOINED)?;
    for other in OTHERS.split_whitespace() {
        let seen = told(alloc, other.as_bytes(), "")?;
        assert_eq!(rt; seen.as_str(), "V002 at 1", "{other:?}");
    }
    Ok(())
}

const OTHERS: &str = "? @ ; ! $ / ^ | ~ ` % \u{7f} \u{d7} \u{201c} \u{2019} \u{ff08}";

const GOES_ON: &str =
    ", ( { . = <> < <= > >= + - * \\ & << >> += -= *= \\= &= <<= >>= Mod Is IsNot And AndAlso Or OrElse Xor Of";

const ENDS: &str = ") } : Not As To x [Mod] 1 \"a\" \"a\"c Me In Step Else Then New";

// Comments, empty lines and region lines lie between the line's last token and the next.
#[test]
fn goes_on_in_the_next_line(rt: HostRuntime) -> Result<(), Fail> {
    let alloc = rt.alloc();
    for token in GOES_ON.split_whitespace() {
        let file = format!(in alloc; "a {token} ' c\n\n#Region \"r\"\n \t' d\n#End Region\nb\nc")?;
        let seen = counted(alloc, file.as_bytes())?;
        assert_eq!(rt; seen.as_str(), "1:3 7:1", "{token}");
    }
    for token in ENDS.split_whitespace() {
        let file = format!(in alloc; "a {token} ' c\n\n#Region \"r\"\n \t' d\n#End Region\nb")?;
        let seen = counted(alloc, file.as_bytes())?;
        assert_eq!(rt; seen.as_str(), "1:2 6:1", "{token}");
        let file = format!(in alloc;
            "a {token} ' c\n\n#Region \"r\"\n \t' d\n#End Region\n)\n}}\nb"
        )?;
        let seen = counted(alloc, file.as_bytes())?;
        assert_eq!(rt; seen.as_str(), "1:4 8:1", "{token}");
    }
    Ok(())
}

// A text, how often it is repeated, and what stands behind.
const LONG: [(&str, usize, &str, &str); 24] = [
    ("x ", 4096, "", "1:4096"),
    ("x ", 4097, "", "V007 at 1"),
    ("x _\n", 4096, "", "1:4096"),
    ("\n", 4, "(", "5:1"),
    ("(\n", 4096, "", "1:4096"),
    ("(\n", 4097, "", "V007 at 1"),
    ("x ", 4097, "?", "V002 at 1"),
    ("x ", 4097, "&HG", "V004 at 1"),
    ("x ", 4097, "[", "V006 at 1"),
    ("x ", 4097, "#", "V007 at 1"),
    ("x ", 4096, "#", "V008 at 1"),
    ("x ", 4096, "? x", "V002 at 1"),
    ("(\n", 4097, "\n#End Region", "V007 at 1"),
    ("x ", 4096, "\nx", "1:4096 2:1"),
    ("a", 1023, "", "1:1"),
    ("a", 1024, "", "V010 at 1"),
    ("\u{e9}", 1023, "", "1:1"),
    ("\u{e9}", 1024, "", "V010 at 1"),
    ("\u{1d4b3}", 1023, "", "1:1"),
    ("_", 1023, "", "1:1"),
    ("_", 1024, "", "V010 at 1"),
    ("a", 1024, " ?", "V010 at 1"),
    ("1", 4096, "", "V004 at 1"),
    ("0", 4096, "1", "1:1"),
];

#[test]
fn keeps_the_limits(rt: HostRuntime) -> Result<(), Fail> {
    let alloc = rt.alloc();
    for (text, times, back, wanted) in LONG {
        let mut file = text.as_bytes().repeat(alloc, times)?;
        file.extend_from_slice(back.as_bytes())?;
        let seen = counted(alloc, &file)?;
        assert_eq!(rt; seen.as_str(), wanted, "{text:?}{back:?}");
    }
    Ok(())
}

// What stands before, a text, how often it is repeated, and what stands behind.
const FRAMED: [(&str, &str, usize, &str, &str); 11] = [
    ("\n[", "a", 1023, "]", "2:1"),
    ("\n[", "a", 1024, "]", "V010 at 2"),
    ("x.", "a", 1023, "", "1:3"),
    ("x.", "a", 1024, "", "V010 at 1"),
    ("\n\n", "x ", 4097, "\n?", "V007 at 3"),
    ("\"", "a", 1_048_576, "\"", "1:1"),
    ("\"", "a", 1_048_577, "\"", "V003 at 1"),
    ("\"", "\"\"", 1_048_576, "\"", "1:1"),
    ("\"", "\"\"", 1_048_577, "\"", "V003 at 1"),
    ("\"", "\u{1f600}", 524_288, "\"", "1:1"),
    ("\"a", "\u{1f600}", 524_288, "\"", "V003 at 1"),
];

#[test]
fn keeps_the_limits_of_words(rt: HostRuntime) -> Result<(), Fail> {
    let alloc = rt.alloc();
    for (front, text, times, back, wanted) in FRAMED {
        let mut file = Vec::from_slice(alloc, front.as_bytes())?;
        file.extend_from_slice(&text.as_bytes().repeat(alloc, times)?)?;
        file.extend_from_slice(back.as_bytes())?;
        let seen = counted(alloc, &file)?;
        assert_eq!(rt; seen.as_str(), wanted, "{front:?}{text:?} {times}");
    }
    Ok(())
}

const BYTES: [(&[u8], &str); 33] = [
    (b"\xff", "V001 at 1"),
    (b"\xffa\nb", "V001 at 1"),
    (b"a\nb\xff", "V001 at 2"),
    (b"a ' \xff\n)", "V001 at 1"),
    (b"a\n' \xff\n)", "V001 at 2"),
    (b"a _\n\xff", "V001 at 1"),
    (b"\"\xff\"", "V001 at 1"),
    (b"\"a\xff\" b", "V001 at 1"),
    (b"\"\xff\"c", "V001 at 1"),
    (b"\"\xff\xff\"c", "V001 at 1"),
    (b"\"a\xff\"c", "V001 at 1"),
    (b"\"\xff\"\"\"c", "V001 at 1"),
    (b"\"ab\xff\"c", "V003 at 1"),
    (b"\"\xf0\x9f\x98\x80\xff\"c", "V003 at 1"),
    (b"\"\"c \xff", "V003 at 1"),
    (b"\"\xff", "V003 at 1"),
    (b"\"\xff\nb\"", "V003 at 1"),
    (b"\"\xff\"\"", "V003 at 1"),
    (b"a \xff \"b", "V001 at 1"),
    (b"? \xff", "V002 at 1"),
    (b"\xff ?", "V001 at 1"),
    (b"#Region \"\xff\"", "V001 at 1"),
    (b"#Region \"a\xff\" ' b", "V001 at 1"),
    (b"#Region \"\xff\"c", "V008 at 1"),
    (b"#Region \"\xff", "V008 at 1"),
    (b"#Region \"a\"\n#End Region '\xff", "V001 at 2"),
    (b"#Region \"a\"\n\xff", "V009 at 1"),
    (b"\xc0\x80", "V001 at 1"),
    (b"\xed\xa0\x80", "V001 at 1"),
    (b"\xe2\x82", "V001 at 1"),
    (b"\xf4\x90\x80\x80", "V001 at 1"),
    (b"\xef\xbb\xbfa", "1: a"),
    (b"\xef\xbba", "V001 at 1"),
];

#[test]
fn refuses_other_bytes(rt: HostRuntime) -> Result<(), Fail> {
    let alloc = rt.alloc();
    for (file, wanted) in BYTES {
        let seen = told(alloc, file, wanted)?;
        assert_eq!(rt; seen.as_str(), wanted, "{file:?}");
    }
    Ok(())
}
