// Literals and what is told of them.

use crate::lexing::check_line;
use std::alloc::{AllocError, Global};
use std::process::Abort;
use std::test::Fail;

// Each row has a line and what is told of it, or nothing where it breaks the rule.
fn check_literals(
    rt: &impl Abort,
    alloc: Global,
    rule: &str,
    rows: &[(&str, &str)],
) -> Result<(), AllocError> {
    for (line, wanted) in rows {
        let wanted = if wanted.is_empty() {
            format!(in alloc; "{rule} at 1")?
        } else {
            format!(in alloc; "1: {wanted}")?
        };
        check_line(rt, alloc, line, &wanted)?;
    }
    Ok(())
}

// Decimal numbers.
const DECIMAL: [(&str, &str); 26] = [
    ("0", "0:Integer"),
    ("000000000000000000000000000001", "1:Integer"),
    ("2147483647", "2147483647:Integer"),
    ("2147483648", "2147483648:Long"),
    ("9223372036854775807", "9223372036854775807:Long"),
    ("9223372036854775808", ""),
    ("18446744073709551616", ""),
    ("100000000000000000000000000000000000000000000000000", ""),
    ("32767S", "32767:Short"),
    ("32768S", ""),
    ("65535US", "65535:UShort"),
    ("65536US", ""),
    ("2147483647I", "2147483647:Integer"),
    ("2147483648I", ""),
    ("4294967295UI", "4294967295:UInteger"),
    ("4294967296UI", ""),
    ("9223372036854775807L", "9223372036854775807:Long"),
    ("9223372036854775808L", ""),
    ("18446744073709551615UL", "18446744073709551615:ULong"),
    ("18446744073709551616UL", ""),
    ("2147483647%", "2147483647:Integer"),
    ("2147483648%", ""),
    ("9223372036854775807&", "9223372036854775807:Long"),
    ("9223372036854775808&", ""),
    (
        "1s 2us 3i 4ui 5l 6ul",
        "1:Short 2:UShort 3:Integer 4:UInteger 5:Long 6:ULong",
    ),
    ("1uS 2Us 3uI 4Ul", "1:UShort 2:UShort 3:UInteger 4:ULong"),
];

// Hexadecimal numbers.
const HEXADECIMAL: [(&str, &str); 30] = [
    ("&H0", "0:Integer"),
    ("&h00000000000000000000ff", "255:Integer"),
    ("&HabcDEF", "11259375:Integer"),
    ("&H7FFFFFFF", "2147483647:Integer"),
    ("&H80000000", "-2147483648:Integer"),
    ("&HFFFFFFFF", "-1:Integer"),
    ("&H100000000", "4294967296:Long"),
    ("&H7FFFFFFFFFFFFFFF", "9223372036854775807:Long"),
    ("&H8000000000000000", "-9223372036854775808:Long"),
    ("&HFFFFFFFFFFFFFFFF", "-1:Long"),
    ("&H10000000000000000", ""),
    ("&H7FFFS", "32767:Short"),
    ("&H8000S", "-32768:Short"),
    ("&HFFFFs", "-1:Short"),
    ("&H10000S", ""),
    ("&HFFFFUS", "65535:UShort"),
    ("&H10000US", ""),
    ("&HFFFFFFFFI", "-1:Integer"),
    ("&H100000000I", ""),
    ("&HFFFFFFFF%", "-1:Integer"),
    ("&H100000000%", ""),
    ("&HFFFFFFFFUI", "4294967295:UInteger"),
    ("&H100000000UI", ""),
    ("&HFFFFFFFFL", "4294967295:Long"),
    ("&HFFFFFFFF&", "4294967295:Long"),
    ("&HFFFFFFFFFFFFFFFFL", "-1:Long"),
    ("&H10000000000000000L", ""),
    ("&H10000000000000000&", ""),
    ("&HFFFFFFFFFFFFFFFFUL", "18446744073709551615:ULong"),
    ("&H10000000000000000UL", ""),
];

// Octal numbers.
const OCTAL: [(&str, &str); 26] = [
    ("&O0", "0:Integer"),
    ("&o17", "15:Integer"),
    ("&O17777777777", "2147483647:Integer"),
    ("&O20000000000", "-2147483648:Integer"),
    ("&O37777777777", "-1:Integer"),
    ("&O40000000000", "4294967296:Long"),
    ("&O777777777777777777777", "9223372036854775807:Long"),
    ("&O1000000000000000000000", "-9223372036854775808:Long"),
    ("&O1777777777777777777777", "-1:Long"),
    ("&O2000000000000000000000", ""),
    ("&O77777S", "32767:Short"),
    ("&O100000S", "-32768:Short"),
    ("&O177777S", "-1:Short"),
    ("&O200000S", ""),
    ("&O177777US", "65535:UShort"),
    ("&O200000US", ""),
    ("&O37777777777I", "-1:Integer"),
    ("&O40000000000I", ""),
    ("&O37777777777%", "-1:Integer"),
    ("&O40000000000%", ""),
    ("&O37777777777UI", "4294967295:UInteger"),
    ("&O40000000000UI", ""),
    ("&O37777777777&", "4294967295:Long"),
    ("&O2000000000000000000000L", ""),
    ("&O1777777777777777777777UL", "18446744073709551615:ULong"),
    ("&O2000000000000000000000UL", ""),
];

// Where a number ends, and ampersands.
const NUMBER_ENDS: [(&str, &str); 22] = [
    ("&H", ""),
    ("&HG", ""),
    ("&H G", ""),
    ("&O", ""),
    ("&O8", ""),
    ("a &Over", ""),
    ("&HFG", "15:Integer G"),
    ("&O18", "1:Integer 8:Integer"),
    ("12x", "12:Integer x"),
    ("1.5", "1:Integer . 5:Integer"),
    ("-1", "- 1:Integer"),
    ("a & b", "a & b"),
    ("a&b", "a & b"),
    ("a& &Hb", "a & 11:Integer"),
    ("a&Hello", "a 14:Long lo"),
    ("1&", "1:Long"),
    ("1 & 2", "1:Integer & 2:Integer"),
    ("1&2", "1:Long 2:Integer"),
    ("1&&H2", "1:Long 2:Integer"),
    ("1&H2", "1:Long H2"),
    ("a &=&H1&", "a &= 1:Long"),
    ("a &&= b", "a & &= b"),
];

// Texts and characters.
const TEXTS: [(&str, &str); 29] = [
    ("\"\"", "\"\""),
    ("\"a b'c\"", "\"a b'c\""),
    ("\"a\"\"b\"", "\"a\"b\""),
    ("\"\"\"\"", "\"\"\""),
    ("\"\"\"\"\"\"", "\"\"\"\""),
    (
        "\"\u{e9}\u{1f600}\u{201c}\u{201d}\0\"",
        "\"\u{e9}\u{1f600}\u{201c}\u{201d}\0\"",
    ),
    ("\"a\" \"b\"", "\"a\" \"b\""),
    ("\"a\" & \"b\"", "\"a\" & \"b\""),
    ("\"a _\"", "\"a _\""),
    ("\"a\"c", "'a'c"),
    ("\"a\"C", "'a'c"),
    ("\"\"\"\"c", "'\"'c"),
    ("\"\u{20ac}\"c", "'\u{20ac}'c"),
    ("\"'\"c", "'''c"),
    ("\"a\" c", "\"a\" c"),
    ("\"ab\" c", "\"ab\" c"),
    ("\"ab\"d", "\"ab\" d"),
    ("\"\"c", ""),
    ("\"ab\"c", ""),
    ("\"\u{1f600}\"c", ""),
    ("\"", ""),
    ("\"a", ""),
    ("\"\"\"", ""),
    ("\"a\"\"", ""),
    ("\"a\nb\"", ""),
    ("\"a\rb\"", ""),
    ("\"a\u{2028}b\"", ""),
    ("\"a\u{2029}b\"", ""),
    ("\"a _\nb\"", ""),
];

#[test]
fn numbers_are_told(rt: HostRuntime) -> Result<(), Fail> {
    check_literals(&rt, rt.alloc(), "V004", &DECIMAL)?;
    check_literals(&rt, rt.alloc(), "V004", &HEXADECIMAL)?;
    check_literals(&rt, rt.alloc(), "V004", &OCTAL)?;
    check_literals(&rt, rt.alloc(), "V004", &NUMBER_ENDS)?;
    Ok(())
}

#[test]
fn texts_are_told(rt: HostRuntime) -> Result<(), Fail> {
    check_literals(&rt, rt.alloc(), "V003", &TEXTS)?;
    Ok(())
}
