// Whole calls over objects in memory.

ghost use Rattle.std.specs.Prelude.{◌≤◌};

use crate::{Finished, vb_command};
use std::alloc::{AllocError, Global};
use std::test::Fail;
use vb_io::{MemFolder, MemSink, MemSource};

// The front of a file whose body is at line 4, as programs have it that are built.
const FRONT: &[u8] = b"Imports System\nModule M\nSub Main()\n";

const BACK: &[u8] = b"\nEnd Sub\nEnd Module\n";

type Seen = Finished<MemSource, MemSink, MemSink>;

// The file of a body in which `;` stands for a line's end.
fn file_of(alloc: Global, body: &str) -> Result<Vec<u8>, AllocError> {
    let mut file = Vec::from_slice(alloc, FRONT)?;
    for byte in body.bytes() {
        file.push(if byte == b';' { b'\n' } else { byte })?;
    }
    file.extend_from_slice(BACK)?;
    Ok(file)
}

// Calls with these words on a folder with one file `main.vb`; `out` fails at these calls and takes so many bytes at once.
fn call(
    alloc: Global,
    words: &[&str],
    file: Vec<u8>,
    fails: &[u64],
    most: usize,
) -> Result<Seen, AllocError>
    requires { 1 ≤ most }
{
    let mut list = Vec::new(alloc);
    for word in words {
        list.push(String::from_str(alloc, word)?)?;
    }
    let name = String::from_str(alloc, "main.vb")?;
    let mut files = Vec::new(alloc);
    files.push((name, file))?;
    let mut folder = MemFolder::new(files, Vec::new(alloc));
    let input = MemSource::new(Vec::new(alloc), Vec::new(alloc));
    let out = MemSink::new(alloc, Vec::from_slice(alloc, fails)?, most);
    let err = MemSink::new(alloc, Vec::new(alloc), 64);
    Ok(vb_command(alloc, &list, &mut folder, input, out, err))
}

const RUN: &[&str] = &["run", "main.vb"];

// Bodies of Main: what is written, what is told, the status.
const BODIES: [(&str, &str, &str, u8); 10] = [
    (
        "Dim i As Integer = 0;While i < 3;i = i + 1;Console.WriteLine(i * i);End While",
        "1\n4\n9\n",
        "",
        0,
    ),
    (
        "Dim i As Integer = 2147483647;Console.WriteLine(i);i = i + 1",
        "2147483647\n",
        "uncaught on thread 0: System.OverflowException\n",
        3,
    ),
    (
        "If 1 = 1 Then",
        "",
        "main.vb(4): error V031: a block has no end, or an end has no block\n",
        1,
    ),
    ("", "", "", 0),
    (
        "Dim i As Integer;Dim j As Integer;While i <= 2;j = 0;While j <> i;Console.WriteLine(j);j = j + 1;End While;i = i + 1;End While",
        "0\n0\n1\n",
        "",
        0,
    ),
    (
        "Dim i As Integer = 0;i = i - 2147483647;i = i - 1;Console.WriteLine(i);i = i - 1",
        "-2147483648\n",
        "uncaught on thread 0: System.OverflowException\n",
        3,
    ),
    (
        "Dim a As Integer = 5;While 3 < a;a = a - 1;End While;While a >= 3;a = a - 1;End While;Console.WriteLine(a);While a > 2;End While;While a = 3;End While",
        "2\n",
        "",
        0,
    ),
    (
        "Dim a As Integer = 46341;Console.WriteLine(a * 46340);Console.WriteLine(a * a)",
        "2147441940\n",
        "uncaught on thread 0: System.OverflowException\n",
        3,
    ),
    (
        "Dim i As Integer;i = 1 + 2 * i",
        "",
        "main.vb(5): error V999: the form isn't built yet\n",
        1,
    ),
    (
        "Dim i As Integer;j = 1",
        "",
        "main.vb(1): error V999: the form isn't built yet\n",
        1,
    ),
];

#[test]
fn bodies_run(rt: HostRuntime) -> Result<(), Fail> {
    for (body, out, err, status) in BODIES {
        let file = file_of(rt.alloc(), body)?;
        let seen = call(rt.alloc(), RUN, file, &[], 64)?;
        assert_eq!(rt; seen.out.bytes(), out.as_bytes(), "{body}");
        assert_eq!(rt; seen.err.bytes(), err.as_bytes(), "{body}");
        assert_eq!(rt; seen.status.code(), status, "{body}");
    }
    Ok(())
}

// Files that break a rule or have forms that aren't built, and what is told.
const BROKEN: [(&[u8], &str); 6] = [
    (
        b"\xffImports System",
        "main.vb(1): error V001: the file isn't UTF-8\n",
    ),
    (b"", "main.vb(1): error V999: the form isn't built yet\n"),
    (
        b"Class C\nx y\nEnd Class",
        "main.vb(2): error V030: the line isn't of the grammar\n",
    ),
    (
        b"Option Strict Off\nImports System\nModule M\nSub Main()\nEnd Sub\nEnd Module",
        "main.vb(1): error V035: the option setting isn't supported\n",
    ),
    (
        b"Imports System\nModule M\nPublic Private Sub Main()\nEnd Sub\nEnd Module",
        "main.vb(3): error V036: modifiers are repeated or exclude each other\n",
    ),
    (
        b"x = = 1\ny = &HG",
        "main.vb(2): error V004: a number literal is malformed or doesn't fit\n",
    ),
];

#[test]
fn broken_rules_are_told(rt: HostRuntime) -> Result<(), Fail> {
    for (file, err) in BROKEN {
        let file = Vec::from_slice(rt.alloc(), file)?;
        let seen = call(rt.alloc(), RUN, file, &[], 64)?;
        assert_eq!(rt; seen.err.bytes(), err.as_bytes());
        assert_eq!(rt; seen.status.code(), 1);
        assert_eq!(rt; seen.out.bytes().len(), 0);
    }
    Ok(())
}

#[test]
fn endless_loop_comes_to_its_limit(rt: HostRuntime) -> Result<(), Fail> {
    let file = file_of(rt.alloc(), "Dim i As Integer;While i < 1;End While")?;
    let seen = call(rt.alloc(), RUN, file, &[], 64)?;
    assert_eq!(rt; seen.status.code(), 6);
    assert_eq!(rt; seen.err.bytes(), b"turn limit reached\n".as_slice());
    assert_eq!(rt; seen.report.map_or(0, |report| report.turns), 10_000_000);
    Ok(())
}

const USAGE: &str =
    "usage: vbrun run FILE.. [--limit N] [--heap N] [--seed N or --workers N], check FILE.., code FILE.., sample N\n";

// Words and what they are told.
const WORDS: [(&[&str], &str, u8); 7] = [
    (&["run"], USAGE, 2),
    (&[], USAGE, 2),
    (
        &["run", "main.vb", "--seed", "1", "--workers", "2"],
        USAGE,
        2,
    ),
    (&["run", ""], USAGE, 2),
    (&["run", "-x"], USAGE, 2),
    (&["check", "main.vb"], USAGE, 2),
    (&["run", "none.vb"], "none.vb: not found\n", 11),
];

#[test]
fn words_are_judged(rt: HostRuntime) -> Result<(), Fail> {
    for (words, err, status) in WORDS {
        let seen = call(rt.alloc(), words, Vec::new(rt.alloc()), &[], 64)?;
        assert_eq!(rt; seen.err.bytes(), err.as_bytes());
        assert_eq!(rt; seen.status.code(), status);
        assert_eq!(rt; seen.out.bytes().len(), 0);
    }
    Ok(())
}

#[test]
fn long_file_is_refused(rt: HostRuntime) -> Result<(), Fail> {
    let file = vec![in rt.alloc(); b' '; 4_194_305]?;
    let seen = call(rt.alloc(), RUN, file, &[], 64)?;
    assert_eq!(rt;
        seen.err.bytes(),
        b"main.vb: longer than 4194304 bytes\n".as_slice()
    );
    assert_eq!(rt; seen.status.code(), 11);
    Ok(())
}

#[test]
fn failing_output_keeps_a_front(rt: HostRuntime) -> Result<(), Fail> {
    let body =
        "Dim i As Integer = 1;Console.WriteLine(i);i = i + 1;Console.WriteLine(i);i = i + 1;Console.WriteLine(i)";
    let whole = b"1\n2\n3\n";
    for k in 0..6usize {
        let file = file_of(rt.alloc(), body)?;
        let seen = call(rt.alloc(), RUN, file, &[k as u64], 1)?;
        assert_eq!(rt; seen.out.bytes(), &whole[..k]);
        assert_eq!(rt; seen.err.bytes(), b"write fault\n".as_slice());
        assert_eq!(rt; seen.status.code(), 9);
    }
    Ok(())
}

// A body of a thousand statements in fifty loops inside one another, each of which turns once.
#[test]
fn long_and_deep_body_runs(rt: HostRuntime) -> Result<(), Fail> {
    let mut body = String::from_str(rt.alloc(), "Dim n As Integer;Dim i As Integer")?;
    for _ in 0..50 {
        body.push_str(";While i < 1")?;
    }
    for _ in 0..1000 {
        body.push_str(";n = n + 1")?;
    }
    body.push_str(";i = 1")?;
    for _ in 0..50 {
        body.push_str(";End While")?;
    }
    body.push_str(";Console.WriteLine(n)")?;
    let file = file_of(rt.alloc(), body.as_str())?;
    let seen = call(rt.alloc(), RUN, file, &[], 64)?;
    assert_eq!(rt; seen.out.bytes(), b"1000\n".as_slice());
    assert_eq!(rt; seen.status.code(), 0);
    Ok(())
}
