// The rows of a file.
ghost use Rattle.std.specs.Prelude.{◌≡◌, ◌≤◌, List, [], length, IfOk, OnOk};
ghost use Rattle.vb_syntax.specs.declared.item.Row.{Row as OneRow};
ghost use Rattle.vb_syntax.specs.ContextualWords.{OptionsApart};
ghost use Rattle.vb_parse_expr.specs.TypeReading.{most_tokens};
ghost use Rattle.vb_rows.specs.Files as spec;
ghost use Rattle.vb_rows.specs.Files.{AreRowsOf, IsLeastRefusal};
ghost use Rattle.vb_rows.specs.FileReading.{IsLineRead, IsRefused, TellsLine};

use crate::depths::add_depths;
use crate::lines::{LineReader, line_rows};
use crate::pieces::is_colon;
use crate::places::are_in_place;
use std::alloc::{AllocError, Global};
use vb_diag::{Refusal, lesser};
use vb_parse_expr::refusal;
use vb_parse_stmt::one_item;
use vb_syntax::{ContextualWords, Items, Line, Row, Token};

/// What was read of a file (Visual Basic Language Specification 11.0, 1.1).
#[derive(Drop)]
pub struct FileRows {
    /// The rows of the lines, in their order.
    pub rows: Items<Row>,
    /// For each row, how deep it nests in its line: the `If`s on one line that are open before it, and the greatest number of
    /// brackets, round or curly, that are open behind one of its tokens; 0 for a label.
    pub depths: Items<usize>,
    /// The refusal of the least line that isn't of the grammar.
    pub refusal: Option<Refusal>,
}

fn begins_colon(tokens: &[Token]) -> bool
    ensures { result ≡ spec.begins_colon tokens.now }
{
    match tokens {
        [token, ..] => is_colon(token),
        [] => false,
    }
}

fn is_of_grammar(first: bool, line: &Line, rows: &[Row]) -> bool
    ensures { result ≡ spec.is_of_grammar first line.now rows.now }
{
    are_in_place(rows) && !(first && begins_colon(line.tokens.as_slice()))
}

// The refusal of a line, told in this file.
fn refusal_in(file: u32, line: &Line) -> Refusal
    ensures { TellsLine file line.now result }
{
    let Refusal { line, rule, .. } = refusal(line);
    Refusal { file, line, rule }
}

// The least refusal, with a line more.
fn refused(
    file: u32,
    known: Option<Refusal>,
    first: bool,
    line: &Line,
    rows: &[Row],
) -> Option<Refusal>
    ensures { IsRefused file (spec.is_of_grammar first line.now rows.now) line.now known result }
{
    if is_of_grammar(first, line, rows) {
        return known;
    }
    lesser(known, Some(refusal_in(file, line)))
}

// A law for proofs: a line has no more tokens than a place can count. It does nothing.
fn few_tokens(line: &Line)
    ensures { length line.now.tokens ≤ most_tokens }
{
    let _count = line.tokens.len();
}

// Reads a line, behind those that were read.
fn read_line(
    alloc: Global,
    file: u32,
    reader: &mut LineReader,
    first: bool,
    line: &Line,
    read: &mut FileRows,
) -> Result<(), AllocError>
    ensures { OnOk result (IsLineRead file reader.old reader.new first line.now read.old read.new) }
{
    few_tokens(line);
    let rows = line_rows(alloc, reader, line)?;
    read.refusal = refused(file, read.refusal, first, line, rows.as_slice());
    add_depths(line, &mut read.depths)?;
    read.rows.append(Items::from_vec(rows))
}

/// The rows of the lines of a file: an item for each statement, each header or end of a block and each label (Visual Basic
/// Language Specification 11.0, 1.1, 10.1 and 10.8.1). Where a line isn't of the grammar, its rows tell what of it is, and the
/// refusal, in the file of this number, is that of the least such line. A colon may not stand at the front of the file.
///
/// The error is want of memory.
pub fn read_rows(
    alloc: Global,
    words: &ContextualWords,
    file: u32,
    lines: &[Line],
) -> Result<FileRows, AllocError>
    requires { OptionsApart words.now }
    ensures rows { IfOk result (λ f. AreRowsOf words.now [] lines.now f.rows) }
    ensures alone { IfOk result (λ f. (others : List OneRow) → AreRowsOf words.now [] lines.now others → others ≡ f.rows) }
    ensures depths { IfOk result (λ f. f.depths ≡ spec.depths_of lines.now) }
    ensures counted { IfOk result (λ f. length f.depths ≡ length f.rows) }
    ensures refusal { IfOk result (λ f. IsLeastRefusal file lines.now f.rows f.refusal) }
{
    one_item();
    let mut reader = LineReader::new(alloc, *words);
    let mut read = FileRows {
        rows: Items::new(alloc),
        depths: Items::new(alloc),
        refusal: None,
    };
    let mut first = true;
    for line in lines {
        read_line(alloc, file, &mut reader, first, line, &mut read)?;
        first = false;
    }
    Ok(read)
}
