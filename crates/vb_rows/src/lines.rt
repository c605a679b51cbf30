// The rows of a logical line.
ghost use Rattle.std.specs.Prelude.{◌≡◌, ◌≤◌, List, [], Option, IfOk, OnOk, length, drop, slice_range};
ghost use Rattle.vb_syntax.specs.declared.item.Item.{Item as OneItem};
ghost use Rattle.vb_rows.specs.Pieces as spec;
ghost use Rattle.vb_rows.specs.Rows.{context_behind, items_behind, AreLineRows, label_rows as rows_of_label};
ghost use Rattle.vb_rows.specs.Reading.{HasRead, IsRowAdded, ArePiecesAdded};

use crate::items::item_at;
use crate::joints::join;
use crate::open_blocks::OpenBlocks;
use crate::pieces::{before_of, behind_label, first_piece, is_left_out, label_of, skipped};
use std::alloc::{AllocError, Global};
use vb_syntax::{Context, ContextualWords, Item, Joint, Line, Row};

/// Reads lines, one behind the other.
#[derive(Drop)]
pub struct LineReader {
    pub words: ContextualWords,
    /// The blocks that are open behind the items so far.
    pub blocks: OpenBlocks,
}

impl LineReader {
    pub fn new(alloc: Global, words: ContextualWords) -> Self
        ensures words { result.words ≡ words }
        ensures read { HasRead result [] }
    {
        LineReader {
            words,
            blocks: OpenBlocks::new(alloc),
        }
    }

    // What is read behind the items so far.
    fn context(&self) -> Context
        ensures { (items : List (Option OneItem)) → HasRead self.now items → result ≡ context_behind self.now.words items }
    {
        Context {
            words: self.words,
            in_iterator: self.blocks.in_iterator(),
        }
    }
}

// Adds a row for the tokens from one place to another.
fn add_row(
    alloc: Global,
    reader: &mut LineReader,
    line: &Line,
    from: usize,
    to: usize,
    behind: Joint,
    rows: &mut Vec<Row>,
) -> Result<(), AllocError>
    requires from { from ≤ to }
    requires to { to ≤ length line.now.tokens }
    ensures { OnOk result (IsRowAdded reader.old reader.new line.now.number (slice_range line.now.tokens from to) behind rows.old.items rows.new.items) }
{
    let item = item_at(alloc, &reader.context(), line, from, to)?;
    reader.blocks.take(&item)?;
    rows.push(Row {
        line: line.number,
        item,
        behind,
    })?;
    Ok(())
}

// Adds a row for each piece from a place on.
fn add_pieces(
    alloc: Global,
    reader: &mut LineReader,
    line: &Line,
    from: usize,
    rows: &mut Vec<Row>,
) -> Result<(), AllocError>
    requires { from ≤ length line.now.tokens }
    ensures { OnOk result (ArePiecesAdded reader.old reader.new line.now.number (drop from line.now.tokens) rows.old.items rows.new.items) }
{
    let tokens = line.tokens.as_slice();
    let mut place = from;
    let mut joint = Joint::End;
    loop {
        let found = first_piece(before_of(joint), &tokens[place..]);
        let end = place + found.length;
        if !is_left_out(joint, found) {
            add_row(alloc, reader, line, place, end, found.behind, rows)?;
        }
        if found.behind.is_end() {
            return Ok(());
        }
        place = end + skipped(found.behind);
        joint = found.behind;
    }
}

// The row of the label at the front of a line, if there is one.
fn label_rows(alloc: Global, reader: &mut LineReader, line: &Line) -> Result<Vec<Row>, AllocError>
    ensures rows { IfOk result (λ rows. rows.items ≡ rows_of_label line.now.number (spec.label_of line.now.tokens)) }
    ensures read { OnOk result ((items : List (Option OneItem)) → HasRead reader.old items → HasRead reader.new (items_behind items (rows_of_label line.now.number (spec.label_of line.now.tokens)))) }
    ensures words { OnOk result (reader.new.words ≡ reader.old.words) }
{
    let mut rows = Vec::new(alloc);
    if let Some(name) = label_of(line.tokens.as_slice()) {
        let item = Some(Item::Label(name));
        reader.blocks.take(&item)?;
        rows.push(Row {
            line: line.number,
            item,
            behind: Joint::End,
        })?;
    }
    Ok(rows)
}

/// The rows of a line, behind those that were read.
pub fn line_rows(
    alloc: Global,
    reader: &mut LineReader,
    line: &Line,
) -> Result<Vec<Row>, AllocError>
    ensures rows { IfOk result (λ rows. (items : List (Option OneItem)) → HasRead reader.old items → AreLineRows reader.old.words items line.now rows.items) }
    ensures read { IfOk result (λ rows. (items : List (Option OneItem)) → HasRead reader.old items → HasRead reader.new (items_behind items rows.items)) }
    ensures words { IfOk result (λ rows. reader.new.words ≡ reader.old.words) }
{
    let mut rows = label_rows(alloc, reader, line)?;
    let from = behind_label(line.tokens.as_slice());
    add_pieces(alloc, reader, line, from, &mut rows)?;
    join(rows.as_mut_slice());
    Ok(rows)
}
