// The tree of a file.
ghost use Rattle.std.specs.Prelude.{◌≡◌, ℕ, List, [], ◌∷◌, reverse, IfOk, Err, None, Some};
ghost use Rattle.vb_syntax.specs.declared.declaration.SourceFile.{SourceFile as Tree};
ghost use Rattle.vb_ends.specs.declared.role.Sort.{Sort};
ghost use Rattle.vb_ends.specs.Roles.{marks_of, AreOpenBehind};
ghost use Rattle.vb_blocks.specs.Trees.{IsTree, IsMisplaced};
ghost use Rattle.vb_blocks.specs.Steps as spec;
ghost use Rattle.vb_tree.specs.Build as answers;

use crate::step::step;
use std::alloc::{AllocError, Global};
use vb_blocks::{Fault, FileParts, Frame};
use vb_syntax::{Boxed, Items, Row, SourceFile};

/// Why the rows of a file are no tree.
#[derive(Clone, Copy, Debug, PartialEq, Eq)]
pub enum BuildErr {
    /// A file of the grammar begins with the rows before this line's, and none goes on with the row in this line.
    Misplaced(u32),
    /// A block has no end.
    Unended,
    /// Memory ran out.
    Memory,
}

/// The tree of the rows of a file, listed from its beginning (Visual Basic Language Specification 11.0, 1.1, 6, 7, 9 and 10). `file` is the
/// file's number.
///
/// # Errors
///
/// `Misplaced` comes exactly where a row doesn't go on with a file of the grammar, with the line of the first; there is one such line at most.
/// `Unended` comes where each row goes on and the rows are no tree: a block is open behind the last. `Memory` comes where there is no memory for
/// the tree.
pub fn build(alloc: Global, file: u32, rows: Items<Row>) -> Result<SourceFile, BuildErr>
    ensures tree { IfOk result (λ t. IsTree file rows t) }
    ensures placed { IfOk result (λ t. (line : ℕ) → IsMisplaced rows line → ⊥) }
    ensures misplaced { (line : ℕ) → result ≡ Err (BuildErr.Misplaced line) → IsMisplaced rows line }
    ensures alone { (line other : ℕ) → result ≡ Err (BuildErr.Misplaced line) → IsMisplaced rows other → other ≡ line }
    ensures no_tree { result ≡ Err BuildErr.Unended → (t : Tree) → IsTree file rows t → ⊥ }
    ensures unended { result ≡ Err BuildErr.Unended → (line : ℕ) → IsMisplaced rows line → ⊥ }
    ensures open_block { result ≡ Err BuildErr.Unended → (s : Sort) × (ss : List Sort) × AreOpenBehind (marks_of None (reverse rows)) (s ∷ ss) }
{
    let Ok(rest) = reversed(alloc, rows) else {
        return Err(BuildErr::Memory);
    };
    let mut below = Items::new(alloc);
    match stand(alloc, rest, &mut below) {
        Ok(top) => finish(file, top, below.is_empty()),
        Err(error) => Err(error),
    }
}

// The rows, the last first.
fn reversed(alloc: Global, rows: Items<Row>) -> Result<Items<Row>, AllocError>
    ensures { IfOk result (λ rest. rest ≡ reverse rows) }
{
    let mut left = rows;
    let mut rest = Items::new(alloc);
    while let Some(row) = left.pop() {
        rest.push(row)?;
    }
    Ok(rest)
}

// The innermost frame behind all rows, which are listed from the last.
fn stand(alloc: Global, rows: Items<Row>, below: &mut Items<Frame>) -> Result<Frame, BuildErr>
    requires { below.old ≡ [] }
    ensures stands { IfOk result (λ top. spec.run (reverse rows) spec.start [] ≡ Some (top, reverse below.new)) }
    ensures misplaced { (line : ℕ) → result ≡ Err (BuildErr.Misplaced line) → IsMisplaced (reverse rows) line }
    ensures never { result ≡ Err BuildErr.Unended → ⊥ }
{
    let mut rest = rows;
    let Ok(mut top) = start(alloc) else {
        return Err(BuildErr::Memory);
    };
    while let Some(row) = rest.pop() {
        let line = row.line;
        match step(alloc, top, below, row) {
            Ok(next) => top = next,
            Err(fault) => return Err(stopped(fault, line)),
        }
    }
    Ok(top)
}

// Before the first row.
fn start(alloc: Global) -> Result<Frame, AllocError>
    ensures { IfOk result (λ f. f ≡ spec.start) }
{
    let parts = FileParts {
        options: Items::new(alloc),
        imports: Items::new(alloc),
        types: Items::new(alloc),
    };
    Ok(Frame::File(Boxed::new(alloc, parts)?))
}

fn stopped(fault: Fault, line: u32) -> BuildErr
    ensures { result ≡ answers.stopped fault line }
{
    match fault {
        Fault::Memory => BuildErr::Memory,
        Fault::Grammar => BuildErr::Misplaced(line),
    }
}

// The file is read, and nothing stands round the innermost frame, or something does.
fn finish(file: u32, top: Frame, is_outermost: bool) -> Result<SourceFile, BuildErr>
    ensures { result ≡ answers.finish file top is_outermost }
{
    match top {
        Frame::File(parts) => file_of(file, parts.into_inner(), is_outermost),
        other => {
            drop(other);
            Err(BuildErr::Unended)
        }
    }
}

fn file_of(file: u32, parts: FileParts, is_outermost: bool) -> Result<SourceFile, BuildErr>
    ensures { result ≡ answers.finish file (Frame.File parts) is_outermost }
{
    if is_outermost {
        Ok(SourceFile {
            file,
            options: parts.options,
            imports: parts.imports,
            types: parts.types,
        })
    } else {
        Err(BuildErr::Unended)
    }
}
