// A program and its locals.
ghost use Rattle.std.specs.Prelude.{◌≡◌, [], IfOk, Err, Some};
ghost use Rattle.vb_syntax.specs.declared.declaration.SourceFile.{SourceFile as OneFile};
ghost use Rattle.vb_bound.specs.Tree.{Block, Tree, IsBound, IsOutlineOf, lines_of, outline};
ghost use Rattle.vb_bind.specs.Grammar.{IsProgramOf};
ghost use Rattle.vb_bind.specs.Parsing.{Front, IsGoodBlock, IsNoBlock, front_read};

use crate::blocks::program_behind;
use crate::names::{KnownNames, is_new_name};
use crate::outer::main_of;
use crate::statements::dim_of;
use std::alloc::Global;
use vb_bound::{Operand, Program};
use vb_syntax::{SourceFile, Statement};
use vb_text::Name;

/// Why no program was read (Visual Basic Language Specification 11.0, 1.1).
#[derive(Clone, Copy, Debug, PartialEq, Eq)]
pub enum ReadErr {
    /// The file is no program of the grammar.
    Refused,
    /// Memory ran out.
    Memory,
}

/// The program of a file, by its syntax tree: a module with a `Main` of declarations, assignments, `Console.WriteLine` and
/// While loops (Visual Basic Language Specification 11.0, 7.7, 9.2.1, 10.2, 10.9.1). It recurses as deeply as the loops nest.
///
/// It is `Refused` exactly where the file is no such program, or `Memory` where memory runs out.
pub fn read_program(
    alloc: Global,
    known: &KnownNames,
    file: &SourceFile,
) -> Result<Program, ReadErr>
    ensures read { IfOk result (λ p. (t : Tree) × IsProgramOf known.now file.now t × IsOutlineOf p t) }
    ensures refused { result ≡ Err ReadErr.Refused → (t : Tree) → IsProgramOf known.now file.now t → ⊥ }
{
    match main_of(known, file) {
        Some((own_name, body)) => program_of(alloc, known, own_name, body),
        None => Err(ReadErr::Refused),
    }
}

/// A law for callers' proofs: a file is that of one program at most (Visual Basic Language Specification 11.0, 1.1). It does
/// nothing.
pub fn one_program()
    ensures { (known : KnownNames) (file : OneFile) (t u : Tree) → IsProgramOf known file t → IsProgramOf known file u → t ≡ u }
{}

// The program of the statements of Main, in the module of this name.
fn program_of(
    alloc: Global,
    known: &KnownNames,
    own_name: Name,
    body: &[Statement],
) -> Result<Program, ReadErr>
    ensures read { IfOk result (λ p. (f : Front) × (b : Block) × (front_read known.now own_name [] [] body.now ≡ Some f) × IsGoodBlock known.now f.names f.behind b × (p ≡ outline f.locals (lines_of b))) }
    ensures refused { result ≡ Err ReadErr.Refused → (f : Front) → front_read known.now own_name [] [] body.now ≡ Some f → IsNoBlock known.now f.names f.behind }
    ensures bound { IfOk result (λ p. IsBound p) }
{
    let mut names: Vec<Name> = Vec::new(alloc);
    let mut locals: Vec<Option<Operand>> = Vec::new(alloc);
    let mut rest = body;
    while let [statement, behind @ ..] = rest {
        let Some((name, initial)) = dim_of(known, &names, &statement.form) else {
            break;
        };
        if !is_new_name(own_name, &names, name) {
            return Err(ReadErr::Refused);
        }
        if names.push(name).is_err() || locals.push(initial).is_err() {
            return Err(ReadErr::Memory);
        }
        rest = behind;
    }
    program_behind(alloc, known, &names, locals, rest)
}
