// From the bytes of a file to a program.
ghost use Rattle.std.specs.Prelude.{◌≡◌, ◌≤◌, length, IfOk, Err};
ghost use Rattle.vb_diag.specs.declared.refusal.Refusal.{Refusal as OneRefusal};
ghost use Rattle.vb_bound.specs.Tree.{Tree, IsOutlineOf};
ghost use Rattle.vb_bind.specs.Grammar.{IsProgramOf};
ghost use Rattle.vb_top.specs.Programs.{IsProgram, LeastBroken, IsFirstUnbuilt};
ghost use Rattle.vb_top.specs.declared.compiling.CompileErr.TheVariants.{Memory as NoMemory};

use std::alloc::{AllocError, Global};
use vb_bind::{KnownNames, ReadErr, first_unbuilt, read_program};
use vb_bound::Program;
use vb_diag::{Refusal, Rule};
use vb_lexer::{LexErr, lex};
use vb_parse::{ParseErr, parse};
use vb_syntax::{ContextualWords, SourceFile, words_apart};
use vb_text::{NameTable, names_stay};

/// Why there is no program: the least rule that the file breaks, or want of memory.
#[derive(Clone, Copy, Debug, PartialEq, Eq)]
pub enum CompileErr {
    Refused(Refusal),
    Memory,
}

impl From<AllocError> for CompileErr {
    ghost from_gives = { λ _ e. e ≡ NoMemory };

    fn from(_: AllocError) -> Self {
        CompileErr::Memory
    }
}

/// The program of a file's bytes, of which there are at most 4,194,304: their logical lines, the syntax tree of those, and the
/// program of the tree.
///
/// `Refused` comes exactly where they break a rule: the least lexical one; or else the least on lines and blocks, by line and
/// number; or else, where the tree is no program, the rule against forms that aren't built yet, at the least line with a form that
/// no program has, and at line 1 where none has.
pub fn compile(alloc: Global, bytes: &[u8]) -> Result<Program, CompileErr>
    requires { length bytes.now ≤ 4194304 }
    ensures read { IfOk result (λ p. (t : Tree) × IsProgram bytes.now t × IsOutlineOf p t) }
    ensures refused { (refusal : OneRefusal) → result ≡ Err (CompileErr.Refused refusal) → LeastBroken bytes.now refusal.line refusal.rule }
{
    let mut names = NameTable::new(alloc)?;
    let lines = match lex(alloc, 0, bytes, &mut names) {
        Ok(lines) => lines,
        Err(LexErr::Refused(refusal)) => return Err(CompileErr::Refused(refusal)),
        Err(LexErr::Memory) => return Err(CompileErr::Memory),
    };
    names.are_apart();
    let known = KnownNames::new(&mut names)?;
    let words = ContextualWords::new(&mut names)?;
    names.are_apart();
    words_apart();
    names_stay();
    match parse(alloc, &words, 0, lines.as_slice()) {
        Ok(tree) => program_of(alloc, &known, &tree),
        Err(ParseErr::Refused(refusal)) => Err(CompileErr::Refused(refusal)),
        Err(ParseErr::Memory) => Err(CompileErr::Memory),
    }
}

// The program that the tree is.
fn program_of(alloc: Global, known: &KnownNames, tree: &SourceFile) -> Result<Program, CompileErr>
    ensures read { IfOk result (λ p. (t : Tree) × IsProgramOf known.now tree.now t × IsOutlineOf p t) }
    ensures refused { (refusal : OneRefusal) → result ≡ Err (CompileErr.Refused refusal) → (refusal.rule ≡ 999) × ((t : Tree) → IsProgramOf known.now tree.now t → ⊥) × IsFirstUnbuilt known.now tree.now refusal.line }
{
    match read_program(alloc, known, tree) {
        Ok(program) => Ok(program),
        Err(ReadErr::Refused) => {
            let line = first_unbuilt(known, tree).unwrap_or(1);
            Err(CompileErr::Refused(unbuilt(line)))
        }
        Err(ReadErr::Memory) => Err(CompileErr::Memory),
    }
}

// The refusal of a form that isn't built yet.
fn unbuilt(line: u32) -> Refusal
    ensures rule { result.rule ≡ 999 }
    ensures line { result.line ≡ line }
{
    Refusal {
        rule: Rule::new(999),
        file: 0,
        line,
    }
}
