// The first line that has a form which no program has.
ghost use Rattle.std.specs.Prelude.{◌≡◌, ℕ, [], ◌∷◌};
ghost use Rattle.vb_syntax.specs.declared.declaration.OptionStatement.{OptionStatement as OneOption};
ghost use Rattle.vb_syntax.specs.declared.declaration.SourceFile.{SourceFile as OneFile};
ghost use Rattle.vb_bound.specs.Tree.{Tree};
ghost use Rattle.vb_diag.specs.Broken.{IsLeastLine};
ghost use Rattle.vb_bind.specs.Grammar.{IsProgramOf, HasUnbuiltForm, HasUnbuiltType, HasUnbuiltMember, HasUnbuiltStatement, IsUnbuiltImports, HasOne};

use crate::forms::is_built;
use crate::names::KnownNames;
use crate::outer::{body_of_main, is_system, members_of};
use vb_diag::lesser;
use vb_syntax::{
    ImportsStatement, Member, OptionStatement, SourceFile, Statement, StatementForm,
    TypeDeclaration,
};

/// The least line that has a form which no program has, whatever its names and its numbers are: an `Option`, an `Imports` that
/// isn't of `System` alone, a type that is no module, a member that is no `Main`, or a statement that is no declaration of an
/// Integer, no assignment, no `Console.WriteLine` and no While (Visual Basic Language Specification 11.0, 6.2, 6.3.2, 7, 9 and
/// 10). What stands inside such a form isn't looked at. There is none exactly where each form is one of a program.
pub fn first_unbuilt(known: &KnownNames, file: &SourceFile) -> Option<u32>
    ensures { IsLeastLine (HasUnbuiltForm known.now file.now) result }
{
    let options = first_option(file.options.as_slice());
    let imports = first_imports(known, file.imports.as_slice());
    let types = first_in_types(known, file.types.as_slice());
    lesser(options, lesser(imports, types))
}

/// A law for callers' proofs: a program has no form that isn't one of a program's (Visual Basic Language Specification 11.0,
/// 1.1). It does nothing.
pub fn programs_are_built()
    ensures { (known : KnownNames) (file : OneFile) (t : Tree) (line : ℕ) → IsProgramOf known file t → HasUnbuiltForm known file line → ⊥ }
{}

fn first_option(options: &[OptionStatement]) -> Option<u32>
    ensures { IsLeastLine (λ n. HasOne (λ (o : OneOption). o.line ≡ n) options.now) result }
{
    let mut first = None;
    for option in options {
        first = lesser(first, Some(option.line));
    }
    first
}

fn first_imports(known: &KnownNames, imports: &[ImportsStatement]) -> Option<u32>
    ensures { IsLeastLine (λ n. HasOne (IsUnbuiltImports known.now n) imports.now) result }
{
    let mut first = None;
    for statement in imports {
        first = lesser(first, first_in_imports(known, statement));
    }
    first
}

fn first_in_imports(known: &KnownNames, statement: &ImportsStatement) -> Option<u32>
    ensures { IsLeastLine (λ n. IsUnbuiltImports known.now n statement.now) result }
{
    if is_system(known, statement) {
        None
    } else {
        Some(statement.line)
    }
}

fn first_in_types(known: &KnownNames, types: &[TypeDeclaration]) -> Option<u32>
    ensures { IsLeastLine (λ n. HasOne (HasUnbuiltType known.now n) types.now) result }
{
    let mut first = None;
    for declared in types {
        first = lesser(first, first_in_type(known, declared));
    }
    first
}

fn first_in_type(known: &KnownNames, declared: &TypeDeclaration) -> Option<u32>
    ensures { IsLeastLine (λ n. HasUnbuiltType known.now n declared.now) result }
{
    match members_of(declared) {
        Some(members) => first_in_members(known, members),
        None => Some(declared.line),
    }
}

fn first_in_members(known: &KnownNames, members: &[Member]) -> Option<u32>
    ensures { IsLeastLine (λ n. HasOne (HasUnbuiltMember known.now n) members.now) result }
{
    let mut first = None;
    for member in members {
        first = lesser(first, first_in_member(known, member));
    }
    first
}

fn first_in_member(known: &KnownNames, member: &Member) -> Option<u32>
    ensures { IsLeastLine (λ n. HasUnbuiltMember known.now n member.now) result }
{
    match body_of_main(known, member) {
        Some(body) => first_in_block(known, body),
        None => Some(member.line),
    }
}

#[cycle(unbuilt)]
fn first_in_block(known: &KnownNames, block: &[Statement]) -> Option<u32>
    ensures { IsLeastLine (λ n. HasUnbuiltStatement known.now n block.now) result }
{
    let mut first = None;
    for statement in block {
        first = lesser(first, first_in_statement(known, statement));
    }
    first
}

#[cycle(unbuilt)]
fn first_in_statement(known: &KnownNames, statement: &Statement) -> Option<u32>
    ensures { IsLeastLine (λ n. HasUnbuiltStatement known.now n (statement.now ∷ [])) result }
{
    if !is_built(known, &statement.form) {
        return Some(statement.line);
    }
    match &statement.form {
        StatementForm::While(_, body) => first_in_block(known, body.as_slice()),
        _ => None,
    }
}
