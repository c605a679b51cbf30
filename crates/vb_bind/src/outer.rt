// What stands around the statements of Main: the file, its module and its members.
ghost use Rattle.std.specs.Prelude.{◌≡◌, MatchOption, None, Some};
ghost use Rattle.vb_bind.specs.Parsing.{only as only_item, is_system as is_system_list, members_read, is_main_signature, main_read, file_read};

use crate::names::{KnownNames, is_same, new_name_of};
use vb_syntax::{
    ImportsStatement, Member, MemberForm, MethodSignature, SourceFile, Statement, TypeDeclaration,
    TypeForm,
};
use vb_text::Name;

// The module's name and the statements of Main.
pub fn main_of<'a>(known: &KnownNames, file: &'a SourceFile) -> Option<(Name, &'a [Statement])>
    ensures { MatchOption result (file_read known.now file.now ≡ None) (λ r. file_read known.now file.now ≡ Some (r.0, r.1.now)) }
{
    if !file.options.is_empty() {
        return None;
    }
    let imports = only(file.imports.as_slice())?;
    if !is_system(known, imports) {
        return None;
    }
    let declared = only(file.types.as_slice())?;
    let name = new_name_of(known, declared.name)?;
    let main = only(members_of(declared)?)?;
    let body = body_of_main(known, main)?;
    Some((name, body))
}

// The one element.
fn only<T>(items: &[T]) -> Option<&T>
    ensures { MatchOption result (only_item items.now ≡ None) (λ x. only_item items.now ≡ Some x.now) }
{
    match items {
        [item] => Some(item),
        _ => None,
    }
}

// Whether they are the one namespace that a program imports.
pub fn is_system(known: &KnownNames, imports: &ImportsStatement) -> bool
    ensures { result ≡ is_system_list known.now imports.now.namespaces }
{
    match imports.namespaces.as_slice() {
        [parts] => match parts.as_slice() {
            [name] => is_same(*name, known.system),
            _ => false,
        },
        _ => false,
    }
}

// The members of a module without an access.
pub fn members_of(declared: &TypeDeclaration) -> Option<&[Member]>
    ensures { MatchOption result (members_read declared.now ≡ None) (λ ms. members_read declared.now ≡ Some ms.now) }
{
    match (declared.access, &declared.form) {
        (None, TypeForm::Module(members)) => Some(members.as_slice()),
        _ => None,
    }
}

fn is_main(known: &KnownNames, signature: &MethodSignature) -> bool
    ensures { result ≡ is_main_signature known.now signature.now }
{
    is_same(signature.name, known.main)
        && signature.type_parameters.is_empty()
        && signature.parameters.is_empty()
}

// The statements of the member, where it is Main.
pub fn body_of_main<'a>(known: &KnownNames, member: &'a Member) -> Option<&'a [Statement]>
    ensures { MatchOption result (main_read known.now member.now ≡ None) (λ body. main_read known.now member.now ≡ Some body.now) }
{
    if !member.modifiers.is_empty() {
        return None;
    }
    match &member.form {
        MemberForm::Sub {
            signature,
            implements,
            body: Some(body),
        } if implements.is_empty() && is_main(known, signature) => Some(body.as_slice()),
        _ => None,
    }
}
