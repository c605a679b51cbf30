// Modules and classes: what stands before their members, and their end.
ghost use Rattle.std.specs.Prelude.{◌≡◌, [], Some};
ghost use Rattle.vb_blocks.specs.Steps.{Gives};
ghost use Rattle.vb_blocks.specs.Steps as spec;

use std::alloc::Global;
use vb_blocks::{ClassParts, Fault, Frame, Turn, TypeHeader, closes_type, given, is_word};
use vb_syntax::{
    BlockWord, Boxed, ClassBase, DeclarationLine, InterfaceList, Item, Items, Member,
    TypeDeclaration, TypeForm, TypeName,
};

// THE END

/// `End` and a word among the members of a module or a class.
pub fn type_end(
    alloc: Global,
    kind: Boxed<TypeHeader>,
    members: Items<Member>,
    line: u32,
    word: BlockWord,
) -> Result<Turn, Fault>
    ensures { Gives (λ t. t) result (spec.members_turn kind members line (Item.End word)) }
{
    match kind.into_inner() {
        TypeHeader::Module(line, access, name) => {
            let declaration = TypeDeclaration {
                line,
                access,
                name,
                form: TypeForm::Module(members),
            };
            closes_type(alloc, is_word(BlockWord::Module, Some(word)), declaration)
        }
        TypeHeader::Class(parts) => {
            let declaration = class_of(parts, members);
            closes_type(alloc, is_word(BlockWord::Class, Some(word)), declaration)
        }
    }
}

fn class_of(parts: ClassParts, members: Items<Member>) -> TypeDeclaration
    ensures { result ≡ spec.class_of parts members }
{
    TypeDeclaration {
        line: parts.line,
        access: parts.access,
        name: parts.name,
        form: TypeForm::Class {
            modifier: parts.modifier,
            type_parameters: parts.type_parameters,
            base: parts.base,
            implements: parts.implements,
            members,
        },
    }
}

// THE BASE OF A CLASS

/// `Inherits` among the members of a module or a class.
pub fn inherits(
    alloc: Global,
    kind: Boxed<TypeHeader>,
    members: Items<Member>,
    line: u32,
    types: Items<TypeName>,
) -> Result<Turn, Fault>
    ensures { Gives (λ t. t) result (spec.members_turn kind members line (Item.Declares (DeclarationLine.Inherits types))) }
{
    match kind.into_inner() {
        TypeHeader::Class(parts) => {
            let may_inherit = is_bare(&parts, &members);
            class_inherits(alloc, may_inherit, parts, line, only(types))
        }
        TypeHeader::Module(..) => Err(Fault::Grammar),
    }
}

// Whether nothing stands in the class yet.
fn is_bare(parts: &ClassParts, members: &Items<Member>) -> bool
    ensures { result ≡ spec.is_bare_class parts.now members.now }
{
    parts.base.is_none() && parts.implements.is_empty() && members.is_empty()
}

fn class_inherits(
    alloc: Global,
    may_inherit: bool,
    parts: ClassParts,
    line: u32,
    base: Option<TypeName>,
) -> Result<Turn, Fault>
    ensures { Gives (λ t. t) result (spec.class_based_if may_inherit parts line base) }
{
    match base {
        Some(base) => {
            let kind = Boxed::new(alloc, class_based(parts, line, base))?;
            given(
                may_inherit,
                Turn::Goes(Frame::Members(kind, Items::new(alloc))),
            )
        }
        None => Err(Fault::Grammar),
    }
}

// The class with its base.
fn class_based(parts: ClassParts, line: u32, base: TypeName) -> TypeHeader
    ensures { Some (Turn.Goes (Frame.Members result [])) ≡ spec.class_based parts line (Some base) }
{
    TypeHeader::Class(ClassParts {
        line: parts.line,
        access: parts.access,
        modifier: parts.modifier,
        name: parts.name,
        type_parameters: parts.type_parameters,
        base: Some(ClassBase { line, base }),
        implements: parts.implements,
    })
}

// The only type of a list.
fn only(types: Items<TypeName>) -> Option<TypeName>
    ensures { result ≡ spec.only types }
{
    let mut types = types;
    let last = types.pop()?;
    if types.is_empty() { Some(last) } else { None }
}

// THE INTERFACES OF A CLASS

/// `Implements` among the members of a module or a class.
pub fn implements(
    alloc: Global,
    kind: Boxed<TypeHeader>,
    members: Items<Member>,
    line: u32,
    types: Items<TypeName>,
) -> Result<Turn, Fault>
    ensures { Gives (λ t. t) result (spec.members_turn kind members line (Item.Declares (DeclarationLine.Implements types))) }
{
    match kind.into_inner() {
        TypeHeader::Class(parts) => class_implements(alloc, parts, members, line, types),
        TypeHeader::Module(..) => Err(Fault::Grammar),
    }
}

fn class_implements(
    alloc: Global,
    parts: ClassParts,
    members: Items<Member>,
    line: u32,
    interfaces: Items<TypeName>,
) -> Result<Turn, Fault>
    ensures { Gives (λ t. t) result (spec.class_implements parts line interfaces members) }
{
    let is_early = has_no_members(&members);
    let mut parts = parts;
    parts.implements.push(InterfaceList { line, interfaces })?;
    let kind = Boxed::new(alloc, TypeHeader::Class(parts))?;
    given(is_early, Turn::Goes(Frame::Members(kind, members)))
}

fn has_no_members(members: &Items<Member>) -> bool
    ensures { result ≡ spec.is_empty members.now }
{
    members.is_empty()
}
