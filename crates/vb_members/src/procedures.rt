// The headers of procedures and of constructors.
ghost use Rattle.std.specs.Prelude.{Some};
ghost use Rattle.vb_blocks.specs.Steps.{Gives};
ghost use Rattle.vb_blocks.specs.Steps as spec;

use crate::members::more;
use std::alloc::Global;
use vb_blocks::{Fault, Frame, Scope, Turn, TypeHeader, begun, opens};
use vb_syntax::{
    Boxed, DeclarationLine, ImplementedMember, Item, Items, Member, MemberForm, MethodSignature,
    Modifier, Parameter, must_override,
};

/// The header of a procedure or of a constructor, or a line that doesn't stand among members.
pub fn header(
    alloc: Global,
    kind: Boxed<TypeHeader>,
    members: Items<Member>,
    line: u32,
    declaration: DeclarationLine,
) -> Result<Turn, Fault>
    ensures { Gives (λ t. t) result (spec.procedure_turn kind members line declaration) }
{
    match declaration {
        DeclarationLine::Sub(modifiers, signature, implements) => {
            sub(alloc, kind, members, line, modifiers, signature, implements)
        }
        DeclarationLine::Constructor(modifiers, parameters, implements) => {
            constructor(
                alloc, kind, members, line, modifiers, parameters, implements,
            )
        }
        DeclarationLine::Function {
            modifiers,
            kind: function,
            signature,
            result,
            implements,
        } => {
            if must_override(modifiers.as_slice()) {
                let form = MemberForm::Function {
                    kind: function,
                    signature,
                    result,
                    implements,
                    body: None,
                };
                more(kind, members, line, modifiers, form)
            } else {
                let declaration = DeclarationLine::Function {
                    modifiers,
                    kind: function,
                    signature,
                    result,
                    implements,
                };
                opens(
                    Frame::Members(kind, members),
                    procedure_frame(alloc, line, declaration),
                )
            }
        }
        other => {
            drop((members, other));
            Err(Fault::Grammar)
        }
    }
}

fn sub(
    alloc: Global,
    kind: Boxed<TypeHeader>,
    members: Items<Member>,
    line: u32,
    modifiers: Items<Modifier>,
    signature: MethodSignature,
    implements: Items<ImplementedMember>,
) -> Result<Turn, Fault>
    ensures { Gives (λ t. t) result (spec.procedure_turn kind members line (DeclarationLine.Sub modifiers signature implements)) }
{
    if must_override(modifiers.as_slice()) {
        let form = MemberForm::Sub {
            signature,
            implements,
            body: None,
        };
        more(kind, members, line, modifiers, form)
    } else {
        let declaration = DeclarationLine::Sub(modifiers, signature, implements);
        opens(
            Frame::Members(kind, members),
            procedure_frame(alloc, line, declaration),
        )
    }
}

fn constructor(
    alloc: Global,
    kind: Boxed<TypeHeader>,
    members: Items<Member>,
    line: u32,
    modifiers: Items<Modifier>,
    parameters: Items<Parameter>,
    implements: Items<ImplementedMember>,
) -> Result<Turn, Fault>
    ensures { Gives (λ t. t) result (spec.procedure_turn kind members line (DeclarationLine.Constructor modifiers parameters implements)) }
{
    if must_override(modifiers.as_slice()) {
        let form = MemberForm::Constructor {
            parameters,
            implements,
            body: None,
        };
        more(kind, members, line, modifiers, form)
    } else {
        let declaration = DeclarationLine::Constructor(modifiers, parameters, implements);
        opens(
            Frame::Members(kind, members),
            procedure_frame(alloc, line, declaration),
        )
    }
}

fn procedure_frame(alloc: Global, line: u32, declaration: DeclarationLine) -> Result<Frame, Fault>
    ensures { Gives (λ f. f) result (Some (spec.body (Scope.Procedure line (Item.Declares declaration)))) }
{
    let declaration = Boxed::new(alloc, declaration)?;
    let header = Boxed::new(alloc, Item::Declares(declaration))?;
    Ok(begun(alloc, Scope::Procedure(line, header)))
}
