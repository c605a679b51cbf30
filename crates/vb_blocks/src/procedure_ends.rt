// The end of a procedure or of a constructor.
ghost use Rattle.std.specs.Prelude.{◌&&◌, Some, None, if◌then◌else◌, not};
ghost use Rattle.vb_syntax.specs.Items.{must_override as has_no_block};
ghost use Rattle.vb_blocks.specs.Steps.{Gives};
ghost use Rattle.vb_blocks.specs.Steps as spec;
ghost use Rattle.vb_blocks.specs.Trees.{procedure as procedure_form};
ghost use Rattle.vb_blocks.specs.Words as words;

use crate::fault::Fault;
use crate::frame::Turn;
use crate::turns::closes_member;
use crate::words::{is_word, word_of};
use std::alloc::Global;
use vb_syntax::{
    Block, BlockWord, DeclarationLine, Item, Items, Member, MemberForm, Modifier, must_override,
};

/// An item behind the statements of a procedure.
pub fn procedure(
    alloc: Global,
    start: u32,
    header: Item,
    body: Block,
    item: Item,
) -> Result<Turn, Fault>
    ensures { Gives (λ t. t) result (spec.procedure_whole start (procedure_form header body item)) }
{
    match header {
        Item::Declares(declaration) => {
            procedure_end(alloc, start, declaration.into_inner(), body, word_of(item))
        }
        other => {
            drop((other, body, item));
            Err(Fault::Grammar)
        }
    }
}

fn procedure_end(
    alloc: Global,
    line: u32,
    declaration: DeclarationLine,
    body: Block,
    word: Option<BlockWord>,
) -> Result<Turn, Fault>
    ensures { Gives (λ t. t) result (spec.procedure_end line declaration body word) }
{
    match declaration {
        DeclarationLine::Sub(modifiers, signature, implements) => {
            let form = MemberForm::Sub {
                signature,
                implements,
                body: Some(body),
            };
            ended(alloc, BlockWord::Sub, word, line, modifiers, form)
        }
        DeclarationLine::Constructor(modifiers, parameters, implements) => {
            let form = MemberForm::Constructor {
                parameters,
                implements,
                body: Some(body),
            };
            ended(alloc, BlockWord::Sub, word, line, modifiers, form)
        }
        DeclarationLine::Function {
            modifiers,
            kind,
            signature,
            result,
            implements,
        } => {
            let form = MemberForm::Function {
                kind,
                signature,
                result,
                implements,
                body: Some(body),
            };
            ended(alloc, BlockWord::Function, word, line, modifiers, form)
        }
        other => {
            drop((other, body));
            Err(Fault::Grammar)
        }
    }
}

// The member with its body, where the word ends it.
fn ended(
    alloc: Global,
    wanted: BlockWord,
    word: Option<BlockWord>,
    line: u32,
    modifiers: Items<Modifier>,
    form: MemberForm,
) -> Result<Turn, Fault>
    ensures { Gives (λ t. t) result (if words.is_word wanted word && not (has_no_block modifiers)
        then spec.procedure_whole line (Some (modifiers, form)) else None) }
{
    let may_end = is_word(wanted, word) && !must_override(modifiers.as_slice());
    closes_member(
        alloc,
        may_end,
        Member {
            line,
            modifiers,
            form,
        },
    )
}
