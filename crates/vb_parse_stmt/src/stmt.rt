// What stands on a logical line.
ghost use Rattle.std.specs.Prelude.{◌≡◌, ◌≤◌, List, length};
ghost use Rattle.vb_syntax.specs.declared.tokens.Token.{Token as OneToken};
ghost use Rattle.vb_syntax.specs.declared.item.Item.{Item as OneItem};
ghost use Rattle.vb_syntax.specs.declared.words.Context.{Context as OneContext};
ghost use Rattle.vb_parse_expr.specs.TypeReading.{most_tokens};
ghost use Rattle.vb_syntax.specs.ContextualWords.{OptionsApart};
ghost use Rattle.vb_parse_stmt.specs.Items.{IsItem, IsOtherItem};
ghost use Rattle.vb_parse_decl.specs.Answers.{Tells};

use crate::branches::{case, else_if, if_or_call, otherwise, select};
use crate::declaration::{constant, dim, redim, static_local};
use crate::file::{end, imports, option};
use crate::front::{Front, front_of};
use crate::jumps::{continue_loop, exit, go_to, on_error, resume};
use crate::loops::{do_front, for_front, loop_end, next, while_front};
use crate::simple::{
    add_handler, assignment_or_call, call, raise_event, remove_handler, return_value, throw,
    yield_value,
};
use crate::tries::{catch, finally, sync_lock, try_front, using, with};
use std::alloc::Global;
use vb_parse_decl::{one_declaration, parse_declaration};
use vb_parse_expr::{ParseErr, one_reading, primary_begins};
use vb_syntax::{Boxed, Context, Item, Line};

/// What stands on the line, or on a part of it between colons, by itself: an option; `Imports`; a line of the declarations of types and members;
/// a statement without a block, or what begins, parts or ends a block (Visual Basic Language Specification 11.0, 6.2, 6.3.2, 7, 9 and 10). The context tells
/// which names are words in some places, and whether `Yield` is one here.
///
/// `Refused`, with the line's refusal of `vb_parse_expr`, comes exactly where it is of no form of the grammar. `Memory` comes
/// where there is no memory for the tree.
pub fn parse_stmt(alloc: Global, context: &Context, line: &Line) -> Result<Item, ParseErr>
    ensures { Tells (IsItem context.now) line.now line.now.tokens result }
{
    match parse_declaration(alloc, &context.words, line) {
        Ok(found) => Ok(Item::Declares(Boxed::new(alloc, found)?)),
        Err(ParseErr::Memory) => Err(ParseErr::Memory),
        Err(ParseErr::Refused(_)) => other_item(alloc, context, line),
    }
}

// What stands on a line that declares nothing.
fn other_item(alloc: Global, context: &Context, line: &Line) -> Result<Item, ParseErr>
    ensures { Tells (IsOtherItem context.now) line.now line.now.tokens result }
{
    primary_begins();
    match front_of(context, line) {
        Front::Option => option(alloc, context, line),
        Front::Imports => imports(alloc, context, line),
        Front::End => end(alloc, context, line),
        Front::Dim => dim(alloc, context, line),
        Front::Const => constant(alloc, context, line),
        Front::Static => static_local(alloc, context, line),
        Front::ReDim => redim(alloc, context, line),
        Front::Call => call(alloc, context, line),
        Front::Throw => throw(alloc, context, line),
        Front::Yield => yield_value(alloc, context, line),
        Front::Return => return_value(alloc, context, line),
        Front::GoTo => go_to(alloc, context, line),
        Front::Exit => exit(alloc, context, line),
        Front::Continue => continue_loop(alloc, context, line),
        Front::On => on_error(alloc, context, line),
        Front::Resume => resume(alloc, context, line),
        Front::AddHandler => add_handler(alloc, context, line),
        Front::RemoveHandler => remove_handler(alloc, context, line),
        Front::RaiseEvent => raise_event(alloc, context, line),
        Front::If => if_or_call(alloc, context, line),
        Front::ElseIf => else_if(alloc, context, line),
        Front::Else => otherwise(alloc, context, line),
        Front::While => while_front(alloc, context, line),
        Front::Do => do_front(alloc, context, line),
        Front::Loop => loop_end(alloc, context, line),
        Front::For => for_front(alloc, context, line),
        Front::Next => next(alloc, context, line),
        Front::Select => select(alloc, context, line),
        Front::Case => case(alloc, context, line),
        Front::Try => try_front(alloc, context, line),
        Front::Catch => catch(alloc, context, line),
        Front::Finally => finally(alloc, context, line),
        Front::SyncLock => sync_lock(alloc, context, line),
        Front::With => with(alloc, context, line),
        Front::Using => using(alloc, context, line),
        Front::Other => assignment_or_call(alloc, context, line),
    }
}

/// A law for callers' proofs: a line is one item at most, where the words of options are different names. It does nothing.
pub fn one_item()
    ensures { (c : OneContext) (ts : List OneToken) (x y : OneItem) → OptionsApart c.words → length ts ≤ most_tokens → IsItem c ts x → IsItem c ts y → x ≡ y }
{
    one_declaration();
    primary_begins();
    one_reading();
}
