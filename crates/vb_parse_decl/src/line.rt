// A line of the declarations of types and members.
ghost use Rattle.std.specs.Prelude.{◌≡◌, ◌≤◌, List, [], IfOk, length, drop};
ghost use Rattle.vb_syntax.specs.declared.item.DeclarationLine.{DeclarationLine as OneLine};
ghost use Rattle.vb_syntax.specs.declared.tokens.Token.{Token as OneToken};
ghost use Rattle.vb_syntax.specs.declared.words.ContextualWords.{ContextualWords as OneTable};
ghost use Rattle.vb_parse_expr.specs.TypeReading.{Gives, most_tokens};
ghost use Rattle.vb_parse_decl.specs.Answers.{Tells};
ghost use Rattle.vb_parse_decl.specs.DeclarationLines.{IsDeclarationLine};
ghost use Rattle.vb_parse_decl.specs.LineReading as spec;
ghost use Rattle.vb_parse_decl.specs.LineReading.{IsAfterModifiers};

use crate::declarator::declarators;
use crate::headers::{
    class_behind, delegate_behind, read_class, read_implements_line, read_inherits, read_interface,
    read_module,
};
use crate::members::{
    property_behind, read_accessor, read_custom_event, read_event, read_function, read_get,
    read_set, sub_behind, write_only_behind,
};
use crate::modifiers::read_modifiers;
use std::alloc::Global;
use vb_parse_expr::{Fault, ParseErr, one_reading, primary_begins, refusal};
use vb_syntax::{
    ClassModifier, ContextualWords, DeclarationLine, Declarator, EventAccessorKind, FunctionKind,
    Items, Keyword, Line, Modifier, Token,
};
use vb_text::Name;

/// What the line declares: the header of a type, a member or an accessor; a delegate, an event, or variables or constants with
/// modifiers; the bases and the interfaces of a type (Visual Basic Language Specification 11.0, 7 and 9).
///
/// # Errors
///
/// `Refused`, with the line's `refusal`, exactly where it is no such line. `Memory` where there is no memory for the tree.
pub fn parse_declaration(
    alloc: Global,
    words: &ContextualWords,
    line: &Line,
) -> Result<DeclarationLine, ParseErr>
    ensures { Tells (IsDeclarationLine words.now) line.now line.now.tokens result }
{
    let (modifiers, rest) = read_modifiers(alloc, line.tokens.as_slice())?;
    let at = line.tokens.len() - rest.len();
    if begins_constants(rest) {
        let found = with_modifiers(alloc, &modifiers, line, at + 1)?;
        return Ok(DeclarationLine::Constants(modifiers, found));
    }
    if let Some(before) = variables_at(rest) {
        let found = with_modifiers(alloc, &modifiers, line, at + before)?;
        return Ok(DeclarationLine::Variables(modifiers, found));
    }
    match read_header(alloc, words, modifiers, rest) {
        Ok(found) => Ok(found),
        Err(Fault::Memory) => Err(ParseErr::Memory),
        Err(Fault::Grammar) => Err(ParseErr::Refused(refusal(line))),
    }
}

/// A law for callers' proofs: a line declares one thing at most. It does nothing.
pub fn one_declaration()
    ensures { (words : OneTable) (ts : List OneToken) (x y : OneLine) → length ts ≤ most_tokens → IsDeclarationLine words ts x → IsDeclarationLine words ts y → x ≡ y }
{
    primary_begins();
    one_reading();
}

// The declarators from this place on, where modifiers stand before them.
fn with_modifiers(
    alloc: Global,
    modifiers: &Items<Modifier>,
    line: &Line,
    from: usize,
) -> Result<Items<Declarator>, ParseErr>
    requires { from ≤ length line.now.tokens }
    ensures { Tells (IsAfterModifiers modifiers.now) line.now (drop from line.now.tokens) result }
{
    if modifiers.is_empty() {
        return Err(ParseErr::Refused(refusal(line)));
    }
    declarators(alloc, line, from)
}

fn begins_constants(tokens: &[Token]) -> bool
    ensures { result ≡ spec.begins_constants tokens.now }
{
    matches!(tokens, [Token::Keyword(Keyword::Const), ..])
}

// How many tokens stand before the declarators of variables, where the tokens begin as those do.
fn variables_at(tokens: &[Token]) -> Option<usize>
    ensures { result ≡ spec.variables_at tokens.now }
{
    match tokens {
        [Token::Keyword(Keyword::Dim), ..] => Some(1),
        [Token::Name(_), rest @ ..] => if begins_member(rest) { None } else { Some(0) }
        [Token::EscapedName(_), ..] => Some(0),
        _ => None,
    }
}

// Whether `Function` or `Event` comes first, which stand behind no name of a variable.
fn begins_member(tokens: &[Token]) -> bool
    ensures { result ≡ spec.begins_member tokens.now }
{
    matches!(
        tokens,
        [Token::Keyword(Keyword::Function | Keyword::Event), ..]
    )
}

// Other lines, by what stands behind the modifiers.
#[tactic(auto, unfolding(crate::specs::LineReading::read_header))]
fn read_header(
    alloc: Global,
    words: &ContextualWords,
    modifiers: Items<Modifier>,
    tokens: &[Token],
) -> Result<DeclarationLine, Fault>
    ensures { Gives (λ x. x) result (spec.read_header words.now modifiers tokens.now) }
{
    match tokens {
        [Token::Keyword(word), rest @ ..] => by_word(alloc, *word, modifiers, rest),
        [Token::Name(name), rest @ ..] => by_name(alloc, words, *name, modifiers, rest),
        _ => Err(Fault::Grammar),
    }
}

#[tactic(auto, unfolding(crate::specs::LineReading::by_word))]
fn by_word(
    alloc: Global,
    word: Keyword,
    modifiers: Items<Modifier>,
    rest: &[Token],
) -> Result<DeclarationLine, Fault>
    ensures { Gives (λ x. x) result (spec.by_word word modifiers rest.now) }
{
    match word {
        Keyword::Sub => sub_behind(alloc, modifiers, rest),
        Keyword::Function => read_function(alloc, FunctionKind::Regular, modifiers, rest),
        Keyword::Property => property_behind(alloc, modifiers, rest),
        Keyword::WriteOnly => write_only_behind(alloc, modifiers, rest),
        Keyword::Event => read_event(alloc, modifiers, rest),
        _ => by_access(alloc, word, &modifiers, rest),
    }
}

// Lines with an access alone or without modifiers.
#[tactic(auto, unfolding(crate::specs::LineReading::by_access))]
fn by_access(
    alloc: Global,
    word: Keyword,
    modifiers: &Items<Modifier>,
    rest: &[Token],
) -> Result<DeclarationLine, Fault>
    ensures { Gives (λ x. x) result (spec.by_access word modifiers.now rest.now) }
{
    match word {
        Keyword::Module => read_module(modifiers, rest),
        Keyword::Class => read_class(alloc, None, modifiers, rest),
        Keyword::MustInherit => class_behind(alloc, ClassModifier::MustInherit, modifiers, rest),
        Keyword::NotInheritable => {
            class_behind(alloc, ClassModifier::NotInheritable, modifiers, rest)
        }
        Keyword::Interface => read_interface(alloc, modifiers, rest),
        Keyword::Delegate => delegate_behind(alloc, modifiers, rest),
        Keyword::Inherits => read_inherits(alloc, modifiers, rest),
        Keyword::Implements => read_implements_line(alloc, modifiers, rest),
        Keyword::Get => read_get(modifiers, rest),
        Keyword::Set => read_set(alloc, modifiers, rest),
        Keyword::AddHandler => read_accessor(alloc, EventAccessorKind::AddHandler, modifiers, rest),
        Keyword::RemoveHandler => {
            read_accessor(alloc, EventAccessorKind::RemoveHandler, modifiers, rest)
        }
        Keyword::RaiseEvent => read_accessor(alloc, EventAccessorKind::RaiseEvent, modifiers, rest),
        _ => Err(Fault::Grammar),
    }
}

// `Iterator` before `Function`, and `Custom` before `Event`.
#[tactic(auto, unfolding(crate::specs::LineReading::by_name))]
fn by_name(
    alloc: Global,
    words: &ContextualWords,
    name: Name,
    modifiers: Items<Modifier>,
    rest: &[Token],
) -> Result<DeclarationLine, Fault>
    ensures { Gives (λ x. x) result (spec.by_name words.now name modifiers rest.now) }
{
    match rest {
        [Token::Keyword(Keyword::Function), rest @ ..] if name == words.iterator => {
            read_function(alloc, FunctionKind::Iterator, modifiers, rest)
        }
        [Token::Keyword(Keyword::Event), rest @ ..] if name == words.custom => {
            read_custom_event(alloc, modifiers, rest)
        }
        _ => Err(Fault::Grammar),
    }
}
