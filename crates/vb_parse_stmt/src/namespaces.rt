// What an `Imports` lists.
ghost use Rattle.std.specs.Prelude.{◌≡◌, ◌≤◌, length, drop};
ghost use Rattle.vb_parse_stmt.specs.NamespaceReading as spec;
ghost use Rattle.vb_parse_expr.specs.Fronts.{Answers};
ghost use Rattle.vb_parse_decl.specs.DeclaredReading.{IsPartAt, is_over as over};
ghost use Rattle.vb_parse_decl.specs.Answers.{Tells};
ghost use Rattle.vb_parse_decl.specs.Parts.{AreListed};
ghost use Rattle.vb_parse_expr.specs.Types.{SpellsNames};

use std::alloc::Global;
use vb_parse_decl::{first_name, is_over, rest};
use vb_parse_expr::{ParseErr, refusal};
use vb_syntax::{Items, Line, Symbol, Token};
use vb_text::Name;

// One namespace or several with commas between them, which all tokens behind the first are.
pub fn namespaces(alloc: Global, line: &Line) -> Result<Items<Items<Name>>, ParseErr>
    requires { 1 ≤ length line.now.tokens }
    ensures { Tells (AreListed SpellsNames) line.now (drop 1 line.now.tokens) result }
{
    let mut found = Items::new(alloc);
    let mut at = 1;
    while at < line.tokens.len() {
        let (one, behind) = namespace(alloc, line, at)?;
        found.push(one)?;
        if behind == line.tokens.len() {
            return Ok(found);
        }
        at = behind + 1;
    }
    Err(ParseErr::Refused(refusal(line)))
}

// Names with dots between them, up to a comma or the line's end.
fn namespace(alloc: Global, line: &Line, from: usize) -> Result<(Items<Name>, usize), ParseErr>
    requires { from ≤ length line.now.tokens }
    ensures { Answers (IsPartAt over SpellsNames) line.now from result }
{
    let mut found = Items::new(alloc);
    let mut at = from;
    while at < line.tokens.len() {
        let Some(name) = first_name(rest(line, at)) else {
            return Err(ParseErr::Refused(refusal(line)));
        };
        found.push(name)?;
        if is_over(rest(line, at + 1)) {
            return Ok((found, at + 1));
        }
        if !is_dot(rest(line, at + 1)) {
            return Err(ParseErr::Refused(refusal(line)));
        }
        at += 2;
    }
    Err(ParseErr::Refused(refusal(line)))
}

fn is_dot(tokens: &[Token]) -> bool
    ensures { result ≡ spec.is_dot tokens.now }
{
    matches!(tokens, [Token::Symbol(Symbol::Dot), ..])
}
