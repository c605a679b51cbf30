// What a `Case` lists.
ghost use Rattle.std.specs.Prelude.{◌≡◌, ◌≤◌, None, length, drop};
ghost use Rattle.vb_parse_stmt.specs.CaseReading as spec;
ghost use Rattle.vb_parse_expr.specs.Fronts.{Answers};
ghost use Rattle.vb_parse_decl.specs.DeclaredReading.{IsPartAt, is_over as over};
ghost use Rattle.vb_parse_decl.specs.Answers.{Tells};
ghost use Rattle.vb_parse_decl.specs.Parts.{AreListed};
ghost use Rattle.vb_parse_stmt.specs.Statements.{IsCaseItem};

use std::alloc::Global;
use vb_parse_decl::{is_over, over_expression, rest};
use vb_parse_expr::{ParseErr, one_reading, parse_expr, primary_begins, refusal};
use vb_syntax::{CaseItem, Items, Keyword, Line, RelationalOperator, Symbol, Token};

// One part or several with commas between them, which all tokens behind the first are.
pub fn case_items(alloc: Global, line: &Line) -> Result<Items<CaseItem>, ParseErr>
    requires { 1 ≤ length line.now.tokens }
    ensures { Tells (AreListed IsCaseItem) line.now (drop 1 line.now.tokens) result }
{
    one_reading();
    primary_begins();
    let mut found = Items::new(alloc);
    let mut at = 1;
    while at < line.tokens.len() {
        let (one, behind) = case_item(alloc, line, at)?;
        found.push(one)?;
        if behind == line.tokens.len() {
            return Ok(found);
        }
        at = behind + 1;
    }
    Err(ParseErr::Refused(refusal(line)))
}

// A value, two values with `To` between them or a comparison, up to a comma or the line's end.
fn case_item(alloc: Global, line: &Line, from: usize) -> Result<(CaseItem, usize), ParseErr>
    requires { from ≤ length line.now.tokens }
    ensures { Answers (IsPartAt over IsCaseItem) line.now from result }
{
    primary_begins();
    match relation_front(rest(line, from)) {
        Some(relation) => {
            let size = relation_size(rest(line, from));
            let (value, behind) = over_expression(alloc, line, from + size)?;
            Ok((CaseItem::Relation(relation, value), behind))
        }
        None => values(alloc, line, from),
    }
}

// A value, or two values with `To` between them.
fn values(alloc: Global, line: &Line, from: usize) -> Result<(CaseItem, usize), ParseErr>
    requires within { from ≤ length line.now.tokens }
    requires other { spec.relation_front (drop from line.now.tokens) ≡ None }
    ensures { Answers (IsPartAt over IsCaseItem) line.now from result }
{
    one_reading();
    match parse_expr(alloc, line, from) {
        Ok((first, behind)) => {
            if is_over(rest(line, behind)) {
                Ok((CaseItem::Value(first), behind))
            } else if is_to(rest(line, behind)) {
                let (last, end) = over_expression(alloc, line, behind + 1)?;
                Ok((CaseItem::Range(first, last), end))
            } else {
                Err(ParseErr::Refused(refusal(line)))
            }
        }
        Err(ParseErr::Memory) => Err(ParseErr::Memory),
        Err(ParseErr::Refused(_)) => Err(ParseErr::Refused(refusal(line))),
    }
}

// The comparison that stands first, behind `Is` or without it.
fn relation_front(tokens: &[Token]) -> Option<RelationalOperator>
    ensures { result ≡ spec.relation_front tokens.now }
{
    match tokens {
        [Token::Symbol(sign), ..] => relation_of(*sign),
        [Token::Keyword(Keyword::Is), Token::Symbol(sign), ..] => relation_of(*sign),
        _ => None,
    }
}

// Of how many tokens a comparison is.
fn relation_size(tokens: &[Token]) -> usize
    ensures { result ≡ spec.relation_size tokens.now }
{
    match tokens {
        [Token::Keyword(_), ..] => 2,
        _ => 1,
    }
}

fn relation_of(sign: Symbol) -> Option<RelationalOperator>
    ensures { result ≡ spec.relation_of sign }
{
    match sign {
        Symbol::Equal => Some(RelationalOperator::Equal),
        Symbol::NotEqual => Some(RelationalOperator::NotEqual),
        Symbol::Less => Some(RelationalOperator::Less),
        Symbol::LessOrEqual => Some(RelationalOperator::LessOrEqual),
        Symbol::Greater => Some(RelationalOperator::Greater),
        Symbol::GreaterOrEqual => Some(RelationalOperator::GreaterOrEqual),
        _ => None,
    }
}

fn is_to(tokens: &[Token]) -> bool
    ensures { result ≡ spec.is_to tokens.now }
{
    matches!(tokens, [Token::Keyword(Keyword::To), ..])
}
