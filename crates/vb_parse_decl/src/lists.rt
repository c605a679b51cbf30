// Parts with commas between them.
ghost use Rattle.std.specs.Prelude.{◌≡◌, List};
ghost use Rattle.vb_syntax.specs.declared.tokens.Token.{Token as OneToken};
ghost use Rattle.vb_parse_expr.specs.TypeReading.{Gives, Read};
ghost use Rattle.vb_parse_decl.specs.DeclarationReading as spec;

use std::alloc::Global;
use vb_parse_expr::{Fault, after_comma};
use vb_syntax::{Items, Token};

/// A part of declarations of which several may stand one behind the other, with commas between them.
pub trait Listed: Drop {
    ghost reading: { List OneToken → Read Self };

    /// The part at the front of tokens, and the tokens behind it.
    fn read(alloc: Global, tokens: &[Token]) -> Result<(Self, &[Token]), Fault>
        ensures { Gives (λ x. (x.0, x.1.now)) result (reading tokens.now) };
}

/// One part or several with commas between them.
#[tactic(auto, unfolding(crate::specs::DeclarationReading::read_list))]
pub fn read_list<T: Listed>(alloc: Global, tokens: &[Token]) -> Result<(Items<T>, &[Token]), Fault>
    ensures { Gives (λ x. (x.0, x.1.now)) result (spec.read_list T.reading tokens.now) }
{
    let mut found = Items::new(alloc);
    let mut rest = tokens;
    for _turn in 0..tokens.len() {
        let (one, after) = T::read(alloc, rest)?;
        found.push(one)?;
        let Some(next) = after_comma(after) else {
            return Ok((found, after));
        };
        rest = next;
    }
    Err(Fault::Grammar)
}
