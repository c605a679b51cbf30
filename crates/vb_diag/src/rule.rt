// A rule of the language, by its number.
ghost use Rattle.std.specs.Prelude.{◌≡◌, Some};
ghost use Rattle.vb_diag.specs.Rules.{IsRule, text_of_rule};

use crate::table::text_of;
use std::marker::Model;

/// A rule of the language, seen as its number.
///
/// The number is one of the table: 1 to 10, 30 to 36, 80, 94, 95, 100, 110 to 121, 140 to 150, 152
/// to 158, 160 to 167, 169 to 174, or 999, the rule against a form that isn't built yet.
#[derive(Clone, Copy, Debug, PartialEq, Eq, PartialOrd, Ord)]
pub struct Rule {
    number: u16,
}

impl Model for Rule {
    ghost use Rattle.std.specs.Prelude.{ℕ};
    ghost use Rattle.vb_diag.specs.Rules.{IsRule};

    ghost Value = { ℕ };

    ghost view = { λ r. r.number };

    ghost invariant = { λ r. IsRule r.number };

    ghost inverse = { λ n. record { number = n } };
}

impl Rule {
    /// The rule of this number, which is one of the table.
    pub fn new(number: u16) -> Self
        requires { IsRule number }
        ensures { result ≡ number }
    {
        Rule { number }
    }

    /// The number of the rule, from 1 to 999.
    pub fn number(self) -> u16
        ensures number { result ≡ self }
        ensures rule { IsRule self }
    {
        self.number
    }
}

/// The text of a rule, as it is printed. It takes no memory.
pub fn rule_text(rule: Rule) -> &'static str
    ensures { text_of_rule rule ≡ Some result.now }
{
    text_of(rule.number()).unwrap_or("")
}
