// The rules that a row breaks by what stands in it alone.
ghost use Rattle.std.specs.Prelude.{◌≡◌};
ghost use Rattle.vb_diag.specs.Broken.{IsLeastLine};
ghost use Rattle.vb_parse.specs.Where.{HasRow};
ghost use Rattle.vb_parse.specs.RowRules as spec;

use crate::modifiers::item_at_odds;
use crate::options::is_unsupported;
use vb_diag::lesser;
use vb_syntax::{Item, Row};

/// A rule that a row breaks by what stands in it alone.
#[derive(Clone, Copy)]
pub enum RowRule {
    /// The setting of an option isn't supported.
    UnsupportedOption,
    /// Modifiers are repeated or exclude each other.
    ModifiersAtOdds,
}

fn breaks(rule: RowRule, item: &Option<Item>) -> bool
    ensures { result ≡ spec.breaks rule item.now }
{
    match rule {
        RowRule::UnsupportedOption => is_unsupported(item),
        RowRule::ModifiersAtOdds => item_at_odds(item),
    }
}

/// The least line with a row that breaks the rule.
pub fn first_breaking(rule: RowRule, rows: &[Row]) -> Option<u32>
    ensures { IsLeastLine (HasRow (spec.Breaks rule) rows.now) result }
{
    let mut first = None;
    for row in rows {
        if breaks(rule, &row.item) {
            first = lesser(first, Some(row.line));
        }
    }
    first
}
