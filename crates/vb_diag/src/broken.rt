// The least of the rules that are broken.
ghost use Rattle.std.specs.Prelude.{◌≡◌, Option as Optional};
ghost use Rattle.vb_diag.specs.declared.refusal.Refusal.{Refusal as OneRefusal};
ghost use Rattle.vb_diag.specs.Broken as spec;
ghost use Rattle.vb_diag.specs.Broken.{IsLeast, IsOneOf, told_order, lesser_by};

use crate::refusal::Refusal;
use crate::rule::Rule;

/// The lesser of two, or the only one: of two broken rules the one that is told, of two lines the least.
pub fn lesser<T: Ord + Copy>(first: Option<T>, second: Option<T>) -> Option<T>
    ensures { result ≡ lesser_by T.cmp first second }
{
    match (first, second) {
        (Some(first), Some(second)) => Some(first.min(second)),
        (first, None) => first,
        (None, second) => second,
    }
}

/// Broken rules stand in their order: by file, as the files were given, then by line, then by number. So the lesser of two is the
/// least of the two, and several may be joined in any order.
pub fn lesser_joins()
    ensures order { (a b : OneRefusal) → ⟦<Refusal as Ord>⟧.cmp a b ≡ told_order a b }
    ensures least { (a b : Optional OneRefusal) → IsLeast (IsOneOf a b) (spec.lesser a b) }
    ensures commutes { (a b : Optional OneRefusal) → spec.lesser a b ≡ spec.lesser b a }
    ensures associates { (a b c : Optional OneRefusal) → spec.lesser (spec.lesser a b) c ≡ spec.lesser a (spec.lesser b c) }
{}

/// The rule of a file, where it is broken in a line.
pub fn broken_at(file: u32, rule: Rule, line: Option<u32>) -> Option<Refusal>
    ensures { result ≡ spec.broken_at file rule line }
{
    match line {
        Some(line) => Some(Refusal { file, line, rule }),
        None => None,
    }
}
