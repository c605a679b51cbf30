// Modifiers that are repeated or exclude each other.
ghost use Rattle.std.specs.Prelude.{◌≡◌};
ghost use Rattle.vb_parse.specs.Modifiers as spec;

use vb_syntax::{Access, DeclarationLine, Item, Modifier, PropertyKind};

// Whether the two are one modifier, or both say an access.
fn repeats(first: Modifier, second: Modifier) -> bool
    ensures { result ≡ spec.repeats first second }
{
    match (first, second) {
        (Modifier::Access(_), Modifier::Access(_)) => true,
        _ => first == second,
    }
}

// Whether the two exclude each other, in this order of the table.
fn excludes(first: Modifier, second: Modifier) -> bool
    ensures { result ≡ spec.excludes first second }
{
    matches!(
        (first, second),
        (
            Modifier::Overridable,
            Modifier::MustOverride | Modifier::NotOverridable | Modifier::Overrides
        ) | (Modifier::MustOverride, Modifier::NotOverridable)
            | (
                Modifier::Shared,
                Modifier::Overridable
                    | Modifier::MustOverride
                    | Modifier::NotOverridable
                    | Modifier::Overrides
            )
            | (Modifier::Overloads | Modifier::Overrides, Modifier::Shadows)
            | (
                Modifier::Access(Access::Private),
                Modifier::Overridable | Modifier::MustOverride
            )
    )
}

fn clashes(first: Modifier, second: Modifier) -> bool
    ensures { result ≡ spec.clashes first second }
{
    repeats(first, second) || excludes(first, second) || excludes(second, first)
}

fn clashes_with_one(first: Modifier, others: &[Modifier]) -> bool
    ensures { result ≡ spec.clashes_with_one first others.now }
{
    for other in others {
        if clashes(first, *other) {
            return true;
        }
    }
    false
}

// Whether some two of them clash.
fn are_at_odds(modifiers: &[Modifier]) -> bool
    ensures { result ≡ spec.are_at_odds modifiers.now }
{
    let mut rest = modifiers;
    while let [first, behind @ ..] = rest {
        if clashes_with_one(*first, behind) {
            return true;
        }
        rest = behind;
    }
    false
}

fn has_read_only(modifiers: &[Modifier]) -> bool
    ensures { result ≡ spec.has_read_only modifiers.now }
{
    for modifier in modifiers {
        if is_read_only(*modifier) {
            return true;
        }
    }
    false
}

fn is_read_only(modifier: Modifier) -> bool
    ensures { result ≡ spec.is_read_only modifier }
{
    matches!(modifier, Modifier::ReadOnly)
}

fn property_at_odds(modifiers: &[Modifier], kind: PropertyKind) -> bool
    ensures { result ≡ spec.property_at_odds modifiers.now kind }
{
    match kind {
        PropertyKind::ReadWrite => are_at_odds(modifiers),
        PropertyKind::ReadOnly | PropertyKind::WriteOnly => {
            has_read_only(modifiers) || are_at_odds(modifiers)
        }
    }
}

fn line_at_odds(line: &DeclarationLine) -> bool
    ensures { result ≡ spec.line_at_odds line.now }
{
    match line {
        DeclarationLine::Variables(modifiers, _)
        | DeclarationLine::Constants(modifiers, _)
        | DeclarationLine::Sub(modifiers, _, _)
        | DeclarationLine::Constructor(modifiers, _, _)
        | DeclarationLine::Function { modifiers, .. }
        | DeclarationLine::Event { modifiers, .. }
        | DeclarationLine::CustomEvent(modifiers, _, _) => are_at_odds(modifiers.as_slice()),
        DeclarationLine::Property(modifiers, header) => {
            property_at_odds(modifiers.as_slice(), header.kind)
        }
        _ => false,
    }
}

/// Whether the item has modifiers that are repeated or exclude each other.
pub fn item_at_odds(item: &Option<Item>) -> bool
    ensures { result ≡ spec.item_at_odds item.now }
{
    match item {
        Some(Item::Declares(line)) => line_at_odds(line.get()),
        _ => false,
    }
}
