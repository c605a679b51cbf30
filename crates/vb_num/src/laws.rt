// What callers' proofs may hold of the operators.
ghost use Rattle.std.specs.Prelude.{◌≡◌, ◌<◌, ◌+ℤ◌, ◌*ℤ◌, ℕ, ℤ, List, IsTrue, int_div, int_rem, unsigned_abs};
ghost use Rattle.vb_num.specs.declared.kinds.Kind.{Kind};
ghost use Rattle.vb_num.specs.Kind.{is_in};
ghost use Rattle.vb_num.specs.Operators.{bits, of_bits};
ghost use Rattle.vb_num.specs.Whole.{IsWhole};

/// A law for callers' proofs: the quotient times the divisor and the remainder make the dividend, and the remainder is nearer to 0
/// than the divisor. It does nothing.
pub fn division_fits()
    ensures whole { (a b : ℤ) → int_div a b *ℤ b +ℤ int_rem a b ≡ a }
    ensures near { (a b : ℤ) → 0 < unsigned_abs b → unsigned_abs (int_rem a b) < unsigned_abs b }
{}

/// A law for callers' proofs: the bits of a number tell it. It does nothing.
pub fn bits_tell()
    ensures { (kind : Kind) (value : ℤ) → IsTrue (is_in kind value) → of_bits kind (bits kind value) ≡ value }
{}

/// A law for callers' proofs: a text spells one number, or none. It does nothing.
pub fn one_number()
    ensures { (units : List ℕ) (value other : ℤ) → IsWhole units value → IsWhole units other → value ≡ other }
{}
