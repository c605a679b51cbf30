// What callers' proofs may hold of broken rules.
ghost use Rattle.std.specs.Prelude.{◌≡◌, ℕ, List};
ghost use Rattle.vb_top.specs.Programs.{LeastBroken};

use vb_rows::one_list_of_rows;
use vb_syntax::words_apart;
use vb_tree::one_tree;

/// A law for callers' proofs: the least rule that bytes break is one, in one line. It does nothing.
pub fn one_refusal()
    ensures { (bytes : List ℕ) (line rule other_line other_rule : ℕ) → LeastBroken bytes line rule → LeastBroken bytes other_line other_rule → (line ≡ other_line) × (rule ≡ other_rule) }
{
    words_apart();
    one_list_of_rows();
    one_tree();
}
