// The first place at which code fails its check.
ghost use Rattle.std.specs.Prelude.{ℕ, List};
ghost use Rattle.vb_code.specs.Code.{Code as SeenCode};
ghost use Rattle.vb_code.specs.Shapes.{IsChecked};
ghost use Rattle.vb_code.specs.Failing.{Visit, AreAllVisits, HasFailed, IsFirstFailing};

/// Checked code has no first failing place, and code is checked where all places that its check visits have passed.
pub fn failing_places()
    ensures never { (c : SeenCode) → IsChecked c → (place : ℕ) → IsFirstFailing c place → ⊥ }
    ensures fine { (c : SeenCode) (vs : List Visit) → AreAllVisits c vs → ((place : ℕ) → HasFailed vs place → ⊥) → IsChecked c }
{}
