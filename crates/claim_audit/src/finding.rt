// The mark of a claim, by an interval of the exact number.
ghost use Rattle.std.specs.Prelude.{◌≡◌, ◌↔◌, pos, ◌≤ℤ◌, IsTrue};
ghost use Rattle.claim_audit.specs.Marks.{AreSmall, ImpliesNearness, IsFar, IsNear};

/// Whether a claimed number is within a distance of an exact one, as far as an interval of the exact one tells.
#[derive(Clone, Copy, Debug, PartialEq, Eq)]
pub enum Finding {
    /// It is, whichever number of the interval is the exact one.
    Yes,
    /// It is not, whichever number of the interval is the exact one.
    No,
    /// The interval leaves it open.
    Undecided,
}

// Whether each number of the interval is near the claim.
fn is_near(claim: i128, eps: i128, lo: i128, hi: i128) -> bool
    requires { AreSmall claim eps lo hi }
    ensures { IsTrue result ↔ IsNear claim eps lo hi }
{
    claim - eps <= lo && hi <= claim + eps
}

// Whether each number of the interval is far from the claim.
fn is_far(claim: i128, eps: i128, lo: i128, hi: i128) -> bool
    requires { AreSmall claim eps lo hi }
    ensures { IsTrue result ↔ IsFar claim eps lo hi }
{
    hi < claim - eps || lo > claim + eps
}

/// Marks a claim by the interval from `lo` to `hi`, all in one unit. Exact.
pub fn mark(claim: i128, eps: i128, lo: i128, hi: i128) -> Finding
    requires ordered { lo ≤ℤ hi }
    requires distance { pos 0 ≤ℤ eps }
    requires small { AreSmall claim eps lo hi }
    ensures yes { (result ≡ Finding.Yes) ↔ IsNear claim eps lo hi }
    ensures no { (result ≡ Finding.No) ↔ IsFar claim eps lo hi }
    ensures nearness { ImpliesNearness result claim eps lo hi }
{
    if is_near(claim, eps, lo, hi) {
        Finding::Yes
    } else if is_far(claim, eps, lo, hi) {
        Finding::No
    } else {
        Finding::Undecided
    }
}
