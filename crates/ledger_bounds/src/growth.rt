// How a ledger grows over one cell.

ghost use Rattle.std.specs.Prelude.{◌≡◌, ◌^◌, ◌≤◌};
ghost use Rattle.frac_laws.specs.Ledger as formula;

// kappa40 counts units of 2^-40.
const KAPPA_ONE: u128 = 1 << 40;

/// The ledger after one cell, in the units of `w`: `w + ceil(w * kappa40 / 2^40) + add`.
pub fn grow(w: u128, kappa40: u64, add: u128) -> u128
    requires ledger { w ≤ 2 ^ 80 }
    requires rate { kappa40 ≤ 2 ^ 30 }
    requires addend { add ≤ 2 ^ 80 }
    ensures { result ≡ formula.grow w kappa40 add }
{
    w + (w * u128::from(kappa40)).div_ceil(KAPPA_ONE) + add
}

#[cfg(test)]
mod tests {
    use super::*;

    #[test]
    fn grown(rt: HostRuntime) {
        let cases = [
            (grow(393_216, 94_372, 1024), 394_241),
            (grow(0, 1 << 30, 0), 0),
            (grow(1, 1, 0), 2),
            (
                grow(1 << 80, 1 << 30, 1 << 80),
                2_419_032_230_849_975_760_715_776,
            ),
        ];
        for (found, wanted) in cases {
            assert_eq!(rt; found, wanted);
        }
    }
}
