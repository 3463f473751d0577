// The scale of a bound on the amounts of a product.

ghost use Rattle.std.specs.Prelude.{◌≡◌, ◌↔◌, ◌^◌, ◌<◌, ◌≤◌, IsNone, IfSome};
ghost use Rattle.frac_laws.specs.Ledger.{IsScale, scale_of_bound};

// A scale is one of 0 to 56.
const SCALES: u32 = 57;

/// The least `g` with `1024 * 2^g` at or above a bound in 1/1024 minor units: amounts are counted in parts of
/// 2^g minor units. There is none for a bound above 2^66.
pub fn scale_of(bound1024: u128) -> Option<u32>
    ensures none { IsNone result ↔ (2 ^ 66 < bound1024) }
    ensures least { IfSome result (IsScale bound1024) }
    ensures value { IfSome result (λ g. g ≡ scale_of_bound bound1024) }
    ensures most { IfSome result (λ g. g ≤ 56) }
{
    for g in 0..SCALES {
        if bound1024 <= 1024 * 2u128.pow(g) {
            return Some(g);
        }
    }
    None
}

#[cfg(test)]
mod tests {
    use super::*;

    #[test]
    fn scales(rt: HostRuntime) {
        let cases = [
            (0, Some(0)),
            (1024, Some(0)),
            (1025, Some(1)),
            (2048, Some(1)),
            (1 << 66, Some(56)),
            ((1 << 66) + 1, None),
            (u128::MAX, None),
        ];
        for (bound1024, wanted) in cases {
            assert_eq!(rt; scale_of(bound1024), wanted, "at {bound1024}");
        }
    }
}
