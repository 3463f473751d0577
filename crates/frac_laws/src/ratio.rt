//! Fractions of two machine numbers, and their exact order.

ghost use Rattle.frac_laws.specs.Fraction.{◌<ℚ◌};
ghost use Rattle.frac_laws.specs.RatioValue.{fraction_of};
ghost use Rattle.std.specs.Prelude.{◌≡◌, ◌↔◌, ◌*ℤ◌, ◌<ℤ◌, pos, ◌^◌, ◌<◌, unsigned_abs};

use std::cmp::Ordering;

/// The fraction `num / den`, for a positive `den`. It need not be in lowest terms.
#[derive(Clone, Copy)]
pub struct Ratio {
    pub num: i128,
    pub den: i128,
}

impl Ratio {
    /// The order of the two fractions, exact. Both `den` are positive, and both cross products fit an `i128`.
    pub fn cmp_exact(&self, other: &Ratio) -> Ordering
        requires den { pos 0 <ℤ self.now.den }
        requires other_den { pos 0 <ℤ other.now.den }
        requires cross { unsigned_abs (self.now.num *ℤ other.now.den) < 2 ^ 127 }
        requires other_cross { unsigned_abs (other.now.num *ℤ self.now.den) < 2 ^ 127 }
        ensures less { (result ≡ Ordering.Less) ↔ (fraction_of self.now <ℚ fraction_of other.now) }
        ensures equal { (result ≡ Ordering.Equal) ↔ (fraction_of self.now ≡ fraction_of other.now) }
        ensures greater { (result ≡ Ordering.Greater) ↔ (fraction_of other.now <ℚ fraction_of self.now) }
    {
        let left = self.num * other.den;
        let right = other.num * self.den;
        left.cmp(&right)
    }
}

#[cfg(test)]
mod tests {
    use super::*;

    #[test]
    fn orders_fractions(rt: HostRuntime) {
        let third = Ratio { num: 1, den: 3 };
        let half = Ratio { num: 1, den: 2 };
        let two_quarters = Ratio { num: 2, den: 4 };
        let below_zero = Ratio { num: -7, den: 2 };
        let long = Ratio {
            num: 1234567890123456789,
            den: 9876543210987654321,
        };
        let longer = Ratio {
            num: 1234567890123456788,
            den: 9876543210987654320,
        };

        assert_eq!(rt; third.cmp_exact(&half), Ordering::Less);
        assert_eq!(rt; half.cmp_exact(&third), Ordering::Greater);
        assert_eq!(rt; half.cmp_exact(&two_quarters), Ordering::Equal);
        assert_eq!(rt; below_zero.cmp_exact(&third), Ordering::Less);
        assert_eq!(rt; long.cmp_exact(&longer), Ordering::Greater);
    }
}
