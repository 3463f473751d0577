//! The lump sums of a date, added to second moments.

ghost use Rattle.std.specs.Prelude.{◌≡◌, ℕ, ◌^◌, ◌<◌, ◌≤◌, All, pos, unsigned_abs, length, slice_index_or};
ghost use Rattle.cell_coeffs.specs.SecondLumps.{amount_in, IsLumped, lumped_units};

use crate::lump_sums::lump_of;

// What a lump adds to a second moment whose first moment is given, before the lump: 2 l w + l^2 in units of 2^-64, the
// lump divided by 2^g, rounded down once.
fn lumped(lump: i64, g: u32, first: i128) -> i128
    requires scale { g ≤ 56 }
    requires amount { unsigned_abs lump ≤ 2 ^ g }
    requires first { unsigned_abs first ≤ 2 ^ 65 }
    ensures value { result ≡ lumped_units g lump first }
    ensures size { unsigned_abs result ≤ 2 ^ 67 }
{
    let amount = i128::from(lump);
    let unit = 2i128.pow(64 - g);
    (amount * (2 * first + amount * unit)) >> g
}

/// Adds to the second moment of each state with a lump what the lump makes of it, by the first moments before the
/// date's lumps, all in units of 2^-64, the lumps and the first moments at the scale 2^g and the second moments at 4^g.
/// It is rounded down once, and takes no memory.
pub fn apply_second(lumps: &[(usize, i64)], g: u32, first: &[i128], second: &mut [i128])
    requires scale { g ≤ 56 }
    requires lengths { length first.now ≡ length second.old }
    requires amounts { All (λ lump. unsigned_abs lump.1 ≤ 2 ^ g) lumps.now }
    requires firsts { (i : ℕ) → unsigned_abs (slice_index_or first.now i (pos 0)) ≤ 2 ^ 65 }
    requires seconds { (i : ℕ) → unsigned_abs (slice_index_or second.old i (pos 0)) ≤ 2 ^ 65 }
    ensures near { (i : ℕ) → i < length second.old → IsLumped g (amount_in lumps.now i)
        (slice_index_or first.now i (pos 0)) (slice_index_or second.old i (pos 0))
        (slice_index_or second.new i (pos 0)) }
    ensures none { (i : ℕ) → amount_in lumps.now i ≡ pos 0
        → slice_index_or second.new i (pos 0) ≡ slice_index_or second.old i (pos 0) }
{
    for state in 0..second.len() {
        second[state] += lumped(lump_of(lumps, state), g, first[state]);
    }
}
