//! The lump sums of a date, added to first moments.

ghost use Rattle.std.specs.Prelude.{◌≡◌, ℕ, ◌^◌, ◌<◌, ◌≤◌, All, pos, ◌+ℤ◌, unsigned_abs, length, slice_index_or};
ghost use Rattle.std.specs.Prelude.{◌==◌, find, option_map, unwrap_or};
ghost use Rattle.cell_coeffs.specs.Lumps.{units_to};

/// Adds each lump to the value of its state, in units of 2^-64 at the scale 2^g. It is exact, and takes no memory.
pub fn apply_first(lumps: &[(usize, i64)], g: u32, mid: &mut [i128])
    requires scale { g ≤ 56 }
    requires few { length lumps.now ≤ 12 }
    requires states { All (λ lump. lump.0 < length mid.old) lumps.now }
    requires amounts { All (λ lump. unsigned_abs lump.1 ≤ 2 ^ g) lumps.now }
    requires sizes { (i : ℕ) → unsigned_abs (slice_index_or mid.old i (pos 0)) ≤ 2 ^ 65 }
    ensures { (i : ℕ) → slice_index_or mid.new i (pos 0)
        ≡ slice_index_or mid.old i (pos 0) +ℤ units_to g lumps.now i (length lumps.now) }
{
    let unit = 2i128.pow(64 - g);
    for lump in lumps {
        mid[lump.0] += i128::from(lump.1) * unit;
    }
}

/// The lump of a state, and 0 where it has none. Takes no memory.
pub fn lump_of(lumps: &[(usize, i64)], state: usize) -> i64
    ensures { result ≡ unwrap_or (option_map (λ lump. lump.1) (find (λ lump. lump.0 == state) lumps.now)) (pos 0) }
{
    lumps
        .iter()
        .find(|lump| lump.0 == state)
        .map_or(0, |lump| lump.1)
}
