//! Differences of printed reserves.

ghost use Rattle.std.specs.Prelude.{◌≡◌, ◌*◌, IfOk, All, length};
ghost use Rattle.whole_laws.specs.Whole.{list_of};
ghost use Rattle.basis_compare.specs.Changes.{turn_of};
ghost use Rattle.basis_compare.specs.Differences.{IsSmall, change_at, change_between};

use crate::change_rows::{Change, Part, Turn};
use std::alloc::{AllocError, Global};

/// A reserve of a date and state: its printed ends and how far these may lie apart, in millionths of a minor unit.
#[derive(Clone, Copy)]
pub(crate) struct PrintedReserve {
    pub month: u32,
    pub state: u32,
    pub lo: i128,
    pub hi: i128,
    pub tol: u128,
}

// Where all numbers between two ends stand.
fn turn_of(lo: i128, hi: i128) -> Turn
    ensures { result ≡ turn_of lo hi }
{
    if lo > 0 {
        Turn::Above
    } else if hi < 0 {
        Turn::Below
    } else {
        Turn::Open
    }
}

// The change from one reserve to another of the same date and state.
fn change_between(part: Part, from: PrintedReserve, to: PrintedReserve) -> Change
    requires from { IsSmall from }
    requires to { IsSmall to }
    ensures { result ≡ change_between part from to }
{
    let lo = to.lo - from.hi;
    let hi = to.hi - from.lo;
    Change {
        month: from.month,
        state: from.state,
        part,
        lo,
        hi,
        tol: from.tol + to.tol,
        turn: turn_of(lo, hi),
    }
}

/// The rows of the reserves of basis A, of the hybrid and of basis B: the three parts of the change of each.
pub(crate) fn rows_of(
    alloc: Global,
    a: &[PrintedReserve],
    h: &[PrintedReserve],
    b: &[PrintedReserve],
) -> Result<Vec<Change>, AllocError>
    requires hybrid { length h.now ≡ length a.now }
    requires new { length b.now ≡ length a.now }
    requires small_a { All IsSmall a.now }
    requires small_h { All IsSmall h.now }
    requires small_b { All IsSmall b.now }
    ensures { IfOk result (λ rows. rows.items ≡ list_of (3 * length a.now) (change_at a.now h.now b.now)) }
{
    let mut rows = Vec::new(alloc);
    for place in 0..a.len() {
        rows.push(change_between(Part::Interest, a[place], h[place]))?;
        rows.push(change_between(Part::Rest, h[place], b[place]))?;
        rows.push(change_between(Part::Total, a[place], b[place]))?;
    }
    Ok(rows)
}
