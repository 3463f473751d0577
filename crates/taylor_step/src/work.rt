//! The memory of a step.

ghost use Rattle.std.specs.Prelude.{◌≡◌, ◌≤◌, IfOk, length};

use std::alloc::{AllocError, Global};
use std::marker::Model;

/// Room for the steps of systems of one dimension, which contracts see. A step takes no other memory.
#[derive(Drop)]
pub struct Work {
    pub(crate) start: Vec<i128>,
    pub(crate) newest: Vec<i64>,
    pub(crate) strips: Vec<Vec<i64>>,
}

impl Model for Work {
    ghost use Rattle.std.specs.Prelude.{◌≡◌, ℕ, ◌+◌, ◌*◌, ◌<◌, map, length, slice_index_or, []};

    ghost Value = { ℕ };

    ghost view = { λ w. length w.strips.items };

    ghost invariant = { λ w. (length w.start.items ≡ length w.strips.items + 1) ×
        ((length w.newest.items ≡ length w.strips.items + 1) ×
        ((row : ℕ) → row < length w.strips.items → length
        (slice_index_or (map (λ v. v.items) w.strips.items) row []) ≡ 36 * (length w.strips.items + 1))) };
}

fn room_for(alloc: Global, count: usize) -> Result<Vec<i64>, AllocError>
    ensures { IfOk result (λ v. length v.items ≡ count) }
{
    let v = vec![in alloc; 0; count]?;
    Ok(v)
}

fn room_for_start(alloc: Global, count: usize) -> Result<Vec<i128>, AllocError>
    ensures { IfOk result (λ v. length v.items ≡ count) }
{
    let v = vec![in alloc; 0; count]?;
    Ok(v)
}

impl Work {
    /// Room for systems of a dimension of at most 24.
    pub fn new(alloc: Global, dim: usize) -> Result<Work, AllocError>
        requires { dim ≤ 24 }
        ensures { IfOk result (λ w. w ≡ dim) }
    {
        let start = room_for_start(alloc, dim + 1)?;
        let newest = room_for(alloc, dim + 1)?;
        let mut strips = Vec::new(alloc);
        for _row in 0..dim {
            let strip = room_for(alloc, 36 * (dim + 1))?;
            strips.push(strip)?;
        }
        Ok(Work {
            start,
            newest,
            strips,
        })
    }
}
