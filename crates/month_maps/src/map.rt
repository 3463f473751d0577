//! The map of a month.

use crate::applying::apply_rows;
use crate::squaring::{write_free, write_rows};
use crate::starting::write_cell;
use fixed_interval::Interval;
use linear_system::CellSystem;
use std::alloc::{AllocError, Global};
use std::marker::Model;
use std::mem::swap;
use std::sync::ledger::Ledger;
use taylor_step::{Steps, Work};

// A month has 2^5 cells.
const DOUBLINGS: usize = 5;

/// An affine map with an interval for each number, in units of 2^-64. Contracts see its dimension, its degree, its
/// matrix row by row and its free numbers. A second set of places keeps what a doubling writes, so that none takes
/// memory.
#[derive(Drop)]
pub struct MonthMap {
    pub(crate) dim: usize,
    pub(crate) degree: u8,
    pub(crate) numbers: Vec<Interval>,
    pub(crate) free: Vec<Interval>,
    pub(crate) next_numbers: Vec<Interval>,
    pub(crate) next_free: Vec<Interval>,
}

impl Model for MonthMap {
    ghost use Rattle.std.specs.Prelude.{◌≡◌, ℕ, ◌*◌, ◌≤◌, length};
    ghost use Rattle.month_maps.specs.StoredMap.{StoredMap};

    ghost Value = { StoredMap };

    ghost view = { λ m. record { dim = m.dim; degree = m.degree; numbers = m.numbers.items; free = m.free.items } };

    ghost invariant = { λ m. (m.dim ≤ 12) × (length m.numbers.items ≡ m.dim * m.dim) × (length m.free.items ≡ m.dim)
        × (length m.next_numbers.items ≡ m.dim * m.dim) × (length m.next_free.items ≡ m.dim) };
}

impl MonthMap {
    ghost use Rattle.std.specs.Prelude.{◌≡◌, ℕ, ◌+◌, ◌^◌, ◌<◌, ◌≤◌, pos, length, unsigned_abs, slice_index_or};
    ghost use Rattle.std.specs.Prelude.{IfOk, OnErr};
    ghost use Rattle.frac_laws.specs.Lists.{Vector};
    ghost use Rattle.cell_laws.specs.Systems.{System};
    ghost use Rattle.linear_system.specs.StoredSystem.{StoredSystem, dim_of};
    ghost use Rattle.map_laws.specs.Applied.{IsApplied};
    ghost use Rattle.map_laws.specs.Maps.{AffineMap, HoldsMap, IsSquareOf, twice};
    ghost use Rattle.map_laws.specs.MonthOfCells.{IsConstantCell, IsStartOf, StaysNearFor32Cells};
    ghost use Rattle.month_maps.specs.MadeMaps.{CanMake, IsMadeFor};
    ghost use Rattle.month_maps.specs.StoredMap.{map_of, HaveEndsUpTo, IsAlike, IsFull};

    /// The map of a month of 32 cells that are all alike, for a system of at most 12 numbers that stands for a tame one
    /// that is constant in x: the map of one cell, from a step for each number and one from 0, is doubled five times.
    /// Takes no step where memory is refused.
    pub fn make<L: Ledger>(
        alloc: Global,
        sys: &CellSystem,
        work: &mut Work,
        steps: &mut Steps<L>,
    ) -> Result<MonthMap, AllocError>
        requires can { CanMake sys.now }
        requires work { work.old ≡ dim_of sys.now }
        requires count { steps.old + dim_of sys.now + 1 < 2 ^ 63 }
        ensures made { IfOk result (IsMadeFor sys.now) }
        ensures count { IfOk result (λ m. steps.new ≡ steps.old + dim_of sys.now + 1) }
        ensures no_memory { OnErr result (steps.new ≡ steps.old) }
        ensures work { work.new ≡ work.old }
    {
        let _degree = sys.degree();
        let dim = sys.dim();
        let nothing = Interval { lo: 0, hi: 0 };
        let mut numbers = vec![in alloc; nothing; dim * dim]?;
        let mut free = vec![in alloc; nothing; dim]?;
        let next_numbers = vec![in alloc; nothing; dim * dim]?;
        let next_free = vec![in alloc; nothing; dim]?;
        let degree = write_cell(sys, work, steps, &mut numbers, &mut free);
        let mut map = MonthMap {
            dim,
            degree,
            numbers,
            free,
            next_numbers,
            next_free,
        };
        for _doubling in 0..DOUBLINGS {
            map.square();
        }
        Ok(map)
    }

    /// The greatest degree that the map's steps answered.
    pub fn degree(&self) -> u8
        ensures { result ≡ self.now.degree }
    {
        self.degree
    }

    /// Replaces the map by itself applied twice. Each map that its intervals hold is held so afterwards. Takes no
    /// memory.
    pub fn square(&mut self)
        requires numbers { HaveEndsUpTo (2 ^ 65) self.old.numbers }
        requires free { HaveEndsUpTo (2 ^ 65) self.old.free }
        ensures alike { IsAlike self.old self.new }
        ensures full { IsFull self.new }
        ensures square { IsSquareOf self.old.dim (map_of self.old) (map_of self.new) }
        ensures encloses { (a : AffineMap) → HoldsMap self.old.dim (map_of self.old) a
            → HoldsMap self.old.dim (map_of self.new) (twice self.old.dim a) }
    {
        write_rows(&self.numbers, self.dim, &mut self.next_numbers);
        write_free(&self.numbers, self.dim, &self.free, &mut self.next_free);
        swap(&mut self.numbers, &mut self.next_numbers);
        swap(&mut self.free, &mut self.next_free);
    }

    /// Goes over a month: `mid`, in units of 2^-64, becomes the middle of the map's value at it, rounded down. Takes no
    /// memory.
    pub fn apply(&self, mid: &mut [i128])
        requires dim { length mid.old ≡ self.now.dim }
        requires mid { (i : ℕ) → unsigned_abs (slice_index_or mid.old i (pos 0)) ≤ 2 ^ 65 }
        requires numbers { HaveEndsUpTo (2 ^ 65) self.now.numbers }
        requires free { HaveEndsUpTo (2 ^ 65) self.now.free }
        ensures applied { IsApplied self.now.dim (map_of self.now) (λ col. slice_index_or mid.old col (pos 0))
            (λ row. slice_index_or mid.new row (pos 0)) }

        // A map that was made of a cell is as 32 of its steps in the ledger, for every degree from its own on.
        ensures near { (s : StoredSystem) (kappa40 radius n : ℕ) (e : System) (y : Vector) → IsMadeFor s self.now
            → IsConstantCell s kappa40 e → self.now.degree ≤ n
            → IsStartOf self.now.dim radius y (λ col. slice_index_or mid.old col (pos 0))
            → StaysNearFor32Cells e kappa40 radius n y (λ row. slice_index_or mid.new row (pos 0)) }
    {
        let mut numbers = [0; 12];
        let old = &mut numbers[..self.dim];
        old.copy_from_slice(mid);
        apply_rows(&self.numbers, self.dim, &self.free, old, mid);
    }
}
