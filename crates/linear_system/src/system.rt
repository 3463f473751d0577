//! Stored systems: how one is made, cleared, written and read.

ghost use Rattle.std.specs.Prelude.{◌≡◌, ℕ, ◌^◌, ◌<◌, ◌≤◌, unsigned_abs, IfOk};
ghost use Rattle.linear_system.specs.StoredSystem.{IsSystem, dim_of, row_of};
ghost use Rattle.linear_system.specs.Setting.{HasPlace, IsMadeFor, HaveSamePlaces, HasNoNumbers, SetsOnly};
ghost use Rattle.linear_system.specs.Layout.{row_at};
ghost use Rattle.linear_system.specs.Changes.{cleared_row, with_number, HasColumn};

use crate::row::{Row, place_in};
use std::alloc::{AllocError, Global};
use std::marker::Model;

/// A system of linear equations. Contracts see its degree and its rows, and read its numbers by row, column and
/// power, as `stored_number` and `stored_free` do. Each is at most 2^59 in size.
#[derive(Drop)]
pub struct CellSystem {
    degree: usize,
    rows: Vec<Row>,
}

impl Model for CellSystem {
    ghost use Rattle.linear_system.specs.StoredSystem.{StoredSystem};
    ghost use Rattle.linear_system.specs.Layout.{stored_system, KeepsSystem};

    ghost Value = { StoredSystem };

    ghost view = { stored_system };

    ghost invariant = { KeepsSystem };
}

impl CellSystem {
    /// A system of at most 24 unknowns, with powers of x up to a degree of at most 11 and all numbers 0. It may hold
    /// numbers on the diagonal and at the links, which are pairs of a row and a column.
    pub fn new(
        alloc: Global,
        dim: usize,
        degree: usize,
        links: &[(usize, usize)],
    ) -> Result<CellSystem, AllocError>
        requires dim { dim ≤ 24 }
        requires degree { degree ≤ 11 }
        ensures made { IfOk result (IsMadeFor dim degree links.now) }
        ensures zero { IfOk result HasNoNumbers }
    {
        let mut rows = Vec::new(alloc);
        for row in 0..dim {
            let made = Row::new(alloc, dim, degree, row, links)?;
            rows.push(made)?;
        }
        Ok(CellSystem { degree, rows })
    }

    /// How many unknowns there are.
    pub fn dim(&self) -> usize
        ensures { result ≡ dim_of self.now }
    {
        self.rows.len()
    }

    /// The greatest power of x that may hold numbers.
    pub fn degree(&self) -> usize
        ensures degree { result ≡ self.now.degree }
        ensures system { IsSystem self.now }
    {
        self.degree
    }

    /// The columns of a row that may hold numbers, the free one last.
    pub fn columns(&self, row: usize) -> &[usize]
        requires { row < dim_of self.now }
        ensures { result.now ≡ (row_of self.now row).columns }
    {
        &self.rows[row].columns
    }

    /// The numbers of a row, power by power, a number for each column.
    pub fn numbers(&self, row: usize) -> &[i64]
        requires { row < dim_of self.now }
        ensures { result.now ≡ (row_of self.now row).numbers }
    {
        &self.rows[row].numbers
    }

    /// Sets all numbers to 0.
    pub fn clear(&mut self)
        ensures places { HaveSamePlaces self.old self.new }
        ensures zero { HasNoNumbers self.new }
    {
        clear_rows(&mut self.rows);
    }

    /// Stores a number, in units of 2^-64, at a row, a column and a power.
    pub fn set(&mut self, row: usize, col: usize, m: usize, v: i128)
        requires place { HasPlace self.old row col }
        requires power { m ≤ self.old.degree }
        requires size { unsigned_abs v ≤ 2 ^ 59 }
        ensures { SetsOnly self.old self.new row col m v }
    {
        let _degree = self.degree();
        self.store(row, col, m, v);
    }

    /// Stores a number of the free vector, in units of 2^-64, at a row and a power.
    pub fn set_free(&mut self, row: usize, m: usize, v: i128)
        requires row { row < dim_of self.old }
        requires power { m ≤ self.old.degree }
        requires size { unsigned_abs v ≤ 2 ^ 59 }
        ensures { SetsOnly self.old self.new row (dim_of self.old) m v }
    {
        let _degree = self.degree();
        let dim = self.dim();
        self.store(row, dim, m, v);
    }
}

impl CellSystem {
    fn store(&mut self, row: usize, col: usize, m: usize, v: i128)
        requires column { HasColumn self.old row col }
        requires power { m ≤ self.old.degree }
        requires size { unsigned_abs v ≤ 2 ^ 59 }
        ensures { self.new ≡ with_number self.old row col m v }
    {
        let r = &mut self.rows[row];
        let place = place_in(&r.columns, col);
        r.set(place, m, v as i64);
    }
}

fn clear_rows(rows: &mut [Row])
    ensures { (i : ℕ) → row_at rows.new i ≡ cleared_row (row_at rows.old i) }
{
    for i in 0..rows.len() {
        rows[i].clear();
    }
}

#[cfg(test)]
mod tests;
