//! The two systems that are measured, with numbers that are made up.

ghost use Rattle.std.specs.Prelude.{◌^◌, ◌<◌, ◌≤◌, IfOk, length, unsigned_abs};
ghost use Rattle.linear_system.specs.Setting.{HaveSamePlaces};
ghost use Rattle.linear_system.specs.StoredSystem.{dim_of, row_of};
ghost use Rattle.step_bench.specs.Small.{HasSmallNumbers, IsSmallSystem};

use linear_system::CellSystem;
use std::alloc::{AllocError, Global};

const LINKS_3: [(usize, usize); 4] = [(0, 1), (1, 0), (1, 2), (2, 1)];

// a ring of twelve states, each linked with both its neighbours
const LINKS_12: [(usize, usize); 24] = [
    (0, 1),
    (1, 2),
    (2, 3),
    (3, 4),
    (4, 5),
    (5, 6),
    (6, 7),
    (7, 8),
    (8, 9),
    (9, 10),
    (10, 11),
    (11, 0),
    (1, 0),
    (2, 1),
    (3, 2),
    (4, 3),
    (5, 4),
    (6, 5),
    (7, 6),
    (8, 7),
    (9, 8),
    (10, 9),
    (11, 10),
    (0, 11),
];

const HALF: i128 = 1 << 39;

fn value(row: usize, place: usize, m: usize) -> i128
    requires row { row < 24 }
    requires place { place < 25 }
    requires power { m < 12 }
    ensures { unsigned_abs result ≤ 2 ^ 40 }
{
    let mixed = (row * 31 + place * 17 + m * 7 + 5) as u64 * 2_654_435_761 % (1 << 40);
    i128::from(mixed) - HALF
}

fn put(system: &mut CellSystem, row: usize, place: usize, m: usize)
    requires row { row < dim_of system.old }
    requires place { place < length (row_of system.old row).columns }
    requires power { m ≤ system.old.degree }
    requires small { HasSmallNumbers system.old }
    ensures places { HaveSamePlaces system.old system.new }
    ensures small { HasSmallNumbers system.new }
{
    let _degree = system.degree();
    let dim = system.dim();
    let col = system.columns(row)[place];
    let number = value(row, place, m);
    if col == dim {
        system.set_free(row, m, number);
    } else {
        system.set(row, col, m, number);
    }
}

fn fill_power(system: &mut CellSystem, row: usize, m: usize)
    requires row { row < dim_of system.old }
    requires power { m ≤ system.old.degree }
    requires small { HasSmallNumbers system.old }
    ensures places { HaveSamePlaces system.old system.new }
    ensures small { HasSmallNumbers system.new }
{
    let width = system.columns(row).len();
    for place in 0..width {
        put(system, row, place, m);
    }
}

fn fill_row(system: &mut CellSystem, row: usize)
    requires row { row < dim_of system.old }
    requires small { HasSmallNumbers system.old }
    ensures places { HaveSamePlaces system.old system.new }
    ensures small { HasSmallNumbers system.new }
{
    let degree = system.degree();
    for m in 0..degree {
        fill_power(system, row, m);
    }
    fill_power(system, row, degree);
}

fn fill(system: &mut CellSystem)
    requires { HasSmallNumbers system.old }
    ensures places { HaveSamePlaces system.old system.new }
    ensures small { HasSmallNumbers system.new }
{
    for row in 0..system.dim() {
        fill_row(system, row);
    }
}

/// Three states with 4 links and powers up to 3, or twelve with 24 and powers up to 5.
pub fn sample(alloc: Global, three: bool) -> Result<CellSystem, AllocError>
    ensures { IfOk result IsSmallSystem }
{
    let mut system = if three {
        CellSystem::new(alloc, 3, 3, &LINKS_3)?
    } else {
        CellSystem::new(alloc, 12, 5, &LINKS_12)?
    };
    fill(&mut system);
    Ok(system)
}
