ghost use Rattle.std.specs.Prelude.{◌≡◌, ℕ, ◌≤◌, ◌<◌, IfOk, IsTrue};
ghost use Rattle.std.specs.List.{list_all};
ghost use Rattle.linear_system.specs.Setting.{IsMadeFor as HasPlaces, SetsOnly};
ghost use Rattle.linear_system.specs.StoredSystem.{dim_of, stored_number};
ghost use Rattle.month_maps.specs.MadeMaps.{CanMake, IsMadeFor};
ghost use Rattle.taylor_step.specs.ListedNumbers.{listed, can_hold};

use super::*;
use linear_system::CellSystem;
use std::alloc::{AllocError, Global};
use std::marker::Brand;
use std::sync::ledger::{Blank, Ledger};
use taylor_step::{Steps, Work};

// a row, a column (the dimension for a free number), a power and a number
type Entry = (usize, usize, usize, i128);

fn put(system: &mut CellSystem, dim: usize, links: &[(usize, usize)], entry: &Entry)
    requires made { HasPlaces dim 0 links.now system.old }
    requires held { IsTrue (can_hold dim 0 links.now entry.now) }
    ensures made { HasPlaces dim 0 links.now system.new }
    ensures set { SetsOnly system.old system.new entry.now.0 entry.now.1 entry.now.2 entry.now.3 }
{
    if entry.1 == dim {
        system.set_free(entry.0, entry.2, entry.3);
    } else {
        system.set(entry.0, entry.1, entry.2, entry.3);
    }
}

// A system of constant numbers, with the listed ones.
fn filled(
    alloc: Global,
    dim: usize,
    links: &[(usize, usize)],
    entries: &[Entry],
) -> Result<CellSystem, AllocError>
    requires dim { dim ≤ 24 }
    requires held { IsTrue (list_all (can_hold dim 0 links.now) entries.now) }
    ensures dim { IfOk result (λ s. dim_of s ≡ dim) }
    ensures degree { IfOk result (λ s. s.degree ≡ 0) }
    ensures numbers { IfOk result (λ s. (row col m : ℕ)
        → stored_number s row col m ≡ listed entries.now row col m) }
{
    let mut system = CellSystem::new(alloc, dim, 0, links)?;
    for k in 0..entries.len() {
        put(&mut system, dim, links, &entries[entries.len() - 1 - k]);
    }
    Ok(system)
}

fn counted<L: Ledger>(
    blank: Blank,
    alloc: Global,
    system: &CellSystem,
    work: &mut Work,
) -> Result<MonthMap, AllocError>
    requires name { blank.name ≡ L.name }
    requires parts { blank.parts ≡ L.parts }
    requires some { 0 < blank.parts }
    requires few { dim_of system.now ≤ 12 }
    requires work { work.old ≡ dim_of system.now }
    requires can { CanMake system.now }
    ensures made { IfOk result (IsMadeFor system.now) }
{
    let mut steps = Steps::<L>::open(blank);
    MonthMap::make(alloc, system, work, &mut steps)
}

// A map with a counter of its own.
fn made(alloc: Global, system: &CellSystem, work: &mut Work) -> Result<MonthMap, AllocError>
    requires few { dim_of system.now ≤ 12 }
    requires work { work.old ≡ dim_of system.now }
    requires can { CanMake system.now }
    ensures made { IfOk result (IsMadeFor system.now) }
{
    counted::<Brand>(Blank::new(1), alloc, system, work)
}

// The radius after 32 cells from an exact start.
const RADIUS: u128 = 32 * 1023;

// What is expected below is the 32-fold Taylor value of degree 40, computed with exact fractions by another program.
#[test]
fn a_month_of_two_states(rt: HostRuntime) -> Result<(), AllocError> {
    let entries = [
        (0, 0, 0, -36028797018963968),
        (0, 1, 0, 45035996273704960),
        (1, 0, 0, 36028797018963968),
        (1, 1, 0, -27021597764222976),
        (0, 2, 0, 72057594037927936),
        (1, 2, 0, 36028797018963968),
    ];
    let system = filled(rt.alloc(), 2, &[(0, 1), (1, 0)], &entries)?;
    let mut work = Work::new(rt.alloc(), 2)?;
    let mut map = made(rt.alloc(), &system, &mut work)?;
    assert_eq!(rt; map.degree(), 8);
    let mut from_nothing = [0, 0];
    map.apply(&mut from_nothing);
    assert!(rt; from_nothing[0].abs_diff(2280506590790527156) <= RADIUS);
    assert!(rt; from_nothing[1].abs_diff(1196731807845461714) <= RADIUS);
    let mut mid = [18446744073709551616, -9223372036854775808];
    map.apply(&mut mid);
    assert!(rt; mid[0].abs_diff(18969375017932628091) <= RADIUS);
    assert!(rt; mid[1].abs_diff(-6533191526741568449) <= RADIUS);
    map.square();
    assert_eq!(rt; map.degree(), 8);
    Ok(())
}
