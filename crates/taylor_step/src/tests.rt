ghost use Rattle.std.specs.Prelude.{◌≡◌, ℕ, ◌≤◌, ◌<◌, length, IfOk, IsTrue};
ghost use Rattle.std.specs.List.{list_all};
ghost use Rattle.linear_system.specs.Setting.{IsMadeFor, SetsOnly};
ghost use Rattle.linear_system.specs.StoredSystem.{dim_of, stored_number};
ghost use Rattle.taylor_step.specs.CanStep.{CanStep};
ghost use Rattle.taylor_step.specs.ListedNumbers.{listed, can_hold};

use super::*;
use linear_system::CellSystem;
use std::alloc::{AllocError, Global};
use std::marker::Brand;
use std::sync::ledger::{Blank, Ledger};

// a row, a column (the dimension for a free number), a power and a number
type Entry = (usize, usize, usize, i128);

fn put(system: &mut CellSystem, dim: usize, degree: usize, links: &[(usize, usize)], entry: &Entry)
    requires made { IsMadeFor dim degree links.now system.old }
    requires held { IsTrue (can_hold dim degree links.now entry.now) }
    ensures made { IsMadeFor dim degree links.now system.new }
    ensures set { SetsOnly system.old system.new entry.now.0 entry.now.1 entry.now.2 entry.now.3 }
{
    if entry.1 == dim {
        system.set_free(entry.0, entry.2, entry.3);
    } else {
        system.set(entry.0, entry.1, entry.2, entry.3);
    }
}

// A system with the listed numbers.
fn filled(
    alloc: Global,
    dim: usize,
    degree: usize,
    links: &[(usize, usize)],
    entries: &[Entry],
) -> Result<CellSystem, AllocError>
    requires dim { dim ≤ 24 }
    requires degree { degree ≤ 11 }
    requires held { IsTrue (list_all (can_hold dim degree links.now) entries.now) }
    ensures dim { IfOk result (λ s. dim_of s ≡ dim) }
    ensures numbers { IfOk result (λ s. (row col m : ℕ)
        → stored_number s row col m ≡ listed entries.now row col m) }
{
    let mut system = CellSystem::new(alloc, dim, degree, links)?;
    for k in 0..entries.len() {
        put(
            &mut system,
            dim,
            degree,
            links,
            &entries[entries.len() - 1 - k],
        );
    }
    Ok(system)
}

fn counted<L: Ledger>(blank: Blank, system: &CellSystem, mid: &mut [i128], work: &mut Work) -> u8
    requires name { blank.name ≡ L.name }
    requires parts { blank.parts ≡ L.parts }
    requires some { 0 < blank.parts }
    requires mid { length mid.old ≡ dim_of system.now }
    requires work { work.old ≡ dim_of system.now }
    requires can { CanStep system.now mid.old }
{
    let mut steps = Steps::<L>::open(blank);
    step(system, mid, work, &mut steps)
}

// One step with a counter of its own.
fn one_step(system: &CellSystem, mid: &mut [i128], work: &mut Work) -> u8
    requires mid { length mid.old ≡ dim_of system.now }
    requires work { work.old ≡ dim_of system.now }
    requires can { CanStep system.now mid.old }
{
    counted::<Brand>(Blank::new(1), system, mid, work)
}

// The radius after a step from an exact start.
const RADIUS: u128 = 1023;

#[test]
fn nothing_changes_without_numbers(rt: HostRuntime) -> Result<(), AllocError> {
    let system = filled(rt.alloc(), 1, 0, &[], &[])?;
    let mut work = Work::new(rt.alloc(), 1)?;
    let mut mid = [18446744073709551616];
    assert_eq!(rt; one_step(&system, &mut mid, &mut work), 8);
    assert_eq!(rt; mid, [18446744073709551616]);
    Ok(())
}

// What is expected below was computed with exact fractions by another program, to degree 30.

#[test]
fn two_states_backward(rt: HostRuntime) -> Result<(), AllocError> {
    let entries = [
        (0, 0, 0, -36028797018963968),
        (0, 1, 0, 40532396646334464),
        (1, 0, 0, 36028797018963968),
        (1, 1, 0, -31525197391593472),
        (0, 0, 1, -4503599627370496),
        (0, 1, 1, 4503599627370496),
        (1, 0, 1, 2251799813685248),
        (1, 1, 1, -2251799813685248),
        (0, 2, 0, 288230376151711744),
        (1, 2, 0, -144115188075855872),
        (0, 2, 1, 18014398509481984),
    ];
    let system = filled(rt.alloc(), 2, 1, &[(0, 1), (1, 0)], &entries)?;
    let mut work = Work::new(rt.alloc(), 2)?;
    let mut mid = [18446744073709551616, -9223372036854775808];
    assert_eq!(rt; one_step(&system, &mut mid, &mut work), 9);
    assert!(rt; mid[0].abs_diff(18683952468283662061) <= RADIUS);
    assert!(rt; mid[1].abs_diff(-9313686001084591385) <= RADIUS);
    Ok(())
}

#[test]
fn two_states_forward_with_free_numbers(rt: HostRuntime) -> Result<(), AllocError> {
    let entries = [
        (0, 0, 0, -108086391056891904),
        (0, 1, 0, 36028797018963968),
        (1, 0, 0, 108086391056891904),
        (1, 1, 0, -36028797018963968),
        (0, 0, 1, 4503599627370496),
        (0, 1, 1, -2251799813685248),
        (1, 0, 1, -4503599627370496),
        (1, 1, 1, 2251799813685248),
        (0, 2, 0, 288230376151711744),
        (1, 2, 0, -144115188075855872),
        (0, 2, 1, 18014398509481984),
    ];
    let system = filled(rt.alloc(), 2, 1, &[(0, 1), (1, 0)], &entries)?;
    let mut work = Work::new(rt.alloc(), 2)?;
    let mut mid = [13835058055282163712, 4611686018427387904];
    assert_eq!(rt; one_step(&system, &mut mid, &mut work), 10);
    assert!(rt; mid[0].abs_diff(14060943434799570842) <= RADIUS);
    assert!(rt; mid[1].abs_diff(4538923026240577638) <= RADIUS);
    Ok(())
}

#[test]
fn a_pair_with_a_coupling(rt: HostRuntime) -> Result<(), AllocError> {
    let entries = [
        (0, 0, 0, -36028797018963968),
        (0, 1, 0, 40532396646334464),
        (1, 0, 0, 36028797018963968),
        (1, 1, 0, -31525197391593472),
        (2, 0, 0, 144115188075855872),
        (2, 1, 0, 72057594037927936),
        (2, 2, 0, -36028797018963968),
        (2, 3, 0, 45035996273704960),
        (3, 1, 0, 144115188075855872),
        (3, 2, 0, 36028797018963968),
        (3, 3, 0, -27021597764222976),
        (0, 0, 1, -4503599627370496),
        (0, 1, 1, 4503599627370496),
        (1, 0, 1, 2251799813685248),
        (1, 1, 1, -2251799813685248),
        (2, 1, 1, 9007199254740992),
        (0, 4, 0, 288230376151711744),
        (1, 4, 0, -144115188075855872),
        (2, 4, 0, 72057594037927936),
        (3, 4, 0, 36028797018963968),
        (0, 4, 1, 18014398509481984),
    ];
    let links = [(0, 1), (1, 0), (2, 3), (3, 2), (2, 0), (2, 1), (3, 1)];
    let system = filled(rt.alloc(), 4, 1, &links, &entries)?;
    let mut work = Work::new(rt.alloc(), 4)?;
    let mut mid = [
        18446744073709551616,
        -9223372036854775808,
        4611686018427387904,
        9223372036854775808,
    ];
    assert_eq!(rt; one_step(&system, &mut mid, &mut work), 9);
    assert!(rt; mid[0].abs_diff(18683952468283662061) <= RADIUS);
    assert!(rt; mid[1].abs_diff(-9313686001084591385) <= RADIUS);
    assert!(rt; mid[2].abs_diff(4803578701627053298) <= RADIUS);
    assert!(rt; mid[3].abs_diff(9182701947050354636) <= RADIUS);
    Ok(())
}
