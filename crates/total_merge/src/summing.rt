// Sums of entries by group.
ghost use Rattle.std.specs.Prelude.{◌≡◌, ◌≤◌, All, List, Some, length, map, slice_get, IfOk, OnOk};
ghost use Rattle.portfolio_run.specs.Names.{with_name};
ghost use Rattle.portfolio_run.specs.Stored.{most_bytes};
ghost use Rattle.total_merge.specs.Entries.{kept_entries, kept_entry, Entry, IsInRange};
ghost use Rattle.total_merge.specs.Sums.{groups_of, name_of, AddsEntry, AreSums, HasRoom, HasSums, IsNothing};

use portfolio_run::{Names, Total};
use std::alloc::{AllocError, Global};

// The total of nothing.
fn nothing(alloc: Global, name: &[u8]) -> Result<Total, AllocError>
    ensures { IfOk result (IsNothing name.now) }
{
    let name = name.to_vec(alloc)?;
    Ok(Total {
        name,
        lo: 0,
        hi: 0,
        tol: 0,
    })
}

// The place of a group's total. Where there was none, it is the last one, of nothing.
fn place_of(
    alloc: Global,
    names: &mut Names,
    groups: &mut Vec<Total>,
    name: &[u8],
) -> Result<usize, AllocError>
    requires { map name_of groups.old.items ≡ names.old }
    ensures noted { OnOk result (names.new ≡ with_name names.old name.now) }
    ensures named { OnOk result (map name_of groups.new.items ≡ names.new) }
    ensures place { IfOk result (λ place. slice_get names.new place ≡ Some name.now) }
    ensures sums { OnOk result ((entries : List Entry)
        → AreSums names.old groups.old.items entries → AreSums names.new groups.new.items entries) }
{
    let place = names.note(alloc, name)?;
    if place == groups.len() {
        groups.push(nothing(alloc, name)?)?;
    }
    Ok(place)
}

// Adds an entry to a total.
fn add(total: &mut Total, entry: &Total)
    requires room { HasRoom total.old }
    requires range { IsInRange (kept_entry entry.now) }
    ensures { AddsEntry entry.now total.old total.new }
{
    total.lo += entry.lo;
    total.hi += entry.hi;
    total.tol += entry.tol;
}

/// The total of each group, in the order in which the groups are first seen.
pub(crate) fn sum_up(alloc: Global, entries: &[Total]) -> Result<Vec<Total>, AllocError>
    requires range { All IsInRange (kept_entries entries.now) }
    requires few { length entries.now ≤ most_bytes }
    ensures groups { IfOk result (λ totals. map name_of totals.items ≡ groups_of (kept_entries entries.now)) }
    ensures right { IfOk result (λ totals. All (HasSums (kept_entries entries.now)) totals.items) }
{
    let mut names = Names::new(alloc);
    let mut groups = Vec::new(alloc);
    for i in 0..entries.len() {
        let entry = &entries[i];
        let place = place_of(alloc, &mut names, &mut groups, &entry.name)?;
        add(&mut groups[place], entry);
    }
    Ok(groups)
}
