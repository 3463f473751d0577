//! The lumps of each date, in order of states.

ghost use Rattle.std.specs.Prelude.{◌≡◌, ℕ, suc, ◌+◌, ◌*◌, ◌<◌, ◌≤◌, All, None, IfOk, length, slice_index_or};
ghost use Rattle.named_numbers.specs.Numbers.{most_months, most_states};
ghost use Rattle.whole_laws.specs.Whole.{list_of};
ghost use Rattle.payment_plan.specs.Records.{lumps_of};
ghost use Rattle.payment_plan.specs.Tables.{amount_at, row_of, row_at, dated_lumps, lists_of, payers_in_order};

use crate::lump::Lump;
use std::alloc::{AllocError, Global};

// The place of a date and a state in a table of all dates and states.
fn place(states: usize, month: u32, state: usize) -> usize
    requires states { states ≤ most_states }
    requires state { state < states }
    ensures { result ≡ month * states + state }
{
    month as usize * states + state
}

// Writes each lump's amount at its place. Of two lumps of one place the first one stays.
fn write(table: &mut [Option<i64>], states: usize, lumps: &[Lump])
    requires most_states { states ≤ most_states }
    requires states { All (λ l. l.state < states) lumps.now }
    requires dates { All (λ l. l.month * states + l.state < length table.old) lumps.now }
    requires empty { All (λ amount. amount ≡ None) table.old }
    ensures { (month state : ℕ) → state < states → month * states + state < length table.old
        → slice_index_or table.new (month * states + state) None ≡ amount_at (lumps_of lumps.now) month state }
{
    for i in (0..lumps.len()).rev() {
        let lump = lumps[i];
        table[place(states, lump.month, lump.state)] = Some(lump.amount);
    }
}

// The lumps of a date from the amounts of its states.
fn row(alloc: Global, amounts: &[Option<i64>]) -> Result<Vec<(usize, i64)>, AllocError>
    ensures { IfOk result (λ lumps. lumps.items ≡ row_of amounts.now) }
{
    let mut lumps = Vec::new(alloc);
    for (state, amount) in amounts.iter().enumerate() {
        if let Some(amount) = amount {
            lumps.push((state, *amount))?;
        }
    }
    Ok(lumps)
}

// The rows of a table of so many dates.
fn rows(
    alloc: Global,
    table: &[Option<i64>],
    states: usize,
    dates: usize,
) -> Result<Vec<Vec<(usize, i64)>>, AllocError>
    requires long { length table.now ≡ dates * states }
    requires states { states ≤ most_states }
    requires dates { dates ≤ most_months + 1 }
    ensures { IfOk result (λ dated. lists_of dated.items ≡ list_of dates (row_at table.now states)) }
{
    let mut dated = Vec::new(alloc);
    for date in 0..dates {
        let lumps = row(alloc, &table[date * states..(date + 1) * states])?;
        dated.push(lumps)?;
    }
    Ok(dated)
}

/// The lumps of each date up to the term. Takes time in proportion to the dates times the states, and the lumps.
pub(crate) fn lumps_by_date(
    alloc: Global,
    states: usize,
    months: u32,
    lumps: &[Lump],
) -> Result<Vec<Vec<(usize, i64)>>, AllocError>
    requires most_states { states ≤ most_states }
    requires most_months { months ≤ most_months }
    requires states { All (λ l. l.state < states) lumps.now }
    requires dates { All (λ l. l.month ≤ months) lumps.now }
    ensures { IfOk result (λ dated. lists_of dated.items
        ≡ list_of (suc months) (dated_lumps states (lumps_of lumps.now))) }
{
    let dates = months as usize + 1;
    let mut table = vec![in alloc; None; dates * states]?;
    write(&mut table, states, lumps);
    rows(alloc, &table, states, dates)
}

/// A lump of 1 in each payer state, in order of states.
pub(crate) fn payer_lumps(
    alloc: Global,
    states: usize,
    payers: &[usize],
) -> Result<Vec<(usize, i64)>, AllocError>
    requires { states ≤ most_states }
    ensures { IfOk result (λ lumps. lumps.items ≡ payers_in_order states payers.now) }
{
    let mut lumps = Vec::new(alloc);
    for state in 0..states {
        if payers.contains(&state) {
            lumps.push((state, 1))?;
        }
    }
    Ok(lumps)
}
