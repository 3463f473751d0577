// The entries of a CSV text.
ghost use Rattle.std.specs.Prelude.{◌≡◌, ◌++◌, ◌∷◌, [], List, ℕ, map, IfErr, IfOk, OnOk};
ghost use Rattle.csv.specs.Records.{fields_of};
ghost use Rattle.total_merge.specs.Entries.{entry_of, kept_entries, part_of};
ghost use Rattle.total_merge.specs.Tables.{AreEntries, AreEntriesIn, HaveHead, TellsFault, TellsRow, TellsWrong};
ghost use Rattle.total_merge.specs.Tables.{TellsWrongIn};

use crate::fields::{Fault, Numbers, four_fields, is_head, numbers_of};
use claim_audit::all_rows;
use csv::ByteRecord;
use portfolio_run::Total;
use rule_breaks::RowBreak;
use std::alloc::Global;
use thiserror::Error;

/// Why tables of totals are not merged.
#[derive(Clone, Copy, Debug, PartialEq, Eq, Error)]
pub enum MergeError {
    /// The first row that is wrong, and its first wrong part.
    #[error("row {row} is wrong in part {part}", row = .0.row, part = .0.part)]
    Row(RowBreak),
    #[error("out of memory")]
    Memory,
}

impl MergeError {
    // The fault of a row.
    fn of(row: u64, fault: Fault) -> MergeError
        ensures { result ≡ MergeError.Row (record { row = row; part = part_of fault }) }
    {
        let part = fault.part();
        MergeError::Row(RowBreak { row, part })
    }
}

// Keeps an entry.
fn keep(
    alloc: Global,
    entries: &mut Vec<Total>,
    group: &[u8],
    numbers: Numbers,
) -> Result<(), MergeError>
    ensures kept { OnOk result (kept_entries entries.new.items ≡ kept_entries entries.old.items
        ++ entry_of group.now numbers ∷ []) }
    ensures err { IfErr result (λ why. why ≡ MergeError.Memory) }
{
    let Ok(name) = group.to_vec(alloc) else {
        return Err(MergeError::Memory);
    };
    let total = Total {
        name,
        lo: numbers.lo,
        hi: numbers.hi,
        tol: numbers.tol,
    };
    match entries.push(total) {
        Ok(()) => Ok(()),
        Err(_) => Err(MergeError::Memory),
    }
}

// Keeps the entry of a record, which stands in this row. A repeated head is passed over.
fn keep_row(
    alloc: Global,
    entries: &mut Vec<Total>,
    record: &ByteRecord,
    row: u64,
) -> Result<(), MergeError>
    ensures ok { OnOk result ((records : List (List (List ℕ)))
        → AreEntries records (kept_entries entries.old.items)
        → AreEntries (records ++ fields_of record.now ∷ []) (kept_entries entries.new.items)) }
    ensures err { IfErr result (TellsRow (fields_of record.now) row) }
{
    if is_head(record) {
        return Ok(());
    }
    let Some((group, lo, hi, tolerance)) = four_fields(record) else {
        return Err(MergeError::of(row, Fault::Fields));
    };
    match numbers_of(group, lo, hi, tolerance) {
        Ok(numbers) => keep(alloc, entries, group, numbers),
        Err(fault) => Err(MergeError::of(row, fault)),
    }
}

// The entries of records.
fn entries_in(alloc: Global, records: &[ByteRecord]) -> Result<Vec<Total>, MergeError>
    ensures ok { IfOk result (λ entries. AreEntries (map fields_of records.now) (kept_entries entries.items)) }
    ensures err { IfErr result (TellsFault (map fields_of records.now)) }
{
    let mut entries = Vec::new(alloc);
    for i in 0..records.len() {
        match keep_row(alloc, &mut entries, &records[i], i as u64) {
            Ok(()) => {}
            Err(why) => return Err(why),
        }
    }
    Ok(entries)
}

// The entries of all records.
fn entries_of(alloc: Global, records: &[ByteRecord]) -> Result<Vec<Total>, MergeError>
    ensures ok { IfOk result (λ entries. HaveHead (map fields_of records.now)
        × AreEntries (map fields_of records.now) (kept_entries entries.items)) }
    ensures err { IfErr result (TellsWrong (map fields_of records.now)) }
{
    if records.is_empty() || !is_head(&records[0]) {
        return Err(MergeError::Row(RowBreak { row: 0, part: 0 }));
    }
    entries_in(alloc, records)
}

/// The entries of a CSV text, in their order, or its first wrong row.
pub(crate) fn read_entries(alloc: Global, csv: &[u8]) -> Result<Vec<Total>, MergeError>
    ensures ok { IfOk result (λ entries. AreEntriesIn csv.now (kept_entries entries.items)) }
    ensures err { IfErr result (TellsWrongIn csv.now) }
{
    let Ok(records) = all_rows(alloc, csv) else {
        return Err(MergeError::Memory);
    };
    entries_of(alloc, &records)
}
