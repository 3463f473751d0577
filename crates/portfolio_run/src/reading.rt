// The holdings of a CSV text.
ghost use Rattle.std.specs.Prelude.{◌≡◌, ◌+◌, ◌<◌, ◌≤◌, [], List, length, map, IfErr, IfOk, OnOk};
ghost use Rattle.csv.specs.Records.{fields_of};
ghost use Rattle.portfolio_run.specs.Holdings.{part_of, Holding};
ghost use Rattle.portfolio_run.specs.Readings.{AreHoldings, AreHoldingsIn, HaveHeader, TellsFault, TellsRow};
ghost use Rattle.portfolio_run.specs.Readings.{TellsWrong, TellsWrongIn};
ghost use Rattle.portfolio_run.specs.Stored.{most_bytes, AreKept, KeepsOneMore};

use crate::fields::{Fault, five_fields, is_header, numbers_of};
use crate::names::Names;
use crate::policies::{Policies, Policy, keep};
use claim_audit::all_rows;
use csv::ByteRecord;
use rule_breaks::RowBreak;
use std::alloc::Global;
use thiserror::Error;

/// Why the holdings of a CSV text are not summed up.
#[derive(Clone, Copy, Debug, PartialEq, Eq, Error)]
pub enum PolicyError {
    /// The first row that is wrong, and its first wrong part.
    #[error("row {row} is wrong in part {part}", row = .0.row, part = .0.part)]
    Row(RowBreak),
    #[error("out of memory")]
    Memory,
}

impl PolicyError {
    // The fault of a row.
    fn of(row: u64, fault: Fault) -> PolicyError
        ensures { result ≡ PolicyError.Row (record { row = row; part = part_of fault }) }
    {
        let part = fault.part();
        PolicyError::Row(RowBreak { row, part })
    }
}

// Keeps the holding of a record, which stands in this row.
fn keep_row(
    alloc: Global,
    files: &mut Names,
    groups: &mut Names,
    policies: &mut Vec<Policy>,
    record: &ByteRecord,
    row: u64,
) -> Result<(), PolicyError>
    ensures ok { OnOk result ((holdings : List Holding)
        → AreKept files.old groups.old policies.old.items holdings
        → KeepsOneMore files.new groups.new policies.new.items holdings (fields_of record.now)) }
    ensures err { IfErr result (TellsRow files.old (fields_of record.now) row) }
{
    let Some((file, group, month, state, count)) = five_fields(record) else {
        return Err(PolicyError::of(row, Fault::Fields));
    };
    let (month, count) = match numbers_of(files, file, group, month, count) {
        Ok(numbers) => numbers,
        Err(fault) => return Err(PolicyError::of(row, fault)),
    };
    match keep(
        alloc, files, groups, policies, file, group, month, state, count,
    ) {
        Ok(()) => Ok(()),
        Err(_) => Err(PolicyError::Memory),
    }
}

// The holdings behind the header.
fn policies_behind(alloc: Global, records: &[ByteRecord]) -> Result<Policies, PolicyError>
    requires header { 0 < length records.now }
    requires few { length records.now ≤ most_bytes + 1 }
    ensures ok { IfOk result (λ policies. AreHoldings (map fields_of records.now) policies.holdings) }
    ensures none_valued { IfOk result (λ policies. policies.valued ≡ []) }
    ensures err { IfErr result (TellsFault (map fields_of records.now)) }
{
    let mut files = Names::new(alloc);
    let mut groups = Names::new(alloc);
    let mut policies = Vec::new(alloc);
    for i in 1..records.len() {
        let kept = keep_row(
            alloc,
            &mut files,
            &mut groups,
            &mut policies,
            &records[i],
            i as u64,
        );
        match kept {
            Ok(()) => {}
            Err(why) => return Err(why),
        }
    }
    Ok(Policies::of(alloc, files, groups, policies))
}

// The holdings of all records.
fn policies_of(alloc: Global, records: &[ByteRecord]) -> Result<Policies, PolicyError>
    requires few { length records.now ≤ most_bytes + 1 }
    ensures ok { IfOk result (λ policies. HaveHeader (map fields_of records.now)
        × AreHoldings (map fields_of records.now) policies.holdings) }
    ensures none_valued { IfOk result (λ policies. policies.valued ≡ []) }
    ensures err { IfErr result (TellsWrong (map fields_of records.now)) }
{
    if records.is_empty() || !is_header(&records[0]) {
        return Err(PolicyError::Row(RowBreak { row: 0, part: 0 }));
    }
    policies_behind(alloc, records)
}

/// The holdings of a CSV text, in their order, or its first wrong row.
pub fn read_policies(alloc: Global, csv: &[u8]) -> Result<Policies, PolicyError>
    requires most { length csv.now ≤ most_bytes }
    ensures ok { IfOk result (λ policies. AreHoldingsIn csv.now policies.holdings) }
    ensures none_valued { IfOk result (λ policies. policies.valued ≡ []) }
    ensures err { IfErr result (TellsWrongIn csv.now) }
{
    let Ok(records) = all_rows(alloc, csv) else {
        return Err(PolicyError::Memory);
    };
    policies_of(alloc, &records)
}
