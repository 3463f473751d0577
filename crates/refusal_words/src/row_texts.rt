//! The lines under a refusal by the first wrong row of a table.

ghost use Rattle.std.specs.Prelude.{◌≡◌, [], map, slice_index_or, IfOk};
ghost use Rattle.csv.specs.Records.{fields_of};
ghost use Rattle.refusal_words.specs.RowTexts.{claim_demands, claim_fields, demand_of, field_of, holding_demands};
ghost use Rattle.refusal_words.specs.RowTexts.{holding_fields, record_words, row_text, total_demands, total_fields};

use crate::part_texts::demand_lines;
use crate::row_findings::push_row_found;
use csv::ByteRecord;
use decimal_out::push_whole;
use rule_breaks::RowBreak;
use std::alloc::{AllocError, Global};

/// A table that a command reads.
#[derive(Clone, Copy, Debug, PartialEq, Eq)]
pub enum CsvTable {
    /// Of `audit`.
    Claims,
    /// Of `portfolio`.
    Holdings,
    /// Of `merge`.
    Totals,
}

// What a part of a claim demands.
fn claim_demand(part: u8) -> &'static [u8]
    ensures { result.now ≡ slice_index_or claim_demands part [] }
{
    match part {
        0 => b"the first record is month,state,reserve",
        1 => b"a claim has three fields",
        2 => b"month is 0, or 1 to 4 digits without a leading zero, and at most the term",
        3 => b"state is the name of a state of the product",
        4 =>
            b"reserve is 1 to 18 digits, no needless zero, perhaps a point and 1 to 6 digits, perhaps - before them",
        _ => b"",
    }
}

// What a part of a holding demands.
fn holding_demand(part: u8) -> &'static [u8]
    ensures { result.now ≡ slice_index_or holding_demands part [] }
{
    match part {
        0 => b"the first record is file,group,month,state,count",
        1 => b"a holding has five fields",
        2 => b"file is the name of a file, and there are at most 16 different ones",
        3 => b"group is 1 to 24 letters, digits, '.', '_' and '-'",
        4 => b"month is 0, or 1 to 4 digits without a leading zero, and at most 1200",
        5 => b"count is 1 to 7 digits without a leading zero, from 1 to 1000000",
        6 => b"month is at most the term of the product",
        7 => b"state is the name of a state of the product",
        _ => b"",
    }
}

// What a part of an entry of totals demands.
fn total_demand(part: u8) -> &'static [u8]
    ensures { result.now ≡ slice_index_or total_demands part [] }
{
    match part {
        0 => b"the first record is group,lo,hi,tolerance",
        1 => b"an entry has four fields",
        2 => b"group is 1 to 24 letters, digits, '.', '_' and '-'",
        3 =>
            b"lo is 1 to 18 digits, no needless zero, perhaps a point and 1 to 6 digits, perhaps - before them",
        4 => b"hi is such a number too, and not below lo",
        5 => b"tolerance is such a number without a sign, and at least hi less lo",
        _ => b"",
    }
}

// The field of a part of a claim.
fn claim_field(part: u8) -> &'static [u8]
    ensures { result.now ≡ slice_index_or claim_fields part [] }
{
    match part {
        2 => b", month",
        3 => b", state",
        4 => b", reserve",
        _ => b"",
    }
}

// The field of a part of a holding.
fn holding_field(part: u8) -> &'static [u8]
    ensures { result.now ≡ slice_index_or holding_fields part [] }
{
    match part {
        2 => b", file",
        3 => b", group",
        4 | 6 => b", month",
        5 => b", count",
        7 => b", state",
        _ => b"",
    }
}

// The field of a part of an entry of totals.
fn total_field(part: u8) -> &'static [u8]
    ensures { result.now ≡ slice_index_or total_fields part [] }
{
    match part {
        2 => b", group",
        3 => b", lo",
        4 => b", hi",
        5 => b", tolerance",
        _ => b"",
    }
}

// What a part of a table demands.
fn demand_of(table: CsvTable, part: u8) -> &'static [u8]
    ensures { result.now ≡ demand_of table part }
{
    match table {
        CsvTable::Claims => claim_demand(part),
        CsvTable::Holdings => holding_demand(part),
        CsvTable::Totals => total_demand(part),
    }
}

// The field of a part of a table.
fn field_of(table: CsvTable, part: u8) -> &'static [u8]
    ensures { result.now ≡ field_of table part }
{
    match table {
        CsvTable::Claims => claim_field(part),
        CsvTable::Holdings => holding_field(part),
        CsvTable::Totals => total_field(part),
    }
}

// A record, counted from the header, and a field.
#[tactic(auto, unfolding(crate::specs::RowTexts::record_words))]
fn record_words(alloc: Global, row: u64, field: &[u8]) -> Result<Vec<u8>, AllocError>
    ensures { IfOk result (λ text. text.items ≡ record_words row field.now) }
{
    let mut text = b"record ".to_vec(alloc)?;
    push_whole(&mut text, row)?;
    text.extend_from_slice(field)?;
    Ok(text)
}

/// The lines of a row that is wrong, by all records of the table, and none for a part that the table has not.
pub fn row_lines(
    alloc: Global,
    table: CsvTable,
    broken: RowBreak,
    records: &[ByteRecord],
) -> Result<Vec<u8>, AllocError>
    ensures { IfOk result (λ text. text.items ≡ row_text table broken (map fields_of records.now)) }
{
    let words = record_words(alloc, broken.row, field_of(table, broken.part))?;
    let mut text = demand_lines(alloc, demand_of(table, broken.part), &words)?;
    push_row_found(&mut text, table, broken, records)?;
    Ok(text)
}
