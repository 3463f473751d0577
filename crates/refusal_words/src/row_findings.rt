//! What is found in the wrong record of a table.

ghost use Rattle.std.specs.Prelude.{◌≡◌, ◌++◌, ◌==◌, length, map, nat_le, nat_lt, slice_index_or, OnOk};
ghost use Rattle.std.specs.Prelude.{codes, if◌then◌else◌};
ghost use Rattle.std.specs.List.{list_all};
ghost use Rattle.csv.specs.Records.{fields_of};
ghost use Rattle.refusal_words.specs.declared.row_findings.Subject.TheVariants as subject;
ghost use Rattle.refusal_words.specs.RowFindings.{claim_subjects, count_line, field_line, holding_subjects};
ghost use Rattle.refusal_words.specs.RowFindings.{is_printable, is_shown_field, most_shown};
ghost use Rattle.refusal_words.specs.RowFindings.{row_found, shown_line, subject_line, subject_of, total_subjects};

use crate::row_texts::CsvTable;
use csv::ByteRecord;
use decimal_out::push_whole;
use rule_breaks::RowBreak;
use std::alloc::AllocError;

// The most bytes of a field that is shown.
const MOST_SHOWN: usize = 60;

/// What a part of a table looks at.
#[derive(Clone, Copy, Debug, PartialEq, Eq)]
pub enum Subject {
    /// No one field: the header, or a part that the table has not.
    Nothing,
    /// How many fields there are.
    Count,
    /// The field at a place.
    Field(usize),
}

// What a part of a claim looks at.
fn claim_subject(part: u8) -> Subject
    ensures { result ≡ slice_index_or claim_subjects part subject.Nothing }
{
    match part {
        1 => Subject::Count,
        2 => Subject::Field(0),
        3 => Subject::Field(1),
        4 => Subject::Field(2),
        _ => Subject::Nothing,
    }
}

// What a part of a holding looks at.
fn holding_subject(part: u8) -> Subject
    ensures { result ≡ slice_index_or holding_subjects part subject.Nothing }
{
    match part {
        1 => Subject::Count,
        2 => Subject::Field(0),
        3 => Subject::Field(1),
        4 | 6 => Subject::Field(2),
        5 => Subject::Field(4),
        7 => Subject::Field(3),
        _ => Subject::Nothing,
    }
}

// What a part of an entry of totals looks at.
fn total_subject(part: u8) -> Subject
    ensures { result ≡ slice_index_or total_subjects part subject.Nothing }
{
    match part {
        1 => Subject::Count,
        2 => Subject::Field(0),
        3 => Subject::Field(1),
        4 => Subject::Field(2),
        5 => Subject::Field(3),
        _ => Subject::Nothing,
    }
}

// What a part of a table looks at.
fn subject_of(table: CsvTable, part: u8) -> Subject
    ensures { result ≡ subject_of table part }
{
    match table {
        CsvTable::Claims => claim_subject(part),
        CsvTable::Holdings => holding_subject(part),
        CsvTable::Totals => total_subject(part),
    }
}

// Whether a byte is a printable one of ASCII.
fn is_printable(b: u8) -> bool
    ensures { result ≡ is_printable b }
{
    32 <= b && b <= 126
}

// Whether each of the bytes is.
fn has_printable_bytes(field: &[u8]) -> bool
    ensures { result ≡ list_all is_printable field.now }
{
    field.iter().all(|b| is_printable(*b))
}

// Whether a field fits a line.
fn fits(field: &[u8]) -> bool
    ensures { result ≡ nat_le (length field.now) most_shown }
{
    field.len() <= MOST_SHOWN
}

// Whether a field is shown as it stands.
#[tactic(auto, unfolding(crate::specs::RowFindings::is_shown_field))]
fn is_shown_field(field: &[u8]) -> bool
    ensures { result ≡ is_shown_field field.now }
{
    fits(field) && has_printable_bytes(field)
}

// Whether a field has a byte.
fn is_filled(field: &[u8]) -> bool
    ensures { result ≡ nat_lt 0 (length field.now) }
{
    !field.is_empty()
}

// The word of so many fields.
fn fields_word(count: u64) -> &'static [u8]
    ensures { result.now ≡ (if count == 1 then codes " field\n" else codes " fields\n") }
{
    if count == 1 {
        b" field\n"
    } else {
        b" fields\n"
    }
}

// Appends the line of so many fields.
#[tactic(auto, unfolding(crate::specs::RowFindings::count_line))]
fn push_count(out: &mut Vec<u8>, count: u64) -> Result<(), AllocError>
    ensures { OnOk result (out.new.items ≡ out.old.items ++ count_line count) }
{
    out.extend_from_slice(b"found: ")?;
    push_whole(out, count)?;
    out.extend_from_slice(fields_word(count))
}

// Appends the line of a field that is shown.
#[tactic(auto, unfolding(crate::specs::RowFindings::shown_line))]
fn push_shown(out: &mut Vec<u8>, field: &[u8]) -> Result<(), AllocError>
    ensures { OnOk result (out.new.items ≡ out.old.items ++ shown_line field.now) }
{
    out.extend_from_slice(b"found: ")?;
    out.extend_from_slice(field)?;
    out.extend_from_slice(b"\n")
}

// Appends the line of a field, and none where it cannot be shown.
#[tactic(auto, unfolding(crate::specs::RowFindings::field_line))]
fn push_field(out: &mut Vec<u8>, field: &[u8]) -> Result<(), AllocError>
    ensures { OnOk result (out.new.items ≡ out.old.items ++ field_line field.now) }
{
    if !is_filled(field) {
        return out.extend_from_slice(b"found: an empty field\n");
    }
    if is_shown_field(field) {
        push_shown(out, field)?;
    }
    Ok(())
}

// Appends the line of what is looked at in a record.
fn push_subject(out: &mut Vec<u8>, subject: Subject, record: &ByteRecord) -> Result<(), AllocError>
    ensures { OnOk result (out.new.items ≡ out.old.items ++ subject_line subject (fields_of record.now)) }
{
    match subject {
        Subject::Nothing => Ok(()),
        Subject::Count => push_count(out, record.len() as u64),
        Subject::Field(place) => match record.get(place) {
            Some(field) => push_field(out, field),
            None => Ok(()),
        },
    }
}

/// Appends the line of what is found in a wrong row, and none where it cannot be shown.
pub fn push_row_found(
    out: &mut Vec<u8>,
    table: CsvTable,
    broken: RowBreak,
    records: &[ByteRecord],
) -> Result<(), AllocError>
    ensures { OnOk result (out.new.items ≡ out.old.items ++ row_found table broken (map fields_of records.now)) }
{
    match records.get(broken.row as usize) {
        Some(record) => push_subject(out, subject_of(table, broken.part), record),
        None => Ok(()),
    }
}
