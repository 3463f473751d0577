// Holdings in records of a CSV text.
ghost use Rattle.std.specs.Prelude.{◌≡◌, ◌≢◌, ◌↔◌, ◌≤◌, ◌^◌, ◌∷◌, [], length, IfErr, IfOk, IfSome, IfNone, IsTrue};
ghost use Rattle.std.specs.List.{list_all};
ghost use Rattle.csv.specs.Records.{fields_of};
ghost use Rattle.model_specs.specs.Names.{is_name_byte, IsGoodName};
ghost use Rattle.portfolio_run.specs.Holdings.{count_of, header, part_of, AreRight, FieldsHaveFault};
ghost use Rattle.portfolio_run.specs.Holdings.{IsFileName};

use crate::names::Names;
use claim_audit::month;
use csv::ByteRecord;
use decimal_in::whole;

// The most different files.
const MOST_FILES: usize = 16;

// The most bytes of a group's name.
const LONGEST_GROUP: usize = 24;

// The latest month of any product.
const LATEST_MONTH: u32 = 1200;

// The most digits of a count.
const MOST_DIGITS: usize = 7;

// The most contracts of a holding.
const MOST_CONTRACTS: u64 = 1_000_000;

/// What is wrong with a record, in the order in which it is looked at.
#[derive(Clone, Copy, Debug, PartialEq, Eq)]
pub enum Fault {
    /// It has not five fields.
    Fields,
    /// The file's name is empty or no text, or one more different name than there may be.
    File,
    /// No good name of a group.
    Group,
    /// No month of any product.
    Month,
    /// No count from 1 to a million.
    Count,
}

impl Fault {
    /// The number of the fault.
    pub fn part(self) -> u8
        ensures { result ≡ part_of self }
    {
        match self {
            Fault::Fields => 1,
            Fault::File => 2,
            Fault::Group => 3,
            Fault::Month => 4,
            Fault::Count => 5,
        }
    }
}

/// The fields of a record that has five.
pub(crate) fn five_fields(row: &ByteRecord) -> Option<(&[u8], &[u8], &[u8], &[u8], &[u8])>
    ensures some { IfSome result (λ fields. fields_of row.now
        ≡ fields.0.now ∷ fields.1.now ∷ fields.2.now ∷ fields.3.now ∷ fields.4.now ∷ []) }
    ensures none { IfNone result (length (fields_of row.now) ≢ 5) }
{
    if row.len() != 5 {
        return None;
    }
    match (row.get(0), row.get(1), row.get(2), row.get(3), row.get(4)) {
        (Some(file), Some(group), Some(month), Some(state), Some(count)) => {
            Some((file, group, month, state, count))
        }
        _ => None,
    }
}

// Whether a file may have the name, behind these files.
fn is_file_name(files: &Names, name: &[u8]) -> bool
    ensures { IsTrue result ↔ IsFileName files.now name.now }
{
    !name.is_empty()
        && str::from_utf8(name).is_ok()
        && (files.has(name) || files.len() < MOST_FILES)
}

// Whether a name may have the byte.
fn is_name_byte(byte: u8) -> bool
    ensures { result ≡ is_name_byte byte }
{
    byte.is_ascii_alphanumeric() || byte == b'.' || byte == b'_' || byte == b'-'
}

// Whether a name may have each of the bytes.
fn has_name_bytes(name: &[u8]) -> bool
    ensures { result ≡ list_all is_name_byte name.now }
{
    name.iter().all(|byte| is_name_byte(*byte))
}

/// Whether a group may have the name: 1 to 24 letters, digits, points, underscores or dashes of ASCII.
pub fn is_group_name(name: &[u8]) -> bool
    ensures { IsTrue result ↔ IsGoodName 24 name.now }
{
    !name.is_empty() && name.len() <= LONGEST_GROUP && has_name_bytes(name)
}

// The count of a field.
fn count(field: &[u8]) -> Option<u32>
    ensures value { result ≡ count_of field.now }
    ensures small { IfSome result (λ count. count ≤ 10 ^ 6) }
{
    match whole(field, MOST_DIGITS) {
        Some(count) if 1 <= count && count <= MOST_CONTRACTS => Some(count as u32),
        _ => None,
    }
}

/// The month and the count of a holding behind these files, or its first fault.
pub(crate) fn numbers_of(
    files: &Names,
    file: &[u8],
    group: &[u8],
    month_field: &[u8],
    count_field: &[u8],
) -> Result<(u32, u32), Fault>
    ensures ok { IfOk result
        (λ numbers. AreRight files.now file.now group.now month_field.now count_field.now numbers.0 numbers.1) }
    ensures small { IfOk result (λ numbers. numbers.1 ≤ 10 ^ 6) }
    ensures err { IfErr result (FieldsHaveFault files.now file.now group.now month_field.now count_field.now) }
{
    if !is_file_name(files, file) {
        return Err(Fault::File);
    }
    if !is_group_name(group) {
        return Err(Fault::Group);
    }
    let Some(month) = month(LATEST_MONTH, month_field) else {
        return Err(Fault::Month);
    };
    let Some(count) = count(count_field) else {
        return Err(Fault::Count);
    };
    Ok((month, count))
}

/// Whether a record is the header.
pub(crate) fn is_header(row: &ByteRecord) -> bool
    ensures { IsTrue result ↔ (fields_of row.now ≡ header) }
{
    let Some((file, group, month, state, count)) = five_fields(row) else {
        return false;
    };
    file == b"file".as_slice()
        && group == b"group".as_slice()
        && month == b"month".as_slice()
        && state == b"state".as_slice()
        && count == b"count".as_slice()
}
