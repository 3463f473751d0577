// Entries in records of a CSV text.
ghost use Rattle.std.specs.Prelude.{◌≡◌, ◌≢◌, ◌↔◌, ◌<◌, ◌≤ℤ◌, ◌^◌, ◌∷◌, [], length, unsigned_abs};
ghost use Rattle.std.specs.Prelude.{IfErr, IfOk, IfSome, IfNone, IsTrue};
ghost use Rattle.csv.specs.Records.{fields_of};
ghost use Rattle.decimal_in.specs.Decimals.{size_of};
ghost use Rattle.total_merge.specs.Entries.{head, part_of, upper_of, AreNumbers, AreWithin, FieldsHaveFault};

use csv::ByteRecord;
use decimal_in::{millionths, unsigned_millionths};
use portfolio_run::is_group_name;

/// What is wrong with a record, in the order in which it is looked at.
#[derive(Clone, Copy, Debug, PartialEq, Eq)]
pub enum Fault {
    /// It has not four fields.
    Fields,
    /// No good name of a group.
    Group,
    /// No decimal.
    Lo,
    /// No decimal, or one below the lower end.
    Hi,
    /// No decimal without a sign, or one below the distance of the ends.
    Tolerance,
}

impl Fault {
    /// The number of the fault.
    pub fn part(self) -> u8
        ensures { result ≡ part_of self }
    {
        match self {
            Fault::Fields => 1,
            Fault::Group => 2,
            Fault::Lo => 3,
            Fault::Hi => 4,
            Fault::Tolerance => 5,
        }
    }
}

/// The numbers of an entry, in millionths of a minor unit.
#[derive(Clone, Copy)]
pub(crate) struct Numbers {
    pub lo: i128,
    pub hi: i128,
    pub tol: u128,
}

/// The fields of a record that has four.
pub(crate) fn four_fields(row: &ByteRecord) -> Option<(&[u8], &[u8], &[u8], &[u8])>
    ensures some { IfSome result (λ fields. fields_of row.now
        ≡ fields.0.now ∷ fields.1.now ∷ fields.2.now ∷ fields.3.now ∷ []) }
    ensures none { IfNone result (length (fields_of row.now) ≢ 4) }
{
    if row.len() != 4 {
        return None;
    }
    match (row.get(0), row.get(1), row.get(2), row.get(3)) {
        (Some(group), Some(lo), Some(hi), Some(tolerance)) => Some((group, lo, hi, tolerance)),
        _ => None,
    }
}

// The upper end of a field above this lower end.
fn upper(low: i128, field: &[u8]) -> Option<i128>
    ensures value { result ≡ upper_of low field.now }
    ensures ordered { IfSome result (λ high. low ≤ℤ high) }
    ensures small { IfSome result (λ high. unsigned_abs high < 10 ^ 24) }
{
    match millionths(field) {
        Some(high) if low <= high => Some(high),
        _ => None,
    }
}

// The tolerance of a field.
fn tolerance(field: &[u8]) -> Option<u128>
    ensures value { result ≡ size_of field.now }
    ensures small { IfSome result (λ tol. tol < 10 ^ 24) }
{
    match unsigned_millionths(field) {
        Some(tol) => Some(tol as u128),
        None => None,
    }
}

// Whether ends are no further apart than a tolerance.
fn are_within(low: i128, high: i128, tol: u128) -> bool
    requires low { unsigned_abs low < 10 ^ 24 }
    requires tol { tol < 10 ^ 24 }
    ensures { IsTrue result ↔ AreWithin low high tol }
{
    high <= low + tol as i128
}

/// The numbers of an entry of four fields, or their first fault.
pub(crate) fn numbers_of(
    group: &[u8],
    lo_field: &[u8],
    hi_field: &[u8],
    tol_field: &[u8],
) -> Result<Numbers, Fault>
    ensures ok { IfOk result (AreNumbers group.now lo_field.now hi_field.now tol_field.now) }
    ensures err { IfErr result (FieldsHaveFault group.now lo_field.now hi_field.now tol_field.now) }
{
    if !is_group_name(group) {
        return Err(Fault::Group);
    }
    let Some(lo) = millionths(lo_field) else {
        return Err(Fault::Lo);
    };
    let Some(hi) = upper(lo, hi_field) else {
        return Err(Fault::Hi);
    };
    let Some(tol) = tolerance(tol_field) else {
        return Err(Fault::Tolerance);
    };
    if !are_within(lo, hi, tol) {
        return Err(Fault::Tolerance);
    }
    Ok(Numbers { lo, hi, tol })
}

/// Whether a record is the head.
pub(crate) fn is_head(row: &ByteRecord) -> bool
    ensures { IsTrue result ↔ (fields_of row.now ≡ head) }
{
    let Some((group, lo, hi, tolerance)) = four_fields(row) else {
        return false;
    };
    group == b"group".as_slice()
        && lo == b"lo".as_slice()
        && hi == b"hi".as_slice()
        && tolerance == b"tolerance".as_slice()
}
