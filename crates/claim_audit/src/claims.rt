// Claims in records of a CSV text.
ghost use Rattle.std.specs.Prelude.{◌≡◌, ◌≢◌, ◌↔◌, ◌<◌, ◌^◌, ◌∷◌, [], length, IfSome, IfNone, IfOk, IfErr, IsTrue};
ghost use Rattle.csv.specs.Records.{fields_of};
ghost use Rattle.claim_audit.specs.Claims.{header, month_of, part_of, HasFault, IsClaim};
ghost use Rattle.claim_audit.specs.Claims.{FieldsHaveFault, FieldsSayClaim};

use csv::ByteRecord;
use decimal_in::{millionths, whole};
use state_graph::Graph;

// The most digits of a month.
const MOST_DIGITS: usize = 4;

/// A claimed reserve at a date in a state.
#[derive(Clone, Copy, Debug, PartialEq, Eq)]
pub struct Claimed {
    /// Months from issue.
    pub month: u32,
    /// The state's index in the file's list of states.
    pub state: u32,
    /// In millionths of a minor unit.
    pub claim: i128,
}

/// What is wrong with a record, in the order in which it is looked at.
#[derive(Clone, Copy, Debug, PartialEq, Eq)]
pub enum Fault {
    /// It has not three fields.
    Count,
    /// No month up to the term.
    Month,
    /// No state of the product.
    State,
    /// No decimal.
    Reserve,
}

impl Fault {
    /// The number of the fault.
    pub fn part(self) -> u8
        ensures { result ≡ part_of self }
    {
        match self {
            Fault::Count => 1,
            Fault::Month => 2,
            Fault::State => 3,
            Fault::Reserve => 4,
        }
    }
}

// The fields of a record that has three.
fn three_fields(row: &ByteRecord) -> Option<(&[u8], &[u8], &[u8])>
    ensures some { IfSome result
        (λ fields. fields_of row.now ≡ fields.0.now ∷ fields.1.now ∷ fields.2.now ∷ []) }
    ensures none { IfNone result (length (fields_of row.now) ≢ 3) }
{
    if row.len() != 3 {
        return None;
    }
    match (row.get(0), row.get(1), row.get(2)) {
        (Some(first), Some(second), Some(third)) => Some((first, second, third)),
        _ => None,
    }
}

/// The month of a field: `0` or up to four digits without a leading zero, at most `months`.
pub fn month(months: u32, field: &[u8]) -> Option<u32>
    ensures { result ≡ month_of months field.now }
{
    match whole(field, MOST_DIGITS) {
        Some(month) if month <= u64::from(months) => Some(month as u32),
        _ => None,
    }
}

// The claim of three fields.
fn claim_in_fields(
    graph: &Graph,
    months: u32,
    month_field: &[u8],
    state_field: &[u8],
    reserve_field: &[u8],
) -> Result<Claimed, Fault>
    requires { length graph.now.names < 2 ^ 32 }
    ensures ok { IfOk result (FieldsSayClaim months graph.now.names month_field.now state_field.now reserve_field.now) }
    ensures err { IfErr result
        (FieldsHaveFault months graph.now.names month_field.now state_field.now reserve_field.now) }
{
    let Some(month) = month(months, month_field) else {
        return Err(Fault::Month);
    };
    let Some(state) = graph.state_of(state_field) else {
        return Err(Fault::State);
    };
    let Some(claim) = millionths(reserve_field) else {
        return Err(Fault::Reserve);
    };
    Ok(Claimed {
        month,
        state: state as u32,
        claim,
    })
}

/// The claim of a record, or its first fault.
pub fn claim_of(graph: &Graph, months: u32, row: &ByteRecord) -> Result<Claimed, Fault>
    requires { length graph.now.names < 2 ^ 32 }
    ensures ok { IfOk result (IsClaim months graph.now.names (fields_of row.now)) }
    ensures err { IfErr result (HasFault months graph.now.names (fields_of row.now)) }
{
    let Some((month, state, reserve)) = three_fields(row) else {
        return Err(Fault::Count);
    };
    claim_in_fields(graph, months, month, state, reserve)
}

/// Whether a record is the header.
pub fn is_header(row: &ByteRecord) -> bool
    ensures { IsTrue result ↔ (fields_of row.now ≡ header) }
{
    let Some((month, state, reserve)) = three_fields(row) else {
        return false;
    };
    month == b"month".as_slice() && state == b"state".as_slice() && reserve == b"reserve".as_slice()
}
