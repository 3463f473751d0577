// The claims of a CSV text.
ghost use Rattle.std.specs.Prelude.{◌<◌, ◌^◌, length, map, IfErr, IfOk};
ghost use Rattle.csv.specs.Records.{fields_of};
ghost use Rattle.claim_audit.specs.Readings.{AreClaims, AreClaimsIn, HaveHeader, TellsFault, TellsWrong, TellsWrongIn};

use crate::claims::{Claimed, claim_of, is_header};
use crate::rows::all_rows;
use csv::ByteRecord;
use rule_breaks::RowBreak;
use state_graph::Graph;
use std::alloc::Global;
use thiserror::Error;

/// Why claims are not audited.
#[derive(Clone, Copy, Debug, PartialEq, Eq, Error)]
pub enum AuditError {
    /// The first row of the claims that is wrong, and its first wrong part.
    #[error("row {row} is wrong in part {part}", row = .0.row, part = .0.part)]
    Row(RowBreak),
    #[error("out of memory")]
    Memory,
}

// The claims behind the header.
fn claims_behind(
    alloc: Global,
    graph: &Graph,
    months: u32,
    rows: &[ByteRecord],
) -> Result<Vec<Claimed>, AuditError>
    requires names { length graph.now.names < 2 ^ 32 }
    requires header { 0 < length rows.now }
    ensures ok { IfOk result (λ claims. AreClaims months graph.now.names (map fields_of rows.now) claims.items) }
    ensures err { IfErr result (TellsFault months graph.now.names (map fields_of rows.now)) }
{
    let mut claims = Vec::new(alloc);
    for i in 1..rows.len() {
        match claim_of(graph, months, &rows[i]) {
            Ok(claimed) => {
                if claims.push(claimed).is_err() {
                    return Err(AuditError::Memory);
                }
            }
            Err(fault) => {
                return Err(AuditError::Row(RowBreak {
                    row: i as u64,
                    part: fault.part(),
                }));
            }
        }
    }
    Ok(claims)
}

// The claims of all records.
fn claims_of(
    alloc: Global,
    graph: &Graph,
    months: u32,
    rows: &[ByteRecord],
) -> Result<Vec<Claimed>, AuditError>
    requires names { length graph.now.names < 2 ^ 32 }
    ensures ok { IfOk result
        (λ claims. HaveHeader (map fields_of rows.now)
        × AreClaims months graph.now.names (map fields_of rows.now) claims.items) }
    ensures err { IfErr result (TellsWrong months graph.now.names (map fields_of rows.now)) }
{
    if rows.is_empty() || !is_header(&rows[0]) {
        return Err(AuditError::Row(RowBreak { row: 0, part: 0 }));
    }
    claims_behind(alloc, graph, months, rows)
}

/// The claims of a CSV text about a product of so many months, in their order, or its first wrong row.
pub fn read_claims(
    alloc: Global,
    graph: &Graph,
    months: u32,
    csv: &[u8],
) -> Result<Vec<Claimed>, AuditError>
    requires names { length graph.now.names < 2 ^ 32 }
    ensures ok { IfOk result (λ claims. AreClaimsIn months graph.now.names csv.now claims.items) }
    ensures err { IfErr result (TellsWrongIn months graph.now.names csv.now) }
{
    let Ok(rows) = all_rows(alloc, csv) else {
        return Err(AuditError::Memory);
    };
    claims_of(alloc, graph, months, &rows)
}
