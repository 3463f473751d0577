//! Checks claimed reserves against the exact ones.
#![tactic(auto)]

mod audit_text;
mod auditing;
mod claims;
mod finding;
mod findings;
mod laws;
mod reading;
mod rows;

pub use audit_text::audit_bytes;
pub use auditing::{Audited, audit};
pub use claims::{Claimed, Fault, claim_of, is_header, month};
pub use finding::{Finding, mark};
pub use findings::{Claim, findings_of};
pub use laws::texts_have_one_reading;
pub use reading::{AuditError, read_claims};
pub use rows::all_rows;

#[cfg(test)]
mod tests;
