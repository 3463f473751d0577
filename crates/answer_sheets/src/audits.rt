// The sheet of an audit.
ghost use Rattle.std.specs.Prelude.{◌≡◌, ◌<◌, length, IfOk};
ghost use Rattle.claim_audit.specs.AuditText.{mark_word, AreAboutStates};
ghost use Rattle.row_sheets.specs.Sheets.{cells_of};
ghost use Rattle.answer_sheets.specs.AuditSheet.{audit_sheet_of, claim_row};

use crate::fields::{amount_field, state_field, word_field};
use claim_audit::{Audited, Claim, Finding};
use product_model::Product;
use row_sheets::{Field, Sheet};
use std::alloc::{AllocError, Global};

const HEAD: &[&str] = &["month", "state", "claim", "lo", "hi", "mark"];

// The word of a mark.
fn mark_name(mark: Finding) -> &'static str
    ensures { result.now ≡ mark_word mark }
{
    match mark {
        Finding::Yes => "yes",
        Finding::No => "no",
        Finding::Undecided => "undecided",
    }
}

// A claim as fields.
fn row_fields(alloc: Global, product: &Product, claim: &Claim) -> Result<Vec<Field>, AllocError>
    requires { claim.now.state < length product.now.states }
    ensures { IfOk result (λ fields. cells_of fields.items ≡ claim_row product.now claim.now) }
{
    let mut fields = Vec::new(alloc);
    fields.push(Field::Whole(u64::from(claim.month)))?;
    fields.push(state_field(alloc, product, claim.state)?)?;
    fields.push(amount_field(alloc, claim.claim)?)?;
    fields.push(amount_field(alloc, claim.lo)?)?;
    fields.push(amount_field(alloc, claim.hi)?)?;
    fields.push(word_field(alloc, mark_name(claim.mark))?)?;
    Ok(fields)
}

/// The sheet of an audit: a row for each claim, in their order. It fails only for want of memory.
pub fn audit_sheet(alloc: Global, product: &Product, audited: &Audited) -> Result<Sheet, AllocError>
    requires { AreAboutStates product.now audited.now }
    ensures { IfOk result (λ sheet. sheet ≡ audit_sheet_of product.now audited.now) }
{
    let mut sheet = Sheet::new(alloc, HEAD);
    for i in 0..audited.claims.len() {
        sheet.push(row_fields(alloc, product, &audited.claims[i])?)?;
    }
    Ok(sheet)
}
