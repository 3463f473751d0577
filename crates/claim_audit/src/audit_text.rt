//! The text of an audit.

ghost use Rattle.std.specs.Prelude.{◌≡◌, ◌++◌, ◌<◌, All, length, OnOk, IfOk};
ghost use Rattle.claim_audit.specs.AuditText.{AreAboutStates, are_same, audit_text, claim_line, claim_lines};
ghost use Rattle.claim_audit.specs.AuditText.{claim_numbers, claim_subject, degree_line, end_line};
ghost use Rattle.claim_audit.specs.AuditText.{mark_word, marked, name_line, number_field};

use crate::auditing::Audited;
use crate::finding::Finding;
use crate::findings::Claim;
use decimal_out::{push_millionths, push_whole};
use product_model::Product;
use std::alloc::{AllocError, Global};

impl Finding {
    fn word(self) -> &'static [u8]
        ensures { result.now ≡ mark_word self }
    {
        match self {
            Finding::Yes => b"yes",
            Finding::No => b"no",
            Finding::Undecided => b"undecided",
        }
    }

    fn is(self, other: Finding) -> bool
        ensures { result ≡ are_same self other }
    {
        match (self, other) {
            (Finding::Yes, Finding::Yes) => true,
            (Finding::No, Finding::No) => true,
            (Finding::Undecided, Finding::Undecided) => true,
            _ => false,
        }
    }
}

// How many claims have this mark.
fn count_of(claims: &[Claim], mark: Finding) -> usize
    ensures { result ≡ marked mark claims.now }
{
    claims.iter().filter(|claim| claim.mark.is(mark)).count()
}

// Appends what a claim is about.
fn push_subject(out: &mut Vec<u8>, product: &Product, claim: &Claim) -> Result<(), AllocError>
    requires { claim.now.state < length product.now.states }
    ensures { OnOk result (out.new.items ≡ out.old.items ++ claim_subject product.now claim.now) }
{
    push_whole(out, claim.month)?;
    out.push(b' ')?;
    out.extend_from_slice(product.graph().name(claim.state as usize))?;
    out.push(b' ')?;
    Ok(())
}

// Appends a number of millionths and a space.
fn push_number(out: &mut Vec<u8>, number: i128) -> Result<(), AllocError>
    ensures { OnOk result (out.new.items ≡ out.old.items ++ number_field number) }
{
    push_millionths(out, number)?;
    out.push(b' ')?;
    Ok(())
}

// Appends the numbers of a claim.
fn push_numbers(out: &mut Vec<u8>, claim: &Claim) -> Result<(), AllocError>
    ensures { OnOk result (out.new.items ≡ out.old.items ++ claim_numbers claim.now) }
{
    push_number(out, claim.claim)?;
    push_number(out, claim.lo)?;
    push_number(out, claim.hi)?;
    Ok(())
}

// Appends the line of a claim.
fn push_claim(out: &mut Vec<u8>, product: &Product, claim: &Claim) -> Result<(), AllocError>
    requires { claim.now.state < length product.now.states }
    ensures { OnOk result (out.new.items ≡ out.old.items ++ claim_line product.now claim.now) }
{
    push_subject(out, product, claim)?;
    push_numbers(out, claim)?;
    out.extend_from_slice(claim.mark.word())?;
    out.push(b'\n')?;
    Ok(())
}

// Appends the lines of the claims.
fn push_claims(out: &mut Vec<u8>, product: &Product, claims: &[Claim]) -> Result<(), AllocError>
    requires { All (λ claim. claim.state < length product.now.states) claims.now }
    ensures { OnOk result (out.new.items ≡ out.old.items ++ claim_lines product.now claims.now) }
{
    for i in 0..claims.len() {
        push_claim(out, product, &claims[i])?;
    }
    Ok(())
}

// Appends the first line.
fn push_name(out: &mut Vec<u8>, product: &Product) -> Result<(), AllocError>
    ensures { OnOk result (out.new.items ≡ out.old.items ++ name_line product.now) }
{
    out.extend_from_slice(b"audit ")?;
    out.extend_from_slice(product.name())?;
    out.push(b'\n')?;
    Ok(())
}

// Appends the second line.
fn push_degree(out: &mut Vec<u8>, degree: u8, eps: i128) -> Result<(), AllocError>
    ensures { OnOk result (out.new.items ≡ out.old.items ++ degree_line degree eps) }
{
    out.extend_from_slice(b"degree ")?;
    push_whole(out, degree)?;
    out.extend_from_slice(b" eps ")?;
    push_millionths(out, eps)?;
    out.push(b'\n')?;
    Ok(())
}

// Appends the last line.
fn push_end(out: &mut Vec<u8>, claims: &[Claim]) -> Result<(), AllocError>
    ensures { OnOk result (out.new.items ≡ out.old.items ++ end_line claims.now) }
{
    out.extend_from_slice(b"end yes ")?;
    push_whole(out, count_of(claims, Finding::Yes))?;
    out.extend_from_slice(b" no ")?;
    push_whole(out, count_of(claims, Finding::No))?;
    out.extend_from_slice(b" undecided ")?;
    push_whole(out, count_of(claims, Finding::Undecided))?;
    out.push(b'\n')?;
    Ok(())
}

/// The text of an audit of claims to a distance of `eps` millionths: the product's name, the degree and the distance, a
/// line for each claim, and the number of claims with each mark.
pub fn audit_bytes(
    alloc: Global,
    product: &Product,
    eps: i128,
    audited: &Audited,
) -> Result<Vec<u8>, AllocError>
    requires { AreAboutStates product.now audited.now }
    ensures { IfOk result (λ text. text.items ≡ audit_text product.now eps audited.now) }
{
    let mut text = Vec::new(alloc);
    push_name(&mut text, product)?;
    push_degree(&mut text, audited.degree, eps)?;
    push_claims(&mut text, product, &audited.claims)?;
    push_end(&mut text, &audited.claims)?;
    Ok(text)
}
