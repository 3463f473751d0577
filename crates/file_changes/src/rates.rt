//! Changed intensities.

ghost use Rattle.std.specs.Prelude.{◌≡◌, ◌<◌, All, IfOk, IfSome, IfNone, length, map, if◌then◌else◌};
ghost use Rattle.std.specs.List.{list_any};
ghost use Rattle.model_specs.specs.Product.{transition_at};
ghost use Rattle.product_model.specs.Views.{curve_of};
ghost use Rattle.file_changes.specs.Asks.{IsSmallCurve};
ghost use Rattle.file_changes.specs.BasisChanges as basis;

use crate::curves::changed_curve;
use curve_pieces::Curve;
use product_model::{Product, pairs_agree};
use std::alloc::{AllocError, Global};

// Whether a transition leads from the state with one name to the state with another.
fn leads(product: &Product, transition: usize, from: &[u8], to: &[u8]) -> bool
    requires { transition < length product.now.transitions }
    ensures { result ≡ basis.leads product.now from.now to.now (transition_at product.now transition) }
{
    pairs_agree();
    let graph = product.graph();
    let (first, second) = graph.pair(transition);
    graph.name(first) == from && graph.name(second) == to
}

/// Whether there is a transition from the state with one name to the state with another.
pub(crate) fn has_transition(product: &Product, from: &[u8], to: &[u8]) -> bool
    ensures { result ≡ list_any (basis.leads product.now from.now to.now) product.now.transitions }
{
    for transition in 0..product.transitions() {
        if leads(product, transition, from, to) {
            return true;
        }
    }
    false
}

/// The factors of the intensities: one between the two named states, and another elsewhere.
#[derive(Drop)]
pub(crate) struct Factors<'a> {
    pub from: &'a [u8],
    pub to: &'a [u8],
    pub factor: i128,
    pub others: i128,
}

// The factor of a transition's intensity.
fn factor_of(product: &Product, transition: usize, factors: &Factors) -> i128
    requires { transition < length product.now.transitions }
    ensures { result ≡ (if basis.leads product.now factors.now.from.now factors.now.to.now
        (transition_at product.now transition) then factors.now.factor else factors.now.others) }
{
    if leads(product, transition, factors.from, factors.to) {
        factors.factor
    } else {
        factors.others
    }
}

// The intensity of a transition, times its factor; none where a coefficient has more than 64 bits or breaks rule 9.
fn changed_rate(
    alloc: Global,
    product: &Product,
    transition: usize,
    factors: &Factors,
) -> Result<Option<Curve>, AllocError>
    requires { transition < length product.now.transitions }
    ensures changed { IfOk result (λ found. IfSome found (λ changed. changed ≡ curve_of product.now
        (basis.changed_rate product.now factors.now.from.now factors.now.to.now factors.now.factor
        factors.now.others (transition_at product.now transition)))) }
    ensures small { IfOk result (λ found. IfSome found (λ changed. IsSmallCurve changed.months changed.pieces)) }
    ensures too_large { IfOk result (λ found. IfNone found (¬ IsSmallCurve product.now.months
        (basis.changed_rate product.now factors.now.from.now factors.now.to.now factors.now.factor
        factors.now.others (transition_at product.now transition)))) }
{
    let factor = factor_of(product, transition, factors);
    changed_curve(alloc, product.rate(transition), factor, 0, 0)
}

/// All intensities, each times its factor; none where a coefficient has more than 64 bits or breaks rule 9.
pub(crate) fn changed_rates(
    alloc: Global,
    product: &Product,
    factors: &Factors,
) -> Result<Option<Vec<Curve>>, AllocError>
    ensures changed { IfOk result (λ found. IfSome found (λ rates. rates.items
        ≡ map (λ t. curve_of product.now (basis.changed_rate product.now factors.now.from.now factors.now.to.now
        factors.now.factor factors.now.others t)) product.now.transitions)) }
    ensures small { IfOk result (λ found. IfSome found (λ rates.
        All (λ rate. IsSmallCurve rate.months rate.pieces) rates.items)) }
    ensures too_large { IfOk result (λ found. IfNone found (¬ All (λ t. IsSmallCurve product.now.months
        (basis.changed_rate product.now factors.now.from.now factors.now.to.now factors.now.factor
        factors.now.others t)) product.now.transitions)) }
{
    let mut rates = Vec::new(alloc);
    for transition in 0..product.transitions() {
        match changed_rate(alloc, product, transition, factors)? {
            Some(rate) => rates.push(rate)?,
            None => return Ok(None),
        }
    }
    Ok(Some(rates))
}
