//! Products with some other parts.

ghost use Rattle.std.specs.Prelude.{◌≡◌, IfOk};
ghost use Rattle.model_specs.specs.RecordRules.{IsWellFormed};
ghost use Rattle.payment_plan.specs.Records.{lumps_of, sojourns_of};
ghost use Rattle.file_changes.specs.Charges as charges;
ghost use Rattle.product_model.specs.Parts.{FitTogether, parts_of, product_of_parts};
ghost use Rattle.product_model.specs.Views.{graph_of, payments_of};

use crate::copies::{curve_again, graph_again, lumps, pattern, rates_again, sojourns, sums};
use curve_pieces::Curve;
use payment_plan::{Lump, Plan, StepAmount};
use product_model::Product;
use std::alloc::{AllocError, Global};

// The name.
fn name_of(alloc: Global, product: &Product) -> Result<Vec<u8>, AllocError>
    ensures { IfOk result (λ name. name.items ≡ product.now.name) }
{
    product.name().to_vec(alloc)
}

// The payments.
fn plan_of(alloc: Global, product: &Product) -> Result<Plan, AllocError>
    ensures { IfOk result (λ plan. plan ≡ payments_of product.now) }
{
    let plan = product.plan();
    Plan::new(
        alloc,
        product.graph().states(),
        product.months(),
        sums(alloc, plan, product.transitions())?,
        sojourns(alloc, plan)?,
        lumps(alloc, plan)?,
        pattern(alloc, plan)?,
    )
}

/// A product over another denominator, with another force of interest and other intensities.
pub(crate) fn with_basis(
    alloc: Global,
    product: &Product,
    den: i64,
    interest: Curve,
    rates: Vec<Curve>,
) -> Result<Product, AllocError>
    requires { FitTogether (parts_of product.now.name (graph_of product.now) product.now.start product.now.months
        den interest rates.items (payments_of product.now)) }
    ensures { IfOk result (λ changed. changed ≡ product_of_parts (parts_of product.now.name (graph_of product.now)
        product.now.start product.now.months den interest rates.items (payments_of product.now))) }
{
    let name = name_of(alloc, product)?;
    let graph = graph_again(alloc, product.graph())?;
    let plan = plan_of(alloc, product)?;
    let start = product.start();
    let months = product.months();
    Ok(Product::new(name, graph, start, months, den, interest, rates, plan))
}

// The payments with other sojourns and lumps.
fn plan_with_payments(
    alloc: Global,
    product: &Product,
    sojourns: Vec<(usize, Vec<StepAmount>)>,
    lumps: Vec<Lump>,
) -> Result<Plan, AllocError>
    requires { IsWellFormed (charges.with_sojourns (sojourns_of sojourns.items)
        (charges.with_lumps (lumps_of lumps.items) product.now)) }
    ensures { IfOk result (λ plan. plan ≡ payments_of (charges.with_sojourns (sojourns_of sojourns.items)
        (charges.with_lumps (lumps_of lumps.items) product.now))) }
{
    let plan = product.plan();
    Plan::new(
        alloc,
        product.graph().states(),
        product.months(),
        sums(alloc, plan, product.transitions())?,
        sojourns,
        lumps,
        pattern(alloc, plan)?,
    )
}

// A product with other sojourns and lumps.
fn with_payments(
    alloc: Global,
    product: &Product,
    sojourns: Vec<(usize, Vec<StepAmount>)>,
    lumps: Vec<Lump>,
) -> Result<Product, AllocError>
    requires { IsWellFormed (charges.with_sojourns (sojourns_of sojourns.items)
        (charges.with_lumps (lumps_of lumps.items) product.now)) }
    ensures { IfOk result (λ changed. changed ≡ charges.with_sojourns (sojourns_of sojourns.items)
        (charges.with_lumps (lumps_of lumps.items) product.now)) }
{
    let name = name_of(alloc, product)?;
    let graph = graph_again(alloc, product.graph())?;
    let plan = plan_with_payments(alloc, product, sojourns, lumps)?;
    let interest = curve_again(alloc, product.interest())?;
    let rates = rates_again(alloc, product)?;
    let start = product.start();
    let months = product.months();
    let den = product.den();
    Ok(Product::new(name, graph, start, months, den, interest, rates, plan))
}

/// A product with other lumps.
pub(crate) fn with_lumps(
    alloc: Global,
    product: &Product,
    lumps: Vec<Lump>,
) -> Result<Product, AllocError>
    requires { IsWellFormed (charges.with_lumps (lumps_of lumps.items) product.now) }
    ensures { IfOk result (λ changed. changed ≡ charges.with_lumps (lumps_of lumps.items) product.now) }
{
    let sojourns = sojourns(alloc, product.plan())?;
    with_payments(alloc, product, sojourns, lumps)
}

/// A product with other sojourn payments.
pub(crate) fn with_sojourns(
    alloc: Global,
    product: &Product,
    sojourns: Vec<(usize, Vec<StepAmount>)>,
) -> Result<Product, AllocError>
    requires { IsWellFormed (charges.with_sojourns (sojourns_of sojourns.items) product.now) }
    ensures { IfOk result (λ changed. changed ≡ charges.with_sojourns (sojourns_of sojourns.items) product.now) }
{
    let lumps = lumps(alloc, product.plan())?;
    with_payments(alloc, product, sojourns, lumps)
}
