// The text of `check`.
ghost use Rattle.std.specs.Prelude.{◌≡◌, ◌++◌, OnOk, IfOk, decimal};
ghost use Rattle.decimal_out.specs.Millionths.{millionths_of_size};
ghost use Rattle.reserve_report.specs.CheckText.{check_text, name_line, states_and_months, transitions_and_lumps};
ghost use Rattle.reserve_report.specs.CheckText.{scale_line, width_line, whole_line};
ghost use Rattle.reserve_report.specs.CheckText.{first_tolerances, second_tolerances, pattern_line};
ghost use Rattle.reserve_report.specs.Limits.{AreLimits};

use crate::limits::Limits;
use decimal_out::{push_size, push_whole};
use ledger_bounds::{tolerance_first, tolerance_second, tolerance_variance};
use payment_plan::Which;
use product_model::Product;
use rate_bounds::Admitted;
use std::alloc::{AllocError, Global};

// Appends a word and a number in decimal.
fn push_number(out: &mut Vec<u8>, word: &[u8], number: u128) -> Result<(), AllocError>
    ensures { OnOk result (out.new.items ≡ out.old.items ++ word.now ++ decimal number) }
{
    out.extend_from_slice(word)?;
    push_whole(out, number)
}

// Appends a word and a number in millionths.
fn push_width(out: &mut Vec<u8>, word: &[u8], number: u128) -> Result<(), AllocError>
    ensures { OnOk result (out.new.items ≡ out.old.items ++ word.now ++ millionths_of_size number) }
{
    out.extend_from_slice(word)?;
    push_size(out, number)
}

// Appends the line of the name.
fn push_name(out: &mut Vec<u8>, product: &Product) -> Result<(), AllocError>
    ensures { OnOk result (out.new.items ≡ out.old.items ++ name_line product.now) }
{
    out.extend_from_slice(b"check ")?;
    out.extend_from_slice(product.name())?;
    out.push(b'\n')?;
    Ok(())
}

// Appends how many states and months there are.
fn push_states(out: &mut Vec<u8>, product: &Product) -> Result<(), AllocError>
    ensures { OnOk result (out.new.items ≡ out.old.items ++ states_and_months product.now) }
{
    push_number(out, b"states ", product.graph().states() as u128)?;
    push_number(out, b" months ", u128::from(product.months()))
}

// Appends how many transitions and lumps there are.
fn push_transitions(out: &mut Vec<u8>, product: &Product) -> Result<(), AllocError>
    ensures { OnOk result (out.new.items ≡ out.old.items ++ transitions_and_lumps product.now) }
{
    push_number(out, b" transitions ", product.transitions() as u128)?;
    push_number(out, b" lumps ", product.plan().lumps().len() as u128)?;
    out.push(b'\n')?;
    Ok(())
}

// Appends the line of the scale and the bound.
fn push_scale(out: &mut Vec<u8>, product: &Product, limits: &Limits) -> Result<(), AllocError>
    requires { AreLimits product.now limits.now }
    ensures { OnOk result (out.new.items ≡ out.old.items ++ scale_line product.now) }
{
    push_number(out, b"scale ", u128::from(limits.scale))?;
    push_number(out, b" bound ", limits.bound1024)?;
    out.push(b'\n')?;
    Ok(())
}

// Appends a line of a word and a number in millionths.
fn push_width_line(out: &mut Vec<u8>, word: &[u8], width: u128) -> Result<(), AllocError>
    ensures { OnOk result (out.new.items ≡ out.old.items ++ width_line word.now width) }
{
    push_width(out, word, width)?;
    out.push(b'\n')?;
    Ok(())
}

// Appends a line of a word and a whole number.
fn push_whole_line(out: &mut Vec<u8>, word: &[u8], width: u128) -> Result<(), AllocError>
    ensures { OnOk result (out.new.items ≡ out.old.items ++ whole_line word.now width) }
{
    push_number(out, word, width)?;
    out.push(b'\n')?;
    Ok(())
}

// Appends the tolerances in millionths.
fn push_first(out: &mut Vec<u8>, product: &Product, limits: &Limits) -> Result<(), AllocError>
    requires { AreLimits product.now limits.now }
    ensures { OnOk result (out.new.items ≡ out.old.items ++ first_tolerances product.now) }
{
    let value = tolerance_first(limits.radius, limits.scale);
    push_width_line(out, b"tolerance value ", value)?;
    let occupancy = tolerance_first(limits.radius_forward, 0);
    push_width_line(out, b"tolerance occupancy ", occupancy)?;
    Ok(())
}

// Appends the tolerances in squared minor units.
fn push_second(out: &mut Vec<u8>, product: &Product, limits: &Limits) -> Result<(), AllocError>
    requires { AreLimits product.now limits.now }
    ensures { OnOk result (out.new.items ≡ out.old.items ++ second_tolerances product.now) }
{
    let second = tolerance_second(limits.radius_second, limits.scale);
    push_whole_line(out, b"tolerance second ", second)?;
    let variance = tolerance_variance(limits.radius_second, limits.radius, limits.scale);
    push_whole_line(out, b"tolerance variance ", variance)
}

// Appends the line of the premium pattern.
fn push_pattern(out: &mut Vec<u8>, product: &Product, limits: &Limits) -> Result<(), AllocError>
    requires { AreLimits product.now limits.now }
    ensures { OnOk result (out.new.items ≡ out.old.items ++ pattern_line product.now) }
{
    push_number(out, b"pattern scale ", u128::from(limits.pattern_scale))?;
    push_width(
        out,
        b" tolerance ",
        tolerance_first(limits.radius, limits.pattern_scale),
    )?;
    out.push(b'\n')?;
    Ok(())
}

// The text of `check` for a product with these limits.
fn limits_text(alloc: Global, product: &Product, limits: &Limits) -> Result<Vec<u8>, AllocError>
    requires { AreLimits product.now limits.now }
    ensures { IfOk result (λ text. text.items ≡ check_text product.now) }
{
    let mut text = Vec::new(alloc);
    push_name(&mut text, product)?;
    push_states(&mut text, product)?;
    push_transitions(&mut text, product)?;
    push_scale(&mut text, product, limits)?;
    push_first(&mut text, product, limits)?;
    push_second(&mut text, product, limits)?;
    push_pattern(&mut text, product, limits)?;
    Ok(text)
}

// The limits of an admitted product.
fn limits_of(admitted: &Admitted) -> Limits
    ensures { AreLimits admitted.now result }
{
    Limits {
        scale: admitted.scale(Which::Benefits),
        bound1024: admitted.bound1024(Which::Benefits),
        radius: admitted.radius(0),
        radius_forward: admitted.radius_forward(admitted.product().months()),
        radius_second: admitted.radius_second(0),
        pattern_scale: admitted.scale(Which::Pattern),
    }
}

/// The text of `check`: how exact each answer about the product will be.
pub fn check_bytes(alloc: Global, admitted: &Admitted) -> Result<Vec<u8>, AllocError>
    ensures { IfOk result (λ text. text.items ≡ check_text admitted.now) }
{
    limits_text(alloc, admitted.product(), &limits_of(admitted))
}
