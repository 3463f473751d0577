//! Admitted products.

ghost use Rattle.std.specs.Prelude.{◌≡◌, pos, ◌*◌, ◌^◌, ◌<◌, ◌≤◌};
ghost use Rattle.model_specs.specs.Payments.{payment_plan, pattern_plan};
ghost use Rattle.model_specs.specs.MonthNumbers.{rho, iota, nu};
ghost use Rattle.model_specs.specs.Growth.{kappa40, pay};
ghost use Rattle.model_specs.specs.Ledgers as ledgers;
ghost use Rattle.model_specs.specs.ValuationRules.{IsAdmissible};
ghost use Rattle.ledger_laws.specs.MonthLaws.{HasSmallNumbers};
ghost use Rattle.rate_bounds.specs.MonthPay.{plan_named};
ghost use Rattle.rate_bounds.specs.Admissions.{KeepsLedgers};

use crate::bounds::MonthBounds;
use crate::ledgers::Ledgers;
use ledger_laws::{
    admissible_products_obey, month_numbers_are_small, pattern_bound_stays_small, pay_is_small,
    plan_bound_stays_small, radii_stay_small, second_stays_small,
};
use payment_plan::Which;
use product_model::Product;
use std::marker::Model;

/// A product that can be valued: it obeys rules 3 to 18. It keeps the numbers of each month and the ledgers of each
/// date.
#[derive(Drop)]
pub struct Admitted {
    product: Product,
    ledgers: Ledgers,
}

impl Model for Admitted {
    ghost use Rattle.model_specs.specs.Product as model;
    ghost use Rattle.rate_bounds.specs.Admissions.{KeepsLedgers};

    ghost Value = { model.Product };

    ghost view = { λ a. a.product };

    ghost invariant = { λ a. KeepsLedgers a.product a.ledgers };
}

impl Admitted {
    /// The product with its ledgers.
    pub(crate) fn of(product: Product, ledgers: Ledgers) -> Admitted
        requires { KeepsLedgers product ledgers }
        ensures { result ≡ product }
    {
        Admitted { product, ledgers }
    }

    /// The product.
    pub fn product(&self) -> &Product
        ensures product { result.now ≡ self.now }
        ensures admissible { IsAdmissible self.now }
    {
        &self.product
    }

    /// The bounds of a month.
    pub fn bounds(&self, month: u32) -> &MonthBounds
        requires { month < self.now.months }
        ensures rho { result.now.rho ≡ rho self.now month }
        ensures iota { result.now.iota ≡ pos (iota self.now month) }
        ensures nu { result.now.nu ≡ pos (nu self.now month) }
        ensures kappa40 { result.now.kappa40 ≡ kappa40 self.now month }
        ensures pay { result.now.pay1024 ≡ pay self.now (payment_plan self.now) month }
        ensures pattern { result.now.pattern1024 ≡ pay self.now (pattern_plan self.now) month }
        ensures small { HasSmallNumbers self.now month }
        ensures pay_most { result.now.pay1024 ≤ 144 * 10 ^ 12 }
        ensures pattern_most { result.now.pattern1024 ≤ 6 }
    {
        admissible_products_obey();
        month_numbers_are_small();
        pay_is_small();
        &self.ledgers.months[month as usize]
    }

    /// The scale g of a plan: its moments are kept divided by 2^g.
    pub fn scale(&self, which: Which) -> u32
        ensures value { result ≡ ledgers.scale self.now (plan_named which self.now) }
        ensures most { result ≤ 56 }
    {
        admissible_products_obey();
        plan_bound_stays_small();
        pattern_bound_stays_small();
        match which {
            Which::Benefits => self.ledgers.benefits.scale,
            Which::Pattern => self.ledgers.pattern.scale,
        }
    }

    /// The bound of a plan's moments, in 1/1024 minor units.
    pub fn bound1024(&self, which: Which) -> u128
        ensures value { result ≡ ledgers.bound1024 self.now (plan_named which self.now) }
        ensures most { result ≤ 2 ^ 66 }
    {
        admissible_products_obey();
        plan_bound_stays_small();
        pattern_bound_stays_small();
        match which {
            Which::Benefits => self.ledgers.benefits.bound1024,
            Which::Pattern => self.ledgers.pattern.bound1024,
        }
    }

    /// The backward radius at a date, in units of 2^-64.
    pub fn radius(&self, month: u32) -> u128
        requires { month ≤ self.now.months }
        ensures value { result ≡ ledgers.radius self.now month }
        ensures most { result < 2 ^ 39 }
    {
        admissible_products_obey();
        radii_stay_small();
        self.ledgers.radii[(self.product.months() - month) as usize]
    }

    /// The second radius of the payment plan at a date before its lumps, in units of 2^-64.
    pub fn radius_second(&self, month: u32) -> u128
        requires { month ≤ self.now.months }
        ensures value { result ≡ ledgers.second_radius self.now month }
        ensures most { result < 2 ^ 41 }
    {
        admissible_products_obey();
        second_stays_small();
        self.ledgers.seconds[(self.product.months() - month) as usize]
    }

    /// The forward radius at a date, in units of 2^-64.
    pub fn radius_forward(&self, month: u32) -> u128
        requires { month ≤ self.now.months }
        ensures value { result ≡ ledgers.radius_forward self.now month }
        ensures most { result < 2 ^ 39 }
    {
        admissible_products_obey();
        radii_stay_small();
        self.ledgers.forwards[month as usize]
    }
}
