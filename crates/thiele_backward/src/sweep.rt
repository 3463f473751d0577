//! Sweeps.

ghost use Rattle.std.specs.Prelude.{◌≡◌, ℕ, ◌+◌, ◌-◌, ◌^◌, ◌<◌, ◌≤◌, pos, ◌+ℤ◌, ◌*ℤ◌, IfOk, OnErr, length, IsTrue};
ghost use Rattle.std.specs.Prelude.{unsigned_abs};
ghost use Rattle.std.specs.Prelude.{slice_index_or, replicate};
ghost use Rattle.named_numbers.specs.Numbers.{least_degree, highest_degree};
ghost use Rattle.frac_laws.specs.Fraction.{whole, ◌+ℚ◌};
ghost use Rattle.frac_laws.specs.Lists.{Vector, number_at};
ghost use Rattle.model_specs.specs.Ledgers.{radius};
ghost use Rattle.model_specs.specs.Payments.{lump_at};
ghost use Rattle.model_specs.specs.Runs.{reserve};
ghost use Rattle.model_specs.specs.Stretches.{is_constant_month};
ghost use Rattle.fixed_interval.specs.Intervals.{LiesInside, HasEndsUpTo};
ghost use Rattle.rate_bounds.specs.MonthPay.{plan_named};
ghost use Rattle.constant_months.specs.Costs.{cell_steps};
ghost use Rattle.thiele_backward.specs.Costs.{maps_cost};
ghost use Rattle.thiele_backward.specs.MonthRuns.{IsNearAt, HasSome};
ghost use Rattle.thiele_backward.specs.StretchMaps.{RisesAtMost};
ghost use Rattle.thiele_backward.specs.Sweeps.{begun_sweep, at_term, month_earlier, plan_in, IsStart, values_from};
ghost use Rattle.thiele_backward.specs.Sweeps.{spare_of, width_of};

use crate::month::month_over;
use crate::stretch_maps::StretchMaps;
use cell_coeffs::{Job, lump_of, system_for};
use fixed_interval::Interval;
use linear_system::CellSystem;
use named_numbers::LEAST_DEGREE;
use payment_plan::Which;
use product_model::Product;
use rate_bounds::Admitted;
use std::alloc::{AllocError, Global};
use std::marker::Model;
use std::snapshot::Snapshot;
use std::sync::ledger::Ledger;
use taylor_step::{Steps, Work};

// A minor unit, in units of 2^-64.
const UNIT: i128 = 1 << 64;

/// A month that was gone back over: how many months are left, the greatest degree of its steps, and the radius, in
/// units of 2^-64.
#[derive(Clone, Copy, Debug, PartialEq, Eq)]
pub struct MonthRow {
    pub month: u32,
    pub degree: u8,
    pub radius: u128,
}

/// The values of all states at a date, before its lumps, and what it takes to go back further. Contracts see of which
/// plan of which product it is, where it began, its date, and the greatest degree so far.
#[derive(Drop)]
pub struct Sweep {
    product: Snapshot<Product>,
    which: Which,
    begun_at: Snapshot<u32>,
    begun_from: Snapshot<Vec<i128>>,
    months_left: u32,
    degree: u8,
    scale: u32,
    radius: u128,
    maps: StretchMaps,
    system: CellSystem,
    work: Work,
    mid: Vec<i128>,
}

impl Model for Sweep {
    ghost use Rattle.thiele_backward.specs.Sweeps.{BackwardSweep, KeepsSweep};

    ghost Value = { BackwardSweep };

    ghost view = { λ s. record {
      product = s.product.value;
      which = s.which;
      begun = record { months_left = s.begun_at.value; numbers = s.begun_from.value.items };
      months_left = s.months_left;
      degree = s.degree;
    } };

    ghost invariant = { λ s. KeepsSweep (record {
      product = s.product.value;
      which = s.which;
      begun = record { months_left = s.begun_at.value; numbers = s.begun_from.value.items };
      months_left = s.months_left;
      degree = s.degree;
    }) s.scale s.radius s.system s.work s.mid.items s.maps };
}

impl Sweep {
    /// Begins at the term, where all values are 0, and makes the maps of the months in which nothing varies, from as
    /// many steps as there are states and one for each stretch of them. From here on each month of the term is gone
    /// back without memory.
    pub fn prepare<L: Ledger>(
        alloc: Global,
        adm: &Admitted,
        which: Which,
        steps: &mut Steps<L>,
    ) -> Result<Sweep, AllocError>
        requires count { steps.old + maps_cost adm.now (plan_named which adm.now) < 2 ^ 63 }
        ensures begun { IfOk result (λ s. s ≡ begun_sweep adm.now which (at_term adm.now)) }
        ensures count { IfOk result (λ s. steps.new ≡ steps.old + maps_cost adm.now (plan_named which adm.now)) }
        ensures refused { OnErr result
            (RisesAtMost steps.old (maps_cost adm.now (plan_named which adm.now)) steps.new) }
    {
        let product = adm.product();
        let zeros = zeros(alloc, product.graph().states())?;
        Sweep::begin(alloc, adm, which, product.months(), zeros, steps)
    }

    // Begins at a date from numbers that are within the radius there, in units of 2^-64 at the plan's scale.
    fn begin<L: Ledger>(
        alloc: Global,
        adm: &Admitted,
        which: Which,
        months_left: u32,
        mid: Vec<i128>,
        steps: &mut Steps<L>,
    ) -> Result<Sweep, AllocError>
        requires date { months_left ≤ adm.now.months }
        requires numbers { length mid.items ≡ length adm.now.states }
        requires start { HasSome (IsNearAt adm.now (plan_named which adm.now) months_left mid.items) }
        requires count { steps.old + maps_cost adm.now (plan_named which adm.now) < 2 ^ 63 }
        ensures begun { IfOk result (λ s. s
            ≡ begun_sweep adm.now which (record { months_left = months_left; numbers = mid.items })) }
        ensures count { IfOk result (λ s. steps.new ≡ steps.old + maps_cost adm.now (plan_named which adm.now)) }
        ensures refused { OnErr result
            (RisesAtMost steps.old (maps_cost adm.now (plan_named which adm.now)) steps.new) }
    {
        let product = adm.product();
        let mut system = system_for(alloc, product, Job::First(which))?;
        let mut work = Work::new(alloc, product.graph().states())?;
        let maps = StretchMaps::make(alloc, adm, which, &mut system, &mut work, steps)?;
        let valued = Snapshot::of(product);
        let begun_at = Snapshot::of(&months_left);
        let begun_from = Snapshot::of(&mid);
        let scale = adm.scale(which);
        let radius = adm.radius(months_left);
        Ok(Sweep {
            product: valued,
            which,
            begun_at,
            begun_from,
            months_left,
            degree: LEAST_DEGREE,
            scale,
            radius,
            maps,
            system,
            work,
            mid,
        })
    }

    /// How many months are left.
    pub fn months_left(&self) -> u32
        ensures { result ≡ self.now.months_left }
    {
        self.months_left
    }

    /// Adds the lumps of the date, and goes back one month: by its map and without a step where nothing varies, and
    /// else by a step for each of its 32 cells. Takes no memory.
    pub fn month_back<L: Ledger>(&mut self, adm: &Admitted, steps: &mut Steps<L>) -> MonthRow
        requires left { 0 < self.old.months_left }
        requires product { adm.now ≡ self.old.product }
        requires count { steps.old
            + cell_steps self.old.product (plan_in self.old) (self.old.months_left - 1) < 2 ^ 63 }
        ensures earlier { self.new ≡ month_earlier self.old result.degree }
        ensures month { result.month ≡ self.new.months_left }
        ensures radius { result.radius ≡ radius self.old.product result.month }
        ensures least { least_degree ≤ result.degree }
        ensures highest { result.degree ≤ highest_degree }
        ensures count { steps.new
            ≡ steps.old + cell_steps self.old.product (plan_in self.old) (self.old.months_left - 1) }

        // Where all rates and payments of the plan are constant over the month.
        ensures constant { IsTrue (is_constant_month self.old.product (plan_in self.old) (self.old.months_left - 1))
            → result.degree ≡ least_degree }
    {
        let month = self.months_left - 1;
        let degree = month_over(
            adm,
            self.which,
            month,
            self.maps.at(month),
            &mut self.system,
            &mut self.mid,
            &mut self.work,
            steps,
        );
        let radius = adm.radius(month);
        self.months_left = month;
        self.degree = self.degree.max(degree);
        self.radius = radius;
        MonthRow {
            month,
            degree,
            radius,
        }
    }

    /// The value in a state at the date, without the date's lump, in units of 2^-64 minor units. Takes no memory.
    pub fn enclosure(&self, state: usize) -> Interval
        requires { state < length self.now.product.states }
        ensures width { result.hi ≡ result.lo +ℤ pos (width_of self.now) }
        ensures small { HasEndsUpTo (2 ^ 122) result }
        ensures values { (n : ℕ) (v : Vector) → self.now.degree ≤ n → IsStart self.now v
            → LiesInside (spare_of self.now) (number_at (values_from self.now n v) state) result }

        // From the term these values are the reserves.
        ensures reserves { self.now.begun ≡ at_term self.now.product → (n : ℕ) → self.now.degree ≤ n
            → LiesInside (spare_of self.now)
            (reserve self.now.product (plan_in self.now) n self.now.months_left state) result }
    {
        Interval::around(number_of(&self.mid, state), self.radius, self.scale)
    }

    /// The value in a state just before the date, with the date's lump. Takes no memory.
    pub fn enclosure_before(&self, adm: &Admitted, state: usize) -> Interval
        requires state { state < length self.now.product.states }
        requires product { adm.now ≡ self.now.product }
        ensures width { result.hi ≡ result.lo +ℤ pos (width_of self.now) }
        ensures small { HasEndsUpTo (2 ^ 123) result }
        ensures values { (n : ℕ) (v : Vector) → self.now.degree ≤ n → IsStart self.now v
            → LiesInside (spare_of self.now) (number_at (values_from self.now n v) state
            +ℚ whole (lump_at (plan_in self.now) self.now.months_left state)) result }
        ensures reserves { self.now.begun ≡ at_term self.now.product → (n : ℕ) → self.now.degree ≤ n
            → LiesInside (spare_of self.now)
            (reserve self.now.product (plan_in self.now) n self.now.months_left state
            +ℚ whole (lump_at (plan_in self.now) self.now.months_left state)) result }
    {
        let lumps = adm.product().plan().lumps_at(self.which, self.months_left);
        let units = units_of(lump_of(lumps, state));
        moved(self.enclosure(state), units)
    }
}

// So many zeros.
fn zeros(alloc: Global, count: usize) -> Result<Vec<i128>, AllocError>
    ensures { IfOk result (λ v. v.items ≡ replicate count (pos 0)) }
{
    let v = vec![in alloc; 0; count]?;
    Ok(v)
}

// The number of a state.
fn number_of(numbers: &[i128], state: usize) -> i128
    requires { state < length numbers.now }
    ensures { result ≡ slice_index_or numbers.now state (pos 0) }
{
    numbers[state]
}

// An amount in minor units, in units of 2^-64.
fn units_of(amount: i64) -> i128
    requires { unsigned_abs amount ≤ 2 ^ 56 }
    ensures value { result ≡ amount *ℤ pos (2 ^ 64) }
    ensures size { unsigned_abs result ≤ 2 ^ 120 }
{
    i128::from(amount) * UNIT
}

// The interval moved by so many units.
fn moved(value: Interval, units: i128) -> Interval
    requires value { HasEndsUpTo (2 ^ 122) value }
    requires units { unsigned_abs units ≤ 2 ^ 120 }
    ensures lo { result.lo ≡ value.lo +ℤ units }
    ensures hi { result.hi ≡ value.hi +ℤ units }
    ensures small { HasEndsUpTo (2 ^ 123) result }
{
    Interval {
        lo: value.lo + units,
        hi: value.hi + units,
    }
}
