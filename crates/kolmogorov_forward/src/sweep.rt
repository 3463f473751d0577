//! Sweeps.

ghost use Rattle.std.specs.Prelude.{◌≡◌, ℕ, ◌+◌, ◌*◌, ◌^◌, ◌<◌, ◌≤◌, pos, ◌+ℤ◌, IfOk, length, IsTrue};
ghost use Rattle.std.specs.Prelude.{slice_index_or, slice_set, replicate};
ghost use Rattle.named_numbers.specs.Numbers.{cells_of_month, highest_degree};
ghost use Rattle.model_specs.specs.Ledgers.{radius_forward};
ghost use Rattle.model_specs.specs.Payments.{payment_plan};
ghost use Rattle.model_specs.specs.Runs.{probability};
ghost use Rattle.model_specs.specs.Stretches.{is_constant_month};
ghost use Rattle.fixed_interval.specs.Intervals.{LiesIn, HasEndsUpTo};
ghost use Rattle.kolmogorov_forward.specs.Sweeps.{begun_sweep, month_later};

use crate::month::month_over;
use cell_coeffs::forward_system_for;
use fixed_interval::Interval;
use linear_system::CellSystem;
use named_numbers::LEAST_DEGREE;
use product_model::Product;
use rate_bounds::Admitted;
use std::alloc::{AllocError, Global};
use std::marker::Model;
use std::snapshot::Snapshot;
use std::sync::ledger::Ledger;
use taylor_step::{Steps, Work};

// A probability of 1, in units of 2^-64.
const CERTAIN: i128 = 1 << 64;

/// The probabilities of all states at a date, and what it takes to go on. Contracts see of which product it is, its
/// date, and the greatest degree so far.
#[derive(Drop)]
pub struct Sweep {
    product: Snapshot<Product>,
    date: u32,
    degree: u8,
    radius: u128,
    system: CellSystem,
    work: Work,
    mid: Vec<i128>,
}

impl Model for Sweep {
    ghost use Rattle.kolmogorov_forward.specs.Sweeps.{ForwardSweep, KeepsRuns};

    ghost Value = { ForwardSweep };

    ghost view = { λ s. record { product = s.product.value; date = s.date; degree = s.degree } };

    ghost invariant = { λ s. KeepsRuns (record { product = s.product.value; date = s.date; degree = s.degree })
        s.radius s.system s.work s.mid.items };
}

impl Sweep {
    /// Begins at issue, in the start state. From here on each month of the term is gone over without memory.
    pub fn prepare(alloc: Global, adm: &Admitted) -> Result<Sweep, AllocError>
        ensures { IfOk result (λ s. s ≡ begun_sweep adm.now) }
    {
        let product = adm.product();
        let states = product.graph().states();
        let system = forward_system_for(alloc, product)?;
        let work = Work::new(alloc, states)?;
        let mid = all_in(alloc, states, product.start())?;
        let valued = Snapshot::of(product);
        let radius = adm.radius_forward(0);
        Ok(Sweep {
            product: valued,
            date: 0,
            degree: LEAST_DEGREE,
            radius,
            system,
            work,
            mid,
        })
    }

    /// The date, in months from issue.
    pub fn date(&self) -> u32
        ensures { result ≡ self.now.date }
    {
        self.date
    }

    /// The greatest degree of the steps so far, and 8 where there was none.
    pub fn degree(&self) -> u8
        ensures { result ≡ self.now.degree }
    {
        self.degree
    }

    /// Goes on for one month, by a step for each of its 32 cells. Takes no memory.
    pub fn month_forward<L: Ledger>(&mut self, adm: &Admitted, steps: &mut Steps<L>)
        requires left { self.old.date < self.old.product.months }
        requires product { adm.now ≡ self.old.product }
        requires count { steps.old + cells_of_month < 2 ^ 63 }
        ensures later { self.new ≡ month_later self.old self.new.degree }
        ensures least { self.old.degree ≤ self.new.degree }
        ensures highest { self.new.degree ≤ highest_degree }
        ensures count { steps.new ≡ steps.old + cells_of_month }

        // Where nothing varies over the month.
        ensures constant { IsTrue (is_constant_month self.old.product (payment_plan self.old.product) self.old.date)
            → self.new.degree ≡ self.old.degree }
    {
        let degree = month_over(
            adm,
            self.date,
            self.degree,
            &mut self.system,
            &mut self.mid,
            &mut self.work,
            steps,
        );
        let date = self.date + 1;
        let radius = adm.radius_forward(date);
        self.date = date;
        self.degree = degree;
        self.radius = radius;
    }

    /// The probability of a state at the date, in units of 2^-64. Takes no memory.
    pub fn enclosure(&self, state: usize) -> Interval
        requires { state < length self.now.product.states }
        ensures width { result.hi ≡ result.lo +ℤ pos (2 * radius_forward self.now.product self.now.date) }
        ensures small { HasEndsUpTo (2 ^ 122) result }
        ensures probabilities { (n : ℕ) → self.now.degree ≤ n
            → LiesIn (probability self.now.product n self.now.date state) result }
    {
        Interval::around(number_of(&self.mid, state), self.radius, 0)
    }
}

// A probability of 1 in a state and 0 in the others.
fn all_in(alloc: Global, states: usize, state: usize) -> Result<Vec<i128>, AllocError>
    requires { state < states }
    ensures { IfOk result (λ v. v.items ≡ slice_set (replicate states (pos 0)) state (pos (2 ^ 64))) }
{
    let mut numbers = vec![in alloc; 0; states]?;
    numbers[state] = CERTAIN;
    Ok(numbers)
}

// The number of a state.
fn number_of(numbers: &[i128], state: usize) -> i128
    requires { state < length numbers.now }
    ensures { result ≡ slice_index_or numbers.now state (pos 0) }
{
    numbers[state]
}
