// A product file as it was valued.
ghost use Rattle.std.specs.Prelude.{◌≡◌, ◌≤◌, ◌<◌, ◌+◌, ◌*◌, ◌^◌, All, length, IfErr, IfOk};
ghost use Rattle.named_numbers.specs.Numbers.{cells_of_month};
ghost use Rattle.model_specs.specs.Payments.{payment_plan};
ghost use Rattle.model_specs.specs.Stretches.{cost};
ghost use Rattle.whole_laws.specs.Whole.{list_of};
ghost use Rattle.state_graph.specs.StateGraphs.{texts_of};
ghost use Rattle.claim_audit.specs.Audits.{tolerance_at};
ghost use Rattle.portfolio_run.specs.Names.{place_in};
ghost use Rattle.portfolio_run.specs.Values.{part_of_missing, IsMissing, IsReserve, IsValued};

use fixed_interval::Table;
use ledger_bounds::tolerance_first;
use payment_plan::Which;
use product_model::Product;
use rate_bounds::Admitted;
use state_graph::Graph;
use std::alloc::{AllocError, Global};
use std::marker::Model;
use std::snapshot::Snapshot;
use std::sync::ledger::Ledger;
use taylor_step::Steps;
use thiele_backward::reserves;

/// The ends of a reserve, and how far they may lie apart, in millionths of a minor unit.
#[derive(Clone, Copy)]
pub(crate) struct Reserve {
    pub lo: i128,
    pub hi: i128,
    pub tol: u128,
}

/// What a product has not, in the order in which it is looked for.
#[derive(Clone, Copy)]
pub(crate) enum Missing {
    /// Months so late.
    Month,
    /// A state with the name.
    State,
}

impl Missing {
    /// The number of what is missing.
    pub fn part(self) -> u8
        ensures { result ≡ part_of_missing self }
    {
        match self {
            Missing::Month => 6,
            Missing::State => 7,
        }
    }
}

/// A product as it was valued: its states by their names, and the reserves of every month with their tolerances.
#[derive(Drop)]
pub(crate) struct ValuedFile {
    product: Snapshot<Product>,
    months: u32,
    states: Vec<Vec<u8>>,
    table: Table,
    tolerances: Vec<u128>,
}

impl Model for ValuedFile {
    ghost use Rattle.portfolio_run.specs.Tables.{KeepsReserves};
    ghost use Rattle.portfolio_run.specs.Values.{ValuedProduct};

    ghost Value = { ValuedProduct };

    ghost view = { λ f. record { product = f.product.value; degree = f.table.degree } };

    ghost invariant = { λ f. KeepsReserves f.product.value f.months f.states.items f.table f.tolerances.items };
}

// The names of the states.
fn names_of(alloc: Global, graph: &Graph) -> Result<Vec<Vec<u8>>, AllocError>
    ensures { IfOk result (λ names. texts_of names.items ≡ graph.now.names) }
{
    let mut names = Vec::new(alloc);
    for state in 0..graph.states() {
        names.push(graph.name(state).to_vec(alloc)?)?;
    }
    Ok(names)
}

// The tolerance of a date.
fn tolerance(adm: &Admitted, month: u32) -> u128
    requires { month ≤ adm.now.months }
    ensures value { result ≡ tolerance_at adm.now month }
    ensures small { result ≤ 2 ^ 58 }
{
    tolerance_first(adm.radius(month), adm.scale(Which::Benefits))
}

// The tolerance of each date up to the term.
fn tolerances_of(alloc: Global, adm: &Admitted) -> Result<Vec<u128>, AllocError>
    ensures values { IfOk result (λ all. all.items ≡ list_of (adm.now.months + 1) (tolerance_at adm.now)) }
    ensures small { IfOk result (λ all. All (λ tolerance. tolerance ≤ 2 ^ 58) all.items) }
{
    // The months of an admitted product are few.
    let product = adm.product();
    let mut all = Vec::new(alloc);
    for month in 0..product.months() + 1 {
        all.push(tolerance(adm, month))?;
    }
    Ok(all)
}

// The place of a name among names, or behind them.
fn place_in(names: &[Vec<u8>], name: &[u8]) -> usize
    ensures value { result ≡ place_in (texts_of names.now) name.now }
    ensures within { result ≤ length names.now }
{
    for i in 0..names.len() {
        if name == names[i].as_slice() {
            return i;
        }
    }
    names.len()
}

impl ValuedFile {
    /// Takes the reserves of every month. It takes the steps of the reserves.
    pub fn value<L: Ledger>(
        alloc: Global,
        adm: &Admitted,
        steps: &mut Steps<L>,
    ) -> Result<ValuedFile, AllocError>
        requires count { steps.old + cells_of_month * adm.now.months < 2 ^ 63 }
        ensures product { IfOk result (λ valued. valued.product ≡ adm.now) }
        ensures valued { IfOk result IsValued }
        ensures steps { steps.new ≤ steps.old + cost adm.now (payment_plan adm.now) }
    {
        let product = adm.product();
        let months = product.months();
        let states = names_of(alloc, product.graph())?;
        let tolerances = tolerances_of(alloc, adm)?;
        let table = reserves(alloc, adm, 1, steps)?;
        Ok(ValuedFile {
            product: Snapshot::of(product),
            months,
            states,
            table,
            tolerances,
        })
    }

    /// The degree from which on the reserves hold.
    pub fn degree(&self) -> u8
        ensures { result ≡ self.now.degree }
    {
        self.table.degree
    }

    /// The reserve of a date and of the state with a name, or what is missing.
    pub fn reserve(&self, month: u32, state: &[u8]) -> Result<Reserve, Missing>
        ensures ok { IfOk result (IsReserve self.now month state.now) }
        ensures err { IfErr result (IsMissing self.now.product month state.now) }
    {
        if month > self.months {
            return Err(Missing::Month);
        }
        let place = place_in(&self.states, state);
        if place == self.states.len() {
            return Err(Missing::State);
        }
        let ends = self.table.cells[month as usize * self.table.states + place];
        let tol = self.tolerances[month as usize];
        Ok(Reserve {
            lo: ends.lo,
            hi: ends.hi,
            tol,
        })
    }
}
