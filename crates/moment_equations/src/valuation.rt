//! Tables of both moments and of variances, by date and state.

ghost use Rattle.std.specs.Prelude.{◌≡◌, ◌+◌, ◌*◌, ◌/◌, ◌^◌, ◌<◌, ◌≤◌, pos, IfOk, OnErr, length, replicate};
ghost use Rattle.named_numbers.specs.Numbers.{cells_of_month, least_degree, highest_degree};
ghost use Rattle.cell_coeffs.specs.PairRows.{IsMadeForMoments};
ghost use Rattle.limit_laws.specs.Modulus.{ReservesConverge, SecondMomentsConverge};
ghost use Rattle.limit_laws.specs.Defect.{NearlySolvesThiele, NearlySolvesNorberg};
ghost use Rattle.model_specs.specs.Payments.{payment_plan};
ghost use Rattle.thiele_backward.specs.Results.{AreConstantMonths};
ghost use Rattle.moment_equations.specs.Dates.{HaveDatesFrom};
ghost use Rattle.moment_equations.specs.Results.{AreMoments};

use crate::ends::Moment;
use crate::equations::runs_obey_norberg;
use crate::month::month_over;
use crate::tables::keep_date;
use cell_coeffs::moments_system_for;
use fixed_interval::{MomentTable, Printed, Table};
use linear_system::CellSystem;
use named_numbers::LEAST_DEGREE;
use rate_bounds::Admitted;
use std::alloc::{AllocError, Global};
use std::sync::ledger::Ledger;
use taylor_step::{Steps, Work};

// Ends that are not written yet.
const NOTHING: Printed = Printed { lo: 0, hi: 0 };

// So many zeros.
fn zeros(alloc: Global, count: usize) -> Result<Vec<i128>, AllocError>
    ensures { IfOk result (λ v. v.items ≡ replicate count (pos 0)) }
{
    let v = vec![in alloc; 0; count]?;
    Ok(v)
}

// Goes back from the term to issue, writes each date that the tables have, and answers the greatest degree of the
// steps. Takes no memory.
fn sweep<L: Ledger>(
    adm: &Admitted,
    every: u32,
    system: &mut CellSystem,
    mid: &mut [i128],
    work: &mut Work,
    first: &mut [Printed],
    second: &mut [Printed],
    variance: &mut [Printed],
    steps: &mut Steps<L>,
) -> u8
    requires every { 0 < every }
    requires made { IsMadeForMoments adm.now system.old }
    requires mid { mid.old ≡ replicate (length adm.now.states + length adm.now.states) (pos 0) }
    requires work { work.old ≡ length adm.now.states + length adm.now.states }
    requires first { length first.old ≡ (adm.now.months / every + 1) * length adm.now.states }
    requires second { length second.old ≡ (adm.now.months / every + 1) * length adm.now.states }
    requires variance { length variance.old ≡ (adm.now.months / every + 1) * length adm.now.states }
    requires count { steps.old + cells_of_month * adm.now.months < 2 ^ 63 }
    ensures dates { HaveDatesFrom adm.now every 0 result first.new second.new variance.new }
    ensures least { least_degree ≤ result }
    ensures highest { result ≤ highest_degree }
    ensures constant { AreConstantMonths adm.now (payment_plan adm.now) → result ≤ least_degree + 1 }
    ensures count { steps.new ≡ steps.old + cells_of_month * adm.now.months }
{
    let months = adm.product().months();
    let mut degree = LEAST_DEGREE;
    keep_date(Moment::First, first, every, adm, months, mid);
    keep_date(Moment::Second, second, every, adm, months, mid);
    keep_date(Moment::Variance, variance, every, adm, months, mid);
    for done in 0..months {
        let date = months - 1 - done;
        let answered = month_over(adm, date, system, mid, work, steps);
        degree = degree.max(answered);
        keep_date(Moment::First, first, every, adm, date, mid);
        keep_date(Moment::Second, second, every, adm, date, mid);
        keep_date(Moment::Variance, variance, every, adm, date, mid);
    }
    degree
}

/// The first moments, second moments and variances of the payments after the dates 0, `every`, 2 `every` and so on, up
/// to the term, in all states and each without the lump of its date: first moments in millionths of a minor unit, the
/// others in whole squared minor units, all rounded outward. It takes 32 steps a month, and memory before the first
/// step.
pub fn moments<L: Ledger>(
    alloc: Global,
    adm: &Admitted,
    every: u32,
    steps: &mut Steps<L>,
) -> Result<MomentTable, AllocError>
    requires every { 0 < every }
    requires count { steps.old + cells_of_month * adm.now.months < 2 ^ 63 }
    ensures moments { IfOk result (AreMoments adm.now every) }

    // Where all rates and payments are constant over the term.
    ensures constant { AreConstantMonths adm.now (payment_plan adm.now)
        → IfOk result (λ table. table.first.degree ≤ least_degree + 1) }

    // The moments of two degrees from 8 on differ, the first ones by at most G W / 2^13, divided by 8^n, the second
    // ones by at most 4^g Ws / 2^13, divided by 8^n, W and Ws being the radii of the date. The run of degree n solves
    // Thiele's and Norberg's equations in each cell but for a defect of at most 8^-n.
    ensures first_modulus { ReservesConverge adm.now (payment_plan adm.now) }
    ensures modulus { SecondMomentsConverge adm.now }
    ensures first_defect { NearlySolvesThiele adm.now (payment_plan adm.now) }
    ensures defect { NearlySolvesNorberg adm.now }
    ensures count { IfOk result (λ table. steps.new ≡ steps.old + cells_of_month * adm.now.months) }
    ensures refused { OnErr result (steps.new ≡ steps.old) }
{
    runs_obey_norberg(adm);
    let product = adm.product();
    let states = product.graph().states();
    let count = (product.months() / every + 1) as usize * states;
    let mut system = moments_system_for(alloc, product)?;
    let mut work = Work::new(alloc, 2 * states)?;
    let mut mid = zeros(alloc, 2 * states)?;
    let mut first = vec![in alloc; NOTHING; count]?;
    let mut second = vec![in alloc; NOTHING; count]?;
    let mut variance = vec![in alloc; NOTHING; count]?;
    let degree = sweep(
        adm,
        every,
        &mut system,
        &mut mid,
        &mut work,
        &mut first,
        &mut second,
        &mut variance,
        steps,
    );
    Ok(MomentTable {
        first: table(degree, every, states, first),
        second: table(degree, every, states, second),
        variance: table(degree, every, states, variance),
    })
}

// A table of ends.
fn table(degree: u8, every: u32, states: usize, cells: Vec<Printed>) -> Table
    ensures degree { result.degree ≡ degree }
    ensures every { result.every ≡ every }
    ensures states { result.states ≡ states }
    ensures cells { result.cells.items ≡ cells.items }
{
    Table {
        degree,
        every,
        states,
        cells,
    }
}
