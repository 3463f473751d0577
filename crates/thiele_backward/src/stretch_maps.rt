//! The maps of the months in which nothing varies: one for each stretch of them.

ghost use Rattle.std.specs.Prelude.{◌≡◌, ◌+◌, ◌^◌, ◌<◌, suc, length, IsTrue, IfOk, OnErr, MatchOption};
ghost use Rattle.linear_system.specs.Setting.{HaveSamePlaces};
ghost use Rattle.model_specs.specs.Stretches.{is_constant_month, continues_stretch};
ghost use Rattle.rate_bounds.specs.MonthPay.{plan_named};
ghost use Rattle.cell_coeffs.specs.Rows.{IsMadeForFirst};
ghost use Rattle.constant_months.specs.Costs.{map_steps};
ghost use Rattle.thiele_backward.specs.Costs.{maps_cost};
ghost use Rattle.thiele_backward.specs.MonthMaps.{IsMapOf};
ghost use Rattle.thiele_backward.specs.StretchMaps.{Varies, IsMonthsMap, HasMap, EndWithMapBefore, KeepFirstMaps};
ghost use Rattle.thiele_backward.specs.StretchMaps.{RisesAtMost};

use cell_coeffs::{Job, fill};
use linear_system::CellSystem;
use month_maps::MonthMap;
use month_stretches::{continues_stretch, is_constant_month};
use payment_plan::Which;
use product_model::Product;
use rate_bounds::Admitted;
use std::alloc::{AllocError, Global};
use std::marker::Model;
use std::snapshot::Snapshot;
use std::sync::ledger::Ledger;
use taylor_step::{Steps, Work};

fn is_constant(adm: &Admitted, which: Which, month: u32) -> bool
    requires { month < adm.now.months }
    ensures { result ≡ is_constant_month adm.now (plan_named which adm.now) month }
{
    is_constant_month(adm.product(), which, month)
}

fn continues(adm: &Admitted, which: Which, month: u32) -> bool
    requires { month < adm.now.months }
    ensures { result ≡ continues_stretch adm.now (plan_named which adm.now) month }
{
    continues_stretch(adm.product(), which, month)
}

// The map of a month in which nothing varies, from a step for each state and one more. Takes no step where memory is
// refused.
fn map_of_month<L: Ledger>(
    alloc: Global,
    adm: &Admitted,
    which: Which,
    month: u32,
    system: &mut CellSystem,
    work: &mut Work,
    steps: &mut Steps<L>,
) -> Result<MonthMap, AllocError>
    requires month { month < adm.now.months }
    requires constant { IsTrue (is_constant_month adm.now (plan_named which adm.now) month) }
    requires made { IsMadeForFirst adm.now system.old }
    requires work { work.old ≡ length adm.now.states }
    requires count { steps.old + length adm.now.states + 1 < 2 ^ 63 }
    ensures map { IfOk result (IsMapOf adm.now (plan_named which adm.now) month) }
    ensures count { IfOk result (λ map. steps.new ≡ steps.old + length adm.now.states + 1) }
    ensures refused { OnErr result (steps.new ≡ steps.old) }
    ensures work { work.new ≡ work.old }
    ensures places { HaveSamePlaces system.old system.new }
{
    fill(
        adm.product(),
        adm.scale(which),
        month,
        0,
        Job::First(which),
        system,
    );
    let map = MonthMap::make(alloc, system, work, steps)?;
    Ok(map)
}

// The place of a month's map, and none where something varies. A month that goes on with its stretch has the last map;
// one that begins a stretch gets a map of its own behind the others.
fn place_for<L: Ledger>(
    alloc: Global,
    adm: &Admitted,
    which: Which,
    month: u32,
    maps: &mut Vec<MonthMap>,
    system: &mut CellSystem,
    work: &mut Work,
    steps: &mut Steps<L>,
) -> Result<Option<usize>, AllocError>
    requires month { month < adm.now.months }
    requires before { EndWithMapBefore adm.now (plan_named which adm.now) month maps.old.items }
    requires made { IsMadeForFirst adm.now system.old }
    requires work { work.old ≡ length adm.now.states }
    requires count { steps.old + map_steps adm.now (plan_named which adm.now) month < 2 ^ 63 }
    ensures place { IfOk result (HasMap adm.now (plan_named which adm.now) month maps.new.items) }
    ensures last { IfOk result (λ place.
        EndWithMapBefore adm.now (plan_named which adm.now) (suc month) maps.new.items) }
    ensures kept { KeepFirstMaps maps.old.items maps.new.items }
    ensures count { IfOk result (λ place. steps.new ≡ steps.old + map_steps adm.now (plan_named which adm.now) month) }
    ensures refused { OnErr result
        (RisesAtMost steps.old (map_steps adm.now (plan_named which adm.now) month) steps.new) }
    ensures work { work.new ≡ work.old }
    ensures places { HaveSamePlaces system.old system.new }
{
    if !is_constant(adm, which, month) {
        return Ok(None);
    }
    if continues(adm, which, month) {
        return Ok(Some(maps.len() - 1));
    }
    let map = map_of_month(alloc, adm, which, month, system, work, steps)?;
    maps.push(map)?;
    Ok(Some(maps.len() - 1))
}

/// The maps of all months of a plan in which nothing varies, one for each stretch, and for each month the place of its
/// map. Contracts see of which plan of which product they are.
#[derive(Drop)]
pub(crate) struct StretchMaps {
    product: Snapshot<Product>,
    which: Which,
    maps: Vec<MonthMap>,
    places: Vec<Option<usize>>,
}

impl Model for StretchMaps {
    ghost use Rattle.rate_bounds.specs.MonthPay.{plan_named};
    ghost use Rattle.thiele_backward.specs.StretchMaps.{MapsOfPlan, HaveMaps};

    ghost Value = { MapsOfPlan };

    ghost view = { λ m. record { product = m.product.value; which = m.which } };

    ghost invariant = { λ m. HaveMaps m.product.value (plan_named m.which m.product.value) m.product.value.months
        m.maps.items m.places.items };
}

impl StretchMaps {
    /// Makes the maps, by a step for each state and one more a stretch, in the room of a system and a working memory.
    pub(crate) fn make<L: Ledger>(
        alloc: Global,
        adm: &Admitted,
        which: Which,
        system: &mut CellSystem,
        work: &mut Work,
        steps: &mut Steps<L>,
    ) -> Result<StretchMaps, AllocError>
        requires made { IsMadeForFirst adm.now system.old }
        requires work { work.old ≡ length adm.now.states }
        requires count { steps.old + maps_cost adm.now (plan_named which adm.now) < 2 ^ 63 }
        ensures made { IfOk result (λ maps. maps ≡ record { product = adm.now; which = which }) }
        ensures count { IfOk result (λ maps. steps.new ≡ steps.old + maps_cost adm.now (plan_named which adm.now)) }
        ensures refused { OnErr result
            (RisesAtMost steps.old (maps_cost adm.now (plan_named which adm.now)) steps.new) }
        ensures work { work.new ≡ work.old }
        ensures places { HaveSamePlaces system.old system.new }
    {
        let mut maps = Vec::new(alloc);
        let mut places = Vec::new(alloc);
        for month in 0..adm.product().months() {
            let place = place_for(alloc, adm, which, month, &mut maps, system, work, steps)?;
            places.push(place)?;
        }
        let product = Snapshot::of(adm.product());
        Ok(StretchMaps {
            product,
            which,
            maps,
            places,
        })
    }

    /// The map of a month, and none where something varies. Takes no memory.
    pub(crate) fn at(&self, month: u32) -> Option<&MonthMap>
        requires { month < self.now.product.months }
        ensures { MatchOption result (Varies self.now.product (plan_named self.now.which self.now.product) month)
            (λ m. IsMonthsMap self.now.product (plan_named self.now.which self.now.product) month m.now) }
    {
        match self.places[month as usize] {
            Some(place) => Some(&self.maps[place]),
            None => None,
        }
    }
}
