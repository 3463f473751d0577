// Holdings as they are kept.
ghost use Rattle.std.specs.Prelude.{◌≡◌, ◌+◌, ◌*◌, ◌^◌, ◌<◌, ◌≤◌, ◌++◌, ◌∷◌, [], List, length, IfErr, IfOk};
ghost use Rattle.std.specs.Prelude.{OnOk, OnErr};
ghost use Rattle.portfolio_run.specs.Holdings.{Holding};
ghost use Rattle.named_numbers.specs.Numbers.{cells_of_month};
ghost use Rattle.model_specs.specs.Payments.{payment_plan};
ghost use Rattle.model_specs.specs.Stretches.{cost};
ghost use Rattle.state_graph.specs.StateGraphs.{texts_of};
ghost use Rattle.portfolio_run.specs.Readings.{files_of};
ghost use Rattle.portfolio_run.specs.Totals.{AreTotals, TellsUncovered};
ghost use Rattle.portfolio_run.specs.Stored.{most_bytes, AddsValued, AreKept, kept_holdings};
ghost use Rattle.portfolio_run.specs.TotalsText.{HaveText};

use crate::names::Names;
use crate::reading::PolicyError;
use crate::totals::{Totals, totals_of};
use crate::valued::ValuedFile;
use rate_bounds::Admitted;
use std::alloc::{AllocError, Global};
use std::marker::Model;
use std::sync::ledger::Ledger;
use taylor_step::Steps;

/// So many contracts of a product file, at a date in a state, counted to a group.
#[derive(Drop)]
pub(crate) struct Policy {
    /// The place of the file's name among the different files.
    pub file: usize,
    /// The place of the group's name among the different groups.
    pub group: usize,
    /// Months from issue.
    pub month: u32,
    /// The state's name.
    pub state: Vec<u8>,
    pub count: u32,
}

/// The holdings of a portfolio, with their different files and groups in first-seen order.
#[derive(Drop)]
pub struct Policies {
    alloc: Global,
    files: Names,
    groups: Names,
    policies: Vec<Policy>,
    valued: Vec<ValuedFile>,
}

impl Model for Policies {
    ghost use Rattle.std.specs.Prelude.{◌≤◌, length};
    ghost use Rattle.portfolio_run.specs.Totals.{AreTotals, TellsUncovered};
    ghost use Rattle.portfolio_run.specs.Stored.{most_bytes, AreKept, Portfolio, kept_holdings};

    ghost Value = { Portfolio };

    ghost view = { λ p. record {
      holdings = kept_holdings p.files p.groups p.policies.items;
      valued = p.valued.items;
    } };

    ghost invariant = { λ p. AreKept p.files p.groups p.policies.items
        (kept_holdings p.files p.groups p.policies.items) × (length p.policies.items ≤ most_bytes) };
}

impl Policies {
    /// The holdings that are kept, and no file valued.
    pub(crate) fn of(alloc: Global, files: Names, groups: Names, policies: Vec<Policy>) -> Policies
        requires kept { AreKept files groups policies.items (kept_holdings files groups policies.items) }
        requires few { length policies.items ≤ most_bytes }
        ensures holdings { result.holdings ≡ kept_holdings files groups policies.items }
        ensures none { result.valued ≡ [] }
    {
        Policies {
            alloc,
            files,
            groups,
            policies,
            valued: Vec::new(alloc),
        }
    }

    /// The names of the different files, in the order in which they are first seen.
    pub fn files(&self) -> &[Vec<u8>]
        ensures names { texts_of result.now ≡ files_of self.now.holdings }
        ensures count { length result.now ≡ length (files_of self.now.holdings) }
    {
        self.files.as_slice()
    }

    /// How many of the files are valued.
    pub fn valued(&self) -> usize
        ensures { result ≡ length self.now.valued }
    {
        self.valued.len()
    }

    /// The totals by group, where all files are valued, or the first row whose product has not its date or its state.
    pub fn totals(&self) -> Result<Totals, PolicyError>
        requires all { length self.now.valued ≡ length (files_of self.now.holdings) }
        ensures ok { IfOk result (AreTotals self.now) }
        ensures text { IfOk result HaveText }
        ensures err { IfErr result (TellsUncovered self.now) }
    {
        totals_of(
            self.alloc,
            self.groups.as_slice(),
            &self.policies,
            &self.valued,
        )
    }

    /// Values the first file that is not valued yet, by its product. It takes the steps of its reserves, and memory
    /// for those of all months. Where it fails, the file is not valued, but steps may have been made.
    pub fn value_next<L: Ledger>(
        &mut self,
        adm: &Admitted,
        steps: &mut Steps<L>,
    ) -> Result<(), AllocError>
        requires left { length self.old.valued < length (files_of self.old.holdings) }
        requires count { steps.old + cells_of_month * adm.now.months < 2 ^ 63 }
        ensures ok { OnOk result (AddsValued adm.now self.old self.new) }
        ensures err { OnErr result (self.new ≡ self.old) }
        ensures steps { steps.new ≤ steps.old + cost adm.now (payment_plan adm.now) }
    {
        let valued = ValuedFile::value(self.alloc, adm, steps)?;
        self.valued.push(valued)?;
        Ok(())
    }
}

/// Keeps one holding more.
pub(crate) fn keep(
    alloc: Global,
    files: &mut Names,
    groups: &mut Names,
    policies: &mut Vec<Policy>,
    file: &[u8],
    group: &[u8],
    month: u32,
    state: &[u8],
    count: u32,
) -> Result<(), AllocError>
    requires { count ≤ 10 ^ 6 }
    ensures kept { OnOk result ((holdings : List Holding)
        → AreKept files.old groups.old policies.old.items holdings
        → AreKept files.new groups.new policies.new.items (holdings ++
        record { file = file.now; group = group.now; month = month; state = state.now; count = count } ∷ [])) }
{
    let file = files.note(alloc, file)?;
    let group = groups.note(alloc, group)?;
    let state = state.to_vec(alloc)?;
    policies.push(Policy {
        file,
        group,
        month,
        state,
        count,
    })?;
    Ok(())
}
