// The totals of a portfolio by group.
ghost use Rattle.std.specs.Prelude.{◌≡◌, ◌≤◌, length, All, IfErr, IfOk};
ghost use Rattle.state_graph.specs.StateGraphs.{texts_of};
ghost use Rattle.portfolio_run.specs.Named.{AreNamed, AreTotalsOf};
ghost use Rattle.portfolio_run.specs.Stored.{most_bytes};
ghost use Rattle.portfolio_run.specs.Sums.{HasPlace, TellsMissing};
ghost use Rattle.portfolio_run.specs.Totals.{greatest_degree};

use crate::policies::Policy;
use crate::reading::PolicyError;
use crate::sums::{Sum, sums_of};
use crate::valued::ValuedFile;
use std::alloc::{AllocError, Global};

// The least degree of a table of reserves.
const LEAST_DEGREE: u8 = 8;

/// The total of a group: the ends of its value, and how far they may lie apart, in millionths of a minor unit.
#[derive(Debug, Drop)]
pub struct Total {
    pub name: Vec<u8>,
    pub lo: i128,
    pub hi: i128,
    /// The sum of the tolerances of its contracts.
    pub tol: u128,
}

/// The totals of a portfolio. They hold for the runs of this degree and of each greater one.
#[derive(Debug, Drop)]
pub struct Totals {
    /// The greatest degree of the files' tables, and 8 where there is none.
    pub degree: u8,
    /// How many holdings there are.
    pub policies: u64,
    /// In the order in which the groups are first seen.
    pub groups: Vec<Total>,
}

// The greatest degree of valued files.
fn degree_of(valued: &[ValuedFile]) -> u8
    ensures { result ≡ greatest_degree valued.now }
{
    let mut degree = LEAST_DEGREE;
    for i in 0..valued.len() {
        degree = degree.max(valued[i].degree());
    }
    degree
}

// The sums with the names of their groups.
fn named(alloc: Global, names: &[Vec<u8>], sums: &[Sum]) -> Result<Vec<Total>, AllocError>
    requires { length sums.now ≡ length names.now }
    ensures { IfOk result (λ totals. AreNamed (texts_of names.now) sums.now totals.items) }
{
    let mut totals = Vec::new(alloc);
    for i in 0..names.len() {
        let sum = sums[i];
        totals.push(Total {
            name: names[i].as_slice().to_vec(alloc)?,
            lo: sum.lo,
            hi: sum.hi,
            tol: sum.tol,
        })?;
    }
    Ok(totals)
}

/// The totals of holdings by their groups, or the first row whose product has not its date or its state.
pub(crate) fn totals_of(
    alloc: Global,
    groups: &[Vec<u8>],
    policies: &[Policy],
    valued: &[ValuedFile],
) -> Result<Totals, PolicyError>
    requires places { All (HasPlace (length valued.now) (length groups.now)) policies.now }
    requires few { length policies.now ≤ most_bytes }
    ensures ok { IfOk result (AreTotalsOf (texts_of groups.now) policies.now valued.now) }
    ensures err { IfErr result (TellsMissing valued.now policies.now) }
{
    let sums = match sums_of(alloc, policies, valued, groups.len()) {
        Ok(sums) => sums,
        Err(why) => return Err(why),
    };
    let Ok(named) = named(alloc, groups, &sums) else {
        return Err(PolicyError::Memory);
    };
    Ok(Totals {
        degree: degree_of(valued),
        policies: policies.len() as u64,
        groups: named,
    })
}
