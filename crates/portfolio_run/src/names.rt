// Different names, in the order in which they were first noted.
ghost use Rattle.std.specs.Prelude.{◌≡◌, ◌<◌, ◌^◌, [], Some, length, slice_get, IfOk, OnOk};
ghost use Rattle.state_graph.specs.StateGraphs.{texts_of};
ghost use Rattle.portfolio_run.specs.Names.{is_among, with_name};

use indexmap::IndexSet;
use std::alloc::{AllocError, Global};
use std::marker::Model;

/// Different names in the order in which they were first noted. Each is found in constant time.
#[derive(Drop)]
pub struct Names {
    set: IndexSet<Vec<u8>>,
}

impl Model for Names {
    ghost use Rattle.std.specs.Prelude.{ℕ, List};
    ghost use Rattle.state_graph.specs.StateGraphs.{texts_of};

    ghost Value = { List (List ℕ) };

    ghost view = { λ names. texts_of names.set.keys };
}

impl Names {
    /// No names.
    pub fn new(alloc: Global) -> Names
        ensures { result ≡ [] }
    {
        Names {
            set: IndexSet::new(alloc),
        }
    }

    /// How many names there are.
    pub fn len(&self) -> usize
        ensures count { result ≡ length self.now }
        ensures small { result < 2 ^ 63 }
    {
        self.set.len()
    }

    /// Whether the name was noted.
    pub fn has(&self, name: &[u8]) -> bool
        ensures { result ≡ is_among self.now name.now }
    {
        self.set.contains(name)
    }

    /// Notes a name, and answers its place among the different ones.
    pub fn note(&mut self, alloc: Global, name: &[u8]) -> Result<usize, AllocError>
        ensures noted { OnOk result (self.new ≡ with_name self.old name.now) }
        ensures place { IfOk result (λ place. slice_get self.new place ≡ Some name.now) }
    {
        let (place, _) = self.set.insert_full(name.to_vec(alloc)?)?;
        Ok(place)
    }

    /// The names in their order.
    pub fn as_slice(&self) -> &[Vec<u8>]
        ensures { texts_of result.now ≡ self.now }
    {
        self.set.as_slice()
    }
}
