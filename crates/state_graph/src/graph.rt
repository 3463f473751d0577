//! States and the transitions between them.

ghost use Rattle.std.specs.Prelude.{◌≡◌, ◌≢◌, ℕ, ◌<◌, ◌↔◌, All, IfOk, length, map, slice_get};
ghost use Rattle.state_graph.specs.Exits.{exits_of};
ghost use Rattle.state_graph.specs.StateGraphs.{IsGraph, edge_at, name_at, texts_of};

use crate::exits::{Edge, exit_table};
use std::alloc::{AllocError, Global};
use std::marker::Model;

/// The states of a product by their names, and its transitions as pairs of states. States and transitions are counted
/// from 0 in the order of the file.
#[derive(Drop)]
pub struct Graph {
    names: Vec<Vec<u8>>,
    edges: Vec<(usize, usize)>,
    exits: Vec<Vec<Edge>>,
}

impl Model for Graph {
    ghost use Rattle.state_graph.specs.Exits.{IsExitTable};
    ghost use Rattle.state_graph.specs.StateGraphs.{StateGraph, IsGraph, texts_of};

    ghost Value = { StateGraph };

    ghost view = { λ g. record { names = texts_of g.names.items; edges = g.edges.items } };

    ghost invariant = { λ g. IsGraph (record { names = texts_of g.names.items; edges = g.edges.items })
        × IsExitTable (record { names = texts_of g.names.items; edges = g.edges.items }) g.exits.items };
}

impl Graph {
    /// The graph with these states and transitions. It fails only for want of memory, which the exits take.
    pub fn new(
        alloc: Global,
        names: Vec<Vec<u8>>,
        edges: Vec<(usize, usize)>,
    ) -> Result<Graph, AllocError>
        requires { IsGraph (record { names = texts_of names.items; edges = edges.items }) }
        ensures { IfOk result (λ g. g ≡ record { names = texts_of names.items; edges = edges.items }) }
    {
        let exits = exit_table(alloc, &edges, names.len())?;
        Ok(Graph {
            names,
            edges,
            exits,
        })
    }

    /// How many states there are.
    pub fn states(&self) -> usize
        ensures count { result ≡ length self.now.names }
        ensures lawful { IsGraph self.now }
    {
        self.names.len()
    }

    /// How many transitions there are.
    pub fn transitions(&self) -> usize
        ensures count { result ≡ length self.now.edges }
        ensures lawful { IsGraph self.now }
    {
        self.edges.len()
    }

    /// The name of a state.
    pub fn name(&self, state: usize) -> &[u8]
        requires { state < length self.now.names }
        ensures { result.now ≡ name_at self.now state }
    {
        &self.names[state]
    }

    /// The state with a name, if there is one.
    pub fn state_of(&self, name: &[u8]) -> Option<usize>
        ensures found { (i : ℕ) → (result ≡ Some i) ↔ (slice_get self.now.names i ≡ Some name.now) }
        ensures unknown { (result ≡ None) ↔ All (λ known. known ≢ name.now) self.now.names }
    {
        for i in 0..self.states() {
            if self.name(i) == name {
                return Some(i);
            }
        }
        None
    }

    /// The states that a transition leads from and to.
    pub fn pair(&self, transition: usize) -> (usize, usize)
        requires { transition < length self.now.edges }
        ensures { result ≡ edge_at self.now.edges transition }
    {
        self.edges[transition]
    }

    /// The exits of a state, in the order of the transitions. Found in constant time.
    pub fn exits(&self, state: usize) -> &[Edge]
        requires { state < length self.now.names }
        ensures transitions { map (λ exit. exit.transition) result.now ≡ exits_of self.now.edges state }
        ensures to { All (λ exit. exit.to ≡ (edge_at self.now.edges exit.transition).1) result.now }
        ensures states { All (λ exit. exit.to < length self.now.names) result.now }
        ensures within { All (λ exit. exit.transition < length self.now.edges) result.now }
    {
        &self.exits[state]
    }
}
