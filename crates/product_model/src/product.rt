//! Products.

ghost use Rattle.std.specs.Prelude.{◌≡◌, ◌<◌, length, pos};
ghost use Rattle.model_specs.specs.Product.{transition_at};
ghost use Rattle.model_specs.specs.RecordRules.{IsWellFormed};
ghost use Rattle.product_model.specs.Parts.{FitTogether, parts_of, product_of_parts};
ghost use Rattle.product_model.specs.Views.{curve_of, graph_of, payments_of};

use crate::lawful::{curve_is_lawful, curves_are_lawful, graph_is_lawful, plan_is_lawful};
use curve_pieces::Curve;
use payment_plan::Plan;
use state_graph::Graph;
use std::marker::Model;

/// A product: it obeys rules 3 to 14.
#[derive(Drop)]
pub struct Product {
    name: Vec<u8>,
    graph: Graph,
    start: usize,
    months: u32,
    den: i64,
    interest: Curve,
    rates: Vec<Curve>,
    plan: Plan,
}

impl Model for Product {
    ghost use Rattle.model_specs.specs.Product as model;
    ghost use Rattle.product_model.specs.Parts.{KeepsRules, parts_of, product_of_parts};

    ghost Value = { model.Product };

    ghost view = { λ p. product_of_parts
        (parts_of p.name.items p.graph p.start p.months p.den p.interest p.rates.items p.plan) };

    ghost invariant = { λ p. KeepsRules
        (parts_of p.name.items p.graph p.start p.months p.den p.interest p.rates.items p.plan) };
}

impl Product {
    /// The product of these parts, where `rates` has a curve for each transition of the graph, in their order. Takes no
    /// memory and refuses nothing.
    pub fn new(
        name: Vec<u8>,
        graph: Graph,
        start: usize,
        months: u32,
        den: i64,
        interest: Curve,
        rates: Vec<Curve>,
        plan: Plan,
    ) -> Product
        requires { FitTogether (parts_of name.items graph start months den interest rates.items plan) }
        ensures { result ≡ product_of_parts (parts_of name.items graph start months den interest rates.items plan) }
    {
        graph_is_lawful(&graph);
        curve_is_lawful(&interest);
        curves_are_lawful(&rates);
        plan_is_lawful(&plan);
        Product {
            name,
            graph,
            start,
            months,
            den,
            interest,
            rates,
            plan,
        }
    }

    /// The name, as in the file.
    pub fn name(&self) -> &[u8]
        ensures { result.now ≡ self.now.name }
    {
        &self.name
    }

    /// The states and the transitions between them.
    pub fn graph(&self) -> &Graph
        ensures graph { result.now ≡ graph_of self.now }
        ensures lawful { IsWellFormed self.now }
    {
        &self.graph
    }

    /// The state in which a life starts.
    pub fn start(&self) -> usize
        ensures value { result ≡ self.now.start }
        ensures lawful { IsWellFormed self.now }
    {
        self.start
    }

    /// The term, in months.
    pub fn months(&self) -> u32
        ensures value { result ≡ self.now.months }
        ensures lawful { IsWellFormed self.now }
    {
        self.months
    }

    /// The denominator of the coefficients of all curves.
    pub fn den(&self) -> i64
        ensures value { result ≡ pos self.now.den }
        ensures lawful { IsWellFormed self.now }
    {
        self.den
    }

    /// The force of interest, per year over `den`.
    pub fn interest(&self) -> &Curve
        ensures curve { result.now ≡ curve_of self.now self.now.interest }
        ensures lawful { IsWellFormed self.now }
    {
        &self.interest
    }

    /// The intensity of a transition, per year over `den`.
    pub fn rate(&self, transition: usize) -> &Curve
        requires { transition < length self.now.transitions }
        ensures curve { result.now ≡ curve_of self.now (transition_at self.now transition).rate }
        ensures lawful { IsWellFormed self.now }
    {
        &self.rates[transition]
    }

    /// How many transitions there are.
    pub fn transitions(&self) -> usize
        ensures count { result ≡ length self.now.transitions }
        ensures lawful { IsWellFormed self.now }
    {
        self.rates.len()
    }

    /// The payments.
    pub fn plan(&self) -> &Plan
        ensures payments { result.now ≡ payments_of self.now }
        ensures lawful { IsWellFormed self.now }
    {
        &self.plan
    }
}
