//! Definitions of the model: products, payments, rules, ledgers, runs, and what a printed row holds.
#![tactic(auto)]
