//! Pairs of whole numbers as fractions, and a solver of ring identities.
#![tactic(auto)]
