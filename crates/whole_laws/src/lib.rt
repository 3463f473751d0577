//! Whole numbers and lists by place: definitions and laws that speak of nothing else.
#![tactic(auto)]
