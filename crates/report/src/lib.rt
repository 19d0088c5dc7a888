//! How answers and records are printed.

#![tactic(auto)]

pub mod answer;
pub mod record;
