//! The fields of a Direct Entry record: what may stand in one, what it means, how it is spelled, and what is wrong with it.

#![tactic(auto)]

pub mod account;
pub mod bsb;
pub mod date;
pub mod day;
pub mod fixed;
pub mod mark;
pub mod number;
#[cfg(test)]
mod tests;
pub mod text;
mod whole;
