//! Numbered rows in rising order, and the one search that finds them.

#![tactic(auto)]

pub mod book;
pub mod numbered;
pub mod rows;
