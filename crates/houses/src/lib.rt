//! A bank's extra rules, behind one interface.

#![tactic(auto)]

pub mod bytes;
pub mod house;
pub mod objection;
pub mod plain;
