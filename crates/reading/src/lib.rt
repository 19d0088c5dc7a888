//! Reading a file: one record by its line, or all of it.

#![tactic(auto)]

pub mod read;
pub mod record;
pub mod records;
pub mod summary;
