//! What a kind of field is, and what is written once for all kinds: taking and judging a field, reading and spelling a row
//! of them.

#![tactic(auto)]

pub mod kind;
pub mod layout;
pub mod own;
pub mod shape;
