// What the programs' texts are made of: hex of two capital digits, decimals, and texts put one behind the other.
//
// What is put stands whole or, without room, not at all; `has_room` tells which.
#![tactic(auto)]

pub mod hex;
mod lay;
pub mod page;

pub use page::Page;
