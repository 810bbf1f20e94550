// Kinds of label: the trait of a kind with its laws, and cost, flags and definitions. No heap.
#![tactic(auto)]

mod bits;
pub mod cost;
pub mod definitions;
pub mod flags;
pub mod kind;
mod label_bytes;
pub mod parties;
