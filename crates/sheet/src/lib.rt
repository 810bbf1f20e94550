// A diagram in the knee: the sheet, the shelf of its labels, and what a setup file says of both, as far as it is begun. No heap.
#![tactic(auto)]

mod draft;
mod recorded;
mod records;
mod sets;
pub mod sheet;
pub mod shelf;
mod steps;
mod table;
