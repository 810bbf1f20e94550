// A setup file, layer by layer: blocks, records, and the names in them. No heap, no copy of the file.
#![tactic(auto)]

pub mod blocks;
mod bytes;
mod checks;
pub mod faults;
mod kinds;
mod layout;
pub mod names;
pub mod reader;
pub mod records;
