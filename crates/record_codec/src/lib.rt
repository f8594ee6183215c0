// Records of runs: writing, checking, fetching, open reading, and moving a record to the other form.
#![tactic(auto)]

mod mover;
mod reader;
mod writer;

pub use mover::move_to;
pub use reader::{check, check_number, fetch, read_open};
pub use writer::write;
