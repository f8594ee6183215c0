// The parts of a record: its fields, its front and its points, read and written. Internal: some functions have a `requires`, which their callers meet.
// A record and an offset in it go as two arguments, and no rest of a slice: a refusal's place counts from the record's front.
#![tactic(auto)]

pub mod coding;
mod field;
pub mod front;
pub mod points;
pub mod putting;
