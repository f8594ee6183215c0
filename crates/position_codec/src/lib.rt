// The coder and the reader of positions in either form (document 01, "Positions", and document 02, No. 3): the first two positions take 64 bits
// each, every other point the code of its step by the first row of the form's table that holds it, and 0 bits fill the last byte. Internal: callers
// meet each `requires`.
#![tactic(auto)]

mod coded; // coded positions, known to be sound
mod pair; // two positions, and the step after them
mod row; // the rows of the tables of steps
mod table; // the tables: where a code begins, and the code of a step
mod write; // positions written
mod read; // positions read
mod recode; // positions of one form coded in the other

pub use coded::CodedPositions;
pub use read::{check_positions, get_positions};
pub use recode::{RecodeError, recode_positions};
pub use write::{first_outside, put_positions};
