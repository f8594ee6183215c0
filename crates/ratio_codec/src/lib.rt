// One ratio of the ratios' field (document 01, "Ratios"): its form against the window, its bytes, and reading them back.
// A window is a slice with the oldest ratio first; the definitions have the newest first. Internal: callers meet each `requires`.
// How long a window is at most is a requires and no type: it is a part of the run's own list, taken anew for each ratio.
#![tactic(auto)]

pub mod read;
pub mod search;
pub mod write;

pub use read::{read_one_open, read_one_strict};
pub use write::encode;

// The first byte of an xor form at place 0: below it a first byte is a place.
pub const XOR: usize = 128;

// The first byte of an exception.
pub const EXCEPTION: usize = 255;
