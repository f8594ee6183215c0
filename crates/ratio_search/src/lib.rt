// The search for the best ratio of the window of a ratio of a run, which writing and strict reading share. Internal: callers meet each
// `requires`.
//
// Planes: beside the run's own slice the bytes of its latest ratios are kept, byte j of each ratio in a part of its own, so that one byte
// of many ratios stands together. They take one kilobyte, and are brought up to date when a search needs them.
//
// Pairs: the bytes in which a ratio with a sum of s or more differs lie within 8 - s neighbours, so of any two bytes 8 - s apart one
// agrees. The search goes from the newest ratio to the oldest. 16 slots of the planes at a time are asked whether a ratio could beat the
// best sum so far: two pairs of bytes, in vector code. A block without a suspect is passed over. In one with a suspect the xor with each
// ratio is asked the same, and its zero bytes are counted only where it may beat the best. An equal ratio ends the search.
#![tactic(auto)]

mod pairs;
mod planes;
mod search;

pub use planes::{BytePlanes, CELLS, SLOTS};
