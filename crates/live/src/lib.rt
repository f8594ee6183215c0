// Coding ratios one at a time: adding one at each tick, and stepping through a body of them. Document 01, "Ratios", Live and Stepping.
// The modules adding and stepping change a kept state that the caller lends; the module reader has a reader that holds its body.
#![tactic(auto)]

pub mod adding;
pub mod reader;
pub mod stepping;
