// Rules for proofs by hand of functions that the borrow checker does not cover: what each such walk begins and ends with. It has no function, and no
// crate rests on it.
#![tactic(auto)]
