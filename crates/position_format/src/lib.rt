// The coding of positions: the two forms that it has, definitions and laws.
#![tactic(auto)]

// The form that positions are coded in: by document 01's table of steps, or by the wide one, which has a code for every
// step between positions in range.
#[derive(Clone, Copy)]
pub enum Form {
    Old,
    Wide,
}
