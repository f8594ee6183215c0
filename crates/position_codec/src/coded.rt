// Coded positions, as they stand in the input.
ghost use Rattle.std.specs.Prelude.{false, ◌≡◌, ◌≤◌};
ghost use Rattle.lists.specs.Optional.{missing};
ghost use Rattle.limits.specs.Points.{max_points};
ghost use Rattle.position_format.specs.Tables.{table_of};
ghost use Rattle.position_format.specs.Positions.{read_positions};

use position_format::Form;

// A body that is known to be the coding of `count` positions in a form, and of no more than a record can have.
#[derive(Clone, Copy)]
pub struct CodedPositions<'a> {
    pub form: Form,
    pub body: &'a [u8],
    pub count: usize,
    pub ghost sound: { missing (read_positions (table_of form) count body.now) ≡ false },
    pub ghost few: { count ≤ max_points },
}
