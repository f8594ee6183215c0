// The points of a record: the fields of the positions and of the ratios, past its front.
ghost use Rattle.record_parts.specs.Fields.{ratios_by, CountFound, RoomToRead, PointsRead};

use super::coding::{Reading, form_at, read_positions, read_ratios};
use position_format::Form;
use refusals::Refusal;

// Positions and ratios: the offset of the ratios' field, and the offset past it, in 32 bits as `FieldBody` has them, and the form of the positions.
#[derive(Clone, Copy)]
pub struct Points {
    pub from: u32,
    pub end: u32,
    pub form: Form,
}

// The points past a count, whose field stands at `place` and ends at `at`, the ratios strictly or by the open rule. They are put at the front of each
// output that has room for them; read strictly they need none, and open reading needs room for the ratios. Count, place and offset are
// three arguments: a front as one costs the loop over the positions registers.
pub fn read_points(
    reading: Reading,
    input: &[u8],
    count: usize,
    place: usize,
    at: usize,
    positions: &mut [u64],
    ratios: &mut [u64],
) -> Result<Points, Refusal>
    requires { CountFound input.now count place at × RoomToRead reading count ratios.old }
    ensures { PointsRead (ratios_by reading) input.now positions.old ratios.old result positions.new ratios.new }
{
    let form = form_at(input, at);
    let from = read_positions(form, input, count, place, at, positions)?;
    let end = read_ratios(reading, input, count, from as usize, ratios)?;
    Ok(Points { from, end, form })
}
