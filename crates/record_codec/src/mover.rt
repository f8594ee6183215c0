// Moving: a record is checked, and then the codes of its positions are put with the other form's prefixes, one by one. Its ratios' field is copied as it
// stands, since it is the same in both. No memory is kept for the points: what a move takes of the stack does not grow with the count.
ghost use Rattle.std.specs.Prelude.{◌≡◌, ◌≢◌, ◌++◌, IfErr};
ghost use Rattle.position_codec.specs.Coded.{positions_of};
ghost use Rattle.record_format.specs.Answers.{move_answer};
ghost use Rattle.record_format.specs.Fields.{laid};
ghost use Rattle.record_format.specs.Moves.{move_of};
ghost use Rattle.record_parts.specs.Leads.{lead_fields, RecodedAs};
ghost use Rattle.record_codec.specs.Answers.{Moves};
ghost use Rattle.record_codec.specs.Movable.{Movable, Opened};

use position_codec::{CodedPositions, RecodeError};
use position_format::Form;
use record_format::{HEAD_SIZE, Moved};
use record_parts::coding::{Reading, is_in, points_of};
use record_parts::front::{Front, read_front};
use record_parts::points::read_points;
use record_parts::putting::put_recoded_lead;
use refusals::{Cause, Refusal};

// The fields of a record up to and with the positions', which are given coded and are written in the form `to`, and then the ratios' field, which is
// given as bytes.
fn put_moved(
    rate: u32,
    side: u32,
    coded: CodedPositions<'_>,
    to: Form,
    field: &[u8],
    out: &mut [u8],
) -> Result<usize, RecodeError>
    ensures { RecodedAs to (positions_of coded.entry) (laid (lead_fields rate side to (positions_of coded.entry)) ++ field.now) result out.old out.new }
{
    let lead_end = put_recoded_lead(rate, side, coded, to, out)?;
    match outputs::put_copy(field, &mut out[lead_end..]) {
        Some(field_size) => Ok(lead_end + field_size),
        None => Err(RecodeError::NoRoom),
    }
}

// The move of a record whose front is read and whose form is not the one moved to. First the points are checked, which needs no output. 3 refuses more
// of them than a run in the form can have. Then the code of each position is put as the form has it. A step that the form's table does not hold is 5,
// also where there is no room: 5 comes before 6.
fn move_points(form: Form, input: &[u8], front: Front, out: &mut [u8]) -> Result<Moved, Refusal>
    requires { Movable form input.now front }
    ensures { Moves (move_of form input.now out.old) out.old result out.new }
{
    let count = front.count as usize;
    let positions_at = front.end as usize;
    let points = read_points(
        Reading::Strict,
        input,
        count,
        front.place as usize,
        positions_at,
        &mut [],
        &mut [],
    )?;
    if points_of(form) < count {
        return Err(Cause::TooManyPoints.at(0));
    }
    let ratios_at = points.from as usize;
    let end = points.end as usize;
    let coded = CodedPositions {
        form: points.form,
        body: &input[positions_at + HEAD_SIZE..ratios_at],
        count,
    };
    let moved = put_moved(
        front.rate,
        front.side,
        coded,
        form,
        &input[ratios_at..end],
        out,
    );
    match moved {
        Ok(length) => Ok(Moved { length, used: end }),
        Err(RecodeError::Outside(i)) => Err(Cause::StepOutside.at(i)),
        Err(RecodeError::NoRoom) => Err(Cause::NoRoom.at(0)),
    }
}

// The front of a record that is to be moved to a form. 11 for a record that is in that form already stands before all tests past the head of the
// positions' field.
fn open_front(form: Form, input: &[u8]) -> Result<Front, Refusal>
    ensures { Opened form input.now result }
{
    let front = read_front(0, input)?;
    let at = front.end as usize;
    if is_in(form, input, at) {
        return Err(Cause::OtherTag.at(at));
    }
    Ok(front)
}

// The record at the front of the input, moved to a form.
fn move_into(form: Form, input: &[u8], out: &mut [u8]) -> Result<Moved, Refusal>
    ensures { Moves (move_of form input.now out.old) out.old result out.new }
{
    let front = open_front(form, input)?;
    move_points(form, input, front, out)
}

// Moves the record at the front of the input to a form, into the output: a check's tests without an expected rate, with 11 for a record that is in that
// form already; then to the wide form 3 above 3,500 points, and to the old one 5 for the first step outside document 01's table; and 6. It answers the
// length of the record written and the bytes used. On a refusal the output is 0 from end to end.
pub fn move_to(form: Form, input: &[u8], out: &mut [u8]) -> Result<Moved, Refusal>
    ensures answer { move_answer result ≡ (move_of form input.now out.old).answer }
    ensures output { out.new ≡ (move_of form input.now out.old).output }
    ensures numbered { IfErr result (λ refusal. refusal.number ≢ 0) }
{
    match move_into(form, input, out) {
        Ok(moved) => Ok(moved),
        Err(refusal) => {
            out.fill(0);
            Err(refusal)
        }
    }
}
