// Fields put at the front of an output: those that hold a number, those of coded numbers, and the front of a record with its positions, which are given
// as numbers or coded in the other form.
ghost use Rattle.std.specs.Prelude.{[], ◌∷◌, ◌≡◌, ◌≤◌, length};
ghost use Rattle.bits.specs.Digits.{bytes_of};
ghost use Rattle.limits.specs.Points.{max_points};
ghost use Rattle.outputs.specs.Outputs.{over, Placed};
ghost use Rattle.position_codec.specs.Coded.{positions_of};
ghost use Rattle.position_codec.specs.Codes.{CodablePositions};
ghost use Rattle.record_format.specs.Fields.{field_of, length_size, head_size, laid};
ghost use Rattle.record_format.specs.Runs.{side_fields, positions_field, front_fields};
ghost use Rattle.record_parts.specs.Fields.{tag_of, coded_by, Codable};
ghost use Rattle.record_parts.specs.Leads.{lead_fields, RecodedAs, RecodedNowhere};

use super::coding::{Coding, put_body, tag_of};
use super::field::{LENGTH_SIZE, TAG_SIZE};
use position_codec::{CodedPositions, RecodeError};
use position_format::Form;
use record_format::{
    COUNT_SIZE, COUNT_TAG, HEAD_SIZE, RATE_SIZE, RATE_TAG, SIDE_SIZE, SIDE_TAG, form_tag,
};

// The tag and the length of a field, at the front of the output.
fn put_head(out: &mut [u8], tag: u8, n: usize)
    requires { head_size ≤ length out.old }
    ensures { out.new ≡ over (tag ∷ bytes_of length_size n) out.old }
{
    out[0] = tag;
    bits::put_bytes(out, TAG_SIZE, LENGTH_SIZE, n as u64);
}

// A field that holds a number in n bytes, at the front of the output.
fn put_number(out: &mut [u8], tag: u8, n: usize, x: u64) -> Option<usize>
    requires { n ≤ 8 }
    ensures { Placed (laid (field_of tag (bytes_of n x) ∷ [])) result out.old out.new }
{
    if out.len() < n + HEAD_SIZE {
        return None;
    }
    put_head(out, tag, n);
    bits::put_bytes(out, HEAD_SIZE, n, x);
    Some(n + HEAD_SIZE)
}

// A field of coded numbers, at the front of the output: the body past the head, and then the head. It is called from two places, so that it is not made
// part of a caller, where it would be slower.
pub fn put_coded(coding: Coding, numbers: &[u64], out: &mut [u8]) -> Option<usize>
    requires { Codable coding numbers.now }
    ensures { Placed (laid (field_of (tag_of coding) (coded_by coding numbers.now) ∷ [])) result out.old out.new }
{
    if out.len() < HEAD_SIZE {
        return None;
    }
    let n = put_body(coding, numbers, &mut out[HEAD_SIZE..])?;
    put_head(out, tag_of(coding), n);
    Some(n + HEAD_SIZE)
}

// The field of a side, at the front of the output: nothing for side 0.
fn put_side(side: u32, out: &mut [u8]) -> Option<usize>
    ensures { Placed (laid (side_fields side)) result out.old out.new }
{
    if side == 0 {
        return Some(0);
    }
    put_number(out, SIDE_TAG, SIDE_SIZE, side as u64)
}

// The fields of the rate, of the side and of the count, at the front of the output.
fn put_front(rate: u32, side: u32, count: usize, out: &mut [u8]) -> Option<usize>
    ensures { Placed (laid (front_fields rate side count)) result out.old out.new }
{
    let rate_end = put_number(out, RATE_TAG, RATE_SIZE, rate as u64)?;
    let side_size = put_side(side, &mut out[rate_end..])?;
    let side_end = rate_end + side_size;
    let count_size = put_number(&mut out[side_end..], COUNT_TAG, COUNT_SIZE, count as u64)?;
    Some(side_end + count_size)
}

// The fields of the rate, of the side, of the count and of the positions in a form, at the front of the output: all but the ratios'.
pub fn put_lead(
    rate: u32,
    side: u32,
    form: Form,
    positions: &[u64],
    out: &mut [u8],
) -> Option<usize>
    requires { CodablePositions form positions.now × (length positions.now ≤ max_points) }
    ensures { Placed (laid (lead_fields rate side form positions.now)) result out.old out.new }
{
    let front_end = put_front(rate, side, positions.len(), out)?;
    let field_size = put_coded(Coding::Positions(form), positions, &mut out[front_end..])?;
    Some(front_end + field_size)
}

// Why positions are not recoded where there is no room for what they are a part of: the first whose step the table does not hold is told all the same.
fn recode_nowhere(coded: CodedPositions<'_>, to: Form) -> RecodeError
    ensures { RecodedNowhere to (positions_of coded.entry) result }
{
    match position_codec::recode_positions(coded, to, &mut []) {
        Ok(_) => RecodeError::NoRoom,
        Err(error) => error,
    }
}

// Coded positions, as a field in the form `to`, at the front of the output: the body past the head, and then the head.
fn put_recoded(coded: CodedPositions<'_>, to: Form, out: &mut [u8]) -> Result<usize, RecodeError>
    ensures { RecodedAs to (positions_of coded.entry) (laid (positions_field to (positions_of coded.entry) ∷ [])) result out.old out.new }
{
    if out.len() < HEAD_SIZE {
        return Err(recode_nowhere(coded, to));
    }
    let n = position_codec::recode_positions(coded, to, &mut out[HEAD_SIZE..])?;
    put_head(out, form_tag(to), n);
    Ok(n + HEAD_SIZE)
}

// The fields of `put_lead`, where the positions are coded, and are written in the form `to`.
pub fn put_recoded_lead(
    rate: u32,
    side: u32,
    coded: CodedPositions<'_>,
    to: Form,
    out: &mut [u8],
) -> Result<usize, RecodeError>
    ensures { RecodedAs to (positions_of coded.entry) (laid (lead_fields rate side to (positions_of coded.entry))) result out.old out.new }
{
    let Some(front_end) = put_front(rate, side, coded.count, out) else {
        return Err(recode_nowhere(coded, to));
    };
    let field_size = put_recoded(coded, to, &mut out[front_end..])?;
    Ok(front_end + field_size)
}
