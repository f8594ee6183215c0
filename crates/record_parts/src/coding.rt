// Fields of coded numbers: how many points a form takes, the codings, each with its tag and its writer of a body, and the readers of the two fields.
ghost use Rattle.std.specs.Prelude.{◌≡◌, ◌+◌, ◌≤◌, leb, ltb, eqb, length};
ghost use Rattle.lists.specs.Compare.{both};
ghost use Rattle.limits.specs.Points.{max_points};
ghost use Rattle.outputs.specs.Outputs.{Placed};
ghost use Rattle.position_format.specs.Positions.{read_positions};
ghost use Rattle.position_format.specs.Tables.{table_of, points_of};
ghost use Rattle.ratio_format.specs.Bodies.{open_ratios, strict_ratios};
ghost use Rattle.record_format.specs.Fields.{head_size, tag_at};
ghost use Rattle.record_format.specs.Runs.{positions_tag, form_of};
ghost use Rattle.record_format.specs.Reading.{form_in, positions_tests, ratios_tests};
ghost use Rattle.record_parts.specs.Fields.{CountFound, ratios_by, tag_of, coded_by, Codable, FoundInto, RoomToRead, RatiosDue, CodedRead};

use super::field::{has_tag, is_head_whole, read_field};
use limits::{MAX_POINTS, MAX_WIDE_POINTS};
use position_format::Form;
use record_format::{OLD_TAG, RATIOS_TAG, WIDE_TAG, form_tag};
use refusals::{Cause, Refusal};

// How the numbers of a body are coded. An enum, and no type parameter of `put_coded`: one writer of fields stands for both, called from two places, and so
// is not made part of a caller, where it is slower.
#[derive(Clone, Copy)]
pub enum Coding {
    Positions(Form),
    Ratios,
}

// How the ratios' field is read: it must be the coding of its ratios, or the open rule reads it. An enum that one function matches on: a closure in its
// place is no plainer, since each function on the way to that one would ask for the closure's room and law.
#[derive(Clone, Copy)]
pub enum Reading {
    Strict,
    Open,
}

// The largest number of points of a run in a form.
pub fn points_of(form: Form) -> usize
    ensures { result ≡ points_of form }
{
    match form {
        Form::Old => MAX_POINTS,
        Form::Wide => MAX_WIDE_POINTS,
    }
}

// The form that the tag of the field at an offset names.
pub fn form_at(input: &[u8], at: usize) -> Form
    ensures { result ≡ form_of (tag_at input.now at) }
{
    if has_tag(input, at, WIDE_TAG) {
        return Form::Wide;
    }
    Form::Old
}

// Whether the head of the field at an offset is whole, and has the tag of positions in a form.
pub fn is_in(form: Form, input: &[u8], at: usize) -> bool
    requires { at ≤ length input.now }
    ensures { result ≡ both (leb (at + head_size) (length input.now)) (eqb (tag_at input.now at) (positions_tag form)) }
{
    is_head_whole(input, at) && has_tag(input, at, form_tag(form))
}

// The tag of the field of numbers that are coded so.
pub(crate) fn tag_of(coding: Coding) -> u8
    ensures { result ≡ tag_of coding }
{
    match coding {
        Coding::Positions(form) => form_tag(form),
        Coding::Ratios => RATIOS_TAG,
    }
}

// The body of the numbers, at the front of the output.
pub(crate) fn put_body(coding: Coding, numbers: &[u64], out: &mut [u8]) -> Option<usize>
    requires { Codable coding numbers.now }
    ensures { Placed (coded_by coding numbers.now) result out.old out.new }
{
    match coding {
        Coding::Positions(form) => position_codec::put_positions(form, numbers, out),
        Coding::Ratios => ratio_bodies::put_ratios(numbers, out),
    }
}

// Whether a body is the coding of so many positions in a form, which are put at the front of the output if it has room for them.
fn get_positions(form: Form, body: &[u8], count: usize, out: &mut [u64]) -> bool
    requires { count ≤ max_points }
    ensures { FoundInto (read_positions (table_of form) count body.now) count result out.old out.new }
{
    if out.len() < count {
        return position_codec::check_positions(form, body, count);
    }
    position_codec::get_positions(form, body, count, out)
}

// The same of ratios that are read strictly.
fn get_strict(body: &[u8], count: usize, out: &mut [u64]) -> bool
    ensures { FoundInto (strict_ratios count body.now) count result out.old out.new }
{
    if out.len() < count {
        let counted = ratio_bodies::count_strict(body, count);
        return counted.whole(count, body.len());
    }
    let took = ratio_bodies::get_strict(body, count, out);
    took.whole(count, body.len())
}

// Whether the open rule reads a body as so many ratios, which are put at the front of the output.
fn get_open(body: &[u8], count: usize, out: &mut [u64]) -> bool
    requires { count ≤ length out.old }
    ensures { FoundInto (open_ratios count body.now) count result out.old out.new }
{
    let took = ratio_bodies::get_open(body, count, out);
    took.whole(count, body.len())
}

// The ratios of a body, strictly or by the open rule, which needs room for them.
fn get_ratios(reading: Reading, body: &[u8], count: usize, out: &mut [u64]) -> bool
    requires { RoomToRead reading count out.old }
    ensures { FoundInto (ratios_by reading count body.now) count result out.old out.new }
{
    match reading {
        Reading::Strict => get_strict(body, count, out),
        Reading::Open => get_open(body, count, out),
    }
}

// Whether the head of the field at an offset is whole, and a run in a form has fewer points than the count.
fn has_many(form: Form, input: &[u8], at: usize, count: usize) -> bool
    requires { at ≤ length input.now }
    ensures { result ≡ both (leb (at + head_size) (length input.now)) (ltb (points_of form) count) }
{
    is_head_whole(input, at) && points_of(form) < count
}

// The positions' field, in the form that its tag names, at its offset: its tests, and its positions at the front of the output, if it has room for
// them. It answers the offset past the field. The count's field stands at `place`; a run in the form may have fewer points than the count: 15 there,
// before the body is looked at.
pub fn read_positions(
    form: Form,
    input: &[u8],
    count: usize,
    place: usize,
    at: usize,
    out: &mut [u64],
) -> Result<u32, Refusal>
    requires { (form ≡ form_in input.now) × CountFound input.now count place at }
    ensures { CodedRead (positions_tests input.now) (read_positions (table_of form) count) count input.now at result out.old out.new }
{
    if has_many(form, input, at, count) {
        return Err(Cause::BadCount.at(place));
    }
    let field = read_field(input, at, &[OLD_TAG, WIDE_TAG], None)?;
    if !get_positions(
        form,
        &input[field.from as usize..field.to as usize],
        count,
        out,
    ) {
        return Err(Cause::BadPositions.at(at));
    }
    Ok(field.to)
}

// The ratios' field, strictly or by the open rule, at its offset: its tests, and its ratios at the front of the output, if it has room for them. It
// answers the offset past the field.
pub(crate) fn read_ratios(
    reading: Reading,
    input: &[u8],
    count: usize,
    at: usize,
    out: &mut [u64],
) -> Result<u32, Refusal>
    requires { RatiosDue input.now at count × RoomToRead reading count out.old }
    ensures { CodedRead (ratios_tests (ratios_by reading) input.now) (ratios_by reading count) count input.now at result out.old out.new }
{
    let field = read_field(input, at, &[RATIOS_TAG], None)?;
    if !get_ratios(
        reading,
        &input[field.from as usize..field.to as usize],
        count,
        out,
    ) {
        return Err(Cause::BadRatios.at(at));
    }
    Ok(field.to)
}
