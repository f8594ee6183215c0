// The front of a record: the fields of the rate, of the side, which may be missing, and of the count, with their tests. Reading it needs no
// output.
ghost use Rattle.std.specs.Prelude.{◌≡◌, [], ◌∷◌, ◌≤◌, length};
ghost use Rattle.std.proofs.Math.Option.{some};
ghost use Rattle.record_format.specs.Fields.{field_tests};
ghost use Rattle.record_format.specs.Runs.{rate_size, count_size};
ghost use Rattle.record_format.specs.Reading.{other_rate, rate_at, side_at, rate_tests, count_tests, count_at};
ghost use Rattle.record_parts.specs.Fields.{max_place, NumberRead, SideRead, FrontRead};

use super::field::{has_tag, read_field};
use record_format::{COUNT_SIZE, COUNT_TAG, RATE_AT, RATE_SIZE, RATE_TAG, SIDE_SIZE, SIDE_TAG};
use refusals::{Cause, Refusal};

// A field that holds a number: the number, and the offset past the field. Numbers and offsets have 32 bits for the reason that stands beside `FieldBody`.
#[derive(Clone, Copy)]
pub struct Number {
    pub value: u32,
    pub end: u32,
}

// Rate, side and count, the offset of the count's field, and the offset past it.
#[derive(Clone, Copy)]
pub struct Front {
    pub rate: u32,
    pub side: u32,
    pub count: u32,
    pub place: u32,
    pub end: u32,
}

// The field of a tag at an offset that holds a number in n bytes.
fn read_number(input: &[u8], at: usize, tag: u8, n: usize) -> Result<Number, Refusal>
    requires { (at ≤ length input.now) × (at ≤ max_place) × (n ≤ 4) }
    ensures { NumberRead n (field_tests input.now (tag ∷ []) (some n) at) input.now at result }
{
    let field = read_field(input, at, &[tag], Some(n))?;
    Ok(Number {
        value: bits::get_bytes(input, field.from as usize, n) as u32,
        end: field.to,
    })
}

// Whether a rate was expected, which is not 0, and differs. 0 for none and no Option, as `checked` and C have it.
fn differs(expected: u32, rate: u32) -> bool
    ensures { result ≡ other_rate expected rate }
{
    expected != 0 && expected != rate
}

// The rate, at the front of the input: 13, 14.
fn read_rate(expected: u32, input: &[u8]) -> Result<Number, Refusal>
    ensures { NumberRead rate_size (rate_tests expected input.now) input.now rate_at result }
{
    let found = read_number(input, RATE_AT, RATE_TAG, RATE_SIZE)?;
    if !limits::is_rate(found.value) {
        return Err(Cause::BadStoredRate.at(RATE_AT));
    }
    if differs(expected, found.value) {
        return Err(Cause::OtherRate.at(RATE_AT));
    }
    Ok(found)
}

// The side, at the offset past the rate: 20. Where another field stands there, or none, it is 0, and ends where it begins.
fn read_side(input: &[u8], at: usize) -> Result<Number, Refusal>
    requires { (at ≡ side_at input.now) × (at ≤ length input.now) × (at ≤ max_place) }
    ensures { SideRead input.now result }
{
    if !has_tag(input, at, SIDE_TAG) {
        return Ok(Number {
            value: 0,
            end: at as u32,
        });
    }
    let found = read_number(input, at, SIDE_TAG, SIDE_SIZE)?;
    if !limits::is_side(found.value) {
        return Err(Cause::BadStoredSide.at(at));
    }
    Ok(found)
}

// The count, at the offset past the side: 15.
fn read_count(input: &[u8], at: usize) -> Result<Number, Refusal>
    requires { (at ≡ count_at input.now) × (at ≤ length input.now) × (at ≤ max_place) }
    ensures { NumberRead count_size (count_tests input.now) input.now at result }
{
    let found = read_number(input, at, COUNT_TAG, COUNT_SIZE)?;
    if limits::MAX_POINTS < found.value as usize {
        return Err(Cause::BadCount.at(at));
    }
    Ok(found)
}

// The rate, the side and the count of a record, and where they end.
pub fn read_front(expected: u32, input: &[u8]) -> Result<Front, Refusal>
    ensures { FrontRead expected input.now result }
{
    let rate = read_rate(expected, input)?;
    let side = read_side(input, rate.end as usize)?;
    let place = side.end;
    let count = read_count(input, place as usize)?;
    Ok(Front {
        rate: rate.value,
        side: side.value,
        count: count.value,
        place,
        end: count.end,
    })
}
