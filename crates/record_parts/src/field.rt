// A field of a record: where its body stands, or the refusal of one that is not whole or not of its kind.
// Document 01, "The record": a tag byte, a two-byte length, then the body.
ghost use Rattle.std.specs.Prelude.{◌≡◌, ◌+◌, ◌≤◌, ◌<◌, leb, eqb, length};
ghost use Rattle.record_format.specs.Fields.{head_size, tag_at, field_tests};
ghost use Rattle.record_parts.specs.Fields.{max_place, length_asked, length_good, FieldRead};

use record_format::HEAD_SIZE;
use refusals::{Cause, Refusal};

// The head of a field: its tag, and then the length of its body.
pub(crate) const TAG_SIZE: usize = 1;

pub(crate) const LENGTH_SIZE: usize = HEAD_SIZE - TAG_SIZE;

// A field: where its body starts and ends. Both have 32 bits, as a refusal's number and place have. In a Result a field and a refusal take the same bytes:
// numbers of one width stay in registers there, and of two widths the compiler puts them together in memory.
#[derive(Clone, Copy)]
pub struct FieldBody {
    pub from: u32,
    pub to: u32,
}

// Whether the head of the field at an offset is whole.
pub(crate) fn is_head_whole(input: &[u8], at: usize) -> bool
    requires { at ≤ length input.now }
    ensures { result ≡ leb (at + head_size) (length input.now) }
{
    HEAD_SIZE <= input.len() - at
}

// Whether the field at an offset has this tag, which is not 0; past the end of the input there is none.
pub(crate) fn has_tag(input: &[u8], at: usize, tag: u8) -> bool
    requires { 0 < tag }
    ensures { result ≡ eqb (tag_at input.now at) tag }
{
    at < input.len() && input[at] == tag
}

// Whether a stated length is the one that is asked for, if one is.
fn is_length(asked: Option<usize>, n: usize) -> bool
    ensures { result ≡ length_good (length_asked asked) n }
{
    asked.is_none_or(|m| n == m)
}

// The field at an offset: whole head, a tag of those that are good, the length that is asked for, whole body.
pub(crate) fn read_field(
    input: &[u8],
    at: usize,
    tags: &[u8],
    asked: Option<usize>,
) -> Result<FieldBody, Refusal>
    requires { (at ≤ length input.now) × (at ≤ max_place) }
    ensures { FieldRead (field_tests input.now tags.now (length_asked asked) at) input.now at result }
{
    if input.len() - at < HEAD_SIZE {
        return Err(Cause::CutShort.at(at));
    }
    if !tags.contains(&input[at]) {
        return Err(Cause::OtherTag.at(at));
    }
    let n = bits::get_bytes(input, at + TAG_SIZE, LENGTH_SIZE) as usize;
    if !is_length(asked, n) {
        return Err(Cause::OtherLength.at(at));
    }
    let from = at + HEAD_SIZE;
    if input.len() - from < n {
        return Err(Cause::CutShort.at(at));
    }
    Ok(FieldBody {
        from: from as u32,
        to: (from + n) as u32,
    })
}
