// The listing program: reads a record from standard input, with no rate expected, and prints its run, or its refusal.
// How much of the input is read, and how much room the text has left, are facts of a call, and so stay in each requires.
#![tactic(auto)]

ghost use Rattle.std.specs.Prelude.{◌≡◌, ◌+◌, ◌*◌, ◌≤◌, [], ◌++◌, length};
ghost use Rattle.inputs.specs.Inputs.{input_limit};
ghost use Rattle.listing.specs.Lines.{rate_line, side_line, count_line, span_line, point_line, point_lines, listing};
ghost use Rattle.listing.specs.Printed.{text_limit, printed};

use inputs::{input_room, read_input};
use limits::MAX_POINTS;
use text::Text;

// As many bytes as the longest text has: 106 for the lines of rate, side, count and span, and 38 for each of 4,096 points.
const TEXT: usize = 155754;

// The line of the rate.
#[tactic(auto, unfolding(crate::specs::Lines::rate_line))]
fn put_rate(out: &mut Text<TEXT>, rate: u32)
    requires { length out.old + 26 ≤ text_limit }
    ensures text { out.new ≡ out.old ++ rate_line rate }
    ensures most { length (rate_line rate) ≤ 26 }
{
    out.put_line(b"rate ", u64::from(rate));
}

// The line of the side, if there is one.
fn put_side(out: &mut Text<TEXT>, side: u32)
    requires { length out.old + 26 ≤ text_limit }
    ensures text { out.new ≡ out.old ++ side_line side }
    ensures most { length (side_line side) ≤ 26 }
{
    if side != 0 {
        out.put_line(b"side ", u64::from(side));
    }
}

// The line of the count.
#[tactic(auto, unfolding(crate::specs::Lines::count_line))]
fn put_count(out: &mut Text<TEXT>, count: u64)
    requires { length out.old + 27 ≤ text_limit }
    ensures text { out.new ≡ out.old ++ count_line count }
    ensures most { length (count_line count) ≤ 27 }
{
    out.put_line(b"count ", count);
}

// The line of the span.
#[tactic(auto, unfolding(crate::specs::Lines::span_line))]
fn put_span(out: &mut Text<TEXT>, span: i64)
    requires { length out.old + 27 ≤ text_limit }
    ensures text { out.new ≡ out.old ++ span_line span }
    ensures most { length (span_line span) ≤ 27 }
{
    out.put("span ");
    out.put_signed(span);
    out.put("\n");
}

// The line of a point.
#[tactic(auto, unfolding(crate::specs::Lines::point_line))]
fn put_point(out: &mut Text<TEXT>, position: u64, ratio: u64)
    requires { length out.old + 38 ≤ text_limit }
    ensures text { out.new ≡ out.old ++ point_line position ratio }
    ensures most { length (point_line position ratio) ≤ 38 }
{
    out.put_decimal(position);
    out.put(" ");
    out.put_hex(ratio);
    out.put("\n");
}

// The lines of the points.
fn put_points(out: &mut Text<TEXT>, positions: &[u64], ratios: &[u64])
    requires { (length positions.now ≡ length ratios.now) × (length out.old + 38 * length positions.now ≤ text_limit) }
    ensures text { out.new ≡ out.old ++ point_lines positions.now ratios.now }
    ensures most { length (point_lines positions.now ratios.now) ≤ 38 * length positions.now }
{
    for (position, ratio) in positions.iter().zip(ratios) {
        put_point(out, *position, *ratio);
    }
}

// The text of a run.
#[tactic(auto, unfolding(crate::specs::Lines::listing))]
fn put_listing(
    out: &mut Text<TEXT>,
    rate: u32,
    side: u32,
    span: i64,
    positions: &[u64],
    ratios: &[u64],
)
    requires { (length positions.now ≡ length ratios.now) × (length out.old + (106 + 38 * length positions.now) ≤ text_limit) }
    ensures text { out.new ≡ out.old ++ listing rate side span positions.now ratios.now }
    ensures most { length (listing rate side span positions.now ratios.now) ≤ 106 + 38 * length positions.now }
{
    put_rate(out, rate);
    put_side(out, side);
    put_count(out, positions.len() as u64);
    put_span(out, span);
    put_points(out, positions, ratios);
}

// Puts the text for an input into an output that has no text.
fn print(input: &[u8], out: &mut Text<TEXT>)
    requires { (length input.now ≤ input_limit) × (out.old ≡ []) }
    ensures text { out.new ≡ printed input.now }
    ensures most { length out.new ≤ text_limit }
{
    let mut positions = [0; MAX_POINTS];
    let mut ratios = [0; MAX_POINTS];
    match read_input(input, &mut positions, &mut ratios) {
        Ok(found) => {
            let count = found.count as usize;
            let span = span::span(found.rate, &positions[..count]).unwrap_or(0);
            put_listing(
                out,
                found.rate,
                found.side,
                span,
                &positions[..count],
                &ratios[..count],
            );
        }
        Err(refusal) => out.put_refused(refusal),
    }
}

fn main(rt: HostRuntime) {
    let mut input = input_room();
    let n = files::read_full(&mut rt.stdin(), &mut input);
    let mut out = Text::new();
    print(&input[..n], &mut out);
    files::write_front(&mut rt.stdout(), out.as_bytes());
}
