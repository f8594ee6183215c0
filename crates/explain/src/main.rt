// The explaining program: reads the record in the file that its first argument names, with no rate expected, and prints what the ratio whose index
// is the second argument costs, and why; or the refusal.
// How much of the input is read, and how much room the text has left, are facts of a call, and so stay in each requires.
#![tactic(auto)]

ghost use Rattle.std.specs.Prelude.{◌≡◌, ◌+◌, ◌≤◌, ◌<◌, MatchOption, [], ◌++◌, length, take, false, true};
ghost use Rattle.limits.specs.Points.{max_points};
ghost use Rattle.ratio_format.specs.Bodies.{coded_ratios};
ghost use Rattle.inputs.specs.Inputs.{input_limit};
ghost use Rattle.explain.specs.Indexes.{is_digit, digit_of, given_index, capped};
ghost use Rattle.explain.specs.Lines.{cost_line, xor_line, reason_line};
ghost use Rattle.explain.specs.Printed.{body_limit, argument_limit, text_limit, cost_of, point_text, index_text, printed};

use inputs::{input_room, read_input};
use limits::MAX_POINTS;
use reasons::Reason;
use refusals::{Cause, Refusal};
use text::Text;

// As many bytes as the longest body of a run's ratios has.
const BODY: usize = 36864;

// As many bytes as an argument has at most, with the 0 that ends it.
const ARGUMENT: usize = 131072;

// As many bytes as the longest text has: 95 for the line of the cost, 111 for that of the reason.
const TEXT: usize = 206;

// The bytes of a ratio: how many stand before them in the body, and how many they are.
#[derive(Clone, Copy)]
pub struct RatioExtent {
    pub before: usize,
    pub cost: usize,
}

// The digit that a byte is.
fn digit(c: u8) -> Option<usize>
    ensures { MatchOption result (is_digit c ≡ false) (λ d. (is_digit c ≡ true) × (d ≡ digit_of c)) }
{
    match c {
        b'0'..=b'9' => Some((c - b'0') as usize),
        _ => None,
    }
}

// The index that a text is, up to 4,096, which no run has.
fn index_in(text: &[u8]) -> Option<usize>
    ensures { result ≡ capped (given_index text.now) }
{
    if text.is_empty() {
        return None;
    }
    let mut n = 0;
    for c in text {
        n = (n * 10 + digit(*c)?).min(MAX_POINTS);
    }
    Some(n)
}

// Room for the body of every run's ratios.
fn body_room() -> [u8; BODY]
    ensures { body_limit ≡ length result }
{
    [0; BODY]
}

// Room for every argument. A function, since its contract says how long an argument may be.
fn argument_room() -> [u8; ARGUMENT]
    ensures { argument_limit ≡ length result }
{
    [0; ARGUMENT]
}

// How many bytes the body of some ratios has.
fn body_size(ratios: &[u64]) -> usize
    requires { length ratios.now ≤ max_points }
    ensures { result ≡ length (coded_ratios ratios.now) }
{
    ratio_bodies::put_ratios(ratios, &mut body_room()).unwrap()
}

// The line of the cost: the ratio v of index i, n bytes from offset o on.
#[tactic(auto, unfolding(crate::specs::Lines::cost_line))]
fn put_cost(out: &mut Text<TEXT>, i: u64, v: u64, n: u64, o: u64)
    requires { length out.old + 95 ≤ text_limit }
    ensures text { out.new ≡ out.old ++ cost_line i v n o }
    ensures most { length (cost_line i v n o) ≤ 95 }
{
    out.put_numbered(b"ratio ", i);
    out.put(" ");
    out.put_hex(v);
    out.put_numbered(b" ", n);
    out.put_numbered(b" bytes at ", o);
    out.put("\n");
}

// The line of an xor form.
#[tactic(auto, unfolding(crate::specs::Lines::xor_line))]
fn put_xor(out: &mut Text<TEXT>, place: u64, lead: u64, trail: u64)
    requires { length out.old + 111 ≤ text_limit }
    ensures text { out.new ≡ out.old ++ xor_line place lead trail }
    ensures most { length (xor_line place lead trail) ≤ 111 }
{
    out.put_numbered(b"xor with place ", place);
    out.put_numbered(b", ", lead);
    out.put_numbered(b" leading and ", trail);
    out.put(" trailing zero bytes\n");
}

// The line of a reason, or of a refusal.
#[tactic(auto, unfolding(crate::specs::Lines::reason_line))]
fn put_reason(out: &mut Text<TEXT>, reason: Result<Reason, Refusal>)
    requires { length out.old + 111 ≤ text_limit }
    ensures text { out.new ≡ out.old ++ reason_line reason }
    ensures most { length (reason_line reason) ≤ 111 }
{
    match reason {
        Ok(Reason::Reference(place)) => out.put_line(b"equal to place ", u64::from(place)),
        Ok(Reason::Xor { place, lead, trail }) => {
            put_xor(out, u64::from(place), u64::from(lead), u64::from(trail))
        }
        Ok(Reason::Exception(sum)) => out.put_line(b"exception, best sum ", u64::from(sum)),
        Ok(Reason::Empty) => out.put("exception, window empty\n"),
        Err(refusal) => out.put_refused(refusal),
    }
}

// The bytes of the ratio of index i in the body of a run's ratios: how many stand before them, and how many they are.
fn bytes_of(ratios: &[u64], i: usize) -> RatioExtent
    requires { (i < length ratios.now) × (length ratios.now ≤ max_points) }
    ensures { (result.before ≡ length (coded_ratios (take i ratios.now))) × (result.cost ≡ cost_of ratios.now i) }
{
    let before = body_size(&ratios[..i]);
    let after = body_size(&ratios[..i + 1]);
    RatioExtent {
        before,
        cost: after - before,
    }
}

// Both lines for the ratio of index i, in a body that begins at the offset b.
fn put_lines(out: &mut Text<TEXT>, ratios: &[u64], i: usize, b: usize)
    requires { (out.old ≡ []) × (i < length ratios.now) × (length ratios.now ≤ max_points) × (b ≤ input_limit) }
    ensures text { out.new ≡ point_text b ratios.now i }
    ensures most { length out.new ≤ text_limit }
{
    let bytes = bytes_of(ratios, i);
    put_cost(
        out,
        i as u64,
        ratios[i],
        bytes.cost as u64,
        (b + bytes.before) as u64,
    );
    put_reason(out, reasons::explain(ratios, i as u64));
}

// The same of the index that a text is: the refusal of one that no ratio has, and of a text that is none.
fn put_index(out: &mut Text<TEXT>, ratios: &[u64], index: &[u8], b: usize)
    requires { (out.old ≡ []) × (length ratios.now ≤ max_points) × (b ≤ input_limit) }
    ensures text { out.new ≡ index_text b ratios.now (given_index index.now) }
    ensures most { length out.new ≤ text_limit }
{
    match index_in(index) {
        Some(i) if i < ratios.len() => put_lines(out, ratios, i, b),
        _ => out.put_refused(Cause::BadIndex.at(0)),
    }
}

// Puts the text for an input and the text of an index into an output that has no text.
fn print(input: &[u8], index: &[u8], out: &mut Text<TEXT>)
    requires { (length input.now ≤ input_limit) × (out.old ≡ []) }
    ensures text { out.new ≡ printed input.now index.now }
    ensures most { length out.new ≤ text_limit }
{
    let mut positions = [0; MAX_POINTS];
    let mut ratios = [0; MAX_POINTS];
    match read_input(input, &mut positions, &mut ratios) {
        Ok(found) => {
            let ratios = &ratios[..found.count as usize];
            let body = found.size - body_size(ratios);
            put_index(out, ratios, index, body);
        }
        Err(refusal) => out.put_refused(refusal),
    }
}

fn main(rt: HostRuntime) {
    let mut input = input_room();
    let n = files::read_argument(&rt, 1, &mut input);
    let mut index = argument_room();
    let m = files::argument(&rt, 2, &mut index);
    let mut out = Text::new();
    print(&input[..n], &index[..m], &mut out);
    files::write_front(&mut rt.stdout(), out.as_bytes());
}
