// Reading: the parts of a record in their order. A check needs no output; a fetch and open reading leave the points in two.
ghost use Rattle.std.specs.Prelude.{◌≡◌, ◌≢◌, ◌++◌, IfErr};
ghost use Rattle.record_format.specs.Answers.{check_answer, fetch_answer, read_answer};
ghost use Rattle.record_format.specs.Reading.{positions_tests, ratios_tests};
ghost use Rattle.record_format.specs.Checking.{checked, check_number};
ghost use Rattle.record_format.specs.Fetching.{lacks_room, read_with, read_open, fetched};
ghost use Rattle.record_parts.specs.Fields.{Judged, ratios_by, FrontFound, RoomToRead};
ghost use Rattle.record_codec.specs.Answers.{RecordFound, Answered, Reads};

use record_format::Description;
use record_parts::coding::Reading;
use record_parts::front::{Front, read_front};
use record_parts::points::read_points;
use refusals::{Cause, Refusal};

// What is found past a front that is not refused. The points are put at the front of each output that has room for them; read strictly they need none.
fn read_past(
    reading: Reading,
    input: &[u8],
    front: Front,
    positions: &mut [u64],
    ratios: &mut [u64],
) -> Result<Description, Refusal>
    requires { FrontFound input.now front × RoomToRead reading front.count ratios.old }
    ensures { Judged (positions_tests input.now ++ ratios_tests (ratios_by reading) input.now)
        (RecordFound (ratios_by reading) input.now positions.old ratios.old positions.new ratios.new)
        result }
{
    let points = read_points(
        reading,
        input,
        front.count as usize,
        front.place as usize,
        front.end as usize,
        positions,
        ratios,
    )?;
    Ok(Description {
        rate: front.rate,
        side: front.side,
        count: front.count,
        form: points.form,
        size: points.end as usize,
    })
}

// Checks the record at the front of the input, with no output: its rate, side, count, form and size, or the refusal. An expected rate of 0 expects none.
pub fn check(expected: u32, input: &[u8]) -> Result<Description, Refusal>
    ensures answer { check_answer result ≡ checked expected input.now }
    ensures numbered { IfErr result (λ refusal. refusal.number ≢ 0) }
{
    let front = read_front(expected, input)?;
    read_past(Reading::Strict, input, front, &mut [], &mut [])
}

// A refusal's number is multiplied by this.
const PLACE_BASE: u32 = 65536;

// The same as one number, for C: 65,536 times the refusal's number plus its place, or the size of a sound record.
pub fn check_number(expected: u32, input: &[u8]) -> u32
    ensures { result ≡ check_number (checked expected input.now) }
{
    match check(expected, input) {
        Ok(found) => found.size as u32,
        Err(refusal) => PLACE_BASE * refusal.number + refusal.place,
    }
}

// Whether an output has room for fewer than count numbers.
fn lacks(positions: usize, ratios: usize, count: usize) -> bool
    ensures { result ≡ lacks_room positions ratios count }
{
    positions < count || ratios < count
}

// A record read into the outputs, its ratios strictly or by the open rule: front, room, points.
fn read_into(
    reading: Reading,
    expected: u32,
    input: &[u8],
    positions: &mut [u64],
    ratios: &mut [u64],
) -> Result<Description, Refusal>
    ensures { Reads (read_with (ratios_by reading) expected input.now positions.old ratios.old)
        positions.old ratios.old result positions.new ratios.new }
{
    let front = read_front(expected, input)?;
    if lacks(positions.len(), ratios.len(), front.count as usize) {
        return Err(Cause::NoRoomForPoints.at(front.place as usize));
    }
    read_past(reading, input, front, positions, ratios)
}

// The same, with both outputs 0 from end to end on a refusal.
fn read_record(
    reading: Reading,
    expected: u32,
    input: &[u8],
    positions: &mut [u64],
    ratios: &mut [u64],
) -> Result<Description, Refusal>
    ensures answer { Answered (read_with (ratios_by reading) expected input.now positions.old ratios.old) (check_answer result) positions.new ratios.new }
    ensures numbered { IfErr result (λ refusal. refusal.number ≢ 0) }
{
    match read_into(reading, expected, input, positions, ratios) {
        Ok(found) => Ok(found),
        Err(refusal) => {
            positions.fill(0);
            ratios.fill(0);
            Err(refusal)
        }
    }
}

// Fetches the points of the record at the front of the input into the outputs: their count, or the refusal. The ratios' field must be the coding of its
// ratios. Nobody need have called check.
pub fn fetch(
    expected: u32,
    input: &[u8],
    positions: &mut [u64],
    ratios: &mut [u64],
) -> Result<u32, Refusal>
    ensures answer { fetch_answer result ≡ (fetched expected input.now positions.old ratios.old).answer }
    ensures points { (positions.new ≡ (fetched expected input.now positions.old ratios.old).positions)
        × (ratios.new ≡ (fetched expected input.now positions.old ratios.old).ratios) }
    ensures numbered { IfErr result (λ refusal. refusal.number ≢ 0) }
{
    let found = read_record(Reading::Strict, expected, input, positions, ratios)?;
    Ok(found.count)
}

// Reads the record at the front of the input as a fetch does, but its ratios by the open rule: what is found of it, with the bytes used as its size, or
// the refusal.
pub fn read_open(
    expected: u32,
    input: &[u8],
    positions: &mut [u64],
    ratios: &mut [u64],
) -> Result<Description, Refusal>
    ensures answer { read_answer result ≡ (read_open expected input.now positions.old ratios.old).answer }
    ensures points { (positions.new ≡ (read_open expected input.now positions.old ratios.old).positions)
        × (ratios.new ≡ (read_open expected input.now positions.old ratios.old).ratios) }
    ensures numbered { IfErr result (λ refusal. refusal.number ≢ 0) }
{
    read_record(Reading::Open, expected, input, positions, ratios)
}
