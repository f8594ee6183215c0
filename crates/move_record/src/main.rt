// The moving program: reads the record in the file that its second argument names, moves it to the form that the first names, `wide` or `old`,
// and makes the file that the third names of what was written. Prints one line: what was moved, or the refusal. Called otherwise it reads and makes
// no file, and a line on standard error says how it is called.
// Whether a file is read is answered by `is_call`, and all else that follows from the arguments and from the bytes read by `respond`. `main` and `save`
// open, read and write, and decide by nothing but these answers and what failed.
// How much of the input is read, and that line and output begin empty, are facts of a call, and so stay in each requires.
#![tactic(auto)]

ghost use Rattle.std.specs.Prelude.{◌≡◌, false, ◌+◌, ◌≤◌, [], ◌++◌, length, IsTrue};
ghost use Rattle.std.specs.Io.KnownBytes.{Appends};
ghost use Rattle.files.specs.Counts.{IsPrefixLen};
ghost use Rattle.inputs.specs.Inputs.{input_limit};
ghost use Rattle.move_record.specs.Words.{form_named, form_asked, is_call};
ghost use Rattle.move_record.specs.Lines.{line_limit, moved_line, usage_line};
ghost use Rattle.move_record.specs.Printed.{blank_record, move_input, move_response, standard_output, standard_error, usage_response, response, Told};

use files::PATH;
use inputs::input_room;
use position_format::Form;
use std::env::FillError;
use std::io;
use std::io::Write;
use std::rt::{Env, Files};
use text::Text;

// The numbers of errors in Linux, whose words the program prints: an argument that is missing, and one that is longer than a path may be.
const EINVAL: i32 = 22;

const ENAMETOOLONG: i32 = 36;

// As many bytes as the longest record has.
const RECORD: usize = 61709;

// Room for every line: the longest has two words, two numbers of up to 20 digits, and the line's end.
const LINE: usize = 53;

// As many arguments as the program takes, with its own name before them.
const ARGUMENTS: usize = 4;

// The stream that the line goes to.
#[derive(Clone, Copy)]
pub enum Stream {
    Output,
    Error,
}

// What the program is to do: the stream that the line goes to, and where a file is to be made, how many bytes of the output are to be saved in it.
#[derive(Clone, Copy)]
pub struct Outcome {
    pub stream: Stream,
    pub saved: Option<usize>,
}

// The form that a word names. By two tests: a match on strings of bytes asks for a proof of each byte.
fn form_named(word: &[u8]) -> Option<Form>
    ensures { result ≡ form_named word.now }
{
    if word == b"wide".as_slice() {
        return Some(Form::Wide);
    }
    if word == b"old".as_slice() {
        return Some(Form::Old);
    }
    None
}

// The form that a call of the program asks for, by the number of its arguments and the first of them. With too few it asks for none.
fn form_asked(count: usize, word: &[u8]) -> Option<Form>
    ensures { result ≡ form_asked count word.now }
{
    if count < ARGUMENTS {
        return None;
    }
    form_named(word)
}

// Whether a call asks for a form. Only then there is a file to be read.
fn is_call(count: usize, word: &[u8]) -> bool
    ensures { result ≡ is_call count word.now }
{
    form_asked(count, word).is_some()
}

// The line of a move.
#[tactic(auto, unfolding(crate::specs::Lines::moved_line))]
fn put_moved_line(line: &mut Text<LINE>, used: u64, wrote: u64)
    requires { length line.old + line_limit ≤ line_limit }
    ensures { line.new ≡ line.old ++ moved_line used wrote }
{
    line.put_numbered(b"moved ", used);
    line.put_line(b" to ", wrote);
}

// Moves the record in an input into an output, and puts the line for it.
fn move_input(form: Form, input: &[u8], out: &mut [u8], line: &mut Text<LINE>) -> Outcome
    requires { (length input.now ≤ input_limit) × (out.old ≡ blank_record) × (line.old ≡ []) }
    ensures { Told (move_response (move_input form input.now)) result out.new line.new }
{
    match record_codec::move_to(form, input, out) {
        Ok(moved) => {
            put_moved_line(line, moved.used as u64, moved.length as u64);
            Outcome {
                stream: Stream::Output,
                saved: Some(moved.length),
            }
        }
        Err(refusal) => {
            line.put_refused(refusal);
            Outcome {
                stream: Stream::Output,
                saved: None,
            }
        }
    }
}

// Puts the line of a call that asks for no form. The output then stays as it was lent.
fn show_usage(line: &mut Text<LINE>) -> Outcome
    requires { line.old ≡ [] }
    ensures { Told usage_response result blank_record line.new }
{
    line.put("usage: move_record wide|old RECORD NEW\n");
    Outcome {
        stream: Stream::Error,
        saved: None,
    }
}

// What the program is to do, by the number of its arguments, the first of them, and the bytes that it read.
fn respond(
    count: usize,
    word: &[u8],
    input: &[u8],
    out: &mut [u8],
    line: &mut Text<LINE>,
) -> Outcome
    requires { (length input.now ≤ input_limit) × (out.old ≡ blank_record) × (line.old ≡ []) }
    ensures { Told (response count word.now input.now) result out.new line.new }
{
    match form_asked(count, word) {
        Some(form) => move_input(form, input, out, line),
        None => show_usage(line),
    }
}

// Reads the file that the second argument names, if there is one to be read, and returns how many bytes it put at the front of the input. Else it
// opens none, so that a call that asks for no form waits for no pipe.
fn read_source(rt: &(impl Files + Env), count: usize, word: &[u8], input: &mut [u8]) -> usize
    ensures prefix_len { IsPrefixLen result input.new }
    ensures value { is_call count word.now ≡ false → result ≡ 0 }
{
    if is_call(count, word) {
        return files::read_argument(rt, 2, input);
    }
    0
}

// Says on `errors` that the new file has no name, or one that is longer than a name may be.
fn refuse_name<W: Write>(errors: &mut W, why: FillError) {
    let number = match why {
        FillError::NotPresent => EINVAL,
        FillError::TooLong => ENAMETOOLONG,
    };
    files::fail(
        errors,
        b"the name of the new file",
        io::Error::from_raw_os_error(number),
    );
}

// Makes the file that the third argument names of some bytes. Where the answer is no, a line on `errors` says why.
fn save<R: Files + Env, W: Write>(rt: &R, errors: &mut W, bytes: &[u8]) -> bool {
    let mut path = [0; PATH];
    match rt.arg(3, &mut path) {
        Ok(k) => files::save_new(rt, errors, &path[..k], bytes),
        Err(why) => {
            refuse_name(errors, why);
            false
        }
    }
}

// Writes a line to a stream, and returns whether that succeeded.
fn show<P: Write, E: Write>(printed: &mut P, errors: &mut E, stream: Stream, line: &[u8]) -> bool
    ensures on_error { IsTrue result → stream ≡ standard_error → Appends (E.contents errors.old) (E.contents errors.new) line.now }
    ensures on_output { IsTrue result → stream ≡ standard_output → Appends (P.contents printed.old) (P.contents printed.new) line.now }
{
    match stream {
        Stream::Output => files::write_front(printed, line),
        Stream::Error => files::write_front(errors, line),
    }
}

// Reads the first argument and, where the call asks for a form, the file, and does what `respond` answers. The line goes out once the new file stands,
// or where there is none to be made.
fn main(rt: HostRuntime) {
    let count = files::argument_count(&rt);
    let mut argument = [0; PATH];
    let k = files::argument(&rt, 1, &mut argument);
    let word = &argument[..k];
    let mut input = input_room();
    let n = read_source(&rt, count, word, &mut input);
    let mut out = [0; RECORD];
    let mut line = Text::new();
    let outcome = respond(count, word, &input[..n], &mut out, &mut line);
    let mut errors = rt.stderr();
    if let Some(length) = outcome.saved {
        if !save(&rt, &mut errors, &out[..length]) {
            return;
        }
    }
    show(
        &mut rt.stdout(),
        &mut errors,
        outcome.stream,
        line.as_bytes(),
    );
}
