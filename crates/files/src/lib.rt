// A named file read into lent bytes, and bytes written to an open file or to a new one, for programs. Internal.
// No contract can say which bytes a file holds: what is proved of a reading is that the number that it returns lies within the buffer, and
// where it is known what a reader has left or a writer holds, as in memory, which bytes came and went.
#![tactic(auto)]

ghost use Rattle.std.specs.Prelude.{◌≤◌, length, take, IsTrue, OnOk};
ghost use Rattle.std.specs.Io.KnownBytes.{Appends, Consumes};
ghost use Rattle.files.specs.Counts.{IsPrefixLen};

use std::env::FillError;
use std::fmt::InlineText;
use std::fs::{OpenFile, OpenOptions};
use std::io::{ErrorKind, Read, Write};
use std::rt::{Env, Files};
use std::{fs, io, str};

// As many bytes as a path has at most, with the 0 that ends it.
pub const PATH: usize = 4096;

// Reads until the buffer is full, the input ends or a read fails, and returns how many bytes it put at the front of the buffer.
pub fn read_full<R: Read>(from: &mut R, buf: &mut [u8]) -> usize
    ensures prefix_len { IsPrefixLen result buf.new }
    ensures bytes { Consumes (R.remaining from.old) (R.remaining from.new) (take result buf.new) }
{
    // Counted by hand: where the input ends first `read_exact` does not say how many bytes came.
    let mut done = 0;
    while done < buf.len() {
        match from.read(&mut buf[done..]) {
            Ok(0) | Err(_) => break,
            Ok(n) => done += n,
        }
    }
    done
}

// Reads the file from its start until the buffer is full, the file ends or a read fails, and returns how many bytes it put at the front of
// the buffer. A file that is missing or cannot be opened, and a folder, counts as empty, and so does one whose name is not UTF-8.
fn read_file(rt: &impl Files, path: &[u8], buf: &mut [u8]) -> usize
    ensures { IsPrefixLen result buf.new }
{
    let Ok(name) = str::from_utf8(path) else {
        return 0;
    };
    let Ok(mut file) = fs::open(rt, name) else {
        return 0;
    };
    read_full(&mut file, buf)
}

// Puts the program's argument i at the front of the buffer and returns its length, or 0 where it is missing or longer than the buffer.
pub fn argument(rt: &impl Env, i: usize, buf: &mut [u8]) -> usize
    ensures { IsPrefixLen result buf.new }
{
    rt.arg(i, buf).unwrap_or(0)
}

// How many arguments the program was started with, its own name among them.
pub fn argument_count(rt: &impl Env) -> usize {
    (0..usize::MAX)
        .find(|i| matches!(rt.arg(*i, &mut []), Err(FillError::NotPresent)))
        .unwrap_or(usize::MAX)
}

// Reads the file that the program's argument i names, as `read_file` does. An argument that is missing, empty or longer than a path may be counts as a
// file that is missing.
pub fn read_argument(rt: &(impl Files + Env), i: usize, buf: &mut [u8]) -> usize
    ensures { IsPrefixLen result buf.new }
{
    let mut path = [0; PATH];
    let n = argument(rt, i, &mut path);
    read_file(rt, &path[..n], buf)
}

// Writes bytes to an open file: the text that a program prints, and what a new file holds.
fn put_front<W: Write>(to: &mut W, bytes: &[u8]) -> io::Result<()>
    ensures { OnOk result (Appends (W.contents to.old) (W.contents to.new) bytes.now) }
{
    to.write_all(bytes)
}

// The same, and returns whether that succeeded.
pub fn write_front<W: Write>(to: &mut W, bytes: &[u8]) -> bool
    ensures { IsTrue result → Appends (W.contents to.old) (W.contents to.new) bytes.now }
{
    put_front(to, bytes).is_ok()
}

// Writes a line: what failed, as the caller names it, a colon and why, in the system's words where it was the system.
pub fn fail<W: Write>(to: &mut W, what: &[u8], why: io::Error) {
    let text = InlineText::<128>::of(why);
    let words = system_words(text.as_str());
    let _ = to.write_all(what);
    let _ = to.write_all(b": ");
    let _ = to.write_all(words.as_bytes());
    let _ = to.write_all(b"\n");
}

// The text of an error without the number that std puts after the system's words.
fn system_words(text: &str) -> &str {
    text.split_once(" (os error ")
        .map_or(text, |(words, _)| words)
}

// Writes bytes to a file, and has them stored: what a close would tell of them, which std keeps to itself, is told here before it.
fn store<F: Write + OpenFile>(file: &mut F, bytes: &[u8]) -> io::Result<()> {
    put_front(file, bytes)?;
    file.sync_all()
}

// The same of a file that is then closed, and answers whether it was filled; where it was not, a line on `errors` says why before the close.
fn fill<F: Write + OpenFile + Drop, W: Write>(
    errors: &mut W,
    mut file: F,
    path: &[u8],
    bytes: &[u8],
) -> bool {
    match store(&mut file, bytes) {
        Ok(()) => true,
        Err(why) => {
            fail(errors, path, why);
            false
        }
    }
}

// Makes a new file of some bytes, and answers whether it was filled. A file that stands already is never replaced, and only one that was made here
// and could not be filled is removed, after a line on `errors` has said why.
fn make_new<R: Files, W: Write>(
    rt: &R,
    errors: &mut W,
    path: &[u8],
    bytes: &[u8],
) -> io::Result<bool> {
    let Ok(name) = str::from_utf8(path) else {
        return Err(io::Error::new(ErrorKind::InvalidFilename, "the name is not UTF-8"));
    };
    let file = OpenOptions::new()
        .write(true)
        .create_new(true)
        .open(rt, name)?;
    let filled = fill(errors, file, path, bytes);
    if !filled {
        let _ = fs::remove_file(rt, name);
    }
    Ok(filled)
}

// The same, and returns whether the file stands. Where the answer is no, a line on `errors` says why.
pub fn save_new<R: Files, W: Write>(rt: &R, errors: &mut W, path: &[u8], bytes: &[u8]) -> bool {
    match make_new(rt, errors, path, bytes) {
        Ok(stands) => stands,
        Err(why) => {
            fail(errors, path, why);
            false
        }
    }
}
