// What a program stands on that reads or answers, that of a word of `./register` above all: how it
// gets at its files, and how it gives its answer. docs/WORKING.md, "A word of ./register".
//
// Started by `./register`, a program has the word as argument 1 and the word's own arguments behind
// it. Without argument 1 it was started alone: it reads standard input and prints, and no more.
// A program says on descriptor 3 how it ended, and `./register` ends with the status that belongs to
// it; the program's own exit status says nothing.
#![tactic(auto)]

ghost use Rattle.std.specs.Prelude.{◌≡◌, ◌≤◌, length, MatchOption};
ghost use Rattle.std.specs.Str.{IsUtf8};
ghost use Rattle.word.specs.Ending.{digit_of, Says};
ghost use Rattle.word.specs.Input.{Within, is_there};

use std::env::FillError;
use std::fs::OpenOptions;
use std::io::{Read, Write};
use std::os::unix::fs::PermissionsExt;
use std::rt::{Env, Files};
use std::str::from_utf8;
use std::{fs, io};

// Where `./register` hears how a program ended: descriptor 3, by its name.
const ENDING: &str = "/proc/self/fd/3";

// What there is to read: standard input, or a file.
#[derive(Drop)]
enum Source<F> {
    Standard,
    File(F),
}

// Reads the file that argument i names, or standard input where there is no argument i, to its end
// or until buf is full, and answers how many bytes came. Where that fails, the bytes that came
// before are not the input, and one line on standard error says why.
pub fn read(
    rt: &(impl Env + Files + io::Input + Eprint + Alloc),
    i: usize,
    buf: &mut [u8],
) -> Option<usize>
    ensures { Within buf.new result }
{
    let (size, read) = match opened(rt, i)? {
        Source::Standard => read_all(&mut rt.reader(), buf),
        Source::File(mut file) => read_all(&mut file, buf),
    };
    match read {
        Ok(()) => Some(size),
        Err(e) => fail(rt, "the input cannot be read", e),
    }
}

// Reads until the input ends, buf is full or a read fails, and answers how many bytes came, and
// whether no read failed.
// Stays: a pair and no Result: its clause holds of the count on Err too, and `reread` takes that.
pub fn read_all(from: &mut impl Read, buf: &mut [u8]) -> (usize, io::Result<()>)
    ensures { result.0 ≤ length buf.new }
{
    let mut len = 0;
    // Stays: a loop of its own, since std's `read_to_end` says nothing of the count on Err.
    while len < buf.len() {
        match from.read(&mut buf[len..]) {
            Ok(0) => break,
            Ok(more) => len += more,
            Err(e) => return (len, Err(e)),
        }
    }
    (len, Ok(()))
}

// Prints the answer on standard output, says whether it is a refusal, and gives back the digit that
// says so. Where it could not be printed whole, one line on standard error says why, and nothing is
// said of an ending.
pub fn answer(
    rt: &(impl Env + Files + Print + Eprint + Alloc),
    text: &[u8],
    refused: bool,
) -> Option<u8>
    ensures { Says refused result }
{
    match rt.write_all(text) {
        Ok(()) => Some(ended(rt, refused)),
        Err(e) => fail(rt, "not all of the answer could be written", e),
    }
}

// Says how the program ended, to `./register` alone, and gives back the digit that says it.
pub fn ended(rt: &(impl Env + Files), refused: bool) -> u8
    ensures { result ≡ digit_of refused }
{
    let d = b'0' + u8::from(refused);
    let line = [d, b'\n'];
    if is_there(rt.arg(1, &mut [])) & hears_ending(rt) {
        let _ = say_ending(rt, &line);
    }
    d
}

// Whether there is an argument, by what was found of it: one too long for its buffer is there. Of
// argument 1, whether `./register` started the program.
pub fn is_there(found: Result<usize, FillError>) -> bool
    ensures { result ≡ is_there found }
{
    !matches!(found, Err(FillError::NotPresent))
}

// Says on standard error what failed, and why, in a line. Nothing comes of it, for the caller to
// hand on.
pub fn fail<T>(rt: &(impl Eprint + Alloc), what: &str, error: io::Error) -> Option<T>
    ensures { result ≡ None }
{
    let _ = match format!(in rt.alloc(); "{error}") {
        Ok(text) => {
            let reason = words_of(text.as_str());
            eprintln!(rt; "{what}: {reason}")
        }
        Err(_) => eprintln!(rt; "{what}: {error}"),
    };
    None
}

// What an error says, without the system's number for it, which std puts behind it.
fn words_of(error: &str) -> &str {
    error
        .split_once(" (os error ")
        .map_or(error, |(words, _)| words)
}

// An argument as a file's name. No other can be opened than one in UTF-8: of any other a line on
// standard error says so.
pub fn name_of<'a>(rt: &impl Eprint, argument: &'a [u8]) -> Option<&'a str>
    ensures { MatchOption result (¬ (IsUtf8 argument.now)) (λ name. (name.now ≡ argument.now) × IsUtf8 argument.now) }
{
    match from_utf8(argument) {
        Ok(name) => Some(name),
        Err(_) => {
            let _ = eprintln!(rt; "a file's name: it is not UTF-8");
            None
        }
    }
}

// Whether descriptor 3 is open, and for writing: its name has the permissions that it was opened
// with. What somebody reads by a descriptor 3 of his own is not to be written to.
fn hears_ending(rt: &impl Files) -> bool {
    fs::symlink_metadata(rt, ENDING).is_ok_and(|found| found.permissions().mode() & 0o200 != 0)
}

fn say_ending(rt: &impl Files, line: &[u8]) -> io::Result<()> {
    let mut ending = OpenOptions::new().append(true).open(rt, ENDING)?;
    ending.write_all(line)
}

// What argument i names, opened, or standard input where there is no argument i. Where it cannot be
// opened, a line on standard error says why.
fn opened<R: Env + Files + Eprint + Alloc>(rt: &R, i: usize) -> Option<Source<R::File>> {
    let mut buf = [0u8; 4096];
    let len = match rt.arg(i, &mut buf) {
        Ok(len) => len,
        Err(FillError::NotPresent) => return Some(Source::Standard),
        Err(FillError::TooLong) => {
            let _ = eprintln!(rt; "a file's name: File name too long");
            return None;
        }
    };
    let name = name_of(rt, &buf[..len])?;
    match fs::open(rt, name) {
        Ok(file) => Some(Source::File(file)),
        Err(e) => fail(rt, name, e),
    }
}
