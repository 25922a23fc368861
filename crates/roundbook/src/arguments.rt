// The words behind `./register book`.
ghost use Rattle.std.specs.Prelude.{◌≤◌, length};

use std::rt::Env;
use std::str::from_utf8;

// What is wanted of the book, with the number that goes with it: a cell, a place or a room.
#[derive(Clone, Copy)]
pub(crate) enum Wanted {
    Sheets,
    Lookup(u32),
    Back(usize),
    Add(usize),
}

// A line on standard error: why there is no answer.
pub(crate) fn complain<T>(rt: &impl Eprint, line: &str) -> Option<T> {
    let _ = rt.eprintln(line);
    None
}

// Argument i, in the front of the buffer: no bytes where there is no such argument, or it is longer
// than the buffer.
pub(crate) fn argument<'a>(rt: &impl Env, i: usize, buf: &'a mut [u8]) -> &'a [u8]
    ensures { length result.now ≤ length buf.old }
{
    let len = rt.arg(i, buf).unwrap_or(0);
    &buf[..len]
}

// What the arguments ask for.
pub(crate) fn asked(rt: &(impl Env + Eprint)) -> Option<Wanted> {
    let mut buf = [0u8; 4096];
    match from_utf8(argument(rt, 2, &mut buf)) {
        Ok("sheets") => Some(Wanted::Sheets),
        Ok("lookup") => Some(Wanted::Lookup(cell(number(rt, 4)?))),
        Ok("back") => Some(Wanted::Back(number(rt, 4)? as usize)),
        Ok("add") => Some(Wanted::Add(number(rt, 5)? as usize)),
        _ => complain(
            rt,
            "What is wanted of the book: sheets, lookup, back or add?",
        ),
    }
}

// Argument i as a number, decimal without leading zeros. One beyond 32 bits is given as
// 4,294,967,296: more than any cell, place or room that counts here.
fn number(rt: &(impl Env + Eprint), i: usize) -> Option<u64> {
    let mut buf = [0u8; 4096];
    text::decimal_in(argument(rt, i, &mut buf)).or_else(|| {
        complain(rt, "A number is wanted, decimal and without leading zeros.")
    })
}

// A number as a cell: no book has the greatest.
fn cell(n: u64) -> u32 {
    u32::try_from(n).unwrap_or(u32::MAX)
}
