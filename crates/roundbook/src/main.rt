// The program of `./register book`: a round book in a file, looked at or added to. 02, K1.
//
// What is decided is in the crates book and reader; this program reads, prints and replaces files.
// Alone, without an argument, it plays the records on standard input (src/records.rt).
//
// Argument 2 says what is wanted, and argument 3 names the book:
//     sheets BOOK    lookup BOOK CELL    back BOOK PLACE    add BOOK SHEET ROOM

#![tactic(auto)]

mod answers;
mod arguments;
mod files;
mod records;

use answer::Refusal;
use arguments::Wanted;
use std::rt::{Env, Runtime};

// The most bytes that a book in a file may have.
const MOST: usize = 524288;

// The book that argument 3 names, in the front of its room; or a line says why there is none.
fn book_in<'a>(rt: &impl Runtime, room: &'a mut [u8]) -> Option<&'a [u8]> {
    let len = word::read(rt, 3, room)?;
    if MOST < len {
        return arguments::complain(
            rt,
            "A book may have 524,288 bytes here, and this one has more.",
        );
    }
    Some(&room[..len])
}

// What comes of adding, printed and said.
fn say_added(rt: &impl Runtime, added: Result<usize, Refusal>) {
    let refused = answers::say_added(rt, added);
    let _ = println!(rt);
    word::ended(rt, refused);
}

// Adds the sheet to the book with room for so many bytes, and puts the new book in the file's
// place; or a line says why not. A room of so many bytes is lent as it is, or as much of it as there
// is here. A refusal is printed while the file is held: nobody else adds before. The answer is
// whether the file was replaced.
fn add_in<R: Runtime>(rt: &R, room: &mut [u8], file: R::File, s: &[u8], size: usize) -> Option<()> {
    let len = book_in(rt, room)?.len();
    let size = size.min(room.len());
    let added = book::add(&mut room[..size], len, s);
    let Ok(new) = added else {
        say_added(rt, added);
        return None;
    };
    if MOST < new {
        return arguments::complain(
            rt,
            "A book may have 524,288 bytes here, and this one would have more.",
        );
    }
    files::replace(rt, file, room.get(..new)?)?;
    say_added(rt, added);
    Some(())
}

// A sheet has at most 396 bytes, so that 397 show one that is too long.
fn add(rt: &impl Runtime, room: &mut [u8], size: usize) -> Option<()> {
    let mut s = [0u8; 397];
    let len = word::read(rt, 4, &mut s)?;
    let file = files::hold(rt)?;
    let added = add_in(rt, room, file, &s[..len], size);
    if added.is_none() {
        files::let_go(rt);
    }
    added
}

// What the arguments ask for, answered; or a line says why there is no answer.
fn answer(rt: &impl Runtime, room: &mut [u8]) -> Option<()> {
    let refused = match arguments::asked(rt)? {
        Wanted::Sheets => answers::say_sheets(rt, book_in(rt, room)?),
        Wanted::Lookup(cell) => answers::say_found(rt, book::lookup(book_in(rt, room)?, cell)),
        Wanted::Back(place) => {
            answers::say_back(rt, reader::step_from(book_in(rt, room)?, place));
            false
        }
        Wanted::Add(size) => return add(rt, room, size),
    };
    word::ended(rt, refused);
    Some(())
}

fn main(rt: HostRuntime) {
    // Bytes for a book, and behind it for a sheet; a book that reaches beyond MOST shows in them.
    // Stays: an array and no Vec, whose memory could run out: one line more for the same limit.
    let mut space = [0u8; 524685];
    if word::is_there(rt.arg(1, &mut [])) {
        answer(&rt, &mut space);
    } else {
        records::play(&rt, &mut space);
    }
}
