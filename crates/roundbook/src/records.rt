// Records from standard input, played: what tools/compare-books holds to a second program.
//
// The input, of at most 524,685 bytes, is a row of records. Numbers are low byte first:
//     s  length (4), the book                  the lines of `sheets`, and then `end`
//     c  length (4), the book                  `sheets N`
//     l  cell (1), length (4), the book        a lookup
//     b  place (8), length (4), the book       a step back
//     a  length of the book (8), of the sheet (2), of the room (4), the sheet, the room:
//                                              adding; then, in hexadecimal, the room afterwards
// A record of another letter, or one that is cut short, ends the run.
ghost use Rattle.std.specs.Prelude.{◌+◌, ◌<◌, ◌≤◌, length, OnSome};

use crate::answers;
use std::io;

#[derive(Drop)]
enum Record<'a> {
    Sheets(&'a [u8]),
    Count(&'a [u8]),
    Lookup {
        cell: u8,
        book: &'a [u8],
    },
    Back {
        place: usize,
        book: &'a [u8],
    },
    Add {
        len: usize,
        sheet: &'a [u8],
        room: &'a mut [u8],
    },
}

// What is left of the input. Each method takes its front off, and gives none where it is too short.
#[derive(Drop)]
struct Records<'a> {
    rest: &'a mut [u8],
}

impl<'a> Records<'a> {
    // So many bytes.
    fn bytes(&mut self, n: usize) -> Option<&'a mut [u8]>
        ensures { OnSome result (length self.new.rest.now + n ≤ length self.old.rest.now) }
    {
        self.rest.split_off_mut(..n)
    }

    // The bytes of a number.
    fn array<const N: usize>(&mut self) -> Option<[u8; N]>
        ensures { OnSome result (length self.new.rest.now + N ≤ length self.old.rest.now) }
    {
        self.bytes(N)?.first_chunk().copied()
    }

    // A book, behind its length.
    fn book(&mut self) -> Option<&'a [u8]>
        ensures { OnSome result (length self.new.rest.now ≤ length self.old.rest.now) }
    {
        let len = u32::from_le_bytes(self.array()?);
        let book = self.bytes(len as usize)?;
        Some(book)
    }

    // The record at the front, or none where the run ends.
    fn next(&mut self) -> Option<Record<'a>>
        ensures { OnSome result (length self.new.rest.now < length self.old.rest.now) }
    {
        let [letter] = self.array::<1>()?;
        // Stays: a match: it reads a byte of the input, and makes a case of an enum of it.
        match letter {
            b's' => Some(Record::Sheets(self.book()?)),
            b'c' => Some(Record::Count(self.book()?)),
            b'l' => {
                let [cell] = self.array::<1>()?;
                let book = self.book()?;
                Some(Record::Lookup { cell, book })
            }
            b'b' => {
                let place = usize::from_le_bytes(self.array()?);
                let book = self.book()?;
                Some(Record::Back { place, book })
            }
            b'a' => {
                let len = usize::from_le_bytes(self.array()?);
                let size = u16::from_le_bytes(self.array()?);
                let most = u32::from_le_bytes(self.array()?);
                let sheet = self.bytes(size as usize)?;
                let room = self.bytes(most as usize)?;
                Some(Record::Add { len, sheet, room })
            }
            _ => None,
        }
    }
}

fn say_hex(rt: &impl Print, room: &[u8]) {
    for b in room {
        let _ = print!(rt; "{b:02x}");
    }
}

// The call that a record is, made.
fn play_one(rt: &impl Print, record: Record) {
    match record {
        Record::Sheets(book) => {
            answers::say_sheets(rt, book);
            let _ = println!(rt; "end");
        }
        Record::Count(book) => {
            answers::say_count(rt, book::count(book));
        }
        Record::Lookup { cell, book } => {
            answers::say_found(rt, book::lookup(book, u32::from(cell)));
        }
        Record::Back { place, book } => {
            answers::say_back(rt, reader::step_from(book, place));
        }
        Record::Add { len, sheet, room } => {
            answers::say_added(rt, book::add(room, len, sheet));
            let _ = print!(rt; " ");
            say_hex(rt, room);
            let _ = println!(rt);
        }
    }
}

// A read that fails is taken for the input's end.
pub(crate) fn play(rt: &(impl io::Input + Print), room: &mut [u8]) {
    let (len, _) = word::read_all(&mut rt.reader(), room);
    let mut records = Records {
        rest: &mut room[..len],
    };
    while let Some(record) = records.next() {
        play_one(rt, record);
    }
}
