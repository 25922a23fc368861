// The parts of a sheet: entries, the trailer, and the numbers that it carries. 01, "A sheet and its
// trailer". Where each stands among the bytes is in specs/Layout.antt and docs/SHEET.md.
//
// No function here refuses: each takes every value of its types, forged ones too.
#![tactic(auto)]

ghost use Rattle.std.specs.Prelude.{◌≡◌};
ghost use Rattle.layout.specs.Layout.{entry_for, content_in, numbers_of, trailer_for};

use content::Content;

// An entry as it stands in a sheet: the day is the number of its four bytes. Not every kind and day
// is a good entry's.
// Stays: a byte of a kind and no Content, since any bytes may be read, and `entry_of` keeps them.
#[derive(Clone, Copy, Debug, PartialEq, Eq)]
pub struct Entry {
    pub cell: u8,
    pub kind: u8,
    pub day: u32,
}

// A trailer as it stands in a sheet.
// Stays: no `Numbers` in it: its numbers lie apart (`trailer_bytes`); `good_trailer` names each.
#[derive(Clone, Copy, Debug, PartialEq, Eq)]
pub struct Trailer {
    pub distance: u16,
    pub entries: u8,
    pub sender: u8,
    pub desks: u8,
    pub cells: u8,
    pub zero6: u8,
    pub zero7: u8,
    pub turn: u32,
}

// The numbers that a trailer carries.
#[derive(Clone, Copy, Debug, PartialEq, Eq)]
pub struct Numbers {
    pub entries: u8,
    pub sender: u8,
    pub desks: u8,
    pub cells: u8,
    pub turn: u32,
}

impl Entry {
    // The entry of a content in a cell. Of a blank it is no good entry: blanks are never sent.
    pub fn of(cell: u8, c: Content) -> Entry
        ensures { result ≡ entry_for cell c }
    {
        let kind = c.kind();
        let day = c.day().cast_unsigned();
        Entry { cell, kind, day }
    }

    // The content of an entry.
    pub fn content(self) -> Content
        ensures { result ≡ content_in self }
    {
        Content::of(self.kind, self.day.cast_signed())
    }
}

// The numbers that a trailer carries.
impl From<Trailer> for Numbers {
    ghost from_gives = { λ t result. result ≡ numbers_of t };

    fn from(t: Trailer) -> Numbers {
        let Trailer {
            entries,
            sender,
            desks,
            cells,
            turn,
            ..
        } = t;
        Numbers {
            entries,
            sender,
            desks,
            cells,
            turn,
        }
    }
}

// The trailer that carries the numbers.
impl From<Numbers> for Trailer {
    ghost from_gives = { λ n result. result ≡ trailer_for n };

    fn from(n: Numbers) -> Trailer {
        let Numbers {
            entries,
            sender,
            desks,
            cells,
            turn,
        } = n;
        Trailer {
            distance: 6 * u16::from(entries),
            entries,
            sender,
            desks,
            cells,
            zero6: 0,
            zero7: 0,
            turn,
        }
    }
}
