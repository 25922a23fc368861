// A round book: sent sheets end to end in one lent slice, in turn order. 02, K1: "A book opens at
// its end: the trailer gives the last sheet's start, and the sheet before ends there."
//
// A book is any slice of bytes, of any length; a sheet of it stays where it lies. What makes a book
// good is in specs/Good.antt. A reader that keeps its place is the crate reader's.
#![tactic(auto)]

ghost use Rattle.std.specs.Prelude.{◌≡◌};
ghost use Rattle.book.specs.Stepping.{step_back, place_after};
ghost use Rattle.book.specs.Good.{good_book};
ghost use Rattle.book.specs.Counting.{count_of, said_count};
ghost use Rattle.book.specs.Lookup.{lookup_of, said_found};
ghost use Rattle.book.specs.Adding.{Adds};

mod examined;
mod inside;
mod newest;

use answer::Refusal;
use content::Content;
use layout::Numbers;

// A sheet that a step back gives, by where it starts and ends in the book, with its trailer's
// numbers.
#[derive(Clone, Copy)]
pub struct Back {
    pub start: usize,
    pub end: usize,
    pub numbers: Numbers,
}

// What a lookup finds: an entry's content, and its sheet's turn number.
#[derive(Clone, Copy)]
pub struct Found {
    pub content: Content,
    pub turn: u32,
}

// One step back from a place: the good sheet that ends just there. "A step back gives none at the
// front or where no good sheet ends", nor beyond the book.
#[tactic(auto, using(crate::proofs::Laws::Stepping::back_steps))]
pub fn step_back(book: &[u8], place: usize) -> Option<Back>
    ensures { result ≡ step_back book.now place }
{
    let up_to = book.get(..place)?;
    let size = (sheet::trailer_of(up_to).distance as usize) + 12;
    let start = place.checked_sub(size)?;
    let numbers = sheet::read(&up_to[start..]).ok()?;
    Some(Back {
        start,
        end: place,
        numbers,
    })
}

// Where a reader at this place stands after a step: at the start of the sheet, or where it was.
pub fn place_after(step: Option<Back>, place: usize) -> usize
    ensures { result ≡ place_after step place }
{
    step.map_or(place, |sheet| sheet.start)
}

// "A book is good if every sheet is, all have the same desks and cells, and turn numbers rise by
// 1".
pub fn good(book: &[u8]) -> bool
    ensures { result ≡ good_book book.now }
{
    examined::examine(book).is_ok()
}

// How many sheets there are. Refusal 23.
pub fn count(book: &[u8]) -> Result<usize, Refusal>
    ensures { said_count result ≡ count_of book.now }
{
    Ok(examined::examine(book)?.map_or(0, |seen| seen.sheets))
}

// "A lookup gives the newest entry for a cell with its sheet's turn number, or blank if no sheet
// has one": blank, which has no number, is none. Refusals 23, 6.
pub fn lookup(book: &[u8], cell: u32) -> Result<Option<Found>, Refusal>
    ensures { said_found result ≡ lookup_of book.now cell }
{
    let seen = examined::examine(book)?;
    let cells = seen.map_or(64, |seen| seen.newest.cells);
    Refusal::CellNotBelow.when(u32::from(cells) <= cell)?;
    Ok(newest::entry(book, cell as u8))
}

// "A sheet is added at the end; other bytes stay": at the end of the book of this length, which
// stands at the front of its room; its new length. Refusals 13, 23, 11.
pub fn add(room: &mut [u8], len: usize, s: &[u8]) -> Result<usize, Refusal>
    ensures { Adds room.old len s.now result room.new }
{
    let numbers = sheet::read(s)?;
    Refusal::BookNotGood.when(room.len() < len)?;
    let seen = examined::examine(&room[..len])?;
    Refusal::BookNotGood.when(!examined::takes(seen, numbers))?;
    Refusal::BufferShort.when(room.len() - len < s.len())?;
    laying::put(room, len, s);
    Ok(len + s.len())
}
