// One pass through a whole book, from its end: whether it is good, how many sheets it has, and the
// newest one's numbers.
ghost use Rattle.std.specs.Prelude.{◌≡◌};
ghost use Rattle.book.specs.Sheets.{sheets_of};
ghost use Rattle.book.specs.Parts.{fits_before, older_of, examined_of, takes_next};

use crate::{Back, inside};
use answer::Refusal;
use layout::Numbers;

// What a pass finds in a good book that has bytes: how many sheets, and the newest one's numbers.
#[derive(Clone, Copy)]
pub(crate) struct Seen {
    pub sheets: usize,
    pub newest: Numbers,
}

// None of a book of no bytes. Refusal 23.
#[tactic(auto, using(crate::proofs::Laws::Examining::examines))]
pub(crate) fn examine(book: &[u8]) -> Result<Option<Seen>, Refusal>
    ensures { result ≡ examined_of book.now }
{
    if book.is_empty() {
        return Ok(None);
    }
    let last = crate::step_back(book, book.len()).ok_or(Refusal::BookNotGood)?;
    let older = sheets_before(&book[..last.start], last.numbers).ok_or(Refusal::BookNotGood)?;
    Ok(Some(Seen {
        sheets: older + 1,
        newest: last.numbers,
    }))
}

// The sheets in what stands before a sheet with the newest's numbers: each is looked at once. None
// where they are not good.
#[tactic(auto, using(crate::proofs::Laws::Examining::olders))]
fn sheets_before(before: &[u8], newest: Numbers) -> Option<usize>
    ensures { result ≡ older_of newest newest.turn (sheets_of before.now) }
{
    let mut rest = before;
    let mut turn = newest.turn;
    let mut sheets = 0;
    while !rest.is_empty() {
        let Back { start, numbers, .. } = inside::tested_back(rest)?;
        if !fits_before(numbers, newest, turn) {
            return None;
        }
        rest = &rest[..start];
        turn = numbers.turn;
        sheets += 1;
    }
    Some(sheets)
}

// Whether a sheet may stand before one of the newest's shelf with this turn number.
fn fits_before(older: Numbers, newest: Numbers, turn: u32) -> bool
    ensures { result ≡ fits_before older newest turn }
{
    (older.desks == newest.desks)
        & (older.cells == newest.cells)
        & (u64::from(older.turn) + 1 == u64::from(turn))
}

// Whether a good sheet with these numbers can be added to such a book.
pub(crate) fn takes(seen: Option<Seen>, n: Numbers) -> bool
    ensures { result ≡ takes_next seen n }
{
    seen.is_none_or(|seen| fits_before(seen.newest, n, n.turn))
}
