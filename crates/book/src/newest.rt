// The newest entry for a cell, found from a book's end.
ghost use Rattle.std.specs.Prelude.{◌≡◌, true, ◌+◌, ◌*◌, ◌≤◌, length};
ghost use Rattle.layout.specs.Layout.{entries_of};
ghost use Rattle.sheet.specs.Good.{good};
ghost use Rattle.book.specs.Good.{every_sheet};
ghost use Rattle.book.specs.Sheets.{sheets_of};
ghost use Rattle.book.specs.Lookup.{entry_on, newest};
ghost use Rattle.book.specs.Parts.{found_of};

use crate::{Back, Found, inside};
use layout::Entry;

// "When a step back gives no sheet, the lookup ends at once with that answer." "the lookup's answer
// is then blank."
#[tactic(auto, using(crate::proofs::Laws::Lookup::newests))]
pub(crate) fn entry(book: &[u8], cell: u8) -> Option<Found>
    requires { every_sheet good (sheets_of book.now) ≡ true }
    ensures { result ≡ found_of (newest cell (sheets_of book.now)) }
{
    let mut rest = book;
    // Stays: `let .. else` takes the found sheet's bounds, a form that 01 names (docs/DECISIONS.md).
    loop {
        let Some(
            Back {
                start,
                end,
                numbers,
            },
        ) = inside::known_back(rest)
        else {
            return None;
        };
        if let Some(e) = entry_on(&rest[start..end], numbers.entries, cell) {
            return Some(Found {
                content: e.content(),
                turn: numbers.turn,
            });
        }
        rest = &rest[..start];
    }
}

// The entry for a cell among a sheet's first `count`.
#[tactic(auto, using(crate::proofs::Laws::Lookup::hits))]
fn entry_on(s: &[u8], count: u8, cell: u8) -> Option<Entry>
    requires { 6 * count + 12 ≤ length s.now }
    ensures { result ≡ entry_on cell (entries_of count s.now) }
{
    for k in 0..count {
        if s[6 * usize::from(k)] == cell {
            return Some(sheet::entry_at(s, k));
        }
    }
    None
}
