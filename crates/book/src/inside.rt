// A step back inside a book, where something is known already: each gives what `step_back` gives,
// at less cost. They are why a book is tested and looked up at one pass each.
// Stays: two of their own: with `step_back` in their place a sheet costs 68 more (docs/SPEED.md).
// Stays: a test and a difference: by `checked_sub` a sheet costs 106.9 in a pass, and so 102.9.
ghost use Rattle.std.specs.Prelude.{◌≡◌, true, ◌<◌, length};
ghost use Rattle.sheet.specs.Good.{good};
ghost use Rattle.book.specs.Sheets.{last_sheet};
ghost use Rattle.book.specs.Stepping.{step_back};

use crate::Back;

// From the end of what stands up to a place: the sheet is tested part by part where it stands, so
// that the compiler puts the whole of it into the loop that calls it.
#[tactic(auto, using(crate::proofs::Laws::Stepping::steps))]
pub(crate) fn tested_back(up_to: &[u8]) -> Option<Back>
    ensures { result ≡ step_back up_to.now (length up_to.now) }
{
    let place = up_to.len();
    if place < 12 {
        return None;
    }
    let t = sheet::trailer_of(up_to);
    if !sheet::good_trailer(t, t.distance as usize) {
        return None;
    }
    let size = (t.distance as usize) + 12;
    if place < size {
        return None;
    }
    let start = place - size;
    if !sheet::good_entries(&up_to[start..], t.entries, t.cells) {
        return None;
    }
    Some(Back {
        start,
        end: place,
        numbers: t.into(),
    })
}

// The same where a good sheet ends there, or nothing stands up to it: the sheet need not be tested
// again.
#[tactic(auto, using(crate::proofs::Laws::Stepping::steps))]
pub(crate) fn known_back(up_to: &[u8]) -> Option<Back>
    requires { 0 < length up_to.now → good (last_sheet up_to.now) ≡ true }
    ensures { result ≡ step_back up_to.now (length up_to.now) }
{
    let place = up_to.len();
    if place < 12 {
        return None;
    }
    let t = sheet::trailer_of(up_to);
    let size = (t.distance as usize) + 12;
    if place < size {
        return None;
    }
    let start = place - size;
    Some(Back {
        start,
        end: place,
        numbers: t.into(),
    })
}
