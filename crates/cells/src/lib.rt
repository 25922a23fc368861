// The 64 places of a record's arrays: each is a kind and a day, the two numbers of a content. The
// arrays are lent, so that no call copies them. specs/Cells.antt says what a place holds.
#![tactic(auto)]

ghost use Rattle.std.specs.Prelude.{◌≡◌};
ghost use Rattle.cells.specs.Cells.{place_at, kind_at, day_at, content_at, filled, anywhere, count, put_if};

use content::Content;

// The places of a shelf, or those of the pending entries.
#[derive(Clone, Copy)]
pub struct Places<'a> {
    pub kinds: &'a [u8; 64],
    pub days: &'a [i32; 64],
}

// What an array of kinds or of days has in place i; past the places there is none, and `none` says
// so.
#[tactic(auto, using(crate::proofs::Laws::reads))]
pub fn at<T: Copy>(places: &[T; 64], i: usize, none: T) -> T
    ensures { result ≡ place_at none places.now i }
{
    if i < 64 { places[i] } else { none }
}

// Whether any of the places is filled.
#[tactic(auto, using(crate::proofs::Laws::scans))]
pub fn any_filled(kinds: &[u8; 64]) -> bool
    ensures { result ≡ anywhere 64 (filled kinds.now) }
{
    let mut any = false;
    // Stays: to the last place, in 20 instructions; `any` stops early, and takes 130.
    for kind in kinds {
        any |= *kind != 0;
    }
    any
}

// How many of the places are filled.
#[tactic(auto, using(crate::proofs::Laws::scans))]
pub fn count_filled(kinds: &[u8; 64]) -> u8
    ensures { result ≡ count 64 (filled kinds.now) }
{
    let mut n = 0;
    // Stays: a sum, in 36 instructions; `filter` and `count` take 455: a send would miss its bar.
    for kind in kinds {
        n += u8::from(*kind != 0);
    }
    n
}

impl Places<'_> {
    // The kind in place i; past the places there is none, and 0 says so.
    pub fn kind(self, i: usize) -> u8
        ensures { result ≡ kind_at self.entry.kinds.now i }
    {
        at(self.kinds, i, 0)
    }

    // The day's number in place i.
    pub fn day(self, i: usize) -> i32
        ensures { result ≡ day_at self.entry.days.now i }
    {
        at(self.days, i, 0)
    }

    // The content in place i.
    pub fn content(self, i: usize) -> Content
        ensures { result ≡ content_at self.entry.kinds.now self.entry.days.now i }
    {
        Content::of(self.kind(i), self.day(i))
    }
}

// Puts x into place i of an array of kinds or of days, where `on` holds.
#[tactic(auto, using(crate::proofs::Laws::places))]
pub fn put<T: Copy>(places: &mut [T; 64], on: bool, i: usize, x: T)
    ensures { places.new ≡ put_if on places.old i x }
{
    if on && i < 64 {
        places[i] = x;
    }
}
