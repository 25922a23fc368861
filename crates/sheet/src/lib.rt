// A sheet, read where it lies. 01, "A sheet and its trailer".
//
// `read` takes any slice, in one pass and without a copy: a good sheet gives its trailer's numbers,
// and its entries stay in the slice, where `entry_at` reads them one by one. What makes a sheet
// good is in specs/Good.antt; what it is made of is the crate layout's.
#![tactic(auto)]

ghost use Rattle.std.specs.Prelude.{◌≡◌};
ghost use Rattle.sheet.specs.Reading.{reading_of, said_read, trailer_at_end, entry_at};

mod bytes;
mod good;

use answer::Refusal;
pub use bytes::AsEntry;
pub use good::{all_good, good_entries, good_entry, good_trailer};
use layout::{Entry, Numbers, Trailer};

// 01, "Reading a sheet: 13." Any slice, of any length: the numbers of a good sheet, whose entries
// are the first `entries` in the slice.
pub fn read(s: &[u8]) -> Result<Numbers, Refusal>
    ensures { said_read s.now result ≡ reading_of s.now }
{
    Refusal::SheetNotGood.when(s.len() < 12)?;
    let t = trailer_of(s);
    Refusal::SheetNotGood.when(!good_trailer(t, s.len() - 12))?;
    Refusal::SheetNotGood.when(!good_entries(s, t.entries, t.cells))?;
    Ok(Numbers::from(t))
}

// The trailer at the end of bytes, for whoever goes back through sheets that stand end to end;
// zeros, which are of no good sheet, where the bytes are too few.
#[tactic(auto, using(crate::proofs::Laws::Reading::trailers))]
pub fn trailer_of(s: &[u8]) -> Trailer
    ensures { result ≡ trailer_at_end s.now }
{
    match s.last_chunk() {
        Some(twelve) => bytes::trailer_of(twelve),
        None => bytes::trailer_of(&[0; 12]),
    }
}

// Entry k of a sheet, counted from 0, where it stands; zeros, which are of no kind, where the sheet
// has no entry k: the trailer, its last 12 bytes, is never read as an entry.
pub fn entry_at(s: &[u8], k: u8) -> Entry
    ensures { result ≡ entry_at s.now k }
{
    let at = 6 * usize::from(k);
    match s.get(at..at + 18).and_then(|room| room.first_chunk()) {
        Some(six) => six.as_entry(),
        None => [0; 6].as_entry(),
    }
}
