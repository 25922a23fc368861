// A sheet, written into a lent buffer. 01, "A sheet and its trailer", and "Writing one from given
// entries and numbers: 13 if it would not be good, 11; bytes past it stay."
//
// `write` takes any numbers and entries and any buffer: all is tested before the first byte is
// written. `put_entry` and `put_trailer` lay one part over a buffer, for a caller that writes a sheet
// part by part.
#![tactic(auto)]

ghost use Rattle.std.specs.Prelude.{◌≡◌};
ghost use Rattle.layout.specs.Layout.{entry_bytes, trailer_bytes};
ghost use Rattle.laying.specs.Laying.{laid_over};
ghost use Rattle.writer.specs.Writing.{Writes};

mod given;

use answer::Refusal;
use layout::{Entry, Numbers, Trailer};

// Lays an entry's 6 bytes over the buffer from `at` on; without room it leaves every byte.
// Stays: the place beside the buffer, of which the clause speaks (`laid_over`), here and below.
pub fn put_entry(buf: &mut [u8], at: usize, e: Entry)
    ensures { buf.new ≡ laid_over buf.old at (entry_bytes e) }
{
    let d = e.day.to_le_bytes();
    let six = [e.cell, e.kind, d[0], d[1], d[2], d[3]];
    laying::put(buf, at, &six);
}

// Lays a trailer's 12 bytes over the buffer from `at` on; without room it leaves every byte.
pub fn put_trailer(buf: &mut [u8], at: usize, t: Trailer)
    ensures { buf.new ≡ laid_over buf.old at (trailer_bytes t) }
{
    let d = t.distance.to_le_bytes();
    let n = t.turn.to_le_bytes();
    let twelve = [
        d[0], d[1], t.entries, t.sender, t.desks, t.cells, t.zero6, t.zero7, n[0], n[1], n[2], n[3],
    ];
    laying::put(buf, at, &twelve);
}

// Writes the sheet of these numbers and of as many of these entries as they say, and gives its
// length. Refusals 13, 11.
pub fn write(buf: &mut [u8], n: Numbers, es: &[Entry]) -> Result<usize, Refusal>
    ensures { Writes n es.now buf.old result buf.new }
{
    let es = es
        .get(..usize::from(n.entries))
        .ok_or(Refusal::SheetNotGood)?;
    let back = 6 * es.len();
    let t = Trailer::from(n);
    Refusal::SheetNotGood.when(!sheet::good_trailer(t, back))?;
    Refusal::SheetNotGood.when(!sheet::all_good(es, n.cells))?;
    Refusal::BufferShort.when(buf.len() < back + 12)?;
    given::put_entries(buf, es);
    put_trailer(buf, back, t);
    Ok(back + 12)
}
