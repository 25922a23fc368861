// The clauses of "A sheet is good if", of its trailer and of its entries.
ghost use Rattle.std.specs.Prelude.{◌≡◌, map};
ghost use Rattle.sheet.specs.Clauses.{good_trailer, good_entry, good_entries, good_entries_in, in_32_bits};

use crate::AsEntry;
use layout::{Entry, Trailer};

// A trailer with `back` bytes before it. What a desk's number is divided by is tested before it is.
// Stays: returns: 33.6, as one `&&` 48.6: a book's sheet would take 114; it has 99 (docs/SPEED.md).
pub fn good_trailer(t: Trailer, back: usize) -> bool
    ensures { result ≡ good_trailer t back }
{
    if t.distance != 6 * u16::from(t.entries) || usize::from(t.distance) != back {
        return false;
    }
    if !(1..=16).contains(&t.desks) || !(1..=64).contains(&t.cells) {
        return false;
    }
    if t.desks <= t.sender || !((t.zero6 == 0) & (t.zero7 == 0)) {
        return false;
    }
    t.turn <= 4294967294 && t.turn % u32::from(t.desks) == u32::from(t.sender)
}

// An entry of a sheet with so many cells, whose cell is to be `least` or above: 0 for the first
// entry, else one more than the cell before.
pub fn good_entry(cells: u8, least: u32, e: Entry) -> bool
    ensures { result ≡ good_entry cells least e }
{
    least <= u32::from(e.cell)
        && e.cell < cells
        && match e.kind {
            1 => e.day == 0,
            2 => true,
            _ => false,
        }
}

// Entries of a sheet with so many cells, given or read, each looked at once, up to the first that is
// not good. Their days have 32 bits, so they are as good as they are on the line.
pub fn all_good<E: AsEntry>(es: &[E], cells: u8) -> bool
    ensures clauses { result ≡ good_entries cells (map E.read_as es.now) }
    ensures on_the_line { result ≡ good_entries cells (map in_32_bits (map E.read_as es.now)) }
{
    let mut least = 0;
    for e in es {
        let e = e.as_entry();
        if !good_entry(cells, least, e) {
            return false;
        }
        least = u32::from(e.cell) + 1;
    }
    true
}

// The first n entries of bytes; none is where the bytes end before them.
pub fn good_entries(s: &[u8], n: u8, cells: u8) -> bool
    ensures { result ≡ good_entries_in s.now n cells }
{
    let end = 6 * usize::from(n);
    end <= s.len() && all_good(s[..end].as_chunks::<6>().0, cells)
}
