// The bytes of an entry and of a trailer, read.
ghost use Rattle.std.specs.Prelude.{◌≡◌};
ghost use Rattle.layout.specs.declared.Entry.{Entry};
ghost use Rattle.layout.specs.Layout.{entry_of, trailer_of};

use layout::{Entry, Trailer};

// What is read as an entry: the six bytes of one, or an entry itself.
pub trait AsEntry {
    ghost read_as: { Self → Entry };

    fn as_entry(&self) -> Entry
        ensures { result ≡ read_as self.now };
}

impl AsEntry for [u8; 6] {
    ghost read_as = { λ b. entry_of b };

    fn as_entry(&self) -> Entry {
        Entry {
            cell: self[0],
            kind: self[1],
            day: u32::from_le_bytes([self[2], self[3], self[4], self[5]]),
        }
    }
}

impl AsEntry for Entry {
    ghost read_as = { λ e. e };

    fn as_entry(&self) -> Entry {
        *self
    }
}

pub(crate) fn trailer_of(b: &[u8; 12]) -> Trailer
    ensures { result ≡ trailer_of b.now }
{
    Trailer {
        distance: u16::from_le_bytes([b[0], b[1]]),
        entries: b[2],
        sender: b[3],
        desks: b[4],
        cells: b[5],
        zero6: b[6],
        zero7: b[7],
        turn: u32::from_le_bytes([b[8], b[9], b[10], b[11]]),
    }
}
