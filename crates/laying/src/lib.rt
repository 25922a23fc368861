// Bytes laid over others in a lent buffer: what every write comes to, of a sheet, a place in a tray, a
// book, a listing or a record's bytes.
#![tactic(auto)]

ghost use Rattle.std.specs.Prelude.{◌≡◌};
ghost use Rattle.laying.specs.Laying.{laid_over};

// Lays src over the buffer from `at` on; where it has no room there, every byte stays.
// Stays: a place beside the buffer, and no part of it: `laid_over` says what comes of any place.
#[tactic(auto, using(crate::proofs::Laws::puts))]
pub fn put(buf: &mut [u8], at: usize, src: &[u8])
    ensures { buf.new ≡ laid_over buf.old at src.now }
{
    if at <= buf.len() && src.len() <= buf.len() - at {
        buf[at..at + src.len()].copy_from_slice(src);
    }
}
