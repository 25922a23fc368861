// The pending entries of a desk, written as its sheet. 01, "Send": "Writes one sheet with every
// pending entry, an empty sheet if there are none .. Bytes of the lent buffer past the sheet stay."
//
// Few cells are pending as a rule: eight places at a time are passed over where none is filled.
#![tactic(auto)]

ghost use Rattle.std.specs.Prelude.{◌≡◌, ◌+◌, ◌≤◌, length};
ghost use Rattle.laying.specs.Laying.{laid_over};
ghost use Rattle.layout.specs.Layout.{entries_bytes};
ghost use Rattle.pending.specs.Pending.{pending_entries, Sends};
ghost use Rattle.pending.specs.Parts.{some_of_eight, pending_at, pending_from, Lays};

use answer::Refusal;
use cells::Places;
use layout::{Entry, Numbers, Trailer};
use sound::Head;

// Whether one of the eight places from `from` on is filled.
fn some_of_eight(kinds: &[u8; 64], from: usize) -> bool
    requires { from + 8 ≤ 64 }
    ensures { result ≡ some_of_eight kinds.now from }
{
    kinds[from..from + 8].iter().any(|kind| *kind != 0)
}

// Lays the entry of place i over the buffer from `at` on, where the place is filled; answers where
// it ends.
// Stays: the place beside the buffer, of which the clause speaks (`Lays`), here and below.
fn lay_one(buf: &mut [u8], at: usize, pending: Places, i: usize) -> usize
    requires { at + length (entries_bytes (pending_at pending.kinds.now pending.days.now i)) ≤ length buf.old }
    ensures { Lays buf.old at (entries_bytes (pending_at pending.entry.kinds.now pending.entry.days.now i)) result buf.new }
{
    let kind = pending.kind(i);
    if kind == 0 {
        return at;
    }
    let e = Entry {
        cell: i as u8,
        kind,
        day: pending.day(i).cast_unsigned(),
    };
    writer::put_entry(buf, at, e);
    at + 6
}

// The same for the eight places from `from` on.
fn lay_eight(buf: &mut [u8], at: usize, pending: Places, from: usize) -> usize
    requires { (from + 8 ≤ 64) × (at + length (entries_bytes (pending_from pending.kinds.now pending.days.now from 8)) ≤ length buf.old) }
    ensures { Lays buf.old at (entries_bytes (pending_from pending.entry.kinds.now pending.entry.days.now from 8)) result buf.new }
{
    if !some_of_eight(pending.kinds, from) {
        return at;
    }
    let mut end = at;
    for i in 0..8 {
        end = lay_one(buf, end, pending, from + i);
    }
    end
}

// Lays every pending entry over the front of the buffer.
fn lay_all(buf: &mut [u8], pending: Places)
    requires { length (entries_bytes (pending_entries pending.kinds.now pending.days.now)) ≤ length buf.old }
    ensures { buf.new ≡ laid_over buf.old 0 (entries_bytes (pending_entries pending.entry.kinds.now pending.entry.days.now)) }
{
    let mut end = 0;
    for i in 0..8 {
        end = lay_eight(buf, end, pending, 8 * i);
    }
}

// Writes the sheet of a desk with these numbers and pending places; answers its number of entries.
// Refusal 11.
pub fn write_sheet(buf: &mut [u8], h: Head, pending: Places) -> Result<u8, Refusal>
    ensures { Sends h pending.entry.kinds.now pending.entry.days.now buf.old result buf.new }
{
    let count = cells::count_filled(pending.kinds);
    let back = 6 * (count as usize);
    Refusal::BufferShort.when(buf.len() < back + 12)?;
    lay_all(buf, pending);
    let numbers = Numbers {
        entries: count,
        sender: h.own,
        desks: h.n,
        cells: h.m,
        turn: h.turn,
    };
    writer::put_trailer(buf, back, Trailer::from(numbers));
    Ok(count)
}
