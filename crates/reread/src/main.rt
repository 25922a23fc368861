// Sheets from standard input, read by the proved reader and written again by the proved writer, a
// line for each. tools/compare-sheets holds the lines to a second program, second/sheets.py.
//
// The input, of at most 65,536 bytes, is a row of records: a length of 2 bytes, low byte first, and
// so many bytes, which are read as a sheet. A record that is cut short ends the run.
//
// The records of the file stdin beside src/: 01's examples 1 and 2, cell 1 open, day -1, the days at
// both ends; not good: example 1 without its last byte, kind 3, 65 desks, open with a day, no byte
// at all, turn number 4,294,967,295; good: 4,294,967,294; and one that is cut short.
#![tactic(auto)]

ghost use Rattle.std.specs.Prelude.{◌<◌, length, IfSome};

use answer::Refusal;
use arrayvec::ArrayString;
use content::Content;
use layout::{Entry, Numbers};
use std::fmt;
use std::fmt::{Display, Write};

// What is said of the bytes of a record.
#[derive(Clone, Copy)]
struct Reread<'a>(&'a [u8]);

impl Display for Reread<'_> {
    fn fmt<W: fmt::Write>(&self, f: &mut fmt::Formatter<W>) -> fmt::Result {
        let n = match sheet::read(self.0) {
            Ok(n) => n,
            Err(refusal) => return refusal.fmt(f),
        };
        write!(
            f,
            "sender {} of {}, {} cells, turn {}:",
            n.sender, n.desks, n.cells, n.turn
        )?;
        for k in 0..n.entries {
            let e = sheet::entry_at(self.0, k);
            write!(f, " {} {}", e.cell, e.content())?;
        }
        match comes_again(self.0, n) {
            Ok(true) => f.write_str(" again"),
            Ok(false) => f.write_str(" OTHER"),
            Err(refusal) => write!(f, " {refusal}"),
        }
    }
}

// Whether the same bytes come of writing what was read. The room is full of 255 at first, so that a
// zero byte which the writer forgets shows. A function of its own, or a record that is refused would
// pay for the room.
#[inline(never)]
fn comes_again(s: &[u8], n: Numbers) -> Result<bool, Refusal> {
    let mut room = [255; 396];
    let len = writer::write(&mut room, n, &entries_again(s))?;
    Ok(room.get(..len) == Some(s))
}

// The entries of a sheet, each made anew from its cell and content. All 64 places are filled, also
// those past the sheet's entries: the writer takes as many as the numbers say.
fn entries_again(s: &[u8]) -> [Entry; 64] {
    let mut es = [Entry::of(0, Content::Blank); 64];
    for k in 0..64u8 {
        let e = sheet::entry_at(s, k);
        es[usize::from(k)] = Entry::of(e.cell, e.content());
    }
    es
}

// The bytes of the record at the front, and what is behind them; none where it is cut short.
fn first_record(input: &[u8]) -> Option<(&[u8], &[u8])>
    ensures { IfSome result (λ r. length r.1.now < length input.now) }
{
    let (len, rest) = input.split_first_chunk::<2>()?;
    rest.split_at_checked(usize::from(u16::from_le_bytes(*len)))
}

// A line for each record, which goes out in one piece: the longest, with 64 entries, has less than
// 1,300 bytes. A write that fails is passed over.
fn say_records(rt: &impl Print, input: &[u8]) {
    let mut line = ArrayString::<2048>::new();
    let mut rest = input;
    while let Some((record, behind)) = first_record(rest) {
        line.clear();
        let _ = writeln!(line, "{}", Reread(record));
        let _ = rt.write_all(line.as_bytes());
        rest = behind;
    }
}

fn main(rt: HostRuntime) {
    let mut space = [0u8; 65536];
    // A read that fails is taken for the input's end.
    let (len, _) = word::read_all(&mut rt.stdin(), &mut space);
    say_records(&rt, &space[..len]);
}
