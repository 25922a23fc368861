// Makes a call of a desk many times over, so that its instructions can be counted: tools/cost runs
// this under callgrind, and docs/SPEED.md keeps the table.
//
// The input, of at most 4,096 bytes, is a row of lines of 11 bytes, as `r 1 34 100`: a call, a state,
// a cell, and how often. The desk has 15 others and 64 cells, of which 5, 33 and 63 are pending. The
// states 1, 2 and 3 are the modes; 4 is mode 1 with a read that waits. The calls:
//   x  sound                               y  sound, of a desk with all cells pending
//   w  write, of a day                     o  write, of open
//   r  read
//   s  send, of the three entries
//   d  deliver, of a sheet with 64 entries
//   t  take, of that sheet                 e  take, where the place is empty
// For each line it says the sum of the answers: 1 for what is sound, stored, read or held, 2 for a
// read that waits, the entries of a sheet sent, those applied of a sheet taken, 0 for a refusal.
//
// What is counted is a call as a function of its own, compiled for any arguments. For that each call
// stands twice here, or the compiler would build it into its one caller; and `make` stands twice, once
// with bytes of which the compiler does not know the length.
#![tactic(auto)]

ghost use Rattle.std.specs.Prelude.{◌≡◌, ◌≤◌, length};

use answer::Refusal;
use content::Content;
use desk::{Answer, Desk};

fn worth(answer: Result<Answer, Refusal>) -> u64
    ensures { result ≤ 255 }
{
    match answer {
        Err(_) => 0,
        Ok(Answer::Waits) => 2,
        Ok(Answer::Sent { turn: _, entries }) => u64::from(entries),
        Ok(
            Answer::Taken {
                turn: _,
                entries: _,
                applied,
                waited: _,
            },
        ) => u64::from(applied),
        Ok(_) => 1,
    }
}

// `sound` itself is so short that the compiler builds it into any caller. This is counted for it.
#[inline(never)]
fn one_if_sound(d: Desk) -> u64
    ensures { result ≤ 255 }
{
    u64::from(d.sound())
}

// The desk at which a call is made.
fn prepared(state: u32, own: u32) -> Desk {
    let mode = if state == 4 { 1 } else { state };
    let d = Desk::open(16, 64, own, mode).desk;
    let d = d.write(5, Content::Day(7)).desk;
    let d = d.write(33, Content::Day(8)).desk;
    let d = d.write(63, Content::Open).desk;
    if state == 4 { d.read(34).desk } else { d }
}

// Desk 0 with all its cells pending.
fn filled() -> Desk {
    let kind = [2; 64];
    let day = [9; 64];
    Desk {
        kind,
        day,
        pkind: kind,
        pday: day,
        ..Desk::open(16, 64, 0, 1).desk
    }
}

// Its sheet, with 64 entries.
fn full_sheet() -> [u8; 396]
    ensures { 396 ≡ length result }
{
    let mut sheet = [0; 396];
    let _ = filled().send(&mut sheet);
    sheet
}

// What a cell holds.
fn content_of(d: Desk, cell: u32) -> Content {
    match d.read(cell).answer {
        Ok(Answer::Holds(c)) => c,
        _ => Content::Blank,
    }
}

fn delivered(d: Desk, tray: &mut [u8], sheet: &[u8]) -> Desk {
    d.deliver(tray, sheet).desk
}

// Makes the place of desk 0 free: its first two bytes are zero then.
fn free(tray: &mut [u8]) {
    if let Some(len) = tray.get_mut(..2) {
        len.fill(0);
    }
}

fn digit(b: u8) -> u32
    ensures { result ≤ 9 }
{
    match b {
        b'0'..=b'9' => u32::from(b - b'0'),
        _ => 0,
    }
}

// Makes the call of a line once; lent is its buffer or tray. Behind these tests a call seems rare to
// the compiler, which leaves even `write` a function of its own then.
fn make(line: &[u8], d: Desk, c: Content, lent: &mut [u8], sheet: &[u8]) -> u64
    requires { 11 ≤ length line.now }
    ensures { result ≤ 255 }
{
    if line[1] != b' ' || line[3] != b' ' || line[6] != b' ' {
        return 0;
    }
    let cell = 10 * digit(line[4]) + digit(line[5]);
    match line[0] {
        b'x' => one_if_sound(d),
        b'y' => one_if_sound(filled()),
        b'w' => worth(d.write(cell, c).answer),
        b'o' => worth(d.write(cell, Content::Open).answer),
        b'r' => worth(d.read(cell).answer),
        b's' => worth(d.send(lent).answer),
        b'd' => worth(d.deliver(lent, sheet).answer),
        b't' => worth(delivered(d, lent, sheet).take(lent).answer),
        b'e' => worth(d.take(lent).answer),
        _ => 0,
    }
}

fn repeat(line: &[u8], times: u32, d: Desk) -> u64
    requires { 11 ≤ length line.now }
{
    let sheet = full_sheet();
    let c = content_of(d, 5);
    let mut lent = [0; 6368];
    let mut sum: u64 = 0;
    for _ in 0..times {
        free(&mut lent);
        sum += make(line, d, c, &mut lent, &sheet);
    }
    sum
}

// The turn is at desk 0, which sends; desk 1 makes the other calls.
fn own_of(call: u8) -> u32 {
    if call == b's' { 0 } else { 1 }
}

fn times_of(line: &[u8]) -> u32
    requires { 11 ≤ length line.now }
{
    100 * digit(line[7]) + 10 * digit(line[8]) + digit(line[9])
}

// Where a line says 000, its call is made once, with the input as the sheet, and what is past its
// first 4,096 bytes as buffer or tray.
fn answers(line: &[u8], input: &[u8], past: &mut [u8]) -> u64
    requires { 11 ≤ length line.now }
{
    let d = prepared(digit(line[2]), own_of(line[0]));
    match times_of(line) {
        0 => make(line, d, Content::Open, past, input),
        times => repeat(line, times, d),
    }
}

// A write that fails is passed over.
fn say_line(rt: &impl Print, line: &[u8], sum: u64)
    requires { 11 ≤ length line.now }
{
    let _ = rt.write_all(&line[..10]);
    let _ = println!(rt; ": {sum}");
}

fn say_lines(rt: &impl Print, input: &[u8], past: &mut [u8]) {
    for line in input.chunks_exact(11) {
        say_line(rt, line, answers(line, input, past));
    }
}

fn main(rt: HostRuntime) {
    let mut input = rt.stdin();
    let mut space = [0; 4096];
    // A read that fails is taken for the input's end.
    let (len, _) = word::read_all(&mut input, &mut space);
    let mut past = [0; 4096];
    let (more, _) = word::read_all(&mut input, &mut past);
    say_lines(&rt, &space[..len], &mut past[..more]);
}
