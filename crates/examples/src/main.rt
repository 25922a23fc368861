// The examples of document 01, run by the code and printed; the file stdout beside src/ is what they
// must print. It is the program of `./register show`. Those marked (P) are proved of the definitions
// too, all by one statement: crates/edges. A write that fails is passed over.
#![tactic(auto)]

mod told;

use calendar::Date;
use cells::Places;
use content::Content;
use desk::{Answer, Desk, Outcome};
use layout::{Entry, Numbers};
use sound::Head;
use told::{OrRefused, Told};

// " 01 02 FF"
fn say_bytes(rt: &impl Print, bytes: &[u8]) {
    for byte in bytes {
        let _ = print!(rt; " {byte:02X}");
    }
}

// Example 7: how a content stands on a day.
fn standings(rt: &impl Print) {
    let cases = [
        (Content::Day(0), 0),
        (Content::Day(0), 1),
        (Content::Blank, 1),
        (Content::Open, 1),
        (Content::Day(i32::MAX), i32::MIN),
    ];
    for (content, today) in cases {
        let _ = println!(rt; "{content} on day {today}: {}", content.standing(today));
    }
}

// Example 8: a date's day.
fn dates(rt: &impl Print) {
    for (year, month, day) in [(1970, 1, 1), (2000, 1, 1), (2000, 2, 29), (1901, 2, 29)] {
        let date = Date { year, month, day };
        let _ = println!(rt; "{date}: {}", OrRefused(date.number().map(Content::Day)));
    }
}

// And a day's date.
fn days(rt: &impl Print) {
    for day in [-1, -25202, 84007] {
        let _ = println!(rt; "day {day}: {}", OrRefused(Date::of_day(day)));
    }
}

// Examples 1 to 3 and 9: the sheet that desk 0 of 2 sends at turn 0, with so many entries, of which
// each has this content in cell 1, written into a buffer of so many bytes and read back.
fn sheets(rt: &impl Print) {
    let cases = [
        (1, Content::Day(0), 2, 24),
        (0, Content::Blank, 2, 24),
        (1, Content::Day(-1), 2, 24),
        (1, Content::Open, 2, 24),
        (1, Content::Blank, 2, 24),
        (1, Content::Open, 1, 24),
        (2, Content::Open, 2, 24),
        (0, Content::Blank, 2, 11),
        (0, Content::Blank, 2, 12),
    ];
    for (entries, content, cells, size) in cases {
        let _ = match entries {
            0 => print!(rt; "nothing pending"),
            1 => print!(rt; "cell 1 {content}"),
            _ => print!(rt; "cell 1 {content} twice"),
        };
        let _ = print!(rt; ", of {cells} cells, into {size} bytes:");
        let numbers = Numbers {
            entries,
            sender: 0,
            desks: 2,
            cells,
            turn: 0,
        };
        // 255 at first, as below, so that a zero byte which the writer forgets shows.
        if let Some(buf) = [255u8; 24].get_mut(..size) {
            write_into(rt, buf, numbers, Entry::of(1, content));
        }
    }
}

fn write_into(rt: &impl Print, buf: &mut [u8], numbers: Numbers, entry: Entry) {
    match writer::write(buf, numbers, &[entry; 64]) {
        Ok(len) => {
            if let Some(sheet) = buf.get(..len) {
                say_bytes(rt, sheet);
                read_back(rt, sheet);
            }
        }
        Err(refusal) => {
            let _ = println!(rt; " {refusal}");
        }
    }
}

fn read_back(rt: &impl Print, sheet: &[u8]) {
    let _ = match sheet::read(sheet) {
        Ok(
            Numbers {
                entries,
                sender,
                desks,
                turn,
                ..
            },
        ) => {
            let _ = print!(rt; "\n  reads back: desk {sender} of {desks}, turn {turn}");
            if 0 < entries {
                let entry = sheet::entry_at(sheet, 0);
                let _ = print!(rt; ", cell {} {}", entry.cell, entry.content());
            }
            println!(rt; "")
        }
        Err(refusal) => println!(rt; "{refusal}"),
    };
}

// Desk `own` of n desks, m cells, opened in a mode; and a desk after a write.
fn opened(n: u32, m: u32, own: u32, mode: u32) -> Desk {
    Desk::open(n, m, own, mode).desk
}

fn wrote(desk: Desk, cell: u32, content: Content) -> Desk {
    desk.write(cell, content).desk
}

// Examples 1, 2 and 9: a desk sends what it has pending into the buffer.
fn sends(rt: &impl Print, buf: &mut [u8], pending: &str, desk: Desk) {
    let answer = desk.send(buf).answer;
    let size = buf.len();
    let _ = print!(rt; "desk 0 of 2, 2 cells, {pending} pending, sends into {size} bytes: ");
    let _ = print!(rt; "{}", OrRefused(answer.map(Told)));
    if let Ok(Answer::Sent { entries, .. }) = answer
        && let Some(sheet) = buf.get(..12 + 6 * entries as usize)
    {
        let _ = print!(rt; ":\n ");
        say_bytes(rt, sheet);
    }
    let _ = println!(rt; "");
}

// Example 4: desk 1 has day 5 pending and takes desk 0's sheet with day 9 in that cell.
fn nine_taken(mode: u32) -> Outcome {
    let mut sheet = [0u8; 18];
    let zero = wrote(opened(2, 2, 0, mode), 0, Content::Day(9));
    zero.send(&mut sheet);
    let one = wrote(opened(2, 2, 1, mode), 0, Content::Day(5));
    let mut tray = [0u8; 796];
    one.deliver(&mut tray, &sheet);
    one.take(&mut tray)
}

fn takes_nine(rt: &impl Print) {
    for (name, mode) in [("causal", 2), ("sequential", 1), ("cache", 3)] {
        let Outcome { answer, desk } = nine_taken(mode);
        let answer = OrRefused(answer.map(Told));
        let shelf = Places {
            kinds: &desk.kind,
            days: &desk.day,
        };
        let pending = Places {
            kinds: &desk.pkind,
            days: &desk.pday,
        };
        let _ = print!(rt; "{name}, day 5 pending, day 9 taken in that cell: {answer}, ");
        let _ = println!(rt;
            "shelf {}, pending {}",
            shelf.content(0),
            pending.content(0)
        );
    }
}

// Example 5: the turn is always its own.
fn one_desk(rt: &impl Print) {
    let desk = wrote(opened(1, 2, 0, 1), 0, Content::Day(5));
    let answer = OrRefused(desk.read(1).answer.map(Told));
    let _ = println!(rt; "one desk, sequential, cell 0 pending, reads cell 1: {answer}");
}

// Desk `own` of 3, blank, at a turn number.
fn at_turn(own: u32, turn: u32) -> Desk {
    let desk = opened(3, 1, own, 1);
    Desk {
        head: Head { turn, ..desk.head },
        ..desk
    }
}

// Example 6: desk 1 is delivered desk 0's sheet of a turn number.
fn delivered_at_4(rt: &impl Print) {
    for turn in [3, 6, 9] {
        let mut sheet = [0u8; 12];
        at_turn(0, turn).send(&mut sheet);
        let answer = at_turn(1, 4).deliver(&mut [0u8; 1194], &sheet).answer;
        let answer = OrRefused(answer.map(Told));
        let _ = println!(rt; "desk 1 of 3 at turn 4, desk 0's sheet {turn}: {answer}");
    }
}

fn main(rt: HostRuntime) {
    standings(&rt);
    dates(&rt);
    days(&rt);
    sheets(&rt);
    let fresh = opened(2, 2, 0, 0);
    let day_0 = wrote(fresh, 1, Content::Day(0));
    sends(&rt, &mut [255u8; 24], "cell 1 day 0", day_0);
    sends(&rt, &mut [255u8; 24], "nothing", fresh);
    takes_nine(&rt);
    one_desk(&rt);
    delivered_at_4(&rt);
    sends(&rt, &mut [0u8; 11], "nothing", fresh);
    sends(&rt, &mut [0u8; 12], "nothing", fresh);
    word::ended(&rt, false);
}
