// What comes of a call, printed: a line for each answer, and whether it is a refusal. A write that
// fails is passed over.
use answer::Refusal;
use book::{Back, Found};
use reader::Reader;

// `blank`, `open TURN`, `day N TURN`, or a refusal.
pub(crate) fn say_found(rt: &impl Print, found: Result<Option<Found>, Refusal>) -> bool {
    let _ = match found {
        Ok(Some(Found { content, turn })) => println!(rt; "{content} {turn}"),
        Ok(None) => println!(rt; "blank"),
        Err(refusal) => println!(rt; "{refusal}"),
    };
    found.is_err()
}

// `START END`, or `none`.
pub(crate) fn say_back(rt: &impl Print, step: Option<Back>) {
    let _ = match step {
        Some(Back { start, end, .. }) => println!(rt; "{start} {end}"),
        None => println!(rt; "none"),
    };
}

// `added LENGTH`, or a refusal, without the line's end.
pub(crate) fn say_added(rt: &impl Print, added: Result<usize, Refusal>) -> bool {
    let _ = match added {
        Ok(len) => print!(rt; "added {len}"),
        Err(refusal) => print!(rt; "{refusal}"),
    };
    added.is_err()
}

// `sheets N`, or a refusal.
pub(crate) fn say_count(rt: &impl Print, count: Result<usize, Refusal>) -> bool {
    let _ = match count {
        Ok(sheets) => println!(rt; "sheets {sheets}"),
        Err(refusal) => println!(rt; "{refusal}"),
    };
    count.is_err()
}

// `START END TURN SENDER ENTRIES`.
fn say_sheet(rt: &impl Print, sheet: Back) {
    let n = sheet.numbers;
    let _ = println!(rt;
        "{} {} {} {} {}",
        sheet.start, sheet.end, n.turn, n.sender, n.entries
    );
}

// A line for each sheet, the newest first; or a refusal.
pub(crate) fn say_sheets(rt: &impl Print, book: &[u8]) -> bool {
    let count = book::count(book);
    match count {
        Ok(sheets) => {
            let mut reader = Reader::opened(book);
            for _ in 0..sheets {
                if let Some(sheet) = reader.back() {
                    say_sheet(rt, sheet);
                }
            }
        }
        Err(refusal) => {
            let _ = println!(rt; "{refusal}");
        }
    }
    count.is_err()
}
