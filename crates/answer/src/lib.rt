// What any call answers: a refusal alone, or its values. specs/Answer.antt states it for every call,
// over the call's list of rules, with 01's numbers; code answers a `Result`, and tries its rules one
// after the other by `?`.
#![tactic(auto)]

ghost use Rattle.std.specs.Prelude.{◌≡◌, Option, Some};
ghost use Rattle.answer.specs.Refusals.{number_of, refused_when, shown};

use std::error::Error;
use std::fmt;

// 01, "Numbers given back", and 02, K1: a refusal for each number, in their order. 1 to 4 are "desks,
// cells, own number, mode (above 3) outside its range".
#[derive(Clone, Copy, Debug, PartialEq, Eq, Hash)]
pub enum Refusal {
    DesksOutside,
    CellsOutside,
    OwnNumberOutside,
    ModeOutside,
    // 5: "record not sound".
    NotSound,
    // 6: "cell not below m".
    CellNotBelow,
    // 7: "write of blank".
    BlankWritten,
    // 8: "a read waits at this desk".
    ReadWaits,
    // 9: "turn not this desk's".
    TurnElsewhere,
    // 10: "turn number is 4,294,967,295".
    LastTurn,
    // 11: "buffer shorter than the sheet".
    BufferShort,
    // 12: "tray length not 398 × n".
    TrayLength,
    // 13: "sheet not good".
    SheetNotGood,
    // 14: "sheet's desks or cells differ from the record's".
    OtherShelf,
    // 15: "sheet's sender is this desk".
    OwnSheet,
    // 16: "sheet's number below the desk's turn number".
    NumberBelow,
    // 17: "sheet's number at or above turn number + n".
    NumberFarAbove,
    // 18: "sender's place not free".
    PlaceNotFree,
    // 19: "take on the desk's own turn".
    OwnTurn,
    // 20: "first two bytes of the turn desk's place are zero".
    NoSheet,
    // 21: "place does not hold a good sheet of this shelf with that sender and turn number, followed
    // by zeros".
    NotThatSheet,
    // 22: "date or day outside the calendar".
    OutsideCalendar,
    // 23: the book is not good, or the sheet does not follow it.
    BookNotGood,
}

impl Refusal {
    // 01's number.
    pub fn number(self) -> u8
        ensures { result ≡ number_of self }
    {
        self as u8 + 1
    }

    // The refusal, where its rule applies: `Refusal::NotSound.when(!ok)?` is a row of 01's table.
    pub fn when(self, applies: bool) -> Result<(), Refusal>
        ensures { result ≡ refused_when self applies }
    {
        if applies { Err(self) } else { Ok(()) }
    }
}

// "refused 13", as the programs print it.
impl fmt::Display for Refusal {
    ghost output = { λ r. Some (shown r) };

    fn fmt<W: fmt::Write>(&self, f: &mut fmt::Formatter<W>) -> fmt::Result {
        write!(f, "refused {}", self.number())
    }
}

impl Error for Refusal {}
