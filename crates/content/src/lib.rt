// What a cell holds, and how an image stands on a day. 01, "The shelf and what a cell holds".
//
// How a promise is read, here and in every other crate, is said in docs/READING.md, with the kit's
// words that stand in one.
#![tactic(auto)]

ghost use Rattle.std.specs.Prelude.{◌≡◌, Option, Some};
ghost use Rattle.answer.specs.Answer.{answered};
ghost use Rattle.content.specs.Content.{kind_of, day_of, content_of, shown};
ghost use Rattle.content.specs.Standing.{standing_on, said_standing, shown as shown·standing};

use std::fmt;

// "A cell's content is blank, open, or a day with its signed 32-bit number; each is a case of its
// own." Blank means never written.
// Stays: an enum with a case for nothing, and no Option: document 01 names these three cases.
#[derive(Clone, Copy, Debug, PartialEq, Eq)]
pub enum Content {
    Blank,
    Open,
    Day(i32),
}

// The standing of a content on a given day: not known, open, or so many days left.
#[derive(Clone, Copy, Debug, PartialEq, Eq)]
pub enum Standing {
    Unknown,
    Open,
    Left(i64),
}

impl Content {
    // 01, "Standing": a day gives its number minus today's, exact in 64 bits. Refuses nothing.
    pub fn standing(self, today: i32) -> Standing
        ensures { said_standing result ≡ answered (standing_on self today) }
    {
        match self {
            Content::Blank => Standing::Unknown,
            Content::Open => Standing::Open,
            Content::Day(day) => Standing::Left(i64::from(day) - i64::from(today)),
        }
    }

    // The number of the kind: 0 blank, 1 open, 2 a day.
    // Stays: a number, since an entry's second byte and a record's array of kinds hold it.
    pub fn kind(self) -> u8
        ensures { result ≡ kind_of self }
    {
        match self {
            Content::Blank => 0,
            Content::Open => 1,
            Content::Day(_) => 2,
        }
    }

    // The day's number; 0 where the content is no day.
    // Stays: no Option, since a record's array and an open entry's four bytes hold the 0.
    pub fn day(self) -> i32
        ensures { result ≡ day_of self }
    {
        match self {
            Content::Blank | Content::Open => 0,
            Content::Day(day) => day,
        }
    }

    // The content of a kind and a day's number. A kind that is neither 1 nor 2 says nothing: blank.
    pub fn of(kind: u8, day: i32) -> Content
        ensures { result ≡ content_of kind day }
    {
        match kind {
            1 => Content::Open,
            2 => Content::Day(day),
            _ => Content::Blank,
        }
    }
}

// "blank", "open", "day -3": a content as the programs print it.
impl fmt::Display for Content {
    ghost output = { λ c. Some (shown c) };

    fn fmt<W: fmt::Write>(&self, f: &mut fmt::Formatter<W>) -> fmt::Result {
        match self {
            Content::Blank => f.write_str("blank"),
            Content::Open => f.write_str("open"),
            Content::Day(day) => write!(f, "day {day}"),
        }
    }
}

// "unknown", "open", "-3 days left": a standing as the programs print it.
impl fmt::Display for Standing {
    ghost output = { λ s. Some (shown·standing s) };

    fn fmt<W: fmt::Write>(&self, f: &mut fmt::Formatter<W>) -> fmt::Result {
        match self {
            Standing::Unknown => f.write_str("unknown"),
            Standing::Open => f.write_str("open"),
            Standing::Left(days) => write!(f, "{days} days left"),
        }
    }
}
