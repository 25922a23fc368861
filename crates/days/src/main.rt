// Runs the calendar against a second one, written another way: it walks from 1 January 1901 to 31
// December 2199 one day at a time, with no table of months and no formula. 01, "Calendar".
//
// Three lines say how many answers differ: of every day of the calendar, as a date and back; of a
// grid of dates around its edges, most of which are none; and of days outside it.
#![tactic(auto)]

ghost use Rattle.std.specs.Prelude.{◌<◌};

use answer::Refusal;
use calendar::Date;

// Where the walk is: a date and its day's number. Past the last date it stays on 1 January 2200.
#[derive(Clone, Copy)]
struct Walk {
    date: Date,
    number: i32,
}

const START: Walk = Walk {
    date: Date {
        year: 1901,
        month: 1,
        day: 1,
    },
    number: -25202,
};

fn last_day(year: u16, month: u8) -> u8 {
    match month {
        2 if year / 4 * 4 == year => 29,
        2 => 28,
        4 | 6 | 9 | 11 => 30,
        _ => 31,
    }
}

impl Walk {
    fn step(self) -> Walk {
        let Walk { date, number } = self;
        if 2199 < date.year || 84006 < number {
            return self;
        }
        let date = if date.day < last_day(date.year, date.month) {
            Date {
                day: date.day + 1,
                ..date
            }
        } else if date.month < 12 {
            Date {
                month: date.month + 1,
                day: 1,
                ..date
            }
        } else {
            Date {
                year: date.year + 1,
                month: 1,
                day: 1,
            }
        };
        Walk {
            date,
            number: number + 1,
        }
    }

    // Whether the walk is on the date, and not at its end.
    fn is_on(self, date: Date) -> bool {
        self.date == date && date.year <= 2199
    }

    // Whether the walk is still before the date, and not at its end.
    fn is_before(self, date: Date) -> bool {
        self.date < date && self.date.year <= 2199
    }

    // The walk goes on until it is on the date or past it.
    fn to(mut self, date: Date) -> Walk {
        for _ in 0..109209 {
            if !self.is_before(date) {
                break;
            }
            self = self.step();
        }
        self
    }

    // Whether the calendar gives the walk's number another date than the walk's.
    fn date_differs(self) -> bool {
        Date::of_day(self.number) != Ok(self.date)
    }

    // Whether the calendar gives a date another number than the walk's, if the walk is on it, or
    // another answer than 22, if it is not.
    fn number_differs(self, date: Date) -> bool {
        let number = if self.is_on(date) {
            Ok(self.number)
        } else {
            Err(Refusal::OutsideCalendar)
        };
        date.number() != number
    }
}

fn days_that_differ() -> u64 {
    let mut differ = 0;
    let mut walk = START;
    for _ in 0..109209u32 {
        differ += u64::from(walk.date_differs()) + u64::from(walk.number_differs(walk.date));
        walk = walk.step();
    }
    differ + u64::from(walk.date.year != 2200)
}

// The years, the months and the days of the grid.
const YEARS: [u16; 24] = [
    0, 1899, 1900, 1901, 1902, 1903, 1904, 1905, 1968, 1969, 1970, 1971, 1972, 1999, 2000, 2001,
    2099, 2100, 2101, 2198, 2199, 2200, 2201, 65535,
];

const MONTHS: [u8; 16] = [0, 1, 2, 3, 4, 5, 6, 7, 8, 9, 10, 11, 12, 13, 14, 255];

const DAYS: [u8; 35] = [
    0, 1, 2, 3, 4, 5, 6, 7, 8, 9, 10, 11, 12, 13, 14, 15, 16, 17, 18, 19, 20, 21, 22, 23, 24, 25,
    26, 27, 28, 29, 30, 31, 32, 33, 255,
];

// The date at place i of the grid, which goes up year by year, month by month and day by day.
fn grid_date(i: usize) -> Date
    requires { i < 13440 }
{
    Date {
        year: YEARS[i / 560],
        month: MONTHS[i / 35 % 16],
        day: DAYS[i % 35],
    }
}

// How many dates of the grid the walk comes to, and how many answers differ.
#[derive(Clone, Copy)]
struct Count {
    known: u64,
    differ: u64,
}

fn grid_counted() -> Count {
    let mut known = 0;
    let mut differ = 0;
    let mut walk = START;
    for i in 0..13440 {
        let date = grid_date(i);
        walk = walk.to(date);
        known += u64::from(walk.is_on(date));
        differ += u64::from(walk.number_differs(date));
    }
    Count { known, differ }
}

// Days outside the calendar: those next to it, and the first and the last of all.
const OUTSIDE: [i32; 8] = [
    i32::MIN,
    i32::MIN + 1,
    -25204,
    -25203,
    84007,
    84008,
    i32::MAX - 1,
    i32::MAX,
];

fn outside_that_differ() -> usize {
    OUTSIDE
        .iter()
        .filter(|day| Date::of_day(**day) != Err(Refusal::OutsideCalendar))
        .count()
}

// A write that fails is passed over.
fn main(rt: HostRuntime) {
    let _ = println!(rt; "109209 days both ways: {} differ", days_that_differ());
    let Count { known, differ } = grid_counted();
    let _ = println!(rt; "13440 dates of the grid, {known} in the calendar: {differ} differ");
    let _ = println!(rt; "8 days outside: {} differ", outside_that_differ());
}
