// Dates and day numbers. 01, "Calendar": "Years 1901 to 2199, days -25,202 to 84,006. A year that 4
// divides has 29 days in February. Date to day number and back undo each other on this range."
//
// Both calls take every value of their types, and answer 22 outside the calendar. Neither counts
// through years or days: a year's first day is a formula, a month's stands in a table.
#![tactic(auto)]

ghost use Rattle.std.specs.Prelude.{◌≡◌, true, ◌<◌, Some};
ghost use Rattle.calendar.specs.Calendar.{is_date, is_day, days_to, date_at, day_number_of, date_of, said_day, said_date, shown};
ghost use Rattle.calendar.specs.Parts.{days_in_all};

use answer::Refusal;
use month::{days_before_month, length_of, month_of};
use std::fmt;
use year::{days_before_year, year_of};

mod month;
mod year;

// A date: the month and the day count from 1. A date is before another if its fields come first, in
// their order.
#[derive(Clone, Copy, Debug, PartialEq, Eq, PartialOrd, Ord)]
pub struct Date {
    pub year: u16,
    pub month: u8,
    pub day: u8,
}

impl Date {
    // The number of the date's day; 22 where it is no date of the calendar.
    #[tactic(auto, using(crate::proofs::Computed::numbers_computed), unfolding(crate::specs::Calendar::day_number_of))]
    pub fn number(self) -> Result<i32, Refusal>
        ensures { said_day result ≡ day_number_of self }
    {
        Refusal::OutsideCalendar.when(!self.is_date())?;
        Ok(self.days_to() as i32 - 25202)
    }

    // The date of a day's number; 22 where the day is outside the calendar.
    #[tactic(auto, using(crate::proofs::Computed::places_computed), unfolding(crate::specs::Calendar::date_of))]
    pub fn of_day(day: i32) -> Result<Date, Refusal>
        ensures { said_date result ≡ date_of day }
    {
        Refusal::OutsideCalendar.when(!is_day(day))?;
        Ok(Date::at((day + 25202) as u32))
    }

    // Whether the year, the month and the day are the calendar's.
    #[tactic(auto, unfolding(crate::specs::Calendar::is_date))]
    fn is_date(self) -> bool
        ensures { result ≡ is_date self }
    {
        (1901..=2199).contains(&self.year)
            && (1..=12).contains(&self.month)
            && (1..=length_of(self.year, self.month - 1)).contains(&self.day)
    }

    // The days from 1 January 1901 to the date.
    #[tactic(auto, using(crate::proofs::Laws::Date::days_to_small), unfolding(crate::specs::Calendar::is_date, crate::specs::Calendar::days_to))]
    fn days_to(self) -> u32
        requires { is_date self ≡ true }
        ensures { result ≡ days_to self }
    {
        days_before_year(self.year - 1901)
            + days_before_month(self.year, self.month - 1) as u32
            + (self.day - 1) as u32
    }

    // The date i days after 1 January 1901.
    #[tactic(auto, using(crate::proofs::Laws::Date::day_at), unfolding(crate::specs::Calendar::date_at))]
    fn at(i: u32) -> Date
        requires { i < days_in_all }
        ensures { result ≡ date_at i }
    {
        let k = year_of(i);
        let year = 1901 + k;
        let j = (i - days_before_year(k)) as u16;
        let m = month_of(year, j);
        let day = (j - days_before_month(year, m)) as u8;
        Date {
            year,
            month: m + 1,
            day: day + 1,
        }
    }
}

// "1970-01-01".
impl fmt::Display for Date {
    ghost output = { λ t. Some (shown t) };

    #[tactic(auto, using(crate::proofs::Shown::wide_lem))]
    fn fmt<W: fmt::Write>(&self, f: &mut fmt::Formatter<W>) -> fmt::Result {
        write!(f, "{:04}-{:02}-{:02}", self.year, self.month, self.day)
    }
}

// 01, "Calendar": "days -25,202 to 84,006".
#[tactic(auto, unfolding(crate::specs::Calendar::is_day))]
fn is_day(day: i32) -> bool
    ensures { result ≡ is_day day }
{
    (-25202..=84006).contains(&day)
}
