// The months of a year: their lengths, the days before each, and the month of a day. The months and
// the days are counted from 1 January, so month 0 is January. 01, "Shape asked for": "Month lengths
// stand in a constant table." One test over both tables proves all three functions.
ghost use Rattle.std.specs.Prelude.{◌≡◌, ◌<◌, ◌≤◌};
ghost use Rattle.calendar.specs.Spans.{before, span_of};
ghost use Rattle.calendar.specs.Calendar.{month_length};

use crate::year::is_leap;

// January to December of a year that is no leap year.
const LENGTHS: [u8; 12] = [31, 28, 31, 30, 31, 30, 31, 31, 30, 31, 30, 31];

// The days before each month of such a year, and those of the year.
const BEFORE: [u16; 13] = [0, 31, 59, 90, 120, 151, 181, 212, 243, 273, 304, 334, 365];

#[tactic(auto, using(crate::proofs::Laws::Month::length_by_table))]
pub(crate) fn length_of(year: u16, m: u8) -> u8
    requires { m < 12 }
    ensures { result ≡ month_length year m }
{
    LENGTHS[m as usize] + u8::from(is_leap(year) & (m == 1))
}

#[tactic(auto, using(crate::proofs::Laws::Month::before_by_table))]
pub(crate) fn days_before_month(year: u16, m: u8) -> u16
    requires { m ≤ 12 }
    ensures { result ≡ before (month_length year) m }
{
    BEFORE[m as usize] + u16::from(is_leap(year) & (2 <= m))
}

// The month of day j of the year. Months of 32 days each would begin no earlier than the true ones,
// and at most 32 days later: so it is month j / 32 or the next.
#[tactic(auto, using(crate::proofs::Laws::Month::year_short, crate::proofs::Laws::Month::month_guessed, crate::proofs::Laws::Month::month_after_guess))]
pub(crate) fn month_of(year: u16, j: u16) -> u8
    requires { j < before (month_length year) 12 }
    ensures { result ≡ span_of (month_length year) 11 j }
{
    let guess = (j / 32) as u8;
    if j < days_before_month(year, guess + 1) {
        guess
    } else {
        guess + 1
    }
}
