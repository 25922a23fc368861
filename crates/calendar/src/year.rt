// The years: which of them are leap years, where each begins, and in which one a day falls. The
// years and the days are counted from 1 January 1901, so year 0 is 1901. 01, "Calendar": "A year
// that 4 divides has 29 days in February." All of this rule's code stands in this file.
ghost use Rattle.std.specs.Prelude.{◌≡◌, ◌<◌};
ghost use Rattle.calendar.specs.Spans.{before, span_of};
ghost use Rattle.calendar.specs.Calendar.{leap, year_length};
ghost use Rattle.calendar.specs.Parts.{days_in_all};

pub(crate) fn is_leap(year: u16) -> bool
    ensures { result ≡ leap year }
{
    year % 4 == 0
}

// The days before year k. Four years have 1,461 days, the leap year being the last of the four.
#[tactic(auto, using(crate::proofs::Laws::Year::year_begins))]
pub(crate) fn days_before_year(k: u16) -> u32
    ensures { result ≡ before year_length k }
{
    (k as u32) * 1461 / 4
}

// The year of day i: the last that begins no later.
#[tactic(auto, using(crate::proofs::Laws::Year::year_found))]
pub(crate) fn year_of(i: u32) -> u16
    requires { i < days_in_all }
    ensures { result ≡ span_of year_length 298 i }
{
    ((i * 4 + 3) / 1461) as u16
}
