// When a record is sound. 01, "A desk, call by call": "A record is sound if .." (specs/Sound.antt).
//
// A record comes as its head, the numbers, and the places of its shelf and its pending entries,
// lent. Each loop makes one test of its places to the last and never stops early, so that it
// compiles to a few wide instructions.
// Stays: the loops: all_kinds_fit takes 55, by `all` 871, and sound some 1,240; its limit is 550.
#![tactic(auto)]

ghost use Rattle.std.specs.Prelude.{◌≡◌};
ghost use Rattle.cells.specs.Cells.{kind_at, day_at, each};
ghost use Rattle.sound.specs.Head.{turn_desk, own_turn, read_waits};
ghost use Rattle.sound.specs.Sound.{same_day, limits, day_fits, wait_sound, ◌implies◌, sound_of};
ghost use Rattle.sound.specs.Parts.{blank_from, kinds_fit, wanted_day, pending_days};

use cells::Places;

// The numbers of a record: desks, cells, own number, mode, turn number, and the waiting read: 0
// where none waits, else one more than its cell.
// Stays: mode and wait are numbers: any record is given, forged ones too, which `sound_of` tests.
#[derive(Clone, Copy)]
pub struct Head {
    pub n: u8,
    pub m: u8,
    pub own: u8,
    pub mode: u8,
    pub turn: u32,
    pub wait: u8,
}

impl Head {
    // "The turn is at desk (turn number mod n)"; with no desks it is at the turn number itself.
    pub fn turn_desk(self) -> u32
        ensures { result ≡ turn_desk self }
    {
        numbers::left_by(self.turn, self.n)
    }

    // Whether the turn is this desk's own.
    pub fn own_turn(self) -> bool
        ensures { result ≡ own_turn self }
    {
        self.turn_desk() == u32::from(self.own)
    }

    // "n and m are within limits, own number below n, mode 1 to 3".
    fn in_limits(self) -> bool
        ensures { result ≡ limits self }
    {
        let desks = (1..=16).contains(&self.n);
        let cells = (1..=64).contains(&self.m);
        let mode = (1..=3).contains(&self.mode);
        desks && cells && self.own < self.n && mode
    }

    // A waiting read "has mode 1, a cell below m that is not pending, something pending, and the
    // turn elsewhere".
    fn wait_is_sound(self, pending: Places) -> bool
        ensures { result ≡ (read_waits self implies wait_sound self pending.entry.kinds.now) }
    {
        let Some(cell) = self.wait.checked_sub(1) else {
            return true;
        };
        self.mode == 1
            && cell < self.m
            && pending.kind(cell as usize) == 0
            && cells::any_filled(pending.kinds)
            && !self.own_turn()
    }
}

// "day numbers are 0 unless the content is a day".
fn day_fits(kind: u8, day: i32) -> bool
    ensures { result ≡ day_fits kind day }
{
    (kind == 2) | (day == 0)
}

// "cells from m up are blank and not pending".
fn blank_from<'a>(m: u8, kinds: &'a [u8; 64], pkinds: &'a [u8; 64]) -> bool
    ensures { result ≡ each 64 (blank_from m kinds.now pkinds.now) }
{
    let from = (m as usize).min(64);
    let mut ok = true;
    for (a, b) in kinds[from..].iter().zip(&pkinds[from..]) {
        ok &= (*a == 0) & (*b == 0);
    }
    ok
}

// The clauses on the two kinds of a cell.
fn kinds_fit(causal: bool, kind: u8, pkind: u8) -> bool
    ensures { result ≡ kinds_fit causal kind pkind }
{
    if causal {
        (kind <= 2) & (pkind <= 2) & ((pkind == 0) | (kind != 0))
    } else {
        (kind <= 2) & ((pkind == 0) | (pkind == kind))
    }
}

fn all_kinds_fit<'a>(causal: bool, kinds: &'a [u8; 64], pkinds: &'a [u8; 64]) -> bool
    ensures { result ≡ each 64 (λ i. kinds_fit causal (kind_at kinds.now i) (kind_at pkinds.now i)) }
{
    let mut ok = true;
    for (a, b) in kinds.iter().zip(pkinds) {
        ok &= kinds_fit(causal, *a, *b);
    }
    ok
}

fn all_days_fit<'a>(kinds: &'a [u8; 64], days: &'a [i32; 64]) -> bool
    ensures { result ≡ each 64 (λ i. day_fits (kind_at kinds.now i) (day_at days.now i)) }
{
    let mut ok = true;
    for (kind, day) in kinds.iter().zip(days) {
        ok &= day_fits(*kind, *day);
    }
    ok
}

// The day that a pending place has in modes 1 and 3: the shelf's where it is filled, and else 0.
fn wanted(pkind: u8, day: i32) -> i32
    ensures { result ≡ wanted_day pkind day }
{
    if pkind == 0 { 0 } else { day }
}

// Stays: an index takes 117, a `zip` of three arrays 548, and sound some 850; its limit is 550.
fn all_days_agree<'a>(days: &'a [i32; 64], pkinds: &'a [u8; 64], pdays: &'a [i32; 64]) -> bool
    ensures { result ≡ each 64 (λ i. same_day (day_at pdays.now i) (wanted_day (kind_at pkinds.now i) (day_at days.now i))) }
{
    let mut ok = true;
    for i in 0..64 {
        ok &= pdays[i] == wanted(pkinds[i], days[i]);
    }
    ok
}

// The clauses on the days of pending places. Where pending and shelf content agree, a shelf's day
// that fits is a pending one's that fits: one loop serves both clauses.
#[tactic(auto, using(crate::proofs::Laws::Clauses::answers))]
fn pending_days_fit(causal: bool, shelf: Places, pending: Places) -> bool
    ensures { result ≡ pending_days causal shelf.entry.days.now pending.entry.kinds.now pending.entry.days.now }
{
    if causal {
        all_days_fit(pending.kinds, pending.days)
    } else {
        all_days_agree(shelf.days, pending.kinds, pending.days)
    }
}

// Whether a record is sound: `sound_of` of its head, its shelf and its pending entries.
#[tactic(auto, using(crate::proofs::Laws::Clauses::answers))]
pub fn is_sound(h: Head, shelf: Places, pending: Places) -> bool
    ensures { result ≡ sound_of h shelf.entry.kinds.now shelf.entry.days.now pending.entry.kinds.now pending.entry.days.now }
{
    if !h.in_limits() {
        return false;
    }
    let causal = h.mode == 2;
    blank_from(h.m, shelf.kinds, pending.kinds)
        & all_kinds_fit(causal, shelf.kinds, pending.kinds)
        & all_days_fit(shelf.kinds, shelf.days)
        & pending_days_fit(causal, shelf, pending)
        & h.wait_is_sound(pending)
}
