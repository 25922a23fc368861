// A desk's tray: one place of 398 bytes per desk, in which a sheet waits for its turn. 01, "A tray
// has one place of 398 bytes per desk, in order: sheet length (2), sheet, zeros to the end."
//
// A tray is lent, of any length, and so is the number of a place: what is not there is left alone.
#![tactic(auto)]

ghost use Rattle.std.specs.Prelude.{◌≡◌};
ghost use Rattle.numbers.specs.Numbers.{at1};
ghost use Rattle.tray.specs.Tray.{length_at, free, zeros, place_of, held_in, cleared_in};

use layout::Numbers;

// What is in a place.
// Stays: three cases of its own: by `place_of` a take answers 20, 21 or the numbers.
#[derive(Clone, Copy, Debug, PartialEq, Eq)]
pub enum Place {
    // The first two bytes are zero.
    Free,
    // The numbers of the good sheet in it, which zeros follow.
    Holds(Numbers),
    // Anything else.
    Spoilt,
}

// The byte at i; past the end there is none, and 0 says so.
fn byte_at(tray: &[u8], i: usize) -> u8
    ensures { result ≡ at1 tray.now i }
{
    tray.get(i).copied().unwrap_or(0)
}

// The first two bytes of the place of desk q: the length of the sheet in it.
pub fn length_at(tray: &[u8], q: u8) -> u16
    ensures { result ≡ length_at tray.now q }
{
    let at = 398 * usize::from(q);
    u16::from_le_bytes([byte_at(tray, at), byte_at(tray, at + 1)])
}

// "deliver counts it free if its first two bytes are zero".
pub fn is_free(tray: &[u8], q: u8) -> bool
    ensures { result ≡ free tray.now q }
{
    length_at(tray, q) == 0
}

// Stays: to the last byte, so that the compiler takes many at a time; `any` stops early (cells).
fn all_zeros(s: &[u8]) -> bool
    ensures { result ≡ zeros s.now }
{
    let mut ok = true;
    for &b in s {
        ok &= b == 0;
    }
    ok
}

// What is in the place of desk q.
pub fn look(tray: &[u8], q: u8) -> Place
    ensures { result ≡ place_of tray.now q }
{
    let len = usize::from(length_at(tray, q));
    if len == 0 {
        return Place::Free;
    }
    let at = 398 * usize::from(q) + 2;
    let end = at + 396;
    if tray.len() < end || 396 < len || !all_zeros(&tray[at + len..end]) {
        return Place::Spoilt;
    }
    match sheet::read(&tray[at..at + len]) {
        Ok(numbers) => Place::Holds(numbers),
        Err(_) => Place::Spoilt,
    }
}

// Puts a sheet into the place of desk q, and "overwrites all 398".
pub fn hold(tray: &mut [u8], q: u8, sheet: &[u8])
    ensures { tray.new ≡ held_in tray.old q sheet.now }
{
    let len = sheet.len();
    let at = 398 * usize::from(q);
    let end = at + 398;
    if len <= 396 && end <= tray.len() {
        laying::put(tray, at, &(len as u16).to_le_bytes());
        laying::put(tray, at + 2, sheet);
        tray[at + 2 + len..end].fill(0);
    }
}

// Makes the place of desk q zeros.
pub fn clear(tray: &mut [u8], q: u8)
    ensures { tray.new ≡ cleared_in tray.old q }
{
    let at = 398 * usize::from(q);
    if at + 398 <= tray.len() {
        tray[at..at + 398].fill(0);
    }
}
