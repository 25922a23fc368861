// A desk's refusals. 01, "Numbers given back": "the first that applies is given, and none otherwise".
//
// Each call tries its list of rules (specs/Rules.antt) in 01's order, for every value of its types: a
// line here for each. A rule that several calls have is a function of its own. `ok` is whether the
// record is sound. 11 and 13 are found where a sheet is written or read.
#![tactic(auto)]

ghost use Rattle.std.specs.Prelude.{◌++◌, ◌≡◌, not, eqb, leb};
ghost use Rattle.answer.specs.declared.Refusal.TheVariants as refusal;
ghost use Rattle.answer.specs.Refusals.{said, first_of, refused_when};
ghost use Rattle.sound.specs.Head.{read_waits};
ghost use Rattle.refusals.specs.Rules.{last_turn, open_tests, write_tests, read_tests, send_tests, tray_tests, sheet_tests, turn_tests, is_next, looked_at};

use answer::Refusal;
use layout::Numbers;
use sound::Head;
use tray::Place;

// Open: 1, 2, 3, 4.
pub fn open(n: u32, m: u32, own: u32, mode: u32) -> Result<(), Refusal>
    ensures { said (λ u. u) result ≡ first_of (open_tests n m own mode) }
{
    Refusal::DesksOutside.when(!(1..=16).contains(&n))?;
    Refusal::CellsOutside.when(!(1..=64).contains(&m))?;
    Refusal::OwnNumberOutside.when(n <= own)?;
    Refusal::ModeOutside.when(3 < mode)?;
    Ok(())
}

// 5.
fn sound(ok: bool) -> Result<(), Refusal>
    ensures { result ≡ refused_when refusal.NotSound (not ok) }
{
    Refusal::NotSound.when(!ok)
}

// 6.
fn cell_below(h: Head, cell: u32) -> Result<(), Refusal>
    ensures { result ≡ refused_when refusal.CellNotBelow (leb h.m cell) }
{
    Refusal::CellNotBelow.when(u32::from(h.m) <= cell)
}

// 8.
fn no_read_waits(h: Head) -> Result<(), Refusal>
    ensures { result ≡ refused_when refusal.ReadWaits (read_waits h) }
{
    Refusal::ReadWaits.when(h.wait != 0)
}

// 10.
fn turn_to_come(h: Head) -> Result<(), Refusal>
    ensures { result ≡ refused_when refusal.LastTurn (eqb h.turn last_turn) }
{
    Refusal::LastTurn.when(h.turn == u32::MAX)
}

// Write: 5, 6, 7, 8.
pub fn write(ok: bool, h: Head, cell: u32, kind: u8) -> Result<(), Refusal>
    ensures { said (λ u. u) result ≡ first_of (write_tests ok h cell kind) }
{
    sound(ok)?;
    cell_below(h, cell)?; // before 7: past the shelf a write of blank gets 6
    Refusal::BlankWritten.when(kind == 0)?;
    no_read_waits(h)?;
    Ok(())
}

// Read: 5, 6, 8.
pub fn read(ok: bool, h: Head, cell: u32) -> Result<(), Refusal>
    ensures { said (λ u. u) result ≡ first_of (read_tests ok h cell) }
{
    sound(ok)?;
    cell_below(h, cell)?; // before 8: past the shelf it is 6, whether or not a read waits
    no_read_waits(h)?;
    Ok(())
}

// Send: 5, 9, 10; then the sheet is written.
pub fn send(ok: bool, h: Head) -> Result<(), Refusal>
    ensures { said (λ u. u) result ≡ first_of (send_tests ok h) }
{
    sound(ok)?; // before 9: only a sound record says whose turn it is
    Refusal::TurnElsewhere.when(!h.own_turn())?;
    turn_to_come(h)?;
    Ok(())
}

// Deliver and take: 5, 12; then the sheet is read, or the turn looked at.
pub fn tray(ok: bool, h: Head, size: usize) -> Result<(), Refusal>
    ensures { said (λ u. u) result ≡ first_of (tray_tests ok h size) }
{
    sound(ok)?; // before 12: only a sound record says how many desks there are
    Refusal::TrayLength.when(size != 398 * usize::from(h.n))?;
    Ok(())
}

// Deliver, of a good sheet: 14, 15, 16, 17, 18. The turn number and n are added in 64 bits, exactly.
pub fn sheet(h: Head, x: Numbers, free: bool) -> Result<(), Refusal>
    ensures { said (λ u. u) result ≡ first_of (sheet_tests h x free) }
{
    Refusal::OtherShelf.when(!(x.desks == h.n && x.cells == h.m))?;
    Refusal::OwnSheet.when(x.sender == h.own)?;
    Refusal::NumberBelow.when(x.turn < h.turn)?;
    Refusal::NumberFarAbove.when(u64::from(h.turn) + u64::from(h.n) <= u64::from(x.turn))?;
    Refusal::PlaceNotFree.when(!free)?;
    Ok(())
}

// Take: 5, 12, 19, 10; then the place is looked at.
pub fn take(ok: bool, h: Head, size: usize) -> Result<(), Refusal>
    ensures { said (λ u. u) result ≡ first_of (tray_tests ok h size ++ turn_tests h) }
{
    tray(ok, h, size)?;
    Refusal::OwnTurn.when(h.own_turn())?;
    turn_to_come(h)?;
    Ok(())
}

// Of a good sheet's numbers: "of this shelf with that sender and turn number".
fn is_next(h: Head, x: Numbers) -> bool
    ensures { result ≡ is_next h x }
{
    (x.desks == h.n && x.cells == h.m) && (u32::from(x.sender) == h.turn_desk() && x.turn == h.turn)
}

// Take, of the desk q, whose turn it is: 20, 21. The sheet in its place, which is the next, has so
// many entries.
#[tactic(auto, using(crate::proofs::Laws::Looks::looked_so))]
pub fn look(h: Head, tray: &[u8], q: u8) -> Result<u8, Refusal>
    ensures { said (λ n. n) result ≡ looked_at h tray.now q }
{
    match tray::look(tray, q) {
        Place::Free => Err(Refusal::NoSheet),
        Place::Holds(x) if is_next(h, x) => Ok(x.entries),
        Place::Holds(_) | Place::Spoilt => Err(Refusal::NotThatSheet),
    }
}
