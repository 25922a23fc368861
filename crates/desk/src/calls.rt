// What each call does to a record, where it lies: the tests of its rules, each of which may refuse it,
// and then the step. A refused call changes nothing.
ghost use Rattle.std.specs.Prelude.{[], ◌≡◌, ◌<◌};
ghost use Rattle.answer.specs.Refusals.{said};
ghost use Rattle.desk.specs.Answers.{waited_of, settled};
ghost use Rattle.desk.specs.Calls.{sound, mode_for, blank_desk, zero_desk, must_wait, next_head, write_of, read_of, send_of, deliver_of, take_of};
ghost use Rattle.desk.specs.Parts.{opened_head, waited_in, read_over};

use crate::{Answer, Desk};
use answer::Refusal;
use cells::Places;
use content::Content;
use sound::Head;

// "Mode 0 means the default: causal."
fn mode_for(mode: u32) -> u8
    requires { mode < 256 }
    ensures { result ≡ mode_for mode }
{
    if mode == 0 { 2 } else { mode as u8 }
}

// The head of a desk that is opened.
pub(crate) fn opened_head(n: u32, m: u32, own: u32, mode: u32) -> Result<Head, Refusal>
    ensures { said (λ h. h) result ≡ opened_head n m own mode }
{
    refusals::open(n, m, own, mode)?;
    Ok(Head {
        n: n as u8,
        m: m as u8,
        own: own as u8,
        mode: mode_for(mode),
        turn: 0,
        wait: 0,
    })
}

// The head after a step: the turn number goes up by 1.
fn next_head(h: Head) -> Head
    requires { h.turn ≡ 4294967295 → ⊥ }
    ensures { result ≡ next_head h h.wait }
{
    Head {
        turn: h.turn + 1,
        ..h
    }
}

impl Desk {
    // "All cells blank, nothing pending".
    pub(crate) fn blank(head: Head) -> Desk
        ensures { result ≡ blank_desk head }
    {
        Desk {
            head,
            kind: [0; 64],
            day: [0; 64],
            pkind: [0; 64],
            pday: [0; 64],
        }
    }

    // "a record of zeros".
    pub(crate) fn zeros() -> Desk
        ensures { result ≡ zero_desk }
    {
        Desk::blank(Head {
            n: 0,
            m: 0,
            own: 0,
            mode: 0,
            turn: 0,
            wait: 0,
        })
    }

    // The places of the shelf, lent.
    fn shelf(&self) -> Places
        ensures kinds { result.kinds.now ≡ self.now.kind }
        ensures days { result.days.now ≡ self.now.day }
    {
        Places {
            kinds: &self.kind,
            days: &self.day,
        }
    }

    // The places of the pending entries, lent.
    fn pending(&self) -> Places
        ensures kinds { result.kinds.now ≡ self.now.pkind }
        ensures days { result.days.now ≡ self.now.pday }
    {
        Places {
            kinds: &self.pkind,
            days: &self.pday,
        }
    }

    pub(crate) fn is_sound(&self) -> bool
        ensures { result ≡ sound self.now }
    {
        sound::is_sound(self.head, self.shelf(), self.pending())
    }

    pub(crate) fn store(&mut self, cell: u32, c: Content) -> Result<Answer, Refusal>
        ensures { settled result self.new [] ≡ write_of self.old cell c }
    {
        let kind = c.kind();
        refusals::write(self.is_sound(), self.head, cell, kind)?;
        let i = cell as usize;
        let day = c.day();
        cells::put(&mut self.kind, true, i, kind);
        cells::put(&mut self.day, true, i, day);
        cells::put(&mut self.pkind, true, i, kind);
        cells::put(&mut self.pday, true, i, day);
        Ok(Answer::Stored)
    }

    // Whether a read waits: "exactly if the mode is sequential, something is pending, this cell is
    // not, and the turn is elsewhere". The pending places are looked through last, and only if need be.
    fn must_wait(&self, cell: u32) -> bool
        ensures { result ≡ must_wait self.now cell }
    {
        self.head.mode == 1
            && self.pending().kind(cell as usize) == 0
            && !self.head.own_turn()
            && cells::any_filled(&self.pkind)
    }

    pub(crate) fn answer_cell(&mut self, cell: u32) -> Result<Answer, Refusal>
        ensures { settled result self.new [] ≡ read_of self.old cell }
    {
        refusals::read(self.is_sound(), self.head, cell)?;
        if self.must_wait(cell) {
            self.head.wait = cell as u8 + 1;
            return Ok(Answer::Waits);
        }
        let c = self.shelf().content(cell as usize);
        Ok(Answer::Holds(c))
    }

    pub(crate) fn write_sheet(&mut self, buf: &mut [u8]) -> Result<Answer, Refusal>
        ensures { settled result self.new buf.new ≡ send_of self.old buf.old }
    {
        let h = self.head;
        refusals::send(self.is_sound(), h)?;
        let entries = pending::write_sheet(buf, h, self.pending())?;
        self.head = next_head(h);
        self.pkind = [0; 64];
        self.pday = [0; 64];
        Ok(Answer::Sent {
            turn: h.turn,
            entries,
        })
    }

    pub(crate) fn put_sheet(&self, tray: &mut [u8], sheet: &[u8]) -> Result<Answer, Refusal>
        ensures { settled result self.now tray.new ≡ deliver_of self.now tray.old sheet.now }
    {
        let h = self.head;
        refusals::tray(self.is_sound(), h, tray.len())?;
        let x = sheet::read(sheet)?;
        let free = tray::is_free(tray, x.sender);
        refusals::sheet(h, x, free)?;
        tray::hold(tray, x.sender, sheet);
        Ok(Answer::Held)
    }

    // "If the turn is now the desk's own and a read waits, the answer carries that cell's content and
    // the read is over."
    fn end_read(&mut self) -> Option<Content>
        ensures over { waited_of result ≡ waited_in self.old }
        ensures record { self.new ≡ read_over self.old }
    {
        let h = self.head;
        if h.wait == 0 || !h.own_turn() {
            return None;
        }
        self.head.wait = 0;
        Some(self.shelf().content(usize::from(h.wait - 1)))
    }

    pub(crate) fn take_sheet(&mut self, tray: &mut [u8]) -> Result<Answer, Refusal>
        ensures { settled result self.new tray.new ≡ take_of self.old tray.old }
    {
        let h = self.head;
        refusals::take(self.is_sound(), h, tray.len())?;
        let q = h.turn_desk() as u8;
        let entries = refusals::look(h, tray, q)?;
        let at = 398 * (q as usize) + 2;
        let applied = applying::apply(
            h.mode == 2,
            &mut self.kind,
            &mut self.day,
            &self.pkind,
            &tray[at..],
            entries,
        );
        tray::clear(tray, q);
        self.head = next_head(h);
        Ok(Answer::Taken {
            turn: h.turn,
            entries,
            applied,
            waited: self.end_read(),
        })
    }
}
