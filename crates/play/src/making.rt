// One step, made on a desk's record, its tray, and the places in which each desk's latest sheet
// lies.
ghost use Rattle.std.specs.Prelude.{[], ◌≡◌, ◌<◌};
ghost use Rattle.desk.specs.Calls.{send_of};
ghost use Rattle.play.specs.Steps.{sheet_room};
ghost use Rattle.play.specs.Parts.Making.{step_outcome, OfOutcome, step_by_send, delivered, make_of, LatestFit, LatestFits, SenderThere};

use desk::{Answer, Desk, Outcome};
use printing::StepAnswer;
use schedule::Act;

// What a step comes to, and the desk's next record.
#[derive(Clone, Copy)]
pub(crate) struct StepOutcome {
    pub(crate) answer: StepAnswer,
    pub(crate) desk: Desk,
}

// That of a call.
impl From<Outcome> for StepOutcome {
    ghost from_gives = { λ o s. OfOutcome o s };

    fn from(o: Outcome) -> StepOutcome {
        StepOutcome {
            answer: o.answer.into(),
            desk: o.desk,
        }
    }
}

// A send; "`s` lends 396 bytes". The sheet, if one is sent, becomes the latest of desk p: its
// entries have 6 bytes each, and its trailer 12.
fn send(d: Desk, p: u8, latest: &mut [u8]) -> StepOutcome
    ensures { step_outcome result [] latest.new ≡ step_by_send p (send_of d sheet_room) [] latest.old }
{
    let mut sheet = [0; 396];
    let o = d.send(&mut sheet);
    let Ok(Answer::Sent { turn: _, entries }) = o.answer else {
        return o.into();
    };
    let len = 6 * entries as usize + 12;
    tray::hold(latest, p, &sheet[..len]);
    o.into()
}

// "sender's latest sheet, again if wanted"; no call, if there is none.
fn deliver(d: Desk, q: u8, tray: &mut [u8], latest: &[u8]) -> StepOutcome
    requires { LatestFit latest.now q }
    ensures { step_outcome result tray.new [] ≡ delivered d q tray.old latest.now [] }
{
    if tray::is_free(latest, q) {
        return StepOutcome {
            answer: StepAnswer::NothingSent,
            desk: d,
        };
    }
    let len = tray::length_at(latest, q) as usize;
    let from = 398 * q as usize + 2;
    d.deliver(tray, &latest[from..from + len]).into()
}

// The step of desk p that this act is.
pub(crate) fn make(d: Desk, p: u32, act: Act, tray: &mut [u8], latest: &mut [u8]) -> StepOutcome
    requires p_bound { p < 16 }
    requires sender_there { SenderThere 16 act }
    requires latest_fits { LatestFits latest.old }
    ensures { step_outcome result tray.new latest.new ≡ make_of d p act tray.old latest.old }
{
    match act {
        Act::Write { cell, content } => d.write(cell, content).into(),
        Act::Read { cell } => d.read(cell).into(),
        Act::Send => send(d, p as u8, latest),
        Act::Deliver { sender } => deliver(d, sender as u8, tray, latest),
        Act::Take => d.take(tray).into(),
    }
}
