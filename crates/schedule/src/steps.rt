// The steps, each from the words behind its letter. The last of them is all that is left of the
// line: with a space in it, it is no number and no content.
ghost use Rattle.std.specs.Prelude.{◌≡◌};
ghost use Rattle.schedule.specs.Step.{write_in, read_in, deliver_in, desk_in, said_act, said_step};
ghost use Rattle.schedule.specs.Words.{words};

use crate::words::{content, cut, desk_of, number};
use crate::{Act, Step};

// "`w` desk cell day-or-`open`"
#[tactic(auto, using(crate::proofs::Laws::Reading::writes_read))]
pub(crate) fn write_in(rest: &[u8], n: u32) -> Option<Step>
    ensures { said_step result ≡ write_in n (words rest.now) }
{
    let (desk, rest) = cut(rest)?;
    let (cell, content_word) = cut(rest)?;
    Some(Step {
        desk: desk_of(desk, n)?,
        act: Act::Write {
            cell: number(cell)?,
            content: content(content_word)?,
        },
    })
}

// "`r` desk cell"
#[tactic(auto, using(crate::proofs::Laws::Reading::reads_read))]
pub(crate) fn read_in(rest: &[u8], n: u32) -> Option<Step>
    ensures { said_step result ≡ read_in n (words rest.now) }
{
    let (desk, cell) = cut(rest)?;
    Some(Step {
        desk: desk_of(desk, n)?,
        act: Act::Read {
            cell: number(cell)?,
        },
    })
}

// "`d` sender receiver"
#[tactic(auto, using(crate::proofs::Laws::Reading::delivers_read))]
pub(crate) fn deliver_in(rest: &[u8], n: u32) -> Option<Step>
    ensures { said_step result ≡ deliver_in n (words rest.now) }
{
    let (sender, receiver) = cut(rest)?;
    Some(Step {
        desk: desk_of(receiver, n)?,
        act: Act::Deliver {
            sender: desk_of(sender, n)?,
        },
    })
}

// "`s` desk", "`t` desk"
#[tactic(auto, using(crate::proofs::Laws::Reading::desks_read))]
pub(crate) fn desk_in(rest: &[u8], n: u32, act: Act) -> Option<Step>
    ensures { said_step result ≡ desk_in n (said_act act) (words rest.now) }
{
    Some(Step {
        desk: desk_of(rest, n)?,
        act,
    })
}
