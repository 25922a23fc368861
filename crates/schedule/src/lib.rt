// What a schedule's lines say: how many there are, what the first says of the shelf, and what step a
// line is. 01, "The program `rounds`".
//
// Every public function takes every text. The definitions speak of a line's words, and so does the
// code: each is cut off the line where it lies.
#![tactic(auto)]

ghost use Rattle.std.specs.Prelude.{◌≡◌, length};
ghost use Rattle.schedule.specs.Lines.{ended, lines_of};
ghost use Rattle.schedule.specs.Start.{start_in, said_start};
ghost use Rattle.schedule.specs.Step.{step_in, said_step};

use content::Content;

mod steps;
mod words;

// "Line 1: desks, cells, mode letter". The mode is open's: 0 for the default.
#[derive(Clone, Copy)]
pub struct Shelf {
    pub n: u32,
    pub m: u32,
    pub mode: u32,
}

// What a desk is to do.
#[derive(Clone, Copy)]
pub enum Act {
    Write { cell: u32, content: Content },
    Read { cell: u32 },
    Send,
    // It is given this sender's latest sheet.
    Deliver { sender: u32 },
    Take,
}

// What a line says as a step: which desk, and what it does.
#[derive(Clone, Copy)]
pub struct Step {
    pub desk: u32,
    pub act: Act,
}

// How many lines a text has, with one that no line feed ends.
pub fn lines_in(input: &[u8]) -> usize
    ensures { result ≡ length (lines_of input.now) }
{
    let ended = input.iter().filter(|b| **b == b'\n').count();
    let cut = input.last().is_some_and(|b| *b != b'\n');
    ended + usize::from(cut)
}

// What a line, without its line feed, says as the first; nothing, where it says no shelf.
#[tactic(auto, using(crate::proofs::Laws::Reading::starts_read))]
pub fn start_in(line: &[u8]) -> Option<Shelf>
    ensures { said_start result ≡ start_in (ended line.now) }
{
    let (n, rest) = words::cut(line)?;
    let (m, mode) = words::cut(rest)?;
    Some(Shelf {
        n: words::number(n)?,
        m: words::number(m)?,
        mode: words::mode(mode)?,
    })
}

// What a line, without its line feed, says as a step, on a shelf of n desks; nothing, where it is
// bad.
#[tactic(auto, using(crate::proofs::Laws::Reading::steps_read))]
pub fn step_in(line: &[u8], n: u32) -> Option<Step>
    ensures { said_step result ≡ step_in n (ended line.now) }
{
    let (letter, rest) = words::cut(line)?;
    // Stays: a match: it reads a word of a text, and a table of functions says no more.
    match letter {
        b"w" => steps::write_in(rest, n),
        b"r" => steps::read_in(rest, n),
        b"s" => steps::desk_in(rest, n, Act::Send),
        b"d" => steps::deliver_in(rest, n),
        b"t" => steps::desk_in(rest, n, Act::Take),
        _ => None,
    }
}
