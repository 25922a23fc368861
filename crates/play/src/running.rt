// The steps of a run, line by line.
ghost use Rattle.play.specs.Parts.Running.{said_shelf, AllOpened, Runs, run_of, Ran};

use crate::{first, making};
use desk::Desk;
use printing::StepAnswer;
use schedule::{Shelf, Step};

// "Open all desks of a shelf once"; what is behind the shelf's desks in the array is refused, and
// never used.
fn opened(shelf: Shelf) -> [Desk; 16]
    ensures { AllOpened (said_shelf shelf) result }
{
    let mut desks = [Desk::open(shelf.n, shelf.m, 0, shelf.mode).desk; 16];
    for p in 1..16 {
        desks[p as usize] = Desk::open(shelf.n, shelf.m, p, shelf.mode).desk;
    }
    desks
}

// Plays these lines, and prints from `at` on; answers where the text ends.
// Stays: the buffer and the place: the clause `Ran` names both, as put_line's `wrote` does.
pub(crate) fn run(steps: &[u8], shelf: Shelf, out: &mut [u8], at: usize) -> usize
    requires { Runs steps.now shelf.n out.old at }
    ensures { Ran (run_of steps.now (said_shelf shelf)) out.old at out.new result }
{
    let mut desks = opened(shelf);
    // "clear trays": 398 bytes for each of 16 desks, 16 times. The first 398 × n × n bytes are
    // those of n desks.
    let mut trays = [0; 101888];
    // A place for each desk's latest sheet; none has one.
    let mut latest = [0; 6368];
    let size = 398 * shelf.n as usize;
    let mut rest = steps;
    let mut end = at;
    let mut number = 1;
    while !rest.is_empty() {
        let Some((Step { desk, act }, after)) = first::step_in(rest, shelf.n) else {
            return printing::put_line(out, end, number, StepAnswer::BadLine);
        };
        let p = desk as usize;
        let from = p * size;
        let o = making::make(
            desks[p],
            desk,
            act,
            &mut trays[from..from + size],
            &mut latest,
        );
        desks[p] = o.desk;
        end = printing::put_line(out, end, number, o.answer);
        number += 1;
        rest = after;
    }
    end
}
