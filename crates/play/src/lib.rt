// A run of `rounds`: a schedule's bytes in, the bytes it prints out. 01, "The program `rounds`".
//
// `play` is all there is between standard input and standard output. Its promise is one record,
// `Prints`, of the definition `printed` (specs/Rounds.antt), which reads like 01's section, for
// every input.
#![tactic(auto)]

ghost use Rattle.std.specs.Prelude.{◌≡◌, length, MatchOption};
ghost use Rattle.laying.specs.Laying.{laid_over};
ghost use Rattle.schedule.specs.Lines.{lines_of};
ghost use Rattle.play.specs.Rounds.{too_long, bad_start, lines_text, printed, Prints};
ghost use Rattle.play.specs.Parts.Running.{said_shelf, mode_in_force, Starts};

use desk::Desk;
use schedule::Shelf;

mod first;
mod making;
mod running;

// What line 1 says, where it is a start: the shelf, whose desks can be opened, and the mode in
// force; and the lines behind it.
#[derive(Clone, Copy)]
struct Opening<'a> {
    shelf: Shelf,
    mode: u8,
    steps: &'a [u8],
}

// "16,384 bytes and 1,000 steps (lines after the first) at most".
fn too_long(input: &[u8]) -> bool
    ensures { result ≡ too_long input.now }
{
    16384 < input.len() || 1001 < schedule::lines_in(input)
}

// A line that is printed alone.
fn put_alone(out: &mut [u8], line: &str) -> usize
    ensures out_after { out.new ≡ laid_over out.old 0 line.now }
    ensures value { result ≡ length line.now }
{
    laying::put(out, 0, line.as_bytes());
    line.len()
}

// The mode in force, that of a desk opened so; nothing, where a desk can't be opened.
fn mode_in_force(shelf: Shelf) -> Option<u8>
    ensures { result ≡ mode_in_force (said_shelf shelf) }
{
    let o = Desk::open(shelf.n, shelf.m, 0, shelf.mode);
    match o.answer {
        Ok(_) => Some(o.desk.head.mode),
        Err(_) => None,
    }
}

// "if it has another form or a desk can't be opened, `bad start` alone"
fn started(input: &[u8]) -> Option<Opening<'_>>
    ensures { MatchOption result (lines_text (lines_of input.now) ≡ bad_start) (λ s. Starts input.now (said_shelf s.shelf) s.mode s.steps.now) }
{
    let (line, steps) = first::line_in(input)?;
    let shelf = schedule::start_in(line)?;
    let mode = mode_in_force(shelf)?;
    Some(Opening { shelf, mode, steps })
}

// Plays the schedule, and prints from the buffer's front on; answers how many bytes that are. The
// buffer has 64 bytes for each of 1,001 lines, and no line is longer: so there is room for every
// run.
pub fn play(input: &[u8], out: &mut [u8; 64064]) -> usize
    ensures { Prints (printed input.now) out.old out.new result }
{
    if too_long(input) {
        return put_alone(out, "too long\n");
    }
    let Some(Opening { shelf, mode, steps }) = started(input) else {
        return put_alone(out, "bad start\n");
    };
    let at = printing::put_header(out, 0, shelf.n, shelf.m, mode);
    running::run(steps, shelf, out, at)
}
