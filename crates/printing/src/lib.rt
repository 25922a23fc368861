// What `rounds` prints: the header, and a line for each step. 01, "The program `rounds`".
//
// A line has at most 64 bytes. It is laid into a lent buffer from `at` on, where 64 bytes are left,
// and the answer is where the text goes on; without that room nothing is laid, and the answer is
// `at`.
#![tactic(auto)]

ghost use Rattle.std.specs.Prelude.{◌≡◌, ◌+◌, ◌≤◌};
ghost use Rattle.desk.specs.Answers.{said_answer};
ghost use Rattle.printing.specs.StepAnswer.{of_call, said_step_answer};
ghost use Rattle.printing.specs.Printing.{wrote, line_text, header_text};

use answer::Refusal;
use desk::Answer;
use line::Line;

mod line;

// What a step comes to.
#[derive(Clone, Copy)]
pub enum StepAnswer {
    // Stays: a refusal's number: `put_line` takes any, and a `Refusal` has 23.
    OfCall(Result<Answer, u8>),
    // `d` before the sender has sent.
    NothingSent,
    BadLine,
}

// What a call answered.
impl From<Result<Answer, Refusal>> for StepAnswer {
    ghost from_gives = { λ r s. said_step_answer s ≡ of_call (said_answer r) };

    fn from(r: Result<Answer, Refusal>) -> StepAnswer {
        match r {
            Ok(a) => StepAnswer::OfCall(Ok(a)),
            Err(refusal) => StepAnswer::OfCall(Err(refusal.number())),
        }
    }
}

// "Header: desks, cells, letter of the mode in force (never `-`)."
// Stays: `wrote`, by which both promise, names buffer and place; the mode in force is no shelf's.
#[tactic(auto, using(crate::proofs::Laws::digits_few), unfolding(crate::specs::Printing::header_text))]
pub fn put_header(out: &mut [u8], at: usize, n: u32, m: u32, mode: u8) -> usize
    ensures result_after { record { bytes = out.new; end = result } ≡ wrote out.old at (header_text n m mode) }
    ensures upper_bound { result ≤ at + 64 }
{
    let mut line = Line::new();
    line.number("desks ", n);
    line.number(" cells ", m);
    line.text(" mode ");
    line.letter(mode);
    line.text("\n");
    line.lay(out, at)
}

// "Then step number and answer".
#[tactic(auto, using(crate::proofs::Laws::digits_few), unfolding(crate::specs::Printing::line_text))]
pub fn put_line(out: &mut [u8], at: usize, number: u32, answer: StepAnswer) -> usize
    ensures result_after { record { bytes = out.new; end = result } ≡ wrote out.old at (line_text number (said_step_answer answer)) }
    ensures upper_bound { result ≤ at + 64 }
{
    let mut line = Line::new();
    line.number("", number);
    line.text(" ");
    line.step_answer(answer);
    line.text("\n");
    line.lay(out, at)
}
