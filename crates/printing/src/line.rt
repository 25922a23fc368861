// A line that is being written: its text so far, of 64 bytes at most. To the contracts a line is
// that text.
ghost use Rattle.std.specs.Prelude.{◌≡◌, [], ◌++◌, ◌+◌, ◌≤◌, List, ℕ, length, take};
ghost use Rattle.desk.specs.Answers.{waited_of, value_of};
ghost use Rattle.text.specs.Text.{text as text·bytes};
ghost use Rattle.text.specs.Decimal.{decimal, signed_decimal};
ghost use Rattle.printing.specs.StepAnswer.{told_answer, said_step_answer};
ghost use Rattle.printing.specs.Printing.{letter_text, content_text, waited_text, value_text, answer_text, step_answer_text, wrote};
ghost use Rattle.printing.specs.Parts.{taken_text};

use crate::StepAnswer;
use content::Content;
use desk::Answer;
use std::marker::Model;

// No line is longer.
const LONGEST: usize = 64;

// Stays: bytes and their count: a String needs a heap, and memory is fixed.
#[derive(Drop)]
pub(crate) struct Line {
    bytes: [u8; 64],
    len: usize,
}

impl Model for Line {
    ghost Value = { List ℕ };

    ghost view = { λ l. take l.len l.bytes };

    ghost invariant = { λ l. l.len ≤ 64 };
}

impl Line {
    pub(crate) fn new() -> Line
        ensures { result ≡ [] }
    {
        Line {
            bytes: [0; LONGEST],
            len: 0,
        }
    }

    #[tactic(auto, using(crate::proofs::Laws::lines))]
    pub(crate) fn text(&mut self, x: &str)
        requires { length self.old + length x.now ≤ 64 }
        ensures text { self.new ≡ self.old ++ x.now }
        ensures len { length self.new ≡ length self.old + length x.now }
    {
        laying::put(&mut self.bytes, self.len, x.as_bytes());
        self.len += x.len();
    }

    // A text, and a number behind it.
    // Stays: tried, not proved by `write!`: it says what it wrote on Ok alone, and this can't fail.
    #[tactic(auto, using(crate::proofs::Laws::lines))]
    pub(crate) fn number(&mut self, before: &str, k: u32)
        requires { length self.old + length before.now + length (decimal k) ≤ 64 }
        ensures text { self.new ≡ self.old ++ before.now ++ decimal k }
        ensures len { length self.new ≡ length self.old + length before.now + length (decimal k) }
    {
        self.text(before);
        self.len += text::put_decimal(&mut self.bytes, self.len, k);
    }

    // Lays the line over the buffer from `at` on, where 64 bytes are left; answers where the text
    // goes on.
    #[tactic(auto, using(crate::proofs::Laws::laid_lines))]
    pub(crate) fn lay(&self, out: &mut [u8], at: usize) -> usize
        ensures result_after { record { bytes = out.new; end = result } ≡ wrote out.old at self.now }
        ensures upper_bound { result ≤ at + 64 }
    {
        if out.len().saturating_sub(at) < LONGEST {
            return at;
        }
        laying::put(out, at, &self.bytes[..self.len]);
        at + self.len
    }
}

// The words of a line. Each function requires room for the longest text that it may write: a number
// of 32 bits has at most 10 digits, and one of 8 bits 3.
#[tactic(auto, using(crate::proofs::Laws::digits_few))]
impl Line {
    // The letter of a mode in force, 1 sequential, 2 causal, 3 cache.
    pub(crate) fn letter(&mut self, mode: u8)
        requires { length self.old + 1 ≤ 64 }
        ensures text { self.new ≡ self.old ++ letter_text mode }
        ensures few { length self.new ≤ length self.old + 1 }
    {
        match mode {
            1 => self.text("s"),
            2 => self.text("c"),
            _ => self.text("k"),
        }
    }

    // "`day` and number", "a minus only before a day below 0"
    // Stays: as at `number`: `write!` of a Content, too, says what it wrote on Ok alone.
    fn day(&mut self, day: i32)
        requires { length self.old + 15 ≤ 64 }
        ensures text { self.new ≡ self.old ++ (text·bytes "day " ++ signed_decimal day) }
        ensures few { length self.new ≤ length self.old + 15 }
    {
        let size = day.unsigned_abs();
        if day < 0 {
            return self.number("day -", size);
        }
        self.number("day ", size)
    }

    // "`blank`, `open` or `day` and number"
    // Stays: as at `number`: `write!` of a Content, too, says what it wrote on Ok alone.
    fn content(&mut self, c: Content)
        requires { length self.old + 15 ≤ 64 }
        ensures text { self.new ≡ self.old ++ content_text c }
        ensures few { length self.new ≤ length self.old + 15 }
    {
        match c {
            Content::Blank => self.text("blank"),
            Content::Open => self.text("open"),
            Content::Day(day) => self.day(day),
        }
    }

    // "waited-for content (as a read prints it) or `-`"
    fn waited(&mut self, waited: Option<Content>)
        requires { length self.old + 15 ≤ 64 }
        ensures text { self.new ≡ self.old ++ waited_text (waited_of waited) }
        ensures few { length self.new ≤ length self.old + 15 }
    {
        match waited {
            None => self.text("-"),
            Some(c) => self.content(c),
        }
    }

    fn value(&mut self, a: Answer)
        requires { length self.old + 40 ≤ 64 }
        ensures text { self.new ≡ self.old ++ value_text (value_of a) }
        ensures few { length self.new ≤ length self.old + 40 }
    {
        match a {
            Answer::Opened => self.text("opened"),
            Answer::Stored => self.text("stored"),
            Answer::Holds(c) => self.content(c),
            Answer::Waits => self.text("waits"),
            Answer::Sent { turn, entries } => {
                self.number("sent ", turn);
                self.number(" ", entries as u32);
            }
            Answer::Held => self.text("held"),
            Answer::Taken {
                turn,
                entries,
                applied,
                waited,
            } => {
                self.taken(turn, entries, applied);
                self.waited(waited);
            }
        }
    }

    // "`taken` turn number, entries, entries applied"
    fn taken(&mut self, turn: u32, entries: u8, applied: u8)
        requires { length self.old + 25 ≤ 64 }
        ensures text { self.new ≡ self.old ++ taken_text turn entries applied }
        ensures few { length self.new ≤ length self.old + 25 }
    {
        self.number("taken ", turn);
        self.number(" ", entries as u32);
        self.number(" ", applied as u32);
        self.text(" ");
    }

    // "any refused call `refused` and its number"
    fn answer(&mut self, answer: Result<Answer, u8>)
        requires { length self.old + 40 ≤ 64 }
        ensures text { self.new ≡ self.old ++ answer_text (told_answer answer) }
        ensures few { length self.new ≤ length self.old + 40 }
    {
        match answer {
            Ok(a) => self.value(a),
            Err(number) => self.number("refused ", number as u32),
        }
    }

    pub(crate) fn step_answer(&mut self, answer: StepAnswer)
        requires { length self.old + 40 ≤ 64 }
        ensures text { self.new ≡ self.old ++ step_answer_text (said_step_answer answer) }
        ensures few { length self.new ≤ length self.old + 40 }
    {
        match answer {
            StepAnswer::OfCall(a) => self.answer(a),
            StepAnswer::NothingSent => self.text("nothing sent"),
            StepAnswer::BadLine => self.text("bad line"),
        }
    }
}
