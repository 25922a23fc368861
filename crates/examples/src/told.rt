// What a call answers, as the program `rounds` prints it.
use answer::Refusal;
use desk::Answer;
use std::fmt;

// "day 0", or "refused 22".
#[derive(Clone, Copy)]
pub(crate) struct OrRefused<T>(pub(crate) Result<T, Refusal>);

impl<T: fmt::Display> fmt::Display for OrRefused<T> {
    fn fmt<W: fmt::Write>(&self, f: &mut fmt::Formatter<W>) -> fmt::Result {
        match &self.0 {
            Ok(value) => write!(f, "{value}"),
            Err(refusal) => write!(f, "{refusal}"),
        }
    }
}

// A desk's answer.
#[derive(Clone, Copy)]
pub(crate) struct Told(pub(crate) Answer);

impl fmt::Display for Told {
    fn fmt<W: fmt::Write>(&self, f: &mut fmt::Formatter<W>) -> fmt::Result {
        match self.0 {
            Answer::Opened => f.write_str("opened"),
            Answer::Stored => f.write_str("stored"),
            Answer::Holds(content) => write!(f, "{content}"),
            Answer::Waits => f.write_str("waits"),
            Answer::Sent { turn, entries } => write!(f, "sent {turn} {entries}"),
            Answer::Held => f.write_str("held"),
            Answer::Taken {
                turn,
                entries,
                applied,
                waited,
            } => match waited {
                Some(content) => write!(f, "taken {turn} {entries} {applied} {content}"),
                None => write!(f, "taken {turn} {entries} {applied} -"),
            },
        }
    }
}
