// The first line of a text, and its step.
ghost use Rattle.std.specs.Prelude.{◌≡◌, MatchOption};
ghost use Rattle.schedule.specs.Lines.{lines_of};
ghost use Rattle.play.specs.Parts.Lines.{NoneEnded, FirstLine, said, BadFirst, FirstStep};

use schedule::Step;

// The first line, without its line feed, and the text behind it; nothing, where no line feed ends
// it.
pub(crate) fn line_in(lines: &[u8]) -> Option<(&[u8], &[u8])>
    ensures { MatchOption result (NoneEnded lines.now) (λ p. FirstLine lines.now p.0.now p.1.now) }
{
    let end = text::part_end(lines, 0, b'\n');
    if lines.len() <= end {
        return None;
    }
    Some((&lines[..end], &lines[end + 1..]))
}

// The step of the first line on a shelf of n desks, and the text behind the line; nothing, where
// the line is bad, as one is that no line feed ends.
pub(crate) fn step_in(lines: &[u8], n: u32) -> Option<(Step, &[u8])>
    ensures { MatchOption result (BadFirst n (lines_of lines.now)) (λ p. FirstStep n lines.now (said p.0) p.1.now) }
{
    let (words, rest) = line_in(lines)?;
    let step = schedule::step_in(words, n)?;
    Some((step, rest))
}
