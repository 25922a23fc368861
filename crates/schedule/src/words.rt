// The words of a line.
ghost use Rattle.std.specs.Prelude.{◌≡◌, ◌∷◌, [], MatchOption};
ghost use Rattle.schedule.specs.Words.{words};
ghost use Rattle.schedule.specs.Parts.{number, desk_of, mode, day, content};

use content::Content;

// A line, cut at its first space: the word before it, and what stands behind; nothing, where it has
// none. "Single spaces": a word ends where `part_end` says, as a line does.
pub(crate) fn cut(line: &[u8]) -> Option<(&[u8], &[u8])>
    ensures { MatchOption result (words line.now ≡ line.now ∷ []) (λ c. words line.now ≡ c.0.now ∷ words c.1.now) }
{
    let end = text::part_end(line, 0, b' ');
    if line.len() <= end {
        return None;
    }
    Some((&line[..end], &line[end + 1..]))
}

// A number of 32 bits.
#[tactic(auto, using(crate::proofs::Laws::Answers::numbers_read))]
pub(crate) fn number(word: &[u8]) -> Option<u32>
    ensures { result ≡ number word.now }
{
    u32::try_from(text::decimal_in(word)?).ok()
}

// A desk that is there, of n.
pub(crate) fn desk_of(word: &[u8], n: u32) -> Option<u32>
    ensures { result ≡ desk_of n word.now }
{
    number(word).filter(|p| *p < n)
}

// The mode of a mode letter.
#[tactic(auto, using(crate::proofs::Laws::Answers::modes))]
pub(crate) fn mode(word: &[u8]) -> Option<u32>
    ensures { result ≡ mode word.now }
{
    match word {
        b"s" => Some(1),
        b"c" => Some(2),
        b"k" => Some(3),
        b"-" => Some(0),
        _ => None,
    }
}

// "a minus only before a day below 0"
fn day(word: &[u8]) -> Option<i32>
    ensures { result ≡ day word.now }
{
    match word.strip_prefix(b"-") {
        Some(below) => 0i32.checked_sub_unsigned(number(below).filter(|k| *k != 0)?),
        None => i32::try_from(number(word)?).ok(),
    }
}

// "day-or-`open`"
pub(crate) fn content(word: &[u8]) -> Option<Content>
    ensures { result ≡ content word.now }
{
    if word == b"open".as_slice() {
        return Some(Content::Open);
    }
    day(word).map(Content::Day)
}
