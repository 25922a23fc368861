// A text in bytes: where its parts end, and numbers in decimal, read and printed. 01, "The program
// `rounds`": "Single spaces, decimal without leading zeros".
//
// Every public function takes every text, and `part_end` and `decimal_at` every place in it, also one
// past the end, where there is nothing.
#![tactic(auto)]

ghost use Rattle.std.specs.Prelude.{◌≡◌, ◌+◌, ◌*◌, ◌-◌, ◌≤◌, ◌<◌, min, true, false, length, drop, MatchOption};
ghost use Rattle.text.specs.Separated.{first_part};
ghost use Rattle.text.specs.Decimal.{is_digit, no_leading_zero, value, beyond, decimal_in, decimal_at};

mod printed;

pub use printed::put_decimal;

// A word that should be a number: whether it is decimal without leading zeros, its value, which is
// 4,294,967,296 for every number beyond 32 bits, and where the word ends.
// Stays: a flag beside a value: `decimal_at` says of any word what it is worth, also of no number.
#[derive(Clone, Copy)]
pub struct Decimal {
    pub ok: bool,
    pub value: u64,
    pub end: usize,
}

// Where the part ends that starts at `from`: at the next separator, or where the text ends.
pub fn part_end(s: &[u8], from: usize, sep: u8) -> usize
    ensures { result ≡ from + length (first_part sep (drop from s.now)) }
{
    let Some(rest) = s.get(from..) else {
        return from;
    };
    from + rest.iter().position(|b| *b == sep).unwrap_or(rest.len())
}

fn digit(b: u8) -> Option<u32>
    ensures { MatchOption result (is_digit b ≡ false) (λ d. (is_digit b ≡ true) × (d ≡ b - 48) × (d ≤ 9)) }
{
    char::from(b).to_digit(10)
}

// The value with a digit more, or 4,294,967,296 where that is beyond 32 bits.
fn more(value: u64, d: u64) -> u64
    requires { (value ≤ beyond) × (d < 256) }
    ensures { result ≡ min (10 * value + d) beyond }
{
    (10 * value + d).min(4294967296)
}

// Whether a word has bytes, and its first is a 0 only if it is the only one.
fn no_leading_zero(word: &[u8]) -> bool
    ensures { result ≡ no_leading_zero word.now }
{
    !matches!(word, [] | [b'0', _, ..])
}

// The number that a word is, if it is decimal without leading zeros: 4,294,967,296 for every number
// beyond 32 bits.
#[tactic(auto, using(crate::proofs::Laws::Decimal::decimal_loop))]
pub fn decimal_in(word: &[u8]) -> Option<u64>
    ensures { result ≡ decimal_in word.now }
{
    if !no_leading_zero(word) {
        return None;
    }
    let mut value = 0;
    for b in word {
        value = more(value, u64::from(digit(*b)?));
    }
    Some(value)
}

// The value of a word, also of one that is no number: each byte is worth what it is above `0`, and
// nothing below it. 4,294,967,296 for every number beyond 32 bits.
#[tactic(auto, using(crate::proofs::Laws::Decimal::value_loop))]
fn value_in(word: &[u8]) -> u64
    ensures { result ≡ min (value word.now) beyond }
{
    let mut value = 0;
    for b in word {
        value = more(value, u64::from(b.saturating_sub(b'0')));
    }
    value
}

// The word that stands from `from` on, up to the next separator.
pub fn decimal_at(s: &[u8], from: usize, sep: u8) -> Decimal
    ensures { result ≡ decimal_at sep s.now from }
{
    let end = part_end(s, from, sep);
    let Some(word) = s.get(from..end) else {
        return Decimal {
            ok: false,
            value: 0,
            end,
        };
    };
    Decimal {
        ok: decimal_in(word).is_some(),
        value: value_in(word),
        end,
    }
}
