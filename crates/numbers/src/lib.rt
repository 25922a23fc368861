// Numbers as bytes: 01, "A sheet and its trailer": "All numbers low byte first", and a day is "4, two's
// complement". specs/Numbers.antt says so, and proofs/LowFirst.antt that this is what std's
// `from_le_bytes` and `to_le_bytes` do, by which sheets and trays are read and written; a day's
// pattern is met only in `cast_signed` and `cast_unsigned`. And a leaf that others need, `left_by`.
#![tactic(auto)]

ghost use Rattle.std.specs.Prelude.{◌≡◌, ◌%◌};

// What a number leaves when divided; by 0 it leaves itself.
pub fn left_by(n: u32, by: u8) -> u32
    ensures { result ≡ n % by }
{
    n.checked_rem(u32::from(by)).unwrap_or(n)
}
