// Numbers, printed in decimal.
ghost use Rattle.std.specs.Prelude.{◌≡◌, length};
ghost use Rattle.laying.specs.Laying.{laid_over};
ghost use Rattle.text.specs.Decimal.{decimal};

// Lays the digits of k over the buffer from `at` on, where they have room, and answers how many there
// are: 10 at most.
// Stays: the place beside the buffer, of which the clause speaks (`laid_over`).
pub fn put_decimal(buf: &mut [u8], at: usize, k: u32) -> usize
    ensures buf_after { buf.new ≡ laid_over buf.old at (decimal k) }
    ensures value { result ≡ length (decimal k) }
{
    let count = k.max(1).ilog10() as usize + 1;
    let mut digits = [b'0'; 10];
    let mut left = k;
    for i in (0..count).rev() {
        digits[i] = b'0' + (left % 10) as u8;
        left /= 10;
    }
    laying::put(buf, at, &digits[..count]);
    count
}
