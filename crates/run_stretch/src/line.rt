// The line of an answer: its three numbers in decimal. By hand and not by `write!`: the promise is of the bytes in the buffer,
// and an edit of this code (wrong/two_digits_as_one) has to be refused.
ghost use Rattle.std.specs.Prelude.{◌+◌, ◌≤◌, ◌≡◌, length};
ghost use Rattle.buffer.specs.Bytes.{stored, followed_by};
ghost use Rattle.run_stretch.specs.Line.{decimal, ended, line_of};

use answer::Refusal;
use stretch::Stretch;

// The line, from the first byte of out on, with zeros beside a refusal; gives its length.
pub(crate) fn put_line(out: &mut [u8], a: Result<Stretch, Refusal>) -> usize
    requires { 63 ≤ length out.old }
    ensures count { result ≡ length (line_of a) }
    ensures bytes { out.new ≡ followed_by (line_of a) out.old }
    ensures within { result ≤ length out.new }
{
    let none = Stretch { first: 0, count: 0 };
    let run = a.unwrap_or(none);
    let first = put_ended(out, 0, usize::from(answer::number(a)), b' ');
    let count = put_ended(out, first, run.first, b' ');
    put_ended(out, count, run.count, b'\n')
}

// A number and the byte after it, 21 bytes at the most; the place after them.
#[tactic(auto, using(crate::proofs::Decimal::twenty))]
fn put_ended(out: &mut [u8], to: usize, n: usize, byte: u8) -> usize
    requires { to + 21 ≤ length out.old }
    ensures { (result ≡ to + length (ended n byte)) × (out.new ≡ stored out.old to (ended n byte)) × (result ≤ to + 21) }
{
    let at = put_decimal(out, to, n);
    out[at] = byte;
    at + 1
}

// The digits of n; the place after them.
#[tactic(auto, using(crate::proofs::Decimal::one_long, crate::proofs::Decimal::more_long))]
fn put_decimal(out: &mut [u8], to: usize, n: usize) -> usize
    requires { to + length (decimal n) ≤ length out.old }
    ensures { (result ≡ to + length (decimal n)) × (out.new ≡ stored out.old to (decimal n)) }
{
    if n <= 9 {
        out[to] = b'0' + n as u8;
        return to + 1;
    }
    let at = put_decimal(out, to, n / 10);
    out[at] = b'0' + (n % 10) as u8;
    at + 1
}
