// Words in lent bytes: little-endian out of them, as hex digits into them. What does not fit whole
// is not written at all.
#![tactic(auto)]

ghost use Rattle.std.specs.Prelude.{[], ◌∷◌, ◌/◌, ◌%◌, ◌≡◌, ◌<◌};
ghost use Rattle.buffer.specs.Bytes.{word_at, bytes_of, placed};
ghost use Rattle.buffer.specs.Digits.{digit_of, group};

// The 8 bytes at a place, as a little-endian number; 0 where they are not all there.
pub fn word_at(s: &[u8], at: usize) -> u64
    ensures { result ≡ word_at s.now at }
{
    let Some(rest) = s.get(at..) else {
        return 0;
    };
    let Some(bytes) = rest.first_chunk() else {
        return 0;
    };
    u64::from_le_bytes(*bytes)
}

// The bytes, at a place where all of them fit; else nothing is written.
pub fn place(out: &mut [u8], at: usize, bytes: &[u8])
    ensures { out.new ≡ placed out.old at bytes.now }
{
    let n = bytes.len();
    if n <= out.len() && at <= out.len() - n {
        out[at..at + n].copy_from_slice(bytes);
    }
}

// The 8 bytes of n, little-endian, at a place where all of them fit; else nothing is written.
#[tactic(auto, using(crate::proofs::Stored::le_bytes))]
pub fn put_word(out: &mut [u8], at: usize, n: u64)
    ensures { out.new ≡ placed out.old at (bytes_of 8 n) }
{
    place(out, at, &n.to_le_bytes());
}

// A space and the 16 hex digits of n, at a place where all 17 bytes fit; else nothing is written.
pub fn put_group(out: &mut [u8], at: usize, n: u64)
    ensures { out.new ≡ placed out.old at (group n) }
{
    let mut text = [b' '; 17];
    for k in 0..16 {
        text[k + 1] = digit(((n >> (60 - 4 * k)) % 16) as u8);
    }
    place(out, at, &text);
}

// The two lower-case hex digits of a byte.
pub fn digits(b: u8) -> [u8; 2]
    ensures { result ≡ digit_of (b / 16) ∷ digit_of (b % 16) ∷ [] }
{
    [digit(b / 16), digit(b % 16)]
}

// The digit of a number below 16.
#[tactic(auto, using(float::proofs::Choice::branches), unfolding(crate::specs::Digits::digit_of))]
fn digit(d: u8) -> u8
    requires { d < 16 }
    ensures { result ≡ digit_of d }
{
    if d < 10 { b'0' + d } else { b'a' - 10 + d }
}
