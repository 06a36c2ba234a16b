// A line that is being written.
ghost use Rattle.std.specs.Prelude.{◌≡◌, ◌+◌, ◌*◌, ◌≤◌, ◌<◌, [], ◌∷◌, ◌++◌, length};
ghost use Rattle.buffer.specs.Digits.{group};
ghost use Rattle.answers.specs.Number.{number_text, float_group, float_groups};
ghost use Rattle.answers.specs.Lent.{bytes_text, spaced_bytes};

use std::marker::Model;

// Its bytes: at most 1,334, the longest line of a request. No heap, so they lie in the value itself; it is lent from call
// to call, since handing it up copies them all.
#[derive(Drop)]
pub struct Line {
    bytes: [u8; 1334],
    len: usize,
}

impl Model for Line {
    ghost use Rattle.std.specs.Prelude.{ℕ, List, take, ◌≤◌};

    ghost Value = { List ℕ };

    ghost view = { λ l. take l.len l.bytes };

    ghost invariant = { λ l. l.len ≤ 1334 };
}

impl Line {
    pub(crate) fn new() -> Self
        ensures { result ≡ [] }
    {
        Line {
            bytes: [0; 1334],
            len: 0,
        }
    }

    pub(crate) fn clear(&mut self)
        ensures { self.new ≡ [] }
    {
        self.len = 0;
    }

    pub(crate) fn as_slice(&self) -> &[u8]
        ensures is { result.now ≡ self.now }
        ensures most { length result.now ≤ 1334 }
    {
        &self.bytes[..self.len]
    }

    pub(crate) fn push(&mut self, b: u8)
        requires { length self.old < 1334 }
        ensures text { self.new ≡ self.old ++ b ∷ [] }
        ensures long { length self.new ≡ length self.old + 1 }
    {
        self.bytes[self.len] = b;
        self.len += 1;
    }

    pub(crate) fn extend_from_slice(&mut self, bytes: &[u8])
        requires { length self.old + length bytes.now ≤ 1334 }
        ensures text { self.new ≡ self.old ++ bytes.now }
        ensures long { length self.new ≡ length self.old + length bytes.now }
    {
        let end = self.len + bytes.len();
        self.bytes[self.len..end].copy_from_slice(bytes);
        self.len = end;
    }

    // A number up to 14 in decimal; 255 for any other.
    #[tactic(auto, unfolding(crate::specs::Number::number_text), using(float::proofs::Choice::numbers))]
    pub(crate) fn push_number(&mut self, n: u8)
        requires { length self.old + 3 ≤ 1334 }
        ensures text { self.new ≡ self.old ++ number_text n }
        ensures long { length self.new ≤ length self.old + 3 }
    {
        match n {
            0..=9 => self.push(b'0' + n),
            10..=14 => self.extend_from_slice(&[b'1', b'0' - 10 + n]),
            _ => self.extend_from_slice(b"255"),
        }
    }

    // A space and 16 digits.
    pub(crate) fn push_word(&mut self, w: u64)
        requires { length self.old + 17 ≤ 1334 }
        ensures text { self.new ≡ self.old ++ group w }
        ensures long { length self.new ≡ length self.old + 17 }
    {
        buffer::put_group(&mut self.bytes, self.len, w);
        self.len += 17;
    }

    pub(crate) fn push_float(&mut self, x: f64)
        requires { length self.old + 17 ≤ 1334 }
        ensures text { self.new ≡ self.old ++ float_group x }
        ensures long { length self.new ≡ length self.old + 17 }
    {
        self.push_word(float::to_bits(x));
    }

    pub(crate) fn push_floats(&mut self, floats: &[f64])
        requires { length self.old + 17 * length floats.now ≤ 1334 }
        ensures text { self.new ≡ self.old ++ float_groups floats.now }
        ensures long { length self.new ≡ length self.old + 17 * length floats.now }
    {
        for x in floats {
            self.push_float(*x);
        }
    }

    // A space and two digits for each byte, or nothing where there is none.
    pub(crate) fn push_spaced(&mut self, bytes: &[u8])
        requires { length self.old + 1 + 2 * length bytes.now ≤ 1334 }
        ensures text { self.new ≡ self.old ++ spaced_bytes bytes.now }
        ensures long { length self.new ≤ length self.old + 1 + 2 * length bytes.now }
    {
        if !bytes.is_empty() {
            self.push(b' ');
            self.push_bytes(bytes);
        }
    }

    fn push_bytes(&mut self, bytes: &[u8])
        requires { length self.old + 2 * length bytes.now ≤ 1334 }
        ensures text { self.new ≡ self.old ++ bytes_text bytes.now }
        ensures long { length self.new ≡ length self.old + 2 * length bytes.now }
    {
        let end = self.len + 2 * bytes.len();
        put_digits(&mut self.bytes[self.len..end], bytes);
        self.len = end;
    }
}

// Two digits for each byte, which fill the place. By index: pushed one by one they take four times as long.
fn put_digits(out: &mut [u8], bytes: &[u8])
    requires { length out.old ≡ 2 * length bytes.now }
    ensures { out.new ≡ bytes_text bytes.now }
{
    for (i, b) in bytes.iter().enumerate() {
        let [high, low] = buffer::digits(*b);
        out[2 * i] = high;
        out[2 * i + 1] = low;
    }
}
