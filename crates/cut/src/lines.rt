// The lines of cut edges, from records.
#![tactic(auto, using(float::proofs::Choice::branches), unfolding(crate::specs::Record::answer_of, crate::specs::Line::number_line))]

ghost use Rattle.std.specs.Prelude.{◌≡◌, ◌+◌, ◌≤◌, ◌<◌, length};
ghost use Rattle.answer.specs.Refusal.{number_of};
ghost use Rattle.buffer.specs.Bytes.{stored};
ghost use Rattle.buffer.specs.Text.{written, count_written};
ghost use Rattle.cut.specs.Record.{answer_of};
ghost use Rattle.cut.specs.Line.{number_line, kept_line, line_of, Told, text_of, room};

use answer::Refusal;
use clip::Segment;

// The text of the records in s: a line for each, and one more for a torn end. Gives its length, or 0
// with out as it was where out has no room: 70 bytes for each record, and 2.
pub fn put_text(s: &[u8], out: &mut [u8]) -> usize
    ensures count { result ≡ count_written (room s.now) (text_of s.now) out.old }
    ensures bytes { out.new ≡ written (room s.now) (text_of s.now) out.old }
    ensures within { result ≤ length out.new }
{
    let n = s.len() / 64;
    if out.len() < 2 || (out.len() - 2) / 70 < n {
        return 0;
    }
    let mut to = 0;
    for i in 0..n {
        to = put_line(out, to, answer_of(&s[i * 64..i * 64 + 64]));
    }
    if s.len() % 64 == 0 {
        return to;
    }
    buffer::place(out, to, &number_line(Refusal::Torn));
    to + 2
}

// The line of one answer; the place after it.
fn put_line(out: &mut [u8], to: usize, answer: Result<Segment, Refusal>) -> usize
    requires room { to + 70 ≤ length out.old }
    requires told { Told answer }
    ensures place { result ≡ to + length (line_of answer) }
    ensures bytes { out.new ≡ stored out.old to (line_of answer) }
{
    match answer {
        Ok(s) => {
            buffer::place(out, to, &kept_line(s));
            to + 70
        }
        Err(refusal) => {
            buffer::place(out, to, &number_line(refusal));
            to + 2
        }
    }
}

// `0`, four groups of digits and a line end.
fn kept_line(s: Segment) -> [u8; 70]
    ensures { result ≡ kept_line s }
{
    let mut line = [b'0'; 70];
    buffer::put_group(&mut line, 1, float::to_bits(s.ax));
    buffer::put_group(&mut line, 18, float::to_bits(s.ay));
    buffer::put_group(&mut line, 35, float::to_bits(s.bx));
    buffer::put_group(&mut line, 52, float::to_bits(s.by));
    line[69] = b'\n';
    line
}

// The refusal's number, of one digit, and a line end.
fn number_line(refusal: Refusal) -> [u8; 2]
    requires { number_of refusal < 10 }
    ensures { result ≡ number_line (number_of refusal) }
{
    [b'0' + refusal.number(), b'\n']
}

// The answer for a record.
fn answer_of(s: &[u8]) -> Result<Segment, Refusal>
    ensures { result ≡ answer_of s.now }
{
    clip::clip_edge(
        reading::point_at(s, 0),
        reading::point_at(s, 16),
        reading::window_at(s, 32),
    )
}
