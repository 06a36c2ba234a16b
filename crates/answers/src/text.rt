// The lines of requests.
ghost use Rattle.std.specs.Prelude.{◌≡◌, ◌≤◌, length};
ghost use Rattle.buffer.specs.Text.{written, count_written};
ghost use Rattle.answers.specs.Line.{line_of, text_of, room};

use crate::paged::{first_kept_line, pages_line};
use crate::request::word;
use crate::table::reply_of;
use crate::traced::trace_line;
use crate::walked::walk_line;
use crate::written::Line;

// The text of the requests in s: a line for each, and one more for a torn end. Gives its length, or 0
// with out as it was where out has no room: 1,334 bytes for each request, and 2.
pub fn put_text(s: &[u8], out: &mut [u8]) -> usize
    ensures count { result ≡ count_written (room s.now) (text_of s.now) out.old }
    ensures bytes { out.new ≡ written (room s.now) (text_of s.now) out.old }
    ensures within { result ≤ length out.new }
{
    // `cut` has the same over its own lines: a trait with the definitions of both texts would be no shorter.
    let n = s.len() / 192;
    if out.len() < 2 || (out.len() - 2) / 1334 < n {
        return 0;
    }
    // One line, which each request begins anew.
    let mut line = Line::new();
    let mut to = 0;
    for i in 0..n {
        line_of(&s[i * 192..i * 192 + 192], &mut line);
        let text = line.as_slice();
        buffer::place(out, to, text);
        to += text.len();
    }
    if s.len() % 192 == 0 {
        return to;
    }
    buffer::place(out, to, b"9\n");
    to + 2
}

// The line of one request.
#[tactic(auto, unfolding(crate::specs::Line::line_of), using(float::proofs::Choice::numbers))]
fn line_of(s: &[u8], line: &mut Line)
    ensures { line.new ≡ line_of s.now }
{
    match word(s, 0) {
        60 => walk_line(s, line),
        61 => trace_line(false, s, line),
        62 => trace_line(true, s, line),
        64 => pages_line(s, line),
        65 => first_kept_line(s, line),
        _ => reply_of(s, line),
    }
}
