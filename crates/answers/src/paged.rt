// Operations 64 and 65: the line of the boxes that are built on a lent buffer and of the search on them, and that of the
// search alone.
ghost use Rattle.std.specs.Prelude.{◌≡◌, ◌+◌, ◌*◌, ◌≤◌, ◌++◌, length};
ghost use Rattle.answers.specs.Paged.{edge_of, opened_of, kept_line, pages_line_on, pages_line, first_kept_line};

use crate::reply::{Words, numbered};
use crate::request::{float_at, floats_at, rect_at, word_up_to};
use crate::written::Line;
use answer::Refusal;
use pages::Found;

// The line of the boxes on a buffer of the length asked, every float that of the last word.
#[tactic(auto, unfolding(crate::specs::Paged::pages_line))]
pub(crate) fn pages_line(s: &[u8], line: &mut Line)
    ensures { line.new ≡ pages_line s.now }
{
    let fill = float_at(s, 23);
    let mut boxes = [fill; 75];
    let n = word_up_to(s, 2, 75);
    pages_line_on(s, &mut boxes[..n], line);
}

#[tactic(auto, unfolding(crate::specs::Paged::pages_line_on, crate::specs::Paged::built_line))]
fn pages_line_on(s: &[u8], boxes: &mut [f64], line: &mut Line)
    requires { length boxes.old ≤ 75 }
    ensures { line.new ≡ pages_line_on boxes.old s.now }
{
    let floats = floats_at(s, 7);
    let n = word_up_to(s, 1, 16);
    let samples = &floats[..n];
    let built = pages::build_pages(samples, boxes);
    let found = pages::first_kept(samples, rect_at(s, 3), boxes);
    numbered(answer::number(built), built.unwrap_or(0), line);
    line.push(b' ');
    push_kept(found, boxes, line);
}

// The line of the search on the same buffer.
#[tactic(auto, unfolding(crate::specs::Paged::first_kept_line))]
pub(crate) fn first_kept_line(s: &[u8], line: &mut Line)
    ensures { line.new ≡ first_kept_line s.now }
{
    let fill = float_at(s, 23);
    let boxes = [fill; 75];
    let n = word_up_to(s, 2, 75);
    let floats = floats_at(s, 7);
    let k = word_up_to(s, 1, 16);
    let found = pages::first_kept(&floats[..k], rect_at(s, 3), &boxes[..n]);
    line.clear();
    push_kept(found, &[], line);
}

// The number, the edge and the count of opened boxes, the floats, a line end, behind what stands in the line.
#[tactic(auto, unfolding(crate::specs::Paged::kept_line))]
fn push_kept(found: Result<Found, Refusal>, boxes: &[f64], line: &mut Line)
    requires { length line.old + 38 + 17 * length boxes.now ≤ 1334 }
    ensures { line.new ≡ line.old ++ kept_line found boxes.now }
{
    let edge = edge_of(found);
    line.push_number(answer::number(edge));
    (edge.unwrap_or(0), opened_of(found)).put(line);
    line.push_floats(boxes);
    line.push(b'\n');
}

// The edge; a miss where there is none. C's struct has it so too, but `pages` gives no edge beside the count of boxes.
fn edge_of(found: Result<Found, Refusal>) -> Result<usize, Refusal>
    ensures { result ≡ edge_of found }
{
    found?.edge.ok_or(Refusal::Missed)
}

// How many boxes were opened; none beside a refusal.
fn opened_of(found: Result<Found, Refusal>) -> usize
    ensures { result ≡ opened_of found }
{
    match found {
        Ok(found) => found.opened,
        Err(_) => 0,
    }
}
