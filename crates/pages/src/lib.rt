// Is the trace on this page at all? The boxes of a trace's edges, of halves of them, halves of halves, down
// to single edges, are built once; then the lowest-numbered edge that is kept in a window is found by going
// down the halves, and most of the trace is never looked at.
//
// `build_pages` and `first_kept` are the entries: each refuses 10, then 3 for a window, then 8. Both go down the halves by calling themselves,
// at most 13 deep for 4,096 samples.
#![tactic(auto, using(float::proofs::Choice::branches))]

mod boxes;
mod search;

ghost use Rattle.std.specs.Prelude.{◌/◌, ◌-◌, ◌≡◌, length};
ghost use Rattle.pages.specs.Answers.{edge_count, boxes_fit, pages_answer, buffer_after, kept_answer};

use answer::Refusal;
use boxes::FLOATS;
use clip::window::Window;
use plane::Rect;
use trace::refuse;

// The edge that was found, and how many boxes were opened.
#[derive(Clone, Copy)]
pub struct Found {
    pub edge: Option<usize>,
    pub opened: usize,
}

// The samples, x and y in turn: the boxes from the first float of boxes on, five floats each, that of all
// edges first, then those of the first half, then those of the second; of an odd number of edges the first
// half is the longer. The mark is 1 where an edge that is not refused is below, and a box with none is
// 1, 1, 0, 0 and the mark 0. How many floats were written; those after the last box stay. 10 for an odd count
// of floats or more than 4,096 samples, 8 where boxes has no room for 2m - 1 boxes of m edges: then no float
// is changed.
#[tactic(auto, using(crate::proofs::Exits::built))]
pub fn build_pages(samples: &[f64], boxes: &mut [f64]) -> Result<usize, Refusal>
    ensures answer { result ≡ pages_answer (length samples.now) (length boxes.old) }
    ensures floats { boxes.new ≡ buffer_after boxes.old samples.now }
{
    refuse::in_order(
        refuse::trace_fine(samples.len()),
        true,
        boxes_fit(samples.len(), boxes.len()),
    )?;
    let edges = refuse::edge_count(samples.len());
    if edges == 0 {
        return Ok(0);
    }
    boxes::fill(samples, boxes, 0, 0, edges);
    Ok(FLOATS * (2 * edges - 1))
}

// The lowest-numbered edge that is kept in the window, as `cut_trace_with_touches` keeps it, for the boxes
// that `build_pages` left for these samples; with any other floats for boxes what the same search gives. How
// many boxes were opened stands beside it, and beside none. 10 and 8 as above, 3 between them for a window
// side beyond 2^500 or not finite, or lo > hi.
#[tactic(auto, using(crate::proofs::Exits::found, crate::proofs::Filling::rooms))]
pub fn first_kept(samples: &[f64], window: Rect, boxes: &[f64]) -> Result<Found, Refusal>
    ensures { result ≡ kept_answer samples.now window boxes.now }
{
    refuse::in_order(
        refuse::trace_fine(samples.len()),
        clip::refuse::window_fine(window),
        boxes_fit(samples.len(), boxes.len()),
    )?;
    let edges = refuse::edge_count(samples.len());
    if edges == 0 {
        return Ok(Found {
            edge: None,
            opened: 0,
        });
    }
    let window = Window { rect: window };
    if !search::is_open(boxes, 0, window) {
        return Ok(Found {
            edge: None,
            opened: 1,
        });
    }
    Ok(search::go_down(samples, window, boxes, 0, 0, edges))
}

// Whether there is room for the boxes of a trace of so many floats: 2m - 1 of m edges, the test turned so
// that nothing wraps.
fn boxes_fit(floats: usize, room: usize) -> bool
    ensures { result ≡ boxes_fit (edge_count floats) room }
{
    refuse::edge_count(floats) <= (room / FLOATS + 1) / 2
}
