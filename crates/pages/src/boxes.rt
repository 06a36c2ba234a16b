// The boxes of a trace's edges, of halves of them, halves of halves, down to single edges.
ghost use Rattle.std.specs.Prelude.{◌+◌, ◌*◌, ◌≤◌, ◌<◌, ◌≡◌, length};
ghost use Rattle.std.proofs.lemmas.List.Edits.{sets};
ghost use Rattle.trace.specs.Trace.{samples_of};
ghost use Rattle.trace.specs.Promises.{sample_at};
ghost use Rattle.pages.specs.Halves.{halves_of};
ghost use Rattle.pages.specs.Boxes.{edge_extent, joined, extent_of, five_floats, boxes_of};
ghost use Rattle.pages.specs.Inner.{Room};

use clip::refuse::point_fine;
use plane::{Point, Rect};

// Five for each box: low x, low y, high x, high y, and the mark.
pub(crate) const FLOATS: usize = 5;

// Writes the boxes of so many edges from an edge on, from a place on; what the first of them holds: the box of the live
// edges among all, where there is one.
#[tactic(auto, using(crate::proofs::Filling::rooms))]
pub(crate) fn fill(
    samples: &[f64],
    boxes: &mut [f64],
    place: usize,
    edge: usize,
    edges: usize,
) -> Option<Rect>
    requires { Room (length samples.now) (length boxes.old) place edge edges }
    ensures extent { result ≡ extent_of (samples_of samples.now) (halves_of edges) edge }
    ensures floats { boxes.new ≡ sets boxes.old (5 * place) (boxes_of (samples_of samples.now) (halves_of edges) edge) }
{
    if edges == 1 {
        let one = edge_extent(samples, edge);
        put_extent(boxes, place, one);
        return one;
    }
    let second = edges / 2;
    let first = edges - second;
    let a = fill(samples, boxes, place + 1, edge, first);
    let b = fill(samples, boxes, place + 2 * first, edge + first, second);
    let all = join(a, b);
    put_extent(boxes, place, all);
    all
}

// Of the edges of both, one asked after the other: a `match` of the two as a pair took more instructions.
fn join(a: Option<Rect>, b: Option<Rect>) -> Option<Rect>
    ensures { result ≡ joined a b }
{
    let Some(r) = a else {
        return b;
    };
    let Some(q) = b else {
        return a;
    };
    Some(r.union(q))
}

// An edge's box where neither sample is refused.
#[tactic(auto, using(crate::proofs::Filling::edge_ways))]
fn edge_extent(samples: &[f64], edge: usize) -> Option<Rect>
    requires { (2 * edge + 4 ≤ length samples.now) × (edge ≤ 4096) }
    ensures { result ≡ edge_extent (sample_at edge (samples_of samples.now)) (sample_at (edge + 1) (samples_of samples.now)) }
{
    let a = sample_at(samples, edge);
    let b = sample_at(samples, edge + 1);
    if point_fine(a) && point_fine(b) {
        return Some(Rect::from_points(a, b));
    }
    None
}

// `trace` has the same, which is not public: it asks for a place in range, and a public function asks nothing.
pub(crate) fn sample_at(samples: &[f64], k: usize) -> Point
    requires { (2 * k + 1 < length samples.now) × (k ≤ 4097) }
    ensures { result ≡ sample_at k (samples_of samples.now) }
{
    Point {
        x: samples[2 * k],
        y: samples[2 * k + 1],
    }
}

// The five floats of the box at a place, one by one: by `copy_from_slice` of an array the compiler asks whether the two
// overlap.
fn put_extent(boxes: &mut [f64], place: usize, extent: Option<Rect>)
    requires { (5 * place + 5 ≤ length boxes.old) × (place ≤ 8192) }
    ensures { boxes.new ≡ sets boxes.old (5 * place) (five_floats extent) }
{
    let (r, mark) = match extent {
        Some(r) => (r, 1.0),
        None => (Rect::EMPTY, 0.0),
    };
    let at = FLOATS * place;
    boxes[at] = r.x.lo;
    boxes[at + 1] = r.y.lo;
    boxes[at + 2] = r.x.hi;
    boxes[at + 3] = r.y.hi;
    boxes[at + 4] = mark;
}
