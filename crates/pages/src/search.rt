// The search down the halves.
ghost use Rattle.std.specs.Prelude.{◌+◌, ◌*◌, ◌≤◌, ◌≡◌, true, length};
ghost use Rattle.plane.specs.Interval.{intersects};
ghost use Rattle.plane.specs.Within.{Some};
ghost use Rattle.trace.specs.Trace.{samples_of, edge_cut};
ghost use Rattle.trace.specs.Records.{is_kept};
ghost use Rattle.pages.specs.Halves.{halves_of};
ghost use Rattle.pages.specs.Inner.{Room};
ghost use Rattle.pages.specs.Search.{opens, kept_at, search};

use crate::Found;
use crate::boxes::{FLOATS, sample_at};
use clip::compute::{BOTH_AXES, cut_sides, slope_is_negative};
use clip::refuse::point_fine;
use clip::window::Window;
use plane::{Interval, Point, Rect};

// Among so many edges from an edge on, whose boxes lie from a place on, the first of them open: the first half's edge if
// it has one, else the second's. A box that does not open ends its branch; it counts as well. A struct of the three would
// go by memory at each call, here and in `fill`.
#[tactic(auto, using(crate::proofs::Filling::rooms))]
pub(crate) fn go_down(
    samples: &[f64],
    window: Window,
    boxes: &[f64],
    place: usize,
    edge: usize,
    edges: usize,
) -> Found
    requires { Room (length samples.now) (length boxes.now) place edge edges × (opens boxes.now window.rect place ≡ true) }
    ensures is { result ≡ search boxes.now window.rect (samples_of samples.now) (halves_of edges) place edge }
    ensures few { result.opened + 1 ≤ 2 * edges }
{
    if edges == 1 {
        if is_kept(samples, edge, window) {
            return Found {
                edge: Some(edge),
                opened: 1,
            };
        }
        return Found {
            edge: None,
            opened: 1,
        };
    }
    let second = edges / 2;
    let first = edges - second;
    // Where the boxes of each half begin, and the edges of the second.
    let near = place + 1;
    let far = place + 2 * first;
    let middle = edge + first;
    // This box and the first half's.
    let mut opened = 2;
    if is_open(boxes, near, window) {
        let a = go_down(samples, window, boxes, near, edge, first);
        opened = a.opened + 1;
        if a.edge.is_some() {
            return Found {
                edge: a.edge,
                opened,
            };
        }
    }
    if is_open(boxes, far, window) {
        let b = go_down(samples, window, boxes, far, middle, second);
        return Found {
            edge: b.edge,
            opened: opened + b.opened,
        };
    }
    Found {
        edge: None,
        opened: opened + 1,
    }
}

// Whether the box at a place has its mark and shares a point with the window: with a NaN in it, it does not.
#[tactic(auto, using(crate::proofs::Opening::some_sides))]
pub(crate) fn is_open(boxes: &[f64], place: usize, window: Window) -> bool
    requires { (5 * place + 5 ≤ length boxes.now) × (place ≤ 8192) }
    ensures { result ≡ opens boxes.now window.rect place }
{
    let at = FLOATS * place;
    let &[x_lo, y_lo, x_hi, y_hi, mark] = &boxes[at..at + FLOATS] else {
        unreachable!()
    };
    let x = Interval { lo: x_lo, hi: x_hi };
    let y = Interval { lo: y_lo, hi: y_hi };
    mark == 1.0 && shares(x, window.rect.x) && shares(y, window.rect.y)
}

// Whether i shares a point with one that is not empty.
#[tactic(auto, using(crate::proofs::Opening::sides))]
fn shares(i: Interval, some: Interval) -> bool
    requires { Some some }
    ensures { result ≡ intersects i some }
{
    i.lo <= some.hi && some.lo <= i.hi && i.lo <= i.hi
}

// Whether an edge is kept in the window, touches too.
fn is_kept(samples: &[f64], edge: usize, window: Window) -> bool
    requires { (2 * edge + 4 ≤ length samples.now) × (edge ≤ 4096) }
    ensures { result ≡ kept_at window.rect (samples_of samples.now) edge }
{
    is_cut_kept(
        sample_at(samples, edge),
        sample_at(samples, edge + 1),
        window,
    )
}

// The same of the edge from a to b, by the cut of `clip_edge`. That is not called itself: with a second caller the compiler
// no longer takes it into its first, which costs every edge a fifth more. Its early answers are left out, since below an
// open box they seldom hold.
#[tactic(auto, using(crate::proofs::Going::dead_ways))]
fn is_cut_kept(a: Point, b: Point, window: Window) -> bool
    ensures { result ≡ is_kept (edge_cut true window.rect a b) }
{
    if !(point_fine(a) && point_fine(b)) {
        return false;
    }
    let slope = slope_is_negative(a, b);
    let first = Rect::from_points(a, b);
    cut_sides(BOTH_AXES, true, a, b, slope, window.rect, first).is_some()
}
