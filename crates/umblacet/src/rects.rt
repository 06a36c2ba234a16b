// Rectangles.
ghost use Rattle.std.specs.Prelude.{◌≡◌};
ghost use Rattle.plane.specs.Rect.{empty_rect};
ghost use Rattle.plane.specs.Entries.{box_or_refusal, vertices_or_refusal, vertex_or_refusal, lo_or_refusal, hi_or_refusal, is_empty_rect_or_refusal, contains_point_or_refusal, contains_rect_or_refusal, intersects_rect_or_refusal, union_rect_or_refusal, intersection_rect_or_refusal};
ghost use Rattle.umblacet.specs.Answers.{corners, point_answer, rect_answer, yes_no};

use crate::answers::{Corners, PointAnswer, RectAnswer, YesNo};
use plane::{Point, Rect, rect};

#[unsafe(no_mangle)]
pub extern "C" fn umb_rect_empty() -> Rect
    ensures { result ≡ empty_rect }
{
    Rect::EMPTY
}

#[unsafe(no_mangle)]
pub extern "C" fn umb_rect_from_points(a: Point, b: Point) -> RectAnswer
    ensures { result ≡ rect_answer (box_or_refusal a b) }
{
    rect::from_points(a, b).into()
}

#[unsafe(no_mangle)]
pub extern "C" fn umb_rect_vertices(r: Rect) -> Corners
    ensures { result ≡ corners (vertices_or_refusal r) }
{
    rect::vertices(r).into()
}

#[unsafe(no_mangle)]
pub extern "C" fn umb_rect_vertex_ij(r: Rect, i: u64, j: u64) -> PointAnswer
    ensures { result ≡ point_answer (vertex_or_refusal r i j) }
{
    rect::vertex_ij(r, i, j).into()
}

#[unsafe(no_mangle)]
pub extern "C" fn umb_rect_lo(r: Rect) -> PointAnswer
    ensures { result ≡ point_answer (lo_or_refusal r) }
{
    rect::lo(r).into()
}

#[unsafe(no_mangle)]
pub extern "C" fn umb_rect_hi(r: Rect) -> PointAnswer
    ensures { result ≡ point_answer (hi_or_refusal r) }
{
    rect::hi(r).into()
}

#[unsafe(no_mangle)]
pub extern "C" fn umb_rect_is_empty(r: Rect) -> YesNo
    ensures { result ≡ yes_no (is_empty_rect_or_refusal r) }
{
    rect::is_empty(r).into()
}

#[unsafe(no_mangle)]
pub extern "C" fn umb_rect_contains_point(r: Rect, p: Point) -> YesNo
    ensures { result ≡ yes_no (contains_point_or_refusal r p) }
{
    rect::contains_point(r, p).into()
}

#[unsafe(no_mangle)]
pub extern "C" fn umb_rect_contains(r: Rect, q: Rect) -> YesNo
    ensures { result ≡ yes_no (contains_rect_or_refusal r q) }
{
    rect::contains(r, q).into()
}

#[unsafe(no_mangle)]
pub extern "C" fn umb_rect_intersects(r: Rect, q: Rect) -> YesNo
    ensures { result ≡ yes_no (intersects_rect_or_refusal r q) }
{
    rect::intersects(r, q).into()
}

#[unsafe(no_mangle)]
pub extern "C" fn umb_rect_union(r: Rect, q: Rect) -> RectAnswer
    ensures { result ≡ rect_answer (union_rect_or_refusal r q) }
{
    rect::union(r, q).into()
}

#[unsafe(no_mangle)]
pub extern "C" fn umb_rect_intersection(r: Rect, q: Rect) -> RectAnswer
    ensures { result ≡ rect_answer (intersection_rect_or_refusal r q) }
{
    rect::intersection(r, q).into()
}
