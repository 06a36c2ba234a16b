// Cuts: 30 to 35.
ghost use Rattle.std.specs.Prelude.{◌≡◌};
ghost use Rattle.answers.specs.Reply.{reply_line};
ghost use Rattle.answers.specs.Table.{cut_op};

use crate::reply::{only, reply};
use crate::request::{float_at, interval_at, point_at, rect_at, yes_at};
use crate::written::Line;

#[tactic(auto, unfolding(crate::specs::Table::cut_op), using(crate::proofs::Listed::listed))]
pub fn cut_op(op: u64, s: &[u8], line: &mut Line)
    ensures { line.new ≡ reply_line (cut_op op s.now) }
{
    match op {
        30 => reply(
            clip::interpolate(
                float_at(s, 1),
                float_at(s, 2),
                float_at(s, 3),
                float_at(s, 4),
                float_at(s, 5),
            ),
            line,
        ),
        31 => reply(
            clip::update_endpoint(interval_at(s, 1), yes_at(s, 3), float_at(s, 4)),
            line,
        ),
        32 => reply(
            clip::clip_bound_axis(
                float_at(s, 1),
                float_at(s, 2),
                interval_at(s, 3),
                float_at(s, 5),
                float_at(s, 6),
                interval_at(s, 7),
                yes_at(s, 9),
                interval_at(s, 10),
            ),
            line,
        ),
        33 => reply(
            clip::clip_edge_bound(point_at(s, 1), point_at(s, 3), rect_at(s, 5), rect_at(s, 9)),
            line,
        ),
        34 => reply(
            clip::clip_edge(point_at(s, 1), point_at(s, 3), rect_at(s, 5)),
            line,
        ),
        35 => reply(
            clip::edge_intersects_rect(point_at(s, 1), point_at(s, 3), rect_at(s, 5)),
            line,
        ),
        _ => only(255, line),
    }
}
