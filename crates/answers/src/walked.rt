// Operation 60: the line of a walk on a lent buffer.
ghost use Rattle.std.specs.Prelude.{◌≡◌, ◌≤◌, length};
ghost use Rattle.answers.specs.Walked.{walk_line_on, walk_line};

use crate::lent::shown;
use crate::request::{number_at, uv_at, vector_at, whose_at, word_up_to};
use crate::written::Line;

// The line of a walk on a buffer of the length asked, every byte a5.
#[tactic(auto, unfolding(crate::specs::Walked::walk_line))]
pub(crate) fn walk_line(s: &[u8], line: &mut Line)
    ensures { line.new ≡ walk_line s.now }
{
    let mut lent = [0xa5u8; 400];
    let n = word_up_to(s, 10, 400);
    walk_line_on(s, &mut lent[..n], line);
}

#[tactic(auto, unfolding(crate::specs::Walked::walk_line_on))]
fn walk_line_on(s: &[u8], lent: &mut [u8], line: &mut Line)
    requires { length lent.old ≤ 400 }
    ensures { line.new ≡ walk_line_on lent.old s.now }
{
    let face = number_at(s, 1);
    let a = uv_at(s, 2);
    let target = number_at(s, 4);
    let b = uv_at(s, 5);
    let normal = vector_at(s, 7);
    let count = walk::walk(face, a, target, b, normal, whose_at(s, 11), lent);
    shown(count, 0, lent, line);
}
