// The walk along a line from face to face.
//
// `walk` is the entry: it refuses in document 01's order (4, 2, 5, then 6 or 7 as the walk finds them, then
// 8), and else gives the count of its segments, whose records it writes. `compute` has a step of the walk,
// for any normal and any point, and refuses nothing.
#![tactic(auto, using(float::proofs::Choice::branches, float::proofs::Choice::numbers, float::proofs::Choice::asks))]

pub mod compute;
pub mod refuse;

ghost use Rattle.std.specs.Prelude.{◌≡◌, Ok, length};
ghost use Rattle.answer.specs.Refusal.{◌then◌, done};
ghost use Rattle.buffer.specs.Bytes.{stored, placed};
ghost use Rattle.record.specs.Inner.{headed};
ghost use Rattle.walk.specs.Walk.{stop_refusal, segments, count_of, ends_of, records_of};
ghost use Rattle.walk.specs.Answers.{walk_or_refusal, buffer_after};
ghost use Rattle.walk.specs.Inner.{Numbers, Admitted};

use answer::{Refusal, need};
use cube::Vector;
use cube::compute::Uv;
use record::Record;

// The line with this normal, from the point a of a face to the point b of the target. `walk` has the five apart, as C has them.
#[derive(Clone, Copy, Debug, PartialEq)]
pub struct Route {
    pub face: u8,
    pub a: Uv,
    pub target: u8,
    pub b: Uv,
    pub normal: Vector,
}

// The segments of the line with this normal, from the point a of a face to the point b of the target:
// a record of 40 bytes for each, with the trace number that says whose it is, from the first byte of out
// on. The points are copied as they are. A target equal to the first face gives one record. The answer
// counts the records, 1 to 8; the bytes after the last stay. 4 for a face or a target above 5, 2 for a
// float that is not finite, 5 for a normal all zero, 6 where the line does not meet a face that is not the
// target, 7 where the target is not among the first 8 faces, 8 where out has no room: then no byte is
// changed.
pub fn walk(
    face: u8,
    a: Uv,
    target: u8,
    b: Uv,
    normal: Vector,
    whose: u32,
    out: &mut [u8],
) -> Result<usize, Refusal>
    ensures answer { result ≡ walk_or_refusal (length out.old) face a target b normal }
    ensures bytes { out.new ≡ buffer_after out.old face a target b normal whose }
{
    let route = Route {
        face,
        a,
        target,
        b,
        normal,
    };
    refuse::input(route)?;
    // The records stand here until the walk has arrived and is known to fit; a refused one leaves out as it was.
    let mut aside = [0u8; 320];
    let count = route.put_segments(&mut aside, whose)?;
    let bytes = count * record::LENGTH;
    need(bytes <= out.len(), Refusal::ShortBuffer)?;
    out[..bytes].copy_from_slice(&aside[..bytes]);
    Ok(count)
}

// ---- the walk

impl Route {
    // From the face toward the target, at most 8 faces: left on arrival, at a face that the line does not meet, or at
    // the limit, which document 01 asks for. The record of each segment as it is closed, one after the other from the
    // first byte on; all of them are there where it arrives.
    fn put_segments(self, out: &mut [u8], whose: u32) -> Result<usize, Refusal>
        requires { Admitted self.face self.a self.b self.normal (length out.old) }
        ensures answer { result ≡ (stop_refusal 8 self.normal self.face self.target then Ok (count_of 8 self.normal self.face self.target)) }
        ensures bytes { stop_refusal 8 self.normal self.face self.target ≡ done → out.new ≡ stored out.old 0 (records_of whose (segments 8 self.normal self.face self.a self.target self.b)) }
    {
        let Route {
            face,
            a,
            target,
            b,
            normal,
        } = self;
        let mut at = face;
        let mut head = record::head(at, whose);
        let mut begin = a;
        let mut closed: usize = 0;
        loop {
            if at == target {
                put_segment(out, closed * record::LENGTH, head, begin, b);
                return Ok(closed + 1);
            }
            let n = cube::compute::face_xyz_to_uvw(at, normal).unwrap();
            if !line::compute::intersects_face(n) {
                return Err(Refusal::OffFace);
            }
            if closed == 7 {
                return Err(Refusal::Unfinished);
            }
            let step = compute::step(at, n, target);
            put_segment(out, closed * record::LENGTH, head, begin, step.exit);
            begin = compute::moved(at, step.exit, step.next);
            // Of the head the face alone changes.
            head = head - u64::from(at) + u64::from(step.next);
            at = step.next;
            closed += 1;
        }
    }
}

// The record of a segment, whose points are no NaNs: their bits are taken as they are.
fn put_segment(out: &mut [u8], to: usize, head: u64, a: Uv, b: Uv)
    requires { Numbers a × Numbers b }
    ensures { out.new ≡ placed out.old to (headed head (ends_of a b)) }
{
    record::put_record(
        out,
        to,
        Record {
            head,
            au: a.u.to_bits(),
            av: a.v.to_bits(),
            bu: b.u.to_bits(),
            bv: b.v.to_bits(),
        },
    );
}
