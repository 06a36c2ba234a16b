// What C sees of an answer: its number, and its value beside 0; zeros beside any other number. One struct for each kind
// of value, since a function for C can have no generic one.
ghost use Rattle.std.specs.Prelude.{◌≡◌};
ghost use Rattle.umblacet.specs.Answers.{real, yes_no, point_answer, interval_answer, rect_answer, corners, axes_answer, face_answer, face_uv, uv_answer, vector_answer, walk_answer, trace_answer, stretch_answer, pages_answer, kept_answer};
ghost use Rattle.umblacet.specs.Axis.{numbered_axis};
ghost use Rattle.umblacet.specs.Cut.{cut_of};

use answer::{Refusal, number};
use clip::Segment;
use clip::compute::Both;
use cube::compute::Uv;
use cube::{FaceUv as FacePoint, Vector};
use line::Axis;
use pages::Found;
use plane::{Interval, Point, Rect};
use stretch::Stretch;
use trace::Counts;

// A float.
#[repr(C)]
#[derive(Clone, Copy)]
pub struct Real {
    pub number: u8,
    pub value: f64,
}

impl From<Result<f64, Refusal>> for Real {
    ghost from_gives = { λ a r. r ≡ real a };

    fn from(answer: Result<f64, Refusal>) -> Self {
        Real {
            number: number(answer),
            value: answer.unwrap_or(0.0),
        }
    }
}

// Yes or no.
#[repr(C)]
#[derive(Clone, Copy)]
pub struct YesNo {
    pub number: u8,
    pub yes: bool,
}

impl From<Result<bool, Refusal>> for YesNo {
    ghost from_gives = { λ a r. r ≡ yes_no a };

    fn from(answer: Result<bool, Refusal>) -> Self {
        YesNo {
            number: number(answer),
            yes: answer.unwrap_or(false),
        }
    }
}

// A point.
#[repr(C)]
#[derive(Clone, Copy)]
pub struct PointAnswer {
    pub number: u8,
    pub point: Point,
}

impl From<Result<Point, Refusal>> for PointAnswer {
    ghost from_gives = { λ a r. r ≡ point_answer a };

    fn from(answer: Result<Point, Refusal>) -> Self {
        PointAnswer {
            number: number(answer),
            point: answer.unwrap_or_default(),
        }
    }
}

// An interval.
#[repr(C)]
#[derive(Clone, Copy)]
pub struct IntervalAnswer {
    pub number: u8,
    pub interval: Interval,
}

impl From<Result<Interval, Refusal>> for IntervalAnswer {
    ghost from_gives = { λ a r. r ≡ interval_answer a };

    fn from(answer: Result<Interval, Refusal>) -> Self {
        IntervalAnswer {
            number: number(answer),
            interval: answer.unwrap_or_default(),
        }
    }
}

// A rectangle.
#[repr(C)]
#[derive(Clone, Copy)]
pub struct RectAnswer {
    pub number: u8,
    pub rect: Rect,
}

impl From<Result<Rect, Refusal>> for RectAnswer {
    ghost from_gives = { λ a r. r ≡ rect_answer a };

    fn from(answer: Result<Rect, Refusal>) -> Self {
        RectAnswer {
            number: number(answer),
            rect: answer.unwrap_or_default(),
        }
    }
}

// Four corners.
#[repr(C)]
#[derive(Clone, Copy)]
pub struct Corners {
    pub number: u8,
    pub vertices: [Point; 4],
}

impl From<Result<[Point; 4], Refusal>> for Corners {
    ghost from_gives = { λ a r. r ≡ corners a };

    fn from(answer: Result<[Point; 4], Refusal>) -> Self {
        Corners {
            number: number(answer),
            vertices: answer.unwrap_or_default(),
        }
    }
}

// The bounds of an axis and of the other.
#[repr(C)]
#[derive(Clone, Copy)]
pub struct AxesAnswer {
    pub number: u8,
    pub both: Both,
}

impl From<Result<Both, Refusal>> for AxesAnswer {
    ghost from_gives = { λ a r. r ≡ axes_answer a };

    fn from(answer: Result<Both, Refusal>) -> Self {
        AxesAnswer {
            number: number(answer),
            both: answer.unwrap_or_default(),
        }
    }
}

// The kept points of an edge.
#[repr(C)]
#[derive(Clone, Copy)]
pub struct Cut {
    pub number: u8,
    pub a: Point,
    pub b: Point,
}

impl From<Result<Segment, Refusal>> for Cut {
    ghost from_gives = { λ a r. r ≡ cut_of a };

    fn from(answer: Result<Segment, Refusal>) -> Self {
        let s = answer.unwrap_or_default();
        Cut {
            number: number(answer),
            a: Point { x: s.ax, y: s.ay },
            b: Point { x: s.bx, y: s.by },
        }
    }
}

// A face.
#[repr(C)]
#[derive(Clone, Copy)]
pub struct FaceAnswer {
    pub number: u8,
    pub face: u8,
}

impl From<Result<u8, Refusal>> for FaceAnswer {
    ghost from_gives = { λ a r. r ≡ face_answer a };

    fn from(answer: Result<u8, Refusal>) -> Self {
        FaceAnswer {
            number: number(answer),
            face: answer.unwrap_or(0),
        }
    }
}

// A face, and a point of it.
#[repr(C)]
#[derive(Clone, Copy)]
pub struct FaceUv {
    pub number: u8,
    pub face: u8,
    pub u: f64,
    pub v: f64,
}

impl From<Result<FacePoint, Refusal>> for FaceUv {
    ghost from_gives = { λ a r. r ≡ face_uv a };

    fn from(answer: Result<FacePoint, Refusal>) -> Self {
        let p = answer.unwrap_or(FacePoint {
            face: 0,
            at: Uv { u: 0.0, v: 0.0 },
        });
        FaceUv {
            number: number(answer),
            face: p.face,
            u: p.at.u,
            v: p.at.v,
        }
    }
}

// A point of a face.
#[repr(C)]
#[derive(Clone, Copy)]
pub struct UvAnswer {
    pub number: u8,
    pub u: f64,
    pub v: f64,
}

impl From<Result<Uv, Refusal>> for UvAnswer {
    ghost from_gives = { λ a r. r ≡ uv_answer a };

    fn from(answer: Result<Uv, Refusal>) -> Self {
        let p = answer.unwrap_or(Uv { u: 0.0, v: 0.0 });
        UvAnswer {
            number: number(answer),
            u: p.u,
            v: p.v,
        }
    }
}

// A vector.
#[repr(C)]
#[derive(Clone, Copy)]
pub struct VectorAnswer {
    pub number: u8,
    pub vector: Vector,
}

impl From<Result<Vector, Refusal>> for VectorAnswer {
    ghost from_gives = { λ a r. r ≡ vector_answer a };

    fn from(answer: Result<Vector, Refusal>) -> Self {
        VectorAnswer {
            number: number(answer),
            vector: answer.unwrap_or(Vector::new(0.0, 0.0, 0.0)),
        }
    }
}

// An axis as a number: 0 for U and 1 for V, and U beside a refusal.
#[repr(C)]
#[derive(Clone, Copy)]
pub struct NumberedAxis {
    pub number: u8,
    pub axis: u8,
}

impl From<Result<Axis, Refusal>> for NumberedAxis {
    ghost from_gives = { λ a r. r ≡ numbered_axis a };

    fn from(answer: Result<Axis, Refusal>) -> Self {
        NumberedAxis {
            number: number(answer),
            axis: answer.unwrap_or(Axis::U).into(),
        }
    }
}

// How many records a walk wrote.
#[repr(C)]
#[derive(Clone, Copy)]
pub struct WalkAnswer {
    pub number: u8,
    pub count: usize,
}

impl From<Result<usize, Refusal>> for WalkAnswer {
    ghost from_gives = { λ a r. r ≡ walk_answer a };

    fn from(answer: Result<usize, Refusal>) -> Self {
        WalkAnswer {
            number: number(answer),
            count: answer.unwrap_or(0),
        }
    }
}

// The edges of a trace.
#[repr(C)]
#[derive(Clone, Copy)]
pub struct TraceAnswer {
    pub number: u8,
    pub kept: usize,
    pub missed: usize,
    pub refused: usize,
    pub edges: usize,
}

impl From<Result<Counts, Refusal>> for TraceAnswer {
    ghost from_gives = { λ a r. r ≡ trace_answer a };

    fn from(answer: Result<Counts, Refusal>) -> Self {
        let counts = answer.unwrap_or_default();
        TraceAnswer {
            number: number(answer),
            kept: counts.kept,
            missed: counts.missed,
            refused: counts.refused,
            edges: counts.edges,
        }
    }
}

// So many samples of a trace from its sample `first` on.
#[repr(C)]
#[derive(Clone, Copy)]
pub struct StretchAnswer {
    pub number: u8,
    pub first: usize,
    pub count: usize,
}

impl From<Result<Stretch, Refusal>> for StretchAnswer {
    ghost from_gives = { λ a r. r ≡ stretch_answer a };

    fn from(answer: Result<Stretch, Refusal>) -> Self {
        let s = answer.unwrap_or(Stretch { first: 0, count: 0 });
        StretchAnswer {
            number: number(answer),
            first: s.first,
            count: s.count,
        }
    }
}

// So many floats of boxes.
#[repr(C)]
#[derive(Clone, Copy)]
pub struct PagesAnswer {
    pub number: u8,
    pub floats: usize,
}

impl From<Result<usize, Refusal>> for PagesAnswer {
    ghost from_gives = { λ a r. r ≡ pages_answer a };

    fn from(answer: Result<usize, Refusal>) -> Self {
        PagesAnswer {
            number: number(answer),
            floats: answer.unwrap_or(0),
        }
    }
}

// The edge, or the miss where none is kept; and how many boxes were opened, beside the miss too.
#[repr(C)]
#[derive(Clone, Copy)]
pub struct KeptAnswer {
    pub number: u8,
    pub edge: usize,
    pub opened: usize,
}

impl From<Result<Found, Refusal>> for KeptAnswer {
    ghost from_gives = { λ a r. r ≡ kept_answer a };

    fn from(answer: Result<Found, Refusal>) -> Self {
        let found = answer.unwrap_or(Found {
            edge: None,
            opened: 0,
        });
        let edge = match answer {
            Ok(found) => found.edge.ok_or(Refusal::Missed),
            Err(refusal) => Err(refusal),
        };
        KeptAnswer {
            number: number(edge),
            edge: edge.unwrap_or(0),
            opened: found.opened,
        }
    }
}
