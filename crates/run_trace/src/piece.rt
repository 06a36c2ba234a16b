// One piece of a trace, without the reading and the writing: its records, its answer, and the sample that
// the next piece begins with.
ghost use Rattle.std.specs.Prelude.{◌≡◌, ◌*◌, ◌^◌, ◌<◌, ◌≤◌, length, take};
ghost use Rattle.std.specs.Result.{result_unwrap_or};
ghost use Rattle.trace.specs.Answers.{answer_of, buffer_after, no_edges};
ghost use Rattle.run_trace.specs.Samples.{last_sample};
ghost use Rattle.run_trace.specs.Pieces.{carried, piece_floats, last_after, bytes_for, written_of};

use answer::Refusal;
use plane::Point;
use trace::{Chart, Counts};

#[derive(Clone, Copy)]
pub struct Piece {
    pub answer: Result<Counts, Refusal>,
    pub last: Option<Point>,
}

impl Piece {
    // The counts of its edges, zeros beside a refusal.
    pub(crate) fn counts(self) -> Counts
        ensures { result ≡ result_unwrap_or self.answer no_edges }
    {
        self.answer.unwrap_or_default()
    }
}

// The samples in bytes, up to 4,095; the first edge is from the sample before them, where one is carried
// over.
pub(crate) fn cut_piece(
    chart: Chart,
    before: Option<Point>,
    bytes: &[u8],
    records: &mut [u8],
) -> Piece
    requires { length bytes.now ≤ 65520 }
    ensures answer { result.answer ≡ answer_of chart.touches (piece_floats before bytes.now) chart.window (length records.old) }
    ensures bytes { records.new ≡ buffer_after chart.touches records.old (piece_floats before bytes.now) chart.window chart.whose }
    ensures last { result.last ≡ last_after before bytes.now }
    ensures room { (result_unwrap_or result.answer no_edges).edges * 40 ≤ length records.old }
{
    let mut floats = [0.0f64; 8192];
    let from = put_carried(before, &mut floats);
    let n = reading::put_samples(bytes, &mut floats, from);
    Piece {
        answer: chart.cut(&floats[..n], records),
        last: last_sample(&floats[..n]),
    }
}

// The counts of the edges of a piece whose records were written whole, where so many bytes of the records
// were: those of the samples which these edges join.
#[tactic(auto, using(float::proofs::Choice::branches, float::proofs::Choice::asks))]
pub(crate) fn written(
    chart: Chart,
    all: Counts,
    taken: usize,
    before: Option<Point>,
    bytes: &[u8],
    records: &mut [u8],
) -> Counts
    requires { length bytes.now ≤ 65520 }
    ensures { result ≡ written_of chart.touches all taken before bytes.now chart.window (length records.old) }
{
    let edges = taken / 40;
    if all.edges <= edges {
        return all;
    }
    let n = bytes_for(before, edges).min(bytes.len());
    cut_piece(chart, before, &bytes[..n], records).counts()
}

// A sample for each edge, and one more where none is carried over.
#[tactic(auto, unfolding(crate::specs::Pieces::bytes_for))]
fn bytes_for(before: Option<Point>, edges: usize) -> usize
    requires { edges * 40 < 2 ^ 64 }
    ensures { result ≡ bytes_for before edges }
{
    match before {
        Some(_) => 16 * edges,
        None => 16 * edges + 16,
    }
}

// Puts the sample that is carried over to the front of the floats; how many places it takes.
#[tactic(auto, using(crate::proofs::Cutting::take_two))]
fn put_carried(before: Option<Point>, floats: &mut [f64]) -> usize
    requires { 2 ≤ length floats.old }
    ensures floats { take result floats.new ≡ carried before }
    ensures few { result ≤ 2 }
    ensures long { length floats.new ≡ length floats.old }
{
    let Some(sample) = before else {
        return 0;
    };
    floats[0] = sample.x;
    floats[1] = sample.y;
    2
}

// The last sample, if there is one.
#[tactic(auto, using(crate::proofs::Cutting::last_none, crate::proofs::Cutting::last_is))]
fn last_sample(floats: &[f64]) -> Option<Point>
    ensures { result ≡ last_sample floats.now }
{
    match floats {
        [.., x, y] => Some(Point { x: *x, y: *y }),
        _ => None,
    }
}
