// Why there is no value, and the numbers that say so.
#![tactic(auto)]

ghost use Rattle.std.specs.Prelude.{◌≡◌, ◌<◌, ◌≤◌};
ghost use Rattle.answer.specs.Refusal.{number_of, number, unless◌refuse◌else◌, done};

// Why there is no value.
#[derive(Clone, Copy, Debug, PartialEq, Eq, Hash)]
pub enum Refusal {
    // A miss of the window; a vector not on the side of the asked face.
    Missed,
    // A float other than the window's is not admitted: it is not finite, or where an edge is cut it is beyond 2^500.
    NotFinite,
    // A window side is not admitted: it is beyond 2^500 or not finite; or lo > hi on either axis.
    BadWindow,
    // A face above 5, an axis above 2, a direction above 1.
    BadFace,
    // A vector or normal all zero, a zero divisor.
    Zero,
    // The line does not meet a face that is not the target.
    OffFace,
    // The target is not among the first 8 faces.
    Unfinished,
    // The buffer holds fewer whole records than the walk or the trace has.
    ShortBuffer,
    // The program's input ends in part of a record.
    Torn,
    // A trace of an odd count of floats, or of more than 4,096 samples.
    BadTrace,
}

impl Refusal {
    // Document 01's number.
    pub fn number(self) -> u8
        ensures is { result ≡ number_of self }
        ensures least { 0 < result }
        ensures most { result ≤ 10 }
    {
        match self {
            Refusal::Missed => 1,
            Refusal::NotFinite => 2,
            Refusal::BadWindow => 3,
            Refusal::BadFace => 4,
            Refusal::Zero => 5,
            Refusal::OffFace => 6,
            Refusal::Unfinished => 7,
            Refusal::ShortBuffer => 8,
            Refusal::Torn => 9,
            Refusal::BadTrace => 10,
        }
    }
}

// The number of an answer: 0 beside a value.
pub fn number<T: Copy>(answer: Result<T, Refusal>) -> u8
    ensures is { result ≡ number answer }
    ensures most { result ≤ 10 }
{
    match answer {
        Ok(_) => 0,
        Err(refusal) => refusal.number(),
    }
}

// The refusal, unless it holds.
pub fn need(holds: bool, refusal: Refusal) -> Result<(), Refusal>
    ensures { result ≡ (unless holds refuse refusal else done) }
{
    if holds { Ok(()) } else { Err(refusal) }
}
