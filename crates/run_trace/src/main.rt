// Cuts a trace of any length: a window and then samples on standard input, a record for each edge on
// standard output, and on standard error what there is to say. The words that it is started with are the
// trace number of the records, else 0, and `touches`, where edges that only touch the window are wanted.
//
// The input is worked through in pieces of up to 4,096 samples, each but the first beginning with the
// last sample of the piece before it. By the join law their records, one after the other, are those of
// the whole trace, and their counts add up to its counts: specs/Promises.antt, `whole`.
#![tactic(auto)]

mod piece;
mod words;

ghost use Rattle.std.specs.Prelude.{◌≡◌};
ghost use Rattle.run_trace.specs.Pieces.{with_answer};

use plane::Point;
use std::env::FillError;
use std::io::{Read, Write};
use std::process::ExitCode;
use std::rt::Env;
use stream::{Run, Watched};
use trace::{Chart, Counts};
use words::{Asked, Word};

// Of the edges whose records were written.
#[derive(Clone, Copy, Default)]
struct Totals {
    kept: u64,
    missed: u64,
    refused: u64,
}

// After some pieces: the sample to carry over, if there is one; the counts; how the run goes; and how many
// bytes the last piece has after its whole samples.
#[derive(Clone, Copy)]
struct Progress {
    last: Option<Point>,
    totals: Totals,
    run: Run,
    torn: usize,
}

impl Totals {
    // With the counts of one more piece.
    fn with(self, c: Counts) -> Self
        ensures { result ≡ with_answer self c }
    {
        Totals {
            kept: self.kept.wrapping_add(c.kept as u64),
            missed: self.missed.wrapping_add(c.missed as u64),
            refused: self.refused.wrapping_add(c.refused as u64),
        }
    }

    // Whether all of the line was written.
    fn say<E: Write>(self, said: &mut E, edges: u64) -> bool {
        let Totals {
            kept,
            missed,
            refused,
        } = self;
        writeln!(
            said,
            "trace: {kept} kept, {missed} missed, {refused} refused, {edges} edges"
        )
        .is_ok()
    }
}

// Reads up to 4,095 samples and writes the records of their edges.
fn next_piece<R: Read, W: Write>(
    input: &mut R,
    output: &mut W,
    chart: Chart,
    so_far: Progress,
) -> Progress {
    let mut bytes = [0u8; 65520];
    let got = stream::read_full(input, &mut bytes);
    let (Ok(n) | Err(n)) = got;
    let mut records = [0u8; 163800];
    let piece = piece::cut_piece(chart, so_far.last, &bytes[..n], &mut records);
    let all = piece.counts();
    let size = all.edges * 40;
    let taken = stream::write_all(output, &records[..size]);
    let counts = piece::written(chart, all, taken, so_far.last, &bytes[..n], &mut records);
    Progress {
        last: piece.last,
        totals: so_far.totals.with(counts),
        run: so_far
            .run
            .with(counts.edges, got.is_err(), taken < size, got == Ok(65520)),
        torn: n % 16,
    }
}

// The pieces one after the other, to the end of the input or to a failure.
fn cut_all<R: Read, W: Write>(input: &mut R, output: &mut W, chart: Chart) -> Progress {
    let mut so_far = Progress {
        last: None,
        totals: Totals::default(),
        run: Run::new(),
        torn: 0,
    };
    // A count, since every loop is proved to end.
    for _ in 0..u64::MAX {
        if !so_far.run.more {
            break;
        }
        so_far = next_piece(input, output, chart, so_far);
    }
    so_far
}

// Says the counts, and a torn end where nothing failed before it.
fn say_all<E: Write>(said: &mut E, at_end: Progress) -> bool {
    let run = at_end.run;
    let torn = if run.unread || run.unwritten {
        0
    } else {
        at_end.torn
    };
    stream::say_torn(said, b"trace: the last sample is torn: ", torn)
        & at_end.totals.say(said, run.records)
}

// The records of the trace of this number, of what is on standard input; the status to end with. The three streams are lent
// apart, here and below: some of what is called only reads, some only writes, some only says.
fn run<R: Read, W: Write, E: Write>(
    input: &mut R,
    output: &mut Watched<W>,
    said: &mut E,
    asked: Asked,
) -> u8 {
    let mut head = [0u8; 32];
    let got = stream::read_full(input, &mut head);
    let begun = Run::new().with(0, got.is_err(), false, false);
    if got.is_err() {
        return begun.end(said, b"trace");
    }
    if got != Ok(32) {
        let is_said = said
            .write_all(b"trace: there is no window: the input has under 32 bytes\n")
            .is_ok();
        return begun.end_said(said, b"trace", is_said);
    }
    let window = reading::window_of(&head);
    if !clip::refuse::window_fine(window) {
        let is_said = said
            .write_all(b"trace: bad window: a side is not finite or beyond 2^500, or lo > hi\n")
            .is_ok();
        return begun.end_said(said, b"trace", is_said);
    }
    let chart = Chart {
        touches: asked.touches,
        window,
        whose: asked.whose,
    };
    let at_end = cut_all(input, output, chart);
    if output.gone {
        return stream::READER_GONE;
    }
    let is_said = say_all(said, at_end);
    at_end.run.end_said(said, b"trace", is_said)
}

// The word at a place, if there is one. One that does not fit here is none that there may be.
fn word_at(rt: &HostRuntime, place: usize) -> Option<Word> {
    let mut word = [0u8; 16];
    match rt.arg(place, &mut word) {
        Ok(n) => Some(words::word_of(&word[..n])),
        Err(FillError::TooLong) => Some(Word::Other),
        Err(FillError::NotPresent) => None,
    }
}

// What the words ask for; trace 0, without touches, where there is none.
fn asked(rt: &HostRuntime) -> Option<Asked> {
    let Some(one) = word_at(rt, 1) else {
        return Some(Asked {
            whose: 0,
            touches: false,
        });
    };
    let Some(other) = word_at(rt, 2) else {
        return words::of_one(one);
    };
    match word_at(rt, 3) {
        Some(_) => None,
        None => words::of_two(one, other),
    }
}

// Says what the words may be; the status to end with.
fn refuse<E: Write>(said: &mut E) -> u8 {
    let is_said = said
        .write_all(
            b"trace: the words may be a trace number, up to 4294967295 in ten digits at the most, and touches, in either order\n",
        )
        .is_ok();
    stream::end_refused(is_said)
}

// What the words ask for, done; the status to end with.
fn answer<R: Read, W: Write, E: Write>(
    input: &mut R,
    output: &mut Watched<W>,
    said: &mut Watched<E>,
    asked: Option<Asked>,
) -> u8 {
    let status = match asked {
        Some(asked) => run(input, output, said, asked),
        None => refuse(said),
    };
    said.status(status)
}

fn main(rt: HostRuntime) -> ExitCode {
    let mut output = Watched::told(rt.stdout(), &rt);
    let mut said = Watched::told(rt.stderr(), &rt);
    ExitCode::from(answer(&mut rt.stdin(), &mut output, &mut said, asked(&rt)))
}
