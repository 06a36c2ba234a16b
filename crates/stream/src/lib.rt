// How the programs read, write and end. Over any reader and writer of std: a failure is told from the
// end of the input, and what was taken from what was not.
//
// No contract can say which bytes the system gave or took; of a reader or a writer whose bytes are known it says
// which were read or written, and of any other what follows from the counts.
#![tactic(auto)]

mod blocks;
mod watched;

ghost use Rattle.std.specs.Prelude.{true, ◌≡◌, ◌<◌, ◌≤◌, ◌||◌, not, IfOk, length, take};
ghost use Rattle.std.specs.Io.KnownBytes.{Appends, Consumes, IsAtEnd};
ghost use Rattle.stream.specs.Counts.{IsPrefixLen, moved};
ghost use Rattle.stream.specs.Run.{answered_of, whole_lines, begun, goes_on, with_block, status_if, status_of, refused_status};

pub use blocks::{Answers, Program};
use std::io::{Read, Write};
pub use watched::{READER_GONE, Watched};

// ---- reading and writing: loops, since std's `read_exact` and `write_all` do not say how many bytes a failure left moved

// Reads until buf is full, the input ends or a read fails: then that is an error. How many bytes were read stands in either;
// where none failed and there was room for more, the input has ended.
pub fn read_full<R: Read>(input: &mut R, buf: &mut [u8]) -> Result<usize, usize>
    ensures count { IsPrefixLen (moved result) buf.new }
    ensures bytes { Consumes (R.remaining input.old) (R.remaining input.new) (take (moved result) buf.new) }
    ensures end { IfOk result (λ n. n < length buf.new → IsAtEnd (R.remaining input.new)) }
{
    let mut done: usize = 0;
    while done < buf.len() {
        match input.read(&mut buf[done..]) {
            Ok(0) => return Ok(done),
            Ok(more) => done += more,
            Err(_) => return Err(done),
        }
    }
    Ok(done)
}

// Writes buf to its end, or until a write fails or takes nothing; how many bytes were taken.
pub fn write_all<W: Write>(output: &mut W, buf: &[u8]) -> usize
    ensures count { IsPrefixLen result buf.now }
    ensures bytes { Appends (W.contents output.old) (W.contents output.new) (take result buf.now) }
{
    let mut done: usize = 0;
    while done < buf.len() {
        match output.write(&buf[done..]) {
            Ok(0) => return done,
            Ok(took) => done += took,
            Err(_) => return done,
        }
    }
    done
}

// How many of the bytes that were read are answered: all of them, or where a read failed those of the whole records. What
// a failure cut off is no torn end.
#[tactic(auto, unfolding(crate::specs::Run::answered_of))]
pub fn answered(got: Result<usize, usize>, size: usize) -> usize
    ensures { (result ≡ answered_of size got) × (result ≤ moved got) }
{
    match got {
        Ok(n) => n,
        Err(_) if size == 0 => 0,
        Err(n) => n - n % size,
    }
}

// How many records of a text were written whole, where so many bytes of it were taken: all of them, or as
// many as there are line ends in those bytes.
#[tactic(auto, using(float::proofs::Choice::branches, crate::proofs::Counting::ends_counted), unfolding(crate::specs::Run::whole_lines))]
pub fn whole_lines(text: &[u8], taken: usize, records: usize) -> usize
    ensures { result ≡ whole_lines text.now taken records }
{
    if text.len() <= taken {
        records
    } else {
        text[..taken].iter().filter(|b| **b == b'\n').count()
    }
}

// ---- how a run goes and ends

// The records that were written whole, what failed, and whether there may be more to read. A read and a write may fail at
// one block, and each is said: so they are two flags, and no enum.
#[derive(Clone, Copy)]
pub struct Run {
    pub records: u64,
    pub unread: bool,
    pub unwritten: bool,
    pub more: bool,
}

impl Run {
    pub fn new() -> Self
        ensures { result ≡ begun }
    {
        Run {
            records: 0,
            unread: false,
            unwritten: false,
            more: true,
        }
    }

    // With one block more: its records that were written whole, what failed at it, and whether it was as
    // long as a block can be.
    #[tactic(auto, unfolding(crate::specs::Run::with_block))]
    pub fn with(self, records: usize, unread: bool, unwritten: bool, full: bool) -> Self
        ensures { result ≡ with_block self records unread unwritten full }
    {
        Run {
            records: self.records.wrapping_add(records as u64),
            unread,
            unwritten,
            more: goes_on(unread, unwritten, full),
        }
    }

    // Says what failed, a line each, where the program says such things, and gives the status to end with.
    pub fn end<W: Write>(self, said: &mut W, program: &[u8]) -> u8
        ensures is { result ≡ status_of self }
        ensures most { result ≤ 3 }
    {
        if self.unread {
            say_failed(said, program, b": reading failed after ", self.records);
        }
        if self.unwritten {
            say_failed(said, program, b": writing failed after ", self.records);
        }
        status_of(self.unread, self.unwritten)
    }

    // The same of a program that had something to say: where not all of it was said, that is a failure too.
    pub fn end_said<W: Write>(self, said: &mut W, program: &[u8], is_said: bool) -> u8
        ensures { result ≡ status_if self.unread (self.unwritten || not is_said) }
    {
        let run = Run {
            unwritten: self.unwritten || !is_said,
            ..self
        };
        run.end(said, program)
    }
}

// Says of a torn last sample how many bytes it has, where it has any, after the words that say so of the program; whether all of
// that was said. Those words are one text, so that they are written at once.
pub fn say_torn<W: Write>(said: &mut W, words: &[u8], bytes: usize) -> bool
    ensures { bytes ≡ 0 → result ≡ true }
{
    bytes == 0 || said.write_all(words).is_ok() && writeln!(said, "{bytes} of 16 bytes").is_ok()
}

// The status of a program that is asked for what it does not do, and has said so: 2, or 3 where that could not be said.
#[tactic(auto, using(float::proofs::Choice::branches), unfolding(crate::specs::Run::refused_status))]
pub fn end_refused(said: bool) -> u8
    ensures { result ≡ refused_status said }
{
    if said { 2 } else { 3 }
}

#[tactic(auto, using(float::proofs::Choice::branches), unfolding(crate::specs::Run::goes_on))]
fn goes_on(unread: bool, unwritten: bool, full: bool) -> bool
    ensures { result ≡ goes_on unread unwritten full }
{
    !unread && !unwritten && full
}

#[tactic(auto, using(float::proofs::Choice::branches), unfolding(crate::specs::Run::status_if))]
fn status_of(unread: bool, unwritten: bool) -> u8
    ensures { (result ≡ status_if unread unwritten) × (result ≤ 3) }
{
    if unread || unwritten { 3 } else { 0 }
}

// Where it cannot be said, there is no one to say that to.
fn say_failed<W: Write>(said: &mut W, program: &[u8], what: &[u8], records: u64) {
    let _ = said.write_all(program);
    let _ = said.write_all(what);
    let _ = writeln!(said, "{records} whole records");
}
