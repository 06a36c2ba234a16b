// Finds the longest clean stretch of a trace: a window and then samples on standard input, a line with the
// number, the stretch's first sample and its count of samples on standard output, and on standard error what
// else there is to say.
//
// One sample more is read than a trace may have. With it the trace is refused, whatever follows, so the rest
// of the input is not looked at.
#![tactic(auto)]

mod find;
mod line;

use answer::Refusal;
use plane::Rect;
use std::io::{Read, Write};
use std::process::ExitCode;
use stream::{Run, Watched};
use stretch::Stretch;

// Writes the line of an answer.
fn write_line<W: Write>(output: &mut W, answer: Result<Stretch, Refusal>) -> Run {
    let mut text = [0u8; 63];
    let n = line::put_line(&mut text, answer);
    let taken = stream::write_all(output, &text[..n]);
    let whole = stream::whole_lines(&text[..n], taken, 1);
    Run::new().with(whole, false, taken < n, false)
}

// A read failed: there is no line, since of a part of the trace it would mislead. The status to end with.
fn end_unread<E: Write>(said: &mut E) -> u8 {
    Run::new().with(0, true, false, false).end(said, b"stretch")
}

// Reads the samples and writes their line; the status to end with.
fn answer_all<R: Read, W: Write, E: Write>(
    input: &mut R,
    output: &mut Watched<W>,
    said: &mut E,
    window: Rect,
) -> u8 {
    let mut bytes = [0u8; 65552];
    let Ok(n) = stream::read_full(input, &mut bytes) else {
        return end_unread(said);
    };
    let run = write_line(output, find::answer_of(&bytes[..n], window));
    if output.gone {
        return stream::READER_GONE;
    }
    let is_said = stream::say_torn(said, b"stretch: the last sample is torn: ", n % 16);
    run.end_said(said, b"stretch", is_said)
}

// The line where there is no window; the status to end with.
fn answer_none<W: Write, E: Write>(output: &mut Watched<W>, said: &mut E) -> u8 {
    let run = write_line(output, Err(Refusal::Torn));
    if output.gone {
        return stream::READER_GONE;
    }
    let is_said = said
        .write_all(b"stretch: there is no window: the input has under 32 bytes\n")
        .is_ok();
    run.end_said(said, b"stretch", is_said)
}

// The line of the trace on standard input; the status to end with.
fn run<R: Read, W: Write, E: Write>(input: &mut R, output: &mut Watched<W>, said: &mut E) -> u8 {
    let mut head = [0u8; 32];
    match stream::read_full(input, &mut head) {
        Ok(32) => answer_all(input, output, said, reading::window_of(&head)),
        Ok(_) => answer_none(output, said),
        Err(_) => end_unread(said),
    }
}

fn main(rt: HostRuntime) -> ExitCode {
    let mut output = Watched::told(rt.stdout(), &rt);
    let mut said = Watched::told(rt.stderr(), &rt);
    let status = run(&mut rt.stdin(), &mut output, &mut said);
    ExitCode::from(said.status(status))
}
