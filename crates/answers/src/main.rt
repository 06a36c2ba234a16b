// Answers the requests on standard input, 192 bytes each, and writes a line for each.
#![tactic(auto)]

mod axes;
mod cuts;
mod faces;
mod intervals;
mod lent;
mod lines;
mod paged;
mod pairs;
mod points;
mod rects;
mod reply;
mod request;
mod stretched;
mod table;
mod text;
mod traced;
mod walked;
mod written;

use std::process::ExitCode;
use stream::{Answers, Program, Watched};

#[derive(Clone, Copy)]
struct Replies;

impl Answers for Replies {
    fn put_text(&self, records: &[u8], out: &mut [u8]) -> usize {
        text::put_text(records, out)
    }
}

// In blocks of up to 341 requests.
fn main(rt: HostRuntime) -> ExitCode {
    let mut output = Watched::told(rt.stdout(), &rt);
    let mut said = Watched::told(rt.stderr(), &rt);
    let program = Program {
        name: b"answers",
        size: 192,
        answers: Replies,
    };
    ExitCode::from(program.run(
        &mut rt.stdin(),
        &mut output,
        &mut said,
        &mut [0; 65472],
        &mut [0; 454896],
    ))
}
