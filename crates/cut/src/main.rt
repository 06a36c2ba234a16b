// Cuts the edges on standard input, 64-byte records, and writes a line for each.
#![tactic(auto)]

mod lines;

use std::process::ExitCode;
use stream::{Answers, Program, Watched};

#[derive(Clone, Copy)]
struct Cuts;

impl Answers for Cuts {
    fn put_text(&self, records: &[u8], out: &mut [u8]) -> usize {
        lines::put_text(records, out)
    }
}

// In blocks of up to 1,024 records.
fn main(rt: HostRuntime) -> ExitCode {
    let mut output = Watched::told(rt.stdout(), &rt);
    let mut said = Watched::told(rt.stderr(), &rt);
    let program = Program {
        name: b"cut",
        size: 64,
        answers: Cuts,
    };
    ExitCode::from(program.run(
        &mut rt.stdin(),
        &mut output,
        &mut said,
        &mut [0; 65536],
        &mut [0; 71682],
    ))
}
