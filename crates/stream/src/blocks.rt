// A program that answers records: its input in blocks, each answered by a text.
ghost use Rattle.std.specs.Prelude.{◌≡◌, ◌≤◌, ◌<◌, ◌||◌, true, false, length};

use crate::{READER_GONE, Run, Watched, answered, read_full, whole_lines, write_all};
use std::io::{Read, Write};

// What answers records.
pub trait Answers {
    // Puts the text of the records into out; how long it is. 0 where out has no room.
    fn put_text(&self, records: &[u8], out: &mut [u8]) -> usize
        ensures { result ≤ length out.new };
}

// Its name, how many bytes a record has, and what answers.
#[derive(Drop)]
pub struct Program<'a, A> {
    pub name: &'a [u8],
    pub size: usize,
    pub answers: A,
    pub ghost some: { 0 < size },
}

impl<'a, A: Answers> Program<'a, A> {
    // Reads up to as many bytes as records has, and writes the text of the records in them, for which text has room.
    fn answer_block<R: Read, W: Write>(
        &self,
        input: &mut R,
        output: &mut W,
        records: &mut [u8],
        text: &mut [u8],
        run: Run,
    ) -> Run {
        let got = read_full(input, records);
        let n = answered(got, self.size);
        let k = self.answers.put_text(&records[..n], text);
        let taken = write_all(output, &text[..k]);
        let whole = whole_lines(&text[..k], taken, n / self.size);
        run.with(whole, got.is_err(), taken < k, got == Ok(records.len()))
    }

    // The blocks one after the other, to the end of the input or to a failure; the status to end with.
    pub fn run<R: Read, W: Write, E: Write>(
        &self,
        input: &mut R,
        output: &mut Watched<W>,
        said: &mut Watched<E>,
        records: &mut [u8],
        text: &mut [u8],
    ) -> u8
        ensures gone { (output.new.gone || said.new.gone) ≡ true → result ≡ 141 }
        ensures there { (output.new.gone || said.new.gone) ≡ false → result ≤ 3 }
    {
        let mut run = Run::new();
        // A count, since every loop is proved to end.
        for _ in 0..u64::MAX {
            if !run.more {
                break;
            }
            run = self.answer_block(input, output, records, text, run);
        }
        if output.gone {
            return READER_GONE;
        }
        let status = run.end(said, self.name);
        said.status(status)
    }
}
