// A writer whose reader goes away. SIGPIPE ends a filter then, but a program of the kit ignores that signal, and such a
// write fails like any other. So the writer notes it, and the program ends as if by the signal. Whoever starts it where
// the signal is to be ignored says so, in the variable SIGPIPE of the environment: then it is a failed write.
ghost use Rattle.std.specs.Prelude.{◌≡◌, if◌then◌else◌, false, ◌↔◌, ◌⊎◌, IsErrAnd, IsTrue};
ghost use Rattle.std.specs.Io.{WritesAtMost};
ghost use Rattle.std.specs.Io.KnownBytes.{WriteAppends};
ghost use Rattle.std.specs.IoError.{error_kind};

use std::io;
use std::io::{Error, ErrorKind, Write};
use std::rt::Env;

// The status of what SIGPIPE ended, as a shell has it.
pub const READER_GONE: u8 = 141;

#[derive(Drop)]
pub struct Watched<W> {
    to: W,
    // Whether it is to be noted.
    heeds: bool,
    pub gone: bool,
}

impl<W: Write> Watched<W> {
    pub fn new(to: W, heeds: bool) -> Self
        ensures to { result.to ≡ to }
        ensures heeds { result.heeds ≡ heeds }
        ensures gone { result.gone ≡ false }
    {
        Watched {
            to,
            heeds,
            gone: false,
        }
    }

    // It is noted unless the host's variable says that the signal is to be ignored.
    pub fn told(to: W, rt: &HostRuntime) -> Self
        ensures to { result.to ≡ to }
        ensures gone { result.gone ≡ false }
    {
        Watched::new(to, heeds_sigpipe(rt))
    }

    // The status to end with: this one, unless the reader is gone.
    pub fn status(&self, status: u8) -> u8
        ensures { result ≡ (if self.now.gone then 141 else status) }
    {
        if self.gone { READER_GONE } else { status }
    }
}

impl<W: Write> Write for Watched<W> {
    ghost contents = { λ w. W.contents w.to };

    fn write(&mut self, buf: &[u8]) -> io::Result<usize>
        ensures bound { WritesAtMost result buf.now }
        ensures bytes { WriteAppends (W.contents self.old.to) (W.contents self.new.to) result buf.now }
        ensures noted { IsTrue self.new.gone ↔ (IsTrue self.old.gone ⊎ (IsTrue self.old.heeds × IsErrAnd result (λ e. error_kind e ≡ ErrorKind.BrokenPipe))) }
        ensures heeds { self.new.heeds ≡ self.old.heeds }
    {
        match self.to.write(buf) {
            Ok(n) => Ok(n),
            Err(e) => {
                if self.heeds && is_broken(&e) {
                    self.gone = true;
                }
                Err(e)
            }
        }
    }

    fn flush(&mut self) -> io::Result<()> {
        self.to.flush()
    }
}

fn is_broken(e: &Error) -> bool
    ensures { IsTrue result ↔ (error_kind e.now ≡ ErrorKind.BrokenPipe) }
{
    e.kind() == ErrorKind::BrokenPipe
}

// Whether a reader that goes away ends the program. The host itself is asked, and no `Env` that may be any, so that a
// program's verdict rests on no more of the system than this call needs.
fn heeds_sigpipe(rt: &HostRuntime) -> bool {
    let mut said = [0u8; 8];
    match rt.var("SIGPIPE", &mut said) {
        Ok(n) => said[..n] != b"ignored"[..],
        Err(_) => true,
    }
}
