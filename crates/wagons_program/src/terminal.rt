//! Standard input that may be a terminal.
ghost use Rattle.std.specs.Prelude.{◌≡◌};

use std::io;
use std::io::Read;

/// What is said once where a word waits for the lines of a terminal.
const WAITS: &str = "reading lines from the terminal; Ctrl-D on an empty line ends them";

/// An input, which is a terminal or isn't.
#[derive(Drop)]
pub struct Terminal<I> {
    pub input: I,
    pub is_terminal: bool,
}

/// An input that says so, before its first read, where it is a terminal.
#[derive(Drop)]
pub(crate) struct TerminalInput<'a, R, I> {
    rt: &'a R,
    input: I,
    /// Whether it is still to be said.
    says: bool,
}

impl<'a, R, I> TerminalInput<'a, R, I> {
    pub(crate) fn new(rt: &'a R, terminal: Terminal<I>) -> TerminalInput<'a, R, I>
        ensures { result.input ≡ terminal.input }
    {
        TerminalInput {
            rt,
            input: terminal.input,
            says: terminal.is_terminal,
        }
    }
}

impl<R: Eprint, I: Read> Read for TerminalInput<'_, R, I> {
    ghost remaining = { λ s. I.remaining s.input };

    fn read(&mut self, buf: &mut [u8]) -> io::Result<usize> {
        if self.says {
            self.says = false;
            // Where standard error fails, the lines are read all the same.
            let _ = eprintln!(self.rt; "{WAITS}");
        }
        self.input.read(buf)
    }
}
