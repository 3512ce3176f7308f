//! The input, line by line through a buffer of bounded size.
ghost use Rattle.std.specs.Prelude.{◌≡◌, ◌≢◌, [], IfOk, IfSome, MatchOption};
ghost use Rattle.std.specs.Io.BufRead.{strip_last};
ghost use Rattle.shore_script.specs.Input.{bytes_left, first_line};

use std::alloc::Global;
use std::io::{self, BufRead, BufReader, Read, Take};

/// The most bytes of a script line, without its end.
pub const MAX_LINE_BYTES: usize = 65_536;

/// The line between the settings and the script.
const BORDER: &[u8] = b"---";

/// An input, and the line that was read last.
#[derive(Drop)]
pub struct Lines<R> {
    // The input, from the byte after that line on. Its limit is set before each line.
    input: Take<BufReader<R>>,
    // The line that was read last, with its end, up to the most bytes of a line and one.
    line: Vec<u8>,
    // How many lines the settings have, with the one behind them.
    before: u64,
}

impl<R: Read + Drop> Lines<R> {
    pub fn new(alloc: Global, input: R) -> io::Result<Lines<R>> {
        let line = Vec::with_capacity(alloc, MAX_LINE_BYTES + 1)?;
        let input = BufReader::new(alloc, input)?.take(0);
        Ok(Lines {
            input,
            line,
            before: 0,
        })
    }

    /// All lines before the first line `---`, which is read too. `None`: the input has no such line.
    pub fn settings(&mut self, alloc: Global) -> io::Result<Option<Vec<u8>>> {
        let mut text = Vec::new(alloc);
        for _ in 0..u64::MAX {
            let before = text.len();
            self.before = self.before.saturating_add(1);
            self.input.set_limit(u64::MAX);
            if self.input.read_until(b'\n', &mut text)? == 0 {
                return Ok(None);
            }
            if let Some(line) = text.get(before..)
                && without_end(line) == BORDER
            {
                text.truncate(before);
                return Ok(Some(text));
            }
        }
        Ok(None)
    }

    /// The next line, without its end; nothing behind the last. Of a line that has more than `MAX_LINE_BYTES` only so many bytes and one
    /// are read.
    pub fn next_line(&mut self) -> io::Result<Option<&[u8]>>
        ensures { IfOk result (λ found. IfSome (bytes_left R.remaining self.old) (λ left. MatchOption found (left ≡ []) (λ line. (left ≢ []) × (line.now ≡ first_line left)))) }
    {
        self.line.clear();
        self.input.set_limit(MAX_LINE_BYTES as u64 + 1);
        if self.input.read_until(b'\n', &mut self.line)? == 0 {
            return Ok(None);
        }
        Ok(Some(without_end(&self.line)))
    }

    /// Passes over what is left of the line that was read last, if it was too long.
    pub fn pass_rest(&mut self) -> io::Result<()> {
        for _ in 0..u64::MAX {
            if self.line.len() <= MAX_LINE_BYTES || self.line.last() == Some(&b'\n') {
                return Ok(());
            }
            self.line.clear();
            self.input.set_limit(MAX_LINE_BYTES as u64 + 1);
            self.input.read_until(b'\n', &mut self.line)?;
        }
        Ok(())
    }

    /// How many lines of the input stand before the script's first: those of the settings, and the one behind them.
    pub fn lines_before(&self) -> u64 {
        self.before
    }

    /// The next line is in memory, to its end: it is read without a wait.
    pub fn has_next_ready(&self) -> bool {
        self.input.get_ref().buffer().contains(&b'\n')
    }
}

fn without_end(line: &[u8]) -> &[u8]
    ensures { result.now ≡ strip_last 10 line.now }
{
    match line {
        [line @ .., b'\n'] => line,
        line => line,
    }
}
