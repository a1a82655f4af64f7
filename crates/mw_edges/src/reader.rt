ghost use Rattle.std.specs.Prelude.{◌≡◌};
ghost use Rattle.std.specs.Io.{ReadsAtMost};
ghost use Rattle.std.specs.Io.KnownBytes.{ReadConsumes};
ghost use Rattle.mw_edges.specs.Causes.{CountsErr, HasFault};
ghost use Rattle.mw_edges.specs.System.{reader_of, reader_faults};

use crate::source::{Failed, Source};
use crate::system::is_interrupted;
use mw_disk::Tally;
use std::io::Read;

/// Any reader as a source, which tells what the reader tells.
#[derive(Drop)]
pub struct ReaderSource<R: Read> {
    inner: R,
    faults: Tally,
}

impl<R: Read> ReaderSource<R> {
    /// A source of what this reader gives.
    pub fn new(inner: R) -> ReaderSource<R>
        ensures inner { reader_of result ≡ inner }
        ensures faults { reader_faults result ≡ 0 }
    {
        ReaderSource {
            inner,
            faults: Tally::new(),
        }
    }
}

/// Reads once, and again where a signal interrupts it.
fn read_some<R: Read>(reader: &mut R, into: &mut [u8]) -> Result<usize, Failed>
    ensures bound { ReadsAtMost result into.new }
    ensures bytes { ReadConsumes (R.remaining reader.old) (R.remaining reader.new) result into.new }
{
    for _ in 0..u64::MAX {
        match reader.read(into) {
            Ok(count) => return Ok(count),
            Err(error) if is_interrupted(&error) => {}
            Err(_) => return Err(Failed),
        }
    }
    Err(Failed)
}

impl<R: Read> Source for ReaderSource<R> {
    ghost left = { λ s. R.remaining s.inner };

    ghost faults = { λ s. s.faults };

    fn take(&mut self, into: &mut [u8]) -> Result<usize, Failed>
        ensures bound { ReadsAtMost result into.new }
        ensures bytes { ReadConsumes (R.remaining (reader_of self.old))
            (R.remaining (reader_of self.new))
            result into.new }
        ensures counted { CountsErr (reader_faults self.old) (reader_faults self.new) result }
        ensures cause { HasFault (reader_faults self.old) (reader_faults self.new) result }
    {
        let result = read_some(&mut self.inner, into);
        if result.is_err() {
            self.faults.raise();
        }
        result
    }
}
