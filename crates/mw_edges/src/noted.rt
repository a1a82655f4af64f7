ghost use Rattle.std.specs.Prelude.{◌≡◌, [], Some};
ghost use Rattle.mw_edges.specs.Noted.{noted_of, noted_bytes};

use mw_disk::{History, Seen};
use std::io::{self, Write};

/// A writer that notes what its calls answered that they took. It tells just these bytes, whatever
/// the writer within tells; a program keeps a byte of them.
#[derive(Drop)]
pub struct NotedWriter<W: Write> {
    inner: W,
    taken: History<Seen>,
}

impl<W: Write> NotedWriter<W> {
    /// A writer of which nothing was asked yet.
    pub fn new(inner: W) -> NotedWriter<W>
        ensures inner { noted_of result ≡ inner }
        ensures taken { noted_bytes result ≡ [] }
    {
        NotedWriter {
            inner,
            taken: History::new(),
        }
    }

    /// The writer within.
    pub fn into_inner(self) -> W
        ensures { result ≡ noted_of self }
    {
        let NotedWriter { inner, taken: _ } = self;
        inner
    }
}

impl<W: Write> Write for NotedWriter<W> {
    ghost contents = { λ w. Some (noted_bytes w) };

    fn write(&mut self, buf: &[u8]) -> io::Result<usize> {
        let count = self.inner.write(buf)?;
        self.taken.note(&Seen::of(&buf[..count]));
        Ok(count)
    }

    fn flush(&mut self) -> io::Result<()> {
        self.inner.flush()
    }
}
