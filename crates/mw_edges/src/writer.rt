ghost use Rattle.std.specs.Prelude.{◌≡◌, ◌≢◌, Err, OnOk, OnErr};
ghost use Rattle.std.specs.Io.{WritesAtMost};
ghost use Rattle.std.specs.Io.KnownBytes.{Appends, Keeps, WriteAppends};
ghost use Rattle.mw_edges.specs.Causes.{CountsErr, HasCause, HasFault, PutsFront};
ghost use Rattle.mw_edges.specs.System.{writer_of, writer_faults};

use crate::sink::{Sink, SinkError};
use crate::source::Failed;
use crate::system::is_interrupted;
use mw_disk::Tally;
use std::io::Write;

/// Any writer as a sink, which tells what the writer tells.
#[derive(Drop)]
pub struct WriterSink<W: Write> {
    inner: W,
    faults: Tally,
}

impl<W: Write> WriterSink<W> {
    /// A sink that writes to this writer.
    pub fn new(inner: W) -> WriterSink<W>
        ensures inner { writer_of result ≡ inner }
        ensures faults { writer_faults result ≡ 0 }
    {
        WriterSink {
            inner,
            faults: Tally::new(),
        }
    }

    /// The writer.
    pub fn into_inner(self) -> W
        ensures { result ≡ writer_of self }
    {
        let WriterSink { inner, faults: _ } = self;
        inner
    }
}

/// Writes once, and again where a signal interrupts it.
fn write_some<W: Write>(writer: &mut W, bytes: &[u8]) -> Result<usize, Failed>
    ensures bound { WritesAtMost result bytes.now }
    ensures bytes { WriteAppends (W.contents writer.old) (W.contents writer.new) result bytes.now }
{
    for _ in 0..u64::MAX {
        match writer.write(bytes) {
            Ok(count) => return Ok(count),
            Err(error) if is_interrupted(&error) => {}
            Err(_) => return Err(Failed),
        }
    }
    Err(Failed)
}

/// Writes all the bytes, and gives up where a write takes none.
fn write_whole<W: Write>(writer: &mut W, bytes: &[u8]) -> Result<(), Failed>
    ensures ok { OnOk result (Appends (W.contents writer.old) (W.contents writer.new) bytes.now) }
    ensures err { OnErr result
        (PutsFront (W.contents writer.old) (W.contents writer.new) bytes.now) }
{
    let mut at = 0;
    for _ in 0..u64::MAX {
        if at == bytes.len() {
            return Ok(());
        }
        let Ok(count) = write_some(writer, &bytes[at..]) else {
            return Err(Failed);
        };
        if count == 0 {
            return Err(Failed);
        }
        at += count;
    }
    Err(Failed)
}

/// Flushes, and again where a signal interrupts it.
fn flush_whole<W: Write>(writer: &mut W) -> Result<(), Failed>
    ensures { Keeps (W.contents writer.old) (W.contents writer.new) }
{
    for _ in 0..u64::MAX {
        match writer.flush() {
            Ok(()) => return Ok(()),
            Err(error) if is_interrupted(&error) => {}
            Err(_) => return Err(Failed),
        }
    }
    Err(Failed)
}

/// Writes all the bytes, and flushes.
pub(crate) fn put_whole<W: Write>(writer: &mut W, bytes: &[u8]) -> Result<(), Failed>
    ensures ok { OnOk result (Appends (W.contents writer.old) (W.contents writer.new) bytes.now) }
    ensures err { OnErr result
        (PutsFront (W.contents writer.old) (W.contents writer.new) bytes.now) }
{
    write_whole(writer, bytes)?;
    flush_whole(writer)
}

impl<W: Write> Sink for WriterSink<W> {
    ghost held = { λ s. W.contents s.inner };

    ghost faults = { λ s. s.faults };

    ghost refusals = { λ s. s.faults };

    fn put(&mut self, bytes: &[u8]) -> Result<(), SinkError>
        ensures ok { OnOk result
            (Appends (W.contents (writer_of self.old)) (W.contents (writer_of self.new))
            bytes.now) }
        ensures err { OnErr result
            (PutsFront (W.contents (writer_of self.old)) (W.contents (writer_of self.new))
            bytes.now) }
        ensures memory { result ≢ Err SinkError.Memory }
        ensures counted { CountsErr (writer_faults self.old) (writer_faults self.new) result }
        ensures cause { HasCause (writer_faults self.old) (writer_faults self.new)
            SinkError.Failed result }
        ensures refused { HasFault (writer_faults self.old) (writer_faults self.new) result }
    {
        match put_whole(&mut self.inner, bytes) {
            Ok(()) => Ok(()),
            Err(_) => {
                self.faults.raise();
                Err(SinkError::Failed)
            }
        }
    }
}
