use std::io;
use std::io::{ErrorKind, Read, Write};
use std::net::{OpenStream, Shutdown};
use std::time::Duration;

/// A stream of the network, each of whose reads waits for one read timeout at most, and which
/// counts them: a link has no other clock.
#[derive(Drop)]
pub struct PolledStream<S> {
    stream: S,
    /// How many reads the stream is still asked for. After them nothing has come.
    reads: u32,
    /// How many reads found nothing since the last one that gave bytes.
    quiet: u32,
}

impl<S: Read + Write + OpenStream> PolledStream<S> {
    /// The stream, of which this many reads may be asked.
    pub fn new(stream: S, reads: u32) -> PolledStream<S> {
        PolledStream {
            stream,
            reads,
            quiet: 0,
        }
    }

    /// Allows this many reads from here on.
    pub fn allow(&mut self, reads: u32) {
        self.reads = reads;
    }

    /// How many reads found nothing since the last one that gave bytes.
    pub fn quiet(&self) -> u32 {
        self.quiet
    }

    /// Lets writes wait for this long at most.
    pub fn hurry(&self, wait: Duration) -> io::Result<()> {
        self.stream.set_write_timeout(Some(wait))
    }

    /// Says that nothing more is written, and reads what still comes, up to the peer's end or as
    /// many reads as are allowed. So the peer isn't cut off before it has what was written.
    pub fn part(&mut self) -> io::Result<()> {
        self.stream.shutdown(Shutdown::Write)?;
        let mut rest = [0u8; 4096];
        for _ in 0..self.reads {
            match self.stream.read(&mut rest) {
                Ok(0) => return Ok(()),
                Ok(_) => {}
                Err(error) if error.kind() == ErrorKind::WouldBlock => {}
                Err(error) => return Err(error),
            }
        }
        Ok(())
    }
}

impl<S: Read> Read for PolledStream<S> {
    fn read(&mut self, buf: &mut [u8]) -> io::Result<usize> {
        if self.reads == 0 {
            return Err(io::Error::from(ErrorKind::WouldBlock));
        }
        self.reads -= 1;
        match self.stream.read(buf) {
            Ok(count) => {
                self.quiet = 0;
                Ok(count)
            }
            Err(error) => {
                self.quiet = self.quiet.saturating_add(1);
                Err(error)
            }
        }
    }
}

impl<S: Write> Write for PolledStream<S> {
    /// A write that waited for the whole write timeout is an error like others: it isn't tried
    /// again.
    fn write(&mut self, buf: &[u8]) -> io::Result<usize> {
        match self.stream.write(buf) {
            Err(error) if error.kind() == ErrorKind::WouldBlock => {
                Err(io::Error::from(ErrorKind::TimedOut))
            }
            written => written,
        }
    }

    fn flush(&mut self) -> io::Result<()> {
        self.stream.flush()
    }
}
