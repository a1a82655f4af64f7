//! The frames that a link over a socket deals with itself.
use crate::link::{Heard, LinkError};
use crate::polled::PolledStream;
use mw_base::Text;
use std::alloc::Global;
use std::io;
use std::io::{ErrorKind, Read, Write};
use std::net::OpenStream;
use std::time::Duration;
use tungstenite::{Error, MaskKeys, Message, WebSocket};

/// How many reads a link that is shut waits for the peer's end: one second.
const PART_READS: u32 = 50;

/// How long a link that is shut waits for room in the stream, in milliseconds.
const PART_WAIT: u64 = 20;

/// The messages over a stream whose handshake is done.
pub type Talk<S, K> = WebSocket<PolledStream<S>, K>;

/// What a message means.
fn words_of(alloc: Global, message: &Message) -> Result<Heard, LinkError> {
    match message {
        Message::Text(text) => match Text::of(alloc, text.as_str()) {
            Ok(text) => Ok(Heard::Words(text)),
            Err(_) => Err(LinkError::Memory),
        },
        Message::Binary(_) => Ok(Heard::Binary),
        Message::Close(_) => Ok(Heard::End),
        _ => Ok(Heard::NotYet),
    }
}

/// What an error of the stream means in a read.
fn blocked_or_failed(error: &io::Error) -> Result<Heard, LinkError> {
    if error.kind() == ErrorKind::WouldBlock {
        return Ok(Heard::NotYet);
    }
    Err(LinkError::Failed)
}

/// What an error of a read means.
fn error_of(error: Error) -> Result<Heard, LinkError> {
    match error {
        Error::ConnectionClosed => Ok(Heard::End),
        Error::Io(error) => blocked_or_failed(&error),
        Error::OutOfMemory => Err(LinkError::Memory),
        _ => Err(LinkError::Failed),
    }
}

/// What a read means.
pub fn heard_of(alloc: Global, read: Result<Message, Error>) -> Result<Heard, LinkError> {
    match read {
        Ok(message) => words_of(alloc, &message),
        Err(error) => error_of(error),
    }
}

/// Writes a whole frame behind what waits to be sent. It takes no memory.
pub fn put_frame<S: Read + Write + OpenStream + Drop, K: MaskKeys + Drop>(
    talk: &mut Talk<S, K>,
    frame: &[u8],
) -> Result<(), Error> {
    talk.flush()?;
    talk.get_mut().write_all(frame)?;
    Ok(())
}

/// Ends the connection with a close frame, and waits for the peer's end. It takes no memory.
pub fn part_with<S: Read + Write + OpenStream + Drop, K: MaskKeys + Drop>(
    mut talk: Talk<S, K>,
    frame: &[u8],
) -> Result<(), Error> {
    talk.get_ref().hurry(Duration::from_millis(PART_WAIT))?;
    put_frame(&mut talk, frame)?;
    let stream = talk.get_mut();
    stream.allow(PART_READS);
    stream.part()?;
    Ok(())
}
