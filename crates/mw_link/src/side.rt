//! The two sides of a connection: who accepted it, and who dialled.
use crate::frames::Talk;
use crate::link::LinkError;
use crate::polled::PolledStream;
use mw_base::Text;
use std::alloc::Global;
use std::io::{Read, Write};
use std::net::OpenStream;
use std::random::RandomSource;
use tungstenite::handshake::{HandshakeRole, client, server};
use tungstenite::{
    Error, HandshakeError, MaskKeys, MidHandshake, NoCallback, NoMask, RandomKeys, WebSocketConfig,
};

/// The longest message that is read over an accepted connection, in bytes.
const LONGEST_MESSAGE: usize = 1 << 20;

/// How many bytes one read of the stream asks for. Each open link keeps a buffer of this size.
const CHUNK: usize = 16 << 10;

/// How many reads a handshake may take: ten seconds, at twenty milliseconds a read.
const SHAKE_READS: u32 = 500;

/// An empty ping, as a server sends it (RFC 6455, section 5.5.2).
const PING: [u8; 2] = [0x89, 0];

/// A close frame with 1008, policy violation (RFC 6455, sections 5.5.1 and 7.4.1).
const CLOSE: [u8; 4] = [0x88, 2, 0x03, 0xf0];

/// A close frame with 1009, message too big.
const CLOSE_TOO_BIG: [u8; 4] = [0x88, 2, 0x03, 0xf1];

/// An empty ping, as a client sends it: masked, with a mask of zeros, since it holds nothing.
const MASKED_PING: [u8; 6] = [0x89, 0x80, 0, 0, 0, 0];

/// A client's close frame with 1000, normal closure.
const MASKED_CLOSE: [u8; 8] = [0x88, 0x82, 0, 0, 0, 0, 0x03, 0xe8];

/// How one side of a connection makes its handshake, and the frames that its link writes itself.
pub trait Side {
    /// What it masks its frames with.
    type Keys: MaskKeys + Drop;

    /// Makes the handshake over a stream.
    fn shake<S: Read + Write + OpenStream + Drop>(
        self,
        alloc: Global,
        stream: S,
    ) -> Result<Talk<S, Self::Keys>, LinkError>;

    /// The frame that asks the peer for a sign of life.
    fn ping() -> &'static [u8];

    /// The frame that ends the connection; where the peer's last text was longer than a session
    /// takes, it says so.
    fn close(too_long: bool) -> &'static [u8];
}

/// What an error of a handshake means.
fn shake_error(error: &Error) -> LinkError {
    match error {
        Error::OutOfMemory => LinkError::Memory,
        _ => LinkError::Failed,
    }
}

/// The rounds of a handshake, each of which reads until nothing has come.
fn finish<H: HandshakeRole + Drop>(mut shaking: MidHandshake<H>) -> Result<H::Finished, LinkError>
where
    H::Stream: Drop,
{
    for _ in 0..SHAKE_READS {
        match shaking.handshake() {
            Ok(finished) => return Ok(finished),
            Err(HandshakeError::Interrupted(again)) => shaking = again,
            Err(HandshakeError::Failure(error)) => return Err(shake_error(&error)),
        }
    }
    Err(LinkError::Failed)
}

/// The side that accepted the connection: a server. It takes messages of up to 1,048,576 bytes.
#[derive(Clone, Copy)]
pub struct Accepted;

impl Side for Accepted {
    type Keys = NoMask;

    fn shake<S: Read + Write + OpenStream + Drop>(
        self,
        alloc: Global,
        stream: S,
    ) -> Result<Talk<S, NoMask>, LinkError> {
        let config = WebSocketConfig::default()
            .read_buffer_size(CHUNK)
            .max_message_size(Some(LONGEST_MESSAGE))
            .max_frame_size(Some(LONGEST_MESSAGE));
        let stream = PolledStream::new(stream, SHAKE_READS);
        finish(server::start(alloc, stream, NoCallback, Some(config)))
    }

    fn ping() -> &'static [u8] {
        &PING
    }

    fn close(too_long: bool) -> &'static [u8] {
        if too_long { &CLOSE_TOO_BIG } else { &CLOSE }
    }
}

/// The side that dialled: a client, which asks for an address and takes messages of any length.
#[derive(Drop)]
pub struct Dialled<R> {
    source: R,
    /// The address as a URI: `ws://`, a host and a port, and `/`.
    uri: Text,
}

impl<R> Dialled<R> {
    /// The side that dialled a URI, with keys from a source of random bytes.
    pub fn new(source: R, uri: Text) -> Dialled<R> {
        Dialled { source, uri }
    }
}

impl<R: RandomSource + Drop> Side for Dialled<R> {
    type Keys = RandomKeys<R>;

    fn shake<S: Read + Write + OpenStream + Drop>(
        self,
        alloc: Global,
        stream: S,
    ) -> Result<Talk<S, RandomKeys<R>>, LinkError> {
        let Dialled { source, uri } = self;
        let mut nonce = [0; 16];
        if source.fill_bytes(&mut nonce).is_err() {
            return Err(LinkError::Failed);
        }
        let config = WebSocketConfig::default()
            .read_buffer_size(CHUNK)
            .max_message_size(None)
            .max_frame_size(None);
        let stream = PolledStream::new(stream, SHAKE_READS);
        let request = match client::request_of(alloc, uri.as_str()) {
            Ok(request) => request,
            Err(error) => return Err(shake_error(&error)),
        };
        let keys = RandomKeys::new(source);
        match client::start(alloc, nonce, keys, request, stream, Some(config)) {
            Ok(shaking) => {
                let (talk, _) = finish(shaking)?;
                Ok(talk)
            }
            Err(error) => Err(shake_error(&error)),
        }
    }

    fn ping() -> &'static [u8] {
        &MASKED_PING
    }

    fn close(_too_long: bool) -> &'static [u8] {
        &MASKED_CLOSE
    }
}
