ghost use Rattle.std.specs.Prelude.{◌≡◌, ◌<◌, ◌↔◌, ◌++◌, ◌∷◌, [], true, IsTrue};
ghost use Rattle.mw_link.specs.Sockets.{counted, new_socket};

use crate::frames::{Talk, heard_of, part_with, put_frame};
use crate::link::{Heard, Link, LinkError};
use crate::log::Log;
use crate::side::{Accepted, Side};
use mw_base::Text;
use mw_edges::Tally;
use std::alloc::Global;
use std::io::{Read, Write};
use std::marker::Model;
use std::mem;
use std::net::OpenStream;
use tungstenite::{Error, MaskKeys, Message};

/// The longest text that a session takes, in bytes.
pub const LONGEST_TEXT: usize = 524_288;

/// How many reads one call of `recv` asks for at most.
const READS: u32 = 16;

/// After how many reads that found nothing the peer is asked for a sign of life: twenty seconds, at
/// twenty milliseconds a read.
const ASKED_AFTER: u32 = 1_000;

/// After how many the peer is taken for gone: twenty seconds more.
const GONE_AFTER: u32 = 2_000;

/// How far a connection has come.
#[derive(Drop)]
enum Stage<S: Read + Write + OpenStream + Drop, D: Side + Drop> {
    Fresh(S, D),
    Open(Talk<S, D::Keys>),
    Over,
}

/// A link over a stream of the network, as RFC 6455 says, for the side that accepted the connection
/// or for the one that dialled. It makes the handshake at the first call.
///
/// A read of the stream must wait for twenty milliseconds at most, and then give `WouldBlock`; a
/// write must give up so after thirty seconds. The link has no other clock. `recv` is `Failed`
/// where the stream or the peer's framing fails, where a message is longer than its side takes (an
/// accepted link 1,048,576 bytes, a dialled one any), and where nothing came for twenty seconds and
/// nothing for twenty more after it asked for a sign of life; `send` where the stream takes nothing
/// for thirty seconds; the first call where the handshake isn't done within ten. Extensions that a
/// client offers are declined, and none are offered. Pings, pongs, fragments and close frames are
/// its own matter.
pub struct SocketLink<S: Read + Write + OpenStream + Drop, D: Side + Drop = Accepted> {
    alloc: Global,
    stage: Stage<S, D>,
    heard: Log<Heard>,
    sent: Log<Text>,
    failed: Tally,
    opened: u64,
    shut: bool,
    /// Whether the peer has ended it.
    ended: bool,
    /// Whether the last text was longer than a session takes.
    too_long: bool,
}

/// By hand, so that whoever lets it go calls this, and what it frees is listed once.
impl<S: Read + Write + OpenStream + Drop, D: Side + Drop> Drop for SocketLink<S, D> {
    fn drop(self) {
        let SocketLink {
            alloc: _,
            stage: _,
            heard: _,
            sent: _,
            failed: _,
            opened: _,
            shut: _,
            ended: _,
            too_long: _,
        } = self;
    }
}

impl<S: Read + Write + OpenStream + Drop, D: Side + Drop> Model for SocketLink<S, D> {
    ghost use Rattle.mw_link.specs.Sockets.{SocketLine};

    ghost Value = { SocketLine };

    ghost view = { λ l. record {
      heard = l.heard;
      sent = l.sent;
      faults = l.failed;
      opened = l.opened;
      shut = l.shut;
    } };
}

/// The talk over a connection, whose handshake is made where it wasn't yet.
fn open<S: Read + Write + OpenStream + Drop, D: Side + Drop>(
    alloc: Global,
    stage: Stage<S, D>,
) -> Result<Talk<S, D::Keys>, LinkError> {
    match stage {
        Stage::Fresh(stream, side) => side.shake(alloc, stream),
        Stage::Open(talk) => Ok(talk),
        Stage::Over => Err(LinkError::Failed),
    }
}

/// What stands for a message that hasn't come: where the peer was silent for long, it is asked for
/// a sign of life by this frame, and then taken for gone.
fn wait_on<S: Read + Write + OpenStream + Drop, K: MaskKeys + Drop>(
    talk: &mut Talk<S, K>,
    ping: &[u8],
) -> Result<Heard, LinkError> {
    let quiet = talk.get_ref().quiet();
    if quiet >= GONE_AFTER {
        return Err(LinkError::Failed);
    }
    if quiet == ASKED_AFTER && put_frame(talk, ping).is_err() {
        return Err(LinkError::Failed);
    }
    Ok(Heard::NotYet)
}

/// Reads what came.
fn read_once<S: Read + Write + OpenStream + Drop, K: MaskKeys + Drop>(
    alloc: Global,
    talk: &mut Talk<S, K>,
    ping: &[u8],
) -> Result<Heard, LinkError> {
    talk.get_mut().allow(READS);
    let read = talk.read();
    match heard_of(alloc, read)? {
        Heard::NotYet => wait_on(talk, ping),
        Heard::End => {
            let _ = talk.flush();
            Ok(Heard::End)
        }
        heard => Ok(heard),
    }
}

/// Sends a text.
fn send_once<S: Read + Write + OpenStream + Drop, K: MaskKeys + Drop>(
    alloc: Global,
    talk: &mut Talk<S, K>,
    text: &str,
) -> Result<(), LinkError> {
    let Ok(message) = Message::text(alloc, text) else {
        return Err(LinkError::Memory);
    };
    match talk.send(message) {
        Ok(()) => Ok(()),
        Err(Error::OutOfMemory) => Err(LinkError::Memory),
        Err(_) => Err(LinkError::Failed),
    }
}

/// Receives, after the handshake where it wasn't made yet.
fn recv_over<S: Read + Write + OpenStream + Drop, D: Side + Drop>(
    alloc: Global,
    stage: Stage<S, D>,
) -> (Stage<S, D>, Result<Heard, LinkError>) {
    match open(alloc, stage) {
        Ok(mut talk) => {
            let result = read_once(alloc, &mut talk, D::ping());
            (Stage::Open(talk), result)
        }
        Err(error) => (Stage::Over, Err(error)),
    }
}

/// Sends, after the handshake where it wasn't made yet.
fn send_over<S: Read + Write + OpenStream + Drop, D: Side + Drop>(
    alloc: Global,
    stage: Stage<S, D>,
    text: &str,
) -> (Stage<S, D>, Result<(), LinkError>) {
    match open(alloc, stage) {
        Ok(mut talk) => {
            let result = send_once(alloc, &mut talk, text);
            (Stage::Open(talk), result)
        }
        Err(error) => (Stage::Over, Err(error)),
    }
}

impl<S: Read + Write + OpenStream + Drop> SocketLink<S> {
    /// A link over a stream that was accepted at this second.
    pub fn new(alloc: Global, stream: S, opened: u64) -> SocketLink<S>
        ensures { result ≡ new_socket opened }
    {
        SocketLink::on_side(alloc, stream, Accepted, opened)
    }
}

impl<S: Read + Write + OpenStream + Drop, D: Side + Drop> SocketLink<S, D> {
    /// A link over a stream for one side of the connection, accepted at this second.
    pub(crate) fn on_side(alloc: Global, stream: S, side: D, opened: u64) -> SocketLink<S, D>
        ensures { result ≡ new_socket opened }
    {
        SocketLink {
            alloc,
            stage: Stage::Fresh(stream, side),
            heard: Log::new(),
            sent: Log::new(),
            failed: Tally::new(),
            opened,
            shut: false,
            ended: false,
            too_long: false,
        }
    }

    /// Whether it has failed.
    pub(crate) fn has_failed(&self) -> bool
        ensures { IsTrue result ↔ (0 < self.now.faults) }
    {
        self.failed.has_risen()
    }

    /// Counts a fault.
    fn count(&mut self, error: LinkError)
        ensures { self.new ≡ counted error self.old }
    {
        if let LinkError::Failed = error {
            self.failed.raise();
        }
    }

    /// Notes and gives what was heard.
    fn hear(&mut self, heard: Heard) -> Heard
        ensures result { result ≡ heard }
        ensures heard { self.new ≡ record self.old { heard = self.old.heard ++ heard ∷ [] } }
    {
        match &heard {
            Heard::Words(text) => self.too_long = text.as_str().len() > LONGEST_TEXT,
            Heard::End => self.ended = true,
            _ => {}
        }
        self.heard.note(&heard);
        heard
    }
}

impl<S: Read + Write + OpenStream + Drop, D: Side + Drop> Link for SocketLink<S, D> {
    ghost heard = { λ l. l.heard };

    ghost sent = { λ l. l.sent };

    ghost faults = { λ l. l.faults };

    ghost opened = { λ l. l.opened };

    ghost is_shut = { λ l. l.shut };

    fn recv(&mut self) -> Result<Heard, LinkError> {
        if self.shut || self.ended {
            return Ok(self.hear(Heard::End));
        }
        let stage = mem::replace(&mut self.stage, Stage::Over);
        let (stage, result) = recv_over(self.alloc, stage);
        self.stage = stage;
        match result {
            Ok(heard) => Ok(self.hear(heard)),
            Err(error) => {
                self.count(error);
                Err(error)
            }
        }
    }

    fn send(&mut self, text: &Text) -> Result<(), LinkError> {
        if self.shut {
            self.failed.raise();
            return Err(LinkError::Failed);
        }
        let stage = mem::replace(&mut self.stage, Stage::Over);
        let (stage, result) = send_over(self.alloc, stage, text.as_str());
        self.stage = stage;
        match result {
            Ok(()) => {
                self.sent.note(text);
                Ok(())
            }
            Err(error) => {
                self.count(error);
                Err(error)
            }
        }
    }

    fn opened(&self) -> u64 {
        self.opened
    }

    /// Where the peer hasn't ended it, it is told with a close frame: by who accepted it 1009 where
    /// its last text was longer than a session takes, else 1008; by who dialled 1000. It waits for
    /// the peer's end for a second at most, and takes no memory.
    fn shut(&mut self) {
        if let Stage::Open(talk) = mem::replace(&mut self.stage, Stage::Over) {
            if !self.ended {
                let _ = part_with(talk, D::close(self.too_long));
            }
        }
        self.shut = true;
    }
}
