ghost use Rattle.std.specs.Prelude.{◌≡◌, [], None, false};

use crate::gate::Gate;
use crate::link::LinkError;
use crate::log::Log;
use crate::socket::SocketLink;
use mw_base::Text;
use mw_edges::{Failed, Tally};
use std::alloc::Global;
use std::io;
use std::io::ErrorKind;
use std::marker::Model;
use std::net::{Net, TcpListener, TcpStream};
use std::time::{Clock, Duration, SystemTime};

/// How long a read of a link waits, in milliseconds.
const READ_WAIT: u64 = 20;

/// How long a write of a link waits, in seconds.
const WRITE_WAIT: u64 = 30;

/// A gate that listens on a TCP port, with the machine's clock. Its links are `SocketLink`s, whose
/// small frames leave at once.
///
/// It listens at a host and a port, as `127.0.0.1:38281`. `accept` waits for the next connection;
/// one that is gone before it is ready is passed over. It never answers that it gives no more.
#[derive(Drop)]
pub struct TcpGate<R> {
    rt: R,
    alloc: Global,
    listener: Option<TcpListener>,
    listened: Log<Text>,
    given: Tally,
    failed: Tally,
}

impl<R> Model for TcpGate<R> {
    ghost use Rattle.mw_link.specs.Sockets.{SocketGateway};

    ghost Value = { SocketGateway };

    ghost view = { λ g. record {
      given = g.given;
      listened = g.listened;
      faults = g.failed;
    } };
}

/// The whole second, or 0 where the clock gives none.
fn second<R: Clock>(rt: &R) -> u64 {
    let Ok(now) = SystemTime::now(rt) else {
        return 0;
    };
    match now.duration_since(SystemTime::UNIX_EPOCH) {
        Ok(since) => since.as_secs(),
        Err(_) => 0,
    }
}

/// Sets how long calls on a stream wait, and that small frames leave at once.
pub(crate) fn prepare(stream: &TcpStream) -> io::Result<()> {
    stream.set_nodelay(true)?;
    stream.set_read_timeout(Some(Duration::from_millis(READ_WAIT)))?;
    stream.set_write_timeout(Some(Duration::from_secs(WRITE_WAIT)))
}

/// Whether an error of `accept` is that of one connection alone, so that the next one may come.
fn is_of_one(error: &io::Error) -> bool {
    matches!(
        error.kind(),
        ErrorKind::Interrupted
            | ErrorKind::ConnectionAborted
            | ErrorKind::ConnectionReset
            | ErrorKind::TimedOut
            | ErrorKind::HostUnreachable
            | ErrorKind::NetworkUnreachable
            | ErrorKind::NetworkDown
    )
}

/// The next connection that is ready.
fn next_stream(listener: &TcpListener) -> io::Result<TcpStream> {
    for _ in 0..u64::MAX {
        match listener.accept() {
            Ok((stream, _)) => {
                if prepare(&stream).is_ok() {
                    return Ok(stream);
                }
            }
            Err(error) if is_of_one(&error) => {}
            Err(error) => return Err(error),
        }
    }
    Err(io::Error::from(ErrorKind::Interrupted))
}

impl<R: Net<Stream = TcpStream, Listener = TcpListener> + Clock> TcpGate<R> {
    /// A gate that listens nowhere yet, and fails until it does.
    pub fn new(rt: R, alloc: Global) -> TcpGate<R>
        ensures { result ≡ record { given = 0; listened = []; faults = 0 } }
    {
        TcpGate {
            rt,
            alloc,
            listener: None,
            listened: Log::new(),
            given: Tally::new(),
            failed: Tally::new(),
        }
    }

    /// The port at which it listens, or 0 where it listens nowhere.
    pub fn port(&self) -> u16 {
        let Some(listener) = &self.listener else {
            return 0;
        };
        match listener.local_addr() {
            Ok(address) => address.port(),
            Err(_) => 0,
        }
    }

    /// The next connection, where it listens.
    fn take(&self) -> io::Result<TcpStream> {
        match &self.listener {
            Some(listener) => next_stream(listener),
            None => Err(io::Error::from(ErrorKind::NotConnected)),
        }
    }
}

impl<R: Net<Stream = TcpStream, Listener = TcpListener> + Clock> Gate for TcpGate<R> {
    type Line = SocketLink<TcpStream>;

    ghost given = { λ g. g.given };

    ghost left = { λ _. None };

    ghost ended = { λ _. false };

    ghost listened = { λ g. g.listened };

    ghost faults = { λ g. g.faults };

    fn listen(&mut self, at: &Text) -> Result<(), Failed> {
        match TcpListener::bind(&self.rt, at.as_str()) {
            Ok(listener) => {
                self.listener = Some(listener);
                self.listened.note(at);
                Ok(())
            }
            Err(_) => {
                self.failed.raise();
                Err(Failed)
            }
        }
    }

    fn accept(&mut self) -> Result<Option<SocketLink<TcpStream>>, LinkError> {
        match self.take() {
            Ok(stream) => {
                self.given.raise();
                let now = second(&self.rt);
                Ok(Some(SocketLink::new(self.alloc, stream, now)))
            }
            Err(error) if error.kind() == ErrorKind::OutOfMemory => Err(LinkError::Memory),
            Err(_) => {
                self.failed.raise();
                Err(LinkError::Failed)
            }
        }
    }
}
