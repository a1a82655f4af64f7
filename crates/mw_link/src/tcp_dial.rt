ghost use Rattle.std.specs.Prelude.{◌≡◌, ◌-◌, [], length};
ghost use Rattle.mw_link.specs.Dials.{exchanges_of};

use crate::dial::Dial;
use crate::link::{Link, LinkError};
use crate::log::Log;
use crate::side::Dialled;
use crate::socket::SocketLink;
use crate::tcp::prepare;
use mw_base::{Memory, Text};
use mw_edges::Tally;
use std::alloc::Global;
use std::io;
use std::io::ErrorKind;
use std::marker::Model;
use std::net::{Net, TcpStream};
use std::random::RandomSource;

/// A dial over TCP. Its lines are `SocketLink`s of the side that dialled, whose small frames leave
/// at once, and which take texts of any length.
///
/// It dials a host and a port, as `127.0.0.1:38281`, and waits for who answers.
#[derive(Drop)]
pub struct TcpDial<R: RandomSource + Drop> {
    rt: R,
    alloc: Global,
    dialled: Log<Text>,
    lines: Log<SocketLink<TcpStream, Dialled<R>>>,
    failed: Tally,
}

impl<R: RandomSource + Drop> Model for TcpDial<R> {
    ghost use Rattle.std.specs.Prelude.{◌≤◌, length};
    ghost use Rattle.mw_link.specs.Sockets.{SocketDialler};

    ghost Value = { SocketDialler };

    ghost view = { λ d. record { dialled = d.dialled; lines = d.lines; faults = d.failed } };

    ghost invariant = { λ d. length d.lines ≤ length d.dialled };
}

impl<R: RandomSource + Drop> TcpDial<R> {
    /// A dial that gave no line yet.
    pub fn new(rt: R, alloc: Global) -> TcpDial<R>
        ensures { result ≡ record { dialled = []; lines = []; faults = 0 } }
    {
        TcpDial {
            rt,
            alloc,
            dialled: Log::new(),
            lines: Log::new(),
            failed: Tally::new(),
        }
    }
}

/// The URI of an address.
fn uri_of(alloc: Global, at: &Text) -> Result<Text, Memory> {
    let mut uri = String::from_str(alloc, "ws://")?;
    uri.push_str(at.as_str())?;
    uri.push_str("/")?;
    Ok(Text::from_string(uri))
}

/// A connection to an address that is ready.
fn connected<R: Net<Stream = TcpStream>>(rt: &R, at: &Text) -> io::Result<TcpStream> {
    let stream = TcpStream::connect(rt, at.as_str())?;
    prepare(&stream)?;
    Ok(stream)
}

impl<R: Net<Stream = TcpStream> + RandomSource + Copy + Drop> Dial for TcpDial<R> {
    type Line = SocketLink<TcpStream, Dialled<R>>;

    ghost dialled = { λ d. d.dialled };

    ghost hung_up = { λ d. exchanges_of (λ l. l.heard) (λ l. l.sent) d.lines };

    ghost out = { λ d. length d.dialled - length d.lines };

    ghost faults = { λ d. d.faults };

    fn dial(&mut self, at: &Text) -> Result<SocketLink<TcpStream, Dialled<R>>, LinkError> {
        let Ok(uri) = uri_of(self.alloc, at) else {
            return Err(LinkError::Memory);
        };
        match connected(&self.rt, at) {
            Ok(stream) => {
                self.dialled.note(at);
                let side = Dialled::new(self.rt, uri);
                Ok(SocketLink::on_side(self.alloc, stream, side, 0))
            }
            Err(error) if error.kind() == ErrorKind::OutOfMemory => Err(LinkError::Memory),
            Err(_) => {
                self.failed.raise();
                Err(LinkError::Failed)
            }
        }
    }

    fn hang_up(&mut self, line: SocketLink<TcpStream, Dialled<R>>) {
        let mut line = line;
        if line.has_failed() {
            self.failed.raise();
        }
        self.lines.note(&line);
        line.shut();
    }
}
