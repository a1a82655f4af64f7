//! Links over streams of given bytes, and a link and a gate over the network of this machine.
ghost use Rattle.std.specs.Prelude.{◌≤◌, length};

use mw_base::Text;
use mw_cases::part;
use mw_link::{Gate, Heard, LONGEST_TEXT, Link, LinkError, SocketLink, TcpGate};
use std::alloc::Global;
use std::io;
use std::io::{ErrorKind, Read, Write};
use std::net::{Net, OpenStream, Shutdown, TcpStream};
use std::test::Fail;
use std::time::Duration;

/// A client's handshake, with the key of RFC 6455, section 1.3. It offers an extension.
const HEAD: &str = "GET / HTTP/1.1\r
Host: localhost\r
Upgrade: websocket\r
Connection: keep-alive, Upgrade\r
Sec-WebSocket-Key: dGhlIHNhbXBsZSBub25jZQ==\r
Sec-WebSocket-Version: 13\r
Sec-WebSocket-Extensions: permessage-deflate; client_max_window_bits\r
\r
";

/// What answers that key.
const ACCEPTED: &str = "s3pPLMBiTxaQ9kYGzzhZRbK+xOo=";

/// What a client sends, in hex, what is heard, and what the client is sent until the link is shut: texts whole and in
/// fragments, with a ping between them, and with a pong; a message that is no text; each form of a close, and the bytes
/// of a close that isn't allowed; the end of the stream; then what breaks the framing: no mask, no UTF-8, a reserved
/// kind and a reserved bit, a ping in fragments, a fragment of nothing, lengths that are none or too long.
const FRAMES: &str = "81830000000061626381820000000064e9 | words abc,failed | 880203f0
818301020304606060 | words abc | 880203f0
0181000000006189810000000078808100000000620180000000008080 00000000 | words ab,words  | 8a0178880203f0
8a8100000000788181000000007a | words z | 880203f0
828100000000ff81810000000061 | binary,words a | 880203f0
888000000000 | end,end | 8800
88820000000003e8 | end,end | 880203e8
88850000000003e8627965 | end | 880503e8627965
8882000000000000 | end | 881403ea50726f746f636f6c2076696f6c6174696f6e
88810000000003 | failed | 880203f0
. | failed | 880203f0
8183000000006162. | failed | 880203f0
810161 | failed | 880203f0
818100000000ff | failed | 880203f0
83810000000061 | failed | 880203f0
c1810000000061 | failed | 880203f0
09810000000061 | failed | 880203f0
80810000000061 | failed | 880203f0
81ff800000000000000000000000 | failed | 880203f0
81ff7fffffffffffffff00000000 | failed | 880203f0
81fe000100000000 | failed | 880203f0";

/// Bytes that are read in order, and what is written: a client's handshake, and what it sends behind it in pieces. Then
/// nothing comes, or the end.
#[derive(Drop)]
struct Wire<'a> {
    head: &'a [u8],
    rest: &'a [u8],
    piece: usize,
    ends: bool,
    reads: u64,
    written: Vec<u8>,
}

/// The front of what is left, which is then left out.
fn front<'a>(left: &mut &'a [u8], most: usize, buf: &mut [u8]) -> usize
    ensures { result ≤ length buf.new }
{
    let count = most.min(left.len()).min(buf.len());
    let (front, rest) = left.split_at(count);
    buf[..count].copy_from_slice(front);
    *left = rest;
    count
}

/// A wire that a link has.
#[derive(Drop)]
struct Lent<'w, 'a>(&'w mut Wire<'a>);

impl<'w, 'a> Read for Lent<'w, 'a> {
    fn read(&mut self, buf: &mut [u8]) -> io::Result<usize> {
        let wire = &mut *self.0;
        wire.reads = wire.reads.saturating_add(1);
        let piece = wire.piece;
        if !wire.head.is_empty() {
            return Ok(front(&mut wire.head, buf.len(), buf));
        }
        if wire.rest.is_empty() && !wire.ends {
            return Err(io::Error::from(ErrorKind::WouldBlock));
        }
        Ok(front(&mut wire.rest, piece, buf))
    }
}

impl<'w, 'a> Write for Lent<'w, 'a> {
    fn write(&mut self, buf: &[u8]) -> io::Result<usize> {
        self.0.written.extend_from_slice(buf)?;
        Ok(buf.len())
    }

    fn flush(&mut self) -> io::Result<()> {
        Ok(())
    }
}

impl<'w, 'a> OpenStream for Lent<'w, 'a> {
    fn set_write_timeout(&self, _dur: Option<Duration>) -> io::Result<()> {
        Ok(())
    }

    fn shutdown(&self, _how: Shutdown) -> io::Result<()> {
        Ok(())
    }
}

/// A wire over which this comes behind a handshake.
fn wire_of<'a>(alloc: Global, rest: &'a [u8], piece: usize, ends: bool) -> Wire<'a> {
    Wire {
        head: HEAD.as_bytes(),
        rest,
        piece,
        ends,
        reads: 0,
        written: Vec::new(alloc),
    }
}

/// Whether a handshake was answered, with no extension, and then just these bytes, in hex.
fn is_written(alloc: Global, written: &[u8], wanted: &str) -> Result<bool, Fail> {
    let hex = hex::encode(alloc, written)?;
    let begin = hex::encode(alloc, b"HTTP/1.1 101 ".as_slice())?;
    let accepted = hex::encode(alloc, ACCEPTED.as_bytes())?;
    let Some((head, rest)) = hex.as_str().split_once("0d0a0d0a") else {
        return Ok(false);
    };
    let is_head = head.starts_with(begin.as_str()) && head.contains(accepted.as_str());
    Ok(is_head && !head.contains("657874656e73696f6e73") && rest == wanted)
}

/// What comes next, where it comes within a hundred calls.
fn next_of<L: Link>(link: &mut L) -> Result<Heard, LinkError> {
    for _ in 0..100 {
        match link.recv()? {
            Heard::NotYet => {}
            heard => return Ok(heard),
        }
    }
    Ok(Heard::NotYet)
}

/// Whether this comes next.
fn hears<L: Link>(link: &mut L, wanted: &str) -> bool {
    match next_of(link) {
        Ok(Heard::Words(text)) => wanted.strip_prefix("words ") == Some(text.as_str()),
        Ok(Heard::Binary) => wanted == "binary",
        Ok(Heard::NotYet) => wanted == "nothing",
        Ok(Heard::End) => wanted == "end",
        Err(LinkError::Failed) => wanted == "failed",
        Err(LinkError::Memory) => wanted == "no memory",
    }
}

/// Whether this is heard over a wire, up to the end of the link.
fn tells(alloc: Global, wire: &mut Wire<'_>, wanted: &str) -> bool {
    let mut link = SocketLink::new(alloc, Lent(wire), 7);
    for heard in wanted.split(',') {
        if !hears(&mut link, heard) {
            return false;
        }
    }
    link.shut();
    link.opened() == 7 && hears(&mut link, "end")
}

/// Whether a client that sends what a case says, in pieces of this many bytes, is answered so.
fn is_answered(alloc: Global, case: &str, piece: usize) -> Result<bool, Fail> {
    let given = part(case, 0);
    let sent = given.trim_end_matches('.').replace(alloc, " ", "")?;
    let bytes = hex::decode(alloc, sent.as_str())?;
    let mut wire = wire_of(alloc, bytes.as_slice(), piece, given.ends_with('.'));
    let is_so = tells(alloc, &mut wire, part(case, 1));
    Ok(is_so && is_written(alloc, wire.written.as_slice(), part(case, 2))?)
}

#[test]
fn frames_are_met_as_the_protocol_says(rt: HostRuntime) -> Result<(), Fail> {
    for case in FRAMES.split('\n') {
        for piece in [1, 3, 4096] {
            if !is_answered(rt.alloc(), case, piece)? {
                return Err(Fail::new(case));
            }
        }
    }
    Ok(())
}

/// A frame with a text of so many bytes.
fn long_text(alloc: Global, count: usize) -> Result<Vec<u8>, Fail> {
    let mut bytes = Vec::new(alloc);
    bytes.extend_from_slice(&[0x81, 0xff])?;
    bytes.extend_from_slice(&(count as u64).to_be_bytes())?;
    bytes.resize(14, 0)?;
    bytes.resize(count.saturating_add(14), b'a')?;
    Ok(bytes)
}

/// Whether a text of so many bytes is told whole, or fails, and the client is then sent this.
fn is_long(alloc: Global, count: usize, is_told: bool, wanted: &str) -> Result<bool, Fail> {
    let bytes = long_text(alloc, count)?;
    let mut wire = wire_of(alloc, bytes.as_slice(), 4096, false);
    let found = {
        let mut link = SocketLink::new(alloc, Lent(&mut wire), 7);
        let found = match next_of(&mut link) {
            Ok(Heard::Words(text)) => text.as_str().len() == count,
            _ => false,
        };
        link.shut();
        found
    };
    Ok(found == is_told && is_written(alloc, wire.written.as_slice(), wanted)?)
}

#[test]
fn long_texts_are_told_up_to_their_limit(rt: HostRuntime) -> Result<(), Fail> {
    let alloc = rt.alloc();
    assert!(rt; is_long(alloc, LONGEST_TEXT, true, "880203f0")?);
    assert!(rt; is_long(alloc, LONGEST_TEXT + 1, true, "880203f1")?);
    assert!(rt; is_long(alloc, 1 << 20, true, "880203f1")?);
    assert!(rt; is_long(alloc, (1 << 20) + 1, false, "880203f0")?);
    Ok(())
}

/// How many times nothing has come before a link fails.
fn patience<L: Link>(link: &mut L) -> u64 {
    for turn in 0..5_000u64 {
        match link.recv() {
            Ok(Heard::NotYet) => {}
            Ok(_) => return 0,
            Err(_) => return turn,
        }
    }
    0
}

#[test]
fn a_silent_peer_is_asked_and_then_given_up(rt: HostRuntime) -> Result<(), Fail> {
    let alloc = rt.alloc();
    let mut wire = wire_of(alloc, &[], 1, false);
    let turns = {
        let mut link = SocketLink::new(alloc, Lent(&mut wire), 0);
        let turns = patience(&mut link);
        link.shut();
        turns
    };
    assert!(rt; turns == 1_999);
    assert!(rt; is_written(alloc, wire.written.as_slice(), "8900880203f0")?);
    Ok(())
}

#[test]
fn a_handshake_has_its_time(rt: HostRuntime) -> Result<(), Fail> {
    let alloc = rt.alloc();
    let mut wire = wire_of(alloc, &[], 1, false);
    wire.head = b"GET / HTTP/1.1\r\n";
    let is_given_up = {
        let mut link = SocketLink::new(alloc, Lent(&mut wire), 0);
        hears(&mut link, "failed")
    };
    assert!(rt; is_given_up && wire.reads == 500 && wire.written.is_empty());
    Ok(())
}

#[test]
fn a_handshake_that_is_cut_fails(rt: HostRuntime) -> Result<(), Fail> {
    for cut in 0..HEAD.len() {
        let mut wire = wire_of(rt.alloc(), &[], 1, true);
        wire.head = &HEAD.as_bytes()[..cut];
        if !tells(rt.alloc(), &mut wire, "failed") || !wire.written.is_empty() {
            return Err(Fail::new("a handshake that was cut"));
        }
    }
    Ok(())
}

/// Reads until so many bytes have come.
fn read_some<S: Read>(alloc: Global, stream: &mut S, count: usize) -> Result<Vec<u8>, Fail> {
    let mut found = Vec::new(alloc);
    let mut buf = [0u8; 256];
    for _ in 0..count {
        if found.len() >= count {
            break;
        }
        let got = stream.read(&mut buf)?;
        found.extend_from_slice(&buf[..got])?;
    }
    Ok(found)
}

#[test]
fn a_gate_gives_links_over_the_network(rt: HostRuntime) -> Result<(), Fail> {
    let alloc = rt.alloc();
    let mut gate = TcpGate::new(rt, alloc);
    assert!(rt; gate.accept().is_err() && gate.port() == 0);
    assert!(rt; gate.listen(&Text::of(alloc, "no address")?).is_err());
    assert!(rt; gate.listen(&Text::of(alloc, "127.0.0.1:0")?).is_ok());
    let mut client = TcpStream::connect(&rt, ("127.0.0.1", gate.port()))?;
    client.write_all(HEAD.as_bytes())?;
    let Ok(Some(mut link)) = gate.accept() else {
        return Err(Fail::new("no link"));
    };
    assert!(rt; link.send(&Text::of(alloc, "room")?).is_ok());
    let head = read_some(alloc, &mut client, 135)?;
    assert!(rt; is_written(alloc, head.as_slice(), "8104726f6f6d")?);
    assert!(rt; matches!(link.recv(), Ok(Heard::NotYet)));
    client.write_all(&[0x81, 0x81, 0, 0, 0, 0, b'a'])?;
    assert!(rt; hears(&mut link, "words a") && link.opened() > 1_700_000_000);
    client.write_all(&[0x88, 0x80, 0, 0, 0, 0])?;
    assert!(rt; hears(&mut link, "end"));
    link.shut();
    let rest = read_some(alloc, &mut client, 3)?;
    assert!(rt; rest.as_slice() == [0x88u8, 0].as_slice());
    Ok(())
}
