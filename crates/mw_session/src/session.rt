ghost use Rattle.std.specs.Prelude.{◌≡◌, ◌<◌, [], ◌∷◌, map, length, Option, None, Some};
ghost use Rattle.mw_lock.specs.Passes.{IsTrueTo};
ghost use Rattle.mw_link.specs.declared.link.Heard.TheVariants as Heard;
ghost use Rattle.mw_packets_in.specs.View.{inbound_view};
ghost use Rattle.mw_keep.specs.Standing.{MayReply};
ghost use Rattle.mw_keep.specs.Views.{call_view};
ghost use Rattle.mw_session.specs.Answered.{end_by, taken, texts_of};
ghost use Rattle.mw_keep.specs.declared.reply.Reply.{Reply};
ghost use Rattle.mw_session.specs.Asked.{asks, call_for as call_for_lem, no_json};
ghost use Rattle.mw_session.specs.Owed.{ServesOwed};
ghost use Rattle.mw_session.specs.Passes.{Acts, ClosesBy, Heeds, Makes, Runs, SendsAll, Serves, TakesAll, Turned};
ghost use Rattle.mw_session.specs.Stops.{stop_at, stop_by};

use crate::ended::Ended;
use mw_base::{List, SessionId, Text};
use mw_disk::Disk;
use mw_keep::laws::lives_keep;
use mw_keep::{Call, KeptRoom, Reply, StopCause};
use mw_link::{Heard, Link, LinkError};
use mw_lock::{Pass, RoomLock};
use mw_packets_in::{Inbound, packets_of};
use std::alloc::Global;
use std::sync::Wait;

/// A text of more bytes ends its session.
const LIMIT: u64 = 524_288;

/// The end of a session that is answered so, if it is one.
fn end_by(reply: &Reply) -> Option<Ended>
    ensures { result ≡ end_by reply.now }
{
    match reply {
        Reply::Opened(_) => None,
        Reply::Done => None,
        Reply::Messages(_) => None,
        Reply::Gone => Some(Ended::Gone),
        Reply::Overrun => Some(Ended::Overrun),
        Reply::Stopped(cause) => Some(Ended::Stopped(*cause)),
        Reply::Memory => Some(Ended::Memory),
    }
}

/// The messages that are answered.
fn texts_of(alloc: Global, reply: Reply) -> List<Text>
    ensures { result ≡ texts_of reply }
{
    match reply {
        Reply::Messages(texts) => texts,
        _ => List::new(alloc),
    }
}

/// The call of an element of a session's message.
fn call_for(session: SessionId, element: Inbound) -> Call
    ensures call { call_view result ≡ call_for_lem session (inbound_view element) }
    ensures untaken { (r : Reply) → taken result r ≡ [] }
{
    match element {
        Inbound::Good(packet) => Call::Packet { session, packet },
        Inbound::Wrong(bad) => Call::Bad { session, bad },
    }
}

/// Makes one call.
pub(crate) fn call<R: Wait, D: Disk>(
    rt: &R,
    room: &RoomLock<KeptRoom<D>>,
    pass: &mut Pass<KeptRoom<D>>,
    asked: Call,
) -> Reply
    requires lock { pass.old.lock ≡ room.now }
    ensures made { Makes pass.old ((asked, result) ∷ []) pass.new }
{
    room.act(rt, pass, asked)
}

/// Sends the texts, up to the first that isn't taken.
fn send_all<L: Link>(link: &mut L, texts: &[Text]) -> Option<Ended>
    ensures { SendsAll L.heard L.sent L.faults L.opened texts.now link.old result link.new }
{
    for text in texts {
        match link.send(text) {
            Ok(()) => {}
            Err(LinkError::Failed) => return Some(Ended::LinkFault),
            Err(LinkError::Memory) => return Some(Ended::Memory),
        }
    }
    None
}

/// Takes the session's messages and sends them.
fn take_all<R: Wait, L: Link, D: Disk>(
    rt: &R,
    alloc: Global,
    link: &mut L,
    room: &RoomLock<KeptRoom<D>>,
    pass: &mut Pass<KeptRoom<D>>,
    session: SessionId,
) -> Option<Ended>
    requires lock { pass.old.lock ≡ room.now }
    ensures { TakesAll L.heard L.sent L.faults L.opened session pass.old link.old result
        pass.new link.new }
{
    let reply = call(rt, room, pass, Call::Take { session });
    if let Some(ended) = end_by(&reply) {
        return Some(ended);
    }
    let texts = texts_of(alloc, reply);
    send_all(link, texts.as_slice())
}

/// Makes the calls of the elements of a message, up to the first that ends the session.
fn act_all<R: Wait, D: Disk>(
    rt: &R,
    room: &RoomLock<KeptRoom<D>>,
    pass: &mut Pass<KeptRoom<D>>,
    session: SessionId,
    message: List<Inbound>,
) -> Option<Ended>
    requires lock { pass.old.lock ≡ room.now }
    ensures { Acts (map (call_for_lem session) (map inbound_view message)) pass.old result
        pass.new }
{
    for element in message.into_vec() {
        let reply = call(rt, room, pass, call_for(session, element));
        if let Some(ended) = end_by(&reply) {
            return Some(ended);
        }
    }
    None
}

/// Acts on a text.
fn act_on<R: Wait, D: Disk>(
    rt: &R,
    alloc: Global,
    room: &RoomLock<KeptRoom<D>>,
    pass: &mut Pass<KeptRoom<D>>,
    session: SessionId,
    text: &Text,
) -> Option<Ended>
    requires lock { pass.old.lock ≡ room.now }
    ensures { Acts (asks session text.now) pass.old result pass.new }
{
    match packets_of(alloc, text) {
        Ok(message) => act_all(rt, room, pass, session, message),
        Err(_) => Some(Ended::Memory),
    }
}

/// How many bytes a text has.
fn length_of(text: &Text) -> u64
    ensures { result ≡ length text.now }
{
    text.as_str().len() as u64
}

/// Acts on a text, unless it is too long.
fn heed_words<R: Wait, D: Disk>(
    rt: &R,
    alloc: Global,
    room: &RoomLock<KeptRoom<D>>,
    pass: &mut Pass<KeptRoom<D>>,
    session: SessionId,
    text: &Text,
) -> Option<Ended>
    requires lock { pass.old.lock ≡ room.now }
    ensures { Heeds session (Heard.Words text.now) pass.old result pass.new }
{
    let bytes = length_of(text);
    if bytes > LIMIT {
        return Some(Ended::TooLong { bytes });
    }
    act_on(rt, alloc, room, pass, session, text)
}

/// A text that is no JSON.
fn no_json(alloc: Global) -> Text
    ensures { result ≡ no_json }
{
    Text::from_string(String::new(alloc))
}

/// Acts on a message that is no text.
fn heed_binary<R: Wait, D: Disk>(
    rt: &R,
    alloc: Global,
    room: &RoomLock<KeptRoom<D>>,
    pass: &mut Pass<KeptRoom<D>>,
    session: SessionId,
) -> Option<Ended>
    requires lock { pass.old.lock ≡ room.now }
    ensures { Heeds session Heard.Binary pass.old result pass.new }
{
    let text = no_json(alloc);
    act_on(rt, alloc, room, pass, session, &text)
}

/// Acts on what was heard.
fn heed<R: Wait, D: Disk>(
    rt: &R,
    alloc: Global,
    room: &RoomLock<KeptRoom<D>>,
    pass: &mut Pass<KeptRoom<D>>,
    session: SessionId,
    heard: &Heard,
) -> Option<Ended>
    requires lock { pass.old.lock ≡ room.now }
    ensures { Heeds session heard.now pass.old result pass.new }
{
    match heard {
        Heard::Words(text) => heed_words(rt, alloc, room, pass, session, text),
        Heard::Binary => heed_binary(rt, alloc, room, pass, session),
        Heard::NotYet => None,
        Heard::End => Some(Ended::Closed),
    }
}

/// One turn: takes and sends, hears once, and acts on it.
fn turn<R: Wait, L: Link, D: Disk>(
    rt: &R,
    alloc: Global,
    link: &mut L,
    room: &RoomLock<KeptRoom<D>>,
    pass: &mut Pass<KeptRoom<D>>,
    session: SessionId,
) -> Option<Ended>
    requires lock { pass.old.lock ≡ room.now }
    ensures { Turned L.heard L.sent L.faults L.opened session pass.old link.old result
        pass.new link.new }
{
    if let Some(ended) = take_all(rt, alloc, link, room, pass, session) {
        return Some(ended);
    }
    match link.recv() {
        Ok(heard) => heed(rt, alloc, room, pass, session, &heard),
        Err(LinkError::Failed) => Some(Ended::LinkFault),
        Err(LinkError::Memory) => Some(Ended::Memory),
    }
}

/// Turn after turn, to the session's end.
fn talk<R: Wait, L: Link, D: Disk>(
    rt: &R,
    alloc: Global,
    link: &mut L,
    room: &RoomLock<KeptRoom<D>>,
    pass: &mut Pass<KeptRoom<D>>,
    session: SessionId,
) -> Ended
    requires lock { pass.old.lock ≡ room.now }
    ensures { Turned L.heard L.sent L.faults L.opened session pass.old link.old (Some result)
        pass.new link.new }
{
    for _ in rt.forever() {
        if let Some(ended) = turn(rt, alloc, link, room, pass, session) {
            return ended;
        }
    }
    unreachable!()
}

/// The cause of a reply that the room has stopped.
pub(crate) fn stop_by(reply: &Reply) -> Option<StopCause>
    ensures { result ≡ stop_by reply.now }
{
    match reply {
        Reply::Stopped(cause) => Some(*cause),
        _ => None,
    }
}

/// The cause of a session's end where the room has stopped.
fn stop_at(ended: Ended) -> Option<StopCause>
    ensures { result ≡ stop_at ended }
{
    match ended {
        Ended::Stopped(cause) => Some(cause),
        _ => None,
    }
}

/// Loses an ended session, unless it is gone or the room has stopped, and tells whether the room
/// was found stopped by then.
fn close<R: Wait, D: Disk>(
    rt: &R,
    room: &RoomLock<KeptRoom<D>>,
    pass: &mut Pass<KeptRoom<D>>,
    session: SessionId,
    ended: Ended,
) -> Option<StopCause>
    requires lock { pass.old.lock ≡ room.now }
    ensures { ClosesBy session ended pass.old result pass.new }
{
    match ended {
        Ended::Gone => None,
        Ended::Stopped(_) => None,
        _ => {
            let reply = call(rt, room, pass, Call::Lost { session });
            stop_by(&reply)
        }
    }
}

/// Serves a link to the end of its session, which is opened at this time, in whole seconds. It
/// answers the session's number, where the room gave one, and why it ended.
///
/// The session takes its messages and sends them, hears once, makes the call of each packet that it
/// heard, in order, and begins again. A message that is no text counts as a text that is no JSON.
/// An ended session is lost by one call more, unless it is gone or the room has stopped; what that
/// call is answered changes no end.
///
/// `Closed` comes exactly where the link gave its end, `TooLong` exactly at a text of more than
/// 524,288 bytes, `LinkFault` only where the link's count of faults rose, and `Overrun`, `Gone` and
/// `Stopped` exactly where a call before the last one was so answered. All that the session's takes
/// were answered was sent, in order, but where it ends by `LinkFault` or `Memory`: then some front
/// of it. Where no other pass takes the session's messages or ends it, what they were answered are
/// the first of all messages that the session was owed.
///
/// It waits for its turns on the room, and as long as the link does.
pub fn serve_session<R: Wait, L: Link, D: Disk>(
    rt: &R,
    alloc: Global,
    link: &mut L,
    room: &RoomLock<KeptRoom<D>>,
    mut pass: Pass<KeptRoom<D>>,
    time: u64,
) -> (Pass<KeptRoom<D>>, Option<SessionId>, Ended)
    requires lock { pass.lock ≡ room.now }
    ensures served { Serves L.heard L.sent L.faults L.opened time pass link.old
        result.1 result.2 result.0 link.new }
    ensures own { IsTrueTo (MayReply D.may_leave) result.0 }
    ensures owed { ServesOwed D.may_leave pass result.1 result.0 }
{
    // The law of lives, by which what was taken is told from what was owed.
    lives_keep();
    let (session, ended, _) = serve(rt, alloc, link, room, &mut pass, time);
    pass.tells_truly();
    (pass, session, ended)
}

/// Serves a link to the end of its session; also tells why the room has stopped, where one of the
/// session's calls was so answered.
pub(crate) fn serve<R: Wait, L: Link, D: Disk>(
    rt: &R,
    alloc: Global,
    link: &mut L,
    room: &RoomLock<KeptRoom<D>>,
    pass: &mut Pass<KeptRoom<D>>,
    time: u64,
) -> (Option<SessionId>, Ended, Option<StopCause>)
    requires lock { pass.old.lock ≡ room.now }
    ensures { Runs L.heard L.sent L.faults L.opened time pass.old link.old
        result.0 result.1 result.2 pass.new link.new }
{
    let reply = call(rt, room, pass, Call::Open { time });
    let session = match reply {
        Reply::Opened(session) => session,
        Reply::Gone => return (None, Ended::Gone, None),
        Reply::Overrun => return (None, Ended::Overrun, None),
        Reply::Stopped(cause) => return (None, Ended::Stopped(cause), Some(cause)),
        Reply::Done => return (None, Ended::Memory, None),
        Reply::Messages(_) => return (None, Ended::Memory, None),
        Reply::Memory => return (None, Ended::Memory, None),
    };
    let ended = talk(rt, alloc, link, room, pass, session);
    let lost = close(rt, room, pass, session, ended);
    (Some(session), ended, stop_at(ended).or(lost))
}
