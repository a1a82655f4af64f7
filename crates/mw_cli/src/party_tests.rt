//! Three players: generated, checked, and played over links.
ghost use Rattle.std.specs.Prelude.{◌≡◌, IfOk};
ghost use Rattle.mw_peers.specs.Peers.{new_peer};

use crate::harness::{Run, runs_tell, told};
use crate::large_tests::{Form, World, folder_with};
use crate::serve_harness::{put, served};
use mw_base::{List, Text};
use mw_link::SteadyGate;
use mw_peers::{Coming, WaitingLink};
use mw_session::Served;
use std::alloc::Global;
use std::collections::VecDeque;
use std::sync::Arc;
use std::sync::atomic::AtomicU32;
use std::test::Fail;

/// Players with one entry in each option.
const PARTY: &str =
    r#"{"format":"mw-players-1","teams":2,"room":{"password":"pw","hint_cost":10},"players":[{"names":["Ann","Dan"],"world":"a","options":{"local_items":["Key"],"non_local_items":["Gem"],"exclude_locations":["L1"],"priority_locations":["L2"],"start_inventory":{"Coin":1}}},{"names":["Bob","Eve"],"world":"b","options":{"local_items":["Key"],"non_local_items":["Gem"],"exclude_locations":["L1"],"priority_locations":["L2"],"start_inventory":{"Coin":1}}},{"names":["Cat","Fay"],"world":"c","options":{"local_items":["Key"],"non_local_items":["Gem"],"exclude_locations":["L1"],"priority_locations":["L2"],"start_inventory":{"Coin":1}}}]}"#;

/// A world of the party: ten locations are free, and the others want the Key, which the goal wants
/// too.
const PARTY_WORLD: Form<'static> = Form {
    text: r#"{"format":"mw-world-1","game":"$0","regions":["Menu"],"entrances":[],"items":[{"name":"Key","id":1,"class":"progression"},{"name":"Gem","id":2,"class":"useful"},{"name":"Coin","id":3,"class":"filler"}],"locations":[{"name":"L1","id":1,"region":"Menu","rule":true}$1$2],"pool":[{"item":"Key","count":1},{"item":"Gem","count":5}],"filler":"Coin","goal":{"has":"Key"}}"#,
    lists: [
        (r#",{"name":"L#","id":#,"region":"Menu","rule":true}"#, 2),
        (
            r#",{"name":"L#","id":#,"region":"Menu","rule":{"has":"Key"}}"#,
            11,
        ),
    ],
    pad: "",
};

/// Worlds of 60, 80 and 40 locations.
const PARTY_WORLDS: [World<'static>; 3] = [
    ("a", "a", 11, 61),
    ("b", "b", 11, 81),
    ("c", "c", 11, 41),
];

const PARTY_RUNS: [Run<'static>; 3] = [
    (
        "generate p o --seed 7",
        "",
        "0 seed 7 try 0 spheres 1\n1 Ann: L2 -> Ann: Key\n1 Bob: L2 -> Bob: Key\n1 Cat: L2 -> Cat: Key\n",
    ),
    (
        "check p o",
        "",
        "0 ok spheres 1\n1 Ann: L2 -> Ann: Key\n1 Bob: L2 -> Bob: Key\n1 Cat: L2 -> Cat: Key\n",
    ),
    ("new-room o j", "", "0 room made\n"),
];

/// The players: a name, a game, and the number of locations.
const PLAYERS: [(&str, &str, u64); 3] = [("Ann", "a", 60), ("Bob", "b", 80), ("Cat", "c", 40)];

/// What a player's client sends first.
fn connect(alloc: Global, player: &(&str, &str, u64)) -> Result<String, Fail> {
    let form =
        r#"[{"cmd":"Connect","game":"$1","items_handling":7,"name":"$0","password":"pw","tags":["NoText"],"version":{"build":0,"major":0,"minor":5}}]"#;
    let text = form.replace(alloc, "$0", player.0)?;
    Ok(text.replace(alloc, "$1", player.1)?)
}

/// That it checked all of its locations.
fn checks_all(alloc: Global, player: &(&str, &str, u64)) -> Result<String, Fail> {
    let mut text = String::from_str(alloc, r#"[{"cmd":"LocationChecks","locations":[1"#)?;
    for number in 2..=player.2 {
        text.push_str(format!(in alloc; ",{number}")?.as_str())?;
    }
    text.push_str("]}]")?;
    Ok(text)
}

/// A player's first link, over which all is checked. It gives a sign once that is answered.
fn first_link(
    alloc: Global,
    player: &(&str, &str, u64),
    signs: &Arc<AtomicU32>,
) -> Result<WaitingLink, Fail>
    ensures { IfOk result (λ link. link ≡ new_peer) }
{
    let mut first = VecDeque::new(alloc);
    put(alloc, &mut first, connect(alloc, player)?.as_str())?;
    put(alloc, &mut first, checks_all(alloc, player)?.as_str())?;
    let coming = Coming {
        first,
        wanted: 0,
        then: VecDeque::new(alloc),
    };
    let signs = Arc::try_clone(signs)?;
    Ok(WaitingLink::new(alloc, coming, signs, Some("RoomUpdate")))
}

/// The next one: it connects again, and sends one Sync once all has been checked.
fn next_link(
    alloc: Global,
    player: &(&str, &str, u64),
    signs: &Arc<AtomicU32>,
) -> Result<WaitingLink, Fail>
    ensures { IfOk result (λ link. link ≡ new_peer) }
{
    let mut first = VecDeque::new(alloc);
    put(alloc, &mut first, connect(alloc, player)?.as_str())?;
    let mut then = VecDeque::new(alloc);
    put(alloc, &mut then, r#"[{"cmd":"Sync"}]"#)?;
    let coming = Coming {
        first,
        wanted: 3,
        then,
    };
    Ok(WaitingLink::new(alloc, coming, Arc::try_clone(signs)?, None))
}

/// A gate that gives each player's first link, and then each player's next one.
fn gate_of(alloc: Global) -> Result<SteadyGate<WaitingLink>, Fail>
    ensures { IfOk result (λ gate. gate.given ≡ 0) }
{
    let [ann, bob, cat] = &PLAYERS;
    let signs = Arc::new(alloc, AtomicU32::new(0))?;
    let mut links = VecDeque::new(alloc);
    links.push_back(first_link(alloc, ann, &signs)?)?;
    links.push_back(first_link(alloc, bob, &signs)?)?;
    links.push_back(first_link(alloc, cat, &signs)?)?;
    links.push_back(next_link(alloc, ann, &signs)?)?;
    links.push_back(next_link(alloc, bob, &signs)?)?;
    links.push_back(next_link(alloc, cat, &signs)?)?;
    Ok(SteadyGate::new(links))
}

/// A script in which the players connect, each on the session of the number of its slot, and take
/// what that owes them.
fn script_for(alloc: Global) -> Result<String, Fail> {
    let mut script = String::new(alloc);
    for (player, slot) in PLAYERS.iter().zip(1u64..) {
        let text = connect(alloc, player)?;
        let text = text.as_str();
        script.push_str(format!(in alloc; "open\ntext {slot} {text}\ntake {slot}\n")?.as_str())?;
    }
    let _ = script.pop();
    Ok(script)
}

/// The packet that a message of one packet has.
fn packet_of(message: &str) -> Option<&str> {
    message.strip_prefix("[")?.strip_suffix("]")
}

/// The slot that a link's session plays, and what it was told last, where that is its whole list.
fn whole_list(texts: &[Text]) -> Option<(u64, &str)> {
    let last = texts.last()?.as_str();
    if !last.starts_with(r#"[{"cmd":"ReceivedItems","index":0,"#) {
        return None;
    }
    let slot = texts.iter().find_map(|text| slot_in(text.as_str()))?;
    Some((slot, packet_of(last)?))
}

/// The slot that Connected names.
fn slot_in(text: &str) -> Option<u64> {
    let (_, behind) = text.split_once(r#"],"slot":"#)?;
    let (digits, _) = behind.split_once(",")?;
    digits.parse::<u64>().ok()
}

/// Whether the session of a slot's number was told a list.
fn tells(told: &str, slot: u64, list: &str) -> bool {
    told.lines()
        .any(|line| is_of(line, slot) && line.contains(list))
}

/// Whether a line is that of a session of this number.
fn is_of(line: &str, session: u64) -> bool {
    match line.split_once(" ") {
        Some((digits, _)) => {
            let number = digits.parse::<u64>().ok();
            number.is_some_and(|number| number == session)
        }
        None => false,
    }
}

/// How many sessions were told a whole list last that the journal's room tells its slot too.
fn agreeing(served: &List<List<Served<WaitingLink>>>, told: &str) -> u64 {
    let mut agreeing = 0u64;
    for list in served.as_slice() {
        for entry in list.as_slice() {
            if let Some((slot, list)) = whole_list(entry.line.sent()) {
                if tells(told, slot, list) {
                    agreeing = agreeing.saturating_add(1);
                }
            }
        }
    }
    agreeing
}

/// Each Key lies at the priority location of its player's own world. Each player checks all
/// locations over one link, and connects again over another, where a Sync is answered with all that
/// the slot received by the journal.
#[test]
fn party(rt: HostRuntime) -> Result<(), Fail> {
    let alloc = rt.alloc();
    let mut folder = folder_with(alloc, PARTY, &PARTY_WORLD, &PARTY_WORLDS)?;
    runs_tell(&rt, alloc, &mut folder, "", &PARTY_RUNS, "")?;
    let line = "serve o j --bind 127.0.0.1:38281 --workers 2 --accept 6";
    let gate = gate_of(alloc)?;
    let served = served(&rt, alloc, &mut folder, gate, line, "sessions 6\n")?;
    let script = script_for(alloc)?;
    let told = told(&rt, alloc, &mut folder, "drive o j", script.as_str(), "")?;
    assert!(rt; agreeing(&served, told.as_str()) == 3);
    Ok(())
}
