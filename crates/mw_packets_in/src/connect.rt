ghost use Rattle.mw_json.specs.View.{view, members_view};
ghost use Rattle.mw_json.specs.Grammar.{Gives, GivesBy};
ghost use Rattle.mw_packets_in.specs.Kept.{AreRead};
ghost use Rattle.mw_packets_in.specs.Rows.{connect_at, connect_update_at, get_data_package_at, say_at, version_at};
ghost use Rattle.mw_protocol.specs.Packets.{connect};
ghost use Rattle.mw_packets_in.specs.View.{packet_view};

use crate::packet::{Packet, boxed};
use crate::parts::{mask_in, text_in, texts_in, whole_in};
use mw_base::{List, Text};
use mw_json::{Member, Refusal, Tree, field_if, field_in, field_or, null_or, object_of};
use std::alloc::Global;
use std::marker::Model;

/// The version that a client speaks; in a Connect each number is from -2^63 to 2^64 - 1.
#[derive(Clone, Copy)]
pub struct Version {
    /// The first number.
    pub major: i128,
    /// The second number.
    pub minor: i128,
    /// The third number.
    pub build: i128,
}

impl Model for Version {
    ghost use Rattle.mw_protocol.specs.Packets as plain;

    ghost Value = { plain.Version };

    ghost view = { λ v. record { major = v.major; minor = v.minor; build = v.build } };

    ghost inverse = { λ v. record { major = v.major; minor = v.minor; build = v.build } };
}

/// What a session that wants to play a slot says of itself.
#[derive(Drop)]
pub struct Connect {
    /// The slot's name in its team.
    pub name: Text,
    /// The room's password; none where it is null or absent.
    pub password: Option<Text>,
    /// The game that is played; none where it is null or absent.
    pub game: Option<Text>,
    /// The client's version.
    pub version: Version,
    /// Which items the session wants to hear of, from -2^63 to 2^64 - 1; none where it is null or
    /// absent.
    pub items_handling: Option<i128>,
    /// What kind of client it is; none where it is absent.
    pub tags: Option<List<Text>>,
}

impl Model for Connect {
    ghost use Rattle.mw_protocol.specs.Packets as plain;
    ghost use Rattle.mw_packets_in.specs.Kept.{IsConnect};

    ghost Value = { plain.Connect };

    ghost view = { λ c. record {
      name = c.name;
      password = c.password;
      game = c.game;
      version = c.version;
      items_handling = c.items_handling;
      tags = c.tags;
    } };

    ghost invariant = { λ c. IsConnect record {
      name = c.name;
      password = c.password;
      game = c.game;
      version = c.version;
      items_handling = c.items_handling;
      tags = c.tags;
    } };
}

/// What a session changes about itself.
#[derive(Drop)]
pub struct ConnectUpdate {
    /// Which items the session wants to hear of: 0, 1, 3, 5 or 7; as before where it is absent.
    pub items_handling: Option<u8>,
    /// What kind of client it is; as before where it is absent.
    pub tags: Option<List<Text>>,
}

impl Model for ConnectUpdate {
    ghost use Rattle.mw_protocol.specs.Packets as plain;
    ghost use Rattle.mw_packets_in.specs.Kept.{HasMask};

    ghost Value = { plain.ConnectUpdate };

    ghost view = { λ u. record { items_handling = u.items_handling; tags = u.tags } };

    ghost invariant = { λ u. HasMask u.items_handling };
}

/// A version: an object with three whole numbers.
#[tactic(auto, unfolding(crate::specs::Rows::version_at))]
fn version_of(alloc: Global, tree: &Tree) -> Result<Version, Refusal>
    ensures { Gives result (version_at (view tree.now)) }
{
    let members = object_of(alloc, tree)?;
    let major = field_in(alloc, members, "major", whole_in)?;
    let minor = field_in(alloc, members, "minor", whole_in)?;
    let build = field_in(alloc, members, "build", whole_in)?;
    Ok(Version {
        major,
        minor,
        build,
    })
}

/// A Connect's members.
#[tactic(auto, unfolding(crate::specs::Rows::connect_at))]
fn fields_of(alloc: Global, members: &[Member]) -> Result<Connect, Refusal>
    requires { AreRead 62 (members_view members.now) }
    ensures { GivesBy connect result (connect_at (members_view members.now)) }
{
    let name = field_in(alloc, members, "name", text_in)?;
    let password = field_or(alloc, members, "password", None, |a, t| {
        null_or(a, t, text_in)
    })?;
    let game = field_or(alloc, members, "game", None, |a, t| null_or(a, t, text_in))?;
    let version = field_in(alloc, members, "version", version_of)?;
    let items_handling = field_or(alloc, members, "items_handling", None, |a, t| {
        null_or(a, t, whole_in)
    })?;
    let tags = field_if(alloc, members, "tags", texts_in)?;
    Ok(Connect {
        name,
        password,
        game,
        version,
        items_handling,
        tags,
    })
}

/// A Connect.
pub(crate) fn connect_of(alloc: Global, members: &[Member]) -> Result<Packet, Refusal>
    requires { AreRead 62 (members_view members.now) }
    ensures { GivesBy packet_view result (connect_at (members_view members.now)) }
{
    let fields = fields_of(alloc, members)?;
    Ok(Packet::Connect(boxed(alloc, fields)?))
}

/// The members of a ConnectUpdate.
#[tactic(auto, unfolding(crate::specs::Rows::connect_update_at))]
pub(crate) fn connect_update_of(alloc: Global, members: &[Member]) -> Result<Packet, Refusal>
    ensures { GivesBy packet_view result (connect_update_at (members_view members.now)) }
{
    let items_handling = field_if(alloc, members, "items_handling", mask_in)?;
    let tags = field_if(alloc, members, "tags", texts_in)?;
    Ok(Packet::ConnectUpdate(ConnectUpdate {
        items_handling,
        tags,
    }))
}

/// The members of a Say.
#[tactic(auto, unfolding(crate::specs::Rows::say_at))]
pub(crate) fn say_of(alloc: Global, members: &[Member]) -> Result<Packet, Refusal>
    ensures { GivesBy packet_view result (say_at (members_view members.now)) }
{
    let text = field_in(alloc, members, "text", text_in)?;
    Ok(Packet::Say { text })
}

/// The members of a GetDataPackage.
#[tactic(auto, unfolding(crate::specs::Rows::get_data_package_at))]
pub(crate) fn get_data_package_of(alloc: Global, members: &[Member]) -> Result<Packet, Refusal>
    ensures { GivesBy packet_view result (get_data_package_at (members_view members.now)) }
{
    let games = field_if(alloc, members, "games", texts_in)?;
    Ok(Packet::GetDataPackage { games })
}
