ghost use Rattle.std.specs.Prelude.{◌≡◌, IfOk};
ghost use Rattle.mw_protocol.specs.Messages as plain;
ghost use Rattle.mw_protocol.specs.Packages.{package_json};
ghost use Rattle.mw_packets_out.specs.View.{packet_view};

use mw_base::{List, Memory, Text};
use mw_datapack::package;
use mw_multidata::RoomTables;
use mw_packets_out::{DataPackage, ServerPacket};
use std::alloc::Global;

/// The data package of the wanted games, or of all where none are named. Memory is its only error.
pub fn data_package(
    alloc: Global,
    tables: &RoomTables,
    wanted: &Option<List<Text>>,
) -> Result<ServerPacket, Memory>
    ensures { IfOk result (λ p. packet_view p
        ≡ plain.data_package (package_json tables.now wanted.now)) }
{
    let content = package(alloc, tables, wanted)?;
    Ok(ServerPacket::DataPackage(DataPackage { content }))
}
