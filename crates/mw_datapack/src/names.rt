ghost use Rattle.std.specs.Prelude.{◌≡◌, IfOk};
ghost use Rattle.hex.specs.Hex.{encode_lower};
ghost use Rattle.sha1.specs.Sha1.{sha1};
ghost use Rattle.mw_model.specs.Games.{checksum_of};

use mw_base::{Memory, Text};
use mw_json::compact_text;
use mw_multidata::{Game, game_tree};
use sha1::Sha1;
use std::alloc::Global;

/// SHA-1 in lower-case hexadecimal.
fn digest_of(alloc: Global, text: &str) -> Result<Text, Memory>
    ensures { IfOk result (λ t. t ≡ encode_lower (sha1 text.now)) }
{
    let digest = Sha1::digest(text.as_bytes());
    Ok(Text::from_string(hex::encode(alloc, digest)?))
}

/// The checksum of a game: SHA-1, in lower-case hexadecimal, of the compact text of its names.
#[tactic(auto, unfolding(mw_model::specs::Games::checksum_of))]
pub fn checksum_of_game(alloc: Global, game: &Game) -> Result<Text, Memory>
    ensures { IfOk result (λ t. t ≡ checksum_of game.now) }
{
    let tree = game_tree(alloc, game)?;
    let text = compact_text(alloc, &tree)?;
    digest_of(alloc, text.as_str())
}
