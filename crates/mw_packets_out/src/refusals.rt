ghost use Rattle.std.specs.Prelude.{◌≡◌, IfOk};
ghost use Rattle.mw_model.specs.Json.{IsWritable};
ghost use Rattle.mw_protocol.specs.Messages.{connection_refused_json, invalid_packet_json, kind_text, text_or_null};
ghost use Rattle.mw_json.specs.View.{view};
ghost use Rattle.mw_packets_out.specs.View.{kind_view};

use crate::lists::texts_tree;
use crate::packet::InvalidKind;
use mw_base::{Memory, Text};
use mw_json::{Field, Tree, object, words_tree};
use std::alloc::Global;

/// Why a Connect is refused, as an object.
pub(crate) fn connection_refused_tree(alloc: Global, errors: &[Text]) -> Result<Tree, Memory>
    ensures value { IfOk result (λ t. view t ≡ connection_refused_json errors.now) }
    ensures writable { IfOk result (λ t. IsWritable (view t)) }
{
    object(
        alloc,
        &mut [
            ("cmd", Field::Words("ConnectionRefused")),
            ("errors", Field::Built(texts_tree(alloc, errors))),
        ],
    )
}

/// A text, or null where there is none.
fn text_or_null_tree(alloc: Global, text: &Option<Text>) -> Result<Tree, Memory>
    ensures value { IfOk result (λ t. view t ≡ text_or_null text.now) }
    ensures writable { IfOk result (λ t. IsWritable (view t)) }
{
    match text {
        Some(there) => words_tree(alloc, there.as_str()),
        None => Ok(Tree::Null),
    }
}

/// A kind's word.
fn kind_word(kind: InvalidKind) -> &'static str
    ensures { result.now ≡ kind_text (kind_view kind) }
{
    match kind {
        InvalidKind::Cmd => "cmd",
        InvalidKind::Arguments => "arguments",
    }
}

/// What is no packet or can't be done, as an object.
pub(crate) fn invalid_packet_tree(
    alloc: Global,
    kind: InvalidKind,
    original_cmd: &Option<Text>,
    text: &Text,
) -> Result<Tree, Memory>
    ensures value { IfOk result (λ t. view t
        ≡ invalid_packet_json record {
          kind = kind_view kind;
          cmd = original_cmd.now;
          why = text.now;
        }) }
    ensures writable { IfOk result (λ t. IsWritable (view t)) }
{
    object(
        alloc,
        &mut [
            ("cmd", Field::Words("InvalidPacket")),
            (
                "original_cmd",
                Field::Built(text_or_null_tree(alloc, original_cmd)),
            ),
            ("text", Field::Words(text.as_str())),
            ("type", Field::Words(kind_word(kind))),
        ],
    )
}
