ghost use Rattle.std.specs.Prelude.{◌≡◌, ◌++◌, IfOk, OnOk};
ghost use Rattle.mw_numerals.specs.Marks.{marked, IsMarked};
ghost use Rattle.mw_numerals.specs.Pieces.{IsPiece, piece_text};
ghost use Rattle.mw_numerals.specs.View.{view};

use crate::numeral::is_kept_run;
use crate::piece::{Piece, first_piece};
use crate::put::{put_cut, put_quoted};
use std::alloc::{AllocError, Global};

/// A JSON text, or any other, with the letter `s` after the opening quote of each string, and with
/// each numeral outside strings that is `-0`, has a fraction or an exponent, or lies outside -2^63
/// to 2^64 - 1 as a string: `n` and the numeral's characters. A numeral is a longest run of digits,
/// `+`, `-`, `.`, `e` and `E` that the grammar of numbers (RFC 8259) takes whole. The only error is
/// that memory ran out.
pub fn mark(alloc: Global, bytes: &[u8]) -> Result<Vec<u8>, AllocError>
    ensures { IfOk result (λ m. IsMarked bytes.now m.items) }
{
    let mut out = Vec::with_capacity(alloc, bytes.len())?;
    let mut rest = bytes;
    while !rest.is_empty() {
        let (piece, after) = first_piece(rest);
        put_marked(&mut out, piece)?;
        rest = after;
    }
    Ok(out)
}

fn put_marked(out: &mut Vec<u8>, piece: Piece<'_>) -> Result<(), AllocError>
    requires { IsPiece (view piece) }
    ensures { OnOk result (out.new.items
        ≡ out.old.items ++ piece_text (marked (view piece.entry))) }
{
    match piece {
        Piece::Quoted(inner) => put_quoted(out, b"s", inner),
        Piece::Cut(inner) => put_cut(out, b"s", inner),
        Piece::Run(run) => {
            if is_kept_run(run) {
                put_quoted(out, b"n", run)
            } else {
                out.extend_from_slice(run)
            }
        }
        Piece::Other(byte) => {
            out.push(byte)?;
            Ok(())
        }
    }
}
