ghost use Rattle.std.specs.Prelude.{◌≡◌, ◌++◌, IfOk, OnOk};
ghost use Rattle.mw_numerals.specs.Marks.{unmarked, IsUnmarked};
ghost use Rattle.mw_numerals.specs.Pieces.{piece_text};
ghost use Rattle.mw_numerals.specs.View.{view};

use crate::piece::{Piece, first_piece};
use crate::put::{put_cut, put_quoted};
use std::alloc::{AllocError, Global};

/// A marked text as it was before: each string without its `s`, and each string that begins with
/// `n` as what follows that letter, without quotes. Other strings stay. The only error is that
/// memory ran out.
pub fn unmark(alloc: Global, bytes: &[u8]) -> Result<Vec<u8>, AllocError>
    ensures { IfOk result (λ u. IsUnmarked bytes.now u.items) }
{
    let mut out = Vec::with_capacity(alloc, bytes.len())?;
    let mut rest = bytes;
    while !rest.is_empty() {
        let (piece, after) = first_piece(rest);
        put_unmarked(&mut out, piece)?;
        rest = after;
    }
    Ok(out)
}

fn put_unmarked(out: &mut Vec<u8>, piece: Piece<'_>) -> Result<(), AllocError>
    ensures { OnOk result (out.new.items
        ≡ out.old.items ++ piece_text (unmarked (view piece.entry))) }
{
    match piece {
        Piece::Quoted([b's', inner @ ..]) => put_quoted(out, b"", inner),
        Piece::Quoted([b'n', numeral @ ..]) => out.extend_from_slice(numeral),
        Piece::Quoted(inner) => put_quoted(out, b"", inner),
        Piece::Cut([b's', inner @ ..]) => put_cut(out, b"", inner),
        Piece::Cut(inner) => put_cut(out, b"", inner),
        Piece::Run(run) => out.extend_from_slice(run),
        Piece::Other(byte) => {
            out.push(byte)?;
            Ok(())
        }
    }
}
