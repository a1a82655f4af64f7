ghost use Rattle.std.specs.Prelude.{◌≡◌, ◌++◌, OnOk};
ghost use Rattle.mw_numerals.specs.Pieces.{piece_text, quoted, cut};

use std::alloc::AllocError;

/// Puts a string that isn't closed: it begins with a mark, and `inner` follows.
pub(crate) fn put_cut(out: &mut Vec<u8>, mark: &[u8], inner: &[u8]) -> Result<(), AllocError>
    ensures { OnOk result (out.new.items
        ≡ out.old.items ++ piece_text (cut (mark.now ++ inner.now))) }
{
    out.push(b'"')?;
    out.extend_from_slice(mark)?;
    out.extend_from_slice(inner)
}

/// The same with the closing quote.
pub(crate) fn put_quoted(out: &mut Vec<u8>, mark: &[u8], inner: &[u8]) -> Result<(), AllocError>
    ensures { OnOk result (out.new.items
        ≡ out.old.items ++ piece_text (quoted (mark.now ++ inner.now))) }
{
    put_cut(out, mark, inner)?;
    out.push(b'"')?;
    Ok(())
}
