ghost use Rattle.std.specs.Prelude.{◌≡◌, ◌≤◌, ◌<◌, ◌^◌, ℕ, length, slice_index};
ghost use Rattle.mw_journal.specs.Opening.{gate_in};

use crate::journal::LIMIT;

/// What stands at a gate.
#[derive(Clone, Copy)]
pub(crate) enum Gate {
    /// It isn't open, and holds this byte.
    Shut(u8),
    /// It is open, and a body of this length stands behind it.
    Open(u32),
}

/// What at most five bytes from a gate on say; or the place of what is wrong.
pub(crate) fn judge_gate(place: u64, head: &[u8]) -> Result<Gate, u64>
    requires few { length head.now ≤ 5 }
    requires near { place ≤ 2 ^ 33 }
    ensures answer { result ≡ gate_in place head.now }
    ensures bytes { (i : ℕ) → slice_index head.now i < 256 }
{
    let [gate, rest @ ..] = head else {
        return Err(place);
    };
    if place >= LIMIT {
        return Err(place);
    }
    if *gate != 1 {
        return Ok(Gate::Shut(*gate));
    }
    let [a, b, c, d, ..] = rest else {
        return Err(place + 1);
    };
    let size = u32::from_be_bytes([*a, *b, *c, *d]);
    if size == 0 {
        return Err(place + 1);
    }
    Ok(Gate::Open(size))
}
