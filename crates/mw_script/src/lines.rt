ghost use Rattle.std.specs.Prelude.{◌≡◌, ◌<◌, ◌≤◌, MatchOption, length};
ghost use Rattle.std.specs.List.{position_or_len, before_first, after_first};
ghost use Rattle.mw_script.specs.Lines.{is_end};

/// The length of the first line, without its end.
fn line_len(bytes: &[u8]) -> usize
    ensures value { result ≡ position_or_len is_end bytes.now }
    ensures within { result ≤ length bytes.now }
{
    for (at, byte) in bytes.iter().enumerate() {
        if *byte == b'\n' {
            return at;
        }
    }
    bytes.len()
}

/// The first line, which may lack its end, and what follows it.
pub fn split_line(bytes: &[u8]) -> (&[u8], &[u8])
    ensures line { result.0.now ≡ before_first is_end bytes.now }
    ensures rest { result.1.now ≡ after_first is_end bytes.now }
{
    let end = line_len(bytes);
    if end < bytes.len() {
        (&bytes[..end], &bytes[end + 1..])
    } else {
        (bytes, &bytes[end..])
    }
}

/// The first line, and what follows its end; None where no line ends.
pub(crate) fn split_ended(bytes: &[u8]) -> Option<(&[u8], &[u8])>
    ensures { MatchOption result (position_or_len is_end bytes.now ≡ length bytes.now)
        (λ p. (position_or_len is_end bytes.now < length bytes.now)
        × (p.0.now ≡ before_first is_end bytes.now) × (p.1.now ≡ after_first is_end bytes.now)) }
{
    let end = line_len(bytes);
    if end < bytes.len() {
        Some((&bytes[..end], &bytes[end + 1..]))
    } else {
        None
    }
}
