ghost use Rattle.std.specs.Prelude.{◌≡◌};
ghost use Rattle.mw_multidata.specs.Digest.{digest_of};

use sha2::{Digest, Sha256};

/// The SHA-256 of a seed file's bytes (FIPS 180-4), which names it in a journal. It takes no
/// memory.
pub fn digest(bytes: &[u8]) -> [u8; 32]
    ensures { result ≡ digest_of bytes.now }
{
    Sha256::digest(bytes)
}
