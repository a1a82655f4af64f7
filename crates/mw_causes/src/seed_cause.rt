//! Why a seed file is refused.
ghost use Rattle.std.specs.Prelude.{◌≡◌, IfOk, string_bytes};
ghost use Rattle.mw_causes.specs.SeedFiles.{seed_line};
ghost use Rattle.mw_causes.specs.declared.seed_cause.SeedCause.TheVariants.{File};

use crate::stop::Cause;
use mw_base::Memory;
use mw_json::{Kind, Path, kind_word, path_words};
use std::alloc::Global;

/// Why a seed file is refused.
#[derive(Drop)]
pub enum SeedCause {
    /// What it says.
    File {
        /// The cause.
        kind: Kind,
        /// Where it stands.
        path: Path,
    },
    /// It is longer than 67,108,864 bytes.
    TooLong,
}

/// The line of a seed file that says what is refused.
fn file_line(alloc: Global, kind: Kind, path: &Path) -> Result<String, Memory>
    ensures { IfOk result (λ t. string_bytes t ≡ seed_line (File kind path.now)) }
{
    let word = kind_word(kind);
    let place = path_words(alloc, path)?;
    let place = place.as_str();
    Ok(format!(in alloc; "multidata refused: {word} {place}\n")?)
}

impl Cause for SeedCause {
    ghost use Rattle.mw_causes.specs.SeedFiles.{seed_status, seed_line};

    ghost status_of = { seed_status };

    ghost line_of = { seed_line };

    fn status(&self) -> u8 {
        7
    }

    fn line(&self, alloc: Global) -> Result<String, Memory> {
        match self {
            SeedCause::File { kind, path } => file_line(alloc, *kind, path),
            SeedCause::TooLong => Ok(String::from_str(alloc, "multidata refused: TooLong /\n")?),
        }
    }
}
