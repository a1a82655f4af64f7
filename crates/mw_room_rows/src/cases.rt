//! How the cases of a table are tried, and texts compared.
use mw_base::Text;
use std::alloc::Global;
use std::test::Fail;

/// What the cases of a table are about.
pub(crate) trait Theme {
    /// The answer to a case, whose last part is the one that is wanted.
    fn answer(alloc: Global, case: &str) -> Result<Text, Fail>;
}

/// What a case wants: what stands behind its last mark. A case without one, as where a blank at the
/// end of its line is lost, wants what is never answered.
fn wanted(case: &str) -> &str {
    match case.rsplit_once(" | ") {
        Some((_, wanted)) => wanted,
        None => "no mark",
    }
}

/// Fails where a case's answer is another one than it wants.
pub(crate) fn check(case: &str, answer: &str) -> Result<(), Fail> {
    if answer == wanted(case) {
        return Ok(());
    }
    Err(Fail::new(case))
}

/// Fails at the first line of a table that isn't answered as it wants.
pub(crate) fn each<T: Theme>(alloc: Global, cases: &str) -> Result<(), Fail> {
    for case in cases.split('\n') {
        check(case, T::answer(alloc, case)?.as_str())?;
    }
    Ok(())
}

/// Fails, with both texts, where another one is found than is wanted.
pub(crate) fn agree(found: &str, wanted: &str) -> Result<(), Fail> {
    if found == wanted {
        return Ok(());
    }
    Err(Fail::new(format_args!("{found} in place of {wanted}")))
}

/// Fails at the first of these that isn't so, with what is meant by it.
pub(crate) fn fine(all: &[(&str, bool)]) -> Result<(), Fail> {
    for (meant, is_so) in all {
        if !*is_so {
            return Err(Fail::new(*meant));
        }
    }
    Ok(())
}
