ghost use Rattle.std.specs.Prelude.{◌≡◌, ◌++◌, IfOk, OnOk, string_bytes, codes};
ghost use Rattle.mw_json.specs.Paths.{kind_text, step_text, steps_text, path_text};

use crate::refusal::{Kind, Path, Step};
use mw_base::{Memory, Text};
use std::alloc::Global;
use std::fmt::Write;

/// A kind's word.
pub fn kind_word(kind: Kind) -> &'static str
    ensures { result.now ≡ kind_text kind }
{
    match kind {
        Kind::NoJson => "NoJson",
        Kind::TooDeep => "TooDeep",
        Kind::MissingField => "MissingField",
        Kind::NotWhole => "NotWhole",
        Kind::WrongKind => "WrongKind",
        Kind::TooMany => "TooMany",
        Kind::NameTooLong => "NameTooLong",
        Kind::RuleTooLarge => "RuleTooLarge",
        Kind::OtherFormat => "OtherFormat",
        Kind::DuplicateName => "DuplicateName",
        Kind::DuplicateId => "DuplicateId",
        Kind::UnknownName => "UnknownName",
        Kind::RuleItemNotProgression => "RuleItemNotProgression",
        Kind::WrongOrder => "WrongOrder",
    }
}

fn put_step(out: &mut String, step: &Step) -> Result<(), Memory>
    ensures { OnOk result (string_bytes out.new
        ≡ string_bytes out.old ++ codes "/" ++ step_text step.now) }
{
    out.push_str("/")?;
    match step {
        Step::Name(name) => out.push_str(name.as_str())?,
        Step::Index(index) => write!(out, "{index}")?,
    }
    Ok(())
}

fn put_steps(out: &mut String, steps: &[Step]) -> Result<(), Memory>
    ensures { OnOk result (string_bytes out.new ≡ string_bytes out.old ++ steps_text steps.now) }
{
    let mut left = steps.len();
    while left > 0 {
        left -= 1;
        put_step(out, &steps[left])?;
    }
    Ok(())
}

/// A path as text: `/` for the whole, else each step after a slash.
pub fn path_words(alloc: Global, path: &Path) -> Result<Text, Memory>
    ensures { IfOk result (λ t. t ≡ path_text path.now) }
{
    let steps = path.as_slice();
    if steps.is_empty() {
        return Text::of(alloc, "/");
    }
    let mut out = String::new(alloc);
    put_steps(&mut out, steps)?;
    Ok(Text::from_string(out))
}
