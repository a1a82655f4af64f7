//! The commands, as `clap` reads their words.
ghost use Rattle.std.specs.Prelude.{◌≡◌, [], ◌∷◌, IfOk, false, true};
ghost use Rattle.clap.specs.Words.{app_of, new_rule, rule_of};
ghost use Rattle.mw_words.specs.Words.{command_app, word_rule, option_rule, seed_rule, tries_rule, generate_app, check_app, reach_app, new_room_app, drive_app};
ghost use Rattle.mw_words.specs.Words.{last_rule, bind_rule, workers_rule, accept_rule, room_app, serve_app, stress_app, pair_rule, thin_app};

use clap::{Arg, ArgAction, Command};
use std::alloc::{AllocError, Global};

/// A command of this name that offers no help and tells no version.
fn bare_command<'a>(alloc: Global, name: &'a str) -> Command<'a>
    ensures { app_of result ≡ command_app name.entry.now [] }
{
    Command::new(alloc, name)
        .disable_help_flag(true)
        .disable_version_flag(true)
}

/// A word that is required, and known by its place.
fn word<'a>(alloc: Global, id: &'a str) -> Arg<'a>
    ensures rule { rule_of result ≡ word_rule id.entry.now }
    ensures local { result.global ≡ false }
{
    Arg::new(alloc, id).required(true)
}

/// A word that may be missing, and is known by its place.
fn last_word<'a>(alloc: Global, id: &'a str) -> Arg<'a>
    ensures rule { rule_of result ≡ last_rule id.entry.now }
    ensures local { result.global ≡ false }
{
    Arg::new(alloc, id)
}

/// An option with one value.
fn option<'a>(alloc: Global, id: &'a str) -> Arg<'a>
    ensures rule { rule_of result ≡ option_rule id.entry.now }
    ensures local { result.global ≡ false }
{
    Arg::new(alloc, id).long(id)
}

/// `--seed N`, which is required.
fn seed_option<'a>(alloc: Global) -> Arg<'a>
    ensures rule { rule_of result ≡ seed_rule }
    ensures local { result.global ≡ false }
{
    option(alloc, "seed").required(true)
}

/// `--tries N`, 100 where it isn't there.
fn tries_option<'a>(alloc: Global) -> Arg<'a>
    ensures rule { rule_of result ≡ tries_rule }
    ensures local { result.global ≡ false }
{
    option(alloc, "tries").default_value("100")
}

/// `--bind ADDRESS`, which is required.
fn bind_option<'a>(alloc: Global) -> Arg<'a>
    ensures rule { rule_of result ≡ bind_rule }
    ensures local { result.global ≡ false }
{
    option(alloc, "bind").required(true)
}

/// `--workers N`, 32 where it isn't there.
fn workers_option<'a>(alloc: Global) -> Arg<'a>
    ensures rule { rule_of result ≡ workers_rule }
    ensures local { result.global ≡ false }
{
    option(alloc, "workers").default_value("32")
}

/// `--accept N`, which may be missing.
fn accept_option<'a>(alloc: Global) -> Arg<'a>
    ensures rule { rule_of result ≡ accept_rule }
    ensures local { result.global ≡ false }
{
    option(alloc, "accept")
}

/// `--pair`, which may be missing and has no value.
fn pair_flag<'a>(alloc: Global) -> Arg<'a>
    ensures rule { rule_of result ≡ pair_rule }
    ensures local { result.global ≡ false }
{
    option(alloc, "pair").action(ArgAction::SetTrue)
}

/// `generate PLAYERS OUT --seed N [--tries N]`
pub(crate) fn generate_command<'a>(alloc: Global) -> Result<Command<'a>, AllocError>
    ensures { IfOk result (λ c. app_of c ≡ generate_app) }
{
    bare_command(alloc, "generate")
        .arg(word(alloc, "players"))?
        .arg(word(alloc, "out"))?
        .arg(seed_option(alloc))?
        .arg(tries_option(alloc))
}

/// `check PLAYERS MULTIDATA`
pub(crate) fn check_command<'a>(alloc: Global) -> Result<Command<'a>, AllocError>
    ensures { IfOk result (λ c. app_of c ≡ check_app) }
{
    bare_command(alloc, "check")
        .arg(word(alloc, "players"))?
        .arg(word(alloc, "multidata"))
}

/// `reach PLAYERS`
pub(crate) fn reach_command<'a>(alloc: Global) -> Result<Command<'a>, AllocError>
    ensures { IfOk result (λ c. app_of c ≡ reach_app) }
{
    bare_command(alloc, "reach").arg(word(alloc, "players"))
}

/// A command of a seed file and a journal, or CHOICE.
fn room_command<'a>(alloc: Global, name: &'a str) -> Result<Command<'a>, AllocError>
    ensures { IfOk result (λ c. app_of c ≡ room_app name.entry.now) }
{
    bare_command(alloc, name)
        .arg(word(alloc, "multidata"))?
        .arg(word(alloc, "journal"))?
        .arg(pair_flag(alloc))
}

/// `new-room MULTIDATA JOURNAL [--pair]`
pub(crate) fn new_room_command<'a>(alloc: Global) -> Result<Command<'a>, AllocError>
    ensures { IfOk result (λ c. app_of c ≡ new_room_app) }
{
    room_command(alloc, "new-room")
}

/// `drive MULTIDATA [JOURNAL] [--pair]`
pub(crate) fn drive_command<'a>(alloc: Global) -> Result<Command<'a>, AllocError>
    ensures { IfOk result (λ c. app_of c ≡ drive_app) }
{
    bare_command(alloc, "drive")
        .arg(word(alloc, "multidata"))?
        .arg(last_word(alloc, "journal"))?
        .arg(pair_flag(alloc))
}

/// `serve MULTIDATA JOURNAL [--pair] --bind ADDRESS [--workers N] [--accept N]`
pub(crate) fn serve_command<'a>(alloc: Global) -> Result<Command<'a>, AllocError>
    ensures { IfOk result (λ c. app_of c ≡ serve_app) }
{
    room_command(alloc, "serve")?
        .arg(bind_option(alloc))?
        .arg(workers_option(alloc))?
        .arg(accept_option(alloc))
}

/// `stress N SEED`
pub(crate) fn stress_command<'a>(alloc: Global) -> Result<Command<'a>, AllocError>
    ensures { IfOk result (λ c. app_of c ≡ stress_app) }
{
    bare_command(alloc, "stress")
        .arg(word(alloc, "players"))?
        .arg(word(alloc, "seed"))
}

/// `thin MULTIDATA CHOICE`
pub(crate) fn thin_command<'a>(alloc: Global) -> Result<Command<'a>, AllocError>
    ensures { IfOk result (λ c. app_of c ≡ thin_app) }
{
    bare_command(alloc, "thin")
        .arg(word(alloc, "multidata"))?
        .arg(word(alloc, "choice"))
}
