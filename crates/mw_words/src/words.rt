ghost use Rattle.std.specs.Prelude.{◌≡◌, ℕ, List, Some, IfOk, codes, slice_get};
ghost use Rattle.clap.specs.Walk.{texts};
ghost use Rattle.mw_words.specs.declared.command_line.GenerateWords.{GenerateWords};
ghost use Rattle.mw_words.specs.declared.command_line.CheckWords.{CheckWords};
ghost use Rattle.mw_words.specs.declared.command_line.NewRoomWords.{NewRoomWords};
ghost use Rattle.mw_words.specs.declared.command_line.DriveWords.{DriveWords};
ghost use Rattle.mw_words.specs.declared.command_line.ServeWords.{ServeWords};
ghost use Rattle.mw_words.specs.declared.command_line.StressWords.{StressWords};
ghost use Rattle.mw_words.specs.Words.{IsGenerate, IsCheck, IsReach, IsNewRoom, IsDrive, IsServe, IsStress, IsThin};
ghost use Rattle.mw_words.specs.declared.command_line.ThinWords.{ThinWords};
ghost use Rattle.mw_words.specs.Lines.{AsksFor, IsNoCommand, HasOneMeaning};

use crate::arguments::{flag, number, number_or_none, parse, text, text_or_none};
use crate::command_line::{
    CheckWords, CommandLine, DriveWords, GenerateWords, NewRoomWords, ReachWords, ServeWords,
    StressWords, ThinWords,
};
use crate::commands::{
    check_command, drive_command, generate_command, new_room_command, reach_command, serve_command,
    stress_command, thin_command,
};
use crate::error::WordsError;
use mw_base::Text;
use std::alloc::{AllocError, Global};

/// The words as they are borrowed.
fn borrowed<'a>(alloc: Global, words: &'a [Text]) -> Result<Vec<&'a str>, AllocError>
    ensures { IfOk result (λ v. texts v.items ≡ words.entry.now) }
{
    let mut borrowed = Vec::new(alloc);
    for word in words {
        borrowed.push(word.as_str())?;
    }
    Ok(borrowed)
}

/// The words of `generate`.
fn read_generate(alloc: Global, words: &[&str]) -> Result<GenerateWords, WordsError>
    requires { slice_get (texts words.now) 0 ≡ Some (codes "generate") }
    ensures ok { IfOk result (IsGenerate (texts words.now)) }
    ensures bad { result ≡ Err WordsError.BadWords → (wanted : GenerateWords)
        → IsGenerate (texts words.now) wanted → ⊥ }
{
    let matches = parse(generate_command(alloc)?, words)?;
    Ok(GenerateWords {
        players: text(alloc, &matches, "players")?,
        out_name: text(alloc, &matches, "out")?,
        seed: number(&matches, "seed", 0, u64::MAX)?,
        tries: number(&matches, "tries", 1, 1000)? as u32,
    })
}

/// The words of `check`.
fn read_check(alloc: Global, words: &[&str]) -> Result<CheckWords, WordsError>
    requires { slice_get (texts words.now) 0 ≡ Some (codes "check") }
    ensures ok { IfOk result (IsCheck (texts words.now)) }
    ensures bad { result ≡ Err WordsError.BadWords → (asked : CheckWords)
        → IsCheck (texts words.now) asked → ⊥ }
{
    let matches = parse(check_command(alloc)?, words)?;
    Ok(CheckWords {
        players: text(alloc, &matches, "players")?,
        multidata: text(alloc, &matches, "multidata")?,
    })
}

/// The words of `reach`.
fn read_reach(alloc: Global, words: &[&str]) -> Result<ReachWords, WordsError>
    requires { slice_get (texts words.now) 0 ≡ Some (codes "reach") }
    ensures ok { IfOk result (λ w. IsReach (texts words.now) w.players) }
    ensures bad { result ≡ Err WordsError.BadWords → (players : List ℕ)
        → IsReach (texts words.now) players → ⊥ }
{
    let matches = parse(reach_command(alloc)?, words)?;
    Ok(ReachWords {
        players: text(alloc, &matches, "players")?,
    })
}

/// The words of `new-room`.
fn read_new_room(alloc: Global, words: &[&str]) -> Result<NewRoomWords, WordsError>
    requires { slice_get (texts words.now) 0 ≡ Some (codes "new-room") }
    ensures ok { IfOk result (IsNewRoom (texts words.now)) }
    ensures bad { result ≡ Err WordsError.BadWords → (room : NewRoomWords)
        → IsNewRoom (texts words.now) room → ⊥ }
{
    let matches = parse(new_room_command(alloc)?, words)?;
    Ok(NewRoomWords {
        multidata: text(alloc, &matches, "multidata")?,
        journal: text(alloc, &matches, "journal")?,
        pair: flag(&matches, "pair")?,
    })
}

/// The words of `drive`.
fn read_drive(alloc: Global, words: &[&str]) -> Result<DriveWords, WordsError>
    requires { slice_get (texts words.now) 0 ≡ Some (codes "drive") }
    ensures ok { IfOk result (IsDrive (texts words.now)) }
    ensures bad { result ≡ Err WordsError.BadWords → (files : DriveWords)
        → IsDrive (texts words.now) files → ⊥ }
{
    let matches = parse(drive_command(alloc)?, words)?;
    Ok(DriveWords {
        multidata: text(alloc, &matches, "multidata")?,
        journal: text_or_none(alloc, &matches, "journal")?,
        pair: flag(&matches, "pair")?,
    })
}

/// The words of `serve`.
fn read_serve(alloc: Global, words: &[&str]) -> Result<ServeWords, WordsError>
    requires { slice_get (texts words.now) 0 ≡ Some (codes "serve") }
    ensures ok { IfOk result (IsServe (texts words.now)) }
    ensures bad { result ≡ Err WordsError.BadWords → (room : ServeWords)
        → IsServe (texts words.now) room → ⊥ }
{
    let matches = parse(serve_command(alloc)?, words)?;
    Ok(ServeWords {
        multidata: text(alloc, &matches, "multidata")?,
        journal: text(alloc, &matches, "journal")?,
        pair: flag(&matches, "pair")?,
        bind: text(alloc, &matches, "bind")?,
        workers: number(&matches, "workers", 1, 64)? as u32,
        accept: number_or_none(&matches, "accept", 1, 4_294_967_295)?,
    })
}

/// The words of `stress`.
fn read_stress(alloc: Global, words: &[&str]) -> Result<StressWords, WordsError>
    requires { slice_get (texts words.now) 0 ≡ Some (codes "stress") }
    ensures ok { IfOk result (IsStress (texts words.now)) }
    ensures bad { result ≡ Err WordsError.BadWords → (asked : StressWords)
        → IsStress (texts words.now) asked → ⊥ }
{
    let matches = parse(stress_command(alloc)?, words)?;
    Ok(StressWords {
        players: number(&matches, "players", 1, 64)? as u32,
        seed: number(&matches, "seed", 0, u64::MAX)?,
    })
}

/// The words of `thin`.
fn read_thin(alloc: Global, words: &[&str]) -> Result<ThinWords, WordsError>
    requires { slice_get (texts words.now) 0 ≡ Some (codes "thin") }
    ensures ok { IfOk result (IsThin (texts words.now)) }
    ensures bad { result ≡ Err WordsError.BadWords → (room : ThinWords)
        → IsThin (texts words.now) room → ⊥ }
{
    let matches = parse(thin_command(alloc)?, words)?;
    Ok(ThinWords {
        multidata: text(alloc, &matches, "multidata")?,
        choice: text(alloc, &matches, "choice")?,
    })
}

/// What words ask for, by the first of them.
fn read_command(alloc: Global, words: &[&str]) -> Result<CommandLine, WordsError>
    ensures ok { IfOk result (AsksFor (texts words.now)) }
    ensures bad { result ≡ Err WordsError.BadWords → IsNoCommand (texts words.now) }
{
    let Some(command) = words.first() else {
        return Err(WordsError::BadWords);
    };
    match *command {
        "generate" => Ok(CommandLine::Generate(read_generate(alloc, words)?)),
        "check" => Ok(CommandLine::Check(read_check(alloc, words)?)),
        "reach" => Ok(CommandLine::Reach(read_reach(alloc, words)?)),
        "new-room" => Ok(CommandLine::NewRoom(read_new_room(alloc, words)?)),
        "drive" => Ok(CommandLine::Drive(read_drive(alloc, words)?)),
        "serve" => Ok(CommandLine::Serve(read_serve(alloc, words)?)),
        "stress" => Ok(CommandLine::Stress(read_stress(alloc, words)?)),
        "thin" => Ok(CommandLine::Thin(read_thin(alloc, words)?)),
        _ => Err(WordsError::BadWords),
    }
}

/// What the command line's words after the program's name ask for; `BadWords` where they are no command.
pub fn read_words(alloc: Global, words: &[Text]) -> Result<CommandLine, WordsError>
    ensures ok { IfOk result (AsksFor words.now) }
    ensures bad { result ≡ Err WordsError.BadWords → IsNoCommand words.now }
{
    let words = borrowed(alloc, words)?;
    read_command(alloc, words.as_slice())
}

/// No words ask for two things.
#[tactic(auto, using(crate::proofs::Asking::asks_one))]
pub fn has_one_meaning()
    ensures { HasOneMeaning }
{}
