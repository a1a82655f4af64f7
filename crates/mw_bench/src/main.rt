//! What `bench/native.sh` and `bench/lock.sh` time.
//! `mw_bench WORK TIMES WORLD` reads the world file WORLD, does one of four works with its rules so many times, and prints the
//! microseconds that it took: `generate` and `generate_by` make seeds, the second with rules that it is given as trees; `tree`
//! and `closure` make the list of the places that are reached in the caves, a world that this program knows.
//! `mw_bench lock WORKERS TIMES` has workers that all act on one small value under the lock, each so many times, and prints how
//! many calls were made, and how many microseconds that took.
//! With no words it prints how many places of the caves `tree` and `closure` reach, and how many calls two workers made.
#![tactic(auto)]

mod caves;
mod counter;
mod racing;
mod reaching;
mod seeds;
mod tables;
mod work;
mod workers;

use mw_base::Text;
use mw_edges::{FileRead, Folder, SystemFolder};
use racing::race;
use std::time::Instant;
use std::{env, io};
use tables::{Tables, tables_of};
use work::Work;

/// The length that a world file may have, in bytes.
const MAX_WORLD: u64 = 16_777_216;

/// What is to be done.
#[derive(Drop)]
enum Task {
    /// A work so many times, with a world file.
    Rules { work: Work, times: u32, world: Text },
    /// So many workers that each act so many times.
    Lock { workers: u32, times: u32 },
}

/// The task of the words; None where there is none.
fn task_in(rt: &HostRuntime) -> io::Result<Option<Task>> {
    let mut words = env::args(rt)?.skip(1);
    let (Some(name), Some(number), Some(last)) = (words.next(), words.next(), words.next()) else {
        return Ok(None);
    };
    let Ok(number) = number.parse() else {
        return Ok(None);
    };
    Ok(task_of(name.as_str(), number, last))
}

/// The task of a name, a number and the last word.
fn task_of(name: &str, number: u32, last: String) -> Option<Task> {
    if name == "lock" {
        return Some(Task::Lock {
            workers: number,
            times: last.parse().ok()?,
        });
    }
    Some(Task::Rules {
        work: Work::named(name)?,
        times: number,
        world: Text::from_string(last),
    })
}

/// The tables of a world file and of one player.
fn tables_in(rt: &HostRuntime, name: &Text) -> Option<Tables> {
    let mut folder = SystemFolder::new(rt, rt.alloc());
    match folder.read_file(rt.alloc(), name, MAX_WORLD) {
        Ok(FileRead::Whole(bytes)) => tables_of(rt.alloc(), bytes.as_slice()),
        _ => None,
    }
}

/// Does a work with a world's rules, and prints the microseconds that it took.
fn time_rules(rt: &HostRuntime, work: Work, times: u32, world: &Text) -> io::Result<()> {
    let tables = tables_in(rt, world);
    let Some(tables) = tables else {
        return println!(rt; "no world");
    };
    let Some(joint) = tables.joint(rt.alloc()) else {
        return println!(rt; "no world");
    };
    let start = Instant::now(rt)?;
    let done = work.run(rt.alloc(), &joint, times);
    let spent = start.elapsed(rt)?;
    match done {
        Some(_) => println!(rt; "{}", spent.as_micros()),
        None => println!(rt; "not done"),
    }
}

/// Prints how many calls the workers made.
fn print_calls(rt: &HostRuntime, calls: Option<u64>) -> io::Result<()> {
    match calls {
        Some(calls) => println!(rt; "{calls}"),
        None => println!(rt; "no memory"),
    }
}

/// Prints how many places of the caves are reached, by the tree and by the closure.
fn print_places(rt: &HostRuntime) -> io::Result<()> {
    let alloc = rt.alloc();
    let Some(tables) = tables_of(alloc, caves::WORLD.as_bytes()) else {
        return println!(rt; "no caves");
    };
    let Some(joint) = tables.joint(alloc) else {
        return println!(rt; "no caves");
    };
    for work in [Work::Tree, Work::Closure] {
        match work.run(alloc, &joint, 1) {
            Some(places) => println!(rt; "{places}")?,
            None => println!(rt; "not done")?,
        }
    }
    Ok(())
}

fn main(rt: HostRuntime) -> io::Result<()> {
    match task_in(&rt)? {
        Some(Task::Rules { work, times, world }) => time_rules(&rt, work, times, &world),
        Some(Task::Lock { workers, times }) => {
            let start = Instant::now(&rt)?;
            let calls = race(&rt, rt.alloc(), workers, times);
            let spent = start.elapsed(&rt)?;
            print_calls(&rt, calls)?;
            println!(rt; "{}", spent.as_micros())
        }
        None => {
            print_places(&rt)?;
            print_calls(&rt, race(&rt, rt.alloc(), 2, 1000))
        }
    }
}
