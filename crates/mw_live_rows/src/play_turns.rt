//! What a client hears, turn by turn.

use crate::play_runs::{ANN, CONNECT, NONE, Run, empty_folder, ends, tells};
use std::test::Fail;

/// An index from nowhere asks for Sync, and its items are dropped. A second run goes on from the
/// save file.
#[test]
fn dropped_items_are_asked_for(rt: HostRuntime) -> Result<(), Fail> {
    let alloc = rt.alloc();
    let mut folder = empty_folder(alloc)?;
    let wanted = format!(in alloc; "0 items 1\n5 -2 0 0\n> {CONNECT}\n> [{{\"cmd\":\"Sync\"}}]\n")?;
    let run = Run {
        line: ANN,
        input: "",
        coming: &["info", "joined", "first", "third"],
    };
    tells(alloc, &mut folder, &run, &NONE, wanted.as_str())?;
    let wanted = format!(in alloc; "0 items 2\n5 -2 0 0\n8 102 1 0\n> {CONNECT}\n")?;
    let run = Run {
        line: ANN,
        input: "",
        coming: &["info", "joined", "second"],
    };
    tells(alloc, &mut folder, &run, &NONE, wanted.as_str())
}

/// The locations are checked once, at the first Connected.
#[test]
fn locations_are_checked_once(rt: HostRuntime) -> Result<(), Fail> {
    let alloc = rt.alloc();
    let mut folder = empty_folder(alloc)?;
    let checks = r#"[{"cmd":"LocationChecks","locations":[101,102]}]"#;
    let wanted = format!(in alloc; "0 items 0\n> {CONNECT}\n> {checks}\n")?;
    let run = Run {
        line: ANN,
        input: "101\n0102",
        coming: &["info", "info", "joined", "joined"],
    };
    tells(alloc, &mut folder, &run, &NONE, wanted.as_str())
}

/// The end comes at each moment: before Connected the room ended early, and what came is kept.
#[test]
fn an_end_at_each_moment(rt: HostRuntime) -> Result<(), Fail> {
    let alloc = rt.alloc();
    let coming = ["info", "nothing", "joined", "first", "second", "third"];
    let wanted = [
        "1 items 0\nended early\n",
        "1 items 0\nended early\n",
        "1 items 0\nended early\n",
        "0 items 0\n",
        "0 items 1\n5 -2 0 0\n",
        "0 items 2\n5 -2 0 0\n8 102 1 0\n",
        "0 items 3\n5 -2 0 0\n8 102 1 0\n9 201 2 2\n",
    ];
    for (count, wanted) in wanted.iter().enumerate() {
        let (coming, _) = coming.split_at(count.min(coming.len()));
        let run = Run {
            line: ANN,
            input: "",
            coming,
        };
        ends(alloc, &run, wanted)?;
    }
    Ok(())
}

/// A room that turns the client away, whenever it does.
#[test]
fn turned_away(rt: HostRuntime) -> Result<(), Fail> {
    let alloc = rt.alloc();
    let refused = r#"[{"cmd":"ConnectionRefused","errors":["InvalidSlot","InvalidGame"]}]"#;
    let wanted = "1 items 0\nrefused: InvalidSlot InvalidGame\n";
    let run = Run {
        line: ANN,
        input: "",
        coming: &["info", refused, "joined"],
    };
    ends(alloc, &run, wanted)?;
    let run = Run {
        line: ANN,
        input: "",
        coming: &["info", "joined", refused],
    };
    ends(alloc, &run, wanted)?;
    let none = r#"[{"cmd":"ConnectionRefused","errors":[]}]"#;
    let run = Run {
        line: ANN,
        input: "",
        coming: &[none],
    };
    ends(alloc, &run, "1 items 0\nrefused: \n")
}

/// Turns are counted whatever comes, the end being none of them.
#[test]
fn turns_are_spent(rt: HostRuntime) -> Result<(), Fail> {
    let alloc = rt.alloc();
    let coming = ["info", "nothing", "joined", "binary", "first"];
    let run = Run {
        line: "room:1 Ann G save 4",
        input: "",
        coming: &coming,
    };
    ends(alloc, &run, "9 items 0\nturns spent\n")?;
    let run = Run {
        line: "room:1 Ann G save 5",
        input: "",
        coming: &coming,
    };
    ends(alloc, &run, "9 items 1\n5 -2 0 0\nturns spent\n")?;
    let run = Run {
        line: "room:1 Ann G save 6",
        input: "",
        coming: &coming,
    };
    ends(alloc, &run, "0 items 1\n5 -2 0 0\n")
}

/// What is no packet, or comes out of its order, tells nothing.
#[test]
fn what_tells_nothing(rt: HostRuntime) -> Result<(), Fail> {
    let alloc = rt.alloc();
    let run = Run {
        line: ANN,
        input: "",
        coming: &[
            "7",
            "{",
            "[7]",
            r#"[{"cmd":"Fly"}]"#,
            "first",
            "third",
            "joined",
        ],
    };
    ends(alloc, &run, "0 items 1\n5 -2 0 0\n")?;
    let twice = r#"[{"cmd":"Connected"},{"cmd":"ReceivedItems","index":0,"items":[]}]"#;
    let run = Run {
        line: ANN,
        input: "",
        coming: &["info", "first", twice],
    };
    ends(alloc, &run, "0 items 0\n")
}
