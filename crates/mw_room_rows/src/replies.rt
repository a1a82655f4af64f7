use crate::calls::try_calls;
use crate::disks::new_room;
use std::test::Fail;

/// Calls on a room in which one session is opened.
const REPLIES: &str = "open | opened
commit | done
take of another | gone
7 | done
lost | done
lost | gone";

#[test]
fn calls_on_a_kept_room_are_answered(rt: HostRuntime) -> Result<(), Fail> {
    let mut room = new_room(rt.alloc(), None)?;
    try_calls(rt.alloc(), &mut room, REPLIES)
}
