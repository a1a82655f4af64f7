ghost use Rattle.std.specs.Prelude.{None, Some};
ghost use Rattle.mw_keep.specs.Standing.{HasLived, MayReply};
ghost use Rattle.mw_keep.specs.Keeps.{origin_of};

use crate::call::Call;
use crate::kept::{KeptRoom, Origin};
use crate::reply::Reply;
use mw_disk::Disk;
use mw_lock::Stands;

impl<D: Disk> Stands for KeptRoom<D> {
    type Call = Call;

    type Reply = Reply;

    type Base = Option<Origin<D>>;

    ghost base = { λ k. Some (origin_of k) };

    ghost any_base = { None };

    ghost replies = { MayReply D.may_leave };

    ghost stands = { HasLived D.may_leave D.told D.faults };

    fn act(&mut self, call: Call) -> Reply {
        KeptRoom::act(self, call)
    }
}
