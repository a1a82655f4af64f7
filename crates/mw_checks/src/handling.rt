ghost use Rattle.std.specs.Prelude.{◌≡◌, true};
ghost use Rattle.mw_model.specs.Items.{NetItem};
ghost use Rattle.mw_protocol.specs.Checks.{keeps};

use mw_base::{NetItem, SlotId};

/// Which items a session of a slot asks for: bit 1 of the mask those from other worlds, bit 2
/// those from its own, bit 4 those that it starts with.
#[derive(Clone, Copy)]
pub(crate) struct Handling {
    pub(crate) slot: SlotId,
    pub(crate) mask: u8,
}

impl Handling {
    /// Whether it asks for items of each kind.
    #[tactic(auto, using(crate::proofs::Kept::keeps_each))]
    pub(crate) fn keeps_all(&self) -> bool
        ensures { result ≡ true → (item : NetItem)
            → keeps self.now.mask self.now.slot item ≡ true }
    {
        self.mask / 4 % 2 == 1 && self.mask / 2 % 2 == 1 && self.mask % 2 == 1
    }

    /// Whether it asks for an item.
    pub(crate) fn keeps(&self, item: &NetItem) -> bool
        ensures { result ≡ keeps self.now.mask self.now.slot item.now }
    {
        if item.player == 0 {
            self.mask / 4 % 2 == 1
        } else if item.player == self.slot.get() {
            self.mask / 2 % 2 == 1
        } else {
            self.mask % 2 == 1
        }
    }
}
