ghost use Rattle.std.specs.Prelude.{◌≡◌, ◌≤◌, ℕ, List, Some, IfOk, OnOk, length, is_some, take};
ghost use Rattle.std.specs.declared.option.Option.{Option};
ghost use Rattle.std.specs.Option.{option_map};

use mw_base::Memory;
use thiserror::Error;

/// Why a call on a disk gave nothing.
#[derive(Clone, Copy, Debug, PartialEq, Eq, Error)]
pub enum DiskError {
    /// The disk failed, and its count of faults rose.
    #[error("disk failed")]
    Failed,
    /// Memory ran out.
    #[error("no memory")]
    Memory,
}

impl From<Memory> for DiskError {
    ghost use Rattle.mw_disk.specs.declared.disk.DiskError.TheVariants as error;

    ghost from_gives = { λ _ e. e ≡ error.Memory };

    fn from(_error: Memory) -> Self {
        DiskError::Memory
    }
}

/// Bytes that are read, written, cut and synced.
///
/// Contracts see what a crash may leave: a set of images, each of them bytes. A call passes through
/// moments, and so do the calls after it; what is promised of a call holds of the images at each
/// moment since its start. A disk that doesn't tell its bytes has no images that contracts see.
pub trait Disk {
    ghost use Rattle.mw_disk.specs.Causes.{HasCause};
    ghost use Rattle.mw_disk.specs.Crash.{Torn, CutShort, Follows, Stays, OnlyTold, Elapses};
    ghost use Rattle.mw_disk.specs.Range.{GivesRange, written};

    /// The bytes that a read gives, or nothing where the disk doesn't tell.
    ghost told: { Self → Option (List ℕ) };

    /// What a crash at this moment may leave.
    ghost may_leave: { Self → List ℕ → Type 0 };

    /// The moment, a number that doesn't fall.
    ghost moment: { Self → ℕ };

    /// What a crash at some moment from that one on may have left, in a call or between two.
    ghost left_since: { Self → ℕ → List ℕ → Type 0 };

    /// How often the disk has failed.
    ghost faults: { Self → ℕ };

    /// Reads bytes from a place on, as many as `into` has or as there are, and tells how many.
    /// Nothing changes.
    fn read(&mut self, at: u64, into: &mut [u8]) -> Result<usize, DiskError>
        ensures bound { IfOk result (λ count. count ≤ length into.old) }
        ensures bytes { IfOk result (λ count. GivesRange (told self.old) at count into.new) }
        ensures same { told self.new ≡ told self.old }
        ensures crash { Stays (may_leave self.old) (may_leave self.new) }
        ensures time { Elapses (moment self.old) (moment self.new)
            (left_since self.old) (left_since self.new) (may_leave self.new) }
        ensures cause { HasCause (faults self.old) (faults self.new) result };

    /// Writes bytes at a place. A gap behind the old end is filled with zeros.
    ///
    /// Until a sync, and after an error, a crash may leave any bytes in the range and past the old
    /// end. After an error the bytes that a read gives aren't told.
    fn write_at(&mut self, at: u64, bytes: &[u8]) -> Result<(), DiskError>
        ensures written { OnOk result
            (told self.new ≡ option_map (written at bytes.now) (told self.old)) }
        ensures tells { is_some (told self.new) ≡ is_some (told self.old) }
        ensures crash { Follows (Torn at (length bytes.now))
            (may_leave self.old) (may_leave self.new) }
        ensures time { Elapses (moment self.old) (moment self.new)
            (left_since self.old) (left_since self.new) (may_leave self.new) }
        ensures cause { HasCause (faults self.old) (faults self.new) result };

    /// Cuts the bytes to a length. Fewer bytes stay as they are.
    ///
    /// Until a sync, and after an error, a crash may leave any length from there on. After an error
    /// the bytes that a read gives aren't told.
    fn cut(&mut self, len: u64) -> Result<(), DiskError>
        ensures cut { OnOk result (told self.new ≡ option_map (take len) (told self.old)) }
        ensures tells { is_some (told self.new) ≡ is_some (told self.old) }
        ensures crash { Follows (CutShort len) (may_leave self.old) (may_leave self.new) }
        ensures time { Elapses (moment self.old) (moment self.new)
            (left_since self.old) (left_since self.new) (may_leave self.new) }
        ensures cause { HasCause (faults self.old) (faults self.new) result };

    /// Makes all bytes safe: after Ok a crash leaves what a read gives, until more is written or
    /// cut.
    fn sync(&mut self) -> Result<(), DiskError>
        ensures safe { OnOk result (OnlyTold (told self.new) (may_leave self.new)) }
        ensures same { told self.new ≡ told self.old }
        ensures crash { Stays (may_leave self.old) (may_leave self.new) }
        ensures time { Elapses (moment self.old) (moment self.new)
            (left_since self.old) (left_since self.new) (may_leave self.new) }
        ensures cause { HasCause (faults self.old) (faults self.new) result };

    /// What a read gives is what a crash may leave.
    ghost told_may_stay: { (disk : Self) (c : List ℕ) → told disk ≡ Some c → may_leave disk c };

    /// This moment is one of those since an earlier one.
    ghost counts_now: { (disk : Self) (t : ℕ) (c : List ℕ)
        → t ≤ moment disk → may_leave disk c → left_since disk t c };

    /// Since this moment there is no other.
    ghost only_now: { (disk : Self) (c : List ℕ)
        → left_since disk (moment disk) c → may_leave disk c };
}
