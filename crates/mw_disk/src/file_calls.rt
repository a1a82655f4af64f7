ghost use Rattle.std.specs.Prelude.{◌≡◌, Bool, Some, None, IsTrue, length, take, is_ok, MatchResult};
ghost use Rattle.std.specs.Io.{ReadsAtMost, WritesAtMost};
ghost use Rattle.mw_disk.specs.FileLogs.{FileLog, noted, state_of};
ghost use Rattle.mw_disk.specs.declared.file_event.FileEvent.TheVariants.{Length, Read, Write, Resize, Sync, SyncFolder};

use std::io;

/// An open file of the system: what a disk asks of it. Each call is noted with its answer, whatever
/// that is.
pub trait FileCalls {
    /// What the file held when it was opened, and its calls since with their answers.
    ghost log: { Self → FileLog };

    /// Whether each answer, now and later, is that of an honest file that held this.
    ghost is_honest: { Self → Bool };

    /// The file's length.
    fn length(&mut self) -> io::Result<u64>
        ensures noted { MatchResult result
            (λ len. log self.new ≡ noted (Length (Some len)) (log self.old))
            (λ _. log self.new ≡ noted (Length None) (log self.old)) }
        ensures honest { is_honest self.new ≡ is_honest self.old };

    /// Reads bytes from a place on, some of those that stand there, and tells how many. None is the
    /// end, where `into` has room.
    fn read_at(&mut self, at: u64, into: &mut [u8]) -> io::Result<usize>
        ensures bound { ReadsAtMost result into.new }
        ensures noted { MatchResult result
            (λ count. log self.new
            ≡ noted (Read at (length into.old) (Some (take count into.new))) (log self.old))
            (λ _. log self.new ≡ noted (Read at (length into.old) None) (log self.old)) }
        ensures honest { is_honest self.new ≡ is_honest self.old };

    /// Writes some of the bytes from the first on, at a place, and tells how many.
    fn write_at(&mut self, at: u64, bytes: &[u8]) -> io::Result<usize>
        ensures bound { WritesAtMost result bytes.now }
        ensures noted { MatchResult result
            (λ count. log self.new ≡ noted (Write at bytes.now (Some count)) (log self.old))
            (λ _. log self.new ≡ noted (Write at bytes.now None) (log self.old)) }
        ensures honest { is_honest self.new ≡ is_honest self.old };

    /// Cuts the file to a length, or lengthens it with zeros.
    fn set_length(&mut self, len: u64) -> io::Result<()>
        ensures noted { log self.new ≡ noted (Resize len (is_ok result)) (log self.old) }
        ensures honest { is_honest self.new ≡ is_honest self.old };

    /// Makes the file's bytes safe from a crash.
    fn sync(&mut self) -> io::Result<()>
        ensures noted { log self.new ≡ noted (Sync (is_ok result)) (log self.old) }
        ensures honest { is_honest self.new ≡ is_honest self.old };

    /// Makes the file's name safe from a crash, where the file was made when it was opened.
    fn sync_folder(&mut self) -> io::Result<()>
        ensures noted { log self.new ≡ noted (SyncFolder (is_ok result)) (log self.old) }
        ensures honest { is_honest self.new ≡ is_honest self.old };

    /// What is honest now was so at each call.
    ghost answers_honestly: { (file : Self) → IsTrue (is_honest file)
        → IsTrue (state_of (log file)).honest };
}
