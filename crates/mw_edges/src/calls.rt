ghost use Rattle.std.specs.Prelude.{◌≡◌, ◌≢◌, ℕ, List, [], Some, None, is_some, IfOk, OnOk, OnErr};
ghost use Rattle.std.specs.declared.option.Option.{Option};
ghost use Rattle.mw_disk.specs.Crash.{Stays};
ghost use Rattle.mw_disk.specs.FileRuns.{told_if, LeavesIf};
ghost use Rattle.mw_edges.specs.Files.{open_file};
ghost use Rattle.mw_edges.specs.Folders.{opened_bytes, ReadsFile, BeginsEmpty, WrittenAs, StaysOrIsMade, SameImages};

use mw_disk::FileCalls;
use std::io::{self, Read, Write};

/// The files of a system by name: what a folder asks of it.
///
/// What a system tells of its files is what an honest one holds: whoever reads a file is given its
/// bytes, one that is written holds what its writer took, and one that is opened as a disk is what
/// that disk was left as. A system that tells nothing may answer anything.
pub trait System {
    /// A file that is read.
    type Reader: Read + Drop;

    /// A file that is written from its beginning.
    type Writer: Write + Drop;

    /// A file that is read and written in place.
    type File: FileCalls + Drop;

    /// What the system tells of a name: nothing (None), that no file has it (Some None), or the
    /// bytes of its file.
    ghost holds: { Self → List ℕ → Option (Option (List ℕ)) };

    /// What a crash may leave of the file of a name, where the system tells of it; of one that isn't
    /// there, no bytes.
    ghost images: { Self → List ℕ → List ℕ → Type 0 };

    /// Opens a file to read it from its beginning.
    fn open_read(&mut self, name: &str) -> io::Result<Self::Reader>
        ensures told { IfOk result
            (λ reader. ReadsFile (holds self.old name.now) (Self.Reader.remaining reader)) }
        ensures same { (n : List ℕ) → holds self.new n ≡ holds self.old n }
        ensures crash { (n : List ℕ) → SameImages (images self.old n) (images self.new n) };

    /// Makes a file, or empties it, to be written. What its name holds isn't known until
    /// `end_write`.
    fn begin_write(&mut self, name: &str) -> io::Result<Self::Writer>
        ensures empty { IfOk result
            (λ writer. BeginsEmpty (holds self.old name.now) (Self.Writer.contents writer)) }
        ensures tells { is_some (holds self.new name.now) ≡ is_some (holds self.old name.now) }
        ensures others { (n : List ℕ) → n ≢ name.now → holds self.new n ≡ holds self.old n }
        ensures crash { (n : List ℕ) → n ≢ name.now
            → SameImages (images self.old n) (images self.new n) };

    /// Closes a file that was written.
    fn end_write(&mut self, name: &str, writer: Self::Writer)
        ensures told { WrittenAs (holds self.old name.now) (Self.Writer.contents writer)
            (holds self.new name.now) }
        ensures others { (n : List ℕ) → n ≢ name.now → holds self.new n ≡ holds self.old n }
        ensures crash { (n : List ℕ) → n ≢ name.now
            → SameImages (images self.old n) (images self.new n) };

    /// Opens a file to read and write it in place, or makes it, empty, and takes its lock.
    fn open_place(&mut self, name: &str) -> io::Result<Self::File>
        ensures fresh { IfOk result (λ file. (Self.File.log file).events ≡ []) }
        ensures told { IfOk result (λ file. told_if (Self.File.is_honest file) (Self.File.log file)
            ≡ opened_bytes (holds self.old name.now)) }
        ensures left { IfOk result (λ file. Stays (images self.old name.now)
            (LeavesIf (Self.File.is_honest file) (Self.File.log file))) }
        ensures made { OnOk result
            (holds self.new name.now ≡ open_file (opened_bytes (holds self.old name.now))) }
        ensures kept { OnErr result (StaysOrIsMade (holds self.old name.now)
            (holds self.new name.now)) }
        ensures others { (n : List ℕ) → n ≢ name.now → holds self.new n ≡ holds self.old n }
        ensures crash { (n : List ℕ) → SameImages (images self.old n) (images self.new n) };

    /// Closes a file that was opened in place, and gives up its lock.
    fn close_place(&mut self, name: &str, file: Self::File)
        ensures told { holds self.new name.now
            ≡ open_file (told_if (Self.File.is_honest file) (Self.File.log file)) }
        ensures left { SameImages (LeavesIf (Self.File.is_honest file) (Self.File.log file))
            (images self.new name.now) }
        ensures others { (n : List ℕ) → n ≢ name.now → holds self.new n ≡ holds self.old n }
        ensures crash { (n : List ℕ) → n ≢ name.now
            → SameImages (images self.old n) (images self.new n) };

    /// What the system tells of a file is what a crash may leave of it.
    ghost told_may_stay: { (system : Self) (name c : List ℕ)
        → holds system name ≡ Some (Some c) → images system name c };
}
