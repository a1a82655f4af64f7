ghost use Rattle.mw_edges.specs.Files.{untold_file, untold_image};

use crate::calls::System;
use mw_disk::{HostFile, open_host_file};
use std::fs::File;
use std::rt::Files;
use std::{fs, io};

/// The files of the system on which the program runs. Each method makes the calls of its name, and
/// nothing is claimed of what they answer.
#[derive(Drop)]
pub struct HostSystem<'a, R: Files<File = File>> {
    rt: &'a R,
}

impl<'a, R: Files<File = File>> HostSystem<'a, R> {
    /// The folder in which the program runs.
    pub fn new(rt: &'a R) -> HostSystem<'a, R> {
        HostSystem { rt }
    }
}

impl<'a, R: Files<File = File>> System for HostSystem<'a, R> {
    ghost use Rattle.mw_edges.specs.Laws.{untold_is_image};

    type Reader = File;

    type Writer = File;

    type File = HostFile;

    ghost holds = { λ _ name. untold_file name };

    ghost images = { λ _ name. untold_image name };

    fn open_read(&mut self, name: &str) -> io::Result<File> {
        fs::open(self.rt, name)
    }

    fn begin_write(&mut self, name: &str) -> io::Result<File> {
        fs::create(self.rt, name)
    }

    fn end_write(&mut self, name: &str, writer: File) {
        let _ = name;
        drop(writer);
    }

    fn open_place(&mut self, name: &str) -> io::Result<HostFile> {
        open_host_file(self.rt, name)
    }

    fn close_place(&mut self, name: &str, file: HostFile) {
        let _ = name;
        drop(file);
    }

    ghost told_may_stay = { λ _ name c is. untold_is_image name c is };
}
