// Where the files of a run are found by their names.

ghost use Rattle.std.specs.Prelude.{◌≢◌, IfErr, IfOk};
ghost use Rattle.std.specs.IoError.{error_kind};
ghost use Rattle.answer_words.specs.Folders.{FolderView};

use crate::files;
use std::alloc::Global;
use std::fs::Files;
use std::io;
use std::io::{ErrorKind, Read};

/// Where files have names. It says of what it opens which file that is, so that a caller can promise to use each file in its role.
pub trait Folder {
    /// A file that is opened to be read.
    type File: Read + Drop;

    // What is known of its files.
    ghost facts: { Self → FolderView Self.File };

    /// The text in the file of this name, or its first bytes if it is longer than a configuration or a rules file may be.
    fn open_text(&self, alloc: Global, name: &str) -> io::Result<Vec<u8>>
        ensures text { IfOk result (λ text. (facts self.now).is_text name.now text.items) }
        ensures refused { IfErr result (λ e. error_kind e ≢ ErrorKind.OutOfMemory → (facts self.now).refuses name.now) };

    /// The file of this name, opened to be read.
    fn open(&self, name: &str) -> io::Result<Self::File>
        ensures file { IfOk result ((facts self.now).is_file name.now) }
        ensures refused { IfErr result (λ e. error_kind e ≢ ErrorKind.OutOfMemory → (facts self.now).refuses name.now) };
}

/// The files of the system, by their paths.
#[derive(Drop)]
pub struct SystemFiles<'a, R> {
    rt: &'a R,
}

impl<'a, R> SystemFiles<'a, R> {
    /// The files of this system.
    pub fn new(rt: &'a R) -> SystemFiles<'a, R> {
        SystemFiles { rt }
    }
}

impl<R: Files> Folder for SystemFiles<'_, R> {
    ghost use Rattle.std.specs.Prelude.{⊤};

    type File = R::File;

    // No contract of the system says what a path leads to, so these facts say nothing. A function that takes any folder cannot make use of
    // that: it must open each file by its own name.
    ghost facts = { λ files. record { is_text = λ name text. ⊤; is_file = λ name file. ⊤; refuses = λ name. ⊤ } };

    fn open_text(&self, alloc: Global, name: &str) -> io::Result<Vec<u8>> {
        files::open_text(self.rt, alloc, name)
    }

    fn open(&self, name: &str) -> io::Result<R::File> {
        files::open(self.rt, name)
    }
}
