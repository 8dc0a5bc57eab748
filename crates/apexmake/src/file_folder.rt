// A folder of the system, as what receives files.

ghost use Rattle.std.specs.Prelude.{None};

use crate::folder::{Folder, FolderFault};
use crate::usage::{Asked, UsageFault};
use std::alloc::Global;
use std::fs::{File, Files};
use std::io::{ErrorKind, Write};
use std::{fs, io};

/// Why a folder could not be used.
#[derive(Debug, Drop)]
pub enum FolderTrouble {
    /// It has files already.
    HasFiles,
    /// It cannot be looked at or made.
    Folder(io::Error),
    /// This file of it cannot be written.
    File(String, io::Error),
    /// Memory was refused.
    Memory,
}

/// What shows why a folder could not be used.
pub trait FolderFaults {
    /// Why it could not be used, if that is known.
    fn trouble(&self) -> Option<&FolderTrouble>;

    /// The names of the files that were written, in their order.
    fn written(&self) -> &[String];
}

/// A folder of the system.
#[derive(Drop)]
pub struct FileFolder<'a, R> {
    rt: &'a R,
    alloc: Global,
    path: &'a str,
    is_there: bool,
    trouble: Option<FolderTrouble>,
    written: Vec<String>,
}

impl<'a, R> FileFolder<'a, R> {
    /// The folder that the command line names; no file is written if it names none.
    pub fn new(
        rt: &'a R,
        alloc: Global,
        asked: &'a Result<Asked, UsageFault>,
    ) -> FileFolder<'a, R> {
        let path = match asked {
            Ok(Asked::Run(asked)) => asked.folder.as_str(),
            _ => "",
        };
        FileFolder {
            rt,
            alloc,
            path,
            is_there: false,
            trouble: None,
            written: Vec::new(alloc),
        }
    }

    // The fault for this trouble, which is kept.
    fn fails(&mut self, trouble: FolderTrouble) -> FolderFault {
        self.trouble = Some(trouble);
        FolderFault::Unusable
    }

    // The fault if memory was refused, which is kept.
    fn starves(&mut self) -> FolderFault {
        self.trouble = Some(FolderTrouble::Memory);
        FolderFault::Memory
    }

    // The fault for an error of the folder itself.
    fn fails_by(&mut self, error: io::Error) -> FolderFault {
        if error.kind() == ErrorKind::OutOfMemory {
            return self.starves();
        }
        self.fails(FolderTrouble::Folder(error))
    }
}

impl<R> FolderFaults for FileFolder<'_, R> {
    fn trouble(&self) -> Option<&FolderTrouble> {
        self.trouble.as_ref()
    }

    fn written(&self) -> &[String] {
        &self.written
    }
}

impl<R: Files<File = File> + AllocGlobal + Clone + Drop> Folder for FileFolder<'_, R> {
    // No contract says what a folder of the system has.
    ghost files = { λ folder. None };

    fn is_free(&mut self) -> Result<(), FolderFault> {
        match fs::read_dir(self.rt, self.path) {
            Ok(mut entries) => match entries.next() {
                None => {
                    self.is_there = true;
                    Ok(())
                }
                Some(Ok(_)) => Err(self.fails(FolderTrouble::HasFiles)),
                Some(Err(e)) => Err(self.fails_by(e)),
            },
            Err(e) if e.kind() == ErrorKind::NotFound => Ok(()),
            Err(e) => Err(self.fails_by(e)),
        }
    }

    fn put(&mut self, name: &str, text: &[u8]) -> Result<(), FolderFault> {
        if !self.is_there {
            if let Err(e) = fs::create_dir(self.rt, self.path) {
                return Err(self.fails_by(e));
            }
            self.is_there = true;
        }
        let alloc = self.alloc;
        let Ok(file) = String::from_str(alloc, name) else {
            return Err(self.starves());
        };
        let path = self.path;
        let Ok(whole) = format!(in alloc; "{path}/{name}") else {
            return Err(self.starves());
        };
        match write_new(self.rt, whole.as_str(), text) {
            Ok(()) => match self.written.push(file) {
                Ok(()) => Ok(()),
                Err(_) => Err(self.starves()),
            },
            Err(e) => Err(self.fails(FolderTrouble::File(file, e))),
        }
    }
}

// Writes a file that is not there yet.
fn write_new<R: Files<File = File>>(rt: &R, path: &str, text: &[u8]) -> io::Result<()> {
    let mut file = File::create_new(rt, path)?;
    file.write_all(text)?;
    file.flush()
}
