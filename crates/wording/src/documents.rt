// The folder of the documents.

use std::alloc::Global;
use std::fs::Files;
use std::io::ErrorKind;
use std::{env, io};

/// The folder if the program is not installed: the documents of the sources.
const OF_SOURCES: &str = "docs";

/// Where the documents of an installed program are, below the folder that has the folder `bin` of the program.
const INSTALLED: &str = "share/doc/apexcheck/docs";

/// A document that is there if the documents are.
const ONE_OF_THEM: &str = "SPECIFICATION.md";

/// The folder of the documents.
#[derive(Debug, Drop)]
pub struct Documents {
    installed: Option<String>,
    lacks_memory: bool,
}

impl Documents {
    /// Finds the documents: those that were installed with the program, otherwise those of the sources.
    pub fn find<R: Files + AllocGlobal>(rt: &R, alloc: Global) -> Documents {
        match installed_folder(rt, alloc) {
            Ok(installed) => Documents {
                installed,
                lacks_memory: false,
            },
            Err(e) => Documents {
                installed: None,
                lacks_memory: e.kind() == ErrorKind::OutOfMemory,
            },
        }
    }

    /// Their folder.
    pub fn folder(&self) -> &str {
        self.installed.as_deref().unwrap_or(OF_SOURCES)
    }

    /// Whether memory was refused to find them.
    pub fn lacks_memory(&self) -> bool {
        self.lacks_memory
    }
}

// The folder of the installed documents, if there is one.
fn installed_folder<R: Files + AllocGlobal>(rt: &R, alloc: Global) -> io::Result<Option<String>> {
    let program = env::current_exe(rt)?;
    let Some(top) = program.parent().and_then(|bin| bin.parent()) else {
        return Ok(None);
    };
    let folder = top.join(alloc, INSTALLED)?;
    let document = folder.join(alloc, ONE_OF_THEM)?;
    Ok(if document.is_file(rt) {
        Some(folder.into_string())
    } else {
        None
    })
}
