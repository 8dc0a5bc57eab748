// Files that are written whole or not at all.

use std::alloc::Global;
use std::fs::{File, Files};
use std::io::{ErrorKind, Write};
use std::{fs, io};

/// How many names are tried for the file that gets the name at last.
const MOST_NAMES: u32 = 100;

/// Writes a text to the file of this name, whole or not at all: first to a new file in the same folder, which then gets the name.
pub fn write_whole<R: Files<File = F>, F: Write + Drop>(
    rt: &R,
    alloc: Global,
    name: &str,
    text: &str,
) -> io::Result<()> {
    for number in 0..MOST_NAMES {
        let new_name = format!(in alloc; "{name}.{number}.new")?;
        match File::create_new(rt, new_name.as_str()) {
            Err(e) if e.kind() == ErrorKind::AlreadyExists => continue,
            Err(e) => return Err(e),
            Ok(file) => return fill_and_rename(rt, file, new_name.as_str(), name, text),
        }
    }
    Err(io::Error::from(ErrorKind::AlreadyExists))
}

// Writes a text to a new file and gives it its name. If that fails, the new file is removed.
fn fill_and_rename<R: Files, F: Write + Drop>(
    rt: &R,
    mut file: F,
    new_name: &str,
    name: &str,
    text: &str,
) -> io::Result<()> {
    let written = file.write_all(text.as_bytes());
    drop(file);
    let done = match written {
        Ok(()) => fs::rename(rt, new_name, name),
        Err(e) => Err(e),
    };
    if done.is_err() {
        // The failure is reported; the only thing to add would be that the new file is left.
        let _ = fs::remove_file(rt, new_name);
    }
    done
}
