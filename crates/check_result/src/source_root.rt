// The folder from which a log names its files.

ghost use Rattle.std.specs.Prelude.{◌≡◌, ◌++◌, [], IfOk, codes, map, option_map, string_bytes, unwrap_or};
ghost use Rattle.check_result.specs.FileNames.{absolute_name, after_slash, folders_in, name_below, name_from, name_of, parts_of, place_of, root_for, root_name, step, walk};

use std::alloc::{AllocError, Global};

/// The folder from which files are named: that of the sources, or else the one in which the program runs.
#[derive(Drop)]
pub enum SourceRoot {
    /// The names of two folders, which are absolute.
    Known {
        /// The folder in which the program runs.
        here: String,
        /// The folder from which files are named, without a slash at its end.
        root: String,
    },
    /// Files are named from the folder in which the program runs, and its name is not known.
    Unknown,
}

impl SourceRoot {
    /// The folder of this name, for a program that runs in this folder. If no name is given, it is the folder in which the program runs. If
    /// that is not known, files are named from it whatever name is given, since their own names begin there.
    ///
    /// # Errors
    ///
    /// `AllocError` if memory is refused.
    pub fn new(
        alloc: Global,
        here: Option<&str>,
        given: Option<&str>,
    ) -> Result<SourceRoot, AllocError>
        ensures here { IfOk result (λ made. option_map (λ folders. folders.here) (folders_in made) ≡ option_map (λ here. here.now) here.entry) }
        ensures root { IfOk result (λ made. option_map (λ folders. folders.root) (folders_in made) ≡ root_for (option_map (λ here. here.now) here.entry) (unwrap_or (option_map (λ given. given.now) given.entry) [])) }
    {
        match here {
            Some(here) => Ok(SourceRoot::Known {
                root: absolute_name(alloc, here, given.unwrap_or(""))?,
                here: String::from_str(alloc, here)?,
            }),
            None => Ok(SourceRoot::Unknown),
        }
    }

    /// The absolute name of the folder, with a slash at its end, if it is known.
    ///
    /// # Errors
    ///
    /// `AllocError` if memory is refused.
    pub fn name(&self, alloc: Global) -> Result<Option<String>, AllocError>
        ensures { IfOk result (λ name. option_map string_bytes name ≡ root_name (folders_in self.now)) }
    {
        match self {
            SourceRoot::Known { root, .. } => Ok(Some(format!(in alloc; "{root}/")?)),
            SourceRoot::Unknown => Ok(None),
        }
    }

    /// The name of a file from the folder, or its absolute name if it is not below the folder. Parts of an absolute name that lead to the
    /// same folder or to the one above are left out. If the folder is not known, a name that is not absolute stays as it is.
    ///
    /// # Errors
    ///
    /// `AllocError` if memory is refused.
    pub fn name_of(&self, alloc: Global, file: &str) -> Result<String, AllocError>
        ensures { IfOk result (λ name. string_bytes name ≡ name_from (folders_in self.now) file.now) }
    {
        match self {
            SourceRoot::Known { here, root } => {
                let whole = absolute_name(alloc, here, file)?;
                String::from_str(alloc, name_below(root, &whole))
            }
            SourceRoot::Unknown if file.starts_with("/") => plain_name(alloc, "", file),
            SourceRoot::Unknown => String::from_str(alloc, file),
        }
    }

    /// The name of the folder in which a file is, as that of a file; empty if it is the folder from which files are named.
    ///
    /// # Errors
    ///
    /// `AllocError` if memory is refused.
    pub fn folder_of(&self, alloc: Global, file: &str) -> Result<String, AllocError>
        ensures { IfOk result (λ name. string_bytes name ≡ name_from (folders_in self.now) (file.now ++ codes "/..")) }
    {
        let folder = format!(in alloc; "{file}/..")?;
        self.name_of(alloc, &folder)
    }
}

// The absolute name of what has this name in a folder.
fn absolute_name(alloc: Global, folder: &str, name: &str) -> Result<String, AllocError>
    ensures { IfOk result (λ found. string_bytes found ≡ absolute_name folder.now name.now) }
{
    if name.starts_with("/") {
        plain_name(alloc, "", name)
    } else {
        plain_name(alloc, folder, name)
    }
}

// The name that begins with one name and continues with another, without parts that lead nowhere and without a slash at its end.
fn plain_name(alloc: Global, folder: &str, name: &str) -> Result<String, AllocError>
    ensures { IfOk result (λ plain. string_bytes plain ≡ name_of (walk (place_of folder.now) (parts_of name.now))) }
{
    let mut place = Vec::new(alloc);
    follow(alloc, &mut place, folder)?;
    follow(alloc, &mut place, name)?;
    joined(alloc, place.as_slice())
}

// Follows the parts of a name from a place.
fn follow<'a>(alloc: Global, place: &mut Vec<&'a str>, name: &'a str) -> Result<(), AllocError>
    ensures { IfOk result (λ _. map (λ part. part.now) place.new.items ≡ walk (map (λ part. part.now) place.old.items) (parts_of name.entry.now)) }
{
    let parts = parts_of(alloc, name)?;
    for part in parts.iter() {
        take_step(place, part)?;
    }
    Ok(())
}

// The parts of a name, between its slashes.
fn parts_of<'a>(alloc: Global, name: &'a str) -> Result<Vec<&'a str>, AllocError>
    ensures { IfOk result (λ parts. map (λ part. part.now) parts.items ≡ parts_of name.entry.now) }
{
    name.split('/').collect(alloc)
}

// Follows a part of a name from a place.
fn take_step<'a>(place: &mut Vec<&'a str>, part: &'a str) -> Result<(), AllocError>
    ensures { IfOk result (λ _. map (λ part. part.now) place.new.items ≡ step (map (λ part. part.now) place.old.items) part.entry.now) }
{
    match part {
        "" | "." => {}
        ".." => {
            // Above the root there is only the root.
            let _ = place.pop();
        }
        _ => place.push(part)?,
    }
    Ok(())
}

// The absolute name of a place.
fn joined(alloc: Global, place: &[&str]) -> Result<String, AllocError>
    ensures { IfOk result (λ name. string_bytes name ≡ name_of (map (λ part. part.now) place.now)) }
{
    let mut name = String::new(alloc);
    for part in place.iter() {
        name.push_str("/")?;
        name.push_str(part)?;
    }
    Ok(name)
}

// An absolute name from this folder: the part of it below the folder, or the name itself if it is not below.
fn name_below<'a>(root: &str, whole: &'a str) -> &'a str
    ensures { result.now ≡ name_below root.now whole.entry.now }
{
    match whole.strip_prefix(root) {
        Some(rest) => after_slash(whole, rest),
        None => whole,
    }
}

// What follows the slash after the name of a folder, or the whole name if no slash follows.
fn after_slash<'a>(whole: &'a str, rest: &'a str) -> &'a str
    ensures { result.now ≡ after_slash whole.entry.now rest.entry.now }
{
    match rest.strip_prefix('/') {
        Some(below) => below,
        None if rest.is_empty() => rest,
        None => whole,
    }
}
