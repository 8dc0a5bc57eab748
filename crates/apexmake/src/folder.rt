// What receives the files of a run.

ghost use Rattle.std.specs.Prelude.{◌≡◌, List, Option, OnOk};
ghost use Rattle.apexmake.specs.Received.{NamedText, with_file};

/// What receives files, each with a name of its own.
pub trait Folder {
    // The files that it has received so far, if it knows them.
    ghost files: { Self → Option (List NamedText) };

    /// Finds out whether files may be written: whether the folder is new or empty. A fault if it is not, or if that cannot be found out.
    fn is_free(&mut self) -> Result<(), FolderFault>
        ensures { files self.new ≡ files self.old };

    /// Receives a file of this name and text.
    ///
    /// # Errors
    ///
    /// A fault if the file could not be written. Nothing is then known of the files.
    fn put(&mut self, name: &str, text: &[u8]) -> Result<(), FolderFault>
        ensures { OnOk result (files self.new ≡ with_file (files self.old) name.now text.now) };
}

/// Why a folder cannot be used, or a file could not be written.
#[derive(Clone, Copy, Debug, PartialEq, Eq)]
pub enum FolderFault {
    /// The folder has files, or it or a file of it gives an error.
    Unusable,
    /// Memory was refused.
    Memory,
}
