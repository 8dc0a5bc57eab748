// Files that are not plain text, which are recognised by their first bytes: compressed ones, and those in UTF-16.

use std::fmt;
use std::fmt::Write;
use wording::Words;

/// How many first bytes of a file show that it is not plain text.
pub const LONGEST_SIGNATURE: usize = 10;

/// What a file is that is not plain text.
#[derive(Clone, Copy, Debug, PartialEq, Eq)]
pub enum Foreign {
    Compressed(Compression),
    Utf16,
}

impl Foreign {
    /// What a file with these first bytes is; None if it may be plain text.
    pub fn of(first: &[u8]) -> Option<Foreign> {
        match first {
            [0xFF, 0xFE, ..] | [0xFE, 0xFF, ..] => Some(Foreign::Utf16),
            _ => match Compression::of(first) {
                Some(compression) => Some(Foreign::Compressed(compression)),
                None => None,
            },
        }
    }

    // The command that writes the text of such a file to its output, as far as the name of the file.
    fn command(self) -> &'static str {
        match self {
            Foreign::Compressed(compression) => compression.command(),
            Foreign::Utf16 => "iconv -f UTF-16 -t UTF-8",
        }
    }
}

// What follows the first bytes of bzip2: the first block, or the end of an empty text.
const BZIP2_BLOCK: [u8; 6] = [0x31, 0x41, 0x59, 0x26, 0x53, 0x59];

const BZIP2_END: [u8; 6] = [0x17, 0x72, 0x45, 0x38, 0x50, 0x90];

/// How a file is compressed.
#[derive(Clone, Copy, Debug, PartialEq, Eq)]
pub enum Compression {
    Gzip,
    Xz,
    Zstd,
    Bzip2,
}

impl Compression {
    // How a file with these first bytes is compressed, if it is.
    fn of(first: &[u8]) -> Option<Compression> {
        match first {
            [0x1F, 0x8B, ..] => Some(Compression::Gzip),
            [0xFD, 0x37, 0x7A, 0x58, 0x5A, 0x00, ..] => Some(Compression::Xz),
            [0x28, 0xB5, 0x2F, 0xFD, ..] => Some(Compression::Zstd),
            [b'B', b'Z', b'h', b'1'..=b'9', block @ ..] => {
                if block.starts_with(&BZIP2_BLOCK) || block.starts_with(&BZIP2_END) {
                    Some(Compression::Bzip2)
                } else {
                    None
                }
            }
            _ => None,
        }
    }

    // Its name.
    fn name(self) -> &'static str {
        match self {
            Compression::Gzip => "gzip",
            Compression::Xz => "xz",
            Compression::Zstd => "zstd",
            Compression::Bzip2 => "bzip2",
        }
    }

    // The command that writes the text of such a file to its output.
    fn command(self) -> &'static str {
        match self {
            Compression::Gzip => "zcat",
            Compression::Xz => "xzcat",
            Compression::Zstd => "zstdcat",
            Compression::Bzip2 => "bzcat",
        }
    }
}

// A word of a command, in quotes if a shell would otherwise read it differently.
#[derive(Clone, Copy)]
struct ShellWord<'a>(&'a str);

impl fmt::Display for ShellWord<'_> {
    fn fmt<W: fmt::Write>(&self, f: &mut fmt::Formatter<W>) -> fmt::Result {
        if self.0.bytes().all(is_plain) {
            return write!(f, "{}", self.0);
        }
        write!(f, "'")?;
        for character in self.0.chars() {
            if character == '\'' {
                write!(f, "'\\''")?;
            } else {
                f.write_char(character)?;
            }
        }
        write!(f, "'")
    }
}

// Whether a shell takes a byte of a word literally.
fn is_plain(byte: u8) -> bool {
    byte.is_ascii_alphanumeric() || matches!(byte, b'/' | b'.' | b'_' | b'-' | b'+')
}

/// Reports what a file of this name is, if it is not plain text, and how its text can be given instead.
pub fn tell_foreign(words: &mut Words, name: &str, foreign: Option<Foreign>) {
    let Some(foreign) = foreign else {
        return;
    };
    words.next_line();
    match foreign {
        Foreign::Compressed(compression) => words.say(format_args!(
            "the file is compressed with {}",
            compression.name()
        )),
        Foreign::Utf16 => words.say("the file is in UTF-16"),
    }
    words.say("; only plain text in UTF-8 is read");
    words.next_line();
    words.say(format_args!(
        "in bash, write <({} {}) in place of its name",
        foreign.command(),
        ShellWord(name)
    ));
}
