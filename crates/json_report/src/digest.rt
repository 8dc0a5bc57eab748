// The digests of texts.

ghost use Rattle.std.specs.Prelude.{◌≡◌, IfOk, IfSome, length, string_bytes};
ghost use Rattle.json_report.specs.Answer.{sha256_digits};

use crate::answer::Digest;
use sha2::{Digest as Hasher, Sha256};
use std::alloc::{AllocError, Global};
use std::io;
use std::io::{ErrorKind, Read};

/// How many bytes are read at once.
const PIECE: usize = 8_192;

/// The SHA-256 of a text, in hexadecimal digits.
///
/// # Errors
///
/// `AllocError` if memory is refused.
pub fn sha256_of(alloc: Global, text: &[u8]) -> Result<String, AllocError>
    ensures { IfOk result (λ digits. string_bytes digits ≡ sha256_digits text.now) }
{
    let digest = Sha256::digest(text);
    hex::encode(alloc, digest)
}

/// The digest of what this reader has left, which is read to its end.
///
/// # Errors
///
/// The error of the reader, a lack of memory, or more bytes than a number of 64 bits counts.
pub fn digest_of<R: Read>(alloc: Global, reader: &mut R) -> io::Result<Digest>
    ensures bytes { IfOk result (λ digest. IfSome (R.remaining reader.old) (λ text. digest.bytes ≡ length text)) }
    ensures sha256 { IfOk result (λ digest. IfSome (R.remaining reader.old) (λ text. string_bytes digest.sha256 ≡ sha256_digits text)) }
{
    let mut piece = [0u8; PIECE];
    let mut hasher = Sha256::new();
    let mut bytes = 0u64;
    for _ in 0..u64::MAX {
        let count = reader.read(&mut piece)?;
        if count == 0 {
            let digest = hasher.finalize();
            let sha256 = hex::encode(alloc, digest)?;
            return Ok(Digest { bytes, sha256 });
        }
        hasher.update(&piece[..count]);
        let Some(more) = bytes.checked_add(count as u64) else {
            break;
        };
        bytes = more;
    }
    Err(io::Error::from(ErrorKind::FileTooLarge))
}
