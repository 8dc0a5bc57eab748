// The words that the system gives to the program.

ghost use Rattle.std.specs.Prelude.{◌≡◌, ◌≢◌, IfErr, IfOk, map, string_bytes};
ghost use Rattle.std.specs.IoError.{error_kind};
ghost use Rattle.std.specs.Result.{result_map_both};
ghost use Rattle.std.specs.Vec.Iter.{into_iter_items};
ghost use Rattle.check_request.specs.Requests.{IsRequested};

use crate::usage::{Asked, read_words};
use program_ends::UsageFault;
use std::alloc::{AllocError, Global};
use std::env::Args;
use std::io;
use std::io::ErrorKind;

/// What is requested by the words that the system gives, the program's own name first, or by its refusal to give them.
///
/// # Errors
///
/// `Memory` if memory is refused, and `Usage` if the words make a wrong command line or the system refuses them for another reason.
pub fn request_of(alloc: Global, given: io::Result<Args>) -> Result<Asked, UsageFault>
    ensures { IsRequested (result_map_both (λ words. map string_bytes (into_iter_items words)) error_kind given) result }
{
    match given_words(alloc, given) {
        Ok(words) => read_words(alloc, words.as_slice()),
        Err(fault) => Err(fault),
    }
}

// The words that the system gives. It refuses them if one is not UTF-8, which makes a wrong command line.
fn given_words(alloc: Global, given: io::Result<Args>) -> Result<Vec<String>, UsageFault>
    ensures words { IfOk given (λ given. IfOk result (λ words. words.items ≡ into_iter_items given)) }
    ensures starved { IfOk given (λ given. IfErr result (λ fault. fault ≡ UsageFault.Memory)) }
    ensures memory { IfErr given (λ e. error_kind e ≡ ErrorKind.OutOfMemory → result ≡ Err UsageFault.Memory) }
    ensures wrong { IfErr given (λ e. error_kind e ≢ ErrorKind.OutOfMemory → result ≡ Err UsageFault.Usage) }
{
    match given {
        Ok(words) => match collected(alloc, words) {
            Ok(words) => Ok(words),
            Err(_) => Err(UsageFault::Memory),
        },
        Err(e) if e.kind() == ErrorKind::OutOfMemory => Err(UsageFault::Memory),
        Err(_) => Err(UsageFault::Usage),
    }
}

// These words in a list.
fn collected(alloc: Global, words: Args) -> Result<Vec<String>, AllocError>
    ensures { IfOk result (λ collected. collected.items ≡ into_iter_items words) }
{
    words.collect(alloc)
}
