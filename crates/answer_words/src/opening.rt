// How files are opened: what a folder answers for a name, and what is noted of a refusal for a person.

ghost use Rattle.std.specs.Prelude.{◌≡◌, ◌≢◌, IfErr, IfOk, IsErrAnd, IsSomeAnd, option_map, string_bytes};
ghost use Rattle.std.specs.IoError.{error_kind};
ghost use Rattle.answer_words.specs.Folders.{AreRulesOf};

use crate::explainer::Explainer;
use crate::folder::Folder;
use std::alloc::{AllocFailed, Global};
use std::io;
use std::io::ErrorKind;

/// Why not all files of a run could be opened.
#[derive(Clone, Copy, Debug, PartialEq, Eq)]
pub enum OpenFault {
    /// A file cannot be opened, or the configuration or the rules file cannot be read.
    Unopened,
    /// Memory was refused.
    Memory,
}

/// The text of the rules file of this name, if one is named.
pub fn open_rules<D: Folder>(
    folder: &D,
    alloc: Global,
    name: &Option<String>,
    explainer: &mut Explainer,
) -> Result<Option<Vec<u8>>, OpenFault>
    ensures rules { IfOk result (λ rules. AreRulesOf (D.facts folder.now) (option_map string_bytes name.now) (option_map (λ text. text.items) rules)) }
    ensures refused { IfErr result (λ fault. fault ≡ OpenFault.Unopened → IsSomeAnd (option_map string_bytes name.now) (D.facts folder.now).refuses) }
{
    let Some(name) = name else {
        return Ok(None);
    };
    let text = reported(explainer, name, folder.open_text(alloc, name))?;
    Ok(Some(text))
}

/// The answer of a folder for the file of this name. A refusal other than a lack of memory is noted for a person.
pub fn reported<T: Drop>(
    explainer: &mut Explainer,
    name: &str,
    answer: io::Result<T>,
) -> Result<T, OpenFault>
    ensures value { IfOk answer (λ value. result ≡ Ok value) }
    ensures given { IfOk result (λ value. answer ≡ Ok value) }
    ensures refused { IfErr result (λ fault. fault ≡ OpenFault.Unopened → IsErrAnd answer (λ e. error_kind e ≢ ErrorKind.OutOfMemory)) }
    ensures memory { IfErr answer (λ e. error_kind e ≡ ErrorKind.OutOfMemory → result ≡ Err OpenFault.Memory) }
    ensures unopened { IfErr answer (λ e. error_kind e ≢ ErrorKind.OutOfMemory → result ≡ Err OpenFault.Unopened) }
{
    match answer {
        Ok(value) => Ok(value),
        Err(e) if e.kind() == ErrorKind::OutOfMemory => Err(OpenFault::Memory),
        Err(e) => {
            explainer.note_unopened(name, e);
            Err(OpenFault::Unopened)
        }
    }
}

impl<T: Drop> From<AllocFailed<T>> for OpenFault {
    ghost use Rattle.std.specs.Prelude.{◌≡◌};
    ghost use Rattle.answer_words.specs.declared.opening.OpenFault.TheVariants.{Memory};

    ghost from_gives = { λ _ fault. fault ≡ Memory };

    fn from(_: AllocFailed<T>) -> OpenFault {
        OpenFault::Memory
    }
}
