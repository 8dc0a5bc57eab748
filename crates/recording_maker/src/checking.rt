// What the check answers for texts in memory.

ghost use Rattle.std.specs.Prelude.{◌≡◌, [], IfOk, Some, length, map};
ghost use Rattle.std.specs.Io.Cursor.{cursor_remaining};
ghost use Rattle.recording_maker.specs.Made.{IsAnswerTo, texts_of};

use report::{CheckFault, Inputs, Last, Nobody, Open, Options, Settings, Verdict, check_inputs};
use std::alloc::{AllocError, Global};
use std::io::Cursor;
use std::sync::Wait;
use std::thread::Threads;

// How the check is carried out. No answer depends on it.
const SETTINGS: Settings = Settings {
    workers: 2,
    depth: 4_096,
};

/// The answer of the check for these texts under no rules.
///
/// `AllocError` if memory is refused for the readers.
pub fn answer_to<T>(
    rt: T,
    alloc: Global,
    config: &[u8],
    recordings: &[Vec<u8>],
    certificate: &[u8],
) -> Result<Result<Verdict, CheckFault>, AllocError>
where
    T: Threads + Wait + Sync + Copy + Send + 'static,
    ensures { IfOk result (IsAnswerTo (texts_of config.now (map (λ recording. recording.items) recordings.now) certificate.now)) }
{
    let readers = readers_of(alloc, recordings)?;
    let Ok(mut last) = Last::new(alloc) else {
        return Err(AllocError);
    };
    let inputs = Inputs::new(config, readers, certificate);
    let options = Options::new(SETTINGS, &Open);
    Ok(check_inputs(rt, alloc, inputs, &[], &[], options, &mut last, &mut Nobody))
}

// A reader for each recording, which gives a copy of its bytes.
fn readers_of(alloc: Global, recordings: &[Vec<u8>]) -> Result<Vec<Cursor<Vec<u8>>>, AllocError>
    ensures count { IfOk result (λ readers. length readers.items ≡ length recordings.now) }
    ensures bytes { IfOk result (λ readers. map (λ reader. cursor_remaining (λ text. Some text.items) reader) readers.items ≡ map Some (map (λ recording. recording.items) recordings.now)) }
{
    let mut readers = Vec::new(alloc);
    for recording in recordings {
        readers.push(reader_of(alloc, recording)?)?;
    }
    Ok(readers)
}

// A reader that gives a copy of a recording's bytes.
fn reader_of(alloc: Global, recording: &[u8]) -> Result<Cursor<Vec<u8>>, AllocError>
    ensures { IfOk result (λ reader. cursor_remaining (λ text. Some text.items) reader ≡ Some recording.now) }
{
    Ok(Cursor::new(Vec::from_slice(alloc, recording)?))
}
