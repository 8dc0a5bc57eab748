// The answer on standard error: its line, and why it is not Yes.

ghost use Rattle.std.specs.Prelude.{◌≡◌, ◌⊎◌};
ghost use Rattle.program_ends.specs.Endings.{out_of_memory};
ghost use Rattle.shown_run.specs.Endings.{refusing};

use crate::usage::Asked;
use answer_words::{Explainer, InputNames, RunFiles};
use program_ends::{Ending, Line, UsageFault, out_of_memory};
use report::Verdict;
use shown_run::ViewEnd;
use std::alloc::Global;
use std::fs::{File, Files};
use std::rt::Env;
use wording::{Documents, Look, Program, Refusal, Words};

/// Prints the line of an end, and explains it to a person. The end is the given one, or `Memory` if memory was refused to what explains
/// it.
pub fn explain<R: Files<File = File> + Env + Eprint + AllocGlobal>(
    rt: &R,
    alloc: Global,
    asked: &Result<Asked, UsageFault>,
    ending: Ending<ViewEnd>,
    explainer: &Explainer,
) -> Ending<ViewEnd>
    ensures { (result ≡ ending) ⊎ (result ≡ out_of_memory refusing) }
{
    match asked {
        Ok(Asked::Files { files, .. }) => {
            let explained = Explained::of(rt, alloc, &files.names, &ending, explainer);
            let documents = Documents::find(rt, alloc);
            if explained.lacks_memory() || documents.lacks_memory() {
                return end_without_memory(rt);
            }
            tell_line(rt, &ending);
            explained.tell(rt, look_with(&documents));
        }
        Ok(Asked::Version | Asked::Help) | Err(UsageFault::Memory) => tell_line(rt, &ending),
        Err(UsageFault::Usage) => {
            let refusal = Refusal::find(rt, alloc, Program::View);
            let documents = Documents::find(rt, alloc);
            if refusal.lacks_memory() || documents.lacks_memory() {
                return end_without_memory(rt);
            }
            tell_line(rt, &ending);
            refusal.tell(rt, look_with(&documents));
        }
    }
    ending
}

// The end if memory is refused to what is said, with its line.
fn end_without_memory(rt: &impl Eprint) -> Ending<ViewEnd>
    ensures { result ≡ out_of_memory refusing }
{
    let ending = out_of_memory();
    tell_line(rt, &ending);
    ending
}

// How words are shown: without colours, and with these documents.
fn look_with(documents: &Documents) -> Look<'_> {
    Look {
        in_colour: false,
        documents: documents.folder(),
    }
}

// What is said of an end after its line: what was noted, which keys of the configuration are ignored, what else may be a mistake there,
// and why the answer is not Yes, or after a Yes which recordings have no record.
#[derive(Drop)]
struct Explained<'a> {
    noted: &'a Words,
    unknown_keys: Words,
    warnings: Words,
    reason: Words,
}

impl<'a> Explained<'a> {
    fn of<R: Files<File = File>>(
        rt: &R,
        alloc: Global,
        names: &InputNames,
        ending: &Ending<ViewEnd>,
        explainer: &'a Explainer,
    ) -> Explained<'a> {
        let mut explained = Explained {
            noted: explainer.noted(),
            unknown_keys: Words::new(alloc),
            warnings: Words::new(alloc),
            reason: Words::new(alloc),
        };
        if let Ending::Own(ViewEnd::Checked(outcome)) = ending {
            let files = RunFiles { rt, alloc, names };
            explained.unknown_keys = files.unknown_keys(explainer);
            explained.warnings = files.warnings(explainer);
            if let Some(mut reason) = files.reason_of(outcome, explainer) {
                files.tell_other_orders(&mut reason, outcome);
                explained.reason = reason.words;
            } else if let Ok(Verdict::Yes { records }) = outcome {
                explained.reason = files.without_records(*records);
            }
        }
        explained
    }

    // Whether memory was refused to it.
    fn lacks_memory(&self) -> bool {
        self.noted.lacks_memory()
            || self.unknown_keys.lacks_memory()
            || self.warnings.lacks_memory()
            || self.reason.lacks_memory()
    }

    fn tell(&self, rt: &impl Eprint, look: Look<'_>) {
        tell_words(rt, self.noted, look);
        tell_words(rt, &self.unknown_keys, look);
        tell_words(rt, &self.warnings, look);
        tell_words(rt, &self.reason, look);
    }
}

// Prints the line of an end, if it has one. A failure there changes nothing.
fn tell_line(rt: &impl Eprint, ending: &Ending<ViewEnd>) {
    let line = Line::of(ending);
    if !line.text().is_empty() {
        let _ = rt.eprintln(line.text());
    }
}

// Prints words, if there are any.
fn tell_words(rt: &impl Eprint, words: &Words, look: Look<'_>) {
    if !words.is_empty() {
        let _ = rt.eprintln(format_args!("apexview: {}", words.shown(look)));
    }
}
