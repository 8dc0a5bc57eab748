// The rows of recordings alone.

ghost use Rattle.apexcheck.specs.RowsAlone.{EndsByRows, IsOfRows};

use crate::awaited::Observed;
use crate::files::{end_by, open_cores};
use answer_words::{Explainer, Folder, InputNames};
use check_result::CheckEnd;
use csv_rows::{TextSource, Watched};
use program_ends::{Ending, out_of_memory};
use rows_check::find_in_each;
use std::alloc::Global;
use std::io::Read;

/// Opens the recordings of these names in this folder, core 0 first, and reads each to its end or to its first fault.
///
/// The explainer receives which file cannot be opened and why.
pub fn check_rows<D, F>(
    folder: &D,
    alloc: Global,
    names: &InputNames,
    explainer: &mut Explainer,
) -> Ending<CheckEnd>
where
    D: Folder<File = F>,
    F: Read + Drop,
    ensures { IsOfRows (D.facts folder.now) ⟦<Observed<Watched<F>> as TextSource>⟧.remaining ⟦<Observed<Watched<F>> as TextSource>⟧.can_fail names.now result }
{
    match open_cores(folder, alloc, &names.cores, &None, explainer) {
        Ok(sources) => end_of_rows(alloc, sources),
        Err(fault) => end_by(fault),
    }
}

// The end of a run over the rows of these sources.
fn end_of_rows<S: TextSource + Drop>(alloc: Global, sources: Vec<S>) -> Ending<CheckEnd>
    ensures { EndsByRows S.remaining S.can_fail sources.items result }
{
    match find_in_each(alloc, sources) {
        Ok(found) => Ending::Own(CheckEnd::Rows(found)),
        Err(_) => out_of_memory(),
    }
}
