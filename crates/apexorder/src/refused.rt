// Why the inputs of a search are refused, in words.

use crate::noted::Noted;
use crate::search_files::SearchFiles;
use input_explanation::{Foreign, FoundRow, Row, tell_foreign, tell_row_fault};
use module_config::ConfigFault;
use placement::InputFault;
use record_read::RowFault;
use report::CheckFault;
use std::fs::Files;
use std::io::Read;
use toml_explanation::tell_configuration;
use wording::Words;

impl<R: Files<File = F>, F: Read + Drop> SearchFiles<'_, R> {
    /// Why the inputs are refused: the file and the line that are wrong, what was found there, and what was expected.
    pub fn words_of_fault(&self, fault: &CheckFault, noted: &Noted) -> Words {
        let mut words = Words::new(self.alloc);
        match fault {
            CheckFault::Memory => words.say("out of memory: the order is incomplete"),
            CheckFault::Arguments(_) => words.append(&noted.recording_count),
            CheckFault::Config(fault) => self.tell_config(*fault, noted.foreign, &mut words),
            CheckFault::Input(InputFault::Row { core, seq, fault }) => {
                self.tell_row(*core, *seq, *fault, &mut words);
            }
            CheckFault::Input(fault) => words.say(*fault),
        }
        words
    }

    // Reports what is wrong with the row of this number in the recording of this core.
    fn tell_row(&self, core: u32, number: u64, fault: RowFault, words: &mut Words) {
        if let Some(name) = self.names.cores.get(core as usize) {
            let foreign = self.foreign_of(name);
            let found = self.tell_place(words, name, number);
            let row = match foreign {
                None => row_with(number, found.as_ref()),
                Some(_) => None,
            };
            tell_row_fault(words, self.alloc, fault, row);
            tell_foreign(words, name, foreign);
        }
    }

    // Reports what is wrong with the configuration, which is this if it is not plain text.
    fn tell_config(&self, fault: ConfigFault, foreign: Option<Foreign>, words: &mut Words) {
        let name = self.names.config.as_str();
        let text = match foreign {
            None => self.text_of(name),
            Some(_) => None,
        };
        let _line = tell_configuration(words, self.alloc, name, fault, text.as_deref());
        tell_foreign(words, name, foreign);
    }
}

// A row of a recording, whose number is this one.
fn row_with(number: u64, row: Option<&FoundRow>) -> Option<Row<'_>> {
    match (row, u32::try_from(number)) {
        (Some(row), Ok(number)) => Some(Row {
            format: row.format,
            number,
            fields: &row.fields,
        }),
        _ => None,
    }
}
