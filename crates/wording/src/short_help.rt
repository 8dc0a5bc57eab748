// The short help of the programs.

use crate::program::Program;
use std::fmt;
use std::fmt::Display;

const CHECK_HELP: &str =
    "usage: apexcheck --config FILE --order FILE --workers N [OPTION]... CORE...
       apexcheck --rows CORE...
       apexcheck --version | --help
Checks the recordings of the cores of an ARINC 653 module, in one proposed
order. Without arguments, it checks a stored example.
  inputs: --config FILE (the module), --order FILE (the order of the records),
          CORE... (one recording for each core)
  speed:  --workers N (threads, 1 to 64), --depth N (records read ahead)
  rules:  --max-elapsed TICKS, --forbid SERVICE, --rules FILE,
          --at-least RECORDS (refuse a YES for fewer)
  output: --last (the records before a NO), --sarif FILE (a log),
          --source-root FOLDER, --json FILE (the answer as data), --quiet
  alone:  --rows (the rows of the recordings, and nothing else)";

const ORDER_HELP: &str = "usage: apexorder --config FILE [OPTION]... CORE...
       apexorder --version | --help
Searches for an order of the records of the cores of an ARINC 653 module, and
prints it as a certificate for apexcheck.
  inputs: --config FILE (the module), CORE... (one recording for each core)
  search: --effort N (records tried for each one that is placed; default 1000)
  rules:  --max-elapsed TICKS, --forbid SERVICE, --rules FILE
  output: --quiet (neither the progress nor what stops each core)";

const VIEW_HELP: &str = "usage: apexview --config FILE --order FILE [OPTION]... CORE...
       apexview --version | --help
Shows a recording of the cores of an ARINC 653 module as a picture on standard
output, up to the first record that is rejected or breaks a rule.
  inputs: --config FILE (the module), --order FILE (the order of the records),
          CORE... (one recording for each core)
  shown:  --format FORMAT, --axis place|time, --at PLACE (end there),
          --span N (records before the end, 1 to 5000; default 200)
  rules:  --max-elapsed TICKS, --forbid SERVICE, --rules FILE";

const MAKE_HELP: &str = "usage: apexmake --config FILE --seed N --records N --out FOLDER [OPTION]...
       apexmake --module SEED
       apexmake --version | --help
Makes recordings of the cores of an ARINC 653 module, with the line that
apexcheck must print for them, or the configuration of a module.
  inputs: --config FILE (the module), --seed N (of all choices)
  made:   --records N (of all cores together), --format 1|2|3,
          --spoil CAUSE (the cause of a NO), --out FOLDER (new or empty)
  alone:  --module SEED (a random module)";

/// The short help of a program.
#[derive(Clone, Copy, Debug)]
pub struct HelpText<'a> {
    program: Program,
    documents: &'a str,
}

/// The short help of a program, whose last line names the folder of the documents. It has no line feed at its end.
pub fn help(program: Program, documents: &str) -> HelpText<'_> {
    HelpText { program, documents }
}

impl HelpText<'_> {
    /// Its lines before the last.
    pub fn options(self) -> &'static str {
        match self.program {
            Program::Check => CHECK_HELP,
            Program::Order => ORDER_HELP,
            Program::View => VIEW_HELP,
            Program::Make => MAKE_HELP,
        }
    }
}

impl Display for HelpText<'_> {
    fn fmt<W: fmt::Write>(&self, f: &mut fmt::Formatter<W>) -> fmt::Result {
        let (options, name) = (self.options(), self.program.name());
        let documents = self.documents;
        write!(
            f,
            "{options}\nall options: `man {name}`; documents: {documents}"
        )
    }
}
