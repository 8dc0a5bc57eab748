// What a program says of a run beside the explanation of its answer.

use std::alloc::Global;
use std::fmt::Display;
use wording::Words;

/// That the stored example was checked, since no file was named, and how files are named.
pub fn words_of_stored_run(alloc: Global) -> Words {
    let mut words = Words::new(alloc);
    words.say("no file was named, so the example that is stored in the program was checked");
    words.next_line();
    words.say("to check files: apexcheck --config FILE --order FILE --workers N CORE...");
    words.next_line();
    words.say("all options: apexcheck --help");
    words
}

/// That the answer is known, and only the file of this name holds it up.
pub fn words_of_awaited(alloc: Global, name: &str) -> Words {
    let mut words = Words::new(alloc);
    words.say(format_args!(
        "the answer is known, and will be printed once {name} sends more or ends"
    ));
    words
}

/// That the log could not be written to the file of this name, and why.
pub fn words_of_unwritten_log(alloc: Global, name: &str, why: impl Display + Drop) -> Words {
    let mut words = Words::new(alloc);
    words.say(format_args!("{name}: the log could not be written: {why}"));
    words
}

/// That the answer could not be written as JSON to the file of this name, and why.
pub fn words_of_unwritten_answer(alloc: Global, name: &str, why: impl Display + Drop) -> Words {
    let mut words = Words::new(alloc);
    words.say(format_args!("{name}: the answer could not be written: {why}"));
    words
}

/// That the line could not be written.
pub fn words_of_unwritten_output(alloc: Global) -> Words {
    let mut words = Words::new(alloc);
    words.say("standard output could not be written");
    words
}
