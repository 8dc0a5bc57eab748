// The refusals of a rules file in words: the line, the rule, what is found there, and what is expected. The text is read again.

use crate::key_lines::{Located, Position};
use crate::refused_rules::{
    Culprit, Form, HOLDERS, MEMORY_KEYS, Owner, RELATION_KEYS, Refused, Slot, Step, Way,
    culprit_of, name_in,
};
use apex_types::SERVICES;
use apex_types::limits::{
    LONGEST_RULE_NAME, LONGEST_RULES_FILE, MOST_LEVELS, MOST_RELATIONS, MOST_RULES,
};
use asked_rules::{FIELD_NAMES, RuleFault, RuleKey, RulesFault, RulesRefusal};
use std::alloc::{AllocError, Global};
use std::{fmt, str};
use toml::de::Error;
use toml::{Table, Value};
use user_rules::MOST_MEMORIES;
use wording::{Count, Found, Part, Words};

const KIND_NAMES: [&str; 7] = ["call", "ret", "disp", "tick", "arrive", "depart", "err"];

const OUTCOME_NAMES: [&str; 9] = [
    "NO_ERROR",
    "NO_ACTION",
    "NOT_AVAILABLE",
    "INVALID_PARAM",
    "INVALID_CONFIG",
    "INVALID_MODE",
    "TIMED_OUT",
    "wait",
    "none",
];

/// A rules file that is refused.
#[derive(Clone, Copy)]
pub struct RefusedRules<'a> {
    pub name: &'a str,
    pub refusal: RulesRefusal,
    /// Its text, if that says something to a person.
    pub text: Option<&'a [u8]>,
}

/// Reports why a rules file is refused. Returns the line that has the fault, counted from 1, if it is found.
pub fn tell_rules(words: &mut Words, alloc: Global, file: RefusedRules<'_>) -> Option<u64> {
    let position = match file.text {
        None => tell_refusal(words, &file),
        Some(text) if text.len() > LONGEST_RULES_FILE => {
            say_file(words, &file, Position::Unknown);
            words.say(format_args!(
                "the file is too long; at most {LONGEST_RULES_FILE} bytes are accepted"
            ));
            Position::Unknown
        }
        Some(text) => tell_text(words, alloc, &file, text),
    };
    words.next_line();
    words.say("the form of a rules file: ");
    words.say_document("FORMATS.md", "Rules");
    position.line()
}

// Reports what the reader refuses in a text, and where.
fn tell_text(words: &mut Words, alloc: Global, file: &RefusedRules<'_>, text: &[u8]) -> Position {
    let keys = match toml::table_from_slice(alloc, text) {
        Ok(keys) => keys,
        Err(why) if why.is_memory() => {
            words.note_lack_of_memory();
            return tell_refusal(words, file);
        }
        Err(why) => return tell_no_toml(words, file, text, &why),
    };
    let Some(culprit) = culprit_of(&keys, file.refusal.fault) else {
        return tell_refusal(words, file);
    };
    let position = Position::of_line(line_of(text, &culprit));
    say_file(words, file, position);
    if let Some(owner) = culprit.of {
        say_owner(words, owner, culprit.way);
    }
    tell_refused(words, alloc, culprit.refused);
    position
}

// Reports a refusal of which the text says no more.
fn tell_refusal(words: &mut Words, file: &RefusedRules<'_>) -> Position {
    say_file(words, file, Position::Unknown);
    words.say(&file.refusal);
    Position::Unknown
}

// Reports why a text is not TOML, and where.
fn tell_no_toml(words: &mut Words, file: &RefusedRules<'_>, text: &[u8], why: &Error) -> Position {
    let position = match why.span() {
        Some(span) => Position::after(text, span.start),
        None => Position::Unknown,
    };
    say_file(words, file, position);
    words.say(&file.refusal);
    words.next_line();
    words.say(why.message());
    position
}

// Reports the file, and a position in it.
fn say_file(words: &mut Words, file: &RefusedRules<'_>, position: Position) {
    words.say(format_args!("{}{position}: ", file.name));
}

// Reports a memory or a rule, by its number, by its name, if it has one, and by its place in the file, and the relation in it to which a way
// leads.
fn say_owner(words: &mut Words, owner: Owner<'_>, way: Option<Way>) {
    let Owner {
        list,
        number,
        value,
    } = owner;
    words.say(format_args!("{list} {number}"));
    if let Some(name) = name_of(value) {
        words.say(format_args!(", \"{name}\""));
    }
    let nth = number.saturating_add(1);
    words.say(format_args!(" ([[{list}]] {nth} of the file)"));
    if let Some(way) = way {
        words.say(format_args!(", {}", way.under));
        for step in way.steps() {
            match step {
                Step::Not => words.say(".not"),
                Step::Item(join, index) => words.say(format_args!(".{}[{index}]", join.key())),
            }
        }
    }
    words.say(": ");
}

// The name of the memory or the rule that a value describes, if it has one.
fn name_of(value: &Value) -> Option<&str> {
    name_in(value.as_table()?.get("name")?)
}

// Reports what the reader refuses, and what is expected.
fn tell_refused(words: &mut Words, alloc: Global, refused: Refused<'_>) {
    match refused {
        Refused::Key { form, keys, key } => {
            words.say("the key ");
            words.say_part(Part::Recorded, Found(key.as_bytes()));
            words.say(" is not allowed here");
            words.suggest(key, keys_missing(form, keys));
            tell_form(words, form);
        }
        Refused::Keys(form, keys) => {
            words.say("the keys ");
            words.begin_part(Part::Recorded);
            say_keys(words, keys);
            words.end_part();
            words.say(" do not go together");
            tell_form(words, form);
        }
        Refused::NoKey(form, key) => {
            words.say(format_args!("the key {key} is missing"));
            tell_form(words, form);
        }
        Refused::Value(slot, value) => tell_value(words, alloc, slot, value),
        Refused::Depth => words.say(format_args!(
            "the relation has more than {MOST_LEVELS} levels; at most {MOST_LEVELS} are allowed"
        )),
    }
}

// The keys that a table may have, and does not have.
fn keys_missing(form: Form, keys: &Table) -> &'static [&'static str] {
    let has = |key: &str| keys.contains_key(key);
    match form {
        Form::File => match (has("rule"), has("memory")) {
            (false, false) => &["rule", "memory"],
            (false, true) => &["rule"],
            (true, false) => &["memory"],
            (true, true) => &[],
        },
        Form::Memory => &MEMORY_KEYS,
        Form::Other => &["field", "memory"],
        Form::Rule => match (has("name"), has("holds")) {
            (false, false) => &["name", "holds"],
            (false, true) => &["name"],
            (true, false) => &["holds"],
            (true, true) => &[],
        },
        Form::Relation if has("not") || has("and") || has("or") => &[],
        Form::Relation => match (
            has("field") || has("memory"),
            has("less") || has("equal") || has("greater"),
        ) {
            (false, false) => &RELATION_KEYS,
            (false, true) => &["field", "memory"],
            (true, false) => &["less", "equal", "greater"],
            (true, true) => &[],
        },
    }
}

// Reports the keys of a table in quotes.
fn say_keys(words: &mut Words, keys: &Table) {
    let count = keys.len();
    for (index, key) in keys.keys().enumerate() {
        if index > 0 {
            words.say(if index.saturating_add(1) == count {
                " and "
            } else {
                ", "
            });
        }
        words.say(Found(key.as_str().as_bytes()));
    }
}

// Reports which keys a table has.
fn tell_form(words: &mut Words, form: Form) {
    words.next_line();
    words.say("expected ");
    words.say_part(
        Part::Expected,
        match form {
            Form::File => {
                "[[rule]] before each rule, [[memory]] before each memory, and no other key"
            }
            Form::Memory => {
                "'name', one of 'since', 'count' and 'last', 'back' and 'reset' with 'count', 'take' with 'last', 'per', and no other key"
            }
            Form::Other => "'field' or 'memory', and no other key",
            Form::Rule => "the keys 'name' and 'holds', and no other",
            Form::Relation => {
                "'field' or 'memory' and one of 'less', 'equal' and 'greater', or one of 'not', 'and' and 'or', and no other key"
            }
        },
    );
}

// Reports a value that is not what belongs there, and what is expected.
fn tell_value(words: &mut Words, alloc: Global, slot: Slot<'_>, value: &Value) {
    words.say(Subject(slot));
    words.say(" is ");
    match (slot, value.as_str()) {
        (Slot::Name, Some(name)) => tell_name(words, name),
        (Slot::SameName, Some(name)) => {
            words.say_part(Part::Recorded, Found(name.as_bytes()));
            words.say(", which an earlier memory has");
        }
        (Slot::Known { above }, Some(name)) => tell_unknown(words, alloc, above, name),
        (Slot::Field | Slot::Take, Some(name)) => tell_field(words, name),
        (Slot::Number { field, .. }, Some(name)) => tell_number(words, alloc, field, name),
        _ => {
            words.say_part(Part::Recorded, Given(value));
            tell_expected(words, slot);
        }
    }
}

// What a value describes, as the subject of a sentence.
#[derive(Clone, Copy)]
struct Subject<'a>(Slot<'a>);

impl fmt::Display for Subject<'_> {
    fn fmt<W: fmt::Write>(&self, f: &mut fmt::Formatter<W>) -> fmt::Result {
        match self.0 {
            Slot::Memories | Slot::Known { .. } => write!(f, "the key 'memory'"),
            Slot::Memory => write!(f, "the memory"),
            Slot::Rules => write!(f, "the key 'rule'"),
            Slot::Rule => write!(f, "the rule"),
            Slot::Name | Slot::SameName => write!(f, "the key 'name'"),
            Slot::Take => write!(f, "the key 'take'"),
            Slot::Per => write!(f, "the key 'per'"),
            Slot::Relation => write!(f, "the relation"),
            Slot::Relations(join) => write!(f, "the key '{}'", join.key()),
            Slot::Field => write!(f, "the key 'field'"),
            Slot::Number { key, .. } => write!(f, "the key '{key}'"),
        }
    }
}

// Reports what a value must be.
fn tell_expected(words: &mut Words, slot: Slot<'_>) {
    words.say("; expected ");
    words.begin_part(Part::Expected);
    match slot {
        Slot::Rules => words.say(format_args!(
            "a list of at most {MOST_RULES} tables, with [[rule]] before each"
        )),
        Slot::Memories => words.say(format_args!(
            "a list of at most {MOST_MEMORIES} tables, with [[memory]] before each"
        )),
        Slot::Memory => words.say(
            "a table with the key 'name' and one of 'since', 'count' and 'last'",
        ),
        Slot::Rule => words.say("a table with the keys 'name' and 'holds'"),
        Slot::SameName | Slot::Known { .. } => words.say("the name of a memory"),
        Slot::Per => say_choice(words, &HOLDERS),
        Slot::Name => words.say(format_args!(
            "a string of 1 to {LONGEST_RULE_NAME} bytes from 0x20 to 0x7E"
        )),
        Slot::Relation => words.say("a table, such as { field = \"elapsed\", less = 100 }"),
        Slot::Relations(_) => words.say(format_args!("a list of 1 to {MOST_RELATIONS} relations")),
        Slot::Field | Slot::Take => words.say("the name of a field"),
        Slot::Number { field, .. } => match named(field) {
            Some(what) => words.say(format_args!("a whole number or the name of {what}")),
            None => words.say("a whole number"),
        },
    }
    words.end_part();
}

// Reports names of which one is chosen.
fn say_choice(words: &mut Words, names: &[&str]) {
    for (index, name) in names.iter().enumerate() {
        let is_last = index.saturating_add(1) == names.len();
        words.say(if index == 0 {
            ""
        } else if is_last {
            " or "
        } else {
            ", "
        });
        words.say(format_args!("'{name}'"));
    }
}

// Reports a string that is not the name of a memory or a rule.
fn tell_name(words: &mut Words, name: &str) {
    words.say_part(Part::Recorded, Found(name.as_bytes()));
    let stray = name.bytes().find(|byte| !(0x20 <= *byte && *byte <= 0x7E));
    if name.len() > LONGEST_RULE_NAME {
        words.say(format_args!(", of {}", Count(name.len(), "byte")));
    } else if let Some(byte) = stray {
        words.say(format_args!(", with the byte 0x{byte:02X}"));
    }
    tell_expected(words, Slot::Name);
}

// Reports a string that is not the name of one of the memories above.
fn tell_unknown(words: &mut Words, alloc: Global, above: &[Value], name: &str) {
    words.say_part(Part::Recorded, Found(name.as_bytes()));
    words.say(", which is not the name of a memory above");
    match memory_names(alloc, above) {
        Ok(names) => words.suggest(name, names.as_slice()),
        Err(_) => words.note_lack_of_memory(),
    }
}

// The names of these memories.
fn memory_names(alloc: Global, memories: &[Value]) -> Result<Vec<&str>, AllocError> {
    let mut names = Vec::new(alloc);
    for memory in memories {
        if let Some(name) = name_of(memory) {
            names.push(name)?;
        }
    }
    Ok(names)
}

// Reports a string that is not the name of a field.
fn tell_field(words: &mut Words, name: &str) {
    words.say_part(Part::Recorded, Found(name.as_bytes()));
    words.say(", which is not the name of a field");
    words.suggest(name, &FIELD_NAMES);
    words.next_line();
    words.say("the fields are ");
    say_names(words, &FIELD_NAMES);
}

// Reports a string that is not the name of a number in a field.
fn tell_number(words: &mut Words, alloc: Global, field: &str, name: &str) {
    words.say_part(Part::Recorded, Found(name.as_bytes()));
    let Some(what) = named(field) else {
        if field.is_empty() {
            words.say(", but this memory takes only whole numbers");
        } else {
            words.say(format_args!(", but the field '{field}' takes only whole numbers"));
        }
        return;
    };
    words.say(format_args!(", which is not the name of {what}"));
    match field {
        "kind" => suggest_of_all(words, name, "the kinds are ", &KIND_NAMES),
        "out" => suggest_of_all(words, name, "the outcomes are ", &OUTCOME_NAMES),
        _ => match service_names(alloc) {
            Ok(names) => {
                words.suggest(name, names.as_slice());
                words.next_line();
                words.say("the services: ");
                words.say_document("FORMATS.md", "The services");
            }
            Err(_) => words.note_lack_of_memory(),
        },
    }
}

// What the names mean with which a field may be compared; None if it is compared with a number only.
fn named(field: &str) -> Option<&'static str> {
    match field {
        "kind" => Some("a kind of records"),
        "service" => Some("a service"),
        "out" => Some("an outcome"),
        _ => None,
    }
}

// Adds the name among these that a word probably means, and then all of them.
fn suggest_of_all(words: &mut Words, word: &str, are: &str, names: &[&str]) {
    words.suggest(word, names);
    words.next_line();
    words.say(are);
    say_names(words, names);
}

// Reports names in a row.
fn say_names(words: &mut Words, names: &[&str]) {
    words.begin_part(Part::Expected);
    for (index, name) in names.iter().enumerate() {
        if index > 0 {
            let is_last = index.saturating_add(1) == names.len();
            words.say(if is_last { " and " } else { ", " });
        }
        words.say(*name);
    }
    words.end_part();
}

// The names of all services.
fn service_names(alloc: Global) -> Result<Vec<&'static str>, AllocError> {
    let mut names = Vec::new(alloc);
    for row in SERVICES.iter() {
        if let Ok(name) = str::from_utf8(row.name) {
            names.push(name)?;
        }
    }
    Ok(names)
}

// The line of what the reader refuses, or of the innermost table around it that is found.
fn line_of(text: &[u8], culprit: &Culprit<'_>) -> Option<u64> {
    let file = Located::text(text);
    let Some(owner) = culprit.of else {
        return file.line_of(key_of(culprit.refused)?);
    };
    Some(line_inside(file.item(owner.list, owner.number)?, culprit))
}

// The line of what the reader refuses in a memory or a rule, or of the innermost table around it that is found.
fn line_inside(owner: Located<'_>, culprit: &Culprit<'_>) -> u64 {
    let mut around = owner;
    if let Some(way) = culprit.way {
        let Some(relation) = owner.under(way.under) else {
            return owner.line;
        };
        around = relation;
        for step in way.steps() {
            let inside = match step {
                Step::Not => around.under("not"),
                Step::Item(join, index) => around.item(join.key(), *index),
            };
            let Some(inside) = inside else {
                return around.line;
            };
            around = inside;
        }
    }
    let under = match key_of(culprit.refused) {
        Some(key) => around.under(key),
        None => None,
    };
    match under {
        Some(value) => value.line,
        None => around.line,
    }
}

// The key of what the reader refuses, if that is under one.
fn key_of(refused: Refused<'_>) -> Option<&str> {
    match refused {
        Refused::Key { key, .. } => Some(key),
        Refused::Depth => Some("holds"),
        Refused::Keys(..) | Refused::NoKey(..) => None,
        Refused::Value(slot, _) => match slot {
            Slot::Memories | Slot::Known { .. } => Some("memory"),
            Slot::Rules => Some("rule"),
            Slot::Name | Slot::SameName => Some("name"),
            Slot::Take => Some("take"),
            Slot::Per => Some("per"),
            Slot::Relations(join) => Some(join.key()),
            Slot::Field => Some("field"),
            Slot::Number { key, .. } => Some(key),
            Slot::Memory | Slot::Rule | Slot::Relation => None,
        },
    }
}

// What is found, in words.
#[derive(Clone, Copy)]
struct Given<'a>(&'a Value);

impl fmt::Display for Given<'_> {
    fn fmt<W: fmt::Write>(&self, f: &mut fmt::Formatter<W>) -> fmt::Result {
        if let Some(number) = self.0.as_integer() {
            return write!(f, "{number}");
        }
        if let Some(text) = self.0.as_str() {
            return write!(f, "the string {}", Found(text.as_bytes()));
        }
        if let Some(items) = self.0.as_array() {
            return write!(f, "a list of {}", Count(items.len(), "item"));
        }
        write!(f, "a {}", self.0.type_str())
    }
}
