// What the reader of a rules file refuses: its first key or value that is not as a rules file has it. The table of the text is walked in the
// order of the reader in `asked_rules`.

use apex_types::limits::{LONGEST_RULE_NAME, MOST_LEVELS, MOST_RELATIONS, MOST_RULES};
use asked_rules::{FIELD_NAMES, RuleKey, RulesFault};
use record_read::{find_kind, find_out, find_service};
use toml::{Table, Value};
use user_rules::MOST_MEMORIES;

/// The keys of all forms of relations.
pub const RELATION_KEYS: [&str; 8] = [
    "field", "memory", "less", "equal", "greater", "not", "and", "or",
];

/// The keys of all forms of memories.
pub const MEMORY_KEYS: [&str; 8] = [
    "name", "since", "count", "last", "back", "reset", "take", "per",
];

/// For whom a memory may keep a value each.
pub const HOLDERS: [&str; 4] = ["module", "core", "partition", "process"];

// The keys of a memory that have relations, in the order of the reader.
const RELATIONS_OF_MEMORY: [&str; 5] = ["since", "count", "back", "reset", "last"];

/// A table of a rules file, by what it describes.
#[derive(Clone, Copy)]
pub enum Form {
    File,
    Memory,
    Rule,
    Relation,
    /// What a comparison has beside a field or a memory, if that is no number.
    Other,
}

impl Form {
    // Whether some table of this form has this key.
    fn has(self, key: &str) -> bool {
        match self {
            Form::File => matches!(key, "rule" | "memory"),
            Form::Memory => MEMORY_KEYS.iter().any(|known| *known == key),
            Form::Rule => matches!(key, "name" | "holds"),
            Form::Relation => RELATION_KEYS.iter().any(|known| *known == key),
            Form::Other => matches!(key, "field" | "memory"),
        }
    }
}

/// How a list combines relations.
#[derive(Clone, Copy)]
pub enum Join {
    And,
    Or,
}

impl Join {
    /// The key of the list.
    pub fn key(self) -> &'static str {
        match self {
            Join::And => "and",
            Join::Or => "or",
        }
    }
}

/// A step from a relation to one inside it.
#[derive(Clone, Copy)]
pub enum Step {
    Not,
    /// To the relation at this index of a list.
    Item(Join, usize),
}

/// The way from the relation under a key of a rule or of a memory to one inside it.
#[derive(Clone, Copy)]
pub struct Way {
    /// The key.
    pub under: &'static str,
    steps: [Step; MOST_LEVELS],
    length: usize,
}

impl Way {
    // The way to the relation under this key itself.
    fn new(under: &'static str) -> Way {
        Way {
            under,
            steps: [Step::Not; MOST_LEVELS],
            length: 0,
        }
    }

    /// The steps.
    pub fn steps(&self) -> &[Step] {
        self.steps.get(..self.length).unwrap_or(&[])
    }

    // The way that goes on by this step.
    fn then(mut self, step: Step) -> Way {
        let length = self.length;
        if let Some(place) = self.steps.get_mut(length) {
            *place = step;
            self.length = length.saturating_add(1);
        }
        self
    }
}

/// What a value of a rules file describes.
#[derive(Clone, Copy)]
pub enum Slot<'a> {
    Memories,
    Memory,
    Rules,
    Rule,
    Name,
    /// The name of a memory, which an earlier one has.
    SameName,
    Take,
    Per,
    /// The name of a memory that is compared, which must be one of these.
    Known { above: &'a [Value] },
    Relation,
    Relations(Join),
    Field,
    /// What the field of this name, or a memory of it, is compared with, under this key. A memory of no field has the empty name.
    Number { field: &'a str, key: &'static str },
}

/// What the reader refuses.
#[derive(Clone, Copy)]
pub enum Refused<'a> {
    /// A key that no table of this form has. These are the keys of the table.
    Key {
        form: Form,
        keys: &'a Table,
        key: &'a str,
    },
    /// The keys of a table of this form, which do not go together.
    Keys(Form, &'a Table),
    /// A table of this form without a key.
    NoKey(Form, RuleKey),
    /// A value that is not what belongs there.
    Value(Slot<'a>, &'a Value),
    /// A relation of more than 16 levels.
    Depth,
}

/// A memory or a rule: the key of its list, its number there, and what is given for it.
#[derive(Clone, Copy)]
pub struct Owner<'a> {
    pub list: &'static str,
    pub number: usize,
    pub value: &'a Value,
}

/// What the reader refuses, and where.
#[derive(Clone, Copy)]
pub struct Culprit<'a> {
    /// The memory or the rule, if the fault is of one.
    pub of: Option<Owner<'a>>,
    /// The way to the relation, if the fault is in one.
    pub way: Option<Way>,
    pub refused: Refused<'a>,
}

/// What the reader refuses for this fault, in a file with these keys.
pub fn culprit_of(keys: &Table, fault: RulesFault) -> Option<Culprit<'_>> {
    match fault {
        RulesFault::File(_) => Some(Culprit {
            of: None,
            way: None,
            refused: refused_in_file(keys)?,
        }),
        RulesFault::RuleMemory { memory, .. } => {
            let memories = items_under(keys, "memory");
            let value = memories.get(memory)?;
            let above = memories.get(..memory).unwrap_or(&[]);
            let refused = refused_in_memory(above, value)?;
            culprit_in("memory", memory, value, refused)
        }
        RulesFault::Rule { rule, .. } => {
            let value = items_under(keys, "rule").get(rule)?;
            let refused = refused_in_rule(items_under(keys, "memory"), value)?;
            culprit_in("rule", rule, value, refused)
        }
        RulesFault::Memory => None,
    }
}

// What the reader refuses in the memory or the rule of this number in this list.
fn culprit_in<'a>(
    list: &'static str,
    number: usize,
    value: &'a Value,
    refused: RefusedRule<'a>,
) -> Option<Culprit<'a>> {
    let RefusedRule { way, refused } = refused;
    Some(Culprit {
        of: Some(Owner {
            list,
            number,
            value,
        }),
        way,
        refused,
    })
}

// The items of the list under a key; none if there is no such list.
fn items_under<'a>(keys: &'a Table, key: &str) -> &'a [Value] {
    match keys.get(key) {
        Some(value) => match value.as_array() {
            Some(items) => items.as_slice(),
            None => &[],
        },
        None => &[],
    }
}

// What the reader refuses outside the memories and the rules, in a file with these keys.
fn refused_in_file(keys: &Table) -> Option<Refused<'_>> {
    let most = if keys.contains_key("memory") { 2 } else { 1 };
    if keys.len() > most {
        return Some(excess(Form::File, keys));
    }
    let Some(value) = keys.get("rule") else {
        return Some(missing(Form::File, keys, RuleKey::Rule));
    };
    if !is_list(value, MOST_RULES) {
        return Some(Refused::Value(Slot::Rules, value));
    }
    let value = keys.get("memory")?;
    if is_list(value, MOST_MEMORIES) {
        None
    } else {
        Some(Refused::Value(Slot::Memories, value))
    }
}

// Whether a value is a list of at most this many items.
fn is_list(value: &Value, most: usize) -> bool {
    match value.as_array() {
        Some(items) => items.len() <= most,
        None => false,
    }
}

// What the reader refuses in a memory or a rule, and the way there, if it is in a relation.
#[derive(Clone, Copy)]
struct RefusedRule<'a> {
    way: Option<Way>,
    refused: Refused<'a>,
}

// What the reader refuses in the memory that this value describes, below these memories.
fn refused_in_memory<'a>(above: &'a [Value], value: &'a Value) -> Option<RefusedRule<'a>> {
    let Some(keys) = value.as_table() else {
        return outside(Refused::Value(Slot::Memory, value));
    };
    if keys.len() > keys_allowed(keys) {
        return outside(excess(Form::Memory, keys));
    }
    let Some(name) = keys.get("name") else {
        return outside(missing(Form::Memory, keys, RuleKey::Name));
    };
    let Some(text) = name_in(name) else {
        return outside(Refused::Value(Slot::Name, name));
    };
    if memory_named(above, text).is_some() {
        return outside(Refused::Value(Slot::SameName, name));
    }
    if !["since", "count", "last"]
        .iter()
        .any(|key| keys.contains_key(*key))
    {
        return outside(missing(Form::Memory, keys, RuleKey::Keeps));
    }
    for key in RELATIONS_OF_MEMORY {
        if let Some(relation) = keys.get(key) {
            let found = refused_in_relation(above, relation, Way::new(key), MOST_LEVELS);
            if found.is_some() {
                return found;
            }
        }
    }
    refused_at_end(keys)
}

// What the reader refuses in a memory after its relations.
fn refused_at_end(keys: &Table) -> Option<RefusedRule<'_>> {
    if keys.contains_key("last") {
        let Some(take) = keys.get("take") else {
            return outside(missing(Form::Memory, keys, RuleKey::Take));
        };
        if field_in(take).is_none() {
            return outside(Refused::Value(Slot::Take, take));
        }
    }
    let per = keys.get("per")?;
    match per.as_str() {
        Some(name) if HOLDERS.iter().any(|known| *known == name) => None,
        _ => outside(Refused::Value(Slot::Per, per)),
    }
}

// How many keys a memory with these may have.
fn keys_allowed(keys: &Table) -> usize {
    let beside: &[&str] = if keys.contains_key("since") {
        &["per"]
    } else if keys.contains_key("count") {
        &["per", "back", "reset"]
    } else {
        &["per", "take"]
    };
    let mut count = 2usize;
    for key in beside {
        if keys.contains_key(*key) {
            count = count.saturating_add(1);
        }
    }
    count
}

// The memory of this name among these.
fn memory_named<'a>(memories: &'a [Value], name: &str) -> Option<&'a Table> {
    for value in memories {
        if let Some(keys) = value.as_table() {
            if text_under(keys, "name") == Some(name) {
                return Some(keys);
            }
        }
    }
    None
}

// The text under a key.
fn text_under<'a>(keys: &'a Table, key: &str) -> Option<&'a str> {
    keys.get(key)?.as_str()
}

// What the reader refuses in the rule that this value describes, in a file with these memories.
fn refused_in_rule<'a>(memories: &'a [Value], value: &'a Value) -> Option<RefusedRule<'a>> {
    let Some(keys) = value.as_table() else {
        return outside(Refused::Value(Slot::Rule, value));
    };
    if keys.len() > 2 {
        return outside(excess(Form::Rule, keys));
    }
    let Some(name) = keys.get("name") else {
        return outside(missing(Form::Rule, keys, RuleKey::Name));
    };
    if name_in(name).is_none() {
        return outside(Refused::Value(Slot::Name, name));
    }
    let Some(holds) = keys.get("holds") else {
        return outside(missing(Form::Rule, keys, RuleKey::Holds));
    };
    refused_in_relation(memories, holds, Way::new("holds"), MOST_LEVELS)
}

/// The name of a memory or a rule that a value is.
pub fn name_in(value: &Value) -> Option<&str> {
    let name = value.as_str()?;
    let is_name = !name.is_empty()
        && name.len() <= LONGEST_RULE_NAME
        && name.bytes().all(|byte| 0x20 <= byte && byte <= 0x7E);
    if is_name { Some(name) } else { None }
}

// What is refused in a memory or a rule outside its relations.
fn outside(refused: Refused<'_>) -> Option<RefusedRule<'_>> {
    Some(RefusedRule { way: None, refused })
}

// What the reader refuses in the relation that a value describes, to which this way leads, with at most this many levels. It may name these
// memories.
fn refused_in_relation<'a>(
    above: &'a [Value],
    value: &'a Value,
    way: Way,
    levels: usize,
) -> Option<RefusedRule<'a>> {
    if levels == 0 {
        return outside(Refused::Depth);
    }
    match parts_of(above, value) {
        Parts::Refused(refused) => Some(RefusedRule {
            way: Some(way),
            refused,
        }),
        Parts::Good => None,
        Parts::Negated(negated) => {
            refused_in_relation(above, negated, way.then(Step::Not), levels - 1)
        }
        Parts::Joined(join, items) => {
            for (index, item) in items.iter().enumerate() {
                let way = way.then(Step::Item(join, index));
                if let Some(found) = refused_in_relation(above, item, way, levels - 1) {
                    return Some(found);
                }
            }
            None
        }
    }
}

// The relations in the one that a value describes.
#[derive(Clone, Copy)]
enum Parts<'a> {
    // The reader refuses the relation itself.
    Refused(Refused<'a>),
    // A comparison.
    Good,
    Negated(&'a Value),
    Joined(Join, &'a [Value]),
}

// The relations in the one that a value describes.
fn parts_of<'a>(above: &'a [Value], value: &'a Value) -> Parts<'a> {
    let Some(keys) = value.as_table() else {
        return Parts::Refused(Refused::Value(Slot::Relation, value));
    };
    let is_alone = keys.len() <= 1;
    if let Some(negated) = keys.get("not") {
        return if is_alone {
            Parts::Negated(negated)
        } else {
            Parts::Refused(excess(Form::Relation, keys))
        };
    }
    for join in [Join::And, Join::Or] {
        if let Some(list) = keys.get(join.key()) {
            return if is_alone {
                items_of(join, list)
            } else {
                Parts::Refused(excess(Form::Relation, keys))
            };
        }
    }
    match refused_in_comparison(above, keys) {
        Some(refused) => Parts::Refused(refused),
        None => Parts::Good,
    }
}

// The relations that a list combines.
fn items_of(join: Join, list: &Value) -> Parts<'_> {
    match list.as_array() {
        Some(items) if !items.is_empty() && items.len() <= MOST_RELATIONS => {
            Parts::Joined(join, items.as_slice())
        }
        _ => Parts::Refused(Refused::Value(Slot::Relations(join), list)),
    }
}

// What the reader refuses in a comparison with these keys.
fn refused_in_comparison<'a>(above: &'a [Value], keys: &'a Table) -> Option<Refused<'a>> {
    if keys.len() > 2 {
        return Some(excess(Form::Relation, keys));
    }
    let field = match side_in(above, keys, Form::Relation) {
        Ok(field) => field,
        Err(refused) => return Some(refused),
    };
    for key in ["less", "equal", "greater"] {
        if let Some(value) = keys.get(key) {
            return refused_beside(above, field, key, value);
        }
    }
    Some(missing(Form::Relation, keys, RuleKey::Number))
}

// The name of the field that a table of this form names, or whose values the memory has that it names; empty for any other memory.
fn side_in<'a>(above: &'a [Value], keys: &'a Table, form: Form) -> Result<&'a str, Refused<'a>> {
    if let Some(value) = keys.get("memory") {
        let Some(name) = value.as_str() else {
            return Err(Refused::Value(Slot::Known { above }, value));
        };
        return match memory_named(above, name) {
            Some(memory) => Ok(text_under(memory, "take").unwrap_or("")),
            None => Err(Refused::Value(Slot::Known { above }, value)),
        };
    }
    let Some(value) = keys.get("field") else {
        return Err(missing(form, keys, RuleKey::Field));
    };
    match field_in(value) {
        Some(field) => Ok(field),
        None => Err(Refused::Value(Slot::Field, value)),
    }
}

// What the reader refuses under this key, with which a field of this name is compared.
fn refused_beside<'a>(
    above: &'a [Value],
    field: &'a str,
    key: &'static str,
    value: &'a Value,
) -> Option<Refused<'a>> {
    if let Some(keys) = value.as_table() {
        if keys.len() > 1 {
            return Some(excess(Form::Other, keys));
        }
        return side_in(above, keys, Form::Other).err();
    }
    if is_number(field, value) {
        None
    } else {
        Some(Refused::Value(Slot::Number { field, key }, value))
    }
}

// The name of a field that a value is.
fn field_in(value: &Value) -> Option<&str> {
    let name = value.as_str()?;
    if FIELD_NAMES.iter().any(|known| *known == name) {
        Some(name)
    } else {
        None
    }
}

// Whether a value is a number, or a name that means one in this field.
fn is_number(field: &str, value: &Value) -> bool {
    let Some(name) = value.as_str() else {
        return value.is_integer();
    };
    match field {
        "kind" => find_kind(name.as_bytes()).is_some(),
        "service" => find_service(name.as_bytes()).is_some(),
        "out" => find_out(name.as_bytes()).is_some(),
        _ => false,
    }
}

// A table that has too many keys: the first that it may not have, or all of them.
fn excess(form: Form, keys: &Table) -> Refused<'_> {
    match strange_key(form, keys) {
        Some(key) => Refused::Key { form, keys, key },
        None => Refused::Keys(form, keys),
    }
}

// A table without a key that it must have, which may have been misspelt.
fn missing(form: Form, keys: &Table, missing: RuleKey) -> Refused<'_> {
    match strange_key(form, keys) {
        Some(key) => Refused::Key { form, keys, key },
        None => Refused::NoKey(form, missing),
    }
}

// The first key of a table that no table of this form has.
fn strange_key(form: Form, keys: &Table) -> Option<&str> {
    for key in keys.keys() {
        if !form.has(key.as_str()) {
            return Some(key.as_str());
        }
    }
    None
}
