// An object of JSON whose members are added one after another.

use apex_types::Name;
use run_numbers::Extreme;
use serde_json::{Map, Value, put};
use std::alloc::{AllocError, Global};
use wording::Ascii;

/// An object with its members so far. A call that adds a member takes the object and what is made of the member, so that a failure of either
/// leaves nothing that the caller drops.
#[derive(Drop)]
pub(crate) struct Object {
    alloc: Global,
    members: Map<String, Value>,
}

impl Object {
    /// An object without a member.
    pub(crate) fn new(alloc: Global) -> Object {
        Object {
            alloc,
            members: Map::new(alloc),
        }
    }

    /// Adds a member.
    pub(crate) fn with(
        mut self,
        name: &str,
        value: Result<Value, AllocError>,
    ) -> Result<Object, AllocError> {
        put(&mut self.members, self.alloc, name, value?)?;
        Ok(self)
    }

    /// Adds a list.
    pub(crate) fn with_list(
        self,
        name: &str,
        list: Result<Vec<Value>, AllocError>,
    ) -> Result<Object, AllocError> {
        self.with(name, Ok(Value::Array(list?)))
    }

    /// Adds a number.
    pub(crate) fn with_number(self, name: &str, number: u64) -> Result<Object, AllocError> {
        self.with(name, Ok(Value::from(number)))
    }

    /// Adds a text.
    pub(crate) fn with_text(self, name: &str, text: &str) -> Result<Object, AllocError> {
        let value = Value::try_from_str(self.alloc, text);
        self.with(name, value)
    }

    /// Adds a text of bytes that are shown as ASCII.
    pub(crate) fn with_ascii(self, name: &str, text: &[u8]) -> Result<Object, AllocError> {
        let text = format!(in self.alloc; "{}", Ascii(text))?;
        self.with(name, Ok(Value::String(text)))
    }

    /// Adds the name of what the object is about, or null if it has none.
    pub(crate) fn with_name(self, name: Option<&Name>) -> Result<Object, AllocError> {
        match name {
            Some(name) => self.with_ascii("name", name.as_bytes()),
            None => self.with("name", Ok(Value::Null)),
        }
    }

    /// Adds a greatest or a least value with its place, or null if there is none.
    pub(crate) fn with_extreme(
        self,
        name: &str,
        extreme: Option<Extreme>,
    ) -> Result<Object, AllocError> {
        let value = extreme_value(self.alloc, extreme);
        self.with(name, value)
    }

    /// The object as a value.
    pub(crate) fn value(self) -> Value {
        Value::Object(self.members)
    }
}

// A greatest or a least value with its place, or null if there is none.
fn extreme_value(alloc: Global, extreme: Option<Extreme>) -> Result<Value, AllocError> {
    let Some(extreme) = extreme else {
        return Ok(Value::Null);
    };
    let object = Object::new(alloc)
        .with_number("value", extreme.value)?
        .with_number("place", extreme.place.number())?;
    Ok(object.value())
}
