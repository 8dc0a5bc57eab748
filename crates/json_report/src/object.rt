// An object of JSON whose members are added one after another.

ghost use Rattle.std.specs.Prelude.{◌≡◌, IfOk};
ghost use Rattle.serde_json.specs.Data.{no_members, number as number_data, object, put, string, unsigned};
ghost use Rattle.serde_json.specs.View.{members_view, view};
ghost use Rattle.json_report.specs.Answer.{number_or_null, text_or_null};

use crate::values::{number_or_null, text_or_null, text_value};
use serde_json::{Map, Value, put};
use std::alloc::{AllocError, Global};

/// An object with its members so far. Each call that adds one takes the object, and drops it if memory is refused, so that no value is left
/// where the caller gives up: a proof walks each drop of each such path.
#[derive(Drop)]
pub struct Object {
    pub alloc: Global,
    pub members: Map<String, Value>,
}

impl Object {
    /// An object without a member.
    pub fn new(alloc: Global) -> Object
        ensures { members_view result.members.entries ≡ no_members }
    {
        Object {
            alloc,
            members: Map::new(alloc),
        }
    }

    /// The object with this member.
    pub fn with(mut self, name: &str, value: Value) -> Result<Object, AllocError>
        ensures { IfOk result (λ object. members_view object.members.entries ≡ put name.now (view value) (members_view self.members.entries)) }
    {
        put(&mut self.members, self.alloc, name, value)?;
        Ok(self)
    }

    /// The object with this text.
    pub fn with_text(self, name: &str, text: &str) -> Result<Object, AllocError>
        ensures { IfOk result (λ object. members_view object.members.entries ≡ put name.now (string text.now) (members_view self.members.entries)) }
    {
        let value = text_value(self.alloc, text)?;
        self.with(name, value)
    }

    /// The object with this text, or null.
    pub fn with_text_or_null(self, name: &str, text: Option<&str>) -> Result<Object, AllocError>
        ensures { IfOk result (λ object. members_view object.members.entries ≡ put name.now (text_or_null text.entry) (members_view self.members.entries)) }
    {
        let value = text_or_null(self.alloc, text)?;
        self.with(name, value)
    }

    /// The object with this number.
    pub fn with_number(self, name: &str, number: u64) -> Result<Object, AllocError>
        ensures { IfOk result (λ object. members_view object.members.entries ≡ put name.now (number_data (unsigned number)) (members_view self.members.entries)) }
    {
        self.with(name, Value::from(number))
    }

    /// The object with this number, or null.
    pub fn with_number_or_null(self, name: &str, number: Option<u64>) -> Result<Object, AllocError>
        ensures { IfOk result (λ object. members_view object.members.entries ≡ put name.now (number_or_null number) (members_view self.members.entries)) }
    {
        self.with(name, number_or_null(number))
    }

    /// The object as a value.
    pub fn value(self) -> Value
        ensures { view result ≡ object (members_view self.members.entries) }
    {
        Value::Object(self.members)
    }
}
