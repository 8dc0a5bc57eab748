// Fields by their names, and the numbers that names mean in them.

ghost use Rattle.std.specs.Prelude.{◌≡◌, ℕ, List, option_map, pos};
ghost use Rattle.toml.specs.View.{view};
ghost use Rattle.apex_types.specs.Numbers.{out_number};
ghost use Rattle.apex_types.specs.Services.{service_number};
ghost use Rattle.record_read.specs.Named.{kind_named, out_named, service_named};
ghost use Rattle.asked_rules.specs.Names.{field_named, kind_number, number_named};
ghost use Rattle.asked_rules.specs.Sides.{field_in};

use crate::fault::RuleFault;
use crate::keys::text;
use crate::refusal::{RuleKey, RuleRefusal};
use apex_types::Field;
use record_read::{Kind, find_kind, find_out, find_service};
use toml::Value;

/// The names of the fields.
pub const FIELD_NAMES: [&'static str; 11] = [
    "kind", "core", "time", "part", "proc", "service", "prio", "out", "val", "elapsed", "woken",
];

/// The field whose name the value under this key is.
pub(crate) fn read_field(value: &Value, key: RuleKey) -> Result<Field, RuleRefusal>
    ensures { result ≡ field_in key (view value.now) }
{
    let name = text(value, key)?;
    match find_field(name) {
        Some(field) => Ok(field),
        None => Err(RuleRefusal::at(key, RuleFault::UnknownField)),
    }
}

/// The field of this name.
pub(crate) fn find_field(name: &str) -> Option<Field>
    ensures { result ≡ field_named name.now }
{
    match name {
        "kind" => Some(Field::Kind),
        "core" => Some(Field::Core),
        "time" => Some(Field::Time),
        "part" => Some(Field::Part),
        "proc" => Some(Field::Proc),
        "service" => Some(Field::Service),
        "prio" => Some(Field::Prio),
        "out" => Some(Field::Out),
        "val" => Some(Field::Val),
        "elapsed" => Some(Field::Elapsed),
        "woken" => Some(Field::Woken),
        _ => None,
    }
}

/// The number that a name means in a field.
pub(crate) fn number_named(field: Field, name: &[u8]) -> Option<i64>
    ensures { result ≡ number_named field name.now }
{
    match field {
        Field::Kind => Some(kind_number(find_kind(name)?)),
        Field::Service => Some(i64::from(find_service(name)?.number())),
        Field::Out => Some(i64::from(find_out(name)?.number())),
        _ => None,
    }
}

// The number of a kind of records, as views give it.
fn kind_number(kind: Kind) -> i64
    ensures { result ≡ pos (kind_number kind) }
{
    match kind {
        Kind::Call => 0,
        Kind::Ret => 1,
        Kind::Disp => 2,
        Kind::Tick => 3,
        Kind::Arrive => 4,
        Kind::Depart => 5,
        Kind::Error => 6,
    }
}
