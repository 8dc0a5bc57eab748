// One option, and the relation that it asks for.

ghost use Rattle.std.specs.Prelude.{IfOk};
ghost use Rattle.asked_rules.specs.Options.{SayInTurn, Says};

use apex_types::{Field, Service};
use std::alloc::{AllocError, Global};
use std::{fmt, str};
use user_rules::{Quantity, Relation};

// The number that a view of a call has for its kind.
const CALL: i64 = 0;

/// An option that asks for a rule.
#[derive(Clone, Copy, Debug, PartialEq, Eq)]
pub enum RuleOption {
    /// `--max-elapsed`: every call returns within this many ticks.
    MaxElapsed(u32),
    /// `--forbid`: no process calls the service.
    Forbid(Service),
}

impl RuleOption {
    /// The relation that the option asks for. Exactly the views that keep to the option meet it.
    pub fn relation(self, alloc: Global) -> Result<Relation, AllocError>
        ensures { IfOk result (λ relation. Says self relation) }
    {
        let broken = match self {
            RuleOption::MaxElapsed(ticks) => Relation::Greater(
                Quantity::Field(Field::Elapsed),
                Quantity::Number(ticks as i64),
            ),
            RuleOption::Forbid(service) => {
                let call = Relation::Equal(Quantity::Field(Field::Kind), Quantity::Number(CALL));
                let of_service = Relation::Equal(
                    Quantity::Field(Field::Service),
                    Quantity::Number(service.number() as i64),
                );
                Relation::And(Box::new(alloc, call)?, Box::new(alloc, of_service)?)
            }
        };
        Ok(Relation::Not(Box::new(alloc, broken)?))
    }
}

/// The words of the option, as a command line has them.
impl fmt::Display for RuleOption {
    fn fmt<W: fmt::Write>(&self, f: &mut fmt::Formatter<W>) -> fmt::Result {
        match self {
            RuleOption::MaxElapsed(ticks) => write!(f, "--max-elapsed {ticks}"),
            RuleOption::Forbid(service) => {
                write!(
                    f,
                    "--forbid {}",
                    str::from_utf8(service.name()).unwrap_or("")
                )
            }
        }
    }
}

/// The relations that options ask for, in their order.
pub fn relations_of(alloc: Global, options: &[RuleOption]) -> Result<Vec<Relation>, AllocError>
    ensures { IfOk result (λ relations. SayInTurn options.now relations.items) }
{
    let mut relations = Vec::new(alloc);
    for option in options {
        relations.push(option.relation(alloc)?)?;
    }
    Ok(relations)
}
