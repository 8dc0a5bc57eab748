// The names of processes and objects.

ghost use Rattle.std.specs.Prelude.{◌≡◌, OnOk, slice_get};
ghost use Rattle.std.specs.Option.{option_copied};
ghost use Rattle.run_numbers.specs.Names.{created_by, name_after, name_given, name_in, named_by, named_in};
ghost use Rattle.run_numbers.specs.declared.names.Named.{Named as Key};

use crate::figure::Thing;
use crate::maps::put;
use crate::mutexes::object_number;
use apex_types::{Call, Code, Name, Out, PartId, ProcId, Request, Who};
use indexmap::IndexMap;
use std::alloc::{AllocError, Global};

/// What has a name: a process or an object.
#[derive(Clone, Copy, Debug, PartialEq, Eq, Hash)]
pub enum Named {
    Process(Who),
    Object(Thing),
}

/// The names that were given at creations. A number that is used again has the name that was given last.
#[derive(Drop)]
pub struct Names {
    names: IndexMap<Named, Name>,
}

impl Names {
    /// No names. Takes no memory.
    pub fn new(alloc: Global) -> Names {
        Names {
            names: IndexMap::new(alloc),
        }
    }

    /// The name of a process or an object, if it has one.
    pub fn of(&self, named: &Named) -> Option<&Name>
        ensures { option_copied result ≡ name_in self.now named.now }
    {
        self.names.get(named)
    }

    /// The process or object of this index among those that have names, in the order of their creation, or None if there are no more.
    pub fn at(&self, index: usize) -> Option<&Named>
        ensures { option_copied result ≡ slice_get (named_in self.now) index }
    {
        let (named, _) = self.names.get_index(index)?;
        Some(named)
    }

    /// Notes the name that an accepted call gives, if it creates something.
    ///
    /// `AllocError` if memory is refused.
    pub fn note(&mut self, call: &Call) -> Result<(), AllocError>
        ensures { OnOk result ((named : Key) → name_in self.new named ≡ name_after call.now named (name_in self.old named)) }
    {
        let Some(named) = created_by(call) else {
            return Ok(());
        };
        let Some(name) = name_given(&call.request) else {
            return Ok(());
        };
        put(&mut self.names, &named, name.clone()?)
    }
}

// What a call creates that can have a name, if it is carried out.
fn created_by(call: &Call) -> Option<Named>
    ensures { result ≡ created_by call.now }
{
    if call.claim.out != Out::Answer(Code::NoError) {
        return None;
    }
    let number = object_number(call.claim.val?)?;
    named_by(call.who.part, &call.request, number)
}

// What has a name that is created under this number of a partition.
fn named_by(part: PartId, request: &Request, number: u32) -> Option<Named>
    ensures { result ≡ named_by part request.now number }
{
    match request {
        Request::CreateProcess { .. } => Some(Named::Process(Who {
            part,
            proc: ProcId::new(number),
        })),
        Request::Create(_, object) => Some(Named::Object(Thing::of(part, object.kind(), number)?)),
        _ => None,
    }
}

// The name that a creation gives.
fn name_given(request: &Request) -> Option<&Name>
    ensures { option_copied result ≡ name_given request.now }
{
    match request {
        Request::CreateProcess { name, .. } => Some(name),
        Request::Create(name, _) => Some(name),
        _ => None,
    }
}
