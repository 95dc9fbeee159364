//! The table of resources by their ids.
ghost use Rattle.std.specs.Prelude.{◌≡◌, ℕ, Some, [], OnOk, if◌then◌else◌, nat_eq};
ghost use Rattle.std.specs.Option.{option_map};
ghost use Rattle.view_model.specs.Refusals.{IsRefusedExactlyFor, RefusesExactlyFor};
ghost use Rattle.view_model.specs.Resources.{definition_refusal, definition_refusal_of, resource_of, with_resource};
ghost use Rattle.res_values.specs.Values.{resource};
ghost use Rattle.view_model.specs.Failing.{KeepsOnErr};

use crate::fault::ResFault;
use crate::value::Value;
use indexmap::IndexMap;
use std::alloc::Global;
use std::marker::Model;
use view_model::Refusal;
use view_model::limits::MAX_RESOURCES;
use view_model::refusals::FULL;

/// Resources by their ids, which contracts see as the list of both, in the order in which the ids were first defined.
#[derive(Drop)]
pub struct Resources {
    values: IndexMap<u32, Value>,
}

impl Model for Resources {
    ghost use Rattle.view_model.specs.Resources.{Entries};
    ghost use Rattle.res_values.specs.Values.{entries};

    ghost Value = { Entries };

    ghost view = { λ r. entries r.values.entries };
}

impl Resources {
    /// No resources. It takes no memory.
    pub fn new(alloc: Global) -> Resources
        ensures { result ≡ [] }
    {
        Resources {
            values: IndexMap::new(alloc),
        }
    }

    /// Defines a resource, or gives an id that is defined another value.
    pub fn define(&mut self, id: u32, value: Value) -> Result<(), ResFault>
        ensures entries { OnOk result (self.new ≡ with_resource self.old id (resource value)) }
        ensures value { OnOk result ((other : ℕ) → resource_of self.new other
            ≡ (if nat_eq id other then Some (resource value) else resource_of self.old other)) }
        ensures refused { IsRefusedExactlyFor (definition_refusal_of self.old id) result }
        ensures unchanged { KeepsOnErr result self.old self.new }
    {
        may_define(self.values.len(), self.values.get(&id).is_some())?;
        self.values.insert(id, value)?;
        Ok(())
    }

    /// The value of an id, if it is defined.
    pub fn get(&self, id: u32) -> Option<&Value>
        ensures { option_map (λ value. resource value.now) result ≡ resource_of self.now id }
    {
        self.values.get(&id)
    }
}

/// Whether one more may be defined in a table of this length, or its id is defined already.
#[tactic(auto, unfolding(view_model::specs::Resources::definition_refusal))]
fn may_define(count: usize, defined: bool) -> Result<(), Refusal>
    ensures { RefusesExactlyFor (definition_refusal count defined) result }
{
    if !defined && count >= MAX_RESOURCES {
        return Err(Refusal::plain(FULL));
    }
    Ok(())
}
