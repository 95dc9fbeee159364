//! A saved state that was read.
ghost use Rattle.std.specs.Prelude.{◌≡◌, ◌↔◌, ◌<◌, ◌≤◌, true, [], IfSome, length};
ghost use Rattle.saved_state.specs.Restoring.{FindsEntry, IsEntry, entry_at};
ghost use Rattle.saved_state.specs.State.{IsState, IsValue};
ghost use Rattle.saved_state.specs.Numbers.{last_version, max_entries};

use crate::value::Value;
use std::alloc::Global;
use std::marker::Model;

/// A saved state that was read: offsets and texts by the ids of the views that have them. Contracts see it as the list of
/// its entries, whose ids rise.
#[derive(Drop)]
pub struct States {
    pub(crate) entries: Vec<(u32, Value)>,
}

impl Model for States {
    ghost use Rattle.std.specs.Prelude.{List, ℕ};
    ghost use Rattle.saved_state.specs.State.{IsState};
    ghost use Rattle.saved_state.specs.Numbers.{last_version};
    ghost use Rattle.saved_state.specs.declared.value.Value.{Value as ValueHere};

    ghost Value = { List (ℕ × ValueHere) };

    ghost view = { λ states. states.entries.items };

    ghost invariant = { λ states. IsState last_version states.entries.items };
}

impl States {
    /// The state of a tree without a view. It takes no memory.
    pub fn empty(alloc: Global) -> States
        ensures { result ≡ [] }
    {
        States {
            entries: Vec::new(alloc),
        }
    }

    /// The invariant of every state, for contracts alone.
    pub(crate) fn recall(&self)
        ensures { IsState last_version self.now }
    {
        let _count = self.entries.len();
    }

    /// Whether there is no entry.
    #[inline]
    pub fn is_empty(&self) -> bool
        ensures { (result ≡ true) ↔ (self.now ≡ []) }
    {
        self.entries.is_empty()
    }

    /// How many entries there are.
    pub(crate) fn count(&self) -> usize
        ensures value { result ≡ length self.now }
        ensures few { result ≤ max_entries }
    {
        self.entries.len()
    }

    /// The place of the entry of an id. A view without an id, which has 0, has none.
    #[inline]
    #[tactic(auto, using(crate::proofs::EntryLaws::zero_absent))]
    pub(crate) fn place_of(&self, id: u32) -> Option<usize>
        ensures entry { FindsEntry self.now id result }
        ensures few { length self.now ≤ max_entries }
    {
        self.recall();
        if id == 0 {
            return None;
        }
        match self.place_by_distance(id) {
            Some(place) => Some(place),
            None => self.place_in(id),
        }
    }

    /// The place of the entry of an id, if it is as far from the first as their ids are: no id is left out in between.
    fn place_by_distance(&self, id: u32) -> Option<usize>
        ensures { IfSome result (IsEntry self.now id) }
    {
        let first = self.entries.first()?.0;
        let place = id.wrapping_sub(first) as usize;
        if place < self.entries.len() && self.entries[place].0 == id {
            return Some(place);
        }
        None
    }

    /// The place of the entry of an id, found in as many steps as their number has bits.
    fn place_in(&self, id: u32) -> Option<usize>
        ensures entry { FindsEntry self.now id result }
        ensures few { length self.now ≤ max_entries }
    {
        match self.entries.binary_search_by_key(&id, |entry| entry.0) {
            Ok(place) => Some(place),
            Err(_) => None,
        }
    }

    /// What the entry at a place has for a view.
    pub(crate) fn value_at(&self, place: usize) -> &Value
        requires { place < length self.now }
        ensures value { result.now ≡ (entry_at self.now place).1 }
        ensures fits { IsValue result.now }
    {
        &self.entries[place].1
    }
}
