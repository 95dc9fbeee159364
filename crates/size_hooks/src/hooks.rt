//! The table of armed hooks.
//!
//! A hook names views by their numbers from the line on; the last arming counts. An edit whose view is gone from the
//! tree is passed over. An edit of a hook requests layout in any case.
ghost use Rattle.std.specs.Prelude.{◌≡◌, ◌==◌, true, ◌<◌, ◌↔◌, ℕ, if◌then◌else◌, nat_eq, IfSome, [], None, Some, OnOk, IsErr, length};
ghost use Rattle.std.specs.Option.{option_map};
ghost use Rattle.size_hooks.specs.Entries.{hook_in};
ghost use Rattle.size_hooks.specs.Hook.{Hook};
ghost use Rattle.size_hooks.specs.Hooks.{IsMap, armed, disarmed, edit_of, hook_of, no_hooks, reported_as, reported_to};
ghost use Rattle.view_model.specs.Numbers.{max_edits, max_hooks};
ghost use Rattle.view_model.specs.Failing.{KeepsOnErr};

use crate::entry::{Entry, copied, report_in};
use crate::fault::HookFault;
use arrayvec::ArrayVec;
use geom_core::Size;
use std::marker::Model;
use view_model::NumEdit;
use view_model::limits::{MAX_EDITS, MAX_HOOKS};

/// The armed hooks, which contracts see as a list in the order in which they were armed: at most one of a view, and at
/// most `MAX_HOOKS`, each with at most `MAX_EDITS` edits.
#[derive(Drop)]
pub struct Hooks {
    entries: ArrayVec<Entry, MAX_HOOKS>,
}

impl Model for Hooks {
    ghost use Rattle.std.specs.Prelude.{List};
    ghost use Rattle.size_hooks.specs.Entries.{hooks_of, hooks_code};
    ghost use Rattle.size_hooks.specs.Hook.{Hook};
    ghost use Rattle.size_hooks.specs.Hooks.{IsMap};

    ghost Value = { List Hook };

    ghost coded = { hooks_code };

    ghost view = { λ h. hooks_of h.entries.items };

    ghost invariant = { λ h. IsMap (hooks_of h.entries.items) };
}

impl Hooks {
    /// No hook is armed.
    pub fn new() -> Hooks
        ensures { result ≡ no_hooks }
    {
        Hooks {
            entries: ArrayVec::new(),
        }
    }

    /// Whether no hook is armed.
    pub fn is_empty(&self) -> bool
        ensures empty { (result ≡ true) ↔ (self.now ≡ []) }
        ensures map { IsMap self.now }
    {
        self.entries.is_empty()
    }

    /// Arms the hook of a view, in place of one that it has. `reported` is the size in pixels that was reported last.
    pub fn arm(
        &mut self,
        view: u64,
        reported: Size,
        edits: &ArrayVec<NumEdit, MAX_EDITS>,
    ) -> Result<(), HookFault>
        ensures hooks { OnOk result
            (self.new ≡ armed (record { view = view; reported = reported; edits = edits.now.items }) self.old) }
        ensures value { OnOk result ((other : ℕ) → hook_of self.new other ≡ (if nat_eq view other then Some
            (record { view = view; reported = reported; edits = edits.now.items }) else hook_of self.old other)) }
        ensures full { IsErr result ↔ ((length self.old ≡ max_hooks) × (hook_of self.old view ≡ None)) }
        ensures unchanged { KeepsOnErr result self.old self.new }
    {
        self.disarm(view);
        // a table that is still full has lost nothing
        if self.entries.is_full() {
            return Err(HookFault);
        }
        self.entries.push(Entry {
            view,
            reported,
            edits: copied(edits),
        });
        Ok(())
    }

    /// Takes the hook of a view away, if it has one.
    pub fn disarm(&mut self, view: u64)
        ensures hooks { self.new ≡ disarmed view self.old }
        ensures value { (other : ℕ)
            → hook_of self.new other ≡ (if nat_eq view other then None else hook_of self.old other) }
        ensures map { IsMap self.old }
    {
        self.entries.retain(|entry| entry.view != view);
    }

    /// The reported size of a view whose hook is armed, in pixels.
    pub fn reported(&self, view: u64) -> Option<Size>
        ensures { result ≡ option_map (λ hook. hook.reported) (hook_of self.now view) }
    {
        let entry = self.entry(view)?;
        Some(entry.reported)
    }

    /// Sets the reported size of a view, in pixels, if its hook is armed.
    pub fn report(&mut self, view: u64, size: Size)
        ensures hooks { self.new ≡ reported_as view size self.old }
        ensures value { (other : ℕ)
            → hook_of self.new other ≡ option_map (reported_to view size) (hook_of self.old other) }
    {
        report_in(self.entries.as_mut_slice(), view, size);
    }

    /// An edit of a view whose hook is armed, counted from 0.
    pub fn edit(&self, view: u64, k: usize) -> Option<NumEdit>
        ensures value { result ≡ edit_of (hook_of self.now view) k }
        ensures few { IfSome result (λ _. k < max_edits) }
    {
        let entry = self.entry(view)?;
        let edit = entry.edits.get(k)?;
        Some(*edit)
    }

    /// The entry of a view whose hook is armed.
    fn entry(&self, view: u64) -> Option<&Entry>
        ensures { option_map (λ entry. hook_in entry.now) result ≡ hook_of self.now view }
    {
        for entry in self.entries.as_slice() {
            if entry.view == view {
                return Some(entry);
            }
        }
        None
    }
}
