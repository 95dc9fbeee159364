//! Views that are made.
ghost use Rattle.std.specs.Prelude.{◌≡◌, ◌≢◌, ◌<◌, ◌≤◌, ◌+◌, ℕ, [], OnOk, Option, None, IfOk, IfSome};
ghost use Rattle.std.specs.Option.{option_map};
ghost use Rattle.inflater.specs.Answers.{IsGrown};
ghost use Rattle.inflater.specs.Inflating.{Plan};
ghost use Rattle.tree_edits.specs.Applied.{IsAddable};
ghost use Rattle.tree_edits.specs.Editing.{Add};
ghost use Rattle.view_model.specs.Forest.{Nothing};
ghost use Rattle.view_model.specs.Numbers.{max_views};
ghost use Rattle.view_tree.specs.Views.{IsLive, number_of, plain_of};
ghost use Rattle.view_world.specs.screen.Changed.{CarriesOut};
ghost use Rattle.world_parts.specs.Given.{IsPlace};
ghost use Rattle.view_world.specs.screen.KeyedScreen.{world_of};
ghost use Rattle.view_model.specs.Sprouts.{seeds_of};
ghost use Rattle.world_parts.specs.Inflating.{AreUnscrolled};
ghost use Rattle.view_world.specs.frames.Asked.{listed};
ghost use Rattle.world_replies.specs.Responses.{IsReportable};
ghost use Rattle.view_world.specs.frames.Resting.{KeepsBut, KeepsEdit};
ghost use Rattle.view_world.specs.declared.world.marks.Effect.TheVariants.{Asks};
ghost use Rattle.view_world.specs.world.Step.{after_edit, graft_reason, grafted};
ghost use Rattle.view_model.specs.Failing.{KeepsOnErr};
ghost use Rattle.view_world.specs.screen.Numbering.{NumbersOne, HasNumber};
ghost use Rattle.world_parts.specs.Faults.{HasFile};

use super::Screen;
use crate::screen::respond::respond;
use inflater::Grown;
use std::alloc::Global;
use tree_edits::{Edit, apply};
use view_model::Class;
use view_tree::Key;
use world_parts::{StepFault, close_all, graft, make_hooks, open_all, recall_tree};
use world_replies::Response;

impl Screen {
    /// Makes a view; the room for its touches and for hooks is made before anything changes.
    pub(super) fn grow(
        &mut self,
        alloc: Global,
        parent: Option<Key>,
        class: Class,
        width: i32,
        height: i32,
    ) -> Result<Response, StepFault>
        requires { IsAddable self.old.views parent }
        ensures changed { CarriesOut (after_edit (world_of self.old)
            (Add (option_map (number_of self.old.views) parent) class width height)) self.new result }
        ensures unchanged { KeepsOnErr result self.old self.new }
        ensures numbers { NumbersOne self.old self.new }
        ensures keeps { OnOk result (KeepsEdit (Edit.Add parent class width height) self.old self.new) }
    {
        recall_tree(&self.tree);
        make_hooks(alloc, &mut self.hooks)?;
        self.log.reserve(3 * (self.tree.len() + 1))?;
        let number = self.tree.next_number();
        self.gesture.open(number)?;
        let made = apply(
            alloc,
            &mut self.tree,
            Edit::Add {
                parent,
                class,
                width,
                height,
            },
        );
        if made.is_err() {
            self.gesture.close(number);
        }
        respond(made)
    }

    /// Adds views under the next numbers.
    pub(super) fn graft(
        &mut self,
        alloc: Global,
        place: Option<Key>,
        grown: Grown,
    ) -> Result<Response, StepFault>
        requires numbers { HasNumber self.old }
        requires live { IfSome place (λ view. IsLive self.old.views view) }
        requires root { place ≡ None → self.old.views.tree ≡ Nothing }
        requires unscrolled { AreUnscrolled (seeds_of grown.sapling.sprouts.items) }
        ensures changed { (number : Option ℕ) (plan : Plan)
            → IsPlace self.old.views number place
            → IsGrown plan grown
            → CarriesOut (grafted (world_of self.old) number plan
            (graft_reason (plain_of self.old.views) number self.old.views.next plan.seeds)) self.new result }
        ensures reported { IfOk result
            (λ response. IsReportable self.new.views self.new.surface self.new.reported self.new.saved response) }
        ensures unchanged { KeepsOnErr result self.old self.new }
        ensures numbers { self.new.views.next ≤ self.old.views.next + max_views }
        ensures keeps { OnOk result
            (KeepsBut Asks (listed (option_map (number_of self.old.views) place)) [] [] self.old self.new) }
        ensures no_sink { result ≢ Err StepFault.Sink }
        ensures no_shelf { HasFile result }
    {
        recall_tree(&self.tree);
        let first = self.tree.next_number();
        let ignored = grown.ignored;
        let count = grown.sapling.sprouts.len();
        make_hooks(alloc, &mut self.hooks)?;
        self.log
            .reserve(self.tree.len().saturating_add(count).saturating_mul(3))?;
        open_all(&mut self.gesture, first, count)?;
        match graft(&mut self.tree, place, grown.sapling) {
            Ok(()) => {
                recall_tree(&self.tree);
                Ok(Response::Inflated {
                    first,
                    last: self.tree.next_number().saturating_sub(1),
                    ignored,
                })
            }
            Err(fault) => {
                close_all(&mut self.gesture, first, count);
                Err(fault.into())
            }
        }
    }
}
