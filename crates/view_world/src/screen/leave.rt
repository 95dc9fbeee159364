//! Views that go away, from the tree or out of sight.
ghost use Rattle.std.specs.Prelude.{◌≡◌, OnOk, true};
ghost use Rattle.touch_dispatch.specs.reaching.TreeEvents.{OnlyScrolls};
ghost use Rattle.tree_edits.specs.Applied.{IsVerb};
ghost use Rattle.tree_edits.specs.Editing.{hides};
ghost use Rattle.view_tree.specs.Views.{IsLive, IsTree, SameTree, facts_of, number_of, plain_of, KeepsNext};
ghost use Rattle.view_world.specs.screen.Changed.{CarriesOut};
ghost use Rattle.view_world.specs.screen.KeyedScreen.{world_of};
ghost use Rattle.world_replies.specs.Responses.{deliveries_only};
ghost use Rattle.view_world.specs.frames.Resting.{KeepsEdit};
ghost use Rattle.view_world.specs.world.Step.{acted, removed};
ghost use Rattle.world_parts.specs.Touching.{after_progress, leaving, is_reported, parent_of};
ghost use Rattle.view_model.specs.Failing.{KeepsOnErr};
ghost use Rattle.world_parts.specs.Faults.{HasMemory};

use super::Screen;
use seen_edits::{change, take};
use std::alloc::Global;
use touch_dispatch::cancel_view;
use tree_edits::Edit;
use view_model::Act;
use view_tree::Key;
use world_parts::{StepFault, forget, recall_tree, slop_at};
use world_replies::Response;

impl Screen {
    /// Removes a view and all below it. If needed, its gesture is cancelled first.
    pub(super) fn take_away(&mut self, alloc: Global, view: Key) -> Result<Response, StepFault>
        requires live { IsLive self.old.views view }
        ensures changed { CarriesOut (removed (world_of self.old) (number_of self.old.views view)) self.new result }
        ensures unchanged { KeepsOnErr result self.old self.new }
        ensures memory { HasMemory result }
        ensures numbers { KeepsNext self.old.views self.new.views }
        ensures keeps { OnOk result (KeepsEdit (Edit.Remove view) self.old self.new) }
    {
        self.report_leaving(view);
        let Some(hooks) = &mut self.hooks else {
            unreachable!()
        };
        forget(&self.tree, hooks, &mut self.gesture, view);
        let window = self.surface.size();
        match take(alloc, &mut self.tree, window, view, &mut self.damage) {
            Ok(_) => Ok(self.deliveries()),
            Err(_) => unreachable!(),
        }
    }

    /// Hides a view by an act. If needed, its gesture is cancelled first.
    pub(super) fn hide(&mut self, alloc: Global, view: Key, act: Act) -> Result<Response, StepFault>
        requires live { IsLive self.old.views view }
        requires verb { IsVerb act }
        requires hides { hides act ≡ true }
        ensures changed { CarriesOut (acted (world_of self.old) (number_of self.old.views view) act) self.new result }
        ensures unchanged { KeepsOnErr result self.old self.new }
        ensures memory { HasMemory result }
        ensures numbers { KeepsNext self.old.views self.new.views }
        ensures keeps { OnOk result (KeepsEdit (Edit.Act view act) self.old self.new) }
    {
        self.report_leaving(view);
        let window = self.surface.size();
        match change(
            alloc,
            &mut self.tree,
            window,
            Edit::Act { view, act },
            &mut self.damage,
        ) {
            Ok(_) => {
                recall_tree(&self.tree);
                Ok(self.deliveries())
            }
            Err(_) => unreachable!(),
        }
    }

    /// Cancels the gesture of a view that goes away, if needed.
    fn report_leaving(&mut self, view: Key)
        requires { IsLive self.old.views view }
        ensures world { world_of self.new
            ≡ after_progress (world_of self.old) (leaving (world_of self.old) (number_of self.old.views view)) }
        ensures reported { self.new.reported ≡ (leaving (world_of self.old) (number_of self.old.views view)).entries }
        ensures same { SameTree self.old.views self.new.views }
        ensures is_tree { IsTree self.new.views }
        ensures live { IsLive self.new.views view }
        ensures scrolls { OnlyScrolls self.old.views self.new.views }
        ensures plain { plain_of self.new.views ≡ plain_of self.old.views }
        ensures rest { self.new
            ≡ record self.old { views = self.new.views; gesture = self.new.gesture; reported = self.new.reported } }
    {
        self.log.clear();
        if self.is_reported(view) {
            cancel_view(
                &mut self.tree,
                &mut self.gesture,
                view,
                slop_at(self.dpi),
                &mut self.log,
            );
        }
    }

    /// Whether the gesture of a view that goes away is cancelled: that of a root is if it is not gone and a pointer is
    /// down, and for another view its parent decides.
    fn is_reported(&self, view: Key) -> bool
        requires { IsLive self.now.views view }
        ensures reported { result ≡ is_reported (parent_of (number_of self.now.views view) (world_of self.now).tree)
            (facts_of self.now.views view) self.now.pointers }
        ensures is_tree { IsTree self.now.views }
    {
        let facts = self.tree.facts(view);
        self.tree.parent(view).is_some() || (facts.is_shown() && !self.pointers.is_empty())
    }

    /// The reply of a line by which a view goes away.
    fn deliveries(&self) -> Response
        ensures { result ≡ deliveries_only self.now.reported }
    {
        if self.log.entries().is_empty() {
            Response::Nothing
        } else {
            Response::Deliveries(None)
        }
    }
}
