//! Lines that save the state of a tree, or restore one.
ghost use Rattle.std.specs.Prelude.{[], OnOk};
ghost use Rattle.std.specs.Option.{option_map};
ghost use Rattle.script_lines.specs.commands.PlainCommands.{Restore, Save};
ghost use Rattle.view_world.specs.screen.Changed.{CarriesOut};
ghost use Rattle.view_world.specs.screen.KeyedScreen.{world_of};
ghost use Rattle.view_world.specs.frames.Resting.{IsIdle, KeepsLine};
ghost use Rattle.view_world.specs.world.Step.{step};
ghost use Rattle.view_model.specs.Failing.{KeepsOnErr};
ghost use Rattle.view_tree.specs.Views.{KeepsNext};

use super::Screen;
use crate::saving::{bytes_of, state_of, take_up};
use saved_state::save;
use std::alloc::Global;
use view_model::Refusal;
use view_model::refusals::NO_ROOT;
use world_parts::{StepFault, recall_tree};
use world_replies::Response;

impl Screen {
    /// Saves the state of the tree.
    pub(super) fn save(&mut self, alloc: Global) -> Result<Response, StepFault>
        ensures changed { CarriesOut (step [] (world_of self.old) Save) self.new result }
        ensures unchanged { KeepsOnErr result self.old self.new }
        ensures numbers { KeepsNext self.old.views self.new.views }
        ensures keeps { OnOk result (IsIdle self.old self.new) }
    {
        if self.tree.root().is_none() {
            return Err(StepFault::Refused(Refusal::plain(NO_ROOT)));
        }
        let bytes = save(alloc, &self.tree)?;
        let states = state_of(alloc, bytes.as_slice())?;
        self.states = states;
        self.saved = bytes;
        Ok(Response::State)
    }

    /// Restores the state of a text, or the saved one.
    pub(super) fn restore(
        &mut self,
        alloc: Global,
        text: Option<&str>,
    ) -> Result<Response, StepFault>
        ensures changed { CarriesOut
            (step [] (world_of self.old) (Restore (option_map (λ text. text.now) text.entry))) self.new result }
        ensures unchanged { KeepsOnErr result self.old self.new }
        ensures numbers { KeepsNext self.old.views self.new.views }
        ensures keeps { OnOk result (KeepsLine (Restore (option_map (λ text. text.now) text.entry)) self.old self.new) }
    {
        if self.tree.root().is_none() {
            return Err(StepFault::Refused(Refusal::plain(NO_ROOT)));
        }
        recall_tree(&self.tree);
        let window = self.surface.size();
        let Some(digits) = text else {
            return take_up(
                alloc,
                &mut self.tree,
                window,
                &self.states,
                &mut self.damage,
            );
        };
        let bytes = bytes_of(alloc, digits)?;
        let states = state_of(alloc, bytes.as_slice())?;
        take_up(alloc, &mut self.tree, window, &states, &mut self.damage)
    }
}
