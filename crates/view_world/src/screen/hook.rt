//! Lines that arm hooks.
ghost use Rattle.std.specs.Prelude.{[], Err, OnOk};
ghost use Rattle.script_lines.specs.commands.PlainCommands.{Hook};
ghost use Rattle.script_lines.specs.reading.Hooks.{edits_written};
ghost use Rattle.view_tree.specs.Views.{IsLive, number_of, KeepsNext};
ghost use Rattle.view_world.specs.screen.Changed.{CarriesOut};
ghost use Rattle.view_world.specs.screen.KeyedScreen.{world_of};
ghost use Rattle.view_world.specs.frames.Resting.{KeepsBut, KeepsLine};
ghost use Rattle.view_world.specs.world.Step.{hooked, step};
ghost use Rattle.view_world.specs.declared.world.marks.Effect.TheVariants.{Leaves};
ghost use Rattle.view_model.specs.Failing.{KeepsOnErr};
ghost use Rattle.world_parts.specs.Faults.{HasMemory};

use super::Screen;
use crate::hooking::{may_change_all, numbered_edits, size_at};
use arrayvec::ArrayVec;
use line_words::Name;
use script_lines::edits_written;
use view_model::limits::MAX_EDITS;
use view_model::refusals::{HOOK_EDIT, HOOKS, NO_VIEW, WRONG_CLASS};
use view_model::{NumEdit, Refusal};
use view_tree::Key;
use world_parts::{StepFault, recall_tree, resolve};
use world_replies::Response;

impl Screen {
    /// Arms the hook of a view, with the edits of this text. If `bad`, more is asked of it than a hook may do.
    #[inline(never)]
    pub(super) fn hook(
        &mut self,
        view: Name,
        edits: &[u8],
        bad: bool,
    ) -> Result<Response, StepFault>
        ensures changed { CarriesOut
            (step [] (world_of self.old) (Hook view (edits_written edits.now) bad)) self.new result }
        ensures unchanged { KeepsOnErr result self.old self.new }
        ensures memory { HasMemory result }
        ensures numbers { KeepsNext self.old.views self.new.views }
        ensures keeps { OnOk result (KeepsLine (Hook view (edits_written edits.now) bad) self.old self.new) }
    {
        let view = resolve(&self.tree, view)?;
        let asked = edits_written(edits);
        let Some(edits) = numbered_edits(&self.tree, asked.as_slice()) else {
            return Err(StepFault::Refused(Refusal::plain(NO_VIEW)));
        };
        if !may_change_all(&self.tree, edits.as_slice()) {
            return Err(StepFault::Refused(Refusal::plain(WRONG_CLASS)));
        }
        if bad {
            return Err(StepFault::Refused(Refusal::plain(HOOK_EDIT)));
        }
        self.arm(view, &edits)
    }

    /// Arms the hook of a view, in place of one that it has.
    fn arm(
        &mut self,
        view: Key,
        edits: &ArrayVec<NumEdit, MAX_EDITS>,
    ) -> Result<Response, StepFault>
        requires { IsLive self.old.views view }
        ensures changed { CarriesOut
            (hooked (world_of self.old) (number_of self.old.views view) edits.now.items) self.new result }
        ensures unchanged { KeepsOnErr result self.old self.new }
        ensures memory { HasMemory result }
        ensures numbers { KeepsNext self.old.views self.new.views }
        ensures keeps { OnOk result (KeepsBut Leaves [] [] [] self.old self.new) }
    {
        recall_tree(&self.tree);
        let reported = size_at(&self.tree, self.stage, view);
        let Some(hooks) = &mut self.hooks else {
            unreachable!()
        };
        match hooks.arm(self.tree.number(view), reported, edits) {
            Ok(()) => Ok(Response::Nothing),
            Err(_) => Err(StepFault::Refused(Refusal::plain(HOOKS))),
        }
    }
}
