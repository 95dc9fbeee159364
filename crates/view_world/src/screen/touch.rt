//! Lines that touch views.
ghost use Rattle.std.specs.Prelude.{◌≡◌, ◌<◌, [], Ok, OnOk};
ghost use Rattle.script_lines.specs.commands.PlainCommands.{Cancel, Disallow, Down, Move, Up};
ghost use Rattle.touch_event.specs.Numbers.{max_pointers};
ghost use Rattle.view_world.specs.screen.Changed.{CarriesOut};
ghost use Rattle.view_world.specs.screen.KeyedScreen.{world_of};
ghost use Rattle.world_parts.specs.Pointers.{AreDown};
ghost use Rattle.view_world.specs.frames.Resting.{IsIdle, KeepsBut, KeepsLine};
ghost use Rattle.view_world.specs.world.Step.{after_event, step};
ghost use Rattle.view_world.specs.frames.Seen.{deliveries_of, scrolled_in};
ghost use Rattle.view_world.specs.declared.world.marks.Effect.TheVariants.{Touches};
ghost use Rattle.view_world.specs.declared.screen.stage.Stage.TheVariants.{Settled};
ghost use Rattle.view_model.specs.Failing.{KeepsOnErr};
ghost use Rattle.world_parts.specs.Faults.{HasMemory};
ghost use Rattle.view_tree.specs.Views.{KeepsNext};
ghost use Rattle.touch_event.specs.Touches.{IsPointer};

use super::Screen;
use line_words::Name;
use seen_edits::note_scrolled;
use touch_dispatch::dispatch;
use touch_event::{Action, Event, Point};
use view_model::Refusal;
use view_model::refusals::{POINTER, WRONG_CLASS};
use world_parts::{
    StepFault, disallow_from, down_action, event_at, event_of, is_pressed, resolve, set_points,
    slop_at, up_action, without_point,
};
use world_replies::Response;

impl Screen {
    /// A pointer goes down.
    #[inline(never)]
    pub(super) fn down(&mut self, id: u8, x: i32, y: i32) -> Result<Response, StepFault>
        requires id { id < max_pointers }
        ensures changed { CarriesOut (step [] (world_of self.old) (Down id x y)) self.new result }
        ensures unchanged { KeepsOnErr result self.old self.new }
        ensures memory { HasMemory result }
        ensures numbers { KeepsNext self.old.views self.new.views }
        ensures keeps { OnOk result (KeepsLine (Down id x y) self.old self.new) }
    {
        self.touchable()?;
        if is_pressed(self.pointers.as_slice(), id) {
            return Err(StepFault::Refused(Refusal::plain(POINTER)));
        }
        let action = down_action(self.pointers.as_slice());
        let event = event_at(action, Point { id, x, y }, self.pointers.as_slice());
        Ok(self.hand(&event, event.points.as_slice()))
    }

    /// A pointer moves.
    #[inline(never)]
    pub(super) fn drag(&mut self, id: u8, x: i32, y: i32) -> Result<Response, StepFault>
        requires id { id < max_pointers }
        ensures changed { CarriesOut (step [] (world_of self.old) (Move id x y)) self.new result }
        ensures unchanged { KeepsOnErr result self.old self.new }
        ensures memory { HasMemory result }
        ensures numbers { KeepsNext self.old.views self.new.views }
        ensures keeps { OnOk result (KeepsLine (Move id x y) self.old self.new) }
    {
        self.touchable()?;
        if !is_pressed(self.pointers.as_slice(), id) {
            return Err(StepFault::Refused(Refusal::plain(POINTER)));
        }
        let event = event_at(Action::Move, Point { id, x, y }, self.pointers.as_slice());
        Ok(self.hand(&event, event.points.as_slice()))
    }

    /// A pointer goes up. The event still has it.
    #[inline(never)]
    pub(super) fn up(&mut self, id: u8) -> Result<Response, StepFault>
        requires id { id < max_pointers }
        ensures changed { CarriesOut (step [] (world_of self.old) (Up id)) self.new result }
        ensures unchanged { KeepsOnErr result self.old self.new }
        ensures memory { HasMemory result }
        ensures numbers { KeepsNext self.old.views self.new.views }
        ensures keeps { OnOk result (KeepsLine (Up id) self.old self.new) }
    {
        self.touchable()?;
        if !is_pressed(self.pointers.as_slice(), id) {
            return Err(StepFault::Refused(Refusal::plain(POINTER)));
        }
        let others = without_point(self.pointers.as_slice(), id);
        let action = up_action(others.as_slice());
        let event = event_of(action, id, self.pointers.as_slice());
        Ok(self.hand(&event, others.as_slice()))
    }

    /// All pointers that are down are taken away.
    #[inline(never)]
    pub(super) fn cancel(&mut self) -> Result<Response, StepFault>
        ensures changed { CarriesOut (step [] (world_of self.old) Cancel) self.new result }
        ensures unchanged { KeepsOnErr result self.old self.new }
        ensures memory { HasMemory result }
        ensures numbers { KeepsNext self.old.views self.new.views }
        ensures keeps { OnOk result (KeepsLine Cancel self.old self.new) }
    {
        self.touchable()?;
        if self.pointers.is_empty() {
            return Err(StepFault::Refused(Refusal::plain(POINTER)));
        }
        let event = event_of(Action::Cancel, 0, &[]);
        Ok(self.hand(&event, &[]))
    }

    /// Sends an event to the root. These pointers are down then.
    fn hand(&mut self, event: &Event, pointers: &[Point]) -> Response
        requires settled { self.old.stage ≡ Settled }
        requires pointer { IsPointer event.now.pointer }
        requires down { AreDown pointers.now }
        ensures changed { CarriesOut (after_event (world_of self.old) event.now pointers.now) self.new (Ok result) }
        ensures numbers { KeepsNext self.old.views self.new.views }
        ensures keeps { KeepsBut Touches [] []
            (scrolled_in (deliveries_of (world_of self.old) event.now)) self.old self.new }
    {
        self.log.clear();
        let yes = dispatch(
            &mut self.tree,
            &mut self.gesture,
            event,
            slop_at(self.dpi),
            &mut self.log,
        );
        note_scrolled(&self.tree, self.surface.size(), &self.log, &mut self.damage);
        set_points(&mut self.pointers, pointers);
        Response::Deliveries(Some(yes))
    }

    /// Sets whether a group and its ancestors may not take events away from their children.
    pub(super) fn disallow(&mut self, view: Name, on: bool) -> Result<Response, StepFault>
        ensures changed { CarriesOut (step [] (world_of self.old) (Disallow view on)) self.new result }
        ensures unchanged { KeepsOnErr result self.old self.new }
        ensures memory { HasMemory result }
        ensures numbers { KeepsNext self.old.views self.new.views }
        ensures keeps { OnOk result (IsIdle self.old self.new) }
    {
        let view = resolve(&self.tree, view)?;
        if !self.tree.class(view).is_group() {
            return Err(StepFault::Refused(Refusal::plain(WRONG_CLASS)));
        }
        disallow_from(&self.tree, &mut self.gesture, view, on);
        Ok(Response::Nothing)
    }
}
