//! The screen of a script: what its lines so far have made, and what each line does to it.
ghost use Rattle.std.specs.Prelude.{pos, ◌≡◌, ◌≢◌, true, ◌+◌, ◌-◌, ◌≤◌, ◌<◌, ◌^◌, [], Option, None, Some, Err, OnErr, OnOk, IfOk};
ghost use Rattle.script_lines.specs.commands.PlainCommands.{Frame, Inflate, Add, Remove, Act, SetText, Bounds, Pixels, Digest, given_text_length, plain_command, plain_given, text_length};
ghost use Rattle.script_lines.specs.reading.Changes.{IsActInBounds};
ghost use Rattle.script_lines.specs.reading.Commands.{IsInBounds};
ghost use Rattle.line_words.specs.words.Numbers.{IsWithin};
ghost use Rattle.script_lines.specs.reading.Pixels.{IsPart};
ghost use Rattle.script_lines.specs.Numbers.{max_window};
ghost use Rattle.tool_io.specs.Fetched.{Files};
ghost use Rattle.tree_edits.specs.Applied.{IsEdit, MayWantMemory as EditMayWantMemory, numbered};
ghost use Rattle.tree_edits.specs.Editing.{names_views};
ghost use Rattle.view_model.specs.Numbers.{max_views};
ghost use Rattle.view_model.specs.Forest.{Nothing};
ghost use Rattle.view_model.specs.Resources.{definition_refusal_of};
ghost use Rattle.world_parts.specs.World.{World as PlainWorld};
ghost use Rattle.view_tree.specs.Views.{plain_of, KeepsNext};
ghost use Rattle.view_world.specs.world.AfterLine.{Reports};
ghost use Rattle.world_parts.specs.Shelves.{AreAtHand, AsksShelf};
ghost use Rattle.view_world.specs.world.Carried.{IsDone, MayWantMemory, WritesReply, IsDoneOrKeepsBoth, CountsSink};
ghost use Rattle.view_world.specs.screen.Changed.{CarriesOut, Inflates, IsTouchable, LeavesViews, Pictured};
ghost use Rattle.view_world.specs.frames.Counting.{RisesWithin, paint_bound};
ghost use Rattle.world_parts.specs.Inflating.{asked_file, asked_for, inflation_of};
ghost use Rattle.view_world.specs.saving.Offsets.{EditsWithin};
ghost use Rattle.world_replies.specs.Responses.{IsReportable, response_text};
ghost use Rattle.view_world.specs.frames.Seen.{black_picture};
ghost use Rattle.world_parts.specs.Touching.{has_any_scrolled};
ghost use Rattle.world_parts.specs.Reply.{Done};
ghost use Rattle.view_world.specs.world.Step.{after_edit, defined, dpi_reported, inflation, step, with_window};
ghost use Rattle.world_parts.specs.Resources.{resource_given};
ghost use Rattle.view_world.specs.screen.KeyedScreen.{new_screen, window_of, world_of};
ghost use Rattle.view_world.specs.world.Marks.{has_settled};
ghost use Rattle.view_world.specs.frames.Resting.{IsFrameDone, IsIdle, IsShown, KeepsEdit, KeepsLine};
ghost use Rattle.view_world.specs.frames.Works.{WorksOn};
ghost use Rattle.view_model.specs.Failing.{KeepsOnErr};
ghost use Rattle.view_model.specs.Texts.{IsShortText};
ghost use Rattle.view_world.specs.screen.Numbering.{HasNumber, NumbersOne};
ghost use Rattle.world_parts.specs.Faults.{HasMemory};

mod grow;
mod hook;
mod leave;
mod plain;
mod readers;
mod respond;
pub mod stage;
mod state;
mod touch;

use crate::screen::plain::is_plain;
use crate::screen::respond::respond;
use crate::screen::stage::Stage;
use arrayvec::ArrayVec;
use damage_rect::Damage;
use geom_core::Size;
use line_words::Name;
use pixel_raster::Surface;
use res_values::Resources;
use saved_state::States;
use script_lines::{Command, Given};
use seen_edits::{change, damage_all, paint_damage};
use size_hooks::Hooks;
use std::alloc::Global;
use std::marker::Model;
use text_lines::TextBuffer;
use tool_io::{Shelf, Sink};
use touch_dispatch::{Gesture, Log};
use touch_event::{MAX_POINTERS, Point};
use traversal::frame;
use tree_edits::Edit;
use view_model::limits::NORMAL_DPI;
use view_model::refusals::{
    DPI_LATE, HAS_ROOT, NO_FRAME, NO_ROOT, NO_VIEW, NO_WINDOW, RANGE, UNSETTLED,
};
use view_model::{Act as ViewAct, Class, Refusal, Work};
use view_tree::ViewTree;
use world_parts::{
    StepFault, fetch, find, has_any_scrolled, hides, inflation_of, place_of, recall_tree, resolve,
    resolve_escapes, value_of, views_of,
};
use world_replies::{ReplySource, Response, part_in, write_response};

/// The screen of a script: what its lines so far have made.
#[derive(Drop)]
pub struct Screen {
    tree: ViewTree,
    stage: Stage,
    /// The picture of the window: black before its first frame, and of no size before there is a window.
    surface: Surface,
    /// Where the picture may differ from that of the views as they are now.
    damage: Damage,
    /// How many dots the screen has per inch.
    dpi: u32,
    resources: Resources,
    /// A view has a place in it as long as it is in the tree.
    gesture: Gesture,
    /// The pointers that are down, by rising ids, each where its last line has put it.
    pointers: ArrayVec<Point, MAX_POINTERS>,
    /// The deliveries of the last line that had any, with room for all that an event delivers.
    log: Log,
    /// The armed hooks, of views that are in the tree. Their table is made with the first view, in memory of its own: it
    /// is larger than the rest of a screen, which is on the stack where it is moved.
    hooks: Option<Box<Hooks>>,
    /// The state that was saved last.
    states: States,
    /// Its bytes, as they were printed.
    saved: Vec<u8>,
    /// What gathers the text of each reply.
    text: TextBuffer,
}

impl Model for Screen {
    ghost use Rattle.view_world.specs.screen.KeyedScreen.{KeyedScreen, screen_code};

    ghost Value = { KeyedScreen };

    ghost coded = { screen_code };

    ghost use Rattle.view_world.specs.screen.Sound.{IsSound, keyed};

    ghost view = { keyed };

    ghost invariant = { IsSound };
}

impl Screen {
    /// A screen without a window and without a view.
    pub fn new(alloc: Global) -> Screen
        ensures { result ≡ new_screen }
    {
        Screen {
            tree: ViewTree::new(alloc),
            stage: Stage::NoWindow,
            surface: Surface::empty(alloc),
            damage: Damage::new(),
            dpi: NORMAL_DPI,
            resources: Resources::new(alloc),
            gesture: Gesture::new(alloc),
            pointers: ArrayVec::new(),
            log: Log::new(alloc),
            hooks: None,
            states: States::empty(alloc),
            saved: Vec::new(alloc),
            text: TextBuffer::new(),
        }
    }

    /// Carries out a command, and then writes its text. If it is refused, runs out of memory, or a fetch fails, nothing
    /// has changed.
    #[inline(always)]
    pub fn line<K: Sink, F: Shelf>(
        &mut self,
        alloc: Global,
        command: &Command<'_>,
        shelf: &mut F,
        sink: &mut K,
        work: &mut Work,
    ) -> Result<(), StepFault>
        requires numbers { HasNumber self.old }
        requires bounds { IsInBounds (plain_command command.now) }
        requires short { text_length (plain_command command.now) < 2 ^ 31 }
        ensures carried { (files : Files)
            → AreAtHand files (F.files shelf.old) (asked_file (world_of self.old) (plain_command command.now))
            → WritesReply (step files (world_of self.old) (plain_command command.now)) (world_of self.new)
            (K.state sink.old) (K.state sink.new) result }
        ensures unchanged { IsDoneOrKeepsBoth result self.old self.new sink.old sink.new }
        ensures reports { IsDone result → Reports self.new (K.state sink.old) (K.state sink.new) result }
        ensures silent { (files : Files) (world : PlainWorld)
            → AreAtHand files (F.files shelf.old) (asked_file (world_of self.old) (plain_command command.now))
            → step files (world_of self.old) (plain_command command.now) ≡ Done world []
            → sink.new ≡ sink.old }
        ensures shelf { AsksShelf F.files F.fetches F.faults
            (asked_file (world_of self.old) (plain_command command.now)) result shelf.old shelf.new }
        ensures memory { result ≡ Err StepFault.NoMemory → MayWantMemory (plain_command command.now) }
        ensures numbers { self.new.views.next ≤ self.old.views.next + max_views }
        ensures works { WorksOn self.old self.new (plain_command command.now) result work.old work.new }
        ensures sink_failed { CountsSink (K.state sink.old) (K.state sink.new) result }
    {
        if let Some((name, into)) = inflation_of(command) {
            return self.inflate_line(alloc, name, into, shelf, sink);
        }
        match self.carry_out(alloc, command, work) {
            Ok(Response::Nothing) => Ok(()),
            Ok(response) => self.report(response, sink),
            Err(fault) => Err(fault),
        }
    }

    /// The number of the view that is made next.
    pub fn next_number(&self) -> u64
        ensures { result ≡ self.now.views.next }
    {
        self.tree.next_number()
    }

    /// Whether the last frame has settled, and no window came since.
    pub fn has_settled(&self) -> bool
        ensures { result ≡ has_settled (world_of self.now).stage }
    {
        match self.stage {
            Stage::NoWindow | Stage::NoFrame | Stage::Unsettled => false,
            Stage::Settled => true,
        }
    }

    /// Whether a view has moved its children, by the deliveries of the last line that had any.
    pub fn has_scrolled(&self) -> bool
        ensures { result ≡ has_any_scrolled self.now.reported }
    {
        has_any_scrolled(self.log.entries())
    }

    /// Adds the views of a file, and then writes which they are.
    #[inline(never)]
    fn inflate_line<K: Sink, F: Shelf>(
        &mut self,
        alloc: Global,
        name: &str,
        into: Option<Name>,
        shelf: &mut F,
        sink: &mut K,
    ) -> Result<(), StepFault>
        requires numbers { HasNumber self.old }
        ensures carried { (files : Files)
            → AreAtHand files (F.files shelf.old) (asked_for (plain_of self.old.views) (Some (name.now, into)))
            → WritesReply (inflation files (world_of self.old) name.now into) (world_of self.new)
            (K.state sink.old) (K.state sink.new) result }
        ensures unchanged { IsDoneOrKeepsBoth result self.old self.new sink.old sink.new }
        ensures reports { IsDone result → Reports self.new (K.state sink.old) (K.state sink.new) result }
        ensures shelf { AsksShelf F.files F.fetches F.faults
            (asked_for (plain_of self.old.views) (Some (name.now, into))) result shelf.old shelf.new }
        ensures numbers { self.new.views.next ≤ self.old.views.next + max_views }
        ensures keeps { IsDone result → KeepsLine (Inflate name.now into) self.old self.new }
        ensures sink_failed { CountsSink (K.state sink.old) (K.state sink.new) result }
    {
        let response = self.inflate(alloc, name, into, shelf)?;
        self.report(response, sink)
    }

    /// Writes the text of a line that was carried out.
    #[inline(never)]
    fn report<K: Sink>(&mut self, response: Response, sink: &mut K) -> Result<(), StepFault>
        requires { IsReportable self.old.views self.old.surface self.old.reported self.old.saved response }
        ensures carried { WritesReply (Done (world_of self.old) (response_text self.old.views self.old.surface
            self.old.reported self.old.saved response))
            (world_of self.new) (K.state sink.old) (K.state sink.new) result }
        ensures silent { response_text self.old.views self.old.surface self.old.reported self.old.saved response ≡ []
            → sink.new ≡ sink.old }
        ensures done { IsDone result }
        ensures same { self.new ≡ self.old }
        ensures sink_failed { CountsSink (K.state sink.old) (K.state sink.new) result }
    {
        let source = ReplySource {
            tree: &self.tree,
            surface: &self.surface,
            log: &self.log,
            saved: self.saved.as_slice(),
        };
        match write_response(&source, response, &mut self.text, sink) {
            Ok(()) => Ok(()),
            Err(_) => Err(StepFault::Sink),
        }
    }

    /// Adds the views of a file below the view that is named, or as the whole tree.
    fn inflate<F: Shelf>(
        &mut self,
        alloc: Global,
        name: &str,
        into: Option<Name>,
        shelf: &mut F,
    ) -> Result<Response, StepFault>
        requires numbers { HasNumber self.old }
        ensures changed { (files : Files)
            → AreAtHand files (F.files shelf.old) (asked_for (plain_of self.old.views) (Some (name.now, into)))
            → Inflates (inflation files (world_of self.old) name.now into) self.new result }
        ensures reported { IfOk result
            (λ response. IsReportable self.new.views self.new.surface self.new.reported self.new.saved response) }
        ensures unchanged { KeepsOnErr result self.old self.new }
        ensures shelf { AsksShelf F.files F.fetches F.faults
            (asked_for (plain_of self.old.views) (Some (name.now, into))) result shelf.old shelf.new }
        ensures numbers { self.new.views.next ≤ self.old.views.next + max_views }
        ensures keeps { OnOk result (KeepsLine (Inflate name.now into) self.old self.new) }
        ensures no_sink { result ≢ Err StepFault.Sink }
    {
        let place = place_of(&self.tree, into)?;
        let bytes = fetch(alloc, shelf, name)?;
        let grown = views_of(alloc, bytes.as_slice(), &self.resources, self.dpi)?;
        self.graft(alloc, place, grown)
    }

    /// Carries out a command that asks for no file, and returns its reply.
    fn carry_out(
        &mut self,
        alloc: Global,
        command: &Command<'_>,
        work: &mut Work,
    ) -> Result<Response, StepFault>
        requires alone { inflation_of (plain_command command.now) ≡ None }
        requires numbers { HasNumber self.old }
        requires bounds { IsInBounds (plain_command command.now) }
        requires short { text_length (plain_command command.now) < 2 ^ 31 }
        ensures changed { CarriesOut (step [] (world_of self.old) (plain_command command.now)) self.new result }
        ensures unchanged { KeepsOnErr result self.old self.new }
        ensures memory { result ≡ Err StepFault.NoMemory → MayWantMemory (plain_command command.now) }
        ensures numbers { NumbersOne self.old self.new }
        ensures work { plain_command command.now ≢ Frame → work.new ≡ work.old }
        ensures idle { OnErr result (work.new ≡ work.old) }
        ensures still { plain_command command.now ≡ Frame → IsShown self.old → work.new ≡ work.old }
        ensures framed { plain_command command.now ≡ Frame
            → OnOk result (IsFrameDone self.old self.new work.old work.new) }
        ensures keeps { plain_command command.now ≢ Frame
            → OnOk result (KeepsLine (plain_command command.now) self.old self.new) }
        ensures painted { RisesWithin (paint_bound (world_of self.old)) work.old.painted work.new.painted }
    {
        match *command {
            Command::Window { w, h } => self.open(Size { w, h }),
            Command::Dpi(dpi) => self.set_dpi(dpi),
            Command::Res { id, value } => self.define(alloc, id, value),
            // An `inflate` line is handled by `inflate_line`.
            Command::Inflate { .. } => unreachable!(),
            Command::Add {
                parent,
                class,
                width,
                height,
            } => self.add(alloc, parent, class, width, height),
            Command::Remove(view) => self.remove(alloc, view),
            Command::Act { view, act } => self.act(alloc, view, act),
            Command::Text { view, text } => self.set_text(alloc, view, text),
            Command::Disallow { view, on } => self.disallow(view, on),
            Command::Hook { view, edits, bad } => self.hook(view, edits, bad),
            Command::Down { p, x, y } => self.down(p, x, y),
            Command::Move { p, x, y } => self.drag(p, x, y),
            Command::Up(p) => self.up(p),
            Command::Cancel => self.cancel(),
            Command::Frame => self.frame(work),
            Command::Bounds(view) => self.bounds(view),
            Command::Pixels { x, y, w, h } => self.pixels(x, y, w, h),
            Command::Digest => self.digest(),
            Command::Save => self.save(alloc),
            Command::Restore(text) => self.restore(alloc, text),
        }
    }

    /// The size of the window, in pixels, where there is one.
    pub fn window(&self) -> Option<Size>
        ensures { result ≡ window_of self.now }
    {
        match self.stage {
            Stage::NoWindow => None,
            Stage::NoFrame | Stage::Unsettled | Stage::Settled => Some(self.surface.size()),
        }
    }

    /// Opens a window of this size, in pixels. Its picture replaces the last one.
    fn open(&mut self, size: Size) -> Result<Response, StepFault>
        requires width { IsWithin (pos 1) max_window size.w }
        requires height { IsWithin (pos 1) max_window size.h }
        ensures changed { CarriesOut (Done (with_window (world_of self.old) size) []) self.new result }
        ensures unchanged { KeepsOnErr result self.old self.new }
        ensures numbers { KeepsNext self.old.views self.new.views }
        ensures keeps { self.new.views ≡ self.old.views }
        ensures opened { OnOk result (black_picture (window_of self.new) ≡ self.new.surface.pixels) }
    {
        match self.surface.reset(size) {
            Err(_) => Err(StepFault::NoMemory),
            Ok(()) => {
                self.damage = Damage::new();
                damage_all(&mut self.damage, self.surface.size());
                self.stage = Stage::NoFrame;
                Ok(Response::Nothing)
            }
        }
    }

    /// Sets the density of the screen, as long as there is no view.
    fn set_dpi(&mut self, dpi: u32) -> Result<Response, StepFault>
        ensures changed { CarriesOut (dpi_reported (world_of self.old) dpi (plain_of self.old.views)) self.new result }
        ensures unchanged { KeepsOnErr result self.old self.new }
        ensures memory { HasMemory result }
        ensures numbers { KeepsNext self.old.views self.new.views }
        ensures keeps { OnOk result (IsIdle self.old self.new) }
    {
        if self.tree.root().is_some() {
            return Err(StepFault::Refused(Refusal::plain(DPI_LATE)));
        }
        self.dpi = dpi;
        Ok(Response::Nothing)
    }

    /// Defines a resource, or gives one that is there another value.
    fn define(&mut self, alloc: Global, id: u32, given: Given<'_>) -> Result<Response, StepFault>
        requires short { given_text_length (plain_given given) < 2 ^ 31 }
        ensures changed { CarriesOut (defined (world_of self.old) id (resource_given (plain_given given.entry))
            (definition_refusal_of self.old.resources id)) self.new result }
        ensures unchanged { KeepsOnErr result self.old self.new }
        ensures numbers { KeepsNext self.old.views self.new.views }
        ensures keeps { OnOk result (IsIdle self.old self.new) }
    {
        let value = value_of(alloc, given)?;
        self.resources.define(id, value)?;
        Ok(Response::Nothing)
    }

    /// Makes an edit that adds and removes no view.
    fn edit(&mut self, alloc: Global, edit: Edit<'_>) -> Result<Response, StepFault>
        requires edit { IsEdit self.old.views edit }
        requires leaves { LeavesViews edit }
        requires scrolls { EditsWithin edit }
        ensures changed { CarriesOut
            (after_edit (world_of self.old) (numbered self.old.views edit.entry)) self.new result }
        ensures unchanged { KeepsOnErr result self.old self.new }
        ensures memory { result ≡ Err StepFault.NoMemory → EditMayWantMemory edit.entry }
        ensures numbers { NumbersOne self.old self.new }
        ensures keeps { OnOk result (KeepsEdit edit.entry self.old self.new) }
    {
        recall_tree(&self.tree);
        let window = self.surface.size();
        let made = change(alloc, &mut self.tree, window, edit, &mut self.damage);
        recall_tree(&self.tree);
        respond(made)
    }

    /// Makes a root.
    fn add_root(
        &mut self,
        alloc: Global,
        class: Class,
        width: i32,
        height: i32,
    ) -> Result<Response, StepFault>
        requires { HasNumber self.old }
        ensures changed { CarriesOut (step [] (world_of self.old) (Add None class width height)) self.new result }
        ensures unchanged { KeepsOnErr result self.old self.new }
        ensures numbers { NumbersOne self.old self.new }
        ensures keeps { OnOk result (KeepsLine (Add None class width height) self.old self.new) }
    {
        if self.tree.root().is_some() {
            return Err(StepFault::Refused(Refusal::plain(HAS_ROOT)));
        }
        self.grow(alloc, None, class, width, height)
    }

    /// Makes a view, the last child of its parent, or the root if there is none.
    fn add(
        &mut self,
        alloc: Global,
        parent: Option<Name>,
        class: Class,
        width: i32,
        height: i32,
    ) -> Result<Response, StepFault>
        requires { HasNumber self.old }
        ensures changed { CarriesOut (step [] (world_of self.old) (Add parent class width height)) self.new result }
        ensures unchanged { KeepsOnErr result self.old self.new }
        ensures numbers { NumbersOne self.old self.new }
        ensures keeps { OnOk result (KeepsLine (Add parent class width height) self.old self.new) }
    {
        let Some(parent) = parent else {
            return self.add_root(alloc, class, width, height);
        };
        let parent = resolve(&self.tree, parent)?;
        self.grow(alloc, Some(parent), class, width, height)
    }

    /// Removes a view and all below it.
    fn remove(&mut self, alloc: Global, view: Name) -> Result<Response, StepFault>
        ensures changed { CarriesOut (step [] (world_of self.old) (Remove view)) self.new result }
        ensures unchanged { KeepsOnErr result self.old self.new }
        ensures memory { HasMemory result }
        ensures numbers { NumbersOne self.old self.new }
        ensures keeps { OnOk result (KeepsLine (Remove view) self.old self.new) }
    {
        let view = resolve(&self.tree, view)?;
        self.take_away(alloc, view)
    }

    /// Makes an act on a view.
    fn act(&mut self, alloc: Global, view: Name, act: ViewAct) -> Result<Response, StepFault>
        requires { IsActInBounds act }
        ensures changed { CarriesOut (step [] (world_of self.old) (Act view act)) self.new result }
        ensures unchanged { KeepsOnErr result self.old self.new }
        ensures memory { result ≡ Err StepFault.NoMemory → names_views act ≡ true }
        ensures numbers { NumbersOne self.old self.new }
        ensures keeps { OnOk result (KeepsLine (Act view act) self.old self.new) }
    {
        let view = resolve(&self.tree, view)?;
        if hides(act) {
            self.hide(alloc, view, act)
        } else {
            self.edit(alloc, Edit::Act { view, act })
        }
    }

    /// Sets the text of a view. The escapes of the text are as written.
    fn set_text(&mut self, alloc: Global, view: Name, text: &str) -> Result<Response, StepFault>
        requires { IsShortText text.now }
        ensures changed { CarriesOut (step [] (world_of self.old) (SetText view text.now)) self.new result }
        ensures unchanged { KeepsOnErr result self.old self.new }
        ensures numbers { NumbersOne self.old self.new }
        ensures keeps { OnOk result (KeepsLine (SetText view text.now) self.old self.new) }
    {
        let view = resolve(&self.tree, view)?;
        if is_plain(text) {
            return self.edit(alloc, Edit::Text { view, text });
        }
        let text = resolve_escapes(alloc, text)?;
        self.edit(
            alloc,
            Edit::Text {
                view,
                text: text.as_str(),
            },
        )
    }

    /// Lays the whole tree out, and if the frame has settled, paints what may have changed since.
    fn frame(&mut self, work: &mut Work) -> Result<Response, StepFault>
        ensures changed { CarriesOut (step [] (world_of self.old) Frame) self.new result }
        ensures unchanged { KeepsOnErr result self.old self.new }
        ensures memory { HasMemory result }
        ensures numbers { KeepsNext self.old.views self.new.views }
        ensures idle { OnErr result (work.new ≡ work.old) }
        ensures still { IsShown self.old → work.new ≡ work.old }
        ensures framed { OnOk result (IsFrameDone self.old self.new work.old work.new) }
        ensures painted { RisesWithin (paint_bound (world_of self.old)) work.old.painted work.new.painted }
    {
        let Some(window) = self.window() else {
            return Err(StepFault::Refused(Refusal::plain(NO_WINDOW)));
        };
        if self.tree.root().is_none() {
            return Err(StepFault::Refused(Refusal::plain(NO_ROOT)));
        }
        recall_tree(&self.tree);
        let Some(hooks) = &mut self.hooks else {
            unreachable!()
        };
        let outcome = frame(&mut self.tree, hooks, window, work);
        let response = Response::Framed {
            settled: outcome.settled,
            fired: outcome.fired,
        };
        if !outcome.settled {
            damage_all(&mut self.damage, self.surface.size());
            self.stage = Stage::Unsettled;
            return Ok(response);
        }
        recall_tree(&self.tree);
        self.damage.add(outcome.damage);
        paint_damage(&self.tree, &mut self.surface, &mut self.damage, work);
        self.stage = Stage::Settled;
        Ok(response)
    }

    /// Finds the bounds of a view, or of each view.
    fn bounds(&self, view: Option<Name>) -> Result<Response, StepFault>
        ensures changed { CarriesOut (step [] (world_of self.now) (Bounds view)) self.now result }
        ensures memory { HasMemory result }
    {
        self.touchable()?;
        recall_tree(&self.tree);
        let Some(name) = view else {
            return Ok(Response::Bounds(None));
        };
        match find(&self.tree, name) {
            Some(view) => Ok(Response::Bounds(Some(view))),
            None => Err(StepFault::Refused(Refusal::plain(NO_VIEW))),
        }
    }

    /// Whether views can be touched, and have bounds: the last frame has settled, and its tree is there.
    fn touchable(&self) -> Result<(), StepFault>
        ensures { IsTouchable self.now result }
    {
        if self.window().is_none() {
            return Err(StepFault::Refused(Refusal::plain(NO_WINDOW)));
        }
        if self.tree.root().is_none() {
            return Err(StepFault::Refused(Refusal::plain(NO_ROOT)));
        }
        match self.stage {
            Stage::NoWindow | Stage::NoFrame => {
                Err(StepFault::Refused(Refusal::plain(NO_FRAME)))
            }
            Stage::Unsettled => Err(StepFault::Refused(Refusal::plain(UNSETTLED))),
            Stage::Settled => Ok(()),
        }
    }

    /// The size of the window, once a frame has settled in it.
    fn pictured(&self) -> Result<Size, StepFault>
        ensures { Pictured self.now result }
    {
        match self.stage {
            Stage::NoWindow => Err(StepFault::Refused(Refusal::plain(NO_WINDOW))),
            Stage::NoFrame => Err(StepFault::Refused(Refusal::plain(NO_FRAME))),
            Stage::Unsettled => Err(StepFault::Refused(Refusal::plain(UNSETTLED))),
            Stage::Settled => Ok(self.surface.size()),
        }
    }

    /// Finds the colours of a part of the picture, in window coordinates.
    fn pixels(&self, x: i32, y: i32, w: i32, h: i32) -> Result<Response, StepFault>
        requires { IsPart x y w h }
        ensures changed { CarriesOut (step [] (world_of self.now) (Pixels x y w h)) self.now result }
        ensures memory { HasMemory result }
    {
        let window = self.pictured()?;
        match part_in(window, x, y, w, h) {
            Some(part) => Ok(Response::Pixels(part)),
            None => Err(StepFault::Refused(Refusal::plain(RANGE))),
        }
    }

    /// Finds the digest of the picture, which is kept until a pixel is painted.
    fn digest(&mut self) -> Result<Response, StepFault>
        ensures changed { CarriesOut (step [] (world_of self.old) Digest) self.new result }
        ensures same { self.new ≡ self.old }
        ensures memory { HasMemory result }
    {
        self.pictured()?;
        self.surface.keep_digest();
        Ok(Response::Digest)
    }
}
