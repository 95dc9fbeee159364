//! What the lines since the last frame have left for the next one to do.
//!
//! Marks and the box of the damage are beside the plain world and no part of it: they say what the next frame has to
//! do, and not what a line does. So the costs of a run stay a function of script and files.
ghost use Rattle.std.specs.Prelude.{◌≡◌};
ghost use Rattle.script_lines.specs.commands.PlainCommands.{plain_command};
ghost use Rattle.view_world.specs.world.Marks.{effect_of, effect_of_act, marked, no_marks};
ghost use Rattle.view_world.specs.frames.Seen.{act_paints};

use script_lines::Command;
use tree_edits::requests_layout;
use view_model::Act;

/// What is known of the next frame.
#[derive(Clone, Copy)]
pub struct Marks {
    /// The last frame has settled, and no window came since.
    pub based: bool,
    /// Nor has a line requested layout since: the next frame measures nothing.
    pub quiet: bool,
    /// Nor has a line changed what is painted: the next frame paints nothing either.
    pub idle: bool,
}

/// What a line does to the marks.
#[derive(Clone, Copy)]
pub enum Effect {
    /// A window opens.
    Opens,
    /// The tree is laid out.
    Lays,
    /// Layout is requested.
    Asks,
    /// The layout stays, but the picture of the tree may be another one.
    Repaints,
    /// An event goes to views, which may move their children.
    Touches,
    /// Neither the layout nor the picture of the tree changes.
    Leaves,
}

impl Marks {
    /// What is known before the first frame: nothing.
    pub fn none() -> Marks
        ensures { result ≡ no_marks }
    {
        Marks {
            based: false,
            quiet: false,
            idle: false,
        }
    }

    /// The marks after a line. `settled`: whether the last frame has settled by then, and no window came since.
    /// `scrolled`: whether a touch has moved the children of a scroll view.
    pub fn after(self, effect: Effect, settled: bool, scrolled: bool) -> Marks
        ensures { result ≡ marked effect self settled scrolled }
    {
        match effect {
            Effect::Opens => Marks::none(),
            Effect::Lays => Marks {
                based: settled,
                quiet: settled,
                idle: settled,
            },
            Effect::Asks => Marks {
                based: self.based,
                quiet: false,
                idle: false,
            },
            Effect::Repaints => Marks {
                based: self.based,
                quiet: self.quiet,
                idle: false,
            },
            Effect::Touches => Marks {
                based: self.based,
                quiet: self.quiet,
                idle: self.idle && !scrolled,
            },
            Effect::Leaves => self,
        }
    }
}

/// What a line does to the marks.
pub fn effect_of(command: &Command<'_>) -> Effect
    ensures { result ≡ effect_of (plain_command command.now) }
{
    match *command {
        Command::Window { .. } => Effect::Opens,
        Command::Frame => Effect::Lays,
        Command::Inflate { .. }
        | Command::Add { .. }
        | Command::Remove(_)
        | Command::Text { .. }
        | Command::Restore(_) => Effect::Asks,
        Command::Act { act, .. } => effect_of_act(act),
        Command::Down { .. } | Command::Move { .. } | Command::Up(_) | Command::Cancel => {
            Effect::Touches
        }
        Command::Dpi(_)
        | Command::Res { .. }
        | Command::Disallow { .. }
        | Command::Hook { .. }
        | Command::Bounds(_)
        | Command::Pixels { .. }
        | Command::Digest
        | Command::Save => Effect::Leaves,
    }
}

/// What an act does to the marks.
fn effect_of_act(act: Act) -> Effect
    ensures { result ≡ effect_of_act act }
{
    if requests_layout(act) {
        Effect::Asks
    } else if paints(act) {
        Effect::Repaints
    } else {
        Effect::Leaves
    }
}

/// Whether an act is painted, and layout does not read it: a colour, or whether children are clipped.
fn paints(act: Act) -> bool
    ensures { result ≡ act_paints act }
{
    let facet = act.facet();
    facet.shows() && !facet.asks()
}
