//! What edits of a view touch besides the facts that they set, and which classes have these: a row for each.
ghost use Rattle.std.specs.Prelude.{◌≡◌};
ghost use Rattle.view_model.specs.Facets.{facet_of, reach_of_change, reach_of_flag, row_of, row_of_reach, takes, takes_change, takes_flag};

use crate::changes::{Act, Change, Flag};
use crate::class::Class;
use crate::visibility::Visibility;

/// Who reads what an edit sets.
#[derive(Clone, Copy)]
pub enum Reach {
    /// Layout alone: a picture shows it by the bounds that the next layout gives.
    Laid,
    /// Layout and pictures.
    Shown,
    /// Pictures alone.
    Painted,
    /// Neither.
    Unread,
}

impl Reach {
    /// Whether layout reads it.
    #[inline(always)]
    pub fn asks(self) -> bool
        ensures { result ≡ (row_of_reach self).asks }
    {
        match self {
            Reach::Laid | Reach::Shown => true,
            Reach::Painted | Reach::Unread => false,
        }
    }

    /// Whether pictures show it, though nothing is laid out anew.
    #[inline(always)]
    pub fn shows(self) -> bool
        ensures { result ≡ (row_of_reach self).shows }
    {
        match self {
            Reach::Shown | Reach::Painted => true,
            Reach::Laid | Reach::Unread => false,
        }
    }
}

/// What an act touches besides the facts that it sets.
#[derive(Clone, Copy)]
pub enum Facet {
    /// Only what reads these facts.
    Set(Reach),
    /// The visibility, which layout and pictures read. If the act hides the view, it and all below it are out of layout
    /// at once.
    Visible { hides: bool },
    /// How far the child is moved up, which layout brings into range and pictures show.
    Scrolled { offset: i32 },
    /// The direction, which goes down the tree; layout and pictures read it.
    Turned,
    /// The name by which a view is found; layout alone reads it.
    Named,
    /// The rule at this place, which may name another view; layout alone reads it.
    Tied { verb: u8 },
}

impl Facet {
    /// Whether the act may change the layout, so that it requests one.
    #[inline(always)]
    pub fn asks(self) -> bool
        ensures { result ≡ (row_of self).asks }
    {
        match self {
            Facet::Set(reach) => reach.asks(),
            Facet::Visible { .. }
            | Facet::Scrolled { .. }
            | Facet::Turned
            | Facet::Named
            | Facet::Tied { .. } => true,
        }
    }

    /// Whether a picture shows what the act sets, though nothing is laid out anew.
    #[inline(always)]
    pub fn shows(self) -> bool
        ensures { result ≡ (row_of self).shows }
    {
        match self {
            Facet::Set(reach) => reach.shows(),
            Facet::Visible { .. } | Facet::Scrolled { .. } | Facet::Turned => true,
            Facet::Named | Facet::Tied { .. } => false,
        }
    }
}

impl Act {
    /// What this act touches.
    #[inline(always)]
    pub fn facet(self) -> Facet
        ensures { result ≡ facet_of self }
    {
        match self {
            Act::Change(change) => Facet::Set(change.reach()),
            Act::WeightSum(_) => Facet::Set(Reach::Laid),
            Act::Orient { .. } => Facet::Set(Reach::Laid),
            Act::Direction(_) => Facet::Turned,
            Act::Flag { flag, on: _ } => Facet::Set(flag.reach()),
            Act::Visible(visibility) => Facet::Visible {
                hides: matches!(visibility, Visibility::Gone),
            },
            Act::Ink(_) => Facet::Set(Reach::Painted),
            Act::Id(_) => Facet::Named,
            Act::Rule { verb, value: _ } => Facet::Tied { verb },
            Act::Answer(_) => Facet::Set(Reach::Unread),
            Act::Intercept(_) => Facet::Set(Reach::Unread),
            Act::Scroll(offset) => Facet::Scrolled { offset },
        }
    }
}

impl Change {
    /// Who reads what this change sets.
    #[inline(always)]
    pub fn reach(self) -> Reach
        ensures { result ≡ reach_of_change self }
    {
        match self {
            Change::Size { .. } => Reach::Laid,
            Change::Min(_) => Reach::Laid,
            Change::Margins(_) => Reach::Laid,
            Change::Padding(_) => Reach::Shown,
            Change::Weight(_) => Reach::Laid,
            Change::Gravity { .. } => Reach::Laid,
            Change::Background(_) => Reach::Painted,
        }
    }
}

impl Flag {
    /// Who reads this flag.
    #[inline(always)]
    pub fn reach(self) -> Reach
        ensures { result ≡ reach_of_flag self }
    {
        match self {
            Flag::Clip => Reach::Painted,
            Flag::Fill => Reach::Shown,
            Flag::Split => Reach::Unread,
        }
    }
}

impl Class {
    /// Whether a view of this class has what an act sets.
    pub fn takes(self, act: Act) -> bool
        ensures { result ≡ takes self act }
    {
        match act {
            Act::Change(change) => self.takes_change(change),
            Act::Flag { flag, on: _ } => self.takes_flag(flag),
            Act::Intercept(_) => self.is_group(),
            Act::WeightSum(_) | Act::Orient { .. } => self.lays_in_line(),
            Act::Visible(_) | Act::Id(_) | Act::Rule { .. } | Act::Direction(_) => true,
            Act::Answer(_) => !self.scrolls(),
            Act::Scroll(_) => self.scrolls(),
            Act::Ink(_) => self.has_text(),
        }
    }

    /// Whether a view of this class has what a change sets.
    pub fn takes_change(self, change: Change) -> bool
        ensures { result ≡ takes_change self change }
    {
        match change {
            Change::Gravity { kids, gravity: _ } => !kids || self.lays_in_line(),
            Change::Size { .. }
            | Change::Min(_)
            | Change::Margins(_)
            | Change::Padding(_)
            | Change::Weight(_)
            | Change::Background(_) => true,
        }
    }

    /// Whether a view of this class has what a flag turns on or off.
    fn takes_flag(self, flag: Flag) -> bool
        ensures { result ≡ takes_flag self flag }
    {
        match flag {
            Flag::Clip | Flag::Split => self.is_group(),
            Flag::Fill => self.scrolls(),
        }
    }
}
