//! The class of a view.

use crate::words::is;

/// The class of a view, by which it measures and lays out its children. A class is added here together with its rules.
#[derive(Clone, Copy, PartialEq, Eq)]
pub enum Class {
    /// A view with no content of its own, which has no children.
    View,
    /// A view that shows a text, which has no children.
    TextView,
    /// A group that lays its children over one another.
    FrameLayout,
    /// A group that lays its children in a line.
    LinearLayout,
    /// A group of at most one child, which may be higher than the group and is moved up by an offset.
    ScrollView,
    /// A group whose children are tied to its sides and to one another.
    RelativeLayout,
}

impl Class {
    ghost use Rattle.std.specs.Prelude.{◌≡◌};
    ghost use Rattle.view_model.specs.Classes.{class_named, has_text, is_group, is_relative, lays_in_line, scrolls, takes_one_child};

    /// The class that has this word, in scripts and in layout files, if there is one.
    #[inline(always)]
    #[tactic(auto, unfolding(crate::specs::Classes::class_named))]
    pub fn named(word: &[u8]) -> Option<Class>
        ensures { result ≡ class_named word.now }
    {
        match word {
            _ if is(word, b"View") => Some(Class::View),
            _ if is(word, b"TextView") => Some(Class::TextView),
            _ if is(word, b"FrameLayout") => Some(Class::FrameLayout),
            _ if is(word, b"LinearLayout") => Some(Class::LinearLayout),
            _ if is(word, b"RelativeLayout") => Some(Class::RelativeLayout),
            _ if is(word, b"ScrollView") => Some(Class::ScrollView),
            _ => None,
        }
    }

    /// Whether a view of this class may have children.
    pub fn is_group(self) -> bool
        ensures { result ≡ is_group self }
    {
        match self {
            Class::View | Class::TextView => false,
            Class::FrameLayout | Class::LinearLayout | Class::ScrollView | Class::RelativeLayout =>
                true,
        }
    }

    /// Whether a view of this class shows a text.
    pub fn has_text(self) -> bool
        ensures { result ≡ has_text self }
    {
        match self {
            Class::View
            | Class::FrameLayout
            | Class::LinearLayout
            | Class::ScrollView
            | Class::RelativeLayout => false,
            Class::TextView => true,
        }
    }

    /// Whether a view of this class lays its children in a line, and so has an orientation, a sum of weights and a gravity
    /// for them.
    pub fn lays_in_line(self) -> bool
        ensures { result ≡ lays_in_line self }
    {
        match self {
            Class::View
            | Class::TextView
            | Class::FrameLayout
            | Class::ScrollView
            | Class::RelativeLayout => false,
            Class::LinearLayout => true,
        }
    }

    /// Whether a view of this class measures its children in orders by their rules.
    pub fn is_relative(self) -> bool
        ensures { result ≡ is_relative self }
    {
        match self {
            Class::View
            | Class::TextView
            | Class::FrameLayout
            | Class::LinearLayout
            | Class::ScrollView => false,
            Class::RelativeLayout => true,
        }
    }

    /// Whether a view of this class moves its child up by an offset.
    pub fn scrolls(self) -> bool
        ensures { result ≡ scrolls self }
    {
        match self {
            Class::View
            | Class::TextView
            | Class::FrameLayout
            | Class::LinearLayout
            | Class::RelativeLayout => false,
            Class::ScrollView => true,
        }
    }

    /// Whether a view of this class, a group, has at most one child. A child that is gone counts.
    pub fn takes_one_child(self) -> bool
        ensures { result ≡ takes_one_child self }
    {
        match self {
            Class::View
            | Class::TextView
            | Class::FrameLayout
            | Class::LinearLayout
            | Class::RelativeLayout => false,
            Class::ScrollView => true,
        }
    }
}
