//! What lines change of a gesture, and what that depends on.
//!
//! A cancel reads no bounds, so a removal prints the same in every stage. A pointer stays down when its view goes away;
//! groups without targets handle its next lines themselves, and a new root gets its events once it has bounds.

ghost use Rattle.std.specs.Prelude.{◌≡◌, ℕ, ◌∷◌};
ghost use Rattle.touch_dispatch.specs.gesture.Kept.{gesture_of, is_open};
ghost use Rattle.touch_dispatch.specs.handling.Scrolled.{is_scroll};
ghost use Rattle.touch_dispatch.specs.reaching.TreeEvents.{IsGestureIn};
ghost use Rattle.tree_edits.specs.Editing.{hides};
ghost use Rattle.view_tree.specs.Views.{IsLive, IsTree, number_of, plain_of};
ghost use Rattle.world_parts.specs.Touching.{has_any_scrolled};
ghost use Rattle.world_parts.specs.Touching.{all_disallowed, ancestors_of, slop_at};

use touch_dispatch::{Entry, Gesture, Kind};
use view_model::{Act, Visibility, px};
use view_tree::{Key, ViewTree};

/// The word of 8 dip, as that of a dimension.
const SLOP: u32 = 0x801;

/// How far a pointer may slip before that counts, in pixels.
#[tactic(auto, unfolding(crate::specs::Touching::slop_at))]
pub fn slop_at(dpi: u32) -> i32
    ensures { result ≡ slop_at dpi }
{
    px(SLOP, dpi).unwrap_or(0)
}

/// Whether an act takes a view out of sight.
pub fn hides(act: Act) -> bool
    ensures { result ≡ hides act }
{
    matches!(act, Act::Visible(Visibility::Gone))
}

/// Whether a view has moved its children, by the deliveries of an event.
pub fn has_any_scrolled(entries: &[Entry]) -> bool
    ensures { result ≡ has_any_scrolled entries.now }
{
    entries.iter().any(|entry| is_scroll(entry.kind))
}

/// Whether a delivery says that a scroll view has moved its child.
fn is_scroll(kind: Kind) -> bool
    ensures { result ≡ is_scroll kind }
{
    match kind {
        Kind::Ask | Kind::Touch | Kind::Click => false,
        Kind::Scroll => true,
    }
}

/// Sets whether a view and its ancestors may not take events away from their children.
pub fn disallow_from(tree: &ViewTree, gesture: &mut Gesture, view: Key, on: bool)
    requires live { IsLive tree.now view }
    requires is_tree { IsTree tree.now }
    requires caught { IsGestureIn tree.now.tree gesture.old }
    ensures gesture { gesture_of gesture.new ≡ all_disallowed on (number_of tree.now view
        ∷ ancestors_of (number_of tree.now view) (plain_of tree.now)) (gesture_of gesture.old) }
    ensures opened { (other : ℕ) → is_open gesture.new other ≡ is_open gesture.old other }
{
    let mut next = Some(view);
    while let Some(view) = next {
        gesture.disallow(tree.number(view), on);
        next = tree.parent(view);
    }
}
