//! What has to be painted again once an event has moved the children of scroll views.
ghost use Rattle.std.specs.Prelude.{◌≡◌};
ghost use Rattle.damage_rect.specs.Within.{LiesIn};
ghost use Rattle.geom_core.specs.declared.geometry.Rect.{Rect};
ghost use Rattle.seen_edits.specs.Scrolled.{EntryIn, NotesAll, NotesEntry, ScrolledIn};
ghost use Rattle.touch_dispatch.specs.handling.Scrolled.{is_scroll};
ghost use Rattle.view_tree.specs.Views.{IsTree};

use crate::trees::recall_tree;
use damage_rect::Damage;
use geom_core::Size;
use seen_parts::seen;
use touch_dispatch::{Entry, Kind, Log};
use view_tree::ViewTree;

/// Adds what is seen in a window of each scroll view that a log has as scrolled. The outermost of them have the bounds
/// that they had, and what was seen of the others before is within these.
pub fn note_scrolled(tree: &ViewTree, window: Size, log: &Log, damage: &mut Damage)
    ensures grew { LiesIn damage.old.rect damage.new.rect }
    ensures is_tree { IsTree tree.now }
    ensures noted { NotesAll window damage.new.rect tree.now log.now.entries.items }
    ensures within { (box : Rect)
        → LiesIn damage.old.rect box
        → ScrolledIn window box tree.now log.now.entries.items
        → LiesIn damage.new.rect box }
{
    recall_tree(tree);
    note_all(tree, window, log.entries(), damage);
}

/// The same of entries.
fn note_all(tree: &ViewTree, window: Size, entries: &[Entry], damage: &mut Damage)
    ensures grew { LiesIn damage.old.rect damage.new.rect }
    ensures noted { NotesAll window damage.new.rect tree.now entries.now }
    ensures within { (box : Rect)
        → LiesIn damage.old.rect box
        → ScrolledIn window box tree.now entries.now
        → LiesIn damage.new.rect box }
{
    for entry in entries {
        note_entry(tree, window, entry, damage);
    }
}

/// The same of one entry.
fn note_entry(tree: &ViewTree, window: Size, entry: &Entry, damage: &mut Damage)
    ensures grew { LiesIn damage.old.rect damage.new.rect }
    ensures noted { NotesEntry window damage.new.rect tree.now entry.now }
    ensures within { (box : Rect)
        → LiesIn damage.old.rect box
        → EntryIn window box tree.now entry.now
        → LiesIn damage.new.rect box }
{
    recall_tree(tree);
    if !is_scroll(entry.kind) {
        return;
    }
    let Some(view) = tree.find(entry.view) else {
        return;
    };
    damage.add(seen(tree, window, view));
}

/// Whether a scroll view has moved its child.
fn is_scroll(kind: Kind) -> bool
    ensures { result ≡ is_scroll kind }
{
    match kind {
        Kind::Ask | Kind::Touch | Kind::Click => false,
        Kind::Scroll => true,
    }
}
