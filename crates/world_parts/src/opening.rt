//! What is made before views are added: their places, and a table for their hooks.
//!
//! A view's place for touches, with room for three entries of the log, is taken before the view is made and not at the
//! touch: so no touch is out of memory, and an `add` may be, even where it would have been refused. The table of hooks
//! has memory of its own, made with the first view: it has 9 of 14.5 KB, which each move of a world would copy. A
//! `hook` line takes none.

ghost use Rattle.std.specs.Prelude.{◌≡◌, ◌≢◌, ◌<◌, ◌+◌, ◌^◌, [], None, IfOk, OnErr, OnOk};
ghost use Rattle.touch_dispatch.specs.gesture.Kept.{Kept, gesture_of};
ghost use Rattle.world_parts.specs.Places.{AreFree, AreOpened, AreUnknown, hooks_in, with_places};

use size_hooks::Hooks;
use std::alloc::{AllocError, Global};
use touch_dispatch::Gesture;

/// Makes a table of hooks if there is none, so that a hook is armed without memory.
pub fn make_hooks(alloc: Global, hooks: &mut Option<Box<Hooks>>) -> Result<(), AllocError>
    ensures made { OnOk result (hooks.new ≢ None) }
    ensures same { hooks_in hooks.new ≡ hooks_in hooks.old }
    ensures unchanged { OnErr result (hooks.new ≡ hooks.old) }
{
    if hooks.is_none() {
        *hooks = Some(new_table(alloc)?);
    }
    Ok(())
}

/// A table in which no hook is armed. It is made in a function of its own, since the locals of a function are cleared
/// each time that it is called, and a table is large.
#[inline(never)]
fn new_table(alloc: Global) -> Result<Box<Hooks>, AllocError>
    ensures { IfOk result (λ table. table.value ≡ []) }
{
    Ok(Box::new(alloc, Hooks::new())?)
}

/// Keeps places for this many views, from this number on; for all of them, or for none.
pub fn open_all(gesture: &mut Gesture, first: u64, count: usize) -> Result<(), AllocError>
    requires numbers { first + count < 2 ^ 64 }
    requires free { AreFree first gesture.old }
    ensures added { OnOk result (gesture.new ≡ with_places first count gesture.old) }
    ensures gesture { gesture_of gesture.new ≡ gesture_of gesture.old }
    ensures opened { OnOk result (AreOpened first count gesture.old gesture.new) }
    ensures unknown { OnOk result (AreUnknown first count gesture.old) }
    ensures unchanged { OnErr result (gesture.new ≡ gesture.old) }
{
    let mut opened = 0;
    while opened < count {
        let number = first + opened as u64;
        if gesture.open(number).is_err() {
            close_all(gesture, first, opened);
            return Err(AllocError);
        }
        opened += 1;
    }
    Ok(())
}

/// Removes the places of this many views again, the last one first.
pub fn close_all(gesture: &mut Gesture, first: u64, count: usize)
    requires { first + count < 2 ^ 64 }
    ensures { (before : Kept)
        → gesture.old ≡ with_places first count before
        → AreFree first before
        → AreUnknown first count before
        → gesture.new ≡ before }
{
    let mut left = count;
    while 0 < left {
        left -= 1;
        gesture.close(first + left as u64);
    }
}
