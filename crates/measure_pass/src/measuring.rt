//! Measuring a view through all views below it: what is common to all classes. `leaf`, `frame`, `linear`, `scroll` and
//! `relative` measure what is below a view by its class, and `keeping` keeps the results.
//!
//! A size that comes from a cache leaves the mark `measure_first`: the children still have sizes for other specs. They
//! are measured when layout reaches them, and not at once, since most such sizes are not the last ones of a frame.
//! There is no mark where these sizes are right for any specs (`alike`).
ghost use Rattle.std.specs.Prelude.{◌≡◌, ◌≤◌, ◌+◌, None, false, true};
ghost use Rattle.geom_core.specs.Limits.{IsSide};
ghost use Rattle.kept_views.specs.Kept.{Ready, owed};
ghost use Rattle.measure_cache.specs.Entries.{found, put_in};
ghost use Rattle.measure_pass.specs.Caches.{Grown};
ghost use Rattle.measure_pass.specs.Courses.{IsMeasuredBelow};
ghost use Rattle.measure_pass.specs.Measured.{Costs, Counted, IsFit, IsKnown, IsMeasured, IsReady, Keeps, KeepsRest, calls_under, current, entry_for, kids_from, size_under, total_under};
ghost use Rattle.measure_pass.specs.Sharing.{SharesOut};
ghost use Rattle.view_tree.specs.Rows.{first_tree, part_from};
ghost use Rattle.view_tree.specs.Views.{IsLive, IsTree, KeepsOutside, SameTree, cache_of, held_of, specs_of, state_of};

mod alike;
mod frame;
mod keeping;
mod leaf;
mod linear;
mod relative;
mod scroll;

use alike::is_right_below;
use frame::measure_frame;
use geom_core::{Size, Spec};
use keeping::{Outcome, finish, hit, is_current, make_up, resize};
use leaf::leaf_size;
use linear::measure_linear;
use measure_cache::Entry;
use relative::measure_siblings;
use scroll::measure_scroll;
use view_model::{Class, Work};
use view_tree::{Key, ViewTree};

/// Measures a view that takes part in layout under these specs, for its width and for its height; the result is its
/// size in pixels. Layout calls it for the root, and a group for its children as its class asks for them.
///
/// Nothing is done if the view was last measured under these specs and is not forced. If its size for them is in its
/// cache it gets that size and is marked: what is below it stays as it is, and `remeasure` makes up for it before it is
/// laid out. It is not marked if what is below it is right for them as it is. Otherwise what is below it is measured,
/// its size is remembered, and the measuring is counted. An exact spec that is the measured size is no reason to skip
/// it. Views below it that are gone are not measured.
#[cycle(measure)]
#[inline(always)]
pub fn measure(tree: &mut ViewTree, view: Key, ws: Spec, hs: Spec, work: &mut Work) -> Size
    requires ready { IsReady tree.old view }
    ensures size { result ≡ size_under (part_from view tree.old.tree) (record { across = ws; down = hs }) }
    ensures width { IsSide result.w }
    ensures height { IsSide result.h }
    ensures same { SameTree tree.old tree.new }
    ensures measured { IsMeasured tree.new view (record { across = ws; down = hs }) }
    ensures keeps { Keeps (held_of tree.old) (held_of tree.new) }
    ensures others { KeepsOutside (held_of tree.old) (held_of tree.new) (first_tree (part_from view tree.old.tree)) }
    ensures counted { Counted 0 tree.old tree.new work.old work.new }
    ensures costs { Costs (first_tree (part_from view tree.old.tree)) (held_of tree.old)
        (held_of tree.new) work.old.measured
        (calls_under (part_from view tree.old.tree) (record { across = ws; down = hs })) work.new.measured }
    ensures caches { Grown (λ place other. other ≡ (record { across = ws; down = hs })) (held_of tree.old)
        (held_of tree.new) (first_tree (part_from view tree.old.tree)) }
    ensures shares { SharesOut (λ place other. other ≡ (record { across = ws; down = hs })) (λ place. 1)
        (held_of tree.old) (held_of tree.new) (first_tree (part_from view tree.old.tree))
        work.old.measured work.new.measured }
    ensures still { current (state_of tree.old view) (record { across = ws; down = hs }) ≡ true → tree.new ≡ tree.old }
    ensures idle { IsKnown (held_of tree.old view) (record { across = ws; down = hs })
        → (work.new ≡ work.old)
        × (cache_of tree.new view ≡ cache_of tree.old view)
        × (tree.new.counts ≡ tree.old.counts) }
    ensures busy { (IsKnown (held_of tree.old view) (record { across = ws; down = hs }) → ⊥)
        → Counted 1 tree.old tree.new work.old work.new
        × (cache_of tree.new view ≡ put_in (cache_of tree.old view)
        (entry_for (record { across = ws; down = hs }) result)) }
{
    let state = tree.state(view);
    if is_current(&state, ws, hs) {
        return state.measured;
    }
    measure_changed(tree, view, ws, hs, work)
}

/// Measures a view that is forced or was last measured under other specs. Most calls of `measure` do not get here, and
/// cost no call.
#[cycle(measure)]
#[inline(never)]
fn measure_changed(tree: &mut ViewTree, view: Key, ws: Spec, hs: Spec, work: &mut Work) -> Size
    requires ready { IsReady tree.old view }
    requires is_tree { IsTree tree.old }
    requires changed { current (state_of tree.old view) (record { across = ws; down = hs }) ≡ false }
    ensures size { result ≡ size_under (part_from view tree.old.tree) (record { across = ws; down = hs }) }
    ensures width { IsSide result.w }
    ensures height { IsSide result.h }
    ensures same { SameTree tree.old tree.new }
    ensures measured { IsMeasured tree.new view (record { across = ws; down = hs }) }
    ensures keeps { Keeps (held_of tree.old) (held_of tree.new) }
    ensures others { KeepsOutside (held_of tree.old) (held_of tree.new) (first_tree (part_from view tree.old.tree)) }
    ensures counted { Counted 0 tree.old tree.new work.old work.new }
    ensures costs { Costs (first_tree (part_from view tree.old.tree)) (held_of tree.old)
        (held_of tree.new) work.old.measured
        (calls_under (part_from view tree.old.tree) (record { across = ws; down = hs })) work.new.measured }
    ensures caches { Grown (λ place other. other ≡ (record { across = ws; down = hs })) (held_of tree.old)
        (held_of tree.new) (first_tree (part_from view tree.old.tree)) }
    ensures shares { SharesOut (λ place other. other ≡ (record { across = ws; down = hs })) (λ place. 1)
        (held_of tree.old) (held_of tree.new) (first_tree (part_from view tree.old.tree))
        work.old.measured work.new.measured }
    ensures idle { IsKnown (held_of tree.old view) (record { across = ws; down = hs })
        → (work.new ≡ work.old)
        × (cache_of tree.new view ≡ cache_of tree.old view)
        × (tree.new.counts ≡ tree.old.counts) }
    ensures busy { (IsKnown (held_of tree.old view) (record { across = ws; down = hs }) → ⊥)
        → Counted 1 tree.old tree.new work.old work.new
        × (cache_of tree.new view ≡ put_in (cache_of tree.old view)
        (entry_for (record { across = ws; down = hs }) result)) }
{
    if let Some(size) = tree.cache(view).find(ws, hs) {
        if is_right_below(tree, view) {
            resize(tree, view, ws, hs, size);
            return size;
        }
        hit(tree, view, ws, hs, size);
        return size;
    }
    measure_anew(tree, view, ws, hs, work)
}

/// Measures a view through what is below it.
#[cycle(measure)]
#[inline(always)]
fn measure_anew(tree: &mut ViewTree, view: Key, ws: Spec, hs: Spec, work: &mut Work) -> Size
    requires ready { IsReady tree.old view }
    requires changed { current (state_of tree.old view) (record { across = ws; down = hs }) ≡ false }
    requires miss { found (cache_of tree.old view) (record { across = ws; down = hs }) ≡ None }
    ensures size { result ≡ size_under (part_from view tree.old.tree) (record { across = ws; down = hs }) }
    ensures same { SameTree tree.old tree.new }
    ensures measured { IsMeasured tree.new view (record { across = ws; down = hs }) }
    ensures keeps { Keeps (held_of tree.old) (held_of tree.new) }
    ensures others { KeepsOutside (held_of tree.old) (held_of tree.new) (first_tree (part_from view tree.old.tree)) }
    ensures counted { Counted 1 tree.old tree.new work.old work.new }
    ensures costs { Costs (first_tree (part_from view tree.old.tree)) (held_of tree.old)
        (held_of tree.new) work.old.measured
        (calls_under (part_from view tree.old.tree) (record { across = ws; down = hs })) work.new.measured }
    ensures caches { Grown (λ place other. other ≡ (record { across = ws; down = hs })) (held_of tree.old)
        (held_of tree.new) (first_tree (part_from view tree.old.tree)) }
    ensures shares { SharesOut (λ place other. other ≡ (record { across = ws; down = hs })) (λ place. 1)
        (held_of tree.old) (held_of tree.new) (first_tree (part_from view tree.old.tree))
        work.old.measured work.new.measured }
    ensures cache { cache_of tree.new view
        ≡ put_in (cache_of tree.old view) (entry_for (record { across = ws; down = hs }) result) }
{
    let outcome = measure_below(tree, view, ws, hs, work);
    let entry = Entry {
        ws,
        hs,
        size: outcome.size,
    };
    finish(tree, view, entry, outcome.total, work);
    outcome.size
}

/// Measures what is below a view under these specs. A class that is not named has no children, and its size at once.
#[cycle(measure)]
#[inline(always)]
fn measure_below(tree: &mut ViewTree, view: Key, ws: Spec, hs: Spec, work: &mut Work) -> Outcome
    requires live { IsLive tree.old view }
    requires ready { Ready (held_of tree.old) (kids_from view tree.old.tree) }
    ensures is_tree { IsTree tree.old }
    ensures measured { IsMeasuredBelow (part_from view tree.old.tree) (record { across = ws; down = hs })
        (held_of tree.old) (held_of tree.new)
        result.size result.total work.old.measured work.new.measured }
    ensures rest { KeepsRest tree.old tree.new (kids_from view tree.old.tree) work.old work.new }
{
    match tree.class(view) {
        Class::FrameLayout => measure_frame(tree, view, ws, hs, work),
        Class::LinearLayout => measure_linear(tree, view, ws, hs, work),
        Class::ScrollView => measure_scroll(tree, view, ws, hs, work),
        Class::RelativeLayout => measure_siblings(tree, view, ws, hs, work),
        _ => Outcome {
            size: leaf_size(tree, view, ws, hs),
            total: 0,
        },
    }
}

/// Measures the children of a marked view for its last specs, and takes the mark away; its size, its specs and its
/// cache stay. Layout calls it before it places the children. It is a measuring of the view, and counted as one.
#[inline(never)]
pub fn remeasure(tree: &mut ViewTree, view: Key, work: &mut Work)
    requires fit { IsFit tree.old view }
    requires marked { (state_of tree.old view).measure_first ≡ true }
    ensures same { SameTree tree.old tree.new }
    ensures held { held_of tree.new view ≡ record (held_of tree.old view) {
      state = record (state_of tree.old view) {
        total = total_under (part_from view tree.old.tree) (specs_of (state_of tree.old view));
        measure_first = false;
      };
    } }
    ensures measured { IsMeasured tree.new view (specs_of (state_of tree.old view)) }
    ensures keeps { Keeps (held_of tree.old) (held_of tree.new) }
    ensures others { KeepsOutside (held_of tree.old) (held_of tree.new) (first_tree (part_from view tree.old.tree)) }
    ensures counted { Counted 1 tree.old tree.new work.old work.new }
    ensures caches { Grown (λ place other. other ≡ specs_of (state_of tree.old view)) (held_of tree.old)
        (held_of tree.new) (first_tree (part_from view tree.old.tree)) }
    ensures shares { SharesOut (λ place other. other ≡ specs_of (state_of tree.old view)) (λ place. 0)
        (held_of tree.old) (held_of tree.new) (first_tree (part_from view tree.old.tree))
        work.old.measured work.new.measured }
    ensures back { work.new.measured + owed (held_of tree.new) (first_tree (part_from view tree.old.tree))
        ≤ work.old.measured + owed (held_of tree.old) (first_tree (part_from view tree.old.tree)) }
    ensures spent { work.new.measured
        ≤ work.old.measured + calls_under (part_from view tree.old.tree) (specs_of (state_of tree.old view)) }
{
    let state = tree.state(view);
    let outcome = measure_below(tree, view, state.ws, state.hs, work);
    make_up(tree, view, outcome, work);
}
