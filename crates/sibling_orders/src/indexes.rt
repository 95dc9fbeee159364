//! The order of a relative layout's children on one axis, when a child is added or removed. Neither takes memory.
ghost use Rattle.std.specs.Prelude.{◌≡◌, ◌≢◌, ℕ, ◌<◌, ◌++◌, ◌∷◌, [], length, slice_index, true};
ghost use Rattle.std.specs.Vec.{vec_capacity, vec_len};
ghost use Rattle.sibling_orders.specs.Indexes.{IsLowered, IsStraight, passing};

/// Takes the place of a removed child out of an order, and lowers the greater places: those that stay are in an order
/// by every relation that they had before.
pub fn remove_index(order: &mut Vec<u32>, gone: usize)
    ensures lowered { IsLowered gone order.old.items order.new.items }
    ensures straight { IsStraight order.old.items → gone < length order.old.items → IsStraight order.new.items }
{
    let at = place_of(order, gone);
    if at < order.len() {
        order.remove(at);
        lower(order, gone);
    }
}

/// Where a place is in an order, or past its end.
fn place_of(order: &[u32], gone: usize) -> usize
    ensures { ((p : ℕ) × (p < length order.now) × (slice_index order.now p ≡ gone))
        → (result < length order.now) × (slice_index order.now result ≡ gone) }
{
    for (p, place) in order.iter().enumerate() {
        if *place as usize == gone {
            return p;
        }
    }
    order.len()
}

/// Lowers each place above the removed one.
fn lower(order: &mut [u32], gone: usize)
    ensures { ((q : ℕ) → q < length order.old → slice_index order.old q ≢ gone)
        → (q : ℕ) → q < length order.old → passing gone (slice_index order.new q) ≡ slice_index order.old q }
{
    for place in order.iter_mut() {
        *place = lowered(*place, gone);
    }
}

/// A place once the child at `gone` is removed: one less if it is above that.
#[tactic(auto, unfolding(crate::specs::Indexes::passing))]
fn lowered(place: u32, gone: usize) -> u32
    ensures { place ≢ gone → passing gone result ≡ place }
{
    if place as usize <= gone {
        return place;
    }
    place - 1
}

/// Appends the place of a new child: it leads to no child, and no child leads to it. There is room for it.
pub fn add_index(order: &mut Vec<u32>, place: u32)
    requires { vec_len order.old < vec_capacity order.old }
    ensures items { order.new.items ≡ order.old.items ++ place ∷ [] }
{
    order.push_reserved(place);
}

/// Whether each place of an order is its own.
pub fn is_straight(order: &[u32]) -> bool
    ensures { result ≡ true → IsStraight order.now }
{
    for (p, place) in order.iter().enumerate() {
        if *place as usize != p {
            return false;
        }
    }
    true
}
