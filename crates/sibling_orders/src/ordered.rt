//! Children of a relative layout that have the same place in an order as in the list of children. If all of them name
//! only siblings before them, the order is the list, and so are most orders.
ghost use Rattle.std.specs.Prelude.{◌≡◌, ◌<◌, ℕ, IfSome, length, slice_index, true};
ghost use Rattle.sibling_orders.specs.Staying.{IsBefore, IsInOwnPlace, IsLastIn, IsPast};

/// A child in an order: the order, as places among the children, whether each place of it is its own, the children's
/// numbers in list order, and the child's.
#[derive(Drop)]
pub struct OrderedKid<'a> {
    pub order: &'a [u32],
    pub straight: bool,
    pub kids: &'a [u64],
    pub number: u64,
}

impl OrderedKid<'_> {
    /// Whether the child comes last.
    pub fn is_last(&self) -> bool
        requires { (p : ℕ)
            → p < length self.now.order.now
            → slice_index self.now.order.now p < length self.now.kids.now }
        ensures { result ≡ true → IsLastIn self.now.number self.now.kids.now self.now.order.now }
    {
        if self.order.is_empty() {
            return false;
        }
        self.kids[self.order[self.order.len() - 1] as usize] == self.number
    }

    /// Whether a quick look shows that a sibling comes before the child.
    pub fn is_after(&self, sibling: u64) -> bool
        ensures { result ≡ true → IsBefore sibling self.now.number self.now.kids.now self.now.order.now }
    {
        let Some(first) = place_in_both(self.order, self.kids, sibling) else {
            return false;
        };
        let Some(second) = place_in_both(self.order, self.kids, self.number) else {
            return false;
        };
        first < second
    }

    /// Whether a quick look shows that each place of the order is its own, and that the child has a number above this one.
    pub fn is_past(&self, number: u64) -> bool
        ensures { result ≡ true → IsPast number self.now.number self.now.straight self.now.kids.now self.now.order.now }
    {
        if !self.straight {
            return false;
        }
        if self.number <= number {
            return false;
        }
        match place_in_both(self.order, self.kids, self.number) {
            None => false,
            Some(_) => true,
        }
    }
}

/// The place of the child of a number, if it has the same one in an order. The numbers of children rise, since a view is
/// added after its siblings; so they are searched by halves.
fn place_in_both(order: &[u32], kids: &[u64], number: u64) -> Option<usize>
    ensures { IfSome result (λ place. IsInOwnPlace number kids.now order.now place) }
{
    let Ok(place) = kids.binary_search(&number) else {
        return None;
    };
    if place >= order.len() {
        return None;
    }
    if order[place] as usize != place {
        return None;
    }
    if kids[place] != number {
        return None;
    }
    Some(place)
}
