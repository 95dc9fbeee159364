//! Children of a relative layout that are to be put in order.
ghost use Rattle.std.specs.Prelude.{◌≡◌, ◌<◌, ◌≤◌, ◌+◌, ◌++◌, ◌∷◌, [], ℕ, IfOk, OnOk, length, map, slice_index};
ghost use Rattle.view_model.specs.Cycles.{member_from};
ghost use Rattle.view_model.specs.Numbers.{max_views};
ghost use Rattle.sibling_orders.specs.Cycles.{IsGroupOrCycle, IsReportedFrom};
ghost use Rattle.sibling_orders.specs.Latest.{AreRising};

use crate::groups::SiblingOrders;
use crate::highest::highest_named;
use crate::indexes::is_straight;
use crate::latest::latest_of;
use relative_layout::{OrderFault, order};
use std::alloc::{AllocError, Global};
use view_model::refusals::CYCLE;
use view_model::{Detail, Fault, Link, Member, Refusal};

/// What rules read of the children of a relative layout, and their numbers, in list order.
#[derive(Drop)]
pub struct Kids {
    pub links: Vec<Link>,
    pub numbers: Vec<u64>,
}

impl Kids {
    /// No children.
    pub fn new(alloc: Global) -> Kids
        ensures links { result.links.items ≡ [] }
        ensures numbers { result.numbers.items ≡ [] }
    {
        Kids {
            links: Vec::new(alloc),
            numbers: Vec::new(alloc),
        }
    }

    /// One more child, after the others.
    pub fn push(&mut self, number: u64, link: Link) -> Result<(), AllocError>
        ensures links { OnOk result (self.new.links.items ≡ self.old.links.items ++ link ∷ []) }
        ensures numbers { OnOk result (self.new.numbers.items ≡ self.old.numbers.items ++ number ∷ []) }
    {
        self.links.push(link)?;
        self.numbers.push(number)?;
        Ok(())
    }
}

/// What is kept of children, or a cycle among them. Those with numbers from this one on are reported as elements.
pub fn group_of(alloc: Global, kids: Kids, next: u64) -> Result<SiblingOrders, Fault>
    requires few { length kids.links.items ≤ max_views }
    requires alike { length kids.numbers.items ≡ length kids.links.items }
    requires rising { AreRising kids.numbers.items }
    requires near { (p : ℕ) → p < length kids.numbers.items → slice_index kids.numbers.items p < next + max_views }
    ensures { IsGroupOrCycle (member_from next) kids.links.items kids.numbers.items result }
{
    match order(alloc, &kids.links) {
        Ok(orders) => match latest_of(alloc, &kids.links, &kids.numbers) {
            Ok(latest) => Ok(SiblingOrders {
                straight_across: is_straight(&orders.across),
                straight_down: is_straight(&orders.down),
                orders,
                highest: highest_named(&kids.links),
                latest,
                complete: true,
                kids: kids.numbers,
            }),
            Err(_) => Err(Fault::NoMemory),
        },
        Err(OrderFault::NoMemory) => Err(Fault::NoMemory),
        Err(OrderFault::Cycle { down, members }) => {
            Err(reported(alloc, next, &kids.numbers, down, &members))
        }
    }
}

/// The refusal for a cycle with members at these places.
fn reported(alloc: Global, next: u64, numbers: &[u64], down: bool, places: &[u32]) -> Fault
    requires inside { (p : ℕ) → p < length places.now → slice_index places.now p < length numbers.now }
    requires near { (p : ℕ) → p < length numbers.now → slice_index numbers.now p < next + max_views }
    ensures { IsReportedFrom (λ place. member_from next (slice_index numbers.now place)) down places.now result }
{
    match members_at(alloc, next, numbers, places) {
        Ok(members) => Fault::Refused(Refusal {
            number: CYCLE,
            detail: Detail::Cycle { down, members },
        }),
        Err(_) => Fault::NoMemory,
    }
}

/// The members at some places.
fn members_at(
    alloc: Global,
    next: u64,
    numbers: &[u64],
    places: &[u32],
) -> Result<Vec<Member>, AllocError>
    requires inside { (p : ℕ) → p < length places.now → slice_index places.now p < length numbers.now }
    requires near { (p : ℕ) → p < length numbers.now → slice_index numbers.now p < next + max_views }
    ensures { IfOk result (λ members. members.items
        ≡ map (λ place. member_from next (slice_index numbers.now place)) places.now) }
{
    let mut members = Vec::new(alloc);
    for place in places {
        members.push(member_from(next, numbers[*place as usize]))?;
    }
    Ok(members)
}

/// A view with a number from `next` on comes with a sapling, and is reported as an element of it.
fn member_from(next: u64, number: u64) -> Member
    requires { number < next + max_views }
    ensures { result ≡ member_from next number }
{
    if number < next {
        return Member::View(number);
    }
    Member::Element((number - next) as u32 + 1)
}
