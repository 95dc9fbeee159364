//! The orders in which the children of a relative layout are measured.
ghost use Rattle.std.specs.Prelude.{◌≡◌, ◌<◌, IfErr, IfOk, OnOk, length};
ghost use Rattle.relative_layout.specs.ordering.Naming.{IsNaming, AreFewKids, FindsLast};
ghost use Rattle.relative_layout.specs.ordering.Components.{members_with};
ghost use Rattle.relative_layout.specs.ordering.Sorting.{IsFaultOf, IsLongest, IsSorting};
ghost use Rattle.view_model.specs.declared.relative.Axis.TheVariants.{Horizontal, Vertical};
ghost use Rattle.view_model.specs.Orders.{AreMembers, IsAcyclic, IsOrder};
ghost use Rattle.view_model.specs.SiblingRules.{leads};
ghost use Rattle.view_model.specs.Numbers.{max_views};

pub mod components;
pub mod ids;
pub mod listing;
pub mod marks;
pub mod naming;
pub mod points;
pub mod topological;

use crate::ordering::components::marks_of_members;
use crate::ordering::ids::last_places;
use crate::ordering::listing::{leads_back, listed_places};
use crate::ordering::naming::Naming;
use crate::ordering::topological::Taking;
use indexmap::IndexMap;
use std::alloc::{AllocError, Global};
use view_model::{Axis, Link};

/// The places of all children, on each axis those that a child's rules name before the child itself.
#[derive(Drop)]
pub struct Orders {
    pub across: Vec<u32>,
    pub down: Vec<u32>,
}

/// Why there are no orders.
#[derive(Drop)]
pub enum OrderFault {
    /// Children that reach themselves by the rules of an axis, in list order.
    Cycle { down: bool, members: Vec<u32> },
    NoMemory,
}

/// The result for the children on one axis.
#[derive(Drop)]
enum Sorting {
    Order(Vec<u32>),
    Cycle(Vec<u32>),
}

/// The orders of a relative layout's children.
pub fn order(alloc: Global, kids: &[Link]) -> Result<Orders, OrderFault>
    requires few { AreFewKids kids.now }
    ensures across { IfOk result (λ orders. IsOrder (leads Horizontal kids.now) (length kids.now) orders.across.items) }
    ensures down { IfOk result (λ orders. IsOrder (leads Vertical kids.now) (length kids.now) orders.down.items) }
    ensures acyclic_across { IfOk result (λ orders. IsAcyclic (leads Horizontal kids.now)) }
    ensures acyclic_down { IfOk result (λ orders. IsAcyclic (leads Vertical kids.now)) }
    ensures fault { IfErr result (λ fault. IsFaultOf kids.now fault) }
{
    match last_places(alloc, kids) {
        Ok(lasts) => order_by(alloc, kids, &lasts),
        Err(_) => Err(OrderFault::NoMemory),
    }
}

/// The same, by the last child with each id.
fn order_by(alloc: Global, kids: &[Link], lasts: &IndexMap<u32, u32>) -> Result<Orders, OrderFault>
    requires few { AreFewKids kids.now }
    requires table { FindsLast kids.now lasts.now }
    ensures across { IfOk result (λ orders. IsOrder (leads Horizontal kids.now) (length kids.now) orders.across.items) }
    ensures down { IfOk result (λ orders. IsOrder (leads Vertical kids.now) (length kids.now) orders.down.items) }
    ensures acyclic_across { IfOk result (λ orders. IsAcyclic (leads Horizontal kids.now)) }
    ensures acyclic_down { IfOk result (λ orders. IsAcyclic (leads Vertical kids.now)) }
    ensures fault { IfErr result (λ fault. IsFaultOf kids.now fault) }
{
    let across = match sorted_on(alloc, Axis::Horizontal, kids, lasts) {
        Ok(Sorting::Order(across)) => across,
        Ok(Sorting::Cycle(members)) => {
            return Err(OrderFault::Cycle {
                down: false,
                members,
            });
        }
        Err(_) => return Err(OrderFault::NoMemory),
    };
    match sorted_on(alloc, Axis::Vertical, kids, lasts) {
        Ok(Sorting::Order(down)) => Ok(Orders { across, down }),
        Ok(Sorting::Cycle(members)) => Err(OrderFault::Cycle {
            down: true,
            members,
        }),
        Err(_) => Err(OrderFault::NoMemory),
    }
}

/// The order of the children on an axis, or the members of its cycles: the order of the list, if a quick look allows
/// it.
fn sorted_on(
    alloc: Global,
    axis: Axis,
    kids: &[Link],
    lasts: &IndexMap<u32, u32>,
) -> Result<Sorting, AllocError>
    requires few { AreFewKids kids.now }
    requires table { FindsLast kids.now lasts.now }
    ensures { IfOk result (λ sorting. IsSorting axis kids.now sorting) }
{
    if leads_back(axis, kids, lasts) {
        let order = listed_places(alloc, kids.len())?;
        return Ok(Sorting::Order(order));
    }
    sorted_by_names(alloc, axis, kids)
}

/// The same for any children.
fn sorted_by_names(alloc: Global, axis: Axis, kids: &[Link]) -> Result<Sorting, AllocError>
    requires few { AreFewKids kids.now }
    ensures { IfOk result (λ sorting. IsSorting axis kids.now sorting) }
{
    let naming = Naming::new(alloc, axis, kids)?;
    sorted_with(alloc, kids, &naming)
}

/// The same, by which children name which ids.
fn sorted_with(alloc: Global, kids: &[Link], naming: &Naming) -> Result<Sorting, AllocError>
    requires few { AreFewKids kids.now }
    requires naming { IsNaming kids.now naming.now }
    ensures { IfOk result (λ sorting. IsSorting naming.now.axis kids.now sorting) }
{
    let order = longest_order(alloc, kids, naming)?;
    if order.len() == kids.len() {
        return Ok(Sorting::Order(order));
    }
    let members = members(alloc, kids, naming)?;
    Ok(Sorting::Cycle(members))
}

/// The children in order, as many as can be taken.
fn longest_order(alloc: Global, kids: &[Link], naming: &Naming) -> Result<Vec<u32>, AllocError>
    requires few { AreFewKids kids.now }
    requires naming { IsNaming kids.now naming.now }
    ensures { IfOk result (λ order. IsLongest (leads naming.now.axis kids.now) (length kids.now) order.items) }
{
    let mut taking = Taking::start(alloc, kids, naming)?;
    taking.take_all(kids, naming)?;
    let Taking { order, .. } = taking;
    Ok(order)
}

/// The children that reach themselves, in list order.
fn members(alloc: Global, kids: &[Link], naming: &Naming) -> Result<Vec<u32>, AllocError>
    requires few { AreFewKids kids.now }
    requires naming { IsNaming kids.now naming.now }
    ensures { IfOk result (λ members. AreMembers (leads naming.now.axis kids.now) (length kids.now) members.items) }
{
    let marks = marks_of_members(alloc, kids, naming)?;
    let mut members = Vec::new(alloc);
    for place in 0..kids.len() {
        note_member(&mut members, &marks, place)?;
    }
    Ok(members)
}

/// Appends a child if it is marked.
fn note_member(members: &mut Vec<u32>, marks: &[bool], place: usize) -> Result<(), AllocError>
    requires few { place < max_views }
    requires place { place < length marks.now }
    ensures { OnOk result (members.new.items ≡ members_with marks.now place members.old.items) }
{
    if !marks[place] {
        return Ok(());
    }
    members.push(place as u32)?;
    Ok(())
}
