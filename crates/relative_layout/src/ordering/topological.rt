//! Taking children into an order, each after all to which it leads (Kahn 1962).
ghost use Rattle.std.specs.Prelude.{◌≡◌, ◌==◌, ◌<◌, ◌≤◌, ◌-◌, ◌+◌, ◌++◌, ◌∷◌, ℕ, [], IfNone, IfOk, IfSome, OnOk, Some, false, if◌then◌else◌, length, nat_lt, replicate, slice_index, slice_set, true};
ghost use Rattle.relative_layout.specs.ordering.Naming.{Has, IsNaming, lists_of, row_at, AreFewKids, HasPlace};
ghost use Rattle.relative_layout.specs.ordering.Topological.{AreCounts, CountsBelow, IsTaking, LeadsIn, Waits, counted_up, effort, has_more, is_marked};
ghost use Rattle.view_model.specs.SiblingRules.{leads};
ghost use Rattle.view_model.specs.Numbers.{max_views};

use crate::ordering::ids::named_ids;
use crate::ordering::marks::unmarked;
use crate::ordering::naming::Naming;
use std::alloc::{AllocError, Global};
use view_model::Link;

/// The state while children are taken.
#[derive(Drop)]
pub struct Taking {
    /// For the last child with an id, how many with it are not taken.
    left: Vec<u32>,
    taken: Vec<bool>,
    /// Children that are to be looked at; all others that are not taken wait for one that is not.
    todo: Vec<u32>,
    pub order: Vec<u32>,
}

impl Taking {
    /// Before any child is taken: all are to be looked at, the first of them first.
    pub fn start(alloc: Global, kids: &[Link], naming: &Naming) -> Result<Taking, AllocError>
        requires few { AreFewKids kids.now }
        requires naming { IsNaming kids.now naming.now }
        ensures { IfOk result (λ taking. IsTaking naming.now.axis kids.now taking.left.items taking.taken.items
            taking.todo.items taking.order.items) }
    {
        let left = counts(alloc, kids, naming)?;
        let todo = all_places(alloc, kids.len())?;
        Ok(Taking {
            left,
            taken: unmarked(alloc, kids.len())?,
            todo,
            order: Vec::new(alloc),
        })
    }

    /// Takes children while there is one that can be taken.
    pub fn take_all(&mut self, kids: &[Link], naming: &Naming) -> Result<(), AllocError>
        requires few { AreFewKids kids.now }
        requires naming { IsNaming kids.now naming.now }
        requires taking { IsTaking naming.now.axis kids.now self.old.left.items self.old.taken.items
            self.old.todo.items self.old.order.items }
        ensures { OnOk result
            (IsTaking naming.now.axis kids.now self.new.left.items self.new.taken.items [] self.new.order.items) }
    {
        while let Some(place) = self.next() {
            self.look_at(kids, naming, place)?;
        }
        Ok(())
    }

    /// The next child that is to be looked at.
    fn next(&mut self) -> Option<usize>
        ensures some { IfSome result (λ place. self.old.todo.items ≡ self.new.todo.items ++ place ∷ []) }
        ensures none { IfNone result (self.old.todo.items ≡ []) }
        ensures left { self.new.left ≡ self.old.left }
        ensures taken { self.new.taken ≡ self.old.taken }
        ensures order { self.new.order ≡ self.old.order }
    {
        let place = self.todo.pop()?;
        Some(place as usize)
    }

    /// Takes a child if it can be taken and is not yet.
    fn look_at(&mut self, kids: &[Link], naming: &Naming, place: usize) -> Result<(), AllocError>
        requires few { AreFewKids kids.now }
        requires place { HasPlace kids.now place }
        requires naming { IsNaming kids.now naming.now }
        requires taking { IsTaking naming.now.axis kids.now self.old.left.items self.old.taken.items
            (self.old.todo.items ++ place ∷ []) self.old.order.items }
        ensures taking { OnOk result (IsTaking naming.now.axis kids.now self.new.left.items self.new.taken.items
            self.new.todo.items self.new.order.items) }
        ensures effort { OnOk result
            (effort (lists_of naming.now.namers.items) self.new.taken.items (length self.new.todo.items)
            ≤ effort (lists_of naming.now.namers.items) self.old.taken.items (length self.old.todo.items)) }
    {
        if self.taken[place] {
            return Ok(());
        }
        if self.must_wait(kids, naming, place) {
            return Ok(());
        }
        self.take(kids, naming, place)?;
        Ok(())
    }

    /// Whether a child that is not taken leads to another that is not.
    fn must_wait(&self, kids: &[Link], naming: &Naming, place: usize) -> bool
        requires place { HasPlace kids.now place }
        requires naming { IsNaming kids.now naming.now }
        requires size { length self.now.taken.items ≡ length kids.now }
        requires counts { AreCounts kids.now self.now.taken.items self.now.left.items }
        requires fresh { is_marked self.now.taken.items place ≡ false }
        ensures yes { result ≡ true → Waits (leads naming.now.axis kids.now) self.now.taken.items place }
        ensures no { result ≡ false → LeadsIn (leads naming.now.axis kids.now) place self.now.taken.items }
    {
        for id in named_ids(naming.axis, &kids[place].rules).iter() {
            if self.has_more(naming.last(*id), own_count(kids[place].id, *id)) {
                return true;
            }
        }
        false
    }

    /// Whether more than `own` children are left with an id, by the last child with it.
    fn has_more(&self, last: Option<usize>, own: u32) -> bool
        requires { IfSome last (λ last. last < length self.now.left.items) }
        ensures { result ≡ has_more last own self.now.left.items }
    {
        match last {
            None => false,
            Some(last) => self.left[last] > own,
        }
    }

    /// Takes a child that leads only to taken ones.
    fn take(&mut self, kids: &[Link], naming: &Naming, place: usize) -> Result<(), AllocError>
        requires few { AreFewKids kids.now }
        requires place { HasPlace kids.now place }
        requires naming { IsNaming kids.now naming.now }
        requires fresh { is_marked self.old.taken.items place ≡ false }
        requires ready { LeadsIn (leads naming.now.axis kids.now) place self.old.taken.items }
        requires taking { IsTaking naming.now.axis kids.now self.old.left.items self.old.taken.items
            (self.old.todo.items ++ place ∷ []) self.old.order.items }
        ensures taking { OnOk result (IsTaking naming.now.axis kids.now self.new.left.items self.new.taken.items
            self.new.todo.items self.new.order.items) }
        ensures effort { OnOk result
            (effort (lists_of naming.now.namers.items) self.new.taken.items (length self.new.todo.items)
            ≤ effort (lists_of naming.now.namers.items) self.old.taken.items (length self.old.todo.items)) }
    {
        self.append(place)?;
        match naming.last(kids[place].id) {
            None => Ok(()),
            Some(last) => {
                self.count_down(naming, last)?;
                Ok(())
            }
        }
    }

    /// Appends a child to the order.
    fn append(&mut self, place: usize) -> Result<(), AllocError>
        requires few { place < max_views }
        requires place { place < length self.old.taken.items }
        ensures order { OnOk result (self.new.order.items ≡ self.old.order.items ++ place ∷ []) }
        ensures taken { OnOk result (self.new.taken.items ≡ slice_set self.old.taken.items place true) }
        ensures left { self.new.left ≡ self.old.left }
        ensures todo { self.new.todo ≡ self.old.todo }
    {
        self.order.push(place as u32)?;
        self.taken[place] = true;
        Ok(())
    }

    /// Records that a child was taken with the id of which this one is the last: if at most one is left, all that name
    /// it are to be looked at.
    fn count_down(&mut self, naming: &Naming, last: usize) -> Result<(), AllocError>
        requires last { last < length self.old.left.items }
        requires rows { last < length naming.now.namers.items }
        requires some { 0 < slice_index self.old.left.items last }
        ensures left { OnOk result (self.new.left.items
            ≡ slice_set self.old.left.items last (slice_index self.old.left.items last - 1)) }
        ensures todo { OnOk result (self.new.todo.items ≡ (if nat_lt 1 (slice_index self.old.left.items last - 1)
            then self.old.todo.items else self.old.todo.items ++ row_at (lists_of naming.now.namers.items) last)) }
        ensures taken { OnOk result (self.new.taken.items ≡ self.old.taken.items) }
        ensures order { OnOk result (self.new.order.items ≡ self.old.order.items) }
    {
        self.left[last] -= 1;
        if self.left[last] <= 1 {
            self.todo.extend_from_slice(naming.namers(last))?;
        }
        Ok(())
    }
}

/// How many of the children with an id a child of this id is itself.
fn own_count(own: u32, id: u32) -> u32
    ensures { result ≡ (if id == own then 1 else 0) }
{
    u32::from(id == own)
}

/// For the last child with an id, how many have it.
fn counts(alloc: Global, kids: &[Link], naming: &Naming) -> Result<Vec<u32>, AllocError>
    requires few { AreFewKids kids.now }
    requires naming { IsNaming kids.now naming.now }
    ensures { IfOk result (λ left. CountsBelow kids.now (length kids.now) left.items) }
{
    let mut left = zeros(alloc, kids.len())?;
    for (_place, kid) in kids.iter().enumerate() {
        count_up(&mut left, naming.last(kid.id));
    }
    Ok(left)
}

/// Counts a child by the last one with its id.
fn count_up(left: &mut Vec<u32>, last: Option<usize>)
    requires inside { IfSome last (λ last. last < length left.old.items) }
    requires few { IfSome last (λ last. slice_index left.old.items last < max_views) }
    ensures { left.new.items ≡ counted_up last left.old.items }
{
    if let Some(last) = last {
        left[last] += 1;
    }
}

/// `count` zeros. `Err` where there is no memory.
fn zeros(alloc: Global, count: usize) -> Result<Vec<u32>, AllocError>
    ensures { IfOk result (λ left. left.items ≡ replicate count 0) }
{
    vec![in alloc; 0; count]
}

/// All places, the last first.
fn all_places(alloc: Global, count: usize) -> Result<Vec<u32>, AllocError>
    requires few { count ≤ max_views }
    ensures inside { IfOk result (λ places. (p : ℕ) → p < length places.items → slice_index places.items p < count) }
    ensures each { IfOk result (λ places. (place : ℕ) → place < count → Has places.items place) }
{
    let mut places = Vec::new(alloc);
    for passed in 0..count {
        places.push((count - 1 - passed) as u32)?;
    }
    Ok(places)
}
