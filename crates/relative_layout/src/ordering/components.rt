//! Which children reach themselves: a search for strong components that follows each rule once (Gabow 2000,
//! path-based).
ghost use Rattle.std.specs.Prelude.{◌≡◌, ◌≢◌, ◌<◌, ◌≤◌, ◌-◌, ◌+◌, ◌++◌, ◌∷◌, ℕ, [], IfNone, IfOk, IfSome, None, OnOk, Some, false, length, replicate, slice_index, slice_set, take, true};
ghost use Rattle.relative_layout.specs.ordering.Naming.{IsNaming, lists_of, AreFewKids};
ghost use Rattle.relative_layout.specs.ordering.Components.{AreMarked, HasTwo, IsLastPart, IsSearching, Joins, Leaves, LedTo, Visits, begins_after, fresh, heads_in, search_effort, status_of};
ghost use Rattle.relative_layout.specs.ordering.Points.{Goes};
ghost use Rattle.relative_layout.specs.declared.ordering.components.Status.TheVariants.{Done, Fresh, OnPath};
ghost use Rattle.view_model.specs.SiblingRules.{leads};
ghost use Rattle.view_model.specs.Numbers.{max_views};

use crate::ordering::marks::unmarked;
use crate::ordering::naming::Naming;
use crate::ordering::points::put_heads;
use std::alloc::{AllocError, Global};
use view_model::Link;

/// The state of a point in the search.
#[derive(Clone, Copy)]
pub enum Status {
    Fresh,
    /// On the path, at this place.
    OnPath(usize),
    /// Finished, with everything reachable from it.
    Done,
}

/// Where a part of the path begins, and its edges that are not followed yet.
#[derive(Clone, Copy)]
pub struct Part {
    pub path: usize,
    pub todo: usize,
}

/// The state of the search. The path is cut into parts, and all points of one lead to one another.
#[derive(Drop)]
pub struct Search {
    status: Vec<Status>,
    path: Vec<u32>,
    /// The edges of points of the path that are not followed yet.
    todo: Vec<u32>,
    parts: Vec<Part>,
    /// For each child, whether it is known to reach itself.
    members: Vec<bool>,
}

/// Marks of the children that reach themselves.
pub fn marks_of_members(
    alloc: Global,
    kids: &[Link],
    naming: &Naming,
) -> Result<Vec<bool>, AllocError>
    requires few { AreFewKids kids.now }
    requires naming { IsNaming kids.now naming.now }
    ensures size { IfOk result (λ marks. length marks.items ≡ length kids.now) }
    ensures marks { IfOk result (λ marks. AreMarked (leads naming.now.axis kids.now) (length kids.now) marks.items) }
{
    let mut search = Search::start(alloc, kids.len())?;
    search.search_all(kids, naming)?;
    let Search { members, .. } = search;
    Ok(members)
}

impl Search {
    /// Before any point is entered.
    fn start(alloc: Global, count: usize) -> Result<Search, AllocError>
        requires few { count ≤ max_views }
        ensures status { IfOk result (λ search. search.status.items ≡ replicate (count + count) Fresh) }
        ensures path { IfOk result (λ search. search.path.items ≡ []) }
        ensures todo { IfOk result (λ search. search.todo.items ≡ []) }
        ensures parts { IfOk result (λ search. search.parts.items ≡ []) }
        ensures members { IfOk result (λ search. search.members.items ≡ replicate count false) }
    {
        Ok(Search {
            status: vec![in alloc; Status::Fresh; count + count]?,
            path: Vec::new(alloc),
            todo: Vec::new(alloc),
            parts: Vec::new(alloc),
            members: unmarked(alloc, count)?,
        })
    }

    /// Searches from each point.
    fn search_all(&mut self, kids: &[Link], naming: &Naming) -> Result<(), AllocError>
        requires few { AreFewKids kids.now }
        requires naming { IsNaming kids.now naming.now }
        requires search { IsSearching kids.now naming.now self.old None }
        requires parts { self.old.parts.items ≡ [] }
        ensures search { OnOk result (IsSearching kids.now naming.now self.new None) }
        ensures parts { OnOk result (self.new.parts.items ≡ []) }
        ensures each { OnOk result ((point : ℕ) → point < length kids.now + length kids.now
            → status_of self.new.status.items point ≢ Fresh) }
    {
        for point in 0..kids.len() + kids.len() {
            self.search_from(kids, naming, point)?;
        }
        Ok(())
    }

    /// Searches from a point, if it is fresh, until the path is empty again.
    fn search_from(
        &mut self,
        kids: &[Link],
        naming: &Naming,
        point: usize,
    ) -> Result<(), AllocError>
        requires few { AreFewKids kids.now }
        requires point { point < length kids.now + length kids.now }
        requires naming { IsNaming kids.now naming.now }
        requires search { IsSearching kids.now naming.now self.old None }
        requires parts { self.old.parts.items ≡ [] }
        ensures search { OnOk result (IsSearching kids.now naming.now self.new None) }
        ensures parts { OnOk result (self.new.parts.items ≡ []) }
        ensures visits { OnOk result (Visits self.old.status.items self.new.status.items) }
        ensures here { OnOk result (status_of self.new.status.items point ≢ Fresh) }
    {
        if let Status::Fresh = self.status[point] {
            self.enter(kids, naming, point)?;
            self.leave_all(kids, naming)?;
        }
        Ok(())
    }

    /// Goes on until the path is empty.
    fn leave_all(&mut self, kids: &[Link], naming: &Naming) -> Result<(), AllocError>
        requires few { AreFewKids kids.now }
        requires naming { IsNaming kids.now naming.now }
        requires search { IsSearching kids.now naming.now self.old None }
        ensures search { OnOk result (IsSearching kids.now naming.now self.new None) }
        ensures parts { OnOk result (self.new.parts.items ≡ []) }
        ensures visits { OnOk result (Visits self.old.status.items self.new.status.items) }
    {
        while let Some(part) = self.last_part() {
            self.step(kids, naming, part)?;
        }
        Ok(())
    }

    /// The part at the end of the path, `None` if there is no part.
    fn last_part(&self) -> Option<Part>
        ensures some { IfSome result (λ part. IsLastPart self.now.parts.items part) }
        ensures none { IfNone result (self.now.parts.items ≡ []) }
    {
        if self.parts.is_empty() {
            return None;
        }
        Some(self.parts[self.parts.len() - 1])
    }

    /// Follows one edge of the last part, or finishes the part if there is none.
    fn step(&mut self, kids: &[Link], naming: &Naming, part: Part) -> Result<(), AllocError>
        requires few { AreFewKids kids.now }
        requires naming { IsNaming kids.now naming.now }
        requires search { IsSearching kids.now naming.now self.old None }
        requires last { IsLastPart self.old.parts.items part }
        ensures search { OnOk result (IsSearching kids.now naming.now self.new None) }
        ensures visits { OnOk result (Visits self.old.status.items self.new.status.items) }
        ensures effort { OnOk result (search_effort (lists_of naming.now.namers.items) self.new.status.items
            (length self.new.todo.items) (length self.new.parts.items)
            < search_effort (lists_of naming.now.namers.items) self.old.status.items (length self.old.todo.items)
            (length self.old.parts.items)) }
    {
        if self.todo.len() <= part.todo {
            self.finish(kids.len(), part.path);
            return Ok(());
        }
        let point = self.take_next();
        self.look_at(kids, naming, point)?;
        Ok(())
    }

    /// The next edge to follow.
    fn take_next(&mut self) -> usize
        requires { 0 < length self.old.todo.items }
        ensures todo { self.old.todo.items ≡ self.new.todo.items ++ result ∷ [] }
        ensures status { self.new.status ≡ self.old.status }
        ensures path { self.new.path ≡ self.old.path }
        ensures parts { self.new.parts ≡ self.old.parts }
        ensures members { self.new.members ≡ self.old.members }
    {
        match self.todo.pop() {
            Some(point) => point as usize,
            None => 0,
        }
    }

    /// Follows an edge of the last part to this point.
    fn look_at(&mut self, kids: &[Link], naming: &Naming, point: usize) -> Result<(), AllocError>
        requires few { AreFewKids kids.now }
        requires point { point < length kids.now + length kids.now }
        requires naming { IsNaming kids.now naming.now }
        requires search { IsSearching kids.now naming.now self.old (Some point) }
        requires led { LedTo (heads_in kids.now naming.now) self.old.path.items self.old.parts.items point }
        ensures search { OnOk result (IsSearching kids.now naming.now self.new None) }
        ensures visits { OnOk result (Visits self.old.status.items self.new.status.items) }
        ensures effort { OnOk result (search_effort (lists_of naming.now.namers.items) self.new.status.items
            (length self.new.todo.items) (length self.new.parts.items)
            ≤ search_effort (lists_of naming.now.namers.items) self.old.status.items (length self.old.todo.items)
            (length self.old.parts.items)) }
    {
        match self.status[point] {
            Status::Fresh => self.enter(kids, naming, point)?,
            Status::OnPath(place) => self.join(place),
            Status::Done => {}
        }
        Ok(())
    }

    /// Puts a fresh point on the path, as a part of its own.
    fn enter(&mut self, kids: &[Link], naming: &Naming, point: usize) -> Result<(), AllocError>
        requires few { AreFewKids kids.now }
        requires point { point < length kids.now + length kids.now }
        requires naming { IsNaming kids.now naming.now }
        requires search { IsSearching kids.now naming.now self.old (Some point) }
        requires fresh { status_of self.old.status.items point ≡ Fresh }
        requires led { (place : ℕ)
            → place < length self.old.path.items
            → Goes (heads_in kids.now naming.now) (slice_index self.old.path.items place) point }
        ensures search { OnOk result (IsSearching kids.now naming.now self.new None) }
        ensures visits { OnOk result (Visits self.old.status.items self.new.status.items) }
        ensures here { OnOk result (status_of self.new.status.items point ≢ Fresh) }
        ensures effort { OnOk result (search_effort (lists_of naming.now.namers.items) self.new.status.items
            (length self.new.todo.items) (length self.new.parts.items)
            ≤ search_effort (lists_of naming.now.namers.items) self.old.status.items (length self.old.todo.items)
            (length self.old.parts.items)) }
    {
        self.append(point)?;
        put_heads(&mut self.todo, kids, naming, point)?;
        Ok(())
    }

    /// Appends a point to the path, as a part of its own.
    fn append(&mut self, point: usize) -> Result<(), AllocError>
        requires few { point < max_views + max_views }
        requires point { point < length self.old.status.items }
        ensures status { OnOk result
            (self.new.status.items ≡ slice_set self.old.status.items point (OnPath (length self.old.path.items))) }
        ensures path { OnOk result (self.new.path.items ≡ self.old.path.items ++ point ∷ []) }
        ensures parts { OnOk result (self.new.parts.items ≡ self.old.parts.items
            ++ (record { path = length self.old.path.items; todo = length self.old.todo.items }) ∷ []) }
        ensures todo { OnOk result (self.new.todo ≡ self.old.todo) }
        ensures members { OnOk result (self.new.members ≡ self.old.members) }
    {
        let part = Part {
            path: self.path.len(),
            todo: self.todo.len(),
        };
        self.parts.push(part)?;
        self.path.push(point as u32)?;
        self.status[point] = Status::OnPath(part.path);
        Ok(())
    }

    /// Joins all parts that begin after a place to the one that has it.
    fn join(&mut self, place: usize)
        ensures joins { Joins place self.old.parts.items self.new.parts.items }
        ensures last { begins_after place self.new.parts.items ≡ false }
        ensures status { self.new.status ≡ self.old.status }
        ensures path { self.new.path ≡ self.old.path }
        ensures todo { self.new.todo ≡ self.old.todo }
        ensures members { self.new.members ≡ self.old.members }
    {
        while begins_after(place, &self.parts) {
            self.parts.pop();
        }
    }

    /// Leaves the last part, whose points lead nowhere else but to finished ones.
    fn finish(&mut self, count: usize, start: usize)
        requires start { start ≤ length self.old.path.items }
        requires inside { (place : ℕ)
            → place < length self.old.path.items
            → slice_index self.old.path.items place < length self.old.status.items }
        requires members { length self.old.members.items ≡ count }
        ensures leaves { Leaves count start self.old.path.items self.old.status.items self.new.status.items
            self.old.members.items self.new.members.items }
        ensures path { self.new.path.items ≡ take start self.old.path.items }
        ensures parts { self.new.parts.items ≡ take (length self.old.parts.items - 1) self.old.parts.items }
        ensures todo { self.new.todo ≡ self.old.todo }
    {
        let two = has_two(count, start, &self.path);
        for place in start..self.path.len() {
            self.settle(count, place, two);
        }
        self.path.truncate(start);
        self.parts.pop();
    }

    /// Marks a point of the path as done, and as a member if it is a child that is not alone.
    fn settle(&mut self, count: usize, place: usize, two: bool)
        requires place { place < length self.old.path.items }
        requires inside { slice_index self.old.path.items place < length self.old.status.items }
        requires members { length self.old.members.items ≡ count }
        ensures status { self.new.status.items
            ≡ slice_set self.old.status.items (slice_index self.old.path.items place) Done }
        ensures marked { two ≡ true
            → slice_index self.old.path.items place < count
            → self.new.members.items ≡ slice_set self.old.members.items (slice_index self.old.path.items place) true }
        ensures one { two ≡ false → self.new.members.items ≡ self.old.members.items }
        ensures id { count ≤ slice_index self.old.path.items place → self.new.members.items ≡ self.old.members.items }
        ensures path { self.new.path ≡ self.old.path }
        ensures parts { self.new.parts ≡ self.old.parts }
        ensures todo { self.new.todo ≡ self.old.todo }
    {
        let point = self.path[place] as usize;
        self.status[point] = Status::Done;
        if two && point < count {
            self.members[point] = true;
        }
    }
}

/// Whether the last part begins after a place.
fn begins_after(place: usize, parts: &[Part]) -> bool
    ensures { result ≡ begins_after place parts.now }
{
    if parts.is_empty() {
        return false;
    }
    parts[parts.len() - 1].path > place
}

/// Whether two children are on the path, from a place on.
fn has_two(count: usize, start: usize, path: &[u32]) -> bool
    requires { start ≤ length path.now }
    ensures yes { result ≡ true → HasTwo count start path.now }
    ensures no { result ≡ false → HasTwo count start path.now → ⊥ }
{
    let mut one = false;
    for place in start..path.len() {
        if (path[place] as usize) < count {
            if one {
                return true;
            }
            one = true;
        }
    }
    false
}
