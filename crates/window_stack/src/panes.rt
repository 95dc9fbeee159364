//! The order of the windows of a stack.

ghost use Rattle.std.specs.Prelude.{◌≡◌, ◌==◌, ◌≤◌, ◌∷◌, ◌+ℤ◌, int_lt, true, map, IfSome};
ghost use Rattle.std.specs.List.{position_or_len};
ghost use Rattle.window_stack.specs.PlainPanes.{AreOpen, closed, corner_of, holder_without, holds_point, is_open, is_under, lies_from, no_panes, order_of, pane_at, pane_under, placed, raised, set_at, size_at, topmost, without, IsPane};
ghost use Rattle.window_stack.specs.Numbers.{max_pane};

use arrayvec::ArrayVec;
use geom_core::Size;
use std::marker::Model;

/// The greatest number of open windows.
pub const MAX_PANES: usize = 8;

/// An open window, and its corner in the coordinates of the stack, in pixels.
#[derive(Clone, Copy, Default)]
pub struct Pane {
    pub k: u8,
    pub x: i32,
    pub y: i32,
}

/// The open windows, topmost first, and the one that has the gesture.
#[derive(Drop)]
pub struct Panes {
    panes: ArrayVec<Pane, MAX_PANES>,
    holder: Option<u8>,
}

impl Model for Panes {
    ghost use Rattle.window_stack.specs.PlainPanes.{IsStack, PlainPanes};
    ghost use Rattle.window_stack.specs.KeptPanes.{panes_code, panes_of};

    ghost Value = { PlainPanes };

    ghost coded = { panes_code };

    ghost view = { panes_of };

    ghost invariant = { λ p. IsStack (panes_of p) };
}

impl Panes {
    /// No window is open, and none has the gesture.
    pub fn new() -> Panes
        ensures { result ≡ no_panes }
    {
        Panes {
            panes: ArrayVec::new(),
            holder: None,
        }
    }

    /// The corner of a window, if it is open, in the coordinates of the stack, in pixels.
    pub fn corner(&self, k: u8) -> Option<(i32, i32)>
        ensures { result ≡ corner_of self.now k }
    {
        let pane = self.pane(k)?;
        Some((pane.x, pane.y))
    }

    /// A window, if it is open.
    fn pane(&self, k: u8) -> Option<Pane>
        ensures { result ≡ pane_at self.now.panes k }
    {
        for pane in self.panes.as_slice() {
            if pane.k == k {
                return Some(*pane);
            }
        }
        None
    }

    /// Sets the corner of a window, in pixels. A window that is not open is opened on top, an open one stays in its place.
    pub fn set(&mut self, k: u8, x: i32, y: i32)
        requires name { IsPane k }
        ensures { self.new ≡ set_at self.old k x y }
    {
        if self.pane(k).is_some() {
            place_in(self.panes.as_mut_slice(), Pane { k, x, y });
            return;
        }
        put_on_top(&mut self.panes, Pane { k, x, y });
    }

    /// Puts an open window on top of the others.
    pub fn raise(&mut self, k: u8)
        requires open { is_open self.old k ≡ true }
        ensures { self.new ≡ raised self.old k }
    {
        let Some(pane) = take_out(&mut self.panes, k) else {
            unreachable!()
        };
        put_on_top(&mut self.panes, pane);
    }

    /// Closes an open window. If it has the gesture, no window has it afterwards.
    pub fn close(&mut self, k: u8)
        requires open { is_open self.old k ≡ true }
        ensures { self.new ≡ closed self.old k }
    {
        take_out(&mut self.panes, k);
        self.holder = holder_without(self.holder, k);
    }

    /// The open windows, topmost first.
    pub fn order(&self) -> ArrayVec<u8, MAX_PANES>
        ensures { result.items ≡ order_of self.now }
    {
        let mut order = ArrayVec::new();
        for pane in self.panes.as_slice() {
            order.push(pane.k);
        }
        order
    }

    /// The topmost open window that has a size and holds a point of the stack, if the windows have these sizes.
    pub fn under(&self, x: i32, y: i32, sizes: &[Option<Size>; MAX_PANES]) -> Option<u8>
        ensures value { result ≡ topmost self.now x y sizes.now }
        ensures open { IfSome result (λ k. is_open self.now k ≡ true) }
        ensures name { IfSome result (λ k. k ≤ max_pane) }
    {
        let pane = self.pane_under(x, y, sizes)?;
        Some(pane.k)
    }

    /// The same, with its corner.
    fn pane_under(&self, x: i32, y: i32, sizes: &[Option<Size>; MAX_PANES]) -> Option<Pane>
        ensures value { result ≡ pane_under x y sizes.now self.now.panes }
        ensures open { IfSome result (λ pane. is_open self.now pane.k ≡ true) }
        ensures name { IfSome result (λ pane. pane.k ≤ max_pane) }
    {
        for pane in self.panes.as_slice() {
            if is_under(x, y, sizes, *pane) {
                return Some(*pane);
            }
        }
        None
    }

    /// The window that has the gesture.
    pub fn holder(&self) -> Option<u8>
        ensures value { result ≡ self.now.holder }
        ensures open { IfSome result (λ k. is_open self.now k ≡ true) }
        ensures name { IfSome result (λ k. k ≤ max_pane) }
    {
        self.holder
    }

    /// Gives the gesture to an open window, or to none.
    pub fn hold(&mut self, k: Option<u8>)
        requires open { IfSome k (λ k. is_open self.old k ≡ true) }
        ensures { self.new ≡ record self.old { holder = k } }
    {
        self.holder = k;
    }
}

/// Sets the corner of a window, if it is one of these.
fn place_in(panes: &mut [Pane], to: Pane)
    ensures { panes.new ≡ map (placed to) panes.old }
{
    for pane in panes.iter_mut() {
        place(pane, to);
    }
}

/// Sets the corner of a window, if it is this one.
fn place(pane: &mut Pane, to: Pane)
    ensures { pane.new ≡ placed to pane.old }
{
    if pane.k == to.k {
        *pane = to;
    }
}

/// Puts a window that is not one of these on top of them.
fn put_on_top(panes: &mut ArrayVec<Pane, MAX_PANES>, pane: Pane)
    requires { AreOpen (pane ∷ panes.old.items) }
    ensures { panes.new.items ≡ pane ∷ panes.old.items }
{
    panes.insert(0, pane);
}

/// Takes a window out of these, if it is there. The others keep their order.
fn take_out(panes: &mut ArrayVec<Pane, MAX_PANES>, k: u8) -> Option<Pane>
    requires { AreOpen panes.old.items }
    ensures taken { result ≡ pane_at panes.old.items k }
    ensures others { panes.new.items ≡ without k panes.old.items }
{
    let at = place_of(panes.as_slice(), k);
    panes.pop_at(at)
}

/// How many of these come before a window; all, if it is not there.
fn place_of(panes: &[Pane], k: u8) -> usize
    ensures { result ≡ position_or_len (λ pane. pane.k == k) panes.now }
{
    let mut at = 0;
    while at < panes.len() && panes[at].k != k {
        at += 1;
    }
    at
}

/// The window that has the gesture after one of them is closed.
fn holder_without(holder: Option<u8>, k: u8) -> Option<u8>
    ensures { result ≡ holder_without holder k }
{
    match holder {
        None => None,
        Some(holder) if holder == k => None,
        Some(holder) => Some(holder),
    }
}

/// Whether a window holds a point, if the windows have these sizes.
fn is_under(x: i32, y: i32, sizes: &[Option<Size>; MAX_PANES], pane: Pane) -> bool
    ensures { result ≡ is_under x y sizes.now pane }
{
    holds_point(x, y, pane, size_at(sizes, pane.k))
}

/// The size of a window, if it has one.
fn size_at(sizes: &[Option<Size>; MAX_PANES], k: u8) -> Option<Size>
    ensures { result ≡ size_at sizes.now k }
{
    match sizes.get(usize::from(k)) {
        Some(size) => *size,
        None => None,
    }
}

/// Whether a window of this size holds a point. Without a size it holds none.
fn holds_point(x: i32, y: i32, pane: Pane, size: Option<Size>) -> bool
    ensures { result ≡ holds_point x y pane size }
{
    match size {
        None => false,
        Some(size) => lies_from(pane.x, size.w, x) && lies_from(pane.y, size.h, y),
    }
}

/// Whether a coordinate is one of this many from a low edge on.
fn lies_from(low: i32, length: i32, at: i32) -> bool
    ensures { result ≡ lies_from low length at }
{
    low <= at && lies_before_end(low, length, at)
}

/// Whether a coordinate is lower than the high edge.
fn lies_before_end(low: i32, length: i32, at: i32) -> bool
    ensures { result ≡ int_lt at (low +ℤ length) }
{
    i64::from(at) < i64::from(low) + i64::from(length)
}
