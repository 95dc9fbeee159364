//! Which child takes a pointer that goes down.

#[derive(Clone, Copy)]
pub enum Taker {
    NoChild,
    /// A child that was a target before.
    Earlier,
    /// A child that got the event, and becomes a target.
    Sent(u64),
}
