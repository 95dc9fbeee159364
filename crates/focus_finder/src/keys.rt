//! The key by which candidates are compared.

ghost use Rattle.std.specs.Prelude.{◌≡◌, ◌<◌, ◌^◌, ◌+ℤ◌, ◌≤ℤ◌, pos, negsuc};
ghost use Rattle.focus_finder.specs.Focus.{distance_of, gap_of, is_less, key_of, major_of, minor_of, on_way};

use crate::side::{Side, in_beam, is_low, turned};
use geom_core::Rect;

/// The key of a candidate. The least one wins: first by the beam, then by the distance.
#[derive(Clone, Copy)]
pub struct FocusKey {
    /// Whether the candidate lies outside the beam of the view that it is compared with.
    pub outside: bool,
    /// How far it is away: 13 times the square of twice the pixels on the way, and the square of twice the pixels across it.
    pub distance: u128,
}

/// Whether a key is less than another.
pub fn is_less(one: FocusKey, other: FocusKey) -> bool
    ensures { result ≡ is_less one other }
{
    if one.outside {
        other.outside && one.distance < other.distance
    } else {
        other.outside || one.distance < other.distance
    }
}

/// The key of a candidate that is seen in a rectangle, to this side of another rectangle.
pub fn key(side: Side, from: Rect, to: Rect) -> FocusKey
    ensures { result ≡ key_of side from to }
{
    key_on(is_low(side), turned(side, from), turned(side, to))
}

/// The key of a candidate to the left or to the right.
fn key_on(low: bool, from: Rect, to: Rect) -> FocusKey
    ensures { result ≡ on_way low from to }
{
    FocusKey {
        outside: !in_beam(from, to),
        distance: distance(major(low, from, to), minor(from, to)),
    }
}

/// How many pixels one edge is before another; 0 if it is after it.
fn gap(low: i32, high: i32) -> u64
    ensures value { result ≡ gap_of low high }
    ensures fits { result < 2 ^ 33 }
{
    (i64::from(high) - i64::from(low)).max(0).unsigned_abs()
}

/// How many pixels lie between two rectangles on the way to the left or to the right.
fn major(low: bool, from: Rect, to: Rect) -> u64
    ensures value { result ≡ major_of low from to }
    ensures fits { result < 2 ^ 33 }
{
    if low {
        gap(to.right, from.left)
    } else {
        gap(from.right, to.left)
    }
}

/// Twice the middle between two edges.
fn middle(low: i32, high: i32) -> i64
    ensures value { result ≡ low +ℤ high }
    ensures least { negsuc 4294967295 ≤ℤ result }
    ensures most { result ≤ℤ pos 4294967295 }
{
    i64::from(low) + i64::from(high)
}

/// Twice the pixels between the middles of two rectangles, across the way.
fn minor(from: Rect, to: Rect) -> u64
    ensures value { result ≡ minor_of from to }
    ensures fits { result < 2 ^ 34 }
{
    (middle(from.top, from.bottom) - middle(to.top, to.bottom)).unsigned_abs()
}

/// How far a candidate is away.
#[tactic(auto, unfolding(crate::specs::Focus::distance_of))]
fn distance(major: u64, minor: u64) -> u128
    requires major { major < 2 ^ 33 }
    requires minor { minor < 2 ^ 34 }
    ensures { result ≡ distance_of major minor }
{
    let way = 2 * u128::from(major);
    let across = u128::from(minor);
    13 * (way * way) + across * across
}
