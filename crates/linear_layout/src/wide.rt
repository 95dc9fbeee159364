//! Numbers of 128 bits that are brought into the ranges of sizes and coordinates.
ghost use Rattle.std.specs.Prelude.{◌≡◌, pos, negsuc};
ghost use Rattle.std.specs.Int.{int_max, int_min};
ghost use Rattle.geom_core.specs.Limits.{IsCoordinate, IsSide, clamp_coordinate, clamp_size};

use geom_core::{to_coordinate, to_size};

/// Brings a number into the range of sizes.
pub fn wide_to_size(x: i128) -> i32
    ensures value { result ≡ clamp_size x }
    ensures side { IsSide result }
{
    to_size(to_i64(x))
}

/// Brings a number into the range of left and top edges. Nearly all numbers have 64 bits, and are brought there at once.
#[inline(always)]
pub fn wide_to_coordinate(x: i128) -> i32
    ensures value { result ≡ clamp_coordinate x }
    ensures coordinate { IsCoordinate result }
{
    match i64::try_from(x) {
        Ok(narrow) => to_coordinate(narrow),
        Err(_) => nearest_coordinate(x),
    }
}

/// The edge that is nearest to a number.
#[tactic(auto, unfolding(geom_core::specs::Limits::clamp_coordinate))]
#[inline(never)]
fn nearest_coordinate(x: i128) -> i32
    ensures value { result ≡ clamp_coordinate x }
    ensures coordinate { IsCoordinate result }
{
    to_coordinate(to_i64(x))
}

/// The number that is nearest to it.
fn to_i64(x: i128) -> i64
    ensures { result ≡ int_max (negsuc 9223372036854775807) (int_min x (pos 9223372036854775807)) }
{
    x.clamp(i128::from(i64::MIN), i128::from(i64::MAX)) as i64
}
