//! The ranges that sizes and left and top edges keep.
ghost use Rattle.std.specs.Prelude.{◌≡◌};
ghost use Rattle.geom_core.specs.Limits.{IsSide, IsCoordinate, clamp_size, clamp_coordinate};

/// The greatest side of a size, in pixels.
const MAX_SIDE: i64 = 16777215;

/// The least left or top edge, in pixels.
const MIN_COORDINATE: i64 = -268435456;

/// The greatest left or top edge, in pixels.
const MAX_COORDINATE: i64 = 268435456;

/// Brings a number into the range of sizes, 0..16777215.
pub fn to_size(x: i64) -> i32
    ensures value { result ≡ clamp_size x }
    ensures side { IsSide result }
{
    x.clamp(0, MAX_SIDE) as i32
}

/// Brings a number into the range of left and top edges, -2^28..2^28.
#[tactic(auto, unfolding(crate::specs::Limits::clamp_coordinate))]
pub fn to_coordinate(x: i64) -> i32
    ensures value { result ≡ clamp_coordinate x }
    ensures coordinate { IsCoordinate result }
{
    x.clamp(MIN_COORDINATE, MAX_COORDINATE) as i32
}
