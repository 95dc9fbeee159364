//! Pixels and weights from the words of a layout file.
ghost use Rattle.std.specs.Prelude.{◌≡◌, ◌<◌, ◌≤◌, ℤ, pos, negsuc, ◌≤ℤ◌, ◌*ℤ◌, ◌+ℤ◌, IfSome};
ghost use Rattle.std.specs.Int.{int_div_euclid};
ghost use Rattle.view_model.specs.Dimensions.{pixels_in_bounds, weight_in_bounds, mantissa, nearest, never_lost, px_of, radix, unit_of, weight_near, weight_of};

use crate::limits::{MAX_WEIGHT, NORMAL_DPI};

/// The least dimension, in pixels.
const MIN_PIXELS: i64 = -(1 << 30);

/// The greatest dimension, in pixels.
const MAX_PIXELS: i64 = 1 << 30;

/// The pixels of a dimension's word at a density in dots an inch, to the nearest, a half rounded up; `None` if the unit
/// is unknown or there are more than 2^30 either way.
#[tactic(auto, unfolding(crate::specs::Dimensions::px_of))]
pub fn px(word: u32, dpi: u32) -> Option<i32>
    ensures { result ≡ px_of word dpi }
{
    let (numerator, denominator) = unit(dpi, word % 16)?;
    let scaled = scaled(mantissa(word), numerator);
    let divisor = radix(word / 16 % 4) * denominator;
    pixels_in_bounds(nearest(scaled, divisor))
}

/// The weight of a float's word, in 256ths, to the nearest, a half rounded up; `None` if it is no number, negative or
/// above the greatest weight.
#[tactic(auto, unfolding(crate::specs::Dimensions::weight_of))]
pub fn weight(word: u32) -> Option<u32>
    ensures { result ≡ weight_of word }
{
    let exponent = word / 0x80_0000 % 256;
    let fraction = word % 0x80_0000;
    let negative = word / 0x8000_0000 == 1;
    if exponent == 255 {
        return None;
    }
    if exponent == 0 {
        return Some(0);
    }
    weight_of_parts(negative, fraction, exponent)
}

/// The mantissa of a dimension's word: its bits 8 to 31, signed.
#[tactic(auto, unfolding(crate::specs::Dimensions::mantissa))]
fn mantissa(word: u32) -> i64
    ensures value { result ≡ mantissa word }
    ensures low { negsuc 8388607 ≤ℤ result }
    ensures high { result ≤ℤ pos 8388607 }
{
    let bits = word / 256;
    if bits < 0x80_0000 {
        i64::from(bits)
    } else {
        i64::from(bits) - 0x100_0000
    }
}

/// What the mantissa is divided by.
#[tactic(auto, unfolding(crate::specs::Dimensions::radix))]
fn radix(bits: u32) -> u32
    ensures value { result ≡ radix bits }
    ensures most { radix bits ≤ 8388608 }
    ensures some { 0 < radix bits }
{
    match bits {
        0 => 1,
        1 => 1 << 7,
        2 => 1 << 15,
        _ => 1 << 23,
    }
}

/// A unit in pixels, as a numerator and a denominator.
#[tactic(auto, unfolding(crate::specs::Dimensions::unit_of))]
fn unit(dpi: u32, unit: u32) -> Option<(u64, u32)>
    ensures value { result ≡ unit_of dpi unit }
    ensures numerator { IfSome result (λ r. r.0 ≤ 21474836475) }
    ensures denominator { IfSome result (λ r. r.1 ≤ 160) }
    ensures some { IfSome result (λ r. 0 < r.1) }
{
    let dpi = u64::from(dpi);
    match unit {
        0 => Some((1, 1)),
        1 | 2 => Some((dpi, NORMAL_DPI)),
        3 => Some((dpi, 72)),
        4 => Some((dpi, 1)),
        5 => Some((5 * dpi, 127)),
        _ => None,
    }
}

/// A mantissa times a unit's numerator.
fn scaled(mantissa: i64, numerator: u64) -> i64
    requires low { negsuc 8388607 ≤ℤ mantissa }
    requires high { mantissa ≤ℤ pos 8388607 }
    requires few { numerator ≤ 21474836475 }
    ensures value { result ≡ mantissa *ℤ pos numerator }
    ensures low { negsuc 180143985052876799 ≤ℤ result }
    ensures high { result ≤ℤ pos 180143985052876800 }
{
    mantissa * numerator as i64
}

/// `x / divisor` to the nearest integer, a half rounded up, but never 0 if `x` is not 0.
#[tactic(auto, unfolding(crate::specs::Dimensions::nearest))]
fn nearest(x: i64, divisor: u32) -> i64
    requires some { 0 < divisor }
    requires low { negsuc 180143985052876799 ≤ℤ x }
    requires high { x ≤ℤ pos 180143985052876800 }
    ensures { result ≡ nearest x divisor }
{
    never_lost(half_up(x, divisor), x)
}

/// An integer near `x`, but if that is 0 and `x` is not, 1 or -1.
#[tactic(auto, unfolding(crate::specs::Dimensions::never_lost))]
fn never_lost(near: i64, x: i64) -> i64
    ensures { result ≡ never_lost near x }
{
    if near != 0 {
        return near;
    }
    if x == 0 {
        return near;
    }
    if x < 0 {
        return -1;
    }
    1
}

/// `x / divisor` and a half, rounded down.
fn half_up(x: i64, divisor: u32) -> i64
    requires some { 0 < divisor }
    requires low { negsuc 180143985052876799 ≤ℤ x }
    requires high { x ≤ℤ pos 180143985052876800 }
    ensures { result ≡ int_div_euclid (pos 2 *ℤ x +ℤ pos divisor) (pos 2 *ℤ pos divisor) }
{
    let sum = twice_and(x, divisor);
    let twice = twice(divisor);
    sum.div_euclid(twice)
}

/// `2 * x + divisor`.
fn twice_and(x: i64, divisor: u32) -> i64
    requires low { negsuc 180143985052876799 ≤ℤ x }
    requires high { x ≤ℤ pos 180143985052876800 }
    ensures value { result ≡ pos 2 *ℤ x +ℤ pos divisor }
    ensures low { negsuc 360287970105753599 ≤ℤ result }
{
    2 * x + i64::from(divisor)
}

/// `2 * divisor`.
fn twice(divisor: u32) -> i64
    requires { 0 < divisor }
    ensures value { result ≡ pos 2 *ℤ pos divisor }
    ensures some { pos 2 ≤ℤ result }
{
    2 * i64::from(divisor)
}

/// A number of pixels of at most 2^30 either way.
#[tactic(auto, unfolding(crate::specs::Dimensions::pixels_in_bounds))]
fn pixels_in_bounds(n: i64) -> Option<i32>
    ensures { result ≡ pixels_in_bounds n }
{
    if n > MAX_PIXELS || n < MIN_PIXELS {
        return None;
    }
    Some(n as i32)
}

/// The weight of a float's fraction and exponent, in 256ths.
fn weight_of_parts(negative: bool, fraction: u32, exponent: u32) -> Option<u32>
    requires { fraction < 8388608 }
    ensures { result ≡ weight_in_bounds negative (weight_near fraction exponent) }
{
    if exponent > 142 {
        return None;
    }
    if exponent < 110 {
        return Some(0);
    }
    weight_in_bounds(negative, weight_near(fraction, exponent))
}

/// 256ths of a float's fraction and exponent, to the nearest, a half rounded up, if these are neither too few nor too
/// many to count.
#[tactic(auto, unfolding(crate::specs::Dimensions::weight_near))]
fn weight_near(fraction: u32, exponent: u32) -> u64
    requires fraction { fraction < 8388608 }
    requires exponent { exponent ≤ 142 }
    requires not_small { 110 ≤ exponent }
    ensures { result ≡ weight_near fraction exponent }
{
    let shift = 142 - exponent;
    (2 * (8388608 + u64::from(fraction)) + (1 << shift)) / (1 << (shift + 1))
}

/// A weight of this many 256ths, if it is not negative and not too large.
fn weight_in_bounds(negative: bool, n: u64) -> Option<u32>
    ensures { result ≡ weight_in_bounds negative n }
{
    if n > u64::from(MAX_WEIGHT) || (negative && n != 0) {
        return None;
    }
    Some(n as u32)
}
