//! What the value of an attribute means, by what the attribute takes.
ghost use Rattle.std.specs.Prelude.{◌≡◌, ◌<◌, IfOk, Some, chars, option_map, slice_get};
ghost use Rattle.geom_core.specs.Numbers.{wrap_content};
ghost use Rattle.view_model.specs.Numbers.{max_size};
ghost use Rattle.res_values.specs.Values.{resource};
ghost use Rattle.attr_table.specs.declared.given.Given.TheVariants as says;
ghost use Rattle.attr_table.specs.Taken.{FoundAs};
ghost use Rattle.attr_table.specs.Values.{below_given, boolean_given, color_of, dimension_of, extent_given, found_of, given_of, is_color, is_nothing, is_whole, pixels_within, reference_given, signed, takes_reference, text_of, weight_given, whole_given};
ghost use Rattle.view_model.specs.Texts.{IsShortText};

use crate::given::Given;
use crate::source::Source;
use crate::table::Takes;
use crate::types::{
    BOOLEAN, DECIMAL, DIMENSION, FIRST_COLOR, FLOAT, HEXADECIMAL, LAST_COLOR, NULL, REFERENCE,
    STRING,
};
use axml_chunks::Pool;
use axml_reader::Attr;
use geom_core::WRAP;
use res_values::{Resources, Value};
use std::alloc::{AllocError, Global};
use view_model::limits::{MAX_SIZE, MAX_WEIGHT};
use view_model::refusals::UNRESOLVED;
use view_model::{Refusal, Text, px, weight};

/// The greatest weight as a whole number.
pub const MAX_WHOLE_WEIGHT: u32 = MAX_WEIGHT / 256;

/// The resource that an attribute's value names, if it names one.
#[tactic(auto, unfolding(crate::specs::Values::found_of))]
pub fn find_resource<'a>(
    res: &'a Resources,
    takes: Takes,
    attr: Attr,
) -> Result<Option<&'a Value>, Refusal>
    ensures { FoundAs (found_of res.now takes attr.kind attr.word) result }
{
    if attr.kind != REFERENCE || takes_reference(takes) || attr.word == 0 {
        return Ok(None);
    }
    match res.get(attr.word) {
        Some(value) => Ok(Some(value)),
        None => Err(Refusal::plain(UNRESOLVED)),
    }
}

/// Whether the id of a reference counts, and not the resource that it names.
fn takes_reference(takes: Takes) -> bool
    ensures { result ≡ takes_reference takes }
{
    matches!(takes, Takes::Reference)
}

/// The meaning of an attribute's value, if the attribute takes such a value; `found` is the resource that it names.
pub fn given(
    alloc: Global,
    source: &Source,
    takes: Takes,
    attr: Attr,
    found: Option<&Value>,
) -> Result<Option<Given>, AllocError>
    ensures { IfOk result (λ given. given ≡ given_of source.now.doc.now.pool source.now.dpi takes attr.kind attr.word
        (option_map (λ value. resource value.now) found.entry)) }
{
    let Attr { kind, word, .. } = attr;
    let dpi = source.dpi;
    match takes {
        Takes::Text => text(alloc, &source.doc.pool, kind, word, found),
        Takes::Reference => Ok(reference(kind, word)),
        Takes::Extent => Ok(extent(dpi, kind, word, found)),
        Takes::Length { low, high } => Ok(pixels_within(
            low,
            high,
            dimension(dpi, kind, word, found),
        )),
        Takes::Weight => Ok(weight_given(kind, word)),
        Takes::Whole => Ok(whole(kind, word)),
        Takes::Below(count) => Ok(below(count, kind, word)),
        Takes::Color => Ok(color(kind, word, found)),
        Takes::Boolean => Ok(boolean(kind, word)),
    }
}

/// Whether a type is that of whole numbers.
fn is_whole(kind: u8) -> bool
    ensures { result ≡ is_whole kind }
{
    kind == DECIMAL || kind == HEXADECIMAL
}

/// Whether a type is one of those of colours.
fn is_color(kind: u8) -> bool
    ensures { result ≡ is_color kind }
{
    FIRST_COLOR <= kind && kind <= LAST_COLOR
}

/// Whether a value is null or a reference to nothing.
fn is_nothing(kind: u8, word: u32) -> bool
    ensures { result ≡ is_nothing kind word }
{
    kind == NULL || (kind == REFERENCE && word == 0)
}

/// The id that a word is, if its type is that of references.
#[tactic(auto, unfolding(crate::specs::Values::reference_given))]
fn reference(kind: u8, word: u32) -> Option<Given>
    ensures { result ≡ reference_given kind word }
{
    if kind == REFERENCE {
        return Some(Given::Word(word));
    }
    None
}

/// Pixels of a width or a height.
#[tactic(auto, unfolding(crate::specs::Values::extent_given))]
fn extent(dpi: u32, kind: u8, word: u32, found: Option<&Value>) -> Option<Given>
    ensures { result ≡ extent_given dpi kind word (option_map (λ value. resource value.now) found.entry) }
{
    if is_whole(kind) {
        return whole_extent(signed(word));
    }
    pixels_within(0, MAX_SIZE, dimension(dpi, kind, word, found))
}

/// A whole number of pixels, `MATCH` or `WRAP`.
#[tactic(auto, unfolding(crate::specs::Values::pixels_within))]
fn whole_extent(n: i64) -> Option<Given>
    ensures { result ≡ pixels_within wrap_content max_size (Some n) }
{
    if i64::from(WRAP) <= n && n <= MAX_SIZE {
        return Some(Given::Pixels(n as i32));
    }
    None
}

/// The whole number that a word is.
#[tactic(auto, unfolding(crate::specs::Values::signed))]
fn signed(word: u32) -> i64
    ensures { result ≡ signed word }
{
    if word < 0x8000_0000 {
        i64::from(word)
    } else {
        i64::from(word) - 0x1_0000_0000
    }
}

/// The number of pixels, if there is one from `low` to `high`, both included.
#[tactic(auto, unfolding(crate::specs::Values::pixels_within))]
fn pixels_within(low: i64, high: i64, n: Option<i32>) -> Option<Given>
    ensures { result ≡ pixels_within low high n }
{
    let n = n?;
    if low <= i64::from(n) && i64::from(n) <= high {
        return Some(Given::Pixels(n));
    }
    None
}

/// The pixels of a dimension or of its resource.
#[tactic(auto, unfolding(crate::specs::Values::dimension_of))]
fn dimension(dpi: u32, kind: u8, word: u32, found: Option<&Value>) -> Option<i32>
    ensures { result ≡ dimension_of dpi kind word (option_map (λ value. resource value.now) found.entry) }
{
    match found {
        Some(Value::Dimen(word)) => px(*word, dpi),
        Some(_) => None,
        None => {
            if kind == DIMENSION {
                return px(word, dpi);
            }
            None
        }
    }
}

/// A weight in 256ths.
#[tactic(auto, unfolding(crate::specs::Values::weight_given))]
fn weight_given(kind: u8, word: u32) -> Option<Given>
    ensures { result ≡ weight_given kind word }
{
    if kind == FLOAT {
        let weight = weight(word)?;
        return Some(Given::Word(weight));
    }
    if is_whole(kind) && word <= MAX_WHOLE_WEIGHT {
        return Some(Given::Word(256 * word));
    }
    None
}

/// The word, if its type is that of whole numbers.
#[tactic(auto, unfolding(crate::specs::Values::whole_given))]
fn whole(kind: u8, word: u32) -> Option<Given>
    ensures { result ≡ whole_given kind word }
{
    if is_whole(kind) {
        return Some(Given::Word(word));
    }
    None
}

/// The word, if it is a whole number below `count`.
#[tactic(auto, unfolding(crate::specs::Values::below_given))]
fn below(count: u32, kind: u8, word: u32) -> Option<Given>
    ensures { result ≡ below_given count kind word }
{
    if is_whole(kind) && word < count {
        return Some(Given::Word(word));
    }
    None
}

/// The colour of a value or of the resource that it names. Null is 0; a resource or a value of another type has none.
#[tactic(auto, unfolding(crate::specs::Values::color_of))]
fn color(kind: u8, word: u32, found: Option<&Value>) -> Option<Given>
    ensures { result ≡ color_of kind word (option_map (λ value. resource value.now) found.entry) }
{
    match found {
        Some(Value::Color(color)) => Some(Given::Word(color.0)),
        Some(_) => None,
        None => {
            if is_color(kind) {
                return Some(Given::Word(word));
            }
            if is_nothing(kind, word) {
                return Some(Given::Word(0));
            }
            None
        }
    }
}

/// A copy of the characters of a value or of the resource that it names. Null is empty; a resource or a value of
/// another type has none. `Err` where there is no memory.
#[tactic(auto, unfolding(crate::specs::Values::text_of))]
fn text(
    alloc: Global,
    pool: &Pool,
    kind: u8,
    word: u32,
    found: Option<&Value>,
) -> Result<Option<Given>, AllocError>
    ensures { IfOk result (λ given. given
        ≡ text_of pool.now kind word (option_map (λ value. resource value.now) found.entry)) }
{
    match found {
        Some(Value::Text(text)) => Ok(Some(Given::Text(text.copy(alloc)?))),
        Some(_) => Ok(None),
        None => {
            if kind == STRING {
                return string(alloc, pool, word);
            }
            if is_nothing(kind, word) {
                return Ok(Some(Given::Text(Text::empty(alloc))));
            }
            Ok(None)
        }
    }
}

/// The characters of a string.
fn string(alloc: Global, pool: &Pool, number: u32) -> Result<Option<Given>, AllocError>
    ensures { IfOk result (λ given. given
        ≡ option_map (λ text. says.Text (chars text)) (slice_get pool.now.texts number)) }
{
    match pool.text(number) {
        Some(text) => Ok(Some(Given::Text(characters(alloc, text)?))),
        None => Ok(None),
    }
}

/// A copy of a text that is short enough to be one. `Err` where there is no memory.
fn characters(alloc: Global, text: &str) -> Result<Text, AllocError>
    requires { IsShortText text.now }
    ensures { IfOk result (λ made. made ≡ chars text.now) }
{
    Ok(Text::new(alloc, text)?)
}

/// 0 for false and 1 for anything else, if the type is that of booleans.
#[tactic(auto, unfolding(crate::specs::Values::boolean_given))]
fn boolean(kind: u8, word: u32) -> Option<Given>
    ensures { result ≡ boolean_given kind word }
{
    if kind == BOOLEAN {
        return Some(Given::Word(u32::from(word != 0)));
    }
    None
}
