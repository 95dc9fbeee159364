//! What a line gives a resource.

ghost use Rattle.std.specs.Prelude.{◌≡◌, ◌<◌, IfOk};
ghost use Rattle.script_lines.specs.Numbers.{max_mantissa, min_mantissa};
ghost use Rattle.line_words.specs.words.Numbers.{IsWithin};
ghost use Rattle.script_lines.specs.commands.PlainCommands.{plain_command, plain_given};
ghost use Rattle.script_lines.specs.reading.Commands.{IsCommandInBounds};
ghost use Rattle.script_lines.specs.reading.Resources.{IsGivenInBounds, color_given, dimen_given, dimen_word, given_by, given_of, in_24_bits, res_of, resource_id, unit_number, unit_of};
ghost use Rattle.line_words.specs.words.Words.{map_ok, words};

use crate::commands::{Command, Given};
use line_words::LineFault;
use line_words::words::colors::last_color;
use line_words::words::escapes::rest_text;
use line_words::words::naming::id_word;
use line_words::words::number::{number, within};
use line_words::words::{end, is, word};

/// The greatest number of a dimension.
pub const MAX_MANTISSA: i64 = 8388607;
/// The least number of a dimension.
pub const MIN_MANTISSA: i64 = -8388607;

/// The unit of a dimension.
#[derive(Clone, Copy)]
enum LengthUnit {
    Px,
    Dp,
    Sp,
    Pt,
    In,
    Mm,
}

impl LengthUnit {
    /// The number that means the unit in the word of a dimension.
    fn number(self) -> u32
        ensures value { result ≡ unit_number self }
        ensures below { result < 6 }
    {
        match self {
            LengthUnit::Px => 0,
            LengthUnit::Dp => 1,
            LengthUnit::Sp => 2,
            LengthUnit::Pt => 3,
            LengthUnit::In => 4,
            LengthUnit::Mm => 5,
        }
    }
}

/// A colour as the value of a resource.
fn color(bytes: &[u8]) -> Result<Given<'_>, LineFault>
    ensures value { map_ok plain_given result ≡ color_given (words bytes.now) }
    ensures bounds { IfOk result (λ given. IsGivenInBounds (plain_given given)) }
{
    let color = last_color(bytes)?;
    Ok(Given::Color(color))
}

/// The unit that a word names.
#[tactic(auto, unfolding(crate::specs::reading::Resources::unit_of))]
fn read_unit(word: &[u8]) -> Result<LengthUnit, LineFault>
    ensures { result ≡ unit_of word.now }
{
    if is(word, b"px") {
        return Ok(LengthUnit::Px);
    }
    if is(word, b"dp") {
        return Ok(LengthUnit::Dp);
    }
    if is(word, b"sp") {
        return Ok(LengthUnit::Sp);
    }
    if is(word, b"pt") {
        return Ok(LengthUnit::Pt);
    }
    if is(word, b"in") {
        return Ok(LengthUnit::In);
    }
    if is(word, b"mm") {
        return Ok(LengthUnit::Mm);
    }
    Err(LineFault::Syntax)
}

/// The number of a dimension in 24 bits.
fn in_24_bits(n: i32) -> u32
    requires { IsWithin min_mantissa max_mantissa n }
    ensures value { result ≡ in_24_bits n }
    ensures below { result < 16777216 }
{
    if n < 0 {
        (n + 0x100_0000) as u32
    } else {
        n as u32
    }
}

/// The word of a dimension, as a layout file has it.
#[tactic(auto, unfolding(crate::specs::reading::Resources::dimen_word))]
fn dimen_word(n: i32, unit: LengthUnit) -> u32
    requires { IsWithin min_mantissa max_mantissa n }
    ensures { result ≡ dimen_word n unit }
{
    in_24_bits(n) * 256 + unit.number()
}

/// A dimension as the value of a resource, by its number and its unit.
#[tactic(auto, unfolding(crate::specs::reading::Resources::dimen_given))]
fn dimen(bytes: &[u8]) -> Result<Given<'_>, LineFault>
    ensures value { map_ok plain_given result ≡ dimen_given (words bytes.now) }
    ensures bounds { IfOk result (λ given. IsGivenInBounds (plain_given given)) }
{
    let (n, rest) = number(bytes)?;
    let (word, rest) = word(rest)?;
    let unit = read_unit(word)?;
    end(rest)?;
    let n = within(MIN_MANTISSA, MAX_MANTISSA, n)?;
    Ok(Given::Dimen(dimen_word(n, unit)))
}

/// What is given by its kind and what comes after that.
#[tactic(auto, unfolding(crate::specs::reading::Resources::given_by))]
fn given_by<'a>(kind: &[u8], rest: &'a [u8]) -> Result<Given<'a>, LineFault>
    ensures value { map_ok plain_given result ≡ given_by kind.now rest.now }
    ensures bounds { IfOk result (λ given. IsGivenInBounds (plain_given given)) }
{
    if is(kind, b"color") {
        return color(rest);
    }
    if is(kind, b"dimen") {
        return dimen(rest);
    }
    if is(kind, b"text") {
        return Ok(Given::Text(rest_text(rest)?));
    }
    Err(LineFault::Syntax)
}

/// The value of a resource, by the word for its kind and what comes after that.
#[tactic(auto, unfolding(crate::specs::reading::Resources::given_of))]
fn given(bytes: &[u8]) -> Result<Given<'_>, LineFault>
    ensures value { map_ok plain_given result ≡ given_of bytes.now }
    ensures bounds { IfOk result (λ given. IsGivenInBounds (plain_given given)) }
{
    let (kind, rest) = word(bytes)?;
    given_by(kind, rest)
}

/// The same id; `Range` if it is 0, which no resource has.
#[tactic(auto, unfolding(crate::specs::reading::Resources::resource_id))]
fn resource_id(id: u32) -> Result<u32, LineFault>
    ensures value { result ≡ resource_id id }
    ensures some { IfOk result (λ id. 0 < id) }
{
    if id == 0 {
        return Err(LineFault::Range);
    }
    Ok(id)
}

/// A line that defines a resource, or gives it another value.
#[inline(never)]
#[tactic(auto, unfolding(crate::specs::reading::Resources::res_of))]
pub fn res(bytes: &[u8]) -> Result<Command<'_>, LineFault>
    ensures value { map_ok plain_command result ≡ res_of bytes.now }
    ensures bounds { IfOk result IsCommandInBounds }
{
    let (id, rest) = id_word(bytes)?;
    let value = given(rest)?;
    let id = resource_id(id)?;
    Ok(Command::Res { id, value })
}
