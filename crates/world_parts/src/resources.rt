//! The resources that lines give.

ghost use Rattle.std.specs.Prelude.{◌≡◌, ◌<◌, ◌^◌, IfOk, chars};
ghost use Rattle.res_values.specs.Values.{resource};
ghost use Rattle.line_words.specs.words.Escapes.{unescaped};
ghost use Rattle.script_lines.specs.commands.PlainCommands.{given_text_length, plain_given};
ghost use Rattle.world_parts.specs.Resources.{resource_given};
ghost use Rattle.view_model.specs.Texts.{IsShortText};

use line_words::Unescaped;
use res_values::Value;
use script_lines::Given;
use std::alloc::{AllocError, Global};
use view_model::Text;

/// Collects the characters of a text, its escapes resolved.
fn collect_characters(alloc: Global, text: &str) -> Result<Vec<char>, AllocError>
    ensures { IfOk result (λ characters. characters.items ≡ unescaped (chars text.now)) }
{
    let characters = Unescaped::new(text).collect(alloc)?;
    Ok(characters)
}

/// The text of a resource, its escapes resolved.
fn parse_text(alloc: Global, text: &str) -> Result<Text, AllocError>
    requires { IsShortText text.now }
    ensures { IfOk result (λ resolved. resolved ≡ unescaped (chars text.now)) }
{
    let characters = collect_characters(alloc, text)?;
    Ok(Text::from_characters(characters))
}

/// The value that a line gives a resource.
pub fn value_of(alloc: Global, given: Given<'_>) -> Result<Value, AllocError>
    requires { given_text_length (plain_given given) < 2 ^ 31 }
    ensures { IfOk result (λ value. resource value ≡ resource_given (plain_given given.entry)) }
{
    match given {
        Given::Color(color) => Ok(Value::Color(color)),
        Given::Dimen(word) => Ok(Value::Dimen(word)),
        Given::Text(text) => Ok(Value::Text(parse_text(alloc, text)?)),
    }
}
