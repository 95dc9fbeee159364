//! The names of refusals.

ghost use Rattle.std.specs.Prelude.{◌≡◌, ◌<◌, ◌≤◌, Some, length, map, slice_get};
ghost use Rattle.tool_replies.specs.Names.{refusal_name};
ghost use Rattle.view_model.specs.RefusalNumbers.{IsFirstOrLater, IsLastOrEarlier};

/// The name of each refusal at its number.
const NAMES: [&[u8]; 44] = [
    b"",
    b"Truncated",
    b"BadChunk",
    b"BadPool",
    b"BadString",
    b"NotXml",
    b"BadRef",
    b"Unbalanced",
    b"NoElement",
    b"TwoRoots",
    b"SecondPool",
    b"TooBig",
    b"Unresolved",
    b"ThemeRef",
    b"BadValue",
    b"Full",
    b"Duplicate",
    b"NoSize",
    b"Cycle",
    b"Views",
    b"Depth",
    b"NotGroup",
    b"ScrollFull",
    b"UnknownClass",
    b"Hooks",
    b"HookEdit",
    b"BadState",
    b"StateClass",
    b"NoView",
    b"WrongClass",
    b"Range",
    b"Syntax",
    b"LongLine",
    b"NoWindow",
    b"NoRoot",
    b"HasRoot",
    b"Unsettled",
    b"NoFrame",
    b"Pointer",
    b"Missing",
    b"LongFile",
    b"DpiLate",
    b"NotTable",
    b"NoPane",
];

/// The name of a refusal by its number.
pub fn name_of(number: u8) -> &'static [u8]
    requires first { IsFirstOrLater number }
    requires last { IsLastOrEarlier number }
    ensures name { result.now ≡ refusal_name number }
    ensures named { 0 < length result.now }
    ensures short { length result.now ≤ 16 }
{
    text_at(&NAMES, number as usize)
}

/// The text at a place of a table.
fn text_at(texts: &[&'static [u8]], place: usize) -> &'static [u8]
    requires { place < length texts.now }
    ensures { slice_get (map (λ text. text.now) texts.now) place ≡ Some result.now }
{
    texts[place]
}
