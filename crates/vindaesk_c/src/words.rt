//! The words that the tool is called with.

ghost use Rattle.std.specs.Prelude.{◌≡◌, ◌<◌, true, IfOk, IsTrue, string_bytes};
ghost use Rattle.std.specs.Char.{is_ascii_hexdigit};
ghost use Rattle.std.specs.Str.{IsUtf8};
ghost use Rattle.line_words.specs.words.FileNames.{is_file_name};
ghost use Rattle.line_words.specs.words.Names.{hex_digit_of};
ghost use Rattle.vindaesk_c.specs.Lookups.{IsWordOf, can_look_up};
ghost use Rattle.whole_tool.specs.Usage.{Dump, Lookup, are_ids, run_usage, usage};
ghost use Rattle.tool_replies.specs.Lookup.{resource_ids};

use line_words::is_file_name;
use std::alloc::{AllocError, Global};

/// The most resources that are looked up at a time.
const MAX_IDS: usize = 64;

/// The words of a call that has one.
pub fn one_word(alloc: Global, word: &str) -> Result<Vec<String>, AllocError>
    ensures { IfOk result (λ words. usage words.items ≡ run_usage word.now) }
{
    let mut words = Vec::new(alloc);
    words.push(String::from_str(alloc, word)?)?;
    Ok(words)
}

/// The words that ask for the print of a layout file.
pub fn file_words(alloc: Global, name: &[u8]) -> Result<Vec<String>, AllocError>
    requires { IsTrue (is_file_name name.now) }
    ensures { IfOk result (λ words. usage words.items ≡ Dump name.now) }
{
    let mut words = Vec::new(alloc);
    words.push(String::from_str(alloc, "dump")?)?;
    words.push(String::from_str(alloc, name_text(name))?)?;
    Ok(words)
}

/// Whether these resources may be looked up in the file of this name.
#[tactic(auto, unfolding(crate::specs::Lookups::can_look_up))]
pub fn can_look_up(name: &[u8], ids: &[u32]) -> bool
    ensures { result ≡ can_look_up name.now ids.now }
{
    is_file_name(name) && !ids.is_empty() && ids.len() <= MAX_IDS
}

/// The words that ask for what resources hold in a table.
pub fn lookup_words(alloc: Global, name: &[u8], ids: &[u32]) -> Result<Vec<String>, AllocError>
    requires { IsTrue (can_look_up name.now ids.now) }
    ensures { IfOk result (λ words. usage words.items ≡ Lookup name.now ids.now) }
{
    let mut words = id_words(alloc, ids)?;
    words.insert(0, String::from_str(alloc, name_text(name))?)?;
    words.insert(0, String::from_str(alloc, "lookup")?)?;
    Ok(words)
}

/// The words of ids.
fn id_words(alloc: Global, ids: &[u32]) -> Result<Vec<String>, AllocError>
    ensures ids { IfOk result (λ words. are_ids words.items ≡ true) }
    ensures values { IfOk result (λ words. resource_ids words.items ≡ ids.now) }
{
    let mut words = Vec::new(alloc);
    for id in ids {
        words.push(id_word(alloc, *id)?)?;
    }
    Ok(words)
}

/// The word of an id.
fn id_word(alloc: Global, id: u32) -> Result<String, AllocError>
    ensures { IfOk result (λ word. IsWordOf id (string_bytes word)) }
{
    match std::str::from_utf8(&id_digits(id)) {
        Ok(text) => String::from_str(alloc, text),
        Err(_) => unreachable!(),
    }
}

/// The digits of an id.
fn id_digits(id: u32) -> [u8; 8]
    ensures word { IsWordOf id result }
    ensures text { IsUtf8 result }
{
    let seven = id / 16;
    let six = seven / 16;
    let five = six / 16;
    let four = five / 16;
    let three = four / 16;
    let two = three / 16;
    let one = two / 16;
    [
        hex_digit(one),
        hex_digit(two % 16),
        hex_digit(three % 16),
        hex_digit(four % 16),
        hex_digit(five % 16),
        hex_digit(six % 16),
        hex_digit(seven % 16),
        hex_digit(id % 16),
    ]
}

/// The digit of a number below 16.
#[tactic(auto, unfolding(line_words::specs::words::Names::hex_digit_of))]
fn hex_digit(n: u32) -> u8
    requires { n < 16 }
    ensures value { hex_digit_of result ≡ n }
    ensures digit { is_ascii_hexdigit result ≡ true }
    ensures ascii { result < 128 }
{
    if n < 10 {
        b'0' + n as u8
    } else {
        b'a' + (n - 10) as u8
    }
}

/// The name of a file as a text.
fn name_text(name: &[u8]) -> &str
    requires { IsTrue (is_file_name name.now) }
    ensures { result.now ≡ name.now }
{
    match std::str::from_utf8(name) {
        Ok(text) => text,
        Err(_) => unreachable!(),
    }
}
