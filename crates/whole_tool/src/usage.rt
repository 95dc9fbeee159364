//! What the words after the name of the tool ask for.
//!
//! Arguments are compared byte for byte. A NAME that is empty, has more than 64 bytes or a byte that no name has, or
//! begins with `.`, is invalid, and the file is not looked for; so is `dump` with one argument more.

ghost use Rattle.std.specs.Prelude.{◌≡◌, Some, IfSome, string_bytes};
ghost use Rattle.std.specs.Str.{bytes_eq};
ghost use Rattle.whole_tool.specs.Usage.{HasSize, are_ids, dump_usage, focus_usage, form_now, gen_of, gen_usage, is_resource_id, long_usage, lookup_usage, name_from, pair_usage, run_usage, side_of, usage};

use crate::focusing::Question;
use focus_finder::Side;
use line_words::{Name, hex, is_file_name, natural};

/// The most resources that are looked up at a time.
const MAX_IDS: usize = 64;

/// What the words ask for.
#[derive(Clone, Copy)]
pub enum Form<'a> {
    /// To carry out the script on the source.
    Run,
    /// To carry out the script on the source for a stack of windows.
    Stack,
    /// To print the file of this name.
    Dump(&'a str),
    /// To run the load of this size.
    Gen(u32),
    /// To print what the resources of these ids hold in the table of this name.
    Lookup { name: &'a str, ids: &'a [String] },
    /// To carry out the script on the source, and then answer this question.
    Focus(Question),
}

/// The form of the words after the program's name, if they have one.
pub fn form_of(words: &[String]) -> Option<Form<'_>>
    ensures form { form_now result ≡ usage words.now }
    ensures size { IfSome result HasSize }
{
    match words {
        [word] => run_form(word),
        [word, more] => pair_form(word, more),
        [word, name, more @ ..] => long_form(word, name, more),
        _ => None,
    }
}

/// `run`, or `stack`
fn run_form(word: &String) -> Option<Form<'_>>
    ensures form { form_now result ≡ run_usage (string_bytes word.now) }
    ensures size { IfSome result HasSize }
{
    if is(word, "run") {
        Some(Form::Run)
    } else if is(word, "stack") {
        Some(Form::Stack)
    } else {
        None
    }
}

/// `gen N`, or `dump NAME`
fn pair_form<'a>(word: &String, more: &'a String) -> Option<Form<'a>>
    ensures form { form_now result ≡ pair_usage (string_bytes word.now) (string_bytes more.now) }
    ensures size { IfSome result HasSize }
{
    if is(word, "gen") {
        gen_form(more)
    } else {
        dump_form(word, more)
    }
}

/// The number of `gen N`
fn gen_form(number: &String) -> Option<Form<'_>>
    ensures form { form_now result ≡ gen_usage (string_bytes number.now) }
    ensures size { IfSome result HasSize }
{
    match natural(number.as_bytes()) {
        Some(n) => form_of_size(n),
        None => None,
    }
}

/// `gen` with a size from 1 to 100; `None` for any other number.
fn form_of_size<'a>(n: u64) -> Option<Form<'a>>
    ensures form { form_now result ≡ gen_of (Some n) }
    ensures size { IfSome result HasSize }
{
    if 1 <= n && n <= 100 {
        Some(Form::Gen(n as u32))
    } else {
        None
    }
}

/// `dump NAME`
fn dump_form<'a>(word: &String, name: &'a String) -> Option<Form<'a>>
    ensures form { form_now result ≡ dump_usage (string_bytes word.now) (string_bytes name.now) }
    ensures size { IfSome result HasSize }
{
    if is(word, "dump") && is_file_name(name.as_bytes()) {
        Some(Form::Dump(name.as_str()))
    } else {
        None
    }
}

/// `focus SIDE V`, or `lookup NAME ID ..`
fn long_form<'a>(word: &String, name: &'a String, more: &'a [String]) -> Option<Form<'a>>
    ensures form { form_now result ≡ long_usage (string_bytes word.now) (string_bytes name.now) more.now }
    ensures size { IfSome result HasSize }
{
    if is(word, "focus") {
        focus_form(name, more)
    } else {
        lookup_form(word, name, more)
    }
}

/// The question of `focus SIDE V`
fn focus_form<'a>(side: &String, more: &[String]) -> Option<Form<'a>>
    ensures form { form_now result ≡ focus_usage (string_bytes side.now) more.now }
    ensures size { IfSome result HasSize }
{
    let [view] = more else {
        return None;
    };
    match (side_of(side), name_from(view.as_bytes())) {
        (Some(side), Some(view)) => Some(Form::Focus(Question { side, view })),
        (None, _) | (Some(_), None) => None,
    }
}

/// The side that a word names.
fn side_of(word: &String) -> Option<Side>
    ensures { result ≡ side_of (string_bytes word.now) }
{
    if is(word, "left") {
        Some(Side::Left)
    } else if is(word, "right") {
        Some(Side::Right)
    } else if is(word, "up") {
        Some(Side::Up)
    } else if is(word, "down") {
        Some(Side::Down)
    } else {
        None
    }
}

/// The view that a word names, as in a line of a script.
#[tactic(auto, unfolding(line_words::specs::words::Names::name_of, line_words::specs::words::Names::id_of))]
fn name_from(word: &[u8]) -> Option<Name>
    ensures { result ≡ name_from word.now }
{
    if word.is_empty() {
        return None;
    }
    if word[0] == b'v' {
        return match natural(&word[1..]) {
            None => None,
            Some(number) => Some(Name::Number(number)),
        };
    }
    if word[0] != b'@' {
        return None;
    }
    match hex(&word[1..]) {
        None => None,
        Some(id) => Some(Name::Id(id)),
    }
}

/// `lookup NAME ID ..`
fn lookup_form<'a>(word: &String, name: &'a String, ids: &'a [String]) -> Option<Form<'a>>
    ensures form { form_now result ≡ lookup_usage (string_bytes word.now) (string_bytes name.now) ids.now }
    ensures size { IfSome result HasSize }
{
    let is_named = is(word, "lookup") && is_file_name(name.as_bytes());
    if is_named && ids.len() <= MAX_IDS && are_ids(ids) {
        Some(Form::Lookup {
            name: name.as_str(),
            ids,
        })
    } else {
        None
    }
}

/// Whether each word is the id of a resource.
fn are_ids(words: &[String]) -> bool
    ensures { result ≡ are_ids words.now }
{
    words.iter().all(|word| is_resource_id(word))
}

/// Whether a word has eight hexadecimal digits.
fn is_resource_id(word: &String) -> bool
    ensures { result ≡ is_resource_id (string_bytes word.now) }
{
    word.len() == 8 && hex(word.as_bytes()).is_some()
}

/// Whether a word is this text, byte for byte.
fn is(word: &String, text: &str) -> bool
    ensures { result ≡ bytes_eq (string_bytes word.now) text.now }
{
    word.as_str() == text
}
