//! The words of a question that is asked after a script.

ghost use Rattle.std.specs.Prelude.{◌≡◌, IfOk, IsTrue, is_some};
ghost use Rattle.vindaesk_c.specs.Questions.{asked, can_ask};
ghost use Rattle.whole_tool.specs.Usage.{name_from, side_of, usage};

use line_words::words::is;
use line_words::{hex, natural};
use std::alloc::{AllocError, Global};

/// Whether these words for a side and for a view make up a question.
#[tactic(auto, unfolding(crate::specs::Questions::can_ask))]
pub fn can_ask(side: &[u8], view: &[u8]) -> bool
    ensures { result ≡ can_ask side.now view.now }
{
    is_side(side) && is_view(view)
}

/// The words that ask which view gets the focus next.
pub fn question_words(alloc: Global, side: &[u8], view: &[u8]) -> Result<Vec<String>, AllocError>
    requires { IsTrue (can_ask side.now view.now) }
    ensures { IfOk result (λ words. usage words.items ≡ asked side.now view.now) }
{
    let mut words = Vec::new(alloc);
    words.push(String::from_str(alloc, "focus")?)?;
    words.push(String::from_str(alloc, side_text(side))?)?;
    words.push(String::from_str(alloc, view_text(side, view))?)?;
    Ok(words)
}

/// Whether a word names a side.
fn is_side(word: &[u8]) -> bool
    ensures { result ≡ is_some (side_of word.now) }
{
    is(word, b"left") || is(word, b"right") || is(word, b"up") || is(word, b"down")
}

/// Whether a word names a view as a line of a script does.
#[tactic(auto, unfolding(line_words::specs::words::Names::name_of, line_words::specs::words::Names::id_of))]
fn is_view(word: &[u8]) -> bool
    ensures { result ≡ is_some (name_from word.now) }
{
    match word {
        [b'v', number @ ..] => natural(number).is_some(),
        [b'@', id @ ..] => hex(id).is_some(),
        _ => false,
    }
}

/// The word for a side as a text.
fn side_text(side: &[u8]) -> &'static str
    requires { IsTrue (is_some (side_of side.now)) }
    ensures { side_of result.now ≡ side_of side.now }
{
    if is(side, b"left") {
        "left"
    } else if is(side, b"right") {
        "right"
    } else if is(side, b"up") {
        "up"
    } else {
        "down"
    }
}

/// The word for a view as a text.
fn view_text<'a>(side: &[u8], view: &'a [u8]) -> &'a str
    requires { IsTrue (can_ask side.now view.now) }
    ensures { result.now ≡ view.now }
{
    match std::str::from_utf8(view) {
        Ok(text) => text,
        Err(_) => unreachable!(),
    }
}
