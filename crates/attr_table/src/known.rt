//! Which attributes of a layout file are known.
ghost use Rattle.std.specs.Prelude.{◌≡◌, ◌<◌, IfSome, option_map};
ghost use Rattle.attr_table.specs.Attributes.{known_count};
ghost use Rattle.attr_table.specs.Taking.{is_android, known_place, place_named};

use crate::table::find;
use axml_chunks::Pool;
use axml_reader::Attr;

/// The namespace of the attributes that are known.
const ANDROID: &str = "http://schemas.android.com/apk/res/android";

/// The place of an attribute in the table, if it is known.
#[tactic(auto, unfolding(crate::specs::Taking::known_place))]
pub fn known_place(pool: &Pool, attr: Attr) -> Option<usize>
    ensures place { result ≡ known_place pool.now attr }
    ensures within { IfSome result (λ place. place < known_count) }
{
    if !is_android(pool.text(attr.ns)) {
        return None;
    }
    place_named(pool.text(attr.name))
}

/// Whether a namespace is that of the attributes that are known.
fn is_android(namespace: Option<&str>) -> bool
    ensures { result ≡ is_android (option_map (λ text. text.now) namespace.entry) }
{
    match namespace {
        Some(text) => text == ANDROID,
        None => false,
    }
}

/// The place in the table of the attribute with this local name; `None` without a name, or if it is not known.
fn place_named(name: Option<&str>) -> Option<usize>
    ensures place { result ≡ place_named (option_map (λ text. text.now) name.entry) }
    ensures within { IfSome result (λ place. place < known_count) }
{
    find(name?)
}
