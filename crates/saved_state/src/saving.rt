//! Saving of the offsets and texts of a tree.
ghost use Rattle.std.specs.Prelude.{◌≡◌, ◌<◌, ◌≤◌, ◌≤ℤ◌, ◌+◌, encode_utf8_all, if◌then◌else◌, Ok, IfOk, OnOk, length, nat_lt, pos, unsigned_abs};
ghost use Rattle.std.specs.BTreeMap.{insert_entry};
ghost use Rattle.std.specs.Ordering.{nat_cmp};
ghost use Rattle.saved_state.specs.Saving.{FitsOffset, OffsetsFit, saved_of, with_view};
ghost use Rattle.saved_state.specs.State.{IsState, RisesFrom, decoded, encoded};
ghost use Rattle.saved_state.specs.Numbers.{last_version, max_offset, max_text_bytes};
ghost use Rattle.saved_state.specs.declared.value.Value.TheVariants.{Offset as OffsetValue, Text as TextValue};
ghost use Rattle.view_tree.specs.Views.{IsLive, plain_of, view_at};

use crate::bytes::text_bytes;
use crate::format::MAX_TEXT_BYTES;
use crate::value::Value;
use crate::writing::{put_entry, put_head};
use std::alloc::{AllocError, Global};
use std::collections::BTreeMap;
use view_model::Text;
use view_tree::{Key, ViewTree};

/// The bytes of what is saved of a tree: the offset of each scroll view that has an id, and the text of each text view that
/// has one, unless it is too long. Of those with the same id that of the last in preorder is saved.
pub fn save(alloc: Global, tree: &ViewTree) -> Result<Vec<u8>, AllocError>
    requires { OffsetsFit (plain_of tree.now) }
    ensures bytes { IfOk result (λ bytes. bytes.items ≡ encoded (saved_of (plain_of tree.now))) }
    ensures back { IfOk result (λ bytes. decoded bytes.items ≡ Ok (saved_of (plain_of tree.now))) }
{
    let saved = saved_values(alloc, tree)?;
    encode(alloc, &saved)
}

/// The offsets and texts that are saved, by the ids of the views that have them.
fn saved_values(alloc: Global, tree: &ViewTree) -> Result<BTreeMap<u32, Value>, AllocError>
    requires { OffsetsFit (plain_of tree.now) }
    ensures state { IfOk result (λ saved. IsState last_version saved.entries) }
    ensures entries { IfOk result (λ saved. saved.entries ≡ saved_of (plain_of tree.now)) }
{
    let mut saved = BTreeMap::new(alloc);
    let mut next = tree.root();
    while let Some(view) = next {
        next = tree.next_in_preorder(view);
        note_view(alloc, &mut saved, tree, view)?;
    }
    Ok(saved)
}

/// Notes the offset or the text of a view, if it is saved.
fn note_view(
    alloc: Global,
    saved: &mut BTreeMap<u32, Value>,
    tree: &ViewTree,
    view: Key,
) -> Result<(), AllocError>
    requires live { IsLive tree.now view }
    requires fits { FitsOffset (view_at tree.now view) }
    ensures entries { OnOk result (saved.new.entries ≡ with_view saved.old.entries (view_at tree.now view)) }
    ensures rises { OnOk result (RisesFrom last_version 0 saved.old.entries
        → RisesFrom last_version 0 saved.new.entries) }
    ensures more { OnOk result (length saved.new.entries ≤ length saved.old.entries + 1) }
{
    let facts = tree.facts(view);
    if facts.id == 0 {
        return Ok(());
    }
    let class = tree.class(view);
    if class.scrolls() {
        return note_offset(saved, facts.id, facts.offset);
    }
    if class.has_text() {
        return note_text(alloc, saved, facts.id, tree.text(view));
    }
    Ok(())
}

/// Notes an offset, in the place of what has the same id.
fn note_offset(saved: &mut BTreeMap<u32, Value>, id: u32, offset: i32) -> Result<(), AllocError>
    requires id { 0 < id }
    requires not_negative { pos 0 ≤ℤ offset }
    requires few { offset ≤ℤ pos max_offset }
    ensures entries { OnOk result (saved.new.entries
        ≡ insert_entry nat_cmp saved.old.entries id (OffsetValue (unsigned_abs offset))) }
    ensures rises { OnOk result (RisesFrom last_version 0 saved.old.entries
        → RisesFrom last_version 0 saved.new.entries) }
    ensures more { OnOk result (length saved.new.entries ≤ length saved.old.entries + 1) }
{
    saved.insert(id, Value::Offset(offset.unsigned_abs()))?;
    Ok(())
}

/// Notes a text that is not too long, in the place of what has the same id.
fn note_text(
    alloc: Global,
    saved: &mut BTreeMap<u32, Value>,
    id: u32,
    text: &Text,
) -> Result<(), AllocError>
    requires { 0 < id }
    ensures entries { OnOk result (saved.new.entries ≡ (if nat_lt max_text_bytes (length (encode_utf8_all text.now))
        then saved.old.entries else insert_entry nat_cmp saved.old.entries id (TextValue text.now))) }
    ensures rises { OnOk result (RisesFrom last_version 0 saved.old.entries
        → RisesFrom last_version 0 saved.new.entries) }
    ensures more { OnOk result (length saved.new.entries ≤ length saved.old.entries + 1) }
{
    if text_bytes(text) > MAX_TEXT_BYTES {
        return Ok(());
    }
    let copy = text.copy(alloc)?;
    saved.insert(id, Value::Text(copy))?;
    Ok(())
}

/// The bytes of a state that has these values.
fn encode(alloc: Global, saved: &BTreeMap<u32, Value>) -> Result<Vec<u8>, AllocError>
    requires { IsState last_version saved.now.entries }
    ensures bytes { IfOk result (λ bytes. bytes.items ≡ encoded saved.now.entries) }
    ensures back { IfOk result (λ bytes. decoded bytes.items ≡ Ok saved.now.entries) }
{
    let mut bytes = Vec::new(alloc);
    put_head(&mut bytes, saved.len() as u16)?;
    for (id, value) in saved {
        put_entry(&mut bytes, *id, value)?;
    }
    Ok(bytes)
}
