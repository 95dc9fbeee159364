//! The facts of one element.
ghost use Rattle.std.specs.Prelude.{◌≡◌, ℕ, ◌+◌, ◌^◌, ◌<◌, ◌≤◌, IfOk, Some, length, slice_get};
ghost use Rattle.axml_reader.specs.declared.doc.Node.TheVariants.{Start};
ghost use Rattle.axml_reader.specs.Meaning.{document};
ghost use Rattle.attr_table.specs.Attributes.{known_count};
ghost use Rattle.attr_table.specs.Named.{named_at};
ghost use Rattle.attr_table.specs.Taken.{DraftsAs, IsStart, IsTakenAs, facets};
ghost use Rattle.attr_table.specs.Taking.{attrs_of, facets_at, finished, with_attr, with_attrs, with_known};

use crate::draft::Draft;
use crate::fault::AttrFault;
use crate::known::known_place;
use crate::setting::{drafted, set};
use crate::source::Source;
use crate::table::{HEIGHT, WIDTH, slot_at, takes_at};
use crate::types::THEME;
use crate::values::{find_resource, given};
use axml_reader::{Attr, Doc, Node};
use res_values::Resources;
use std::alloc::Global;
use view_model::refusals::{BAD_VALUE, DUPLICATE, NO_SIZE, THEME_REF};
use view_model::{Facts, Refusal, Text};

/// What the attributes of an element set.
#[derive(Drop)]
pub struct Taken {
    pub facts: Facts,
    pub text: Text,
    /// How many attributes are not known.
    pub ignored: u32,
}

/// What the element that begins at a node sets, with dimensions at a density in dots an inch. A refusal has no detail:
/// the caller knows the number of the element.
pub fn take(
    alloc: Global,
    doc: &Doc,
    node: usize,
    res: &Resources,
    dpi: u32,
) -> Result<Taken, AttrFault>
    requires { IsStart doc.now.nodes.items node }
    ensures value { IsTakenAs (facets_at (document doc.now) res.now dpi node) result }
    ensures named { IfOk result (λ taken. facets taken ≡ named_at (document doc.now) res.now dpi node) }
    ensures few { (line ns name first count : ℕ)
        → slice_get doc.now.nodes.items node ≡ Some (Start line ns name first count)
        → IfOk result (λ taken. taken.ignored ≤ count) }
{
    let source = Source { doc, res, dpi };
    let mut draft = Draft::new(alloc);
    take_attrs(alloc, &source, attrs_of(doc, node), &mut draft)?;
    finish(draft)
}

/// The attributes of the element that begins at a node.
fn attrs_of(doc: &Doc, node: usize) -> &[Attr]
    requires { IsStart doc.now.nodes.items node }
    ensures value { (start : Node)
        → slice_get doc.now.nodes.items node ≡ Some start
        → result.now ≡ attrs_of (document doc.now) start }
    ensures count { (line ns name first count : ℕ)
        → slice_get doc.now.nodes.items node ≡ Some (Start line ns name first count)
        → length result.now ≡ count }
    ensures few { length result.now < 2 ^ 32 }
{
    match doc.nodes[node] {
        Node::Start { first, count, .. } => {
            let first = first as usize;
            &doc.attrs[first..first + count as usize]
        }
        _ => &[],
    }
}

/// Takes one attribute after the other, up to the first refusal.
fn take_attrs(
    alloc: Global,
    source: &Source,
    attrs: &[Attr],
    draft: &mut Draft,
) -> Result<(), AttrFault>
    requires { draft.old.ignored + length attrs.now < 2 ^ 32 }
    ensures value { DraftsAs
        (with_attrs source.now.doc.now.pool source.now.res.now source.now.dpi attrs.now draft.old) draft.new result }
    ensures few { draft.new.ignored ≤ draft.old.ignored + length attrs.now }
{
    for attr in attrs {
        take_attr(alloc, source, *attr, draft)?;
    }
    Ok(())
}

/// Takes one attribute.
fn take_attr(alloc: Global, source: &Source, attr: Attr, draft: &mut Draft) -> Result<(), AttrFault>
    requires { draft.old.ignored + 1 < 2 ^ 32 }
    ensures value { DraftsAs
        (with_attr source.now.doc.now.pool source.now.res.now source.now.dpi attr draft.old) draft.new result }
    ensures few { draft.new.ignored ≤ draft.old.ignored + 1 }
{
    let Some(place) = known_place(&source.doc.pool, attr) else {
        draft.ignored += 1;
        return Ok(());
    };
    take_known(alloc, source, attr, place, draft)
}

/// Takes an attribute that is known.
#[tactic(auto, unfolding(crate::specs::Taking::with_known), using(crate::proofs::TableLaws::verbs))]
fn take_known(
    alloc: Global,
    source: &Source,
    attr: Attr,
    place: usize,
    draft: &mut Draft,
) -> Result<(), AttrFault>
    requires { place < known_count }
    ensures value { DraftsAs
        (with_known source.now.doc.now.pool source.now.res.now source.now.dpi attr place draft.old) draft.new result }
    ensures ignored { draft.new.ignored ≡ draft.old.ignored }
{
    if draft.came[place] {
        return Err(Refusal::plain(DUPLICATE).into());
    }
    if attr.kind == THEME {
        return Err(Refusal::plain(THEME_REF).into());
    }
    let takes = takes_at(place);
    let found = find_resource(source.res, takes, attr)?;
    let Some(given) = given(alloc, source, takes, attr, found)? else {
        return Err(Refusal::plain(BAD_VALUE).into());
    };
    set(slot_at(place), given, draft);
    draft.came[place] = true;
    Ok(())
}

/// The result of a draft, if there was a width and a height.
#[tactic(auto, unfolding(crate::specs::Taking::finished))]
fn finish(draft: Draft) -> Result<Taken, AttrFault>
    ensures value { IsTakenAs (finished draft) result }
    ensures ignored { IfOk result (λ taken. taken.ignored ≡ draft.ignored) }
{
    if !draft.came[WIDTH] || !draft.came[HEIGHT] {
        return Err(Refusal::plain(NO_SIZE).into());
    }
    Ok(Taken {
        facts: drafted(&draft),
        text: draft.text,
        ignored: draft.ignored,
    })
}
