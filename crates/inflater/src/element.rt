//! The view of one element.
ghost use Rattle.std.specs.Prelude.{◌≡◌, ℕ, ◌≤◌, Some, slice_get, IfOk};
ghost use Rattle.attr_table.specs.Taken.{IsStart};
ghost use Rattle.attr_table.specs.Taking.{facets_at};
ghost use Rattle.axml_reader.specs.declared.doc.Node.TheVariants.{Start};
ghost use Rattle.axml_reader.specs.Meaning.{document};
ghost use Rattle.view_model.specs.Refusals.{plain_refusal};
ghost use Rattle.inflater.specs.ClassNames.{class_in};
ghost use Rattle.inflater.specs.Inflating.{refused_in, view_with};
ghost use Rattle.inflater.specs.Answers.{ViewedAs};
ghost use Rattle.view_model.specs.RefusalNumbers.{IsFirstOrLater, IsLastOrEarlier};

use crate::classes::class_of;
use crate::fault::GrowFault;
use attr_table::{Source, Taken, take};
use std::alloc::Global;
use view_model::refusals::UNKNOWN_CLASS;
use view_model::{Class, Detail, Refusal};

/// The class of an element, and what its attributes set.
#[derive(Drop)]
pub(crate) struct ElementView {
    pub(crate) class: Class,
    pub(crate) taken: Taken,
}

/// A refusal that is reported for an element.
fn refused_in(element: u32, number: u8) -> Refusal
    requires first { IsFirstOrLater number }
    requires last { IsLastOrEarlier number }
    ensures { plain_refusal result ≡ refused_in element number }
{
    Refusal {
        number,
        detail: Detail::Element(element),
    }
}

/// The view of the element that begins at node `node`. `name` is the number of its name's string, `element` how many
/// elements begin up to it.
#[tactic(auto, unfolding(crate::specs::Inflating::view_with))]
pub fn element_view(
    alloc: Global,
    source: &Source,
    node: usize,
    name: u32,
    element: u32,
) -> Result<ElementView, GrowFault>
    requires { IsStart source.now.doc.now.nodes.items node }
    ensures value { ViewedAs (view_with element (class_in (slice_get source.now.doc.now.pool.texts name))
        (facets_at (document source.now.doc.now) source.now.res.now source.now.dpi node)) result }
    ensures few { (line ns name first count : ℕ)
        → slice_get source.now.doc.now.nodes.items node ≡ Some (Start line ns name first count)
        → IfOk result (λ view. view.taken.ignored ≤ count) }
{
    let class = match source.doc.pool.text(name) {
        Some(name) => class_of(name),
        None => None,
    };
    let Some(class) = class else {
        return Err(GrowFault::Refused(refused_in(element, UNKNOWN_CLASS)));
    };
    match take(alloc, source.doc, node, source.res, source.dpi) {
        Ok(taken) => Ok(ElementView { class, taken }),
        Err(GrowFault::Refused(refusal)) => {
            Err(GrowFault::Refused(refused_in(element, refusal.number)))
        }
        Err(GrowFault::NoMemory) => Err(GrowFault::NoMemory),
    }
}
