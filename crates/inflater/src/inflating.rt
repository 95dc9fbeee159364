//! All views of a document.
ghost use Rattle.axml_reader.specs.Meaning.{document};
ghost use Rattle.inflater.specs.Answers.{GrownAs};
ghost use Rattle.inflater.specs.Inflating.{inflated};

use crate::element::element_view;
use crate::fault::GrowFault;
use crate::grown::Grown;
use attr_table::Source;
use axml_reader::{Doc, Node};
use res_values::Resources;
use std::alloc::Global;
use view_model::{Sapling, Sprout};

/// The views of a document. Sizes are those of a screen of `dpi` dots an inch; `res` has the values that attributes
/// name by their ids.
pub fn inflate(alloc: Global, doc: &Doc, res: &Resources, dpi: u32) -> Result<Grown, GrowFault>
    ensures { GrownAs (inflated (document doc.now) res.now dpi) result }
{
    let source = Source { doc, res, dpi };
    let mut sprouts = Vec::new(alloc);
    let mut depth: u32 = 0;
    let mut element: u32 = 0;
    let mut ignored: u32 = 0;
    for node in 0..doc.nodes.len() {
        match doc.nodes[node] {
            Node::Start { name, .. } => {
                depth += 1;
                element += 1;
                let view = element_view(alloc, &source, node, name, element)?;
                ignored += view.taken.ignored;
                sprouts.push(Sprout {
                    class: view.class,
                    facts: view.taken.facts,
                    text: view.taken.text,
                    depth,
                })?;
            }
            Node::End { .. } => depth -= 1,
            Node::NsStart { .. } => (),
            Node::NsEnd { .. } => (),
            Node::Chars { .. } => (),
        }
    }
    Ok(Grown {
        sapling: Sapling { sprouts },
        ignored,
    })
}
