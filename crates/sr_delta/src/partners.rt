//! The links of two graphs, matched by key.
ghost use Rattle.std.specs.Prelude.{◌≡◌, ◌≢◌, ℕ, ◌<◌, ◌≤◌, IfSome, IfNone, IfOk};
ghost use Rattle.sr_model.specs.declared.link.LinkNo.{LinkNo as Number};
ghost use Rattle.sr_model.specs.Key.{KeyLt};
ghost use Rattle.sr_model.specs.Graph.{link_count};
ghost use Rattle.sr_model.specs.Case.{key_at};
ghost use Rattle.sr_delta.specs.Partners.{ArePartners, AllBelow};

use sr_graph::Graph;
use sr_model::{LinkKey, LinkNo};
use std::alloc::{AllocError, Global};
use std::cmp::Ordering;

/// The first place from `at` on whose link's key isn't below this one.
fn place_from(graph: &Graph, key: &LinkKey, at: u16) -> u16
    requires within { at ≤ link_count graph.now }
    requires below { AllBelow graph.now at key.now }
    ensures within { result ≤ link_count graph.now }
    ensures below { AllBelow graph.now result key.now }
    ensures first { result < link_count graph.now → KeyLt (key_at graph.now result) key.now → ⊥ }
{
    let count = graph.link_count() as u16;
    for i in at..count {
        match graph.link(LinkNo(i)).key.cmp(key) {
            Ordering::Less => {}
            _ => return i,
        }
    }
    count
}

/// The link at this place, if it has the key.
fn link_with_key(graph: &Graph, key: &LinkKey, at: u16) -> Option<LinkNo>
    requires within { at ≤ link_count graph.now }
    requires below { AllBelow graph.now at key.now }
    requires first { at < link_count graph.now → KeyLt (key_at graph.now at) key.now → ⊥ }
    ensures found { IfSome result (λ (k : Number). (k.0 < link_count graph.now) × (key_at graph.now k.0 ≡ key.now)) }
    ensures none { IfNone result ((k : ℕ) → k < link_count graph.now → key_at graph.now k ≢ key.now) }
{
    if at as u32 >= graph.link_count() {
        return None;
    }
    match graph.link(LinkNo(at)).key.cmp(key) {
        Ordering::Equal => Some(LinkNo(at)),
        _ => None,
    }
}

/// For each link of the graph, by number, the link of the same key in the other graph. Both are gone through once, in
/// order of key.
pub(crate) fn partners(
    alloc: Global,
    graph: &Graph,
    other: &Graph,
) -> Result<Vec<Option<LinkNo>>, AllocError>
    ensures { IfOk result (λ list. ArePartners graph.now other.now list.items) }
{
    let count = graph.link_count();
    let mut list = Vec::with_capacity(alloc, count as usize)?;
    let mut at = 0;
    for l in 0..count as u16 {
        let key = graph.link(LinkNo(l)).key;
        at = place_from(other, &key, at);
        list.push(link_with_key(other, &key, at))?;
    }
    Ok(list)
}
