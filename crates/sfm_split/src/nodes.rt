// The demands that a search finds, each with the link by which something can move from it to one that lacks something.
ghost use Rattle.std.specs.Prelude.{◌≡◌, ℕ, ◌<◌, length, IfOk, MatchBool, Some, None};
ghost use Rattle.sfm_split.specs.Search.{node_at, IsFound, IsFoundSet};

use sfm_base::{Memory, Set};
use std::alloc::Global;

/// Two cells on one slot: that of a found demand, and that of the demand that it was found from.
#[derive(Clone, Copy)]
pub struct Link {
    pub own: usize,
    pub other: usize,
}

/// A found demand: by which link something can move from it to one that lacks something; None where it lacks something itself.
/// Its level is above that of the demand that it was found from: as many demands were found before it, or 0 without a link.
#[derive(Clone, Copy)]
pub(crate) struct Node {
    pub level: usize,
    pub link: Option<Link>,
}

/// Whether a demand was found.
pub(crate) fn is_found(nodes: &[Option<Node>], i: usize) -> bool
    requires { i < length nodes.now }
    ensures { MatchBool result (IsFound nodes.now i) (node_at nodes.now i ≡ None) }
{
    nodes[i].is_some()
}

/// The link of a demand, if it was found by one.
pub(crate) fn link_of(nodes: &[Option<Node>], i: usize) -> Option<Link>
    requires { i < length nodes.now }
    ensures { (b : Node) → node_at nodes.now i ≡ Some b → result ≡ b.link }
{
    match nodes[i] {
        Some(node) => node.link,
        None => None,
    }
}

/// The demands that were found, as a set.
pub(crate) fn found_set(alloc: Global, nodes: &[Option<Node>]) -> Result<Set, Memory>
    ensures { IfOk result (λ s. IsFoundSet nodes.now s) }
{
    let mut set = Set::empty(alloc, nodes.len())?;
    for i in 0..nodes.len() {
        if is_found(nodes, i) {
            set.insert(i);
        }
    }
    Ok(set)
}
