// The edges that are taken one after another where they close no trail. Each end of each edge has a label, at first its
// vertex. An edge closes a trail exactly where its two labels are equal; when it is taken, the label of its tail becomes
// that of its head wherever it stands, so labels are equal exactly where a trail of taken edges joins the ends. No table of
// vertices is needed, and k edges take k·k steps at most.
ghost use Rattle.std.specs.Prelude.{◌≡◌, ◌<◌, true, length, map, slice_set, nat_eq, if◌then◌else◌, IfOk};
ghost use Rattle.sfm_spec.specs.Sets.{empty_set};
ghost use Rattle.sfm_graphic.specs.{Graphs.{graphic_basis, renamed, taken}, Ends.{edges_of, both_renamed, labels_at}};

use sfm_base::{Memory, Set};
use std::alloc::Global;

/// A label, or another where it is the one that goes.
fn renamed(from: u32, to: u32, label: u32) -> u32
    ensures { result ≡ renamed from to label }
{
    if label == from { to } else { label }
}

/// Puts one label for another wherever it stands.
fn rename(labels: &mut [(u32, u32)], from: u32, to: u32)
    ensures { labels.new ≡ map (both_renamed from to) labels.old }
{
    for pair in labels.iter_mut() {
        *pair = (renamed(from, to, pair.0), renamed(from, to, pair.1));
    }
}

/// Takes an edge to t, unless its labels are equal.
fn take(labels: &mut [(u32, u32)], t: &mut Set, e: usize)
    requires edge { e < length labels.old }
    requires place { e < length t.old }
    ensures labels { labels.new ≡ map (both_renamed (labels_at labels.old e).0
        (labels_at labels.old e).1) labels.old }
    ensures taken { t.new ≡ (if nat_eq (labels_at labels.old e).0
        (labels_at labels.old e).1 then t.old else slice_set t.old e true) }
{
    let (tail, head) = labels[e];
    if tail != head {
        t.insert(e);
        rename(labels, tail, head);
    }
}

/// Takes the edges of a set to t one after another, by the labels of their ends, which are their vertices at first.
fn take_each(labels: &mut [(u32, u32)], s: &Set, t: &mut Set)
    requires places { length s.now ≡ length labels.old }
    requires none { t.old ≡ empty_set (length s.now) }
    ensures { t.new ≡ taken (edges_of labels.old) s.now (length labels.old) }
{
    for e in 0..s.len() {
        if s.contains(e) {
            take(labels, t, e);
        }
    }
}

/// The edges of a set that are taken one after another.
pub(crate) fn grow(alloc: Global, ends: &[(u32, u32)], s: &Set) -> Result<Set, Memory>
    requires { length s.now ≡ length ends.now }
    ensures places { IfOk result (λ t. length t ≡ length s.now) }
    ensures taken { IfOk result (λ t. t ≡ taken (edges_of ends.now) s.now (length ends.now)) }
{
    let mut labels = Vec::from_slice(alloc, ends)?;
    let mut t = Set::empty(alloc, s.len())?;
    take_each(&mut labels, s, &mut t);
    Ok(t)
}

/// The edges that are taken one after another where all may be.
pub(crate) fn basis_of(alloc: Global, ends: &[(u32, u32)]) -> Result<Set, Memory>
    ensures { IfOk result (λ t. t ≡ graphic_basis (edges_of ends.now)) }
{
    let all = Set::whole(alloc, ends.len())?;
    grow(alloc, ends, &all)
}
