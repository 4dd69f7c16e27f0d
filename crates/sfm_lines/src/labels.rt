// The labels of the elements of a line: the ends of edges, or the slots of entries. Whether they have the form of names, and the
// numbers that stand for them. Equal labels of a line have one number, and the numbers go up from 0 in the order in which labels
// first appear, as an insertion into a set in that order counts them.
ghost use Rattle.std.specs.{Prelude.{◌≡◌, ◌<◌, ◌^◌, ◌++◌, ℕ, List, length, map, Any, IfOk, OnOk, MatchBool}, List.{All}};
ghost use Rattle.sfm_spec.specs.Names.{IsName};
ghost use Rattle.sfm_lines.specs.{Lines.{texts_of}, LabelTerms.{distinct_of}, CutParts.{place_among}, ReadParts.{label_lists_of, joined}};

use crate::names::are_names;
use indexmap::IndexSet;
use sfm_base::Memory;
use std::alloc::Global;

/// The labels of an element.
#[derive(Drop)]
pub struct Labels<'a> {
    pub texts: Vec<&'a [u8]>,
}

/// Whether each label of each element has the form of a name.
pub fn are_labels(labels: &[Labels]) -> bool
    ensures { MatchBool result
        (All (λ texts. All IsName texts) (label_lists_of labels.now))
        (Any (λ texts. Any (λ text. IsName text → ⊥) texts) (label_lists_of labels.now)) }
{
    for element in labels {
        if !are_names(&element.texts) {
            return false;
        }
    }
    true
}

/// Puts those of the texts that are new behind the names.
pub fn add_names<'a>(names: &mut IndexSet<&'a [u8]>, texts: &[&'a [u8]]) -> Result<(), Memory>
    ensures { OnOk result ((before : List (List ℕ)) → texts_of names.old.keys ≡ distinct_of before
        → texts_of names.new.keys ≡ distinct_of (before ++ texts_of texts.now)) }
{
    for text in texts {
        names.insert(*text)?;
    }
    Ok(())
}

/// The different labels of a line, in the order in which they first appear.
pub fn different<'a>(alloc: Global, labels: &[Labels<'a>]) -> Result<IndexSet<&'a [u8]>, Memory>
    ensures { IfOk result (λ r. texts_of r.keys ≡ distinct_of
        (joined (label_lists_of labels.now))) }
{
    let mut names = IndexSet::new(alloc);
    for element in labels {
        add_names(&mut names, &element.texts)?;
    }
    Ok(names)
}

/// The number of a label: its place among the different ones, of which a line of the permitted length has less than 2^24.
pub fn number_of(names: &IndexSet<&[u8]>, label: &[u8]) -> u32
    requires few { length names.now.keys < 2 ^ 24 }
    ensures number { result ≡ place_among (texts_of names.now.keys) label.now }
    ensures small { result < 2 ^ 24 }
{
    let number = names.get_index_of(label).unwrap_or(names.len());
    number as u32
}

/// The numbers of labels.
pub fn numbers(alloc: Global, names: &IndexSet<&[u8]>, labels: &[&[u8]]) -> Result<Vec<u32>, Memory>
    requires few { length names.now.keys < 2 ^ 24 }
    ensures numbers { IfOk result (λ r. r.items ≡ map (place_among (texts_of names.now.keys))
        (texts_of labels.now)) }
    ensures small { IfOk result (λ r. All (λ v. v < 2 ^ 24) r.items) }
{
    let mut numbers = Vec::new(alloc);
    for label in labels {
        numbers.push(number_of(names, label))?;
    }
    Ok(numbers)
}
