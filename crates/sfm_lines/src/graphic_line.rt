// The line `rank`, a number, `graphic`, a colon, and at least one edge `name=vertex-vertex`.
ghost use Rattle.std.specs.{Prelude.{◌≡◌, ◌<◌, ℕ, List, [], ◌∷◌, length, map, ◌^◌, MatchBool, MatchOption, IfOk, codes}, List.{All, AllZip}};
ghost use Rattle.sfm_graphic.specs.Ends.{edges_of};
ghost use Rattle.sfm_lines.specs.{Lines.{texts_of}, Parts.{IsLabelToken, IsLabelledLine}, LabelTerms.{edge_between, numbers_of}, CutParts.{AreLabelled, labelled_parts_of, with_labelled, place_among}, ReadParts.{AreGiven, HasLineParts, IsTermOf, parts_of, label_lists_of, joined}, declared.word.TermWord.TheVariants.{RankWord}, declared.word.RankKind.TheVariants.{GraphicRank}};

use crate::labels::{Labels, different, number_of};
use crate::pair::cut_once;
use crate::parts::Parts;
use crate::rank_head::cut_head;
use crate::word::RankKind;
use indexmap::IndexSet;
use sfm_base::Memory;
use sfm_graphic::Graphic;
use sfm_kind::Kind;
use std::alloc::{AllocError, Global};

/// An element and the two ends of its edge, or None where the token is no edge.
fn cut_edge(token: &[u8]) -> Option<(&[u8], &[u8], &[u8])>
    ensures { MatchOption result
        ((entry : List ℕ × List (List ℕ)) → IsLabelToken GraphicRank token.now entry → ⊥)
        (λ r. IsLabelToken GraphicRank token.now (r.0.now, r.1.now ∷ r.2.now ∷ [])) }
{
    let Some((element, behind)) = cut_once(token, b'=') else {
        return None;
    };
    let Some((tail, head)) = cut_once(behind, b'-') else {
        return None;
    };
    Some((element, tail, head))
}

/// Puts the elements of edges and their ends behind the elements and the labels of a line, up to a token that is no edge, and
/// tells whether there is none.
fn add_edges<'a, 'b>(
    alloc: Global,
    parts: &mut Parts<'a, 'b>,
    tokens: &[&'a [u8]],
) -> Result<bool, AllocError>
    ensures { IfOk result (λ r. MatchBool r
        ((entries : List (List ℕ × List (List ℕ)))
        × AllZip (IsLabelToken GraphicRank) (texts_of tokens.now) entries
        × (parts_of parts.new ≡ with_labelled (parts_of parts.old) entries))
        ((entries : List (List ℕ × List (List ℕ)))
        → AllZip (IsLabelToken GraphicRank) (texts_of tokens.now) entries → ⊥)) }
{
    for token in tokens {
        let Some((element, tail, head)) = cut_edge(token) else {
            return Ok(false);
        };
        parts.elements.push(element)?;
        let texts = vec![in alloc; tail, head]?;
        parts.labels.push(Labels { texts })?;
    }
    Ok(true)
}

/// The parts of a line with this number and these tokens behind the colon, or None where they do not have the line's shape.
fn edge_parts<'a, 'b>(
    alloc: Global,
    number: &'a [u8],
    tokens: &[&'a [u8]],
) -> Result<Option<Parts<'a, 'b>>, AllocError>
    ensures { IfOk result (λ r. MatchOption r
        ((entries : List (List ℕ × List (List ℕ)))
        → AreLabelled GraphicRank (texts_of tokens.now) entries → ⊥)
        (λ parts. (entries : List (List ℕ × List (List ℕ)))
        × AreLabelled GraphicRank (texts_of tokens.now) entries
        × (parts_of parts ≡ labelled_parts_of GraphicRank number.now entries))) }
{
    if tokens.is_empty() {
        return Ok(None);
    }
    let mut parts = Parts::copied(alloc, RankKind::GraphicRank, &[number], &[])?;
    if !add_edges(alloc, &mut parts, tokens)? {
        return Ok(None);
    }
    Ok(Some(parts))
}

/// The parts of the tokens behind the word, or None where they do not have the line's shape.
pub fn graphic_parts<'a, 'b>(
    alloc: Global,
    tokens: &'b [&'a [u8]],
) -> Result<Option<Parts<'a, 'b>>, AllocError>
    ensures { IfOk result (HasLineParts (IsLabelledLine GraphicRank (codes "graphic"))
        (texts_of tokens.now)) }
{
    let Some((number, behind)) = cut_head(b"graphic", tokens) else {
        return Ok(None);
    };
    edge_parts(alloc, number, behind)
}

/// The ends of the edges, by the places of their names among these.
fn ends(
    alloc: Global,
    names: &IndexSet<&[u8]>,
    labels: &[Labels],
) -> Result<Vec<(u32, u32)>, Memory>
    requires few { length names.now.keys < 2 ^ 24 }
    requires two { All (λ texts. length texts ≡ 2) (label_lists_of labels.now) }
    ensures { IfOk result (λ r. edges_of r.items ≡ map
        (λ texts. edge_between (map (place_among (texts_of names.now.keys)) texts))
        (label_lists_of labels.now)) }
{
    let mut ends = Vec::new(alloc);
    for element in labels {
        let tail = number_of(names, element.texts[0]);
        let head = number_of(names, element.texts[1]);
        ends.push((tail, head))?;
    }
    Ok(ends)
}

/// The ends of the edges with these labels, by the places of their names among the different ones.
fn numbered_ends(alloc: Global, labels: &[Labels]) -> Result<Vec<(u32, u32)>, Memory>
    requires few { length (joined (label_lists_of labels.now)) < 2 ^ 24 }
    requires two { All (λ texts. length texts ≡ 2) (label_lists_of labels.now) }
    ensures { IfOk result (λ r. edges_of r.items ≡ map edge_between
        (numbers_of (label_lists_of labels.now))) }
{
    let names = different(alloc, labels)?;
    ends(alloc, &names, labels)
}

/// The term with the first number for each edge of a greatest forest.
pub fn graphic_term(
    alloc: Global,
    parts: &Parts,
    values: &[i128],
    places: &[usize],
) -> Result<Kind, Memory>
    requires rank { (parts_of parts.now).rank ≡ GraphicRank }
    requires given { AreGiven RankWord values.now places.now }
    requires one { length values.now ≡ 1 }
    requires few { length (joined (parts_of parts.now).labels) < 2 ^ 24 }
    requires two { All (λ texts. length texts ≡ 2) (parts_of parts.now).labels }
    requires each { length (parts_of parts.now).labels ≡ length places.now }
    ensures { IfOk result (IsTermOf RankWord (parts_of parts.now) values.now places.now) }
{
    let ends = numbered_ends(alloc, &parts.labels)?;
    let graphic = Graphic::new(alloc, places, values[0], &ends)?;
    Ok(Kind::Graphic(graphic))
}
