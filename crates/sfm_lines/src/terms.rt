// The term of a line, made of the numbers and the places that were read of it, by the word of the line. Where the numbers of a kind
// break its law, there is none. The term of a line of a transversal rank is made in `sfm_passes`.
ghost use Rattle.std.specs.Prelude.{ℕ, List, length, ℤ, IfOk, MatchOption};
ghost use Rattle.sfm_spec.specs.{Terms.{IsSubmodular}, Kinds.{table_value}};
ghost use Rattle.sfm_concave.specs.ConcaveLaws.{RisesAt};
ghost use Rattle.sfm_lines.specs.{ReadParts.{AreGiven, AreReady, IsTermFor, IsTermMade, parts_of}, declared.word.TermWord.TheVariants.{WeightWord, CutWord, NeedWord, CoverWord, TableWord, ConcaveWord, RankWord}};

use crate::graphic_line::graphic_term;
use crate::groups::laminar_term;
use crate::parts::Parts;
use crate::uniform_line::uniform_term;
use crate::word::{RankKind, TermWord};
use sfm_base::Memory;
use sfm_concave::{Concave, ConcaveEnd};
use sfm_kind::Kind;
use sfm_simple::{Cover, Cut, Need, Table, TableEnd, Weight};
use std::alloc::Global;

/// The term with these numbers at these places.
fn weight_term(alloc: Global, values: &[i128], places: &[usize]) -> Result<Kind, Memory>
    requires { AreGiven WeightWord values.now places.now }
    ensures { IfOk result (IsTermFor WeightWord values.now places.now) }
{
    let weight = Weight::new(alloc, places, values)?;
    Ok(Kind::Weight(weight))
}

/// The term with this number from the first place to the second.
fn cut_term(values: &[i128], places: &[usize]) -> Kind
    requires { AreGiven CutWord values.now places.now }
    ensures { IsTermFor CutWord values.now places.now result }
{
    Kind::Cut(Cut::new(values[0], places[0], places[1]))
}

/// The condition that the first place needs the second.
fn need_term(places: &[usize]) -> Kind
    requires { (values : List ℤ) × AreGiven NeedWord values places.now }
    ensures { (values : List ℤ) → IsTermFor NeedWord values places.now result }
{
    Kind::Need(Need::new(places[0], places[1]))
}

/// The term with this number for meeting these places.
fn cover_term(alloc: Global, values: &[i128], places: &[usize]) -> Result<Kind, Memory>
    requires { AreGiven CoverWord values.now places.now }
    ensures { IfOk result (IsTermFor CoverWord values.now places.now) }
{
    let cover = Cover::new(alloc, values[0], places)?;
    Ok(Kind::Cover(cover))
}

/// The term with these values of the parts of these places, or None where they are those of no submodular function.
fn table_term(alloc: Global, values: &[i128], places: &[usize]) -> Result<Option<Kind>, Memory>
    requires { AreGiven TableWord values.now places.now }
    ensures { IfOk result (λ r. MatchOption r
        (IsSubmodular (length places.now) (table_value values.now) → ⊥)
        (λ term. IsTermFor TableWord values.now places.now term
        × IsSubmodular (length places.now) (table_value values.now))) }
{
    match Table::new(alloc, places, values) {
        Ok(table) => Ok(Some(Kind::Table(table))),
        Err(TableEnd::Memory) => Err(Memory),
        Err(TableEnd::NotZero) => Ok(None),
        Err(TableEnd::LawBroken { .. }) => Ok(None),
    }
}

/// The term with these values of 1, 2, .. of these places, or None where some increment is above the one before.
fn concave_term(alloc: Global, values: &[i128], places: &[usize]) -> Result<Option<Kind>, Memory>
    requires { AreGiven ConcaveWord values.now places.now }
    ensures { IfOk result (λ r. MatchOption r
        ((at : ℕ) × RisesAt values.now at)
        (λ term. IsTermFor ConcaveWord values.now places.now term
        × (((at : ℕ) × RisesAt values.now at) → ⊥))) }
{
    match Concave::new(alloc, places, values) {
        Ok(concave) => Ok(Some(Kind::Concave(concave))),
        Err(ConcaveEnd::Memory) => Err(Memory),
        Err(ConcaveEnd::Rises { .. }) => Ok(None),
    }
}

/// The term of a line of a rank with these parts, or None where its groups break the law of their rank.
fn rank_term(
    alloc: Global,
    parts: &Parts,
    values: &[i128],
    places: &[usize],
) -> Result<Option<Kind>, Memory>
    requires { AreReady RankWord (parts_of parts.now) values.now places.now }
    ensures { IfOk result (IsTermMade RankWord (parts_of parts.now) values.now places.now) }
{
    match parts.rank {
        RankKind::NoRank | RankKind::TransversalRank => Ok(None),
        RankKind::UniformRank => Ok(Some(uniform_term(alloc, values, places)?)),
        RankKind::LaminarRank => laminar_term(alloc, parts, values, places),
        RankKind::GraphicRank => Ok(Some(graphic_term(alloc, parts, values, places)?)),
    }
}

/// The term of a line with these parts, or None where its numbers break the law of their kind.
pub fn make_term(
    alloc: Global,
    word: TermWord,
    parts: &Parts,
    values: &[i128],
    places: &[usize],
) -> Result<Option<Kind>, Memory>
    requires { AreReady word (parts_of parts.now) values.now places.now }
    ensures { IfOk result (IsTermMade word (parts_of parts.now) values.now places.now) }
{
    match word {
        TermWord::WeightWord => Ok(Some(weight_term(alloc, values, places)?)),
        TermWord::CutWord => Ok(Some(cut_term(values, places))),
        TermWord::NeedWord => Ok(Some(need_term(places))),
        TermWord::CoverWord => Ok(Some(cover_term(alloc, values, places)?)),
        TermWord::TableWord => table_term(alloc, values, places),
        TermWord::ConcaveWord => concave_term(alloc, values, places),
        TermWord::RankWord => rank_term(alloc, parts, values, places),
    }
}
