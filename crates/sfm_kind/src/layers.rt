// The layers of a rank whose elements have weights. A part of such a rank is worth its number times the greatest weight of an
// independent part of it. The ranks over the elements of each weight or more, each with the step from its weight down to the
// next, add up to it: each is a plain term, and the engine meets no other.
ghost use Rattle.std.specs.{Prelude.{◌≡◌, ◌≢◌, ◌⊎◌, ℕ, ◌<◌, ◌≤◌, ◌^◌, Bool, List, length, slice_get, slice_index_or, IfOk, ℤ, pos, ◌≤ℤ◌, ◌*ℤ◌, Some, IfSome, Option}, List.{All, AllZip}};
ghost use Rattle.sfm_spec.specs.{Bounds.{IsGiven}, Sets.{Has, whole_set, part}, Families.{Meaning, IsAllowed, sum_at}};
ghost use Rattle.sfm_layers.specs.Weights.{IsGreatestWeight, AreLevels};
ghost use Rattle.sfm_kind.specs.{Meanings.{kind_places, IsIndependentIn, factor_of, IsMeaningOf}, Layers.{AreLayers, Brings, IsLayer, IsRankKind, IsWeight}, Restricted.{IsKeptPart, IsRankOver, IsLevelWeighed, level_behind}, declared.kind.Kind.{Kind}};

use crate::descent::{levels_of, places_from};
use crate::kind::Kind;
use sfm_base::{Memory, Set};
use std::alloc::Global;
use std::marker::Model;

/// How many places the layers of a rank have in all, and what all its elements are worth.
#[derive(Clone, Copy, Debug, PartialEq, Eq)]
pub struct Weighed {
    pub places: usize,
    pub size: i128,
}

/// The layers of a rank whose elements have weights, from that of the greatest weight down: at least one.
#[derive(Drop)]
pub struct Layers {
    parts: Vec<Kind>,
}

impl Model for Layers {
    ghost use Rattle.std.specs.Prelude.{◌<◌, List, length};
    ghost use Rattle.sfm_kind.specs.declared.kind.Kind.{Kind};

    ghost Value = { List Kind };

    ghost view = { λ s. s.parts.items };

    ghost invariant = { λ s. 0 < length s.parts.items };
}

impl Layers {
    /// The layers of a rank, with a weight for each of its elements.
    ///
    /// # Errors
    ///
    /// `Memory` where there is none.
    pub fn new(alloc: Global, rank: Kind, weights: &[i128]) -> Result<Layers, Memory>
        requires rank { IsRankKind rank }
        requires each { length weights.now ≡ length (kind_places rank) }
        requires weights { All (IsWeight (10 ^ 15)) weights.now }
        requires small { (r : ℤ) → IsGreatestWeight (IsIndependentIn rank) weights.now
            (whole_set (length weights.now)) r → (factor_of rank *ℤ r) ≤ℤ pos (10 ^ 18) }
        ensures { IfOk result (λ r. AreLayers rank weights.now r) }
    {
        let levels = levels_of(alloc, weights)?;
        let mut parts = Vec::new(alloc);
        for j in 0..levels.len() {
            parts.push(rank.layer_at(alloc, weights, &levels, j)?)?;
        }
        Ok(Layers { parts })
    }

    /// How many layers there are.
    pub fn count(&self) -> usize
        ensures count { result ≡ length self.now }
        ensures some { 0 < length self.now }
    {
        self.parts.len()
    }

    /// Layer j, counted from 0.
    pub fn part(&self, j: usize) -> &Kind
        requires { j < length self.now }
        ensures { slice_get self.now j ≡ Some result.now }
    {
        &self.parts[j]
    }

    /// At each set of the ground the layers of a rank add up to its number times the greatest weight of an independent part of
    /// its elements there (Schrijver, Combinatorial Optimization, section 40). A law, with nothing to do.
    pub fn add_up(&self)
        ensures { (rank : Kind) (weights : List ℤ) → AreLayers rank weights self.now
            → IsRankKind rank → length weights ≡ length (kind_places rank)
            → All (λ a. pos 1 ≤ℤ a) weights → (meant : List Meaning)
            → AllZip IsMeaningOf self.now meant → (s : List Bool)
            → IsAllowed meant s × (r : ℤ)
            × IsGreatestWeight (IsIndependentIn rank) weights (part (kind_places rank) s) r
            × (sum_at meant s ≡ (factor_of rank *ℤ r)) }
    {}

    /// The layers as terms of an instance.
    pub(crate) fn into_parts(self) -> Vec<Kind>
        ensures items { result.items ≡ self }
        ensures some { 0 < length result.items }
    {
        let Layers { parts } = self;
        parts
    }
}

/// The level behind level j, or 0 behind the last.
fn next_level(levels: &[i128], j: usize) -> i128
    requires { j < length levels.now }
    ensures { result ≡ level_behind levels.now j }
{
    if j + 1 < levels.len() {
        return levels[j + 1];
    }
    0
}

impl Kind {
    /// What each independent element of a rank counts; 0 where the term is no rank.
    fn factor(&self) -> i128
        ensures factor { result ≡ factor_of self.now }
        ensures low { pos 0 ≤ℤ result }
        ensures given { IsGiven result }
    {
        match self {
            Kind::Uniform(term) => term.w,
            Kind::Laminar(term) => term.w,
            Kind::Graphic(term) => term.w,
            Kind::Transversal(term) => term.w,
            _ => 0,
        }
    }

    /// How many of the kept elements of a rank are independent together, and no more.
    ///
    /// # Errors
    ///
    /// `Memory` where there is none.
    fn rank_over(&self, alloc: Global, keep: &Set) -> Result<i128, Memory>
        requires rank { IsRankKind self.now }
        requires each { length keep.now ≡ length (kind_places self.now) }
        ensures { IfOk result (λ r. IsRankOver self.now keep.now r) }
    {
        match self {
            Kind::Uniform(term) => Ok((keep.size() as i128).min(term.cap)),
            Kind::Laminar(term) => term.rank(alloc, keep),
            Kind::Graphic(term) => term.rank(alloc, keep),
            Kind::Transversal(term) => term.rank(alloc, keep),
            _ => Err(Memory),
        }
    }

    /// The same rank over the kept elements alone, which each count w.
    ///
    /// # Errors
    ///
    /// `Memory` where there is none.
    fn restricted(&self, alloc: Global, keep: &Set, w: i128) -> Result<Kind, Memory>
        requires rank { IsRankKind self.now }
        requires each { length keep.now ≡ length (kind_places self.now) }
        requires some { (e : ℕ) × Has keep.now e }
        requires low { pos 0 ≤ℤ w }
        requires given { IsGiven w }
        ensures { IfOk result (λ r. IsKeptPart self.now keep.now w r) }
    {
        match self {
            Kind::Uniform(term) => Ok(Kind::Uniform(term.restricted(alloc, keep, w)?)),
            Kind::Laminar(term) => Ok(Kind::Laminar(term.restricted(alloc, keep, w)?)),
            Kind::Graphic(term) => Ok(Kind::Graphic(term.restricted(alloc, keep, w)?)),
            Kind::Transversal(term) => Ok(Kind::Transversal(term.restricted(alloc, keep, w)?)),
            _ => Err(Memory),
        }
    }

    /// What each element of a layer counts: the rank's number times the step, or 0 where none is independent.
    fn layer_factor(&self, rank: i128, step: i128) -> i128
        requires low { pos 0 ≤ℤ step }
        requires high { step ≤ℤ pos (10 ^ 15) }
        ensures { ((rank ≡ pos 0) × (result ≡ pos 0))
            ⊎ ((rank ≢ pos 0) × (result ≡ (factor_of self.now *ℤ step))) }
    {
        if rank == 0 {
            return 0;
        }
        self.factor() * step
    }

    /// The layer of level j of a rank whose elements have weights.
    ///
    /// # Errors
    ///
    /// `Memory` where there is none.
    fn layer_at(
        &self,
        alloc: Global,
        weights: &[i128],
        levels: &[i128],
        j: usize,
    ) -> Result<Kind, Memory>
        requires rank { IsRankKind self.now }
        requires each { length weights.now ≡ length (kind_places self.now) }
        requires weights { All (IsWeight (10 ^ 15)) weights.now }
        requires levels { AreLevels weights.now levels.now }
        requires within { j < length levels.now }
        requires small { (r : ℤ) → IsGreatestWeight (IsIndependentIn self.now) weights.now
            (whole_set (length weights.now)) r → (factor_of self.now *ℤ r) ≤ℤ pos (10 ^ 18) }
        ensures { IfOk result (λ r. IsLayer self.now weights.now
            (slice_index_or levels.now j (pos 0)) (level_behind levels.now j) r) }
    {
        let level = levels[j];
        let step = level - next_level(levels, j);
        let keep = places_from(alloc, weights, level)?;
        let rank = self.rank_over(alloc, &keep)?;
        self.restricted(alloc, &keep, self.layer_factor(rank, step))
    }

    /// What the layer of level j of a rank brings: its places, and what all its elements are worth.
    ///
    /// # Errors
    ///
    /// `Memory` where there is none.
    fn weigh_level(
        &self,
        alloc: Global,
        weights: &[i128],
        levels: &[i128],
        j: usize,
    ) -> Result<Weighed, Memory>
        requires rank { IsRankKind self.now }
        requires each { length weights.now ≡ length (kind_places self.now) }
        requires weights { All (IsWeight (10 ^ 15)) weights.now }
        requires levels { AreLevels weights.now levels.now }
        requires within { j < length levels.now }
        ensures { IfOk result (λ r. IsLevelWeighed self.now weights.now
            (slice_index_or levels.now j (pos 0)) (level_behind levels.now j) r.places r.size) }
    {
        let level = levels[j];
        let step = level - next_level(levels, j);
        let keep = places_from(alloc, weights, level)?;
        let rank = self.rank_over(alloc, &keep)?;
        let each = self.factor() * step;
        Ok(Weighed {
            places: keep.size(),
            size: each * rank,
        })
    }

    /// How many places the layers of a rank with these weights have in all, and what all its elements are worth. It makes no
    /// layers, so it tells this also where there would be too much.
    ///
    /// # Errors
    ///
    /// `Memory` where there is none.
    pub fn weigh(&self, alloc: Global, weights: &[i128]) -> Result<Weighed, Memory>
        requires rank { IsRankKind self.now }
        requires each { length weights.now ≡ length (kind_places self.now) }
        requires weights { All (IsWeight (10 ^ 15)) weights.now }
        ensures { IfOk result (λ r. Brings self.now (Some weights.now) r.places r.size) }
    {
        let levels = levels_of(alloc, weights)?;
        let mut places = 0;
        let mut size = 0;
        for j in 0..levels.len() {
            let level = self.weigh_level(alloc, weights, &levels, j)?;
            places += level.places;
            size += level.size;
        }
        Ok(Weighed { places, size })
    }
}
