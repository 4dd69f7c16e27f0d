// A concave function of the count of a part. What a part leaves of its value is its slack, and a base leaves none negative.
// Of the parts of one count those with the greatest entries leave least; and of these, only those that have all the entries above
// some entry need to be tried: with u put in and v taken out for the room of (u, v). For a row the parts of the greatest entries
// are tried from u's own entry on, one size after another: the first that leaves nothing tells the row.
ghost use Rattle.std.specs.{Prelude.{◌≡◌, ◌↔◌, ℕ, ◌<◌, ◌≤◌, ◌^◌, Bool, false, List, length, slice_set, pos, IfOk, IfSome, MatchOption, OnOk, IsTrue, Err}, Int.{int_min}, List.{All}};
ghost use Rattle.sfm_spec.specs.{Bounds.{IsAtMost, IsEntry, IsFactor, IsGiven, AreElements}, Sets.{whole_set}, Terms.{times, IsBase, IsGreedy}, Kinds.{concave_value}};
ghost use Rattle.sfm_law.specs.{Based.{IsPair}, Values.{greatest}};
ghost use Rattle.sfm_concave.specs.{Rankings.{IsRanking}, Thresholds.{above, slack, IsShareOf, IsSomeShare, slack_from, IsLeastSlack, IsBar, IsLastTight, NoneTight, LeavesAbove}, ConcaveLaws.{number_of, scaled, IsFirstRise, NeverRises, gain_of, concave_start, concave-family, concave-submodular, concave-bounded, concave-starts, concave-starts_small, concave-starts_times}};

use crate::ranking::{FEW, Ranking, RankingArrays, RankingView, count_upto, count_upto_place};
use crate::rise::first_rise;
use crate::share::{Share, share_above, share_between, share_beyond, share_from, share_without};
use sfm_base::{Memory, Numbers, Places, Set};
use sfm_law::{
    At, Plain, Room, Swap, greatest_magnitude, has_sum, product, put_others_over, write_each,
};
use std::alloc::Global;

/// Why numbers make no concave function.
#[derive(Clone, Copy, Debug, PartialEq, Eq)]
pub enum ConcaveEnd {
    /// Increment number `at`, counted from 1, is the first that is above the one before.
    Rises { at: usize },
    /// Want of memory.
    Memory,
}

impl From<Memory> for ConcaveEnd {
    ghost use Rattle.sfm_concave.specs.declared.concave.ConcaveEnd.TheVariants.{Memory};

    ghost from_gives = { λ _ e. e ≡ Memory };

    fn from(_: Memory) -> Self {
        ConcaveEnd::Memory
    }
}

/// A concave function of the count of a part (Schrijver, Combinatorial Optimization, section 44).
#[derive(Drop)]
pub struct Concave {
    pub places: Places,
    /// The numbers of 1, 2, .. places.
    pub values: Numbers,
    /// The greatest magnitude of a number.
    pub most: i128,
    pub ghost elements: { AreElements places },
    pub ghost few: { length places ≤ 256 },
    pub ghost counted: { length values ≡ length places },
    pub ghost given: { All IsGiven values },
    pub ghost falling: { NeverRises values },
    pub ghost topped: { most ≡ greatest values },
}

impl Concave {
    /// The term with these numbers for 1, 2, .. of the elements; both lists are copied. The increments are compared before
    /// memory is asked for.
    pub fn new(alloc: Global, elements: &[usize], values: &[i128]) -> Result<Concave, ConcaveEnd>
        requires elements { AreElements elements.now }
        requires counted { length values.now ≡ length elements.now }
        requires given { All IsGiven values.now }
        ensures rises { (at : ℕ) → (result ≡ Err (ConcaveEnd.Rises at))
            ↔ IsFirstRise values.now at }
        ensures falling { OnOk result (NeverRises values.now) }
        ensures places { IfOk result (λ r. r.places ≡ elements.now) }
        ensures values { IfOk result (λ r. r.values ≡ values.now) }
    {
        if let Some(at) = first_rise(values) {
            return Err(ConcaveEnd::Rises { at });
        }
        let most = greatest_magnitude(values);
        let places = Places::from_slice(alloc, elements)?;
        let values = Numbers::from_slice(alloc, values)?;
        Ok(Concave {
            places,
            values,
            most,
        })
    }

    /// A term that is equal in every part.
    ///
    /// # Errors
    ///
    /// `Memory` where there is none.
    pub fn copy(&self, alloc: Global) -> Result<Concave, Memory>
        ensures { IfOk result (λ r. r ≡ self.now) }
    {
        let places = Places::from_slice(alloc, self.places.as_slice())?;
        let values = Numbers::from_slice(alloc, self.values.as_slice())?;
        Ok(Concave {
            places,
            values,
            most: self.most,
        })
    }

    /// The number of a count of places.
    fn number(&self, count: usize) -> i128
        requires { count ≤ length self.now.values }
        ensures value { result ≡ number_of self.now.values count }
        ensures given { IsGiven result }
    {
        if count == 0 {
            return 0;
        }
        self.values.as_slice()[count - 1]
    }

    /// The number of a count of places, q times.
    fn scaled(&self, q: i128, count: usize) -> i128
        requires factor { IsFactor q }
        requires count { count ≤ length self.now.values }
        ensures value { result ≡ scaled q self.now.values count }
        ensures small { IsAtMost (10 ^ 27) result }
    {
        product(q, self.number(count))
    }

    /// What the place j adds to those before it, q times.
    fn gain(&self, q: i128, j: usize) -> i128
        requires factor { IsFactor q }
        requires place { j < length self.now.values }
        ensures { result ≡ gain_of q self.now.values j }
    {
        self.scaled(q, j + 1) - self.scaled(q, j)
    }

    /// What a part with a share leaves of q times its value.
    fn slack(&self, q: i128, _x: &[i128], share: Share) -> i128
        requires factor { IsFactor q }
        requires entries { length _x.now ≡ length self.now.places }
        requires small { All IsEntry _x.now }
        requires share { IsSomeShare share.count share.sum _x.now }
        ensures { (s : List Bool) → IsShareOf share.count share.sum _x.now s
            → result ≡ slack (scaled q self.now.values) _x.now s }
    {
        self.scaled(q, share.count) - share.sum
    }

    /// What the places above a number leave, by a ranking if there is one.
    fn slack_above(&self, q: i128, x: &[i128], ranking: Option<RankingView>, bar: i128) -> i128
        requires factor { IsFactor q }
        requires entries { length x.now ≡ length self.now.places }
        requires small { All IsEntry x.now }
        requires ranked { IfSome ranking (λ r. IsRanking x.now r.sorted.now r.sums.now) }
        ensures { result ≡ slack (scaled q self.now.values) x.now (above bar x.now) }
    {
        self.slack(q, x, share_above(x, ranking, bar))
    }

    /// What all places but v leave.
    fn slack_without(&self, at: &At<'_>, v: usize) -> i128
        requires factor { IsFactor at.now.q }
        requires entries { length at.now.x.now ≡ length self.now.places }
        requires small { All IsEntry at.now.x.now }
        requires onto { v < length at.now.x.now }
        ensures { result ≡ slack (scaled at.now.q self.now.values) at.now.x.now
            (slice_set (whole_set (length at.now.x.now)) v false) }
    {
        self.slack(at.q, at.x, share_without(at.x, v))
    }

    /// The lesser of a number and what a part with a share leaves.
    fn lesser_slack(&self, at: &At<'_>, share: Share, least: i128) -> i128
        requires factor { IsFactor at.now.q }
        requires entries { length at.now.x.now ≡ length self.now.places }
        requires small { All IsEntry at.now.x.now }
        requires share { IsSomeShare share.count share.sum at.now.x.now }
        ensures { (s : List Bool) → IsShareOf share.count share.sum at.now.x.now s
            → result ≡ int_min least (slack (scaled at.now.q self.now.values) at.now.x.now s) }
    {
        least.min(self.slack(at.q, at.x, share))
    }

    /// Whether the places above each entry leave something.
    fn is_within(&self, q: i128, x: &[i128]) -> bool
        requires factor { IsFactor q }
        requires entries { length x.now ≡ length self.now.places }
        requires small { All IsEntry x.now }
        ensures { IsTrue result ↔ LeavesAbove (scaled q self.now.values) x.now }
    {
        if x.len() <= FEW {
            return self.is_within_by(q, x, None);
        }
        self.is_within_ranked(q, x)
    }

    /// The same, by a ranking. This stands apart, since a function pays as it begins for the room of all that it holds.
    fn is_within_ranked(&self, q: i128, x: &[i128]) -> bool
        requires factor { IsFactor q }
        requires entries { length x.now ≡ length self.now.places }
        requires small { All IsEntry x.now }
        ensures { IsTrue result ↔ LeavesAbove (scaled q self.now.values) x.now }
    {
        let ranking = RankingArrays::new(x);
        self.is_within_by(q, x, Some(ranking.view()))
    }

    /// The same, by a ranking if there is one.
    fn is_within_by(&self, q: i128, x: &[i128], ranking: Option<RankingView>) -> bool
        requires factor { IsFactor q }
        requires entries { length x.now ≡ length self.now.places }
        requires small { All IsEntry x.now }
        requires ranked { IfSome ranking (λ r. IsRanking x.now r.sorted.now r.sums.now) }
        ensures { IsTrue result ↔ LeavesAbove (scaled q self.now.values) x.now }
    {
        for a in x {
            if self.slack_above(q, x, ranking, *a) < 0 {
                return false;
            }
        }
        true
    }

    /// The least slack of a part with u and not v, by the ranking that is kept if there is one.
    fn least_slack(&self, at: &At<'_>, note: Option<&Ranking>, u: usize, v: usize) -> i128
        requires factor { IsFactor at.now.q }
        requires entries { length at.now.x.now ≡ length self.now.places }
        requires small { All IsEntry at.now.x.now }
        requires noted { IfSome note (λ n. IsRanking at.now.x.now n.now.sorted.items
            n.now.sums.items) }
        requires pair { IsPair u v at.now.x.now }
        ensures { IsLeastSlack (scaled at.now.q self.now.values) at.now.x.now u v result }
    {
        if let Some(note) = note {
            return self.least_slack_by(at, note.view(), u, v);
        }
        if at.x.len() <= FEW {
            return self.least_slack_scanned(at, u, v);
        }
        self.least_slack_ranked(at, u, v)
    }

    /// The same, by a ranking.
    fn least_slack_ranked(&self, at: &At<'_>, u: usize, v: usize) -> i128
        requires factor { IsFactor at.now.q }
        requires entries { length at.now.x.now ≡ length self.now.places }
        requires small { All IsEntry at.now.x.now }
        requires pair { IsPair u v at.now.x.now }
        ensures { IsLeastSlack (scaled at.now.q self.now.values) at.now.x.now u v result }
    {
        let ranking = RankingArrays::new(at.x);
        self.least_slack_by(at, ranking.view(), u, v)
    }

    /// The same, by a look at all entries for each entry.
    fn least_slack_scanned(&self, at: &At<'_>, u: usize, v: usize) -> i128
        requires factor { IsFactor at.now.q }
        requires entries { length at.now.x.now ≡ length self.now.places }
        requires small { All IsEntry at.now.x.now }
        requires pair { IsPair u v at.now.x.now }
        ensures { IsLeastSlack (scaled at.now.q self.now.values) at.now.x.now u v result }
    {
        let mut least = self.slack_without(at, v);
        for a in at.x {
            let share = share_between(at.x, share_above(at.x, None, *a), *a, u, v);
            least = self.lesser_slack(at, share, least);
        }
        least
    }

    /// The same, by a ranking: one entry after another, from the greatest to the least.
    fn least_slack_by(&self, at: &At<'_>, ranking: RankingView, u: usize, v: usize) -> i128
        requires factor { IsFactor at.now.q }
        requires entries { length at.now.x.now ≡ length self.now.places }
        requires small { All IsEntry at.now.x.now }
        requires ranked { IsRanking at.now.x.now ranking.sorted.now ranking.sums.now }
        requires pair { IsPair u v at.now.x.now }
        ensures { IsLeastSlack (scaled at.now.q self.now.values) at.now.x.now u v result }
    {
        let mut least = self.slack_without(at, v);
        let mut upto = ranking.sorted.len();
        for i in (0..ranking.sorted.len()).rev() {
            upto = count_upto_place(ranking.sorted, i, upto);
            let bar = ranking.sorted[i];
            let share = share_between(at.x, share_beyond(at.x, ranking, bar, upto), bar, u, v);
            least = self.lesser_slack(at, share, least);
        }
        least
    }

    /// What all places but the i least leave.
    fn slack_from(&self, at: &At<'_>, ranking: RankingView, i: usize) -> i128
        requires factor { IsFactor at.now.q }
        requires entries { length at.now.x.now ≡ length self.now.places }
        requires small { All IsEntry at.now.x.now }
        requires ranked { IsRanking at.now.x.now ranking.sorted.now ranking.sums.now }
        requires place { i ≤ length ranking.sorted.now }
        ensures { result ≡ slack_from (scaled at.now.q self.now.values) ranking.entry.sorted.now i }
    {
        let rest = share_from(at.x, ranking, i);
        self.scaled(at.q, rest.count) - rest.sum
    }

    /// Whether all places but the i least leave nothing.
    fn is_tight(&self, at: &At<'_>, ranking: RankingView, i: usize) -> bool
        requires factor { IsFactor at.now.q }
        requires entries { length at.now.x.now ≡ length self.now.places }
        requires small { All IsEntry at.now.x.now }
        requires ranked { IsRanking at.now.x.now ranking.sorted.now ranking.sums.now }
        requires place { i ≤ length ranking.sorted.now }
        ensures { IsTrue result ↔ (slack_from (scaled at.now.q self.now.values)
            ranking.entry.sorted.now i ≡ pos 0) }
    {
        self.slack_from(at, ranking, i) == 0
    }

    /// The last number before `own`, but for 0, for which this is so, if there is one.
    fn last_tight(&self, at: &At<'_>, ranking: RankingView, own: usize) -> Option<usize>
        requires factor { IsFactor at.now.q }
        requires entries { length at.now.x.now ≡ length self.now.places }
        requires small { All IsEntry at.now.x.now }
        requires ranked { IsRanking at.now.x.now ranking.sorted.now ranking.sums.now }
        requires place { own ≤ length ranking.sorted.now }
        ensures { MatchOption result (NoneTight (scaled at.now.q self.now.values)
            ranking.entry.sorted.now own) (IsLastTight (scaled at.now.q self.now.values)
            ranking.entry.sorted.now own) }
    {
        for i in (1..own).rev() {
            if self.is_tight(at, ranking, i) {
                return Some(i);
            }
        }
        None
    }

    /// The greatest entry to which u has no room at a base, if there is one. It is u's own where u and the places above u leave
    /// nothing; else the one below the last place before u's, in ascending order, from which on the places leave nothing.
    fn bar_by(&self, at: &At<'_>, ranking: RankingView, u: usize) -> Option<i128>
        requires factor { IsFactor at.now.q }
        requires entries { length at.now.x.now ≡ length self.now.places }
        requires small { All IsEntry at.now.x.now }
        requires base { IsBase (times at.now.q (concave_value self.now.values)) at.now.x.now }
        requires ranked { IsRanking at.now.x.now ranking.sorted.now ranking.sums.now }
        requires from { u < length at.now.x.now }
        ensures { IsBar (scaled at.now.q self.now.values) at.now.x.now u result }
    {
        let own = count_upto(ranking.sorted, at.x[u]) - 1;
        if self.is_tight(at, ranking, own) {
            return Some(at.x[u]);
        }
        let i = self.last_tight(at, ranking, own)?;
        Some(ranking.sorted[i - 1])
    }

    /// The same, by a ranking that is made for it.
    fn bar_made(&self, at: &At<'_>, u: usize) -> Option<i128>
        requires factor { IsFactor at.now.q }
        requires entries { length at.now.x.now ≡ length self.now.places }
        requires small { All IsEntry at.now.x.now }
        requires base { IsBase (times at.now.q (concave_value self.now.values)) at.now.x.now }
        requires from { u < length at.now.x.now }
        ensures { IsBar (scaled at.now.q self.now.values) at.now.x.now u result }
    {
        let ranking = RankingArrays::new(at.x);
        self.bar_by(at, ranking.view(), u)
    }

    /// The same, by the ranking that is kept if there is one.
    fn bar(&self, at: &At<'_>, note: Option<&Ranking>, u: usize) -> Option<i128>
        requires factor { IsFactor at.now.q }
        requires entries { length at.now.x.now ≡ length self.now.places }
        requires small { All IsEntry at.now.x.now }
        requires base { IsBase (times at.now.q (concave_value self.now.values)) at.now.x.now }
        requires noted { IfSome note (λ n. IsRanking at.now.x.now n.now.sorted.items
            n.now.sums.items) }
        requires from { u < length at.now.x.now }
        ensures { IsBar (scaled at.now.q self.now.values) at.now.x.now u result }
    {
        match note {
            Some(note) => self.bar_by(at, note.view(), u),
            None => self.bar_made(at, u),
        }
    }
}

impl Plain for Concave {
    type Note = Ranking;

    ghost places = { λ s. s.places };

    ghost value_of = { λ s. concave_value s.values };

    ghost size_of = { λ s. greatest s.values };

    ghost start_of = { λ s q. concave_start q s.values (length s.places) };

    ghost fits = { λ s note q x. IsRanking x note.sorted.items note.sums.items };

    ghost family = { λ s. concave-family s.values };

    ghost submodular = { λ s. concave-submodular _ s.values s.counted s.falling };

    ghost bounded = { λ s t a h e. concave-bounded s.values t a e };

    ghost starts = { λ s q low. concave-starts _ q s.values low s.counted s.falling };

    ghost starts_small = { λ s q low. concave-starts_small _ q s.values low };

    ghost starts_times = { λ s q. concave-starts_times (length s.places) q s.values };

    fn elements_of(&self) -> &[usize] {
        self.places.as_slice()
    }

    fn size_of(&self) -> i128 {
        self.most
    }

    /// The value of a part: every part is allowed.
    fn value_of(&self, _alloc: Global, s: &Set) -> Result<Option<i128>, Memory> {
        Ok(Some(self.number(s.size())))
    }

    /// Writes what each place adds to those before it: the greedy base.
    fn start_of(&self, q: i128, x: &mut [i128])
        requires factor { IsFactor q }
        requires entries { length x.old ≡ length self.now.places }
        ensures start { x.new ≡ concave_start q self.now.values (length self.now.places) }
        ensures greedy { IsGreedy q (concave_value self.now.values) (length self.now.places) x.new }
    {
        write_each(x, |j| self.gain(q, j));
    }

    /// Whether x is a base of q times the term.
    fn is_base_of(&self, q: i128, x: &[i128]) -> bool {
        has_sum(x, self.scaled(q, x.len())) && self.is_within(q, x)
    }

    /// The room of (u, v) at a base, by the ranking that is kept beside it if there is one: the least slack of a part with u
    /// and not v.
    fn room_of(&self, at: &At<'_>, note: Option<&Ranking>, u: usize, v: usize) -> Room {
        Room::Upto(self.least_slack(at, note, u, v))
    }

    /// Writes the places other than u to which u has room at a base, by the ranking that is kept beside it if there is one:
    /// those above the greatest entry to which it has none.
    fn reach_of(&self, at: &At<'_>, note: Option<&Ranking>, u: usize, to: &mut Set) {
        put_others_over(at.x, u, self.bar(at, note, u), to);
    }

    fn note_of(&self, alloc: Global, at: &At<'_>) -> Result<Ranking, Memory> {
        Ranking::new(alloc, at.x)
    }

    fn note_moved(&self, at: &At<'_>, note: &mut Ranking, swap: &Swap) {
        note.exchange(at.x, swap);
    }
}
