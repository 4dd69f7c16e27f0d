// How many places a set has, and what they have in all, for the sets of places above an entry: by the ranking of the entries
// where there is one, else by a look at each.
ghost use Rattle.std.specs.{Prelude.{◌≡◌, ◌≢◌, ◌-◌, ◌<◌, ◌≤◌, ◌^◌, Bool, IfSome, List, true, false, drop, length, slice_index_or, slice_set}, List.{All}};
ghost use Rattle.sfm_spec.specs.{Bounds.{IsAtMost, IsEntry, total_of}, Sets.{Has, whole_set}};
ghost use Rattle.sfm_concave.specs.{Thresholds.{above, above_with, above_between, IsShareOf, IsSomeShare}, Rankings.{IsCut, IsRanking}};

use crate::ranking::{RankingView, count_upto};
use sfm_law::sum_of;

/// A count of places, and the sum of their entries.
#[derive(Clone, Copy, PartialEq, Eq)]
pub(crate) struct Share {
    pub count: usize,
    pub sum: i128,
}

/// The share of all places but the `upto` least, by the ranking of the entries.
pub(crate) fn share_from(_x: &[i128], ranking: RankingView, upto: usize) -> Share
    requires few { length _x.now ≤ 256 }
    requires small { All IsEntry _x.now }
    requires ranked { IsRanking _x.now ranking.sorted.now ranking.sums.now }
    requires place { upto ≤ length ranking.sorted.now }
    ensures count { result.count ≡ length ranking.entry.sorted.now - upto }
    ensures sum { (result.sum ≡ total_of (drop upto ranking.entry.sorted.now))
        × IsAtMost (10 ^ 33) result.sum }
{
    let len = ranking.sorted.len();
    Share {
        count: len - upto,
        sum: ranking.sums[len] - ranking.sums[upto],
    }
}

/// The share of the places with more than a number, where so many of the ranked entries are at most that number.
pub(crate) fn share_beyond(x: &[i128], ranking: RankingView, _bar: i128, upto: usize) -> Share
    requires few { length x.now ≤ 256 }
    requires small { All IsEntry x.now }
    requires ranked { IsRanking x.now ranking.sorted.now ranking.sums.now }
    requires cut { IsCut _bar ranking.sorted.now upto }
    ensures { IsShareOf result.count result.sum x.now (above _bar x.now) }
{
    share_from(x, ranking, upto)
}

/// The share of the places with more than a number, from the ranking of the entries.
fn share_by_ranking(x: &[i128], ranking: RankingView, bar: i128) -> Share
    requires few { length x.now ≤ 256 }
    requires small { All IsEntry x.now }
    requires ranked { IsRanking x.now ranking.sorted.now ranking.sums.now }
    ensures { IsShareOf result.count result.sum x.now (above bar x.now) }
{
    let upto = count_upto(ranking.sorted, bar);
    share_beyond(x, ranking, bar, upto)
}

/// The share of the places with more than a number, from each entry in turn.
fn share_by_scan(x: &[i128], bar: i128) -> Share
    requires few { length x.now ≤ 256 }
    requires small { All IsEntry x.now }
    ensures { IsShareOf result.count result.sum x.now (above bar x.now) }
{
    let mut count = 0;
    let mut sum = 0;
    for a in x {
        if *a > bar {
            count += 1;
            sum += *a;
        }
    }
    Share { count, sum }
}

/// The share of the places with more than a number.
pub(crate) fn share_above(x: &[i128], ranking: Option<RankingView>, bar: i128) -> Share
    requires few { length x.now ≤ 256 }
    requires small { All IsEntry x.now }
    requires ranked { IfSome ranking (λ r. IsRanking x.now r.sorted.now r.sums.now) }
    ensures { IsShareOf result.count result.sum x.now (above bar x.now) }
{
    match ranking {
        None => share_by_scan(x, bar),
        Some(ranking) => share_by_ranking(x, ranking, bar),
    }
}

/// Whether a place has more than a number.
fn is_above(x: &[i128], bar: i128, v: usize) -> bool
    requires small { All IsEntry x.now }
    requires place { v < length x.now }
    ensures { result ≡ slice_index_or (above bar x.now) v false }
{
    x[v] > bar
}

/// The share of a set with u, from that of the set, which lacks it.
fn put_in(x: &[i128], share: Share, u: usize) -> Share
    requires few { length x.now ≤ 256 }
    requires small { All IsEntry x.now }
    requires from { u < length x.now }
    requires share { IsSomeShare share.count share.sum x.now }
    ensures { (s : List Bool) → IsShareOf share.count share.sum x.now s
        → slice_index_or s u false ≡ false → IsShareOf result.count result.sum x.now
        (slice_set s u true) }
{
    Share {
        count: share.count + 1,
        sum: share.sum + x[u],
    }
}

/// The share of a set without v, from that of the set, which has it.
fn take_out(x: &[i128], share: Share, v: usize) -> Share
    requires few { length x.now ≤ 256 }
    requires small { All IsEntry x.now }
    requires onto { v < length x.now }
    requires share { IsSomeShare share.count share.sum x.now }
    requires some { 1 ≤ share.count }
    ensures { (s : List Bool) → IsShareOf share.count share.sum x.now s → Has s v
        → IsShareOf result.count result.sum x.now (slice_set s v false) }
{
    Share {
        count: share.count - 1,
        sum: share.sum - x[v],
    }
}

/// The share of the places with more than a number and u, from that of those with more.
fn share_with(x: &[i128], over: Share, bar: i128, u: usize) -> Share
    requires few { length x.now ≤ 256 }
    requires small { All IsEntry x.now }
    requires from { u < length x.now }
    requires over { IsShareOf over.count over.sum x.now (above bar x.now) }
    ensures { IsShareOf result.count result.sum x.now (above_with bar x.now u) }
{
    if is_above(x, bar, u) {
        return over;
    }
    put_in(x, over, u)
}

/// The share of the places with more than a number and u, without v, from that of those with more.
pub(crate) fn share_between(x: &[i128], over: Share, bar: i128, u: usize, v: usize) -> Share
    requires few { length x.now ≤ 256 }
    requires small { All IsEntry x.now }
    requires from { u < length x.now }
    requires onto { v < length x.now }
    requires apart { u ≢ v }
    requires over { IsShareOf over.count over.sum x.now (above bar x.now) }
    ensures { IsShareOf result.count result.sum x.now (above_between bar x.now u v) }
{
    let share = share_with(x, over, bar, u);
    if !is_above(x, bar, v) {
        return share;
    }
    take_out(x, share, v)
}

/// The share of all places but v.
pub(crate) fn share_without(x: &[i128], v: usize) -> Share
    requires few { length x.now ≤ 256 }
    requires small { All IsEntry x.now }
    requires onto { v < length x.now }
    ensures { IsShareOf result.count result.sum x.now
        (slice_set (whole_set (length x.now)) v false) }
{
    let all = Share {
        count: x.len(),
        sum: sum_of(x),
    };
    take_out(x, all, v)
}
