// A number w times the count of a part, up to a cap: the weighted rank of a uniform matroid, which is a concave function of
// the count. The bases of q times it are the vectors with entries from 0 to q·w that have q times the whole value in all:
// so the room of (u, v) is what v has, or what u lacks of q·w where that is less.
ghost use Rattle.std.specs.{Prelude.{◌≡◌, ◌↔◌, ℕ, ◌≤◌, ◌^◌, length, pos, ◌*ℤ◌, ◌≤ℤ◌, IfOk, IsTrue}, List.{All}};
ghost use Rattle.sfm_spec.specs.{Bounds.{IsAtMost, IsEntry, IsFactor, IsGiven, AreElements, total_of}, Sets.{Has}, Terms.{IsGreedy}, Kinds.{uniform_value}};
ghost use Rattle.sfm_layers.specs.Kept.{kept};
ghost use Rattle.sfm_concave.specs.UniformLaws.{rank_of, uniform_size, uniform_gain, uniform_start, uniform-family, uniform-submodular, uniform-bounded, uniform-starts, uniform-starts_small, uniform-starts_times};

use sfm_base::{Memory, Places, Set};
use sfm_law::{
    At, Plain, Room, Swap, are_within, has_sum, least_left, product, put_others_over, write_each,
};
use sfm_layers::kept_of;
use std::alloc::Global;

/// A number for each element of a part, but for at most `cap` of them: the weighted rank of a uniform matroid (Schrijver,
/// Combinatorial Optimization, section 39).
#[derive(Drop)]
pub struct Uniform {
    pub places: Places,
    pub w: i128,
    pub cap: i128,
    pub ghost elements: { AreElements places },
    pub ghost few: { length places ≤ 256 },
    pub ghost low: { pos 0 ≤ℤ w },
    pub ghost given: { IsGiven w },
    pub ghost cap_low: { pos 0 ≤ℤ cap },
    pub ghost cap_given: { IsGiven cap },
}

impl Uniform {
    /// The term that is worth w for each element of a part, up to `cap` of them; the elements are copied.
    pub fn new(alloc: Global, elements: &[usize], w: i128, cap: i128) -> Result<Uniform, Memory>
        requires elements { AreElements elements.now }
        requires low { pos 0 ≤ℤ w }
        requires given { IsGiven w }
        requires cap_low { pos 0 ≤ℤ cap }
        requires cap_given { IsGiven cap }
        ensures places { IfOk result (λ r. r.places ≡ elements.now) }
        ensures number { IfOk result (λ r. r.w ≡ w) }
        ensures cap { IfOk result (λ r. r.cap ≡ cap) }
    {
        let places = Places::from_slice(alloc, elements)?;
        Ok(Uniform { places, w, cap })
    }

    /// A term that is equal in every part.
    ///
    /// # Errors
    ///
    /// `Memory` where there is none.
    pub fn copy(&self, alloc: Global) -> Result<Uniform, Memory>
        ensures { IfOk result (λ r. r ≡ self.now) }
    {
        let places = Places::from_slice(alloc, self.places.as_slice())?;
        Ok(Uniform {
            places,
            w: self.w,
            cap: self.cap,
        })
    }

    /// The rank over the elements that are kept alone, which each count w where they are independent.
    ///
    /// # Errors
    ///
    /// `Memory` where there is none.
    pub fn restricted(&self, alloc: Global, keep: &Set, w: i128) -> Result<Uniform, Memory>
        requires each { length keep.now ≡ length self.now.places }
        requires some { (e : ℕ) × Has keep.now e }
        requires low { pos 0 ≤ℤ w }
        requires given { IsGiven w }
        ensures places { IfOk result (λ r. r.places ≡ kept keep.now self.now.places) }
        ensures number { IfOk result (λ r. r.w ≡ w) }
        ensures cap { IfOk result (λ r. r.cap ≡ self.now.cap) }
    {
        let elements = kept_of(alloc, keep, self.places.as_slice())?;
        Uniform::new(alloc, &elements, w, self.cap)
    }

    /// The value of a count of places. The cap is taken before multiplying, so that the product stays small.
    fn ranked(&self, count: usize) -> i128
        requires { count ≤ 256 }
        ensures value { result ≡ self.now.w *ℤ rank_of self.now.cap count }
        ensures small { IsAtMost (10 ^ 21) result }
    {
        self.w * (count as i128).min(self.cap)
    }

    /// The most that a place may have: q·w.
    fn most(&self, q: i128) -> i128
        requires factor { IsFactor q }
        ensures value { result ≡ q *ℤ self.now.w }
        ensures small { IsAtMost (10 ^ 27) result }
    {
        product(q, self.w)
    }

    /// Whether each entry is from 0 to q·w.
    fn are_capped(&self, q: i128, x: &[i128]) -> bool
        requires { IsFactor q }
        ensures { IsTrue result ↔ All (λ a. (pos 0 ≤ℤ a) × (a ≤ℤ (q *ℤ self.now.w))) x.now }
    {
        are_within(x, self.most(q))
    }

    /// Whether the entries are q times the value of the whole in all.
    fn has_whole(&self, q: i128, x: &[i128]) -> bool
        requires factor { IsFactor q }
        requires few { length x.now ≤ 256 }
        requires small { All IsEntry x.now }
        ensures { IsTrue result ↔ (total_of x.now ≡ (q *ℤ (self.now.w *ℤ rank_of self.now.cap
            (length x.now)))) }
    {
        has_sum(x, product(q, self.ranked(x.len())))
    }

    /// What the place j adds to those before it, q times.
    fn gain(&self, q: i128, j: usize) -> i128
        requires factor { IsFactor q }
        ensures { result ≡ uniform_gain q self.now.w self.now.cap j }
    {
        if j as i128 >= self.cap {
            return 0;
        }
        self.most(q)
    }
}

impl Plain for Uniform {
    type Note = ();

    ghost places = { λ s. s.places };

    ghost value_of = { λ s. uniform_value s.w s.cap };

    ghost size_of = { λ s. uniform_size s.w s.cap (length s.places) };

    ghost start_of = { λ s q. uniform_start q s.w s.cap (length s.places) };

    ghost family = { λ s. uniform-family s.w s.cap };

    ghost submodular = { λ s. uniform-submodular _ s.w s.cap s.low s.cap_low };

    ghost bounded = { λ s t a h e. uniform-bounded _ s.w s.cap t a s.low s.cap_low h e };

    ghost starts = { λ s q low. uniform-starts _ q s.w s.cap low s.low s.cap_low };

    ghost starts_small = { λ s q low. uniform-starts_small _ q s.w s.cap low s.low s.cap_low };

    ghost starts_times = { λ s q. uniform-starts_times (length s.places) q s.w s.cap };

    fn elements_of(&self) -> &[usize] {
        self.places.as_slice()
    }

    fn size_of(&self) -> i128 {
        self.ranked(self.places.as_slice().len())
    }

    /// The value of a part: every part is allowed.
    fn value_of(&self, _alloc: Global, s: &Set) -> Result<Option<i128>, Memory> {
        Ok(Some(self.ranked(s.size())))
    }

    /// Writes the base with q·w at each of the first places, up to `cap` of them.
    fn start_of(&self, q: i128, x: &mut [i128])
        requires factor { IsFactor q }
        requires entries { length x.old ≡ length self.now.places }
        ensures start { x.new ≡ uniform_start q self.now.w self.now.cap (length self.now.places) }
        ensures greedy { IsGreedy q (uniform_value self.now.w self.now.cap)
            (length self.now.places) x.new }
    {
        write_each(x, |j| self.gain(q, j));
    }

    /// Whether x is a base of q times the term.
    fn is_base_of(&self, q: i128, x: &[i128]) -> bool {
        self.are_capped(q, x) && self.has_whole(q, x)
    }

    /// The room of (u, v) at a base: what v has, or what u lacks of q·w where that is less.
    fn room_of(&self, at: &At<'_>, _note: Option<&()>, u: usize, v: usize) -> Room {
        Room::Upto(least_left(at.x, u, v, self.most(at.q)))
    }

    /// Writes the places other than u to which u has room at a base: those that have something, where u lacks something of
    /// q·w.
    fn reach_of(&self, at: &At<'_>, _note: Option<&()>, u: usize, to: &mut Set) {
        if at.x[u] >= self.most(at.q) {
            to.clear();
            return;
        }
        put_others_over(at.x, u, Some(0), to);
    }

    fn note_of(&self, _alloc: Global, _at: &At<'_>) -> Result<(), Memory> {
        Ok(())
    }

    fn note_moved(&self, _at: &At<'_>, _note: &mut (), _swap: &Swap) {}
}
