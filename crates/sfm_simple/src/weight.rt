// A number for each element; the value of a part is the sum of its numbers.
// The one base of q times it is q times the numbers, so nothing can be exchanged.
ghost use Rattle.std.specs.{Prelude.{◌≡◌, ◌↔◌, ◌≤◌, length, pos, IfOk, IsTrue, if◌then◌else◌}, List.{All}};
ghost use Rattle.sfm_spec.specs.{Bounds.{IsFactor, IsGiven, AreElements}, Sets.{sum_over, magnitudes}, Terms.{IsGreedy}, Kinds.{weight_value}};
ghost use Rattle.sfm_simple.specs.WeightLaws.{scaled, weight-family, weight-submodular, weight-bounded, weight-starts, weight-starts_small, weight-starts_times};

use sfm_base::{Memory, Numbers, Places, Set};
use sfm_law::{At, Plain, Room, Swap, magnitude, product};
use std::alloc::Global;

/// A number for each element: a modular function (Schrijver, Combinatorial Optimization, section 44).
#[derive(Drop)]
pub struct Weight {
    pub places: Places,
    pub weights: Numbers,
    /// The sum of the magnitudes.
    pub total: i128,
    pub ghost elements: { AreElements places },
    pub ghost few: { length places ≤ 256 },
    pub ghost same_count: { length places ≡ length weights },
    pub ghost given: { All IsGiven weights },
    pub ghost totalled: { total ≡ magnitudes weights },
}

/// A member's number, and 0 of no member.
fn share(member: bool, w: i128) -> i128
    requires { IsGiven w }
    ensures value { result ≡ (if member then w else pos 0) }
    ensures given { IsGiven result }
{
    if member { w } else { 0 }
}

/// The sum of the magnitudes.
fn sum_magnitudes(weights: &[i128]) -> i128
    requires few { length weights.now ≤ 256 }
    requires given { All IsGiven weights.now }
    ensures { result ≡ magnitudes weights.now }
{
    let mut total = 0;
    for w in weights {
        total += magnitude(*w);
    }
    total
}

impl Weight {
    /// The term with these numbers at these elements; both are copied.
    pub fn new(alloc: Global, elements: &[usize], weights: &[i128]) -> Result<Weight, Memory>
        requires elements { AreElements elements.now }
        requires same_count { length elements.now ≡ length weights.now }
        requires given { All IsGiven weights.now }
        ensures places { IfOk result (λ r. r.places ≡ elements.now) }
        ensures weights { IfOk result (λ r. r.weights ≡ weights.now) }
    {
        let total = sum_magnitudes(weights);
        let places = Places::from_slice(alloc, elements)?;
        let weights = Numbers::from_slice(alloc, weights)?;
        Ok(Weight {
            places,
            weights,
            total,
        })
    }

    /// A term that is equal in every part.
    ///
    /// # Errors
    ///
    /// `Memory` where there is none.
    pub fn copy(&self, alloc: Global) -> Result<Weight, Memory>
        ensures { IfOk result (λ r. r ≡ self.now) }
    {
        let places = Places::from_slice(alloc, self.places.as_slice())?;
        let weights = Numbers::from_slice(alloc, self.weights.as_slice())?;
        Ok(Weight {
            places,
            weights,
            total: self.total,
        })
    }

    /// The sum of a part's numbers.
    fn weight_of(&self, s: &Set) -> i128
        requires { length s.now ≡ length self.now.places }
        ensures { result ≡ sum_over s.now self.now.weights }
    {
        let mut sum = 0;
        for (j, w) in self.weights.as_slice().iter().enumerate() {
            sum += share(s.contains(j), *w);
        }
        sum
    }

    /// Writes q times the numbers.
    fn write_scaled(&self, q: i128, x: &mut [i128])
        requires factor { IsFactor q }
        requires entries { length x.old ≡ length self.now.places }
        ensures { x.new ≡ scaled q self.now.weights }
    {
        for (j, w) in self.weights.as_slice().iter().enumerate() {
            x[j] = product(q, *w);
        }
    }

    /// Whether x is q times the numbers.
    fn is_scaled(&self, q: i128, x: &[i128]) -> bool
        requires factor { IsFactor q }
        requires entries { length x.now ≡ length self.now.places }
        ensures { IsTrue result ↔ (x.now ≡ scaled q self.now.weights) }
    {
        for (j, w) in self.weights.as_slice().iter().enumerate() {
            if x[j] != product(q, *w) {
                return false;
            }
        }
        true
    }
}

impl Plain for Weight {
    type Note = ();

    ghost places = { λ s. s.places };

    ghost value_of = { λ s. weight_value s.weights };

    ghost size_of = { λ s. magnitudes s.weights };

    ghost start_of = { λ s q. scaled q s.weights };

    ghost family = { λ s. weight-family s.weights };

    ghost submodular = { λ s. weight-submodular _ s.weights s.same_count };

    ghost bounded = { λ s t a h e. weight-bounded s.weights t a e };

    ghost starts = { λ s q low. weight-starts _ s.weights q s.same_count };

    ghost starts_small = { λ s q low. weight-starts_small s.weights q low };

    ghost starts_times = { λ s q. weight-starts_times q s.weights };

    fn elements_of(&self) -> &[usize] {
        self.places.as_slice()
    }

    fn size_of(&self) -> i128 {
        self.total
    }

    /// The value of a part: every part is allowed.
    fn value_of(&self, _alloc: Global, s: &Set) -> Result<Option<i128>, Memory> {
        Ok(Some(self.weight_of(s)))
    }

    /// Writes the one base of q times the term.
    fn start_of(&self, q: i128, x: &mut [i128])
        requires factor { IsFactor q }
        requires entries { length x.old ≡ length self.now.places }
        ensures start { x.new ≡ scaled q self.now.weights }
        ensures greedy { IsGreedy q (weight_value self.now.weights) (length self.now.places) x.new }
    {
        self.write_scaled(q, x);
    }

    /// Whether x is a base of q times the term.
    fn is_base_of(&self, q: i128, x: &[i128]) -> bool {
        self.is_scaled(q, x)
    }

    /// The room of (u, v) at a base: none.
    fn room_of(&self, _at: &At<'_>, _note: Option<&()>, _u: usize, _v: usize) -> Room {
        Room::Upto(0)
    }

    /// Writes the places other than u to which u has room at a base: none.
    fn reach_of(&self, _at: &At<'_>, _note: Option<&()>, _u: usize, to: &mut Set) {
        to.clear();
    }

    fn note_of(&self, _alloc: Global, _at: &At<'_>) -> Result<(), Memory> {
        Ok(())
    }

    fn note_moved(&self, _at: &At<'_>, _note: &mut (), _swap: &Swap) {}
}
