// The least value among the sets that keep pins. A shift makes every set that breaks a pin pay more than any two values of the
// sum differ, so where some set keeps all pins, the minimisers with that shift are those among such sets, and where none does,
// the least minimiser breaks a pin as every set does. The terms stay as they are: no pin needs a term of its own.
ghost use Rattle.std.specs.Prelude.{◌≡◌, ◌↔◌, ℕ, ◌^◌, length, IfOk, IsTrue, pos, ◌≤ℤ◌};
ghost use Rattle.sfm_spec.specs.{Sets.{Has, magnitudes}, Families.{meanings}};
ghost use Rattle.sfm_kind.specs.Kinds.{kind_places, kind_value};
ghost use Rattle.sfm_side.specs.PinLines.{pins_of};
ghost use Rattle.sfm_ask.specs.{Shifts.{shift_of_pins}, Asking.{IsAskedOf, IsFoundAt, IsWritable, penalty_of}};

use crate::shift::pin_shift;
use sfm_base::{Memory, Set};
use sfm_extreme::{Certified, Proved, certify_at};
use sfm_kind::Instance;
use sfm_side::Pins;
use sfm_walk::minimise_at;
use std::alloc::Global;

/// The least value among the sets that have the elements that must be in and none of those that must be out, with the extreme
/// sets of that value.
#[derive(Drop)]
pub struct Pinned {
    /// The least value.
    pub value: i128,
    /// The set of that value that lies within every other.
    pub least: Set,
    /// The set of that value that every other lies within.
    pub greatest: Set,
}

/// What is told of the sets that keep pins.
#[derive(Drop)]
pub enum Asked {
    /// The least value, and the extreme sets that attain it.
    Best(Pinned),
    /// There is no such set.
    Nothing,
}

/// The extreme minimisers with a shift, and their value.
fn found_at(alloc: Global, instance: &Instance, shift: &[i128]) -> Result<Proved, Memory>
    requires each { length shift.now ≡ length instance.now.names }
    requires shifts { magnitudes shift.now ≤ℤ pos (10 ^ 27) }
    ensures { IfOk result (IsFoundAt instance.now shift.now) }
{
    let terms = instance.terms();
    let n = instance.names_len();
    let optimum = minimise_at(alloc, terms, n, 1, shift)?;
    match certify_at(alloc, terms, n, 1, shift, &optimum.bases)? {
        Certified::Proved(found) => Ok(found),
        Certified::NotOptimal { walk: _ } => unreachable!(),
    }
}

/// Whether no element is in both sets.
fn are_apart(s: &Set, t: &Set) -> bool
    requires { length s.now ≡ length t.now }
    ensures { IsTrue result ↔ ((e : ℕ) → Has s.now e → Has t.now e → ⊥) }
{
    for e in 0..s.len() {
        if s.contains(e) && t.contains(e) {
            return false;
        }
    }
    true
}

/// What the extreme minimisers with the shift of pins tell.
fn told(instance: &Instance, pins: &Pins, penalty: i128, found: Proved) -> Asked
    requires inside { length pins.now.inside ≡ length instance.now.names }
    requires outside { length pins.now.outside ≡ length instance.now.names }
    requires penalty { penalty ≡ penalty_of instance.now }
    requires found { IsFoundAt instance.now (shift_of_pins penalty pins.now.inside
        pins.now.outside) found }
    ensures asked { IsAskedOf (meanings kind_places kind_value instance.now.terms)
        (length instance.now.names) (pins_of pins.now) result }
    ensures writable { IsWritable (length instance.now.names) result }
{
    let _ = instance.terms();
    let _ = instance.names_len();
    if pins.inside.is_within(&found.least) && are_apart(&pins.outside, &found.least) {
        return Asked::Best(Pinned {
            value: found.value + penalty * pins.inside.size() as i128,
            least: found.least,
            greatest: found.greatest,
        });
    }
    Asked::Nothing
}

/// The least value among the sets that have all elements that must be in and none of those that must be out, with the least and
/// the greatest set that attain it; `Nothing` exactly where no allowed set is such.
///
/// An element that must be both in and out is in no such set.
///
/// # Errors
///
/// `Memory` where there is none.
pub fn ask(alloc: Global, instance: &Instance, pins: &Pins) -> Result<Asked, Memory>
    requires inside { length pins.now.inside ≡ length instance.now.names }
    requires outside { length pins.now.outside ≡ length instance.now.names }
    ensures asked { IfOk result (IsAskedOf (meanings kind_places kind_value instance.now.terms)
        (length instance.now.names) (pins_of pins.now)) }
    ensures writable { IfOk result (IsWritable (length instance.now.names)) }
{
    let _ = instance.terms();
    let _ = instance.names_len();
    let penalty = 2 * instance.total_size() + 1;
    let shift = pin_shift(alloc, pins, penalty)?;
    let found = found_at(alloc, instance, &shift)?;
    Ok(told(instance, pins, penalty, found))
}
