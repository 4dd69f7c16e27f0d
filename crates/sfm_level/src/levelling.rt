// The most level base of an instance.
ghost use Rattle.std.specs.Prelude.{◌^◌, length, pos, ◌≤ℤ◌, IfOk};
ghost use Rattle.sfm_spec.specs.Families.{meanings};
ghost use Rattle.sfm_kind.specs.{Kinds.{kind_places, kind_value}, Limits.{total_size_of}};
ghost use Rattle.sfm_cert.specs.Solved.{form_of};
ghost use Rattle.sfm_level.specs.Told.{IsTrueLevel, IsFormedLevel, level_of};

use crate::passes::level_rows;
use crate::squares::squares_of;
use crate::told::Level;
use sfm_base::{Memory, Numbers};
use sfm_exchange::sums_of;
use sfm_kind::Instance;
use std::alloc::Global;

/// A most level base of the sum of the terms, and bases of the terms that add up to it, where the sizes of the terms add to at
/// most 10^13.
///
/// # Errors
///
/// `Memory` where there is none.
pub fn level(alloc: Global, instance: &Instance) -> Result<Level, Memory>
    requires { total_size_of instance.now.terms ≤ℤ pos (10 ^ 13) }
    ensures is_true { IfOk result (λ r. IsTrueLevel
        (meanings kind_places kind_value instance.now.terms) (length instance.now.names)
        (level_of r)) }
    ensures formed { IfOk result (λ r. IsFormedLevel (form_of instance.now) (level_of r)) }
{
    let terms = instance.terms();
    let n = instance.names_len();
    let bases = level_rows(alloc, terms, n)?;
    let vector = sums_of(alloc, terms, n, &bases)?;
    Ok(Level {
        squares: squares_of(&vector),
        vector: Numbers::from_vec(vector),
        bases,
    })
}
