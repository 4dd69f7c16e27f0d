// What every instance keeps, so that proofs may say it where no other call does.
ghost use Rattle.std.specs.Prelude.{◌≡◌, length};
ghost use Rattle.sfm_kind.specs.{Names.{AreElementNames}, Instance.{terms_in}, Limits.{AreInBounds}};

use sfm_kind::Instance;

/// The names of an instance differ and have a name's form, so that the texts of different answers differ; its terms are
/// within the bounds, so that their slopes have small numbers.
pub fn tell_kept(instance: &Instance)
    ensures named { AreElementNames instance.now.names }
    ensures bounded { AreInBounds (length instance.now.names) instance.now.terms }
    ensures lined { terms_in instance.now.lines ≡ length instance.now.terms }
{
    let _count = instance.names_len();
    let _terms = instance.terms();
    let _lines = instance.lines();
}
