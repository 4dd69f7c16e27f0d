// Telling whether texts have the form of names.
ghost use Rattle.std.specs.{Prelude.{Any, MatchBool}, List.{All}};
ghost use Rattle.sfm_spec.specs.Names.{IsName};
ghost use Rattle.sfm_lines.specs.Lines.{texts_of};

use sfm_kind::is_name;

/// Whether each text is a name.
pub fn are_names(texts: &[&[u8]]) -> bool
    ensures { MatchBool result
        (All IsName (texts_of texts.now))
        (Any (λ text. IsName text → ⊥) (texts_of texts.now)) }
{
    for text in texts {
        if !is_name(text) {
            return false;
        }
    }
    true
}
