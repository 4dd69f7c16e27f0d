// Facts that hold of every text of edits and of all old bases, by the definitions alone. The functions do nothing: they state
// them, and proofs cite them.
ghost use Rattle.std.specs.{Prelude.{◌≡◌, ◌≢◌, ◌^◌, ℕ, ℤ, pos, List, Option, AllPairs}, List.{All, AllZip}};
ghost use Rattle.sfm_spec.specs.{Bounds.{IsAtMost}, Families.{meanings, AreBases}};
ghost use Rattle.sfm_kind.specs.{Instance.{InstanceData}, Kinds.{kind_places, kind_value}, declared.kind.Kind.{Kind}};
ghost use Rattle.sfm_lines.specs.declared.reason.Reason.{Reason};
ghost use Rattle.sfm_text.specs.{Language.{IsReadAs, IsFaultIn}, OneTerm.{AreOneTerm}};
ghost use Rattle.sfm_side.specs.Side.{side_language, ended};
ghost use Rattle.sfm_edit.specs.{Edits.{Editing, edits_form}, Origins.{AreOrigins}, Resuming.{AreOldBases}};

/// Over an instance whose names differ, a text of edits is good for one instance alone, but for how its terms are kept, and for
/// the same places of the kept ones; or it has one first fault, and not both.
pub fn one_edited_instance(_text: &[u8])
    ensures once { (instance : InstanceData) (a b : Editing)
        → AllPairs (λ x y. x ≢ y) instance.names
        → IsReadAs (side_language (edits_form instance)) _text.now (ended a)
        → IsReadAs (side_language (edits_form instance)) _text.now (ended b)
        → (a.instance.version ≡ b.instance.version) × (a.instance.names ≡ b.instance.names)
        × AllZip AreOneTerm a.instance.terms b.instance.terms
        × (a.instance.lines ≡ b.instance.lines) × (a.kept ≡ b.kept) }
    ensures not_both { (instance : InstanceData) (a : Editing) (line : ℕ) (reason : Reason)
        → AllPairs (λ x y. x ≢ y) instance.names
        → IsReadAs (side_language (edits_form instance)) _text.now (ended a)
        → IsFaultIn (side_language (edits_form instance)) _text.now line reason → ⊥ }
    ensures first { (instance : InstanceData) (line line' : ℕ) (reason reason' : Reason)
        → AllPairs (λ x y. x ≢ y) instance.names
        → IsFaultIn (side_language (edits_form instance)) _text.now line reason
        → IsFaultIn (side_language (edits_form instance)) _text.now line' reason'
        → (line ≡ line') × (reason ≡ reason') }
{}

/// Bases of the terms before the edits, with entries of magnitude at most 10^25, as `minimise` gives them at 0/1, are old bases of
/// the terms after the edits.
pub fn old_bases_serve()
    ensures { (old new : List Kind) (kept : List (Option ℕ)) (rows : List (List ℤ))
        → AreOrigins old new kept → AreBases (pos 1) (meanings kind_places kind_value old) rows
        → All (λ x. All (IsAtMost (10 ^ 25)) x) rows → AreOldBases new kept rows }
{}
