// Facts that hold of every text, of all groups and of all entries, by the definitions alone. The functions do nothing: they
// state them, and proofs cite them.
ghost use Rattle.std.specs.{Prelude.{◌≡◌, ◌↔◌, ℕ, Bool, List, length, map, take}, List.{All, AllZip}};
ghost use Rattle.sfm_spec.specs.Kinds.{Group, IsWithinCaps, IsMatchable};
ghost use Rattle.sfm_laminar.specs.Crossing.{IsCrossing};
ghost use Rattle.sfm_lines.specs.{LabelTerms.{numbers_of}, LeastGroups.{least_groups}, TermLines.{StandsTwice}, declared.reason.Reason.{Reason}};
ghost use Rattle.sfm_kind.specs.Instance.{InstanceData};
ghost use Rattle.sfm_text.specs.{GoodText.{IsTextOf, IsFaultOf}, OneTerm.{AreOneTerm}};

/// A text is not both good and faulty, and has one first fault: its line and its reason are the only ones.
pub fn one_fault(_text: &[u8])
    ensures not_both { (instance : InstanceData) (line : ℕ) (reason : Reason)
        → IsTextOf _text.now instance → IsFaultOf _text.now line reason → ⊥ }
    ensures first { (line line' : ℕ) (reason reason' : Reason) → IsFaultOf _text.now line reason
        → IsFaultOf _text.now line' reason' → (line ≡ line') × (reason ≡ reason') }
{}

/// A good text stands for one thing: however it is read, the version, the names and the lines are the same, and so is each term.
pub fn one_meaning(_text: &[u8])
    ensures { (a b : InstanceData) → IsTextOf _text.now a → IsTextOf _text.now b
        → (a.version ≡ b.version) × (a.names ≡ b.names) × AllZip AreOneTerm a.terms b.terms
        × (a.lines ≡ b.lines) }
{}

/// Of groups with the same members one with the least cap stands for all: the same parts are within the caps of those that are
/// kept so, and some of them cross exactly where some of the groups do.
pub fn least_groups_suffice()
    ensures caps { (groups : List Group) (t : List Bool) → IsWithinCaps (least_groups groups) t
        ↔ IsWithinCaps groups t }
    ensures crossings { (groups : List Group) → ((i : ℕ) × (j : ℕ)
        × IsCrossing (least_groups groups) i j) ↔ ((i : ℕ) × (j : ℕ) × IsCrossing groups i j) }
{}

/// An entry of different slots needs no more of them than its line has elements: with its first ones the same parts are independent.
pub fn first_slots_suffice()
    ensures { (labels : List (List (List ℕ))) (t : List Bool)
        → All (λ slots. StandsTwice slots → ⊥) labels
        → IsMatchable (numbers_of (map (take (length labels)) labels)) t
        ↔ IsMatchable (numbers_of labels) t }
{}
