// Facts that hold of every text beside an instance, by the definitions alone. The functions do nothing: they state them, and
// proofs cite them.
ghost use Rattle.std.specs.Prelude.{◌≡◌, ◌≢◌, ℕ, ℤ, List, Option, AllPairs};
ghost use Rattle.sfm_lines.specs.declared.reason.Reason.{Reason};
ghost use Rattle.sfm_text.specs.Language.{IsReadAs, IsFaultIn};
ghost use Rattle.sfm_side.specs.{Side.{side_language, ended}, Sizes.{sizes_form}, Pins.{PinData, pins_form}};

/// Over names that differ, a text of sizes is good for one list of sizes alone, or has one first fault, and not both.
pub fn one_list_of_sizes(_text: &[u8])
    ensures once { (names : List (List ℕ)) (a b : List (Option ℤ)) → AllPairs (λ x y. x ≢ y) names
        → IsReadAs (side_language (sizes_form names)) _text.now (ended a)
        → IsReadAs (side_language (sizes_form names)) _text.now (ended b) → a ≡ b }
    ensures not_both { (names : List (List ℕ)) (a : List (Option ℤ)) (line : ℕ) (reason : Reason)
        → AllPairs (λ x y. x ≢ y) names
        → IsReadAs (side_language (sizes_form names)) _text.now (ended a)
        → IsFaultIn (side_language (sizes_form names)) _text.now line reason → ⊥ }
    ensures first { (names : List (List ℕ)) (line line' : ℕ) (reason reason' : Reason)
        → AllPairs (λ x y. x ≢ y) names
        → IsFaultIn (side_language (sizes_form names)) _text.now line reason
        → IsFaultIn (side_language (sizes_form names)) _text.now line' reason'
        → (line ≡ line') × (reason ≡ reason') }
{}

/// A text of pins is good for one pair of sets alone, or has one first fault, and not both.
pub fn one_pair_of_pins(_text: &[u8])
    ensures once { (names : List (List ℕ)) (p q : PinData)
        → IsReadAs (side_language (pins_form names)) _text.now (ended p)
        → IsReadAs (side_language (pins_form names)) _text.now (ended q) → p ≡ q }
    ensures not_both { (names : List (List ℕ)) (p : PinData) (line : ℕ) (reason : Reason)
        → IsReadAs (side_language (pins_form names)) _text.now (ended p)
        → IsFaultIn (side_language (pins_form names)) _text.now line reason → ⊥ }
    ensures first { (names : List (List ℕ)) (line line' : ℕ) (reason reason' : Reason)
        → IsFaultIn (side_language (pins_form names)) _text.now line reason
        → IsFaultIn (side_language (pins_form names)) _text.now line' reason'
        → (line ≡ line') × (reason ≡ reason') }
{}
