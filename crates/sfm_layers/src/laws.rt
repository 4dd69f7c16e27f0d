// The law of layers. The function does nothing: it states a fact, and callers' proofs cite it.
ghost use Rattle.std.specs.{Prelude.{◌≡◌, Bool, List, length, ℤ, pos, ◌≤ℤ◌}, List.{All}};
ghost use Rattle.sfm_rank.specs.Matroids.{AreRanks, IsMatroid};
ghost use Rattle.sfm_layers.specs.{Weights.{IsGreatestWeight, AreLevels}, Layers.{layers_weight}};

use sfm_rank::laws::Independence;

/// The greatest weight of an independent part of each part is what the ranks of its places of each level or more make
/// together, each times how far its level is above the next one (Schrijver, Combinatorial Optimization, section 40).
pub fn layers_add_up<M: Independence>(_weights: &[i128])
    requires matroid { IsMatroid M.ground M.IsIndependent }
    requires ranks { AreRanks M.ground M.IsIndependent M.rank }
    requires each { length _weights.now ≡ M.ground }
    requires positive { All (λ a. pos 1 ≤ℤ a) _weights.now }
    ensures { (levels : List ℤ) (s : List Bool) → AreLevels _weights.now levels
        → length s ≡ M.ground
        → IsGreatestWeight M.IsIndependent _weights.now s
        (layers_weight M.rank _weights.now s levels) }
{}
