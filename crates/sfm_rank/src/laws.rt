// Facts that hold of every matroid. The functions do nothing: each states a fact, and callers' proofs cite it.
ghost use Rattle.std.specs.Prelude.{ℕ, Bool, List, pos, ◌≤ℤ◌};
ghost use Rattle.sfm_rank.specs.{Laws.{GrowthLaws, RankLaws}, Matroids.{AreRanks, IsMatroid}};

/// What a law may speak of: parts of some places, of which some are independent, and a number for each part.
pub trait Independence {
    /// The number of places.
    ghost ground: { ℕ };

    /// The parts that are independent.
    ghost IsIndependent: { List Bool → Type 0 };

    /// A number for each part, which is to be its rank.
    ghost rank: { List Bool → ℕ };
}

/// The rank of a matroid grows with the part, by at most one for each place; a number w times it is a term: it allows all
/// parts, and is submodular (Schrijver, Combinatorial Optimization, section 39).
pub fn rank_laws<M: Independence>(_w: i128)
    requires matroid { IsMatroid M.ground M.IsIndependent }
    requires ranks { AreRanks M.ground M.IsIndependent M.rank }
    requires low { pos 0 ≤ℤ _w }
    ensures { RankLaws M.ground _w M.rank }
{}

/// A part that takes place after place as long as it stays independent ends as large as the rank; grown by all places, it
/// gives a base of q times w times the rank: q·w at each of its members (Schrijver, Combinatorial Optimization, section 40).
pub fn growth_laws<M: Independence>(_q: i128, _w: i128)
    requires matroid { IsMatroid M.ground M.IsIndependent }
    requires ranks { AreRanks M.ground M.IsIndependent M.rank }
    requires factor { pos 1 ≤ℤ _q }
    requires low { pos 0 ≤ℤ _w }
    ensures { GrowthLaws M.ground _q _w M.IsIndependent M.rank }
{}
