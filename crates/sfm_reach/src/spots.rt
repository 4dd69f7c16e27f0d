// The terms at each place of the ground, made once: for each place a list of its spots, in the order of the terms.
ghost use Rattle.std.specs.{Prelude.{◌≡◌, List, [], ◌∷◌, ◌++◌, length, map, replicate, is_ok, IfOk, OnOk, if◌then◌else◌}, List.{All}};
ghost use Rattle.sfm_spec.specs.{Sets.{IsPlaced}, Families.{meanings}};
ghost use Rattle.sfm_reach.specs.Spots.{AddsSpots, AreSpots};

use sfm_base::Memory;
use sfm_law::Term;
use std::alloc::Global;
use std::marker::Model;

/// A term at a place of the ground, and the number that the place has in the term.
#[derive(Clone, Copy)]
pub struct Spot {
    pub term: usize,
    pub local: usize,
}

/// The spots of one place, seen as a list.
#[derive(Drop)]
pub struct Spots {
    spots: Vec<Spot>,
}

impl Model for Spots {
    ghost use Rattle.std.specs.Prelude.{List};
    ghost use Rattle.sfm_reach.specs.declared.spots.Spot.{Spot};

    ghost Value = { List Spot };

    ghost view = { λ s. s.spots.items };
}

impl Spots {
    // No spots, with room for so many.
    fn with_room(alloc: Global, count: usize) -> Result<Spots, Memory>
        ensures { IfOk result (λ r. r ≡ []) }
    {
        let spots = Vec::with_capacity(alloc, count)?;
        Ok(Spots { spots })
    }

    fn push(&mut self, spot: Spot) -> Result<(), Memory>
        ensures { self.new ≡ (if is_ok result then self.old ++ spot ∷ [] else self.old) }
    {
        self.spots.push(spot)?;
        Ok(())
    }

    /// The spots, in the order of the terms.
    pub fn as_slice(&self) -> &[Spot]
        ensures { result.now ≡ self.now }
    {
        self.spots.as_slice()
    }
}

/// The spots of each of n places.
pub fn spots_of<T: Term>(alloc: Global, terms: &[T], n: usize) -> Result<Vec<Spots>, Memory>
    requires { All (IsPlaced n) (map T.places terms.now) }
    ensures { IfOk result (λ r. AreSpots (meanings T.places T.value_of terms.now) n r.items) }
{
    let counts = counts_of(alloc, terms, n)?;
    let mut spots = no_spots(alloc, &counts)?;
    for (i, term) in terms.iter().enumerate() {
        add_spots(&mut spots, term.elements(), i)?;
    }
    Ok(spots)
}

// How many spots each of n places has, to make room for as many.
fn counts_of<T: Term>(alloc: Global, terms: &[T], n: usize) -> Result<Vec<usize>, Memory>
    requires { All (IsPlaced n) (map T.places terms.now) }
    ensures { IfOk result (λ r. length r.items ≡ n) }
{
    let mut counts = vec![in alloc; 0; n]?;
    for term in terms {
        count_places(term.elements(), &mut counts);
    }
    Ok(counts)
}

// Adds one to the count of each of some places.
fn count_places(places: &[usize], counts: &mut [usize])
    requires { IsPlaced (length counts.old) places.now }
    ensures { length counts.new ≡ length counts.old }
{
    for place in places {
        counts[*place] = counts[*place].saturating_add(1);
    }
}

// Places without spots, each with room for as many as its count.
fn no_spots(alloc: Global, counts: &[usize]) -> Result<Vec<Spots>, Memory>
    ensures { IfOk result (λ r. r.items ≡ replicate (length counts.now) []) }
{
    let mut spots = Vec::with_capacity(alloc, counts.len())?;
    for count in counts {
        spots.push(Spots::with_room(alloc, *count)?)?;
    }
    Ok(spots)
}

// Puts the spots of the term i at its places.
fn add_spots(spots: &mut Vec<Spots>, places: &[usize], i: usize) -> Result<(), Memory>
    requires { IsPlaced (length spots.old.items) places.now }
    ensures { OnOk result (AddsSpots places.now i (length places.now) spots.old.items
        spots.new.items) }
{
    for (local, place) in places.iter().enumerate() {
        let at = &mut spots[*place];
        at.push(Spot { term: i, local })?;
    }
    Ok(())
}
