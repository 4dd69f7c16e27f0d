// An instance: the names of a ground and the terms over it. The bounds that each call over terms asks for are kept in the
// type, so that a caller has them of every instance. Running totals of the places and the sizes of all terms are kept too,
// so that a term is tested before it is added without a pass over the others.
ghost use Rattle.std.specs.{Prelude.{◌≡◌, ◌↔◌, ℕ, ◌+◌, ◌<◌, ◌≤◌, ◌^◌, pos, ◌≤ℤ◌, List, [], ◌∷◌, ◌++◌, length, take, drop, suc, slice_get, slice_index_or, IsTrue, OnOk, OnErr, IfSome, IfNone, Some}, List.{All, remove}};
ghost use Rattle.sfm_spec.specs.Names.{IsName};
ghost use Rattle.sfm_kind.specs.{Names.{IsNewName, AreElementNames}, Instance.{support_of, width_of, terms_in}, Limits.{AreInBounds, HasRoomFor, total_size_of}};

use crate::kind::Kind;
use crate::layers::Layers;
use crate::names::Names;
use crate::version::Version;
use sfm_base::Memory;
use sfm_law::Term;
use std::alloc::Global;
use std::marker::Model;

const MOST_TERMS: usize = 16384;

const MOST_PLACES: usize = 16384;

/// The greatest size of all terms together, as a value that the terms may have: 10^18.
pub const MOST_SIZE: i128 = 1_000_000_000_000_000_000;

/// The names of the elements, in the order of the ground, and the terms, in the order in which they were added.
///
/// There are at most 256 names, all different. There are at most 16,384 terms, whose places are distinct and below the
/// number of names; they have at most 16,384 places in all, and their sizes add to at most 10^18.
///
/// A term line has one term, or is layered: it is a rank whose elements have weights, and has its layers for terms.
pub struct Instance {
    version: Version,
    names: Names,
    terms: Vec<Kind>,
    /// For each term line the number of its layers, 0 where it has none.
    lines: Vec<usize>,
    support: usize,
    total: i128,
}

// Written out, so that letting one go is one step, which is proved here once.
impl Drop for Instance {
    fn drop(self) {
        let Self {
            version: _,
            names: _,
            terms: _,
            lines: _,
            support: _,
            total: _,
        } = self;
    }
}

impl Model for Instance {
    ghost use Rattle.sfm_kind.specs.{Instance.{InstanceData}, Limits.{IsKept}};

    ghost Value = { InstanceData };

    ghost view = { λ s. record {
      version = s.version;
      names = s.names;
      terms = s.terms.items;
      lines = s.lines.items;
    } };

    ghost invariant = { λ s. IsKept s.names s.terms.items s.lines.items s.support s.total };
}

/// Whether each place is below n.
fn are_below(places: &[usize], n: usize) -> bool
    ensures { IsTrue result ↔ All (λ e. e < n) places.now }
{
    places.iter().all(|e| *e < n)
}

/// How many terms a line of so many layers has: as many, and one where it is not layered and the number is 0.
pub fn width(layers: usize) -> usize
    ensures { result ≡ width_of layers }
{
    if layers == 0 {
        return 1;
    }
    layers
}

/// How many terms stand before those of line i, counted from 0. Each line has the number that `Instance::lines` gives:
/// that of its layers, or 0 where it has one term.
pub fn terms_before(lines: &[usize], i: usize) -> usize
    requires within { i ≤ length lines.now }
    requires few { terms_in lines.now ≤ 16384 }
    ensures { result ≡ terms_in (take i lines.now) }
{
    let mut before = 0;
    for j in 0..i {
        before += width(lines[j]);
    }
    before
}

/// The number of places of some terms, added.
fn places_in(terms: &[Kind]) -> usize
    requires { support_of terms.now ≤ 16384 }
    ensures { result ≡ support_of terms.now }
{
    let mut places = 0;
    for term in terms {
        places += term.elements().len();
    }
    places
}

/// The sizes of some terms, added.
fn size_of(terms: &[Kind]) -> i128
    requires { total_size_of terms.now ≤ℤ pos (10 ^ 18) }
    ensures { result ≡ total_size_of terms.now }
{
    let mut total = 0;
    for term in terms {
        total += term.size();
    }
    total
}

/// Takes term i out of some terms, and out of their totals; those behind it close up.
fn take_out(terms: &mut Vec<Kind>, support: &mut usize, total: &mut i128, i: usize)
    requires within { i < length terms.old.items }
    requires supported { support.old ≡ support_of terms.old.items }
    requires totalled { total.old ≡ total_size_of terms.old.items }
    requires small { total.old ≤ℤ pos (10 ^ 18) }
    ensures terms { terms.new.items ≡ remove terms.old.items i }
    ensures supported { support.new ≡ support_of (remove terms.old.items i) }
    ensures totalled { total.new ≡ total_size_of (remove terms.old.items i) }
    ensures smaller { total.new ≤ℤ total.old }
{
    let term = terms.remove(i);
    *support -= term.elements().len();
    *total -= term.size();
}

/// Takes so many terms out, from one on.
fn take_out_all(
    terms: &mut Vec<Kind>,
    support: &mut usize,
    total: &mut i128,
    first: usize,
    count: usize,
)
    requires within { first + count ≤ length terms.old.items }
    requires supported { support.old ≡ support_of terms.old.items }
    requires totalled { total.old ≡ total_size_of terms.old.items }
    requires small { total.old ≤ℤ pos (10 ^ 18) }
    ensures terms { terms.new.items ≡ take first terms.old.items
        ++ drop (first + count) terms.old.items }
    ensures supported { support.new ≡ support_of terms.new.items }
    ensures totalled { total.new ≡ total_size_of terms.new.items }
{
    for _taken in 0..count {
        take_out(terms, support, total, first);
    }
}

impl Instance {
    /// No names and no terms, of the first version.
    pub fn new(alloc: Global) -> Instance
        ensures version { result.version ≡ Version.First }
        ensures names { result.names ≡ [] }
        ensures terms { result.terms ≡ [] }
        ensures lines { result.lines ≡ [] }
    {
        Instance {
            version: Version::First,
            names: Names::new(alloc),
            terms: Vec::new(alloc),
            lines: Vec::new(alloc),
            support: 0,
            total: 0,
        }
    }

    /// The number of the version: 1 or 2.
    pub fn version(&self) -> u8
        ensures first { (self.now.version ≡ Version.First) ↔ (result ≡ 1) }
        ensures second { (self.now.version ≡ Version.Second) ↔ (result ≡ 2) }
    {
        match self.version {
            Version::First => 1,
            Version::Second => 2,
        }
    }

    /// The version of the text that the instance stands for.
    pub fn text_version(&self) -> Version
        ensures { result ≡ self.now.version }
    {
        self.version
    }

    /// Makes it an instance of the second version; all else stays.
    pub fn set_version2(&mut self)
        ensures version { self.new.version ≡ Version.Second }
        ensures names { self.new.names ≡ self.old.names }
        ensures terms { self.new.terms ≡ self.old.terms }
        ensures lines { self.new.lines ≡ self.old.lines }
    {
        self.version = Version::Second;
    }

    /// For each term line the number of its layers, 0 where it has one term and no layers.
    pub fn lines(&self) -> &[usize]
        ensures lines { result.now ≡ self.now.lines }
        ensures lined { terms_in self.now.lines ≡ length self.now.terms }
    {
        self.lines.as_slice()
    }

    /// How many names there are.
    pub fn names_len(&self) -> usize
        ensures len { result ≡ length self.now.names }
        ensures named { AreElementNames self.now.names }
    {
        self.names.len()
    }

    /// The name of the element e.
    pub fn name(&self, e: usize) -> &[u8]
        requires { e < length self.now.names }
        ensures { result.now ≡ slice_index_or self.now.names e [] }
    {
        self.names.name(e)
    }

    /// The element with a name, or None where the name is none of the names.
    pub fn place_of(&self, name: &[u8]) -> Option<usize>
        ensures found { IfSome result (λ e. slice_get self.now.names e ≡ Some name.now) }
        ensures within { IfSome result (λ e. e < length self.now.names) }
        ensures none { IfNone result (IsNewName self.now.names name.now) }
    {
        self.names.place_of(name)
    }

    /// The terms, in the order in which they were added.
    pub fn terms(&self) -> &[Kind]
        ensures terms { result.now ≡ self.now.terms }
        ensures bounded { AreInBounds (length self.now.names) self.now.terms }
    {
        self.terms.as_slice()
    }

    /// The number of places of all terms, added.
    pub fn support(&self) -> usize
        ensures support { result ≡ support_of self.now.terms }
    {
        self.support
    }

    /// The sizes of all terms, added.
    pub fn total_size(&self) -> i128
        ensures total { result ≡ total_size_of self.now.terms }
    {
        self.total
    }

    /// Whether there is room for one more term, of so many places and of that size.
    pub fn has_room(&self, places: usize, size: i128) -> bool
        ensures { IsTrue result ↔ HasRoomFor self.now.terms places size }
    {
        self.terms.len() < MOST_TERMS
            && places <= MOST_PLACES - self.support
            && size <= MOST_SIZE - self.total
    }

    /// Whether the bounds hold with one more term.
    pub fn takes(&self, term: &Kind) -> bool
        ensures { IsTrue result ↔ AreInBounds (length self.now.names)
            (self.now.terms ++ term.now ∷ []) }
    {
        let places = term.elements();
        self.has_room(places.len(), term.size()) && are_below(places, self.names.len())
    }

    /// Adds a new name behind the others; it is copied.
    ///
    /// # Errors
    ///
    /// `Memory` where there is none; the instance is then as it was.
    pub fn add_name(&mut self, name: &[u8]) -> Result<(), Memory>
        requires form { IsName name.now }
        requires fresh { IsNewName self.old.names name.now }
        requires few { length self.old.names < 256 }
        ensures added { OnOk result (self.new.names ≡ self.old.names ++ name.now ∷ []) }
        ensures version { self.new.version ≡ self.old.version }
        ensures terms { self.new.terms ≡ self.old.terms }
        ensures lines { self.new.lines ≡ self.old.lines }
        ensures unchanged { OnErr result (self.new ≡ self.old) }
    {
        self.names.push(name)
    }

    /// Adds a term behind the others, as a line of its own.
    ///
    /// # Errors
    ///
    /// `Memory` where there is none; the instance is then as it was.
    pub fn add_term(&mut self, term: Kind) -> Result<(), Memory>
        requires { AreInBounds (length self.old.names) (self.old.terms ++ term ∷ []) }
        ensures added { OnOk result (self.new.terms ≡ self.old.terms ++ term ∷ []) }
        ensures plain { OnOk result (self.new.lines ≡ self.old.lines ++ 0 ∷ []) }
        ensures version { self.new.version ≡ self.old.version }
        ensures names { self.new.names ≡ self.old.names }
        ensures unchanged { OnErr result (self.new ≡ self.old) }
    {
        self.lines.reserve(1)?;
        let places = term.elements().len();
        let size = term.size();
        self.terms.push(term)?;
        self.lines.push_reserved(0);
        self.support += places;
        self.total += size;
        Ok(())
    }

    /// Adds the layers of a rank behind the other terms, as one line.
    ///
    /// # Errors
    ///
    /// `Memory` where there is none; the instance is then as it was.
    pub fn add_layers(&mut self, layers: Layers) -> Result<(), Memory>
        requires { AreInBounds (length self.old.names) (self.old.terms ++ layers) }
        ensures added { OnOk result (self.new.terms ≡ self.old.terms ++ layers) }
        ensures layered { OnOk result (self.new.lines ≡ self.old.lines ++ length layers ∷ []) }
        ensures version { self.new.version ≡ self.old.version }
        ensures names { self.new.names ≡ self.old.names }
        ensures unchanged { OnErr result (self.new ≡ self.old) }
    {
        self.lines.reserve(1)?;
        let count = layers.count();
        let mut parts = layers.into_parts();
        let places = places_in(parts.as_slice());
        let size = size_of(parts.as_slice());
        self.terms.append(&mut parts)?;
        self.lines.push_reserved(count);
        self.support += places;
        self.total += size;
        Ok(())
    }

    /// Takes term line i out, counted from 0, with all its terms; those behind it close up.
    pub fn drop_line(&mut self, i: usize)
        requires { i < length self.old.lines }
        ensures terms { self.new.terms ≡ take (terms_in (take i self.old.lines)) self.old.terms
            ++ drop (terms_in (take (suc i) self.old.lines)) self.old.terms }
        ensures lines { self.new.lines ≡ remove self.old.lines i }
        ensures version { self.new.version ≡ self.old.version }
        ensures names { self.new.names ≡ self.old.names }
    {
        let first = terms_before(self.lines.as_slice(), i);
        let layers = self.lines.remove(i);
        take_out_all(
            &mut self.terms,
            &mut self.support,
            &mut self.total,
            first,
            width(layers),
        );
    }
}
