// The names of the elements, in the order of the ground, found by a hash of their bytes.
ghost use Rattle.std.specs.Prelude.{◌≡◌, ◌↔◌, ◌⊎◌, ℕ, ◌<◌, ◌≤◌, List, [], ◌∷◌, ◌++◌, length, map, slice_get, slice_index_or, IsTrue, OnOk, OnErr, IfSome, IfNone, Some};
ghost use Rattle.sfm_spec.specs.Names.{IsNameByte, IsName};
ghost use Rattle.sfm_kind.specs.Names.{IsNewName};

use indexmap::IndexSet;
use sfm_base::Memory;
use std::alloc::Global;
use std::marker::Model;

/// Names, seen as a list of their bytes.
pub struct Names {
    set: IndexSet<Vec<u8>>,
}

// Written out, so that letting one go is one step, which is proved here once.
impl Drop for Names {
    fn drop(self) {
        let Self { set: _ } = self;
    }
}

impl Model for Names {
    ghost Value = { List (List ℕ) };

    ghost view = { λ s. map (λ name. name.items) s.set.keys };
}

impl Names {
    /// No names.
    pub fn new(alloc: Global) -> Names
        ensures { result ≡ [] }
    {
        Names {
            set: IndexSet::new(alloc),
        }
    }

    /// How many there are.
    pub fn len(&self) -> usize
        ensures { result ≡ length self.now }
    {
        self.set.len()
    }

    /// The name of the element e.
    pub fn name(&self, e: usize) -> &[u8]
        requires { e < length self.now }
        ensures { result.now ≡ slice_index_or self.now e [] }
    {
        let name = &self.set.as_slice()[e];
        name.as_slice()
    }

    /// The index of a name, or None where it is none of the names.
    pub fn place_of(&self, name: &[u8]) -> Option<usize>
        ensures found { IfSome result (λ e. slice_get self.now e ≡ Some name.now) }
        ensures within { IfSome result (λ e. e < length self.now) }
        ensures none { IfNone result (IsNewName self.now name.now) }
    {
        self.set.get_index_of(name)
    }

    /// Puts a copy of a new name at the end.
    ///
    /// # Errors
    ///
    /// `Memory` where there is none; the names are then as they were.
    pub fn push(&mut self, name: &[u8]) -> Result<(), Memory>
        requires fresh { IsNewName self.old name.now }
        ensures pushed { OnOk result (self.new ≡ self.old ++ name.now ∷ []) }
        ensures unchanged { OnErr result (self.new ≡ self.old) }
    {
        let alloc = *self.set.allocator();
        let bytes = Vec::from_slice(alloc, name)?;
        self.set.insert(bytes)?;
        Ok(())
    }
}

/// Whether a byte is a letter, a digit or `_`.
fn is_name_byte(c: u8) -> bool
    ensures { IsTrue result ↔ IsNameByte c }
{
    matches!(c, b'0'..=b'9' | b'A'..=b'Z' | b'_' | b'a'..=b'z')
}

/// Whether the bytes have the form of a name: 1 to 32 letters, digits and `_`.
pub fn is_name(bytes: &[u8]) -> bool
    ensures { IsTrue result ↔ IsName bytes.now }
{
    1 <= bytes.len() && bytes.len() <= 32 && bytes.iter().all(|c| is_name_byte(*c))
}
