// The edges of a graph by their ends, and by the numbers of these, that do not change once made.
ghost use Rattle.std.specs.Prelude.{◌≡◌, ℕ, List, length, IfOk};
ghost use Rattle.sfm_graphic.specs.Ends.{edges_of};

use sfm_base::Memory;
use std::alloc::Global;
use std::marker::Model;

/// Edges of a graph, seen as a list of edges with a tail and a head.
#[derive(Drop)]
pub struct Ends {
    items: Vec<(u32, u32)>,
}

impl Model for Ends {
    ghost use Rattle.std.specs.Prelude.{List};
    ghost use Rattle.sfm_spec.specs.Kinds.{Edge};
    ghost use Rattle.sfm_graphic.specs.Ends.{edges_of};

    ghost Value = { List Edge };

    ghost view = { λ s. edges_of s.items.items };
}

impl Ends {
    /// A copy of the edges.
    ///
    /// # Errors
    ///
    /// `Memory` where there is none.
    pub(crate) fn from_slice(alloc: Global, ends: &[(u32, u32)]) -> Result<Ends, Memory>
        ensures { IfOk result (λ r. r ≡ edges_of ends.now) }
    {
        let items = Vec::from_slice(alloc, ends)?;
        Ok(Ends { items })
    }

    /// The tail and the head of each edge.
    pub fn as_slice(&self) -> &[(u32, u32)]
        ensures { edges_of result.now ≡ self.now }
    {
        self.items.as_slice()
    }

    /// A copy.
    ///
    /// # Errors
    ///
    /// `Memory` where there is none.
    pub(crate) fn copy(&self, alloc: Global) -> Result<Ends, Memory>
        ensures { IfOk result (λ r. r ≡ self.now) }
    {
        Ends::from_slice(alloc, self.as_slice())
    }
}

/// Edges by the numbers of their tails and heads, seen as a list of pairs.
#[derive(Drop)]
pub(crate) struct Pairs {
    items: Vec<(usize, usize)>,
}

impl Model for Pairs {
    ghost use Rattle.std.specs.Prelude.{List, ℕ};

    ghost Value = { List (ℕ × ℕ) };

    ghost view = { λ s. s.items.items };
}

impl Pairs {
    /// The pairs of a vector, which is taken over.
    pub(crate) fn from_vec(items: Vec<(usize, usize)>) -> Pairs
        ensures { result ≡ items.items }
    {
        Pairs { items }
    }

    /// The pairs in order.
    pub(crate) fn as_slice(&self) -> &[(usize, usize)]
        ensures { result.now ≡ self.now }
    {
        self.items.as_slice()
    }

    /// A copy.
    ///
    /// # Errors
    ///
    /// `Memory` where there is none.
    pub(crate) fn copy(&self, alloc: Global) -> Result<Pairs, Memory>
        ensures { IfOk result (λ r. r ≡ self.now) }
    {
        let items = Vec::from_slice(alloc, &self.items)?;
        Ok(Pairs { items })
    }
}
