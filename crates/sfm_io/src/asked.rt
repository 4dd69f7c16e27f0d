// The names that a shelf was asked for, which only clauses read: nothing of them is kept when the program runs. So a shelf
// over files tells in which order they were opened without a copy of a name. A value that no code holds is set by a proof by
// hand alone, and that is why the two functions have one.
ghost use Rattle.std.specs.{Borrow.{ftrue}, Prelude.{◌≡◌, List, ℕ, [], ◌∷◌, ◌++◌}};

use std::marker::{Model, PhantomData};

/// Names, in the order in which they were asked for.
#[derive(Drop)]
pub(crate) struct Asked {
    of: PhantomData<u8>,
    pub ghost names: { List (List ℕ) },
}

impl Model for Asked {
    ghost also_owns = { λ _. ftrue };
}

impl Asked {
    /// None.
    pub(crate) fn new() -> Asked
        ensures { result.names ≡ [] }
    {
        Asked { of: PhantomData }
    }

    /// The same, and one name more.
    pub(crate) fn and(&self, _name: &str) -> Asked
        ensures { result.names ≡ self.now.names ++ _name.now ∷ [] }
    {
        Asked { of: PhantomData }
    }
}
