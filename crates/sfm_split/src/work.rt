// The memory in which a split is changed, used again and again: the amounts on the cells, what these leave of demands and of slots,
// and the memory of the searches. A change is found here, beside the split that stands, and then put in its place. Lists are
// made as long as the split wants them: where they have been as long before, no memory is taken.
ghost use Rattle.std.specs.Prelude.{◌≡◌, [], length, pos, replicate, IfOk, OnOk};
ghost use Rattle.sfm_split.specs.Search.{missing, AreQueued};

use crate::search::Search;
use sfm_base::Memory;
use sfm_cells::Lefts;
use std::alloc::Global;
use std::mem;

/// The memory in which a split is changed.
pub struct Work {
    pub y: Vec<i128>,
    pub left: Lefts,
    pub(crate) rest: Rest,
}

// Written out, so that letting one go is one step, which is proved here once.
impl Drop for Work {
    fn drop(self) {
        let Self {
            y: _,
            left: _,
            rest: _,
        } = self;
    }
}

impl Work {
    /// Memory of no length, which grows with the first change.
    pub fn new(alloc: Global) -> Work {
        Work {
            y: Vec::new(alloc),
            left: Lefts {
                lacks: Vec::new(alloc),
                rooms: Vec::new(alloc),
                lacking: Vec::new(alloc),
            },
            rest: Rest::new(alloc),
        }
    }
}

/// The memory of searches between one filling and the next, with nothing found.
#[derive(Drop)]
pub(crate) struct Rest {
    search: Search,
    ghost none: { missing search.nodes.items ≡ length search.nodes.items },
    ghost empty: { search.queue.items ≡ [] },
}

impl Rest {
    /// Memory for searches among nothing.
    pub(crate) fn new(alloc: Global) -> Rest {
        Rest {
            search: Search::none(alloc),
        }
    }

    /// Takes out memory for searches among n demands and m slots: what is kept, if it is as long, or else new memory.
    pub(crate) fn ready(&mut self, alloc: Global, n: usize, m: usize) -> Result<Search, Memory>
        ensures nodes { IfOk result (λ r. length r.nodes.items ≡ n) }
        ensures marks { IfOk result (λ r. length r.marks.items ≡ m) }
        ensures queued { IfOk result (λ r. AreQueued r.nodes.items r.queue.items) }
    {
        let search = mem::replace(&mut self.search, Search::none(alloc));
        if search.nodes.len() == n && search.marks.len() == m {
            return Ok(search);
        }
        let search = Search::new(alloc, n, m)?;
        Ok(search)
    }

    /// Keeps the memory of searches for the next filling.
    pub(crate) fn keep(&mut self, mut search: Search)
        requires { AreQueued search.nodes.items search.queue.items }
    {
        search.clear();
        self.search = search;
    }
}

/// Writes a list over another: at once where that is as long, as clearing it would go through it.
pub(crate) fn copy_list(to: &mut Vec<i128>, from: &[i128]) -> Result<(), Memory>
    ensures { OnOk result (to.new.items ≡ from.now) }
{
    if to.len() == from.len() {
        to.copy_from_slice(from);
        return Ok(());
    }
    to.clear();
    to.extend_from_slice(from)?;
    Ok(())
}

/// Writes as many zeros over a list as another list is long.
pub(crate) fn write_zeros(to: &mut Vec<i128>, like: &[i128]) -> Result<(), Memory>
    ensures { OnOk result (to.new.items ≡ replicate (length like.now) (pos 0)) }
{
    if to.len() != like.len() {
        copy_list(to, like)?;
    }
    to.fill(0);
    Ok(())
}
