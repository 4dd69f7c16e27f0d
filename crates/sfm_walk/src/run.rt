// What a minimisation keeps beside the graph: z and its signs, the levels of the last search, and the walk that is found.
ghost use Rattle.std.specs.Prelude.{◌≡◌, ◌≤◌, [], length};
ghost use Rattle.sfm_exchange.specs.Signs.{AreSigns};

use sfm_exchange::{Bits, Path, Signs, signs_of};
use std::alloc::Global;

/// z with its signs, the levels of a search, and the walk that is moved along.
#[derive(Drop)]
pub struct Run {
    pub z: Vec<i128>,
    pub signs: Signs,
    pub levels: Vec<Bits>,
    pub path: Path,
}

/// A run at z, before any search.
pub fn run_at(alloc: Global, z: Vec<i128>) -> Run
    requires { length z.items ≤ 256 }
    ensures z { result.z ≡ z }
    ensures signs { AreSigns z.items result.signs }
    ensures levels { result.levels.items ≡ [] }
{
    let signs = signs_of(&z);
    Run {
        z,
        signs,
        levels: Vec::new(alloc),
        path: Path {
            first: 0,
            hops: Vec::new(alloc),
        },
    }
}
