// Rows turned round: for each place the set of the places from which a link leads to it. A search backwards joins these sets,
// one for each place of a level, and looks at no other place. Where a row changes, only the bits in which it differs are
// turned over.
ghost use Rattle.std.specs.Prelude.{◌≡◌, ◌≢◌, ◌<◌, ◌≤◌, ℕ, length, IfOk};
ghost use Rattle.sfm_reach.specs.{Bits.{bit_in, set_at}, Turned.{AreTurned}};

use crate::ahead::Ahead;
use crate::bits::{Bits, no_bits};
use sfm_base::Memory;
use std::alloc::Global;

/// Brings the sets up where the row of e changes.
pub fn turn(back: &mut [Bits], e: usize, before: &Bits, after: &Bits)
    requires place { e < 256 }
    requires count { length back.old ≡ 256 }
    requires column { (t : ℕ) → t < 256 → bit_in (set_at back.old t) e ≡ bit_in before.now t }
    ensures count { length back.new ≡ 256 }
    ensures column { (t : ℕ) → t < 256 → bit_in (set_at back.new t) e ≡ bit_in after.now t }
    ensures others { (k t : ℕ) → k ≢ e → bit_in (set_at back.new t) k
        ≡ bit_in (set_at back.old t) k }
{
    let changed = before.differing(after);
    let mut ahead = Ahead::of(&changed);
    while let Some(t) = ahead.next() {
        back[t].write(e, after.contains(t));
    }
}

/// The rows turned round.
pub fn turned_of(alloc: Global, rows: &[Bits]) -> Result<Vec<Bits>, Memory>
    requires { length rows.now ≤ 256 }
    ensures { IfOk result (λ r. AreTurned rows.now r.items) }
{
    let mut back = vec![in alloc; no_bits(); 256]?;
    let none = no_bits();
    for (e, row) in rows.iter().enumerate() {
        turn(&mut back, e, &none, row);
    }
    Ok(back)
}
