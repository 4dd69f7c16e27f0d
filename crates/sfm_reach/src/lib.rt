// What the places of terms reach at bases of theirs, as rows of bits: for each place of each term the ground places to which the
// term has room from there, and for each place of the ground the union of the rows of its terms, forwards and turned round. What
// some first places lead to is read off these. Whoever keeps them brings them up.
#![tactic(auto)]

mod ahead;
mod asking;
mod bits;
mod image;
mod noted;
mod reach;
mod reached;
mod spots;
mod turned;
mod unions;

pub use ahead::Ahead;
pub use asking::ask_all;
pub use bits::{Bits, no_bits, only};
pub use image::Image;
pub use noted::{ask_kept, keep_note, no_notes, row_kept};
pub use reach::{Based, BitRows, ask, blank_rows, row_beside, row_by};
pub use reached::{reached_from, set_of, take_in};
pub use spots::{Spot, Spots, spots_of};
pub use turned::turned_of;
pub use unions::{renew, unions_of, widen};
