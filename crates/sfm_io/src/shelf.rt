// A shelf of named texts, one of which may be open. What a shelf tells of itself is optional: a shelf over files
// tells nothing of their bytes, a shelf over memory tells everything, and a caller is proved for both at once.
ghost use Rattle.std.specs.Prelude.{◌≡◌, List, ℕ, IsSome, true};
ghost use Rattle.sfm_io.specs.Shelf.{ShelfState, Opens, Reads};

/// A call that the outside refused. The object's count of faults rose.
#[derive(Clone, Copy, Debug, PartialEq, Eq)]
pub struct Failed;

/// Named texts that can be opened and read, one at a time.
pub trait Shelf {
    /// The texts and the unread bytes, where they are told, the count of faults, whether no call can fail any more, and the
    /// names that `open` was asked for.
    ghost state: { Self → ShelfState };

    /// Opens the text of that name at its first byte. After a failed call nothing is open.
    fn open(&mut self, name: &str) -> Result<(), Failed>
        ensures { Opens (state self.old) name.now result (state self.new) };

    /// Puts the next bytes of the open text at the front of the buffer, and tells how many. Into a buffer that is
    /// not empty it puts none only at the end of the text, or where nothing is open.
    fn read(&mut self, buf: &mut [u8]) -> Result<usize, Failed>
        ensures { Reads (state self.old) result buf.new (state self.new) };

    /// A sound shelf tells its texts.
    ghost sound_is_told: { (shelf : Self) → (state shelf).sound ≡ true
        → IsSome (state shelf).texts };

    /// A shelf that tells its texts tells what is unread.
    ghost texts_tell_rest: { (shelf : Self) → IsSome (state shelf).texts
        → IsSome (state shelf).rest };
}
