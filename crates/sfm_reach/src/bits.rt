// Sets of places below 256, as four words of 64 bits: the rows of what each place reaches, and the levels of a search. A
// set is a plain value and takes no memory of its own. Two sets are joined or compared by their words, which are named one by one,
// so no loop goes through them.
ghost use Rattle.std.specs.Prelude.{◌≡◌, ◌≢◌, ◌↔◌, ℕ, ◌-◌, ◌<◌, ◌≤◌, length, max, min, true, false, IsTrue, MatchOption, if◌then◌else◌};
ghost use Rattle.sfm_base.specs.Words.{bit_of};
ghost use Rattle.sfm_reach.specs.Bits.{bit_in};

/// A set of places below 256.
#[derive(Clone, Copy)]
pub struct Bits {
    pub words: [u64; 4],
}

/// The set with no place.
pub fn no_bits() -> Bits
    ensures { (e : ℕ) → bit_in result e ≡ 0 }
{
    Bits { words: [0; 4] }
}

/// The set whose places words tell, bit t of word k the place 64·k + t.
pub fn of_words(words: &[u64]) -> Bits
    requires { length words.now ≤ 4 }
    ensures { (e : ℕ) → bit_in result e ≡ bit_of words.now e }
{
    if let [a, b, c, d] = words {
        return Bits {
            words: [*a, *b, *c, *d],
        };
    }
    let mut bits = no_bits();
    for (k, word) in words.iter().enumerate() {
        bits.words[k] = *word;
    }
    bits
}

/// The set of one place.
pub fn only(place: usize) -> Bits
    requires { place < 256 }
    ensures has { bit_in result place ≡ 1 }
    ensures others { (e : ℕ) → e ≢ place → bit_in result e ≡ 0 }
{
    let mut bits = no_bits();
    bits.insert(place);
    bits
}

impl Bits {
    /// Whether the place e is in the set.
    pub fn contains(&self, e: usize) -> bool
        requires { e < 256 }
        ensures { IsTrue result ↔ (bit_in self.now e ≡ 1) }
    {
        (self.words[e / 64] >> (e % 64)) % 2 == 1
    }

    /// Puts the place e in.
    pub fn insert(&mut self, e: usize)
        requires { e < 256 }
        ensures put { bit_in self.new e ≡ 1 }
        ensures others { (k : ℕ) → k ≢ e → bit_in self.new k ≡ bit_in self.old k }
    {
        self.words[e / 64] |= 1 << (e % 64);
    }

    /// Takes the place e out.
    pub fn remove(&mut self, e: usize)
        requires { e < 256 }
        ensures out { bit_in self.new e ≡ 0 }
        ensures others { (k : ℕ) → k ≢ e → bit_in self.new k ≡ bit_in self.old k }
    {
        self.words[e / 64] &= !(1 << (e % 64));
    }

    /// Puts the place e in, or takes it out.
    pub fn write(&mut self, e: usize, put: bool)
        requires { e < 256 }
        ensures written { bit_in self.new e ≡ (if put then 1 else 0) }
        ensures others { (k : ℕ) → k ≢ e → bit_in self.new k ≡ bit_in self.old k }
    {
        if put {
            self.insert(e);
        } else {
            self.remove(e);
        }
    }

    /// Puts each place of the other set in.
    pub fn union_with(&mut self, other: &Bits)
        ensures { (e : ℕ) → bit_in self.new e ≡ max (bit_in self.old e) (bit_in other.now e) }
    {
        let [a, b, c, d] = self.words;
        let [e, f, g, h] = other.words;
        self.words = [a | e, b | f, c | g, d | h];
    }

    /// Takes each place out that the other set has not.
    pub fn meet_with(&mut self, other: &Bits)
        ensures { (e : ℕ) → bit_in self.new e ≡ min (bit_in self.old e) (bit_in other.now e) }
    {
        let [a, b, c, d] = self.words;
        let [e, f, g, h] = other.words;
        self.words = [a & e, b & f, c & g, d & h];
    }

    /// Takes each place of the other set out.
    pub fn remove_all(&mut self, other: &Bits)
        ensures { (e : ℕ) → bit_in self.new e ≡ bit_in self.old e - bit_in other.now e }
    {
        let [a, b, c, d] = self.words;
        let [e, f, g, h] = other.words;
        self.words = [a ^ (a & e), b ^ (b & f), c ^ (c & g), d ^ (d & h)];
    }

    /// The places that one of the two sets has and the other has not.
    pub fn differing(&self, other: &Bits) -> Bits
        ensures { (e : ℕ) → (bit_in result e ≡ 0) ↔ (bit_in self.now e ≡ bit_in other.now e) }
    {
        let [a, b, c, d] = self.words;
        let [e, f, g, h] = other.words;
        Bits {
            words: [a ^ e, b ^ f, c ^ g, d ^ h],
        }
    }

    /// The least place of the set.
    pub fn first(&self) -> Option<usize>
        ensures { MatchOption result ((e : ℕ) → bit_in self.now e ≢ 1)
            (λ e. (e < 256) × (bit_in self.now e ≡ 1)) }
    {
        self.first_common(self)
    }

    /// The least place that both sets have.
    pub fn first_common(&self, other: &Bits) -> Option<usize>
        ensures { MatchOption result ((e : ℕ) → bit_in self.now e ≡ 1 → bit_in other.now e ≢ 1)
            (λ e. (e < 256) × (bit_in self.now e ≡ 1) × (bit_in other.now e ≡ 1)
            × ((k : ℕ) → k < e → bit_in self.now k ≡ 1 → bit_in other.now k ≢ 1)) }
    {
        for k in 0..4 {
            let common = self.words[k] & other.words[k];
            if common != 0 {
                return Some(64 * k + common.trailing_zeros() as usize);
            }
        }
        None
    }

    /// Whether the set has no place.
    pub fn is_empty(&self) -> bool
        ensures empty { result ≡ true → (e : ℕ) → bit_in self.now e ≢ 1 }
        ensures some { result ≡ false → (e : ℕ) × (bit_in self.now e ≡ 1) }
    {
        self.first_common(self).is_none()
    }

    /// Whether another set has each place of this one.
    pub fn is_within(&self, other: &Bits) -> bool
        ensures { IsTrue result ↔ ((e : ℕ) → bit_in self.now e ≡ 1 → bit_in other.now e ≡ 1) }
    {
        let mut left = *self;
        left.remove_all(other);
        left.is_empty()
    }

    /// Whether the sets have a place in common.
    pub fn meets(&self, other: &Bits) -> bool
        ensures { IsTrue result ↔ ((e : ℕ) × (bit_in self.now e ≡ 1) × (bit_in other.now e ≡ 1)) }
    {
        self.first_common(other).is_some()
    }
}
