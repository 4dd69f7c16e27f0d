// Sets of places as words of 64 bits each, bit t of word k telling of the place 64·k + t. A call goes over the words once
// and says what it does to each bit.
ghost use Rattle.std.specs.{Prelude.{◌≡◌, ◌≢◌, ◌↔◌, ◌==◌, ℕ, ◌*◌, ◌<◌, ◌≤◌, ◌^◌, length, IsTrue, MatchOption}, Int.{bit_at}};
ghost use Rattle.sfm_spec.specs.Sets.{size};
ghost use Rattle.sfm_base.specs.Words.{bit_of, members, joint};

/// What becomes of a set with another one: the places of either, those of both, or those that the other has not.
#[derive(Clone, Copy)]
pub enum Joining {
    Union,
    Intersection,
    Difference,
}

impl Joining {
    /// What becomes of a word with another one.
    #[inline(always)]
    fn of(self, word: u64, other: u64) -> u64
        ensures { (t : ℕ) → bit_at result t ≡ joint self (bit_at word t) (bit_at other t) }
    {
        match self {
            Joining::Union => word | other,
            Joining::Intersection => word & other,
            Joining::Difference => word ^ (word & other),
        }
    }
}

/// Makes of each word what becomes of it with the other one.
#[inline(always)]
pub fn join(words: &mut [u64], other: &[u64], joining: Joining)
    requires { length words.old ≡ length other.now }
    ensures { (e : ℕ) → bit_of words.new e ≡ joint joining (bit_of words.old e)
        (bit_of other.now e) }
{
    for k in 0..words.len() {
        words[k] = joining.of(words[k], other[k]);
    }
}

/// The word with bit t set where the place is to be a member, and cleared where not; the other bits stay.
#[inline(always)]
pub fn with_bit(word: u64, t: usize, member: bool) -> u64
    requires { t < 64 }
    ensures there { (bit_at result t == 1) ≡ member }
    ensures others { (k : ℕ) → k < 64 → k ≢ t → bit_at result k ≡ bit_at word k }
{
    if member {
        word | 1 << t
    } else {
        word & !(1 << t)
    }
}

/// Whether the other words have each place that the words have.
pub fn are_within(words: &[u64], other: &[u64]) -> bool
    requires { length words.now ≡ length other.now }
    ensures { IsTrue result ↔ ((e : ℕ) → bit_of words.now e ≤ bit_of other.now e) }
{
    for k in 0..words.len() {
        if words[k] & other[k] != words[k] {
            return false;
        }
    }
    true
}

/// How many places the words have.
pub fn count(words: &[u64]) -> usize
    requires { size (members (64 * length words.now) words.now) < 2 ^ 64 }
    ensures { result ≡ size (members (64 * length words.now) words.now) }
{
    let mut total = 0;
    for word in words {
        total += word.count_ones() as usize;
    }
    total
}

/// The least place that the words have.
pub fn first(words: &[u64]) -> Option<usize>
    requires { length words.now ≤ 2 ^ 58 }
    ensures { MatchOption result ((e : ℕ) → bit_of words.now e ≡ 0)
        (λ e. (bit_of words.now e ≡ 1) × ((k : ℕ) → k < e → bit_of words.now k ≡ 0)) }
{
    for (k, word) in words.iter().enumerate() {
        if *word != 0 {
            return Some(64 * k + word.trailing_zeros() as usize);
        }
    }
    None
}
