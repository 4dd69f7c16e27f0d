// Each call once with ample memory, and the reader of numbers on the texts at the edges of its grammar and its bound. What a test
// asks is said by functions that answer yes or no, and no where memory lacks.
use sfm_base::{Memory, Numbers, Page, Places, Rows, Set, Slope, read_number};
use std::alloc::Global;
use std::cmp::Ordering;

/// Texts, and the number that each is read as.
const NUMBERS: [(&[u8], Option<i128>); 14] = [
    (b"0", Some(0)),
    (b"-0", None),
    (b"007", None),
    (b"+1", None),
    (b"", None),
    (b"-", None),
    (b"--1", None),
    (b"12a", None),
    (b"-17", Some(-17)),
    (
        b"1000000000000000000000000000000",
        Some(1_000_000_000_000_000_000_000_000_000_000),
    ),
    (b"1000000000000000000000000000001", None),
    (
        b"-1000000000000000000000000000000",
        Some(-1_000_000_000_000_000_000_000_000_000_000),
    ),
    (b"-1000000000000000000000000000001", None),
    (&[b'9'; 200], None),
];

#[test]
fn numbers_are_read(rt: HostRuntime) {
    for (text, wanted) in &NUMBERS {
        assert!(rt; read_number(text) == *wanted);
    }
}

/// Whether a slope has that numerator and that denominator.
fn is_slope(slope: &Slope, num: i128, den: i128) -> bool {
    slope.num == num && slope.den == den
}

/// Whether a slope is below another.
fn is_below(low: &Slope, high: &Slope) -> bool {
    low.compare(high) == Ordering::Less && high.compare(low) == Ordering::Greater
}

/// Whether slopes are in lowest terms, and in order.
fn are_slopes() -> bool {
    let half = Slope::new(-2, 4);
    let none = Slope::new(0, 7);
    is_slope(&half, -1, 2) && is_slope(&none, 0, 1) && is_below(&half, &none)
}

/// Whether two slopes are equal that are told otherwise.
fn are_equal() -> bool {
    Slope::new(5, 10).compare(&Slope::new(1, 2)) == Ordering::Equal
}

#[test]
fn slopes_are_lowest_and_ordered(rt: HostRuntime) {
    assert!(rt; are_slopes() && are_equal());
}

/// The set of those of some places that are in a ground of n.
fn set_of(alloc: Global, n: usize, places: &[usize]) -> Result<Set, Memory> {
    let mut set = Set::empty(alloc, n)?;
    put_all(&mut set, places);
    Ok(set)
}

/// Puts those of some places that are in its ground into a set.
fn put_all(set: &mut Set, places: &[usize]) {
    for e in places {
        if *e < set.len() {
            set.insert(*e);
        }
    }
}

/// Whether a set has a place of its ground.
fn has(set: &Set, e: usize) -> bool {
    e < set.len() && set.contains(e)
}

/// Whether each place of a set is in another of the same ground.
fn is_part(set: &Set, other: &Set) -> bool {
    set.len() == other.len() && set.is_within(other)
}

/// Whether a set of two places has the first, which another lacks, and all of that one's.
fn has_first_beside(some: &Set, other: &Set) -> bool {
    some.size() == 2
        && other.size() == 1
        && has(some, 0)
        && !has(other, 0)
        && is_part(other, some)
        && !is_part(some, other)
}

const ENDS: [usize; 2] = [0, 2];

/// Whether a copy of a set lacks the first place once it is taken from it, which the set keeps.
fn keeps_first(alloc: Global, some: &Set) -> bool {
    let Ok(mut other) = some.copy(alloc) else {
        return false;
    };
    if other.len() == 0 {
        return false;
    }
    other.remove(0);
    has_first_beside(some, &other)
}

/// Whether a set holds its places.
fn holds_places(alloc: Global) -> bool {
    match set_of(alloc, 3, &ENDS) {
        Ok(some) => keeps_first(alloc, &some),
        Err(_) => false,
    }
}

/// Whether two sets of three places have each of them. The first has then.
fn joins(low: &mut Set, high: &Set) -> bool {
    if low.len() != 3 || high.len() != 3 {
        return false;
    }
    low.union_with(high);
    low.size() == 3
}

/// Whether without the last place the first set has the middle one alone with the second. It has that one then.
fn meets(low: &mut Set, high: &Set) -> bool {
    if low.len() != 3 || high.len() != 3 {
        return false;
    }
    low.remove(2);
    low.keep_with(high);
    low.size() == 1 && has(low, 1)
}

/// Whether a set has nothing once it is cleared.
fn clears(set: &mut Set) -> bool {
    set.clear();
    set.size() == 0
}

const LOW: [usize; 2] = [0, 1];

const HIGH: [usize; 2] = [1, 2];

/// Whether two sets join and meet.
fn joins_and_meets(alloc: Global) -> bool {
    let Ok(mut low) = set_of(alloc, 3, &LOW) else {
        return false;
    };
    let Ok(high) = set_of(alloc, 3, &HIGH) else {
        return false;
    };
    joins(&mut low, &high) && meets(&mut low, &high) && clears(&mut low)
}

const PLACES: [usize; 2] = [64, 129];

/// Whether a part has the second and the last of its three places.
fn has_last_two(part: &Set) -> bool {
    part.len() == 3 && !has(part, 0) && has(part, 1) && has(part, 2)
}

/// Whether the part of a set of 130 places has its places.
fn has_part(alloc: Global, some: &Set) -> bool {
    if some.len() != 130 {
        return false;
    }
    match some.part(alloc, &[63, 64, 129]) {
        Ok(part) => has_last_two(&part),
        Err(_) => false,
    }
}

/// Whether parts of many words have their places.
fn has_parts(alloc: Global) -> bool {
    match set_of(alloc, 130, &PLACES) {
        Ok(some) => has_part(alloc, &some),
        Err(_) => false,
    }
}

#[test]
fn sets_hold_their_places(rt: HostRuntime) {
    assert!(rt; holds_places(rt.alloc()));
    assert!(rt; joins_and_meets(rt.alloc()) && has_parts(rt.alloc()));
}

/// Whether a set has that place alone, and so many words as its places fill.
fn has_only(some: &Set, e: usize) -> bool {
    some.size() == 1 && some.first() == Some(e) && some.words().len() == some.len().div_ceil(64)
}

/// Whether the empty set of n places has the last once it is put in, and is empty without the whole.
fn takes_the_last(some: &mut Set, whole: &Set, n: usize) -> bool {
    if n == 0 || some.len() != n || whole.len() != n {
        return false;
    }
    some.put(n - 1, true);
    let has_last = has_only(some, n - 1);
    some.remove_all(whole);
    has_last && some.is_empty()
}

/// Whether the one set has all n places, and the other none.
fn are_whole_and_none(whole: &Set, none: &Set, n: usize) -> bool {
    whole.len() == n
        && none.len() == n
        && whole.size() == n
        && none.size() == 0
        && none.is_empty()
        && none.first().is_none()
}

/// Whether the whole, the empty and the last part of a ground of n places are so.
fn fills_its_words(alloc: Global, n: usize) -> bool {
    let Ok(whole) = Set::whole(alloc, n) else {
        return false;
    };
    let Ok(mut none) = whole.complement(alloc) else {
        return false;
    };
    are_whole_and_none(&whole, &none, n) && (n == 0 || takes_the_last(&mut none, &whole, n))
}

const COUNTS: [usize; 5] = [0, 1, 64, 65, 130];

#[test]
fn sets_of_many_words_fill_them(rt: HostRuntime) {
    for n in &COUNTS {
        assert!(rt; fills_its_words(rt.alloc(), *n));
    }
}

const TWO_PLACES: [usize; 2] = [4, 1];

/// Whether places keep their order.
fn keeps_order(alloc: Global) -> bool {
    match Places::from_slice(alloc, &TWO_PLACES) {
        Ok(places) => places.as_slice() == TWO_PLACES.as_slice() && places.len() == 2,
        Err(_) => false,
    }
}

const TWO_NUMBERS: [i128; 2] = [5, -6];

const WRITTEN: [i128; 2] = [5, 7];

/// Whether two numbers are as they are to be once the second is written anew.
fn writes_second(numbers: &mut Numbers) -> bool {
    if numbers.len() != 2 {
        return false;
    }
    numbers.as_mut_slice()[1] = 7;
    numbers.as_slice() == WRITTEN.as_slice()
}

/// Whether rows have one alone, with these numbers.
fn is_only_row(rows: &Rows, numbers: &[i128]) -> bool {
    rows.len() == 1 && rows.row(0) == numbers
}

/// Whether rows keep these numbers, and so does a copy of them.
fn keeps_row(alloc: Global, numbers: &Numbers) -> bool {
    let mut rows = Rows::new(alloc);
    if !rows.is_empty() || rows.push(numbers.as_slice()).is_err() || !is_only_row(&rows, &WRITTEN) {
        return false;
    }
    match rows.copy(alloc) {
        Ok(copied) => is_only_row(&copied, &WRITTEN),
        Err(_) => false,
    }
}

/// Whether numbers are written, and rows keep them.
fn keeps_numbers(alloc: Global) -> bool {
    match Numbers::from_slice(alloc, &TWO_NUMBERS) {
        Ok(mut numbers) => writes_second(&mut numbers) && keeps_row(alloc, &numbers),
        Err(_) => false,
    }
}

const BOTH: &[u8] = b"abcde";

/// Whether a page has two texts, one behind the other, once they are put in.
fn takes_both(page: &mut Page) -> bool {
    let Ok(()) = page.reserve(5) else {
        return false;
    };
    page.put(b"ab");
    if page.spare() < 3 {
        return false;
    }
    page.put(b"cde");
    page.bytes() == BOTH
}

/// Whether a page takes what there is room for.
fn fills_a_page(alloc: Global) -> bool {
    let mut page = Page::new(alloc);
    takes_both(&mut page) && page.into_vec().as_slice() == BOTH
}

#[test]
fn lists_keep_what_they_take(rt: HostRuntime) {
    assert!(rt; keeps_order(rt.alloc()) && keeps_numbers(rt.alloc()));
    assert!(rt; fills_a_page(rt.alloc()));
}
