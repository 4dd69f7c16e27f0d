// What a line tells of a term.
use sfm_kind::Kind;
use sfm_law::Term;

/// The kind of a term, and what it has beside its places.
pub(super) enum Numbers {
    Weights(&'static [i128]),
    Cut(i128),
    Need,
    Cover(i128),
    Table(&'static [i128]),
    Concave(&'static [i128]),
    /// The worth and the cap.
    Uniform(i128, i128),
    /// The worth and the count of groups.
    Laminar(i128, usize),
    /// The worth and the ends.
    Graphic(i128, &'static [(u32, u32)]),
    /// The worth and the count of entries.
    Transversal(i128, usize),
}

/// A term.
pub(super) struct Told {
    pub places: &'static [usize],
    pub numbers: Numbers,
}

/// Whether a term is of that kind, a plain one, with these numbers.
fn is_plain(term: &Kind, numbers: &Numbers) -> bool {
    match (term, numbers) {
        (Kind::Weight(term), Numbers::Weights(weights)) => term.weights.as_slice() == *weights,
        (Kind::Cut(term), Numbers::Cut(c)) => term.c == *c,
        (Kind::Need(_), Numbers::Need) => true,
        (Kind::Cover(term), Numbers::Cover(w)) => term.w == *w,
        (Kind::Table(term), Numbers::Table(values)) => term.values.as_slice() == *values,
        (Kind::Concave(term), Numbers::Concave(values)) => term.values.as_slice() == *values,
        _ => false,
    }
}

/// Whether a term is of that kind, a rank, with these numbers.
fn is_rank(term: &Kind, numbers: &Numbers) -> bool {
    match (term, numbers) {
        (Kind::Uniform(term), Numbers::Uniform(w, cap)) => term.w == *w && term.cap == *cap,
        (Kind::Laminar(term), Numbers::Laminar(w, groups)) => {
            term.w == *w && term.groups.len() == *groups
        }
        (Kind::Graphic(term), Numbers::Graphic(w, ends)) => {
            term.w == *w && term.ends.as_slice() == *ends
        }
        (Kind::Transversal(term), Numbers::Transversal(w, entries)) => {
            term.w == *w && term.entries.len() == *entries
        }
        _ => false,
    }
}

/// Whether a term is that one.
fn is_told(term: &Kind, told: &Told) -> bool {
    term.elements() == told.places
        && (is_plain(term, &told.numbers) || is_rank(term, &told.numbers))
}

/// Whether terms are these, in order.
pub(super) fn are_told(terms: &[Kind], told: &[Told]) -> bool {
    for (term, row) in terms.iter().zip(told) {
        if !is_told(term, row) {
            return false;
        }
    }
    terms.len() == told.len()
}
