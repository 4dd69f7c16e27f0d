// What the calls of a term read together: a base, an exchange at it, and the place whose reach is asked there.

/// A base x of q times a term, by local place.
#[derive(Clone, Copy)]
pub struct At<'a> {
    pub q: i128,
    pub x: &'a [i128],
}

/// An exchange: the place u is raised by a, and the place v lowered by it.
#[derive(Clone, Copy)]
pub struct Swap {
    pub u: usize,
    pub v: usize,
    pub a: i128,
}

/// A place whose reach is asked, and one that it is or has room to: where no other is known, itself.
#[derive(Clone, Copy)]
pub struct Lead {
    pub from: usize,
    pub onto: usize,
}
