// The kinds of terms that a demonstration has many of, and what it draws for an element.

/// A kind of term of which a demonstration has many lines.
#[derive(Clone, Copy, PartialEq, Eq)]
pub enum LineKind {
    Cut,
    Need,
    Cover,
    Concave,
    Uniform,
    Laminar,
    Graphic,
    Transversal,
    Table,
}

/// What is drawn for an element.
#[derive(Clone, Copy, PartialEq, Eq)]
pub enum Item {
    /// A weight.
    Pair,
    /// Two vertices.
    Edge,
    /// Two slots.
    Entry,
}
