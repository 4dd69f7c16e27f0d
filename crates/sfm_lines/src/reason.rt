// Why an instance text is refused.
ghost use Rattle.std.specs.Prelude.{◌≡◌};

/// The reason of a refusal, in the order in which one comes before another on a line.
#[derive(Clone, Copy, Debug, PartialEq, Eq)]
pub enum Reason {
    /// The text is too long.
    Long,
    /// A byte that no such line may hold.
    Bytes,
    /// The first word of the line is not known, or not in its place.
    Word,
    /// The tokens do not fit the pattern of the line.
    Shape,
    /// A number is none, or outside its range.
    Number,
    /// A name is none, or not one of the ground, or a group's is none of its line.
    Name,
    /// A name stands twice.
    Twice,
    /// The values break the law of their kind.
    Law,
    /// There is too much of something in all.
    Total,
    /// The text ends too early.
    Short,
}

impl Reason {
    ghost use Rattle.sfm_lines.specs.Reasons.{reason_word};

    /// The word that names the reason in a refusal.
    pub fn word(&self) -> &'static [u8]
        ensures { result.now ≡ reason_word self.now }
    {
        match self {
            Reason::Long => b"long",
            Reason::Bytes => b"bytes",
            Reason::Word => b"word",
            Reason::Shape => b"shape",
            Reason::Number => b"number",
            Reason::Name => b"name",
            Reason::Twice => b"twice",
            Reason::Law => b"law",
            Reason::Total => b"total",
            Reason::Short => b"short",
        }
    }
}
