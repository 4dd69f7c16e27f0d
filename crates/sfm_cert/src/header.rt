// The first line of an answer text: it tells whether the slopes count each element as one, or by its size.
ghost use Rattle.std.specs.Prelude.{◌≡◌};
ghost use Rattle.sfm_cert.specs.Header.{header_text};

/// The first line of an answer text.
#[derive(Clone, Copy, PartialEq, Eq)]
pub enum Header {
    /// `answer 1`: each element counts one.
    Answer,
    /// `weighed 1`: each element counts its size.
    Weighed,
}

impl Header {
    /// Its text, without a line feed.
    pub fn text(self) -> &'static [u8]
        ensures { result.now ≡ header_text self }
    {
        match self {
            Header::Answer => b"answer 1",
            Header::Weighed => b"weighed 1",
        }
    }
}
