// The words that a term line begins with.
ghost use Rattle.std.specs.Prelude.{◌≡◌, ◌≢◌, MatchBool, MatchOption};
ghost use Rattle.sfm_lines.specs.{Words.{word_text}, declared.word.TermWord.{TermWord}};

/// What a term line may begin with.
#[derive(Clone, Copy, PartialEq, Eq)]
pub enum TermWord {
    /// `weight`
    WeightWord,
    /// `cut`
    CutWord,
    /// `need`
    NeedWord,
    /// `cover`
    CoverWord,
    /// `table`
    TableWord,
    /// `concave`
    ConcaveWord,
    /// `rank`
    RankWord,
}

/// Which rank a line means by its third word.
#[derive(Clone, Copy, PartialEq, Eq)]
pub enum RankKind {
    /// None: the line is of another word.
    NoRank,
    /// `uniform`
    UniformRank,
    /// `laminar`
    LaminarRank,
    /// `graphic`
    GraphicRank,
    /// `transversal`
    TransversalRank,
}

/// Whether a token is that word.
pub fn is_word(token: &[u8], word: &[u8]) -> bool
    ensures { MatchBool result (token.now ≡ word.now) (token.now ≢ word.now) }
{
    token == word
}

/// The word that a token is, or None where it is none.
pub fn term_word(token: &[u8]) -> Option<TermWord>
    ensures { MatchOption result
        ((word : TermWord) → token.now ≢ word_text word)
        (λ word. token.now ≡ word_text word) }
{
    if is_word(token, b"weight") {
        return Some(TermWord::WeightWord);
    }
    if is_word(token, b"cut") {
        return Some(TermWord::CutWord);
    }
    if is_word(token, b"need") {
        return Some(TermWord::NeedWord);
    }
    if is_word(token, b"cover") {
        return Some(TermWord::CoverWord);
    }
    if is_word(token, b"table") {
        return Some(TermWord::TableWord);
    }
    if is_word(token, b"concave") {
        return Some(TermWord::ConcaveWord);
    }
    if is_word(token, b"rank") {
        return Some(TermWord::RankWord);
    }
    None
}
