// The pieces of a line between semicolons alone, one after another, each as a part of the line, so that no list of them or of
// their tokens is made.
ghost use Rattle.std.specs.{Prelude.{◌≡◌, ◌<◌, ◌∷◌, false, length, IfSome, MatchOption}, List.{All}};
ghost use Rattle.sfm_lines.specs.{Lines.{tokens_of}, CutParts.{is_semicolon, cut_at_semicolons}};
ghost use Rattle.sfm_passes.specs.GroupPasses.{IsPieceCut, pieces_left};

use sfm_lines::laminar_line::is_semicolon_token;
use sfm_lines::tokens::first_token;

/// The line before its first semicolon alone and the line behind that, or None where it has none.
fn semicolon_cut(line: &[u8]) -> Option<(&[u8], &[u8])>
    ensures cut { MatchOption result
        (All (λ token. is_semicolon token ≡ false) (tokens_of line.now))
        (λ r. IsPieceCut (tokens_of line.now) (tokens_of r.0.now) (tokens_of r.1.now)) }
    ensures shorter { IfSome result (λ r. length r.1.now < length line.now) }
{
    let mut left = line;
    while let Some((token, behind)) = first_token(left) {
        if is_semicolon_token(token) {
            return Some((&line[..line.len() - left.len()], behind));
        }
        left = behind;
    }
    None
}

/// The first piece of a line, and the line behind its semicolon, if there is one.
pub fn first_piece(line: &[u8]) -> (&[u8], Option<&[u8]>)
    ensures pieces { cut_at_semicolons (tokens_of line.now)
        ≡ tokens_of result.0.now ∷ pieces_left result.1 }
    ensures shorter { IfSome result.1 (λ rest. length rest.now < length line.now) }
{
    match semicolon_cut(line) {
        Some((piece, rest)) => (piece, Some(rest)),
        None => (line, None),
    }
}
