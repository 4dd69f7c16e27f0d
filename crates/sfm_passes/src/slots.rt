// Whether a slot stands twice in an entry of a line, told by a pass over its slots, of which there may be millions.
ghost use Rattle.std.specs.{Prelude.{Any, IfOk, MatchBool}, List.{All}};
ghost use Rattle.sfm_lines.specs.Lines.{tokens_of};
ghost use Rattle.sfm_passes.specs.Passes.{RepeatsSlot};

use crate::between::Separator;
use crate::passes::has_repeat_in;
use sfm_base::Memory;
use sfm_lines::pair::cut_once;
use sfm_lines::tokens::first_token;
use std::alloc::Global;

/// Whether a token is an entry in which a slot stands twice.
fn repeats_slot(alloc: Global, token: &[u8]) -> Result<bool, Memory>
    ensures { IfOk result (λ r. MatchBool r (RepeatsSlot token.now) (RepeatsSlot token.now → ⊥)) }
{
    let Some((element, _)) = cut_once(token, b'=') else {
        return Ok(false);
    };
    let twice = has_repeat_in(alloc, Separator::Comma, &token[element.len()..])?;
    Ok(twice)
}

/// Whether a slot stands twice in some entry of a line of a transversal rank.
pub fn has_repeated_slot(alloc: Global, line: &[u8]) -> Result<bool, Memory>
    ensures { IfOk result (λ r. MatchBool r
        (Any RepeatsSlot (tokens_of line.now))
        (All (λ token. RepeatsSlot token → ⊥) (tokens_of line.now))) }
{
    let mut left = line;
    while let Some((token, behind)) = first_token(left) {
        if repeats_slot(alloc, token)? {
            return Ok(true);
        }
        left = behind;
    }
    Ok(false)
}
