// From an instance to the bytes of its answer: bases that prove the minimum are found by walks of exchanges, what they tell is
// read off the graph that is there, and all slopes are sought, each with its bases, by the graphs that the minimum was found
// with. Elements have sizes, by which the slopes go; the minimum does not depend on them. To solve an instance is to weigh it
// where each element counts one.
ghost use Rattle.std.specs.Prelude.{◌≡◌, IfOk, IfErr, length};
ghost use Rattle.sfm_spec.specs.Laws.{ones};
ghost use Rattle.sfm_sizes.specs.Sizes.{AreElementSizes};
ghost use Rattle.sfm_cert.specs.{Header.{header_text}, Solved.{answer_of}};
ghost use Rattle.sfm_text.specs.GoodText.{IsRefusalOf};
ghost use Rattle.sfm_due.specs.{Due.{IsAsked, IsSolved, IsSolvedBy, Question}, Meanings.{question_of}, Solving.{IsTrueAnswer}};

use sfm_base::Memory;
use sfm_cert::{Header, Solved, write_with};
use sfm_extreme::{Minimisers, Proved, minimisers_at};
use sfm_kind::Instance;
use sfm_sizes::ones;
use sfm_slope::{Search, partition_with};
use sfm_text::{TextEnd, read_instance};
use std::alloc::{AllocError, Global};

/// The answer of an instance where each element has its size, with bases that prove it.
///
/// # Errors
///
/// `Memory` where there is none.
pub fn solve_by(alloc: Global, instance: &Instance, sizes: &[i128]) -> Result<Solved, Memory>
    requires { AreElementSizes (length instance.now.names) sizes.now }
    ensures { IfOk result (λ s. IsTrueAnswer instance.now sizes.now (answer_of s)) }
{
    let terms = instance.terms();
    let n = instance.names_len();
    let mut search = Search::new(alloc, terms, n)?;
    let bases = search.optimum(terms)?;
    let found = minimisers_at(alloc, terms, n, &search.cold)?;
    let breaks = partition_with(&mut search, terms, sizes)?;
    let Minimisers { proved, blocks } = found;
    let Proved {
        value,
        least,
        greatest,
    } = proved;
    Ok(Solved {
        value,
        least,
        greatest,
        blocks,
        bases,
        breaks,
    })
}

/// The text of a right file, with that first line, for an instance where each element has its size.
pub(crate) fn file_by(
    alloc: Global,
    header: Header,
    instance: &Instance,
    sizes: &[i128],
) -> Result<Vec<u8>, Memory>
    requires { AreElementSizes (length instance.now.names) sizes.now }
    ensures { IfOk result (λ file. IsSolvedBy (header_text header) sizes.now
        (question_of instance.now) file.items) }
{
    let solved = solve_by(alloc, instance, sizes)?;
    Ok(write_with(alloc, header, instance, &solved)?)
}

/// The sizes of an instance's elements where each counts one.
pub(crate) fn ones_of(alloc: Global, instance: &Instance) -> Result<Vec<i128>, AllocError>
    ensures ones { IfOk result (λ r. r.items ≡ ones (length instance.now.names)) }
    ensures sizes { IfOk result (λ r. AreElementSizes (length instance.now.names) r.items) }
{
    let _terms = instance.terms();
    ones(alloc, instance.names_len())
}

/// The text of a right file for an instance.
pub(crate) fn file_for(alloc: Global, instance: &Instance) -> Result<Vec<u8>, Memory>
    ensures { IfOk result (λ file. IsSolved (question_of instance.now) file.items) }
{
    let sizes = ones_of(alloc, instance)?;
    file_by(alloc, Header::Answer, instance, &sizes)
}

/// The text of a right file for an instance text, or the first fault of that text.
pub fn solve_text(alloc: Global, text: &[u8]) -> Result<Vec<u8>, TextEnd>
    ensures solved { IfOk result (λ file. (asked : Question) × IsAsked text.now asked
        × IsSolved asked file.items) }
    ensures refused { IfErr result (IsRefusalOf text.now) }
{
    let instance = read_instance(alloc, text)?;
    Ok(file_for(alloc, &instance)?)
}
