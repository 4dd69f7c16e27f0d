// What the tokens of a term line are cut into before they are read.
ghost use Rattle.std.specs.Prelude.{◌≡◌, [], IfOk};
ghost use Rattle.sfm_lines.specs.{Lines.{texts_of}, ReadParts.{parts_of}};

use crate::labels::Labels;
use crate::word::RankKind;
use std::alloc::{AllocError, Global};

/// The texts of a term line in the places of numbers, and in the places of elements; which rank it means, and the names of
/// each of its groups, and the labels of each element.
pub struct Parts<'a, 'b> {
    pub numbers: Vec<&'a [u8]>,
    pub elements: Vec<&'a [u8]>,
    pub rank: RankKind,
    pub groups: Vec<&'b [&'a [u8]]>,
    pub labels: Vec<Labels<'a>>,
}

// Written out, so that letting one go is one step, which is proved here once.
impl<'a, 'b> Drop for Parts<'a, 'b> {
    fn drop(self) {
        let Self {
            numbers: _,
            elements: _,
            rank: _,
            groups: _,
            labels: _,
        } = self;
    }
}

impl<'a, 'b> Parts<'a, 'b> {
    /// Numbers and elements of a line that means this rank, neither groups nor labels.
    pub fn copied(
        alloc: Global,
        rank: RankKind,
        numbers: &[&'a [u8]],
        elements: &[&'a [u8]],
    ) -> Result<Parts<'a, 'b>, AllocError>
        ensures { IfOk result (λ parts. parts_of parts ≡ record {
          numbers = texts_of numbers.now;
          elements = texts_of elements.now;
          rank = rank;
          groups = [];
          labels = [];
        }) }
    {
        let numbers = Vec::from_slice(alloc, numbers)?;
        let elements = Vec::from_slice(alloc, elements)?;
        Ok(Parts {
            numbers,
            elements,
            rank,
            groups: Vec::new(alloc),
            labels: Vec::new(alloc),
        })
    }
}
