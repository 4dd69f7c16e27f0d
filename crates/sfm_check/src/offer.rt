// What is judged: an answer that was read, with the instance and the sizes that it is offered for. The steps of a judgement hand
// it on as one value.

use sfm_cert::Solved;
use sfm_kind::Instance;

/// An answer that is offered for an instance, whose elements have these sizes.
#[derive(Clone, Copy)]
pub struct Offer<'a> {
    pub instance: &'a Instance,
    pub sizes: &'a [i128],
    pub solved: &'a Solved,
}
