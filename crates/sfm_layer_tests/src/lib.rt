// Tests of ranks over some of their elements and of the layers of ranks whose elements have weights, made by calls, with answers
// worked by hand.
#![tactic(auto)]

#[cfg(test)]
mod answers;
#[cfg(test)]
mod kept;
#[cfg(test)]
mod layers;
