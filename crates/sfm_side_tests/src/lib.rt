// Tests of the texts beside an instance and of what is told by them, by their public calls. That every answer is right is
// proved; here the calls succeed with ample memory, and what they tell is compared with what was worked by hand.
#![tactic(auto)]

#[cfg(test)]
mod asking;
#[cfg(test)]
mod edits;
#[cfg(test)]
mod layers;
#[cfg(test)]
mod pins;
#[cfg(test)]
mod rows;
#[cfg(test)]
mod sizes;
