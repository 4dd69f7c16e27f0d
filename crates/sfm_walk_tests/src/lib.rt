// Tests of a shortest walk to any places and of the move along it, by their public calls. That every answer is right is
// proved; here the calls succeed with ample memory, and what they tell is compared with what was worked by hand.
#![tactic(auto)]

#[cfg(test)]
mod amounts;
#[cfg(test)]
mod rows;
#[cfg(test)]
mod turns;
