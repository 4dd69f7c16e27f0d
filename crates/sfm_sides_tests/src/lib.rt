// Tests of terms turned round and of terms of either side, by their public calls, with answers worked by hand; and that a note which
// was moved by exchanges answers as the term does without one.
#![tactic(auto)]

#[cfg(test)]
mod sides;
