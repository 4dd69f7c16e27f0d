// Tests of texts, answers, minima and slopes, by their public calls.
#![tactic(auto)]

#[cfg(test)]
mod cert;
#[cfg(test)]
mod shift;
#[cfg(test)]
mod slope;
#[cfg(test)]
mod text;
