// Worked cases of the whole program, run over objects in memory: what each call answers, and what it writes on its two sinks.
#![tactic(auto)]

#[cfg(test)]
mod asks;
#[cfg(test)]
mod beside;
#[cfg(test)]
mod cases;
#[cfg(test)]
mod checks;
#[cfg(test)]
mod demos;
#[cfg(test)]
mod edits;
#[cfg(test)]
mod engine;
#[cfg(test)]
mod failures;
#[cfg(test)]
mod hostile;
#[cfg(test)]
mod levels;
#[cfg(test)]
mod meets;
#[cfg(test)]
mod refusals;
#[cfg(test)]
mod shelves;
#[cfg(test)]
mod solutions;
#[cfg(test)]
mod versions;
#[cfg(test)]
mod weighs;
