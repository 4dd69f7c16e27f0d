// Tests of the crates of small types, sources, the laws, the demonstration and the command line, by their public calls.
#![tactic(auto)]

#[cfg(test)]
mod base;
#[cfg(test)]
mod demo;
#[cfg(test)]
mod io;
#[cfg(test)]
mod law;
#[cfg(test)]
mod words;
