// The text of a demonstration instance, made from a seed. The same seed makes the same text on every machine.
#![tactic(auto)]

mod draws;
mod kind;
mod lines;
mod text;
mod words;

pub use text::demo_text;
