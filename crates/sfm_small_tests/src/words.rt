// Words that ask for a command, and words that are refused.
use sfm_words::{Command, Refusal, read_command};
use std::alloc::Global;

/// Whether words ask for that command, or for none.
fn asks_for<'a>(alloc: Global, words: &'a [&'a str], wanted: Result<Command<'a>, Refusal>) -> bool {
    read_command(alloc, words) == wanted
}

/// The command of a name and of files; nothing where it has none.
fn command_of<'a>(name: &str, files: &[&'a str]) -> Option<Command<'a>> {
    match (name, files) {
        ("solve", [file]) => Some(Command::Solve { file }),
        ("check", [file, answer]) => Some(Command::Check { file, answer }),
        ("ask", [file, pins]) => Some(Command::Ask { file, pins }),
        ("weigh", [file, sizes]) => Some(Command::Weigh { file, sizes }),
        ("weighed", [file, sizes, answer]) => Some(Command::Weighed {
            file,
            sizes,
            answer,
        }),
        ("meet", [left, right]) => Some(Command::Meet { left, right }),
        ("met", [left, right, answer]) => Some(Command::Met {
            left,
            right,
            answer,
        }),
        _ => None,
    }
}

/// Words, the first of which names the command that they ask for, and its files.
const OF_FILES: [(&[&str], &[&str]); 20] = [
    (&["ask", "first", "second"], &["first", "second"]),
    (&["ask", "--", "-first", "ask"], &["-first", "ask"]),
    (&["solve", "first"], &["first"]),
    (&["solve", "-"], &["-"]),
    (&["solve", "--", "-first"], &["-first"]),
    (&["solve", "--", "--"], &["--"]),
    (&["solve", "first", "--"], &["first"]),
    (&["check", "first", "second"], &["first", "second"]),
    (&["check", "first", "first"], &["first", "first"]),
    (&["check", "solve", "check"], &["solve", "check"]),
    (
        &["check", "--", "-first", "-second"],
        &["-first", "-second"],
    ),
    (&["check", "first", "--", "-second"], &["first", "-second"]),
    (&["check", "first", "second", "--"], &["first", "second"]),
    (&["weigh", "first", "second"], &["first", "second"]),
    (
        &["weigh", "--", "-first", "-second"],
        &["-first", "-second"],
    ),
    (
        &["weighed", "first", "second", "third"],
        &["first", "second", "third"],
    ),
    (
        &["weighed", "weigh", "--", "-second", "-third"],
        &["weigh", "-second", "-third"],
    ),
    (
        &["weighed", "first", "second", "third", "--"],
        &["first", "second", "third"],
    ),
    (&["meet", "first", "second"], &["first", "second"]),
    (
        &["met", "first", "--", "-second", "third"],
        &["first", "-second", "third"],
    ),
];

/// Whether words ask for the command of their first one and these files.
fn asks_of<'a>(alloc: Global, words: &'a [&'a str], files: &[&'a str]) -> bool {
    let [name, ..] = words else {
        return false;
    };
    match command_of(name, files) {
        Some(command) => asks_for(alloc, words, Ok(command)),
        None => false,
    }
}

/// Words that ask for a demonstration, and its seed.
const SEEDS: [(&[&str], u64); 9] = [
    (&["demo", "0"], 0),
    (&["demo", "7"], 7),
    (&["demo", "007"], 7),
    (&["demo", "999999999"], 999_999_999),
    (&["demo", "000000000"], 0),
    (&["demo", "0000000001"], 1),
    (&["demo", "+1"], 1),
    (&["demo", "--", "12"], 12),
    (&["demo", "12", "--"], 12),
];

#[test]
fn reads_the_words_of_a_command(rt: HostRuntime) {
    for (words, files) in &OF_FILES {
        assert!(rt; asks_of(rt.alloc(), words, files));
    }
    for (words, seed) in &SEEDS {
        assert!(rt; asks_for(rt.alloc(), words, Ok(Command::Demo { seed: *seed })));
    }
}

/// Words that ask for none.
const OTHER_WORDS: [&[&str]; 63] = [
    &["meet", "first"],
    &["met", "first", "second"],
    &["met", "first", "second", ""],
    &["ask", "first"],
    &["ask", "first", ""],
    &["ask", "first", "second", "third"],
    &[],
    &[""],
    &["solve"],
    &["solve", ""],
    &["solve", "first", "second"],
    &["solve", "-first"],
    &["solve", "--first"],
    &["solve", "--", "first", "second"],
    &["solve", "--"],
    &["solve", "first", "--", "--"],
    &["check"],
    &["check", "first"],
    &["check", "first", ""],
    &["check", "", "second"],
    &["check", "first", "-second"],
    &["check", "first", "second", "third"],
    &["demo"],
    &["demo", ""],
    &["demo", "1000000000"],
    &["demo", "18446744073709551616"],
    &["demo", "x"],
    &["demo", "1x"],
    &["demo", "-1"],
    &["demo", "--", "-1"],
    &["demo", "-0"],
    &["demo", "+"],
    &["demo", "++1"],
    &["demo", " 1"],
    &["demo", "1", "2"],
    &["demo", "--"],
    &["demo", "--help"],
    &["demo", "1", "-h"],
    &["help", "demo"],
    &["solv", "first"],
    &["Solve", "first"],
    &["first"],
    &["--", "solve", "first"],
    &["help"],
    &["help", "solve"],
    &["--help"],
    &["-h"],
    &["solve", "--help"],
    &["solve", "first", "-h"],
    &["-V"],
    &["--version"],
    &["weigh"],
    &["weigh", "first"],
    &["weigh", "first", ""],
    &["weigh", "first", "second", "third"],
    &["weigh", "first", "-second"],
    &["weighed", "first", "second"],
    &["weighed", "", "second", "third"],
    &["weighed", "first", "", "third"],
    &["weighed", "first", "second", ""],
    &["weighed", "first", "second", "third", "fourth"],
    &["weighed", "first", "second", "third", "--help"],
    &["weighe", "first", "second"],
];

#[test]
fn refuses_other_words(rt: HostRuntime) {
    for words in &OTHER_WORDS {
        assert!(rt; asks_for(rt.alloc(), words, Err(Refusal::Usage)));
    }
}
