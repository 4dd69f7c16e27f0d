// The command that the words ask for: the subcommand in clap's matches of them, with its arguments.
ghost use Rattle.std.specs.Prelude.{◌≡◌, ◌≤◌, ℕ, List, [], ◌∷◌, true, codes, map, option_map, option_and_then, IfOk, IfErr, MatchResult};
ghost use Rattle.clap.specs.Words.{HasMatchesOf, fault_of, first_of, found_of, one_of, rows_of, subcommand_rows_of, takes};
ghost use Rattle.sfm_words.specs.{Command.{Asks, IsForm, IsNotTaken, command_by, command_of, demo, parsed_number, texts_given}, Command.{Command as Asked}, Line.{sfm_line}};

use crate::command::{Command, Refusal};
use crate::line::command_line;
use clap::ArgMatches;
use std::alloc::Global;

/// The word of an argument.
fn word_of<'a>(found: &ArgMatches<'a>, id: &str) -> Option<&'a str>
    ensures { option_map (λ word. word.now) result ≡ first_of id.now
        (rows_of (found_of found.now)) }
{
    found.get_str(id)
}

/// The number of an argument.
fn number_of(found: &ArgMatches<'_>, id: &str) -> Option<u64>
    ensures { result ≡ option_and_then parsed_number (one_of id.now (rows_of (found_of found.now))) }
{
    found.get_one::<u64>(id)
}

/// The words of two arguments.
fn two_words_of<'a>(found: &ArgMatches<'a>, a: &str, b: &str) -> Option<(&'a str, &'a str)>
    ensures { option_map (λ words. words.0.now ∷ words.1.now ∷ []) result
        ≡ texts_given (a.now ∷ b.now ∷ []) (rows_of (found_of found.now)) }
{
    let x = word_of(found, a)?;
    let y = word_of(found, b)?;
    Some((x, y))
}

/// The words of three arguments.
fn three_words_of<'a>(
    found: &ArgMatches<'a>,
    a: &str,
    b: &str,
    c: &str,
) -> Option<(&'a str, &'a str, &'a str)>
    ensures { option_map (λ words. words.0.now ∷ words.1.now ∷ words.2.now ∷ []) result
        ≡ texts_given (a.now ∷ b.now ∷ c.now ∷ []) (rows_of (found_of found.now)) }
{
    let x = word_of(found, a)?;
    let y = word_of(found, b)?;
    let z = word_of(found, c)?;
    Some((x, y, z))
}

/// The command of this name, by its matches.
fn command_named<'a>(verb: &str, found: &ArgMatches<'a>) -> Option<Command<'a>>
    ensures { option_map command_of result ≡ command_by (verb.now, rows_of (found_of found.now)) }
{
    match verb {
        "solve" => {
            let file = word_of(found, "FILE")?;
            Some(Command::Solve { file })
        }
        "check" => {
            let (file, answer) = two_words_of(found, "FILE", "ANSWER")?;
            Some(Command::Check { file, answer })
        }
        "demo" => {
            let seed = number_of(found, "SEED")?;
            Some(Command::Demo { seed })
        }
        "weigh" => {
            let (file, sizes) = two_words_of(found, "FILE", "SIZES")?;
            Some(Command::Weigh { file, sizes })
        }
        "weighed" => {
            let (file, sizes, answer) = three_words_of(found, "FILE", "SIZES", "ANSWER")?;
            Some(Command::Weighed {
                file,
                sizes,
                answer,
            })
        }
        "ask" => {
            let (file, pins) = two_words_of(found, "FILE", "PINS")?;
            Some(Command::Ask { file, pins })
        }
        "level" => {
            let file = word_of(found, "FILE")?;
            Some(Command::Level { file })
        }
        "edit" => {
            let (file, edits) = two_words_of(found, "FILE", "EDITS")?;
            Some(Command::Edit { file, edits })
        }
        "meet" => {
            let (left, right) = two_words_of(found, "LEFT", "RIGHT")?;
            Some(Command::Meet { left, right })
        }
        "met" => {
            let (left, right, answer) = three_words_of(found, "LEFT", "RIGHT", "ANSWER")?;
            Some(Command::Met {
                left,
                right,
                answer,
            })
        }
        _ => None,
    }
}

/// The command that clap found.
fn command_in<'a>(matches: &ArgMatches<'a>) -> Option<Command<'a>>
    ensures { option_map command_of result ≡ option_and_then command_by
        (subcommand_rows_of matches.now) }
{
    let (verb, found) = matches.subcommand()?;
    command_named(verb, found)
}

/// What clap finds in the words, of which it has no fault to tell. Only words that it does not take are `Usage`.
fn matches_of<'a>(alloc: Global, words: &'a [&'a str]) -> Result<ArgMatches<'a>, Refusal>
    ensures matches { IfOk result (λ found. HasMatchesOf sfm_line
        (map (λ word. word.now) words.now) found) }
    ensures free { IfOk result (λ _. fault_of sfm_line (map (λ word. word.now) words.now) ≡ []) }
    ensures refused { IfErr result (λ refusal. takes sfm_line (map (λ word. word.now) words.now)
        ≡ true → refusal ≡ Refusal.Memory) }
{
    let line = command_line(alloc)?;
    let matches = line.try_get_matches_from(words)?;
    Ok(matches)
}

/// The command that the words after the program's name ask for. Only words that clap does not take are `Usage`, and so are
/// calls for help.
pub fn read_command<'a>(alloc: Global, words: &'a [&'a str]) -> Result<Command<'a>, Refusal>
    ensures read { IfOk result (λ command. Asks (map (λ word. word.now) words.now)
        (command_of command)) }
    ensures refused { IfErr result (λ refusal. refusal ≡ Refusal.Usage
        → IsNotTaken (map (λ word. word.now) words.now)) }
    ensures form { (command : Asked) → IsForm (map (λ word. word.now) words.now) command
        → MatchResult result (λ read. command_of read ≡ command)
        (λ refusal. refusal ≡ Refusal.Memory) }
    ensures seeds { IfOk result (λ command. (seed : ℕ) → command_of command ≡ demo seed
        → seed ≤ 999999999) }
{
    let matches = matches_of(alloc, words)?;
    command_in(&matches).ok_or(Refusal::Usage)
}
