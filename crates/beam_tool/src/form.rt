ghost use Rattle.std.specs.Prelude.{◌≡◌, None, bytes_eq, decimal, if◌then◌else◌, map, string_bytes};
ghost use Rattle.term_core.specs.Text.Words.{narrow_reading};
ghost use Rattle.beam_tool.specs.TopCall.{form_of as the_form_of, make_form as the_make_form, name_seed_and_size as the_name_seed_and_size, name_trial as the_name_trial, run_words as the_run_words, schedulers_of as the_schedulers_of, size_of as the_size_of, trial_form as the_trial_form, word_form as the_word_form};

use itoa::Buffer;
use script_maker::MOST_COMMANDS;
use term_core::narrow_of;
use word_run::MOST_SCHEDULERS;

/// How many schedulers run a script where the words do not say it.
const SCHEDULERS: u32 = 2;

/// What a list of words asks for.
#[derive(Clone, Copy, Debug, PartialEq, Eq)]
pub enum Form {
    /// `run` or `run --schedulers N`: runs the script that is read.
    Run {
        /// From 1 to 16.
        schedulers: u32,
    },
    /// `check`: judges the report that is read behind its script.
    Check,
    /// `progress`: replays the event list that is read on the thread progress machine.
    Progress,
    /// `make --seed S --size K`: prints the script of a seed and a size.
    Make {
        seed: u32,
        /// How many commands the script has, from 1 to 4,000.
        size: u32,
    },
    /// `trial --seed S --size K --schedulers N`: runs that script, and prints the summary of the run.
    Trial {
        seed: u32,
        /// How many commands the script has, from 1 to 4,000.
        size: u32,
        /// From 1 to 16.
        schedulers: u32,
    },
}

/// The form of the words after the program's name. It takes no memory.
pub fn form_of(words: &[String]) -> Option<Form>
    ensures { result ≡ the_form_of (map string_bytes words.now) }
{
    match words {
        [command] => word_form(command.as_str()),
        [command, option, count] => { run_words(command.as_str(), option.as_str(), count.as_str()) }
        [command, option, seed, next, size] => {
            let is_make = command.as_str() == "make" && name_seed_and_size(option, next);
            made_by(is_make, seed.as_str(), size.as_str())
        }
        [command, option, seed, next, size, last, count] => {
            let is_trial = name_trial(command, option, next, last);
            tried_by(is_trial, seed.as_str(), size.as_str(), count.as_str())
        }
        _ => None,
    }
}

/// The form of `run --schedulers N`.
fn run_words(command: &str, option: &str, count: &str) -> Option<Form>
    ensures { result ≡ the_run_words command.now option.now count.now }
{
    if command == "run" && option == "--schedulers" {
        let schedulers = schedulers_of(count)?;
        Some(Form::Run { schedulers })
    } else {
        None
    }
}

/// Whether these words stand before a seed and a size.
fn name_seed_and_size(seed: &String, size: &String) -> bool
    ensures { result ≡ the_name_seed_and_size (string_bytes seed.now) (string_bytes size.now) }
{
    seed.as_str() == "--seed" && size.as_str() == "--size"
}

/// Whether these words of a trial stand before its numbers.
fn name_trial(command: &String, seed: &String, size: &String, schedulers: &String) -> bool
    ensures { result ≡ the_name_trial (string_bytes command.now) (string_bytes seed.now) (string_bytes size.now) (string_bytes schedulers.now) }
{
    command.as_str() == "trial"
        && name_seed_and_size(seed, size)
        && schedulers.as_str() == "--schedulers"
}

/// The form that makes the script of this seed and size, if it is asked for.
fn made_by(is_make: bool, seed: &str, size: &str) -> Option<Form>
    ensures { result ≡ (if is_make then the_make_form (narrow_reading seed.now) (the_size_of size.now) else None) }
{
    if is_make {
        make_form(narrow_of(seed.as_bytes()), size_of(size))
    } else {
        None
    }
}

/// The form that runs it, if that is asked for.
fn tried_by(is_trial: bool, seed: &str, size: &str, count: &str) -> Option<Form>
    ensures { result ≡ (if is_trial then the_trial_form (narrow_reading seed.now) (the_size_of size.now) (the_schedulers_of count.now) else None) }
{
    if is_trial {
        trial_form(
            narrow_of(seed.as_bytes()),
            size_of(size),
            schedulers_of(count),
        )
    } else {
        None
    }
}

/// The form of one word.
fn word_form(command: &str) -> Option<Form>
    ensures { result ≡ the_word_form command.now }
{
    if command == "run" {
        Some(Form::Run {
            schedulers: SCHEDULERS,
        })
    } else if command == "check" {
        Some(Form::Check)
    } else if command == "progress" {
        Some(Form::Progress)
    } else {
        None
    }
}

/// The script of these numbers, where both are there.
fn make_form(seed: Option<u32>, size: Option<u32>) -> Option<Form>
    ensures { result ≡ the_make_form seed size }
{
    match (seed, size) {
        (Some(seed), Some(size)) => Some(Form::Make { seed, size }),
        _ => None,
    }
}

/// A trial of these numbers, where all are there.
fn trial_form(seed: Option<u32>, size: Option<u32>, schedulers: Option<u32>) -> Option<Form>
    ensures { result ≡ the_trial_form seed size schedulers }
{
    match (seed, size, schedulers) {
        (Some(seed), Some(size), Some(schedulers)) => Some(Form::Trial {
            seed,
            size,
            schedulers,
        }),
        _ => None,
    }
}

/// The number of commands that this text says, where a made script may have so many.
fn size_of(text: &str) -> Option<u32>
    ensures { result ≡ the_size_of text.now }
{
    match narrow_of(text.as_bytes()) {
        Some(size) if 1 <= size && size <= MOST_COMMANDS => Some(size),
        _ => None,
    }
}

/// Whether a text is that of a number.
fn is_text_of(number: u32, text: &str) -> bool
    ensures { result ≡ bytes_eq (decimal number) text.now }
{
    let mut buffer = Buffer::new();
    buffer.format(number) == text
}

/// The number of schedulers whose decimal text this is.
fn schedulers_of(count: &str) -> Option<u32>
    ensures { result ≡ the_schedulers_of count.now }
{
    for schedulers in 1..MOST_SCHEDULERS + 1 {
        if is_text_of(schedulers, count) {
            return Some(schedulers);
        }
    }
    None
}
