// What is wrong with words that are not plain, and how to use the command.
// Source: this project's own.
use crate::options::{
    OPTIONS, OptionRow, ValueKind, is_needed, is_option, is_taken, option_of, word_of,
};
use crate::said::Said;
use crate::words::Escaped;
use command_line::{COMMANDS, Command, command_of};
use line_words::{number, number_in};
use std::fmt;

// Says which word is the first that does not fit, and why, and how to use the command; if there is no command, how to use each command.
pub(crate) fn say_misuse(said: &mut Said, words: &[String]) {
    match words.split_first() {
        None => said.line("no command is given; these are the commands:"),
        Some((first, rest)) => match command_of(first.as_str()) {
            None => {
                let word = Escaped(first.as_str());
                said.line(format_args!("{word} is no command; these are the commands:"));
            }
            Some(command) => {
                say_wrong(said, command, rest);
                say_usage(said, command);
                return said.bare(OF_OPTIONS);
            }
        },
    }
    for (_, command) in COMMANDS {
        say_usage(said, command);
    }
    said.bare(OF_OPTIONS);
}

// What is true of the options of each command.
const OF_OPTIONS: &str = "
Options come in any order, each at most once. A FILE is not empty and does not
begin with '-'. Numbers have 1 to 15 digits. What is typed and reported
goes to the standard output where no file is named for it.";

// Says how to use a command: its word with the options that it needs, what it does, and a line for each option.
fn say_usage(said: &mut Said, command: Command) {
    let word = word_of(command);
    let needed = NeededWords(command);
    let task = task_of(command);
    said.bare(format_args!("\nibm1620 {word}{needed} [OPTION VALUE]..\n  {task}"));
    for row in &OPTIONS {
        if is_needed(row, command) {
            say_option(said, row, " (required)");
        }
    }
    for row in &OPTIONS {
        if is_taken(row, command) && !is_needed(row, command) {
            say_option(said, row, "");
        }
    }
}

// Says what an option is; the text begins in column 21.
fn say_option(said: &mut Said, row: &OptionRow, ending: &str) {
    let word = row.0;
    let value = row.1;
    let text = row.4;
    let width = 13usize.saturating_sub(word.len());
    said.bare(format_args!("    --{word} {value:<width$}{text}{ending}"));
}

// The options that a command needs, each with the placeholder of its value.
#[derive(Clone, Copy)]
struct NeededWords(Command);

impl fmt::Display for NeededWords {
    fn fmt<W: fmt::Write>(&self, f: &mut fmt::Formatter<W>) -> fmt::Result {
        for row in &OPTIONS {
            if is_needed(row, self.0) {
                let word = row.0;
                let value = row.1;
                write!(f, " --{word} {value}")?;
            }
        }
        Ok(())
    }
}

// What a command does.
fn task_of(command: Command) -> &'static str {
    match command {
        Command::Assemble => "Assembles a source.",
        Command::Load => "Loads a deck by the Load key and runs the machine.",
        Command::Run => "Assembles a source, loads its object deck and runs the program.",
        Command::Debug => {
            "Assembles a source, presses the Load key over its object deck, and carries
  out the debugger's commands: GO, STEP n, BACK n, BREAK s, CLEAR s, SHOW a n,
  QUIT."
        }
        Command::Generate => "Makes a source for trials: the same one for the same numbers.",
        Command::Trial => "Makes such a source, assembles it, loads its object deck and runs it.",
        Command::Disk => {
            "Assembles a source, writes its image to the pack, and punches the deck that
  loads it from there: load --deck DECK --pack FILE runs it."
        }
    }
}

// Says which of the words after a command does not fit, and why, or which option is missing.
fn say_wrong(said: &mut Said, command: Command, words: &[String]) {
    for (place, pair) in words.chunks(2).enumerate() {
        if let Some(option) = pair.first() {
            let value = match pair.get(1) {
                Some(value) => Some(value.as_str()),
                None => None,
            };
            let is_twice = is_given(words, place, option.as_str());
            if say_pair(said, command, option.as_str(), value, is_twice) {
                return;
            }
        }
    }
    for row in &OPTIONS {
        if is_needed(row, command) && !is_there(words, row.0) {
            let name = word_of(command);
            let word = row.0;
            let value = row.1;
            return said.line(format_args!("{name} needs --{word} {value}"));
        }
    }
}

// Whether this option is among the first `places` options.
fn is_given(words: &[String], places: usize, option: &str) -> bool {
    for pair in words.chunks(2).take(places) {
        if pair.first().is_some_and(|word| word.as_str() == option) {
            return true;
        }
    }
    false
}

// Whether the words have the option of this word.
fn is_there(words: &[String], option: &str) -> bool {
    for pair in words.chunks(2) {
        if pair
            .first()
            .is_some_and(|word| word.as_str().strip_prefix("--") == Some(option))
        {
            return true;
        }
    }
    false
}

// Says what is wrong with an option and its value; answers false if nothing is wrong.
fn say_pair(
    said: &mut Said,
    command: Command,
    option: &str,
    value: Option<&str>,
    is_twice: bool,
) -> bool {
    let Some(word) = option.strip_prefix("--") else {
        say_without_hyphens(said, command, option);
        return true;
    };
    match option_of(command, word) {
        None => say_no_option(said, command, option, word),
        Some(_) if is_twice => said.line(format_args!("--{word} is given twice")),
        Some(row) => return say_value(said, command, row, value),
    }
    true
}

// Says why a word that does not begin with two hyphens is not an option. A word without a hyphen is often the name of a file: the message shows it as
// the value of the first option that the command needs.
fn say_without_hyphens(said: &mut Said, command: Command, option: &str) {
    let shown = Escaped(option);
    match option.strip_prefix('-') {
        Some(word) if option_of(command, word).is_some() => {
            said.line(format_args!("{shown} has one hyphen: write -{shown}"));
        }
        Some(_) => say_unknown(said, command, option),
        None => {
            said.line(format_args!("{shown} stands where an option is wanted"));
            for row in &OPTIONS {
                if !is_needed(row, command) {
                    continue;
                }
                let word = row.0;
                return said.line(format_args!(
                    "each word behind an option is its value, as in --{word} {shown}"
                ));
            }
        }
    }
}

// Says why a command has no option of this word.
fn say_no_option(said: &mut Said, command: Command, option: &str, word: &str) {
    let name = word_of(command);
    let shown = Escaped(option);
    if is_option(word) {
        let takers = Takers(word);
        return said.line(format_args!(
            "{shown} is no option of {name}, but of these commands:{takers}"
        ));
    }
    match word.split_once('=') {
        Some((front, _)) if is_option(front) => {
            said.line(format_args!("{shown}: write a blank in place of the ="));
        }
        _ => say_unknown(said, command, option),
    }
}

fn say_unknown(said: &mut Said, command: Command, option: &str) {
    let name = word_of(command);
    let shown = Escaped(option);
    said.line(format_args!("{shown} is no option of {name}; these are:"));
}

// The commands that take an option of this word.
#[derive(Clone, Copy)]
struct Takers<'w>(&'w str);

impl fmt::Display for Takers<'_> {
    fn fmt<W: fmt::Write>(&self, f: &mut fmt::Formatter<W>) -> fmt::Result {
        for (name, command) in COMMANDS {
            if option_of(command, self.0).is_some() {
                write!(f, " {name}")?;
            }
        }
        Ok(())
    }
}

// Says why this is not a value for the option; answers false if it is a value.
fn say_value(said: &mut Said, command: Command, row: &OptionRow, value: Option<&str>) -> bool {
    let word = row.0;
    let Some(value) = value else {
        let stands = row.1;
        said.line(format_args!("--{word} has no value behind it: write --{word} {stands}"));
        return true;
    };
    let shown = Escaped(value);
    if value.is_empty() {
        said.line(format_args!("--{word} has an empty word behind it"));
    } else if value == "-" {
        said.line(format_args!("--{word} -: a hyphen is no value"));
        say_standard(said, command, row);
    } else if value.starts_with('-') {
        said.line(format_args!(
            "--{word} has no value: {shown} behind it begins with a hyphen, as no value does"
        ));
    } else {
        return say_unfit(said, row, value);
    }
    true
}

// Says why a value that does not begin with a hyphen does not fit; answers false if it fits.
fn say_unfit(said: &mut Said, row: &OptionRow, value: &str) -> bool {
    let word = row.0;
    let shown = Escaped(value);
    match row.2 {
        ValueKind::Number(least, most) => {
            if number_in(least, most, value.as_bytes()).is_some() {
                return false;
            }
            if number(value.as_bytes()).is_some() {
                said.line(format_args!("--{word} {shown}: the number is not {least} to {most}"));
            } else {
                said.line(format_args!(
                    "--{word} {shown}: is no number; write one of {least} to {most}, in digits"
                ));
            }
        }
        ValueKind::Form if !matches!(value, "self" | "dense") => {
            said.line(format_args!("--{word} {shown}: the forms are self and dense"));
        }
        ValueKind::Core if !matches!(value, "20000" | "40000" | "60000") => {
            said.line(format_args!(
                "--{word} {shown}: the sizes of core are 20000, 40000 and 60000"
            ));
        }
        _ => return false,
    }
    true
}

// Says how to name the standard input or output, since other programs take a hyphen for it; a pack has to be a file.
fn say_standard(said: &mut Said, command: Command, row: &OptionRow) {
    let name = word_of(command);
    let word = row.0;
    match row.2 {
        ValueKind::Input => said.line(format_args!(
            "the standard input is /dev/stdin: cat FILE | ibm1620 {name} --{word} /dev/stdin .."
        )),
        ValueKind::Output => said.line(format_args!(
            "the standard output is /dev/stdout: ibm1620 {name} --{word} /dev/stdout .. | cat"
        )),
        ValueKind::Pack => said.line("a pack has to be a file"),
        ValueKind::Number(_, _) | ValueKind::Form | ValueKind::Core => (),
    }
}
