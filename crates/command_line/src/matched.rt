// Plain words, read with clap.
ghost use Rattle.std.specs.Prelude.{◌≡◌, true, false, map, string_bytes, is_some, option_copied, IfOk};
ghost use Rattle.line_words.specs.Rows.{row, row_from_table};
ghost use Rattle.clap.specs.Words.{app_of, found_of, kind_of, rows_of, rule_of, subcommand_of};
ghost use Rattle.command_line.specs.Given.{values_in, MeansJust};
ghost use Rattle.command_line.specs.Options.{slot_word};
ghost use Rattle.command_line.specs.Words.{meaning_of_words};
ghost use Rattle.command_line.specs.Matched.{IsApp, has_globals, meaning_found, program, program_for, rule_for, subcommand_for, values_found, with_found, with_options};

use crate::given::Plain;
use crate::options::{SLOT_COUNT, Slot, optional, required, slot_at};
use crate::reading::read;
use crate::values::Values;
use crate::words::{Command, command_of};
use clap::error::ErrorKind;
use clap::{Arg, ArgAction, ArgMatches, Error};
use std::alloc::{AllocError, Global};

// The word of a slot's option, for as long as clap holds it.
fn word_for<'a>(slot: Slot) -> &'a str
    ensures { result.now ≡ slot_word slot }
{
    slot.word()
}

// An option with its value.
fn arg_for<'a>(alloc: Global, word: &'a str) -> Arg<'a>
    ensures rule { rule_of result ≡ rule_for word.entry.now }
    ensures local { result.global ≡ false }
{
    Arg::new(alloc, word).long(word).action(ArgAction::Set)
}

// The command with more options.
fn with_options<'a>(
    alloc: Global,
    command: clap::Command<'a>,
    slots: &[Slot],
) -> Result<clap::Command<'a>, AllocError>
    ensures app { IfOk result (IsApp (with_options (app_of command.entry) slots.now)) }
    ensures local { IfOk result (λ more. has_globals more ≡ has_globals command.entry) }
{
    let mut more = command;
    for slot in slots {
        let word = word_for(*slot);
        more = more.arg(arg_for(alloc, word))?;
    }
    Ok(more)
}

// A command of the program, with its options.
fn subcommand_for<'a>(
    alloc: Global,
    name: &'a str,
    command: Command,
) -> Result<clap::Command<'a>, AllocError>
    ensures app { IfOk result (IsApp (subcommand_for (row_from_table (name.entry, command)))) }
    ensures local { IfOk result (λ made. has_globals made ≡ false) }
{
    let groups = optional(command);
    let needed = with_options(alloc, clap::Command::new(alloc, name), required(command))?;
    let assembly = with_options(alloc, needed, groups.assembly)?;
    let machine = with_options(alloc, assembly, groups.machine)?;
    let others = with_options(alloc, machine, groups.others)?;
    Ok(others)
}

// The program's words: this command, which has its options. None asks for help.
fn program_for<'a>(
    alloc: Global,
    name: &'a str,
    command: Command,
) -> Result<clap::Command<'a>, AllocError>
    ensures { IfOk result (IsApp (program_for (row_from_table (name.entry, command)))) }
{
    let top = clap::Command::new(alloc, "ibm1620")
        .no_binary_name(true)
        .disable_help_flag(true)
        .disable_help_subcommand(true);
    top.subcommand(subcommand_for(alloc, name, command)?)
}

// The values, with the text that was found for a slot.
fn with_found<'a>(values: Values<'a>, slot: Slot, text: Option<&'a str>) -> Values<'a>
    ensures { values_in result ≡ with_found slot (option_copied text.entry) (values_in values.entry) }
{
    match text {
        None => values,
        Some(text) => values.with(slot, text),
    }
}

// The value that was found for each slot.
fn values_found<'a>(matches: &ArgMatches<'a>) -> Values<'a>
    ensures { values_in result ≡ values_found (rows_of (found_of matches.now)) }
{
    let mut values = Values::new();
    for place in 0..SLOT_COUNT {
        let slot = slot_at(place);
        values = with_found(values, slot, matches.get_str(slot.word()));
    }
    values
}

// The error of a parse that lacked memory.
fn memory_error(error: Error) -> AllocError
    requires { kind_of error ≡ ErrorKind.OutOfMemory }
{
    AllocError
}

// The meaning of plain words, by clap's matches. Clap has only the command that they begin with: it finds the same options and
// values as with all commands, in less time.
pub(crate) fn matched<'a>(
    alloc: Global,
    words: &'a [String],
) -> Result<Option<Plain<'a>>, AllocError>
    requires { is_some (meaning_of_words words.now) ≡ true }
    ensures { IfOk result
        (MeansJust (meaning_found (subcommand_of program (map string_bytes words.now)))) }
{
    let [first, ..] = words else {
        return Ok(None);
    };
    let name = first.as_str();
    let Some(command) = command_of(name) else {
        return Ok(None);
    };
    let program = program_for(alloc, name, command)?;
    let matches = match program.try_get_matches_from(words) {
        Ok(matches) => matches,
        Err(error) => return Err(memory_error(error)),
    };
    match matches.subcommand() {
        None => Ok(None),
        Some((_, options)) => Ok(read(command, &values_found(options))),
    }
}
