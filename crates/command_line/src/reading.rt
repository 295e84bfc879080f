// The reading of values into types.
ghost use Rattle.std.specs.Prelude.{◌≡◌, ◌≤◌, IfSome, option_copied};
ghost use Rattle.line_words.specs.Words.{number_in};
ghost use Rattle.line_words.specs.Rows.{value_by_name};
ghost use Rattle.command_line.specs.Given.{values_in, MeansJust};
ghost use Rattle.command_line.specs.Numbers.{AreNumbers, IsNumberWithin};
ghost use Rattle.command_line.specs.Reading.{core_in, core_sizes, deck_forms, form_in, read_or, reading_of_command, settings_in};

use crate::given::Plain;
use crate::names::Names;
use crate::options::Slot;
use crate::values::Values;
use crate::words::{Command, CoreSize, STANDARD_LIMIT};
use deck_punch::DeckForm;
use line_words::{LARGEST_NUMBER, find, number_in};

/// The settings of a job, by the options that have a value of their own: all except the names of files, and the size of core.
///
/// Source: this project's own.
#[derive(Clone, Copy)]
pub struct Settings {
    /// The most steps that a run makes, 0 to 999,999,999,999,999; 1,000,000 if the words give none.
    pub limit: u64,
    /// How many statements a made source has, 8 to 1,600; 8 if the words give none.
    pub statements: u32,
    /// The number that a source is made from, 0 to 999,999; 0 if the words give none.
    pub number: u32,
    /// The form of the object deck; self-loading if the words give none.
    pub form: DeckForm,
}

// The forms of an object deck.
const FORMS: [(&str, DeckForm); 2] = [("self", DeckForm::SelfLoading), ("dense", DeckForm::Dense)];

// The sizes of core.
const CORE_SIZES: [(&str, CoreSize); 3] = [
    ("20000", CoreSize::OneModule),
    ("40000", CoreSize::TwoModules),
    ("60000", CoreSize::ThreeModules),
];

// The fewest and the most statements of a made source, and the greatest number that it is made from.
const FEWEST_MADE: u64 = 8;

const MOST_MADE: u64 = 1_600;

const LAST_SOURCE: u64 = 999_999;

// A number from `least` to `most`; `standard` if there is no text.
fn read_or(least: u64, most: u64, standard: u64, text: Option<&str>) -> Option<u64>
    requires { IsNumberWithin least most standard }
    ensures is { result ≡ read_or (number_in least most) standard (option_copied text.entry) }
    ensures within { IfSome result (IsNumberWithin least most) }
{
    match text {
        None => Some(standard),
        Some(text) => number_in(least, most, text.as_bytes()),
    }
}

// The form of the object deck.
fn form_in(values: &Values<'_>) -> Option<DeckForm>
    ensures { result ≡ form_in (values_in values.now) }
{
    match values.get(Slot::Form) {
        None => Some(DeckForm::SelfLoading),
        Some(text) => find(&FORMS, text.as_bytes()),
    }
}

// The size of core.
fn core_in(values: &Values<'_>) -> Option<CoreSize>
    ensures { result ≡ core_in (values_in values.now) }
{
    match values.get(Slot::Core) {
        None => Some(CoreSize::OneModule),
        Some(text) => find(&CORE_SIZES, text.as_bytes()),
    }
}

// The settings of a job, if each of them can be read.
fn settings_in(values: &Values<'_>) -> Option<Settings>
    ensures is { result ≡ settings_in (values_in values.now) }
    ensures fits { IfSome result (λ settings. AreNumbers settings.statements settings.number) }
{
    let limit = read_or(0, LARGEST_NUMBER, STANDARD_LIMIT, values.get(Slot::Limit))?;
    let statements = read_or(
        FEWEST_MADE,
        MOST_MADE,
        FEWEST_MADE,
        values.get(Slot::Statements),
    )?;
    let number = read_or(0, LAST_SOURCE, 0, values.get(Slot::Number))?;
    let form = form_in(values)?;
    Some(Settings {
        limit,
        statements: statements as u32,
        number: number as u32,
        form,
    })
}

// The meaning of a command with these values, if each of them can be read.
pub(crate) fn read<'a>(command: Command, values: &Values<'a>) -> Option<Plain<'a>>
    ensures { MeansJust (reading_of_command command (values_in values.now)) result }
{
    let settings = settings_in(values)?;
    let core = core_in(values)?;
    Some(Plain {
        command,
        names: Names { values: *values },
        settings,
        core,
    })
}
