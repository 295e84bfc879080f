// The lines of a message, one after another.
ghost use Rattle.std.specs.Prelude.{◌≡◌, ◌≤◌, ◌<◌, ◌==◌, true, [], length};
ghost use Rattle.std.proofs.Props.{props};
ghost use Rattle.messages.specs.Said.{is_whole, PushesLine};
ghost use Rattle.messages.specs.declared.said.TheConstants.{FRONT_ROOM, LONGEST};

use arrayvec::ArrayString;
use std::fmt::{Display, InlineText};

// The most bytes of the lines before the console's line and the line of lost cards. The longest message of fixed words, the usage of all commands,
// has some 5,000.
pub(crate) const FRONT_ROOM: usize = 7_000;

// How many bytes a line has at most, without the program's name. A longer line is cut, and ends in three dots.
const LONGEST: usize = 1_000;

// The program's name, which begins a line.
const NAME: &str = "ibm1620: ";

// Whole lines, each with its LF. If a line has no room, it is left out.
#[derive(Clone, Copy)]
pub(crate) struct Said {
    text: ArrayString<FRONT_ROOM>,
    ghost whole: { is_whole text.bytes ≡ true } by { Prim.hlevel props },
}

impl Said {
    // No line.
    #[tactic(auto, unfolding(crate::specs::Said::is_whole))]
    pub(crate) fn new() -> Self
        ensures { result.text.bytes ≡ [] }
    {
        Said {
            text: ArrayString::new(),
        }
    }

    // The lines.
    pub(crate) fn as_str(&self) -> &str
        ensures is { result.now ≡ self.now.text.bytes }
        ensures fits { length result.now ≤ FRONT_ROOM }
    {
        self.text.as_str()
    }

    // Whether there is no line.
    pub(crate) fn is_empty(&self) -> bool
        ensures { result ≡ (length self.now.text.bytes == 0) }
    {
        self.text.is_empty()
    }

    // Adds a line after the program's name.
    pub(crate) fn line<D: Display + Drop>(&mut self, words: D)
        ensures { 0 < length self.new.text.bytes }
    {
        let line = InlineText::<LONGEST>::of(words);
        self.push_line(NAME, line.as_str());
    }

    // Adds a line without the program's name, for the usage of a command.
    pub(crate) fn bare<D: Display + Drop>(&mut self, words: D) {
        let line = InlineText::<LONGEST>::of(words);
        self.push_line("", line.as_str());
    }

    // Adds a line, if there is room.
    fn push_line(&mut self, name: &str, line: &str)
        ensures { PushesLine FRONT_ROOM name.now line.now self.old.text.bytes self.new.text.bytes }
    {
        if self.text.remaining_capacity() <= name.len().saturating_add(line.len()) {
            return;
        }
        self.text.push_str(name);
        self.text.push_str(line);
        self.text.push('\n');
    }
}
