// The map from slot to text that the words of the command line make.
ghost use Rattle.std.specs.Prelude.{◌≡◌, length, option_copied};
ghost use Rattle.std.proofs.Props.{props};
ghost use Rattle.command_line.specs.declared.options.TheConstants.{SLOT_COUNT};

use crate::options::{SLOT_COUNT, Slot};

// The text of each slot, for the slots that have one.
#[derive(Clone, Copy)]
pub(crate) struct Values<'a> {
    // by the places of the slots
    texts: [Option<&'a str>; SLOT_COUNT],
    ghost whole: { length texts ≡ SLOT_COUNT } by { Prim.hlevel props },
}

impl<'a> Values<'a> {
    ghost use Rattle.command_line.specs.Words.{no_values, with_value};
    ghost use Rattle.command_line.specs.Given.{values_in};

    // No text.
    #[tactic(auto, using(crate::proofs::Maps::no_value))]
    pub(crate) fn new() -> Self
        ensures { values_in result ≡ no_values }
    {
        Values {
            texts: [None; SLOT_COUNT],
        }
    }

    // The text of a slot.
    pub(crate) fn get(&self, slot: Slot) -> Option<&'a str>
        ensures { option_copied result ≡ values_in self.now slot }
    {
        self.texts[slot.place()]
    }

    // The map with the text of one slot more.
    pub(crate) fn with(self, slot: Slot, text: &'a str) -> Self
        ensures { values_in result ≡ with_value slot text.now (values_in self.entry) }
    {
        let mut more = self;
        more.texts[slot.place()] = Some(text);
        more
    }
}
