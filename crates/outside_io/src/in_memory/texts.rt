// The bytes that were written to each unit, in memory that was taken at once.
ghost use Rattle.std.specs.Prelude.{◌≡◌, ◌+◌, ◌-◌, ◌≤◌, ◌<◌, ◌++◌, ◌==◌, [], length, take, IfOk, vec_capacity};
ghost use Rattle.outside_io.specs.Rooms.{unit_room};
ghost use Rattle.outside_io.specs.declared.host.TheConstants.{UNIT_COUNT};

use crate::Unit;
use std::alloc::{AllocError, Global};

// A text that never grows past its room, and how much of the room was not used yet.
#[derive(Drop)]
pub(crate) struct OutputText {
    room: usize,
    spare: usize,
    text: Vec<u8>,
    ghost roomy: { room ≤ vec_capacity text },
    ghost within: { length text.items + spare ≤ room },
}

impl OutputText {
    // An empty text with this room.
    fn new(alloc: Global, room: usize) -> Result<Self, AllocError>
        ensures text { IfOk result (λ output. output.text.items ≡ []) }
        ensures room { IfOk result (λ output. output.room ≡ room) }
        ensures spare { IfOk result (λ output. output.spare ≡ room) }
    {
        let text = Vec::with_capacity(alloc, room)?;
        Ok(OutputText {
            room,
            spare: room,
            text,
        })
    }

    // Empties the text. The room that its bytes took stays used.
    fn clear(&mut self)
        ensures text { self.new.text.items ≡ [] }
        ensures room { self.new.room ≡ self.old.room }
        ensures spare { self.new.spare ≡ self.old.spare }
    {
        self.text.clear();
    }

    // Adds as many bytes of the piece as there is room for, and gives their number.
    fn add(&mut self, piece: &[u8]) -> usize
        requires { 0 < length piece.now }
        ensures text { self.new.text.items ≡ self.old.text.items ++ take result piece.now }
        ensures fits { result ≤ length piece.now }
        ensures full { (result == 0) ≡ (self.old.spare == 0) }
        ensures room { self.new.room ≡ self.old.room }
        ensures spare { self.new.spare ≡ self.old.spare - result }
    {
        let n = piece.len().min(self.spare);
        self.spare -= n;
        match self.text.extend_from_slice(&piece[..n]) {
            Ok(()) => n,
            Err(_) => unreachable!(),
        }
    }
}

// A text for each unit, in the order of the units.
#[derive(Drop)]
pub(crate) struct OutputTexts {
    outputs: Vec<OutputText>,
    ghost units: { length outputs.items ≡ UNIT_COUNT },
}

impl OutputTexts {
    ghost use Rattle.outside_io.specs.Texts.{unit_text, room_of, Clears, Grows, AreEmpty};

    // Empty texts; only outputs have room.
    pub(crate) fn new(alloc: Global, room: usize) -> Result<Self, AllocError>
        ensures { IfOk result (AreEmpty room) }
    {
        let mut outputs = Vec::new(alloc);
        for unit in Unit::ALL {
            outputs.push(OutputText::new(alloc, unit_room(room, unit))?)?;
        }
        Ok(OutputTexts { outputs })
    }

    // The unit's text.
    pub(crate) fn text(&self, unit: Unit) -> &[u8]
        ensures { result.now ≡ unit_text self.now unit }
    {
        let place = unit.place();
        &self.outputs[place].text
    }

    // Empties the unit's text.
    pub(crate) fn clear(&mut self, unit: Unit)
        ensures { Clears self.old self.new unit }
    {
        let place = unit.place();
        let output = &mut self.outputs[place];
        output.clear();
    }

    // Adds bytes of the piece to the unit's text, and gives their number.
    pub(crate) fn add(&mut self, unit: Unit, piece: &[u8]) -> usize
        requires { 0 < length piece.now }
        ensures { Grows self.old self.new unit piece.now result }
    {
        let place = unit.place();
        let output = &mut self.outputs[place];
        output.add(piece)
    }
}

// The room of a unit's text: only outputs have room.
fn unit_room(room: usize, unit: Unit) -> usize
    ensures { result ≡ unit_room room unit }
{
    if unit.is_output() { room } else { 0 }
}
