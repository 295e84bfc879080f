// The settings of a row, and its actions.
use crate::texts::add_line;
use card_code::Card;
use card_unit::Hopper;
use outside_io::{Host, MemHost, Unit};
use std::alloc::{AllocError, Global};

// The room of each output if a row sets none, in bytes.
const ROOM: usize = 300;

// How many calls a new host has answered: the bindings of its four files.
const BINDINGS: u64 = 4;

// The lines of a row, and its settings.
#[derive(Drop)]
pub(crate) struct Given {
    pub(crate) alloc: Global,
    // The size of core, 1, 2 or 3.
    pub(crate) size: u32,
    // The lines of its actions.
    pub(crate) lines: Vec<String>,
    // The source deck of the row, which no unit has.
    pub(crate) source: Vec<u8>,
    cards: Vec<Card>,
    deck: Vec<u8>,
    data: Vec<u8>,
    keys: Vec<u8>,
    pack: Vec<u8>,
    room: usize,
    failing: Vec<u64>,
}

impl Given {
    // A row that has nothing.
    pub(crate) fn new(alloc: Global) -> Given {
        Given {
            alloc,
            size: 1,
            lines: Vec::new(alloc),
            source: Vec::new(alloc),
            cards: Vec::new(alloc),
            deck: Vec::new(alloc),
            data: Vec::new(alloc),
            keys: Vec::new(alloc),
            pack: Vec::new(alloc),
            room: ROOM,
            failing: Vec::new(alloc),
        }
    }

    // Takes a line of the row. The error is a lack of memory.
    pub(crate) fn add(&mut self, line: String) -> Result<(), AllocError> {
        let (name, text) = line.as_str().split_once('|').unwrap_or((line.as_str(), ""));
        let is_known = match name {
            "size" | "room" | "fail" => self.set(name, text)?,
            "times" => self.add_times(text)?,
            _ => self.add_text(name, text)?,
        };
        if !is_known {
            self.lines.push(line)?;
        }
        Ok(())
    }

    // Sets a number; false if the text is not a number.
    fn set(&mut self, name: &str, text: &str) -> Result<bool, AllocError> {
        let Ok(number) = text.parse::<u32>() else {
            return Ok(false);
        };
        match name {
            "size" => self.size = number,
            "room" => self.room = number as usize,
            _ => self.failing.push(BINDINGS + u64::from(number))?,
        }
        Ok(true)
    }

    // Adds a line or a card as many times as the text gives; false if it adds nothing.
    fn add_times(&mut self, text: &str) -> Result<bool, AllocError> {
        let (times, line) = text.split_once('|').unwrap_or((text, ""));
        let (name, text) = line.split_once('|').unwrap_or((line, ""));
        let Ok(times) = times.parse::<u32>() else {
            return Ok(false);
        };
        let mut is_known = false;
        for _ in 0..times {
            is_known = self.add_text(name, text)?;
        }
        Ok(is_known)
    }

    // Adds a line to a file, or a card to the hopper; false if the name is not a file's and not `card`.
    fn add_text(&mut self, name: &str, text: &str) -> Result<bool, AllocError> {
        match name {
            "deck" => add_line(&mut self.deck, text)?,
            "data" => add_line(&mut self.data, text)?,
            "keys" => add_line(&mut self.keys, text)?,
            "pack" => add_line(&mut self.pack, text)?,
            "source" => add_line(&mut self.source, text)?,
            "card" => self.cards.push(card(text.as_bytes()))?,
            _ => return Ok(false),
        }
        Ok(true)
    }

    // The hopper: with the row's cards if it has any, else with its deck.
    pub(crate) fn hopper(&self) -> Result<Hopper, AllocError> {
        if self.cards.is_empty() {
            return Ok(Hopper::of_units());
        }
        let mut cards = Vec::new(self.alloc);
        cards.extend_from_slice(&self.cards)?;
        Ok(Hopper::of_cards(cards))
    }

    // A host with the row's files, all of them bound.
    pub(crate) fn host(&self) -> Result<MemHost, AllocError> {
        let mut host = MemHost::new(self.alloc, self.room)?;
        host.file("deck", &self.deck)?;
        host.file("data", &self.data)?;
        host.file("keys", &self.keys)?;
        host.file("pack", &self.pack)?;
        let _ = host.bind(Unit::Deck, "deck");
        let _ = host.bind(Unit::Data, "data");
        let _ = host.bind(Unit::Keys, "keys");
        let _ = host.bind(Unit::Pack, "pack");
        for call in &self.failing {
            host.fail(*call)?;
        }
        Ok(host)
    }
}

// The card of a text; columns past the eightieth are dropped.
pub(crate) fn card(text: &[u8]) -> Card {
    let mut columns = [b' '; 80];
    for (column, c) in columns.iter_mut().zip(text) {
        *column = *c;
    }
    Card(columns)
}
