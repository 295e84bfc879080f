// The outside as the program sees it: units, and the calls on them.
ghost use Rattle.std.specs.Prelude.{◌≡◌, ◌≤◌, ◌<◌, List, ℕ, length, false, true};
ghost use Rattle.outside_io.specs.World.{Seen, Binds, Takes, Puts, ReadsSector, WritesSector, Rose, all_units, place, unit_word, is_input, is_output, is_pack};
ghost use Rattle.outside_io.specs.declared.host.TheConstants.{ALL_SECTORS};
ghost use Rattle.outside_io.specs.declared.host.TheConstants.Unit.{ALL};

/// The number of sectors of the pack: 20,000 for each of four drives.
///
/// Source: 1311 manual, for the sectors of a drive.
pub const ALL_SECTORS: usize = 80_000;

/// The number of characters of a sector, a digit each.
///
/// Source: 1311 manual.
pub const SECTOR_LENGTH: usize = 100;

/// The number of units.
///
/// Source: this project's own.
pub const UNIT_COUNT: usize = 14;

// The longest name that a host keeps.
pub(crate) const LONGEST_NAME: usize = 255;

/// What the program reads from and writes to. A file can be bound to each.
///
/// Source: this project's own.
#[derive(Clone, Copy, Debug, PartialEq, Eq)]
pub enum Unit {
    /// Input: the source deck for the assembler.
    Source,
    /// Output: the object deck.
    Object,
    /// Output: the assembled digits by their addresses.
    Image,
    /// Input: the deck that the Load key reads.
    Deck,
    /// Input: the data cards, which follow the deck.
    Data,
    /// Input: the lines that are typed on the keyboard.
    Keys,
    /// Input: the operator's script.
    Script,
    /// Input: the debugger's commands.
    Commands,
    /// The disk pack, neither input nor output.
    Pack,
    /// Output: the punched cards.
    Punched,
    /// Output: the typewriter's text.
    Typed,
    /// Output: the assembler's listing.
    Listing,
    /// Output: a generated source deck.
    Made,
    /// Output: the report lines.
    Report,
}

impl Unit {
    /// All units, in the order in which files are bound to them.
    ///
    /// Source: this project's own.
    pub const ALL: [Unit; UNIT_COUNT] = [
        Unit::Source,
        Unit::Object,
        Unit::Image,
        Unit::Deck,
        Unit::Data,
        Unit::Keys,
        Unit::Script,
        Unit::Commands,
        Unit::Pack,
        Unit::Punched,
        Unit::Typed,
        Unit::Listing,
        Unit::Made,
        Unit::Report,
    ];

    /// Its place in `ALL`, from 0 for Source to 13 for Report.
    ///
    /// Source: this project's own.
    pub fn place(self) -> usize
        ensures place { result ≡ place self }
        ensures order { ALL ≡ all_units }
    {
        self as usize
    }

    /// Its word: its name in small letters. The option for its file is two dashes and this word.
    ///
    /// Source: this project's own.
    pub fn word(self) -> &'static str
        ensures { result.now ≡ unit_word self }
    {
        match self {
            Unit::Source => "source",
            Unit::Object => "object",
            Unit::Image => "image",
            Unit::Deck => "deck",
            Unit::Data => "data",
            Unit::Keys => "keys",
            Unit::Script => "script",
            Unit::Commands => "commands",
            Unit::Pack => "pack",
            Unit::Punched => "punched",
            Unit::Typed => "typed",
            Unit::Listing => "listing",
            Unit::Made => "made",
            Unit::Report => "report",
        }
    }

    // Whether it is the pack.
    pub(crate) fn is_pack(self) -> bool
        ensures { result ≡ is_pack self }
    {
        matches!(self, Unit::Pack)
    }

    /// Whether bytes are written to the unit: all but the inputs and the pack.
    ///
    /// Source: this project's own.
    pub fn is_output(self) -> bool
        ensures { result ≡ is_output self }
    {
        !self.is_input() && !matches!(self, Unit::Pack)
    }

    /// Whether bytes are read from the unit: Source, Deck, Data, Keys, Script and Commands.
    ///
    /// Source: this project's own.
    pub fn is_input(self) -> bool
        ensures { result ≡ is_input self }
    {
        matches!(
            self,
            Unit::Source | Unit::Deck | Unit::Data | Unit::Keys | Unit::Script | Unit::Commands
        )
    }
}

// The count after one more fault; it stays at 2^64 - 1.
pub(crate) fn one_more(faults: u64) -> u64
    ensures rose { Rose faults result }
    ensures later { faults ≤ result }
{
    faults.saturating_add(1)
}

/// How a binding ends.
#[derive(Clone, Copy, Debug, PartialEq, Eq)]
pub enum Bound {
    /// The file is bound.
    Yes,
    /// The host failed: its count of faults rose, and nothing else changed.
    Failed,
}

/// How a reading ends.
#[derive(Clone, Copy, Debug, PartialEq, Eq)]
pub enum Take {
    /// This many bytes, at least one, are at the front of the buffer.
    Got(usize),
    /// The unit has no more bytes.
    End,
    /// The host failed: its count of faults rose, and nothing else changed.
    Failed,
}

/// How a writing ends.
#[derive(Clone, Copy, Debug, PartialEq, Eq)]
pub enum Put {
    /// This many bytes, at least one, were written from the front of the piece.
    Taken(usize),
    /// The host failed: its count of faults rose, and nothing else changed.
    Failed,
}

/// How the reading or writing of a sector ends.
#[derive(Clone, Copy, Debug, PartialEq, Eq)]
pub enum Drive {
    /// The sector is read or written.
    Done,
    /// The host failed: its count of faults rose, and nothing else that it reveals changed.
    Failed,
}

/// The outside of the program.
///
/// A host has a count of its faults, which never falls and stays at 2^64 - 1. It may reveal the bytes of its files, the bytes
/// that each input has left, the bytes that each output was given, and the bytes that the pack has of its sectors. It may reveal
/// how each input was read: how many bytes the last reading that did not fail gave, and how many readings found no more, at most
/// 2^64 - 1. It may also reveal which of its calls are to fail, and how many more bytes each output takes. A part that a host
/// does not reveal stays hidden. Every host reveals which units are in use, and the name that each was bound to, up to 255 bytes.
///
/// Each call changes only what its answer says. All else stays, except that the count may rise. A call answers `Failed` only if
/// the count rose in that call.
/// Source: this project's own.
pub trait Host {
    /// The count of faults, and the files and units as the host reveals them.
    ghost seen: { Self → Seen };

    /// Binds the file of this name to a unit that is not in use. The unit keeps the name, unless it has over 255 bytes. An input then
    /// has the file's bytes left, an output was given no byte, and the pack's sectors are the file's.
    fn bind(&mut self, unit: Unit, name: &str) -> Bound
        requires { (seen self.old).world.in_use unit ≡ false }
        ensures { Binds (seen self.old) (seen self.new) unit name.now result };

    /// Takes the next bytes of an input, as many as the host likes, up to the length of the buffer. An input that is not bound is
    /// empty. If the call fails, the buffer may hold anything.
    fn take(&mut self, unit: Unit, buf: &mut [u8]) -> Take
        requires input { is_input unit ≡ true }
        requires room { 0 < length buf.old }
        ensures { Takes (seen self.old) (seen self.new) unit buf.new result };

    /// Gives the first bytes of the piece to an output, as many as the host likes. An output that is not bound also takes bytes.
    fn put(&mut self, unit: Unit, piece: &[u8]) -> Put
        requires output { is_output unit ≡ true }
        requires some { 0 < length piece.now }
        ensures { Puts (seen self.old) (seen self.new) unit piece.now result };

    /// Reads a sector of the pack, 0 to 79,999, into the buffer. Bytes that the file lacks read as the character 0, and the file
    /// stays as it is. If no pack is bound, a host that reveals the sectors has no byte of a sector until the sector is written.
    /// If the call fails, the buffer may hold anything.
    fn read_sector(&mut self, a: u32, into: &mut [u8; SECTOR_LENGTH]) -> Drive
        requires { a < ALL_SECTORS }
        ensures { ReadsSector (seen self.old) (seen self.new) a into.new result };

    /// Writes the bytes to a sector of the pack, 0 to 79,999; all other sectors stay.
    fn write_sector(&mut self, a: u32, from: &[u8; SECTOR_LENGTH]) -> Drive
        requires { a < ALL_SECTORS }
        ensures { WritesSector (seen self.old) (seen self.new) a from.now result };
}
