// Symbols in the order in which they were defined.
ghost use Rattle.std.specs.Prelude.{◌≡◌, ◌≤◌, [], true, is_none, length, Some, OnErr, IfOk};
ghost use Rattle.sps_expr.specs.Symbol.{find, entry_with, with_new, with_head, symbol_of, has_no_name_twice, HasEntryOf, EachEntryHas};

use crate::by_name::PlacesByName;
use arrayvec::ArrayVec;
use std::alloc::{AllocError, Global};
use std::marker::Model;

// The greatest number of characters of a name that may have a head.
const SHORT_NAME: usize = 5;

// The symbol of a head and a name, as it is spelled.
fn headed(h: u8, name: &[u8]) -> ArrayVec<u8, 7>
    requires { length name.now ≤ 5 }
    ensures { result.items ≡ with_head (Some h) name.now }
{
    let mut symbol = ArrayVec::new();
    symbol.push(h);
    symbol.push(b'$');
    for b in name {
        symbol.push(*b);
    }
    symbol
}

// The map has the name too; it is kept here so that the list alone gives the symbols.
#[derive(Drop)]
struct Symbol {
    name: Vec<u8>,
    value: i64,
    statement: u32,
}

/// The names that statements have defined, in the order in which they were added, each with its value and its statement. No name
/// occurs twice.
///
/// A map next to the list gives each name's place in the list, in the order of the names' bytes. It
/// always agrees with the list: it has each name's place, and no other name. So a look-up and a
/// definition take only a few more steps if there are twice as many names, whatever the names are.
///
/// Contracts see the list of the entries.
/// Source: SPS manual, labels; that the first definition of a name counts is this project's own.
#[derive(Drop)]
pub struct Symbols {
    entries: Vec<Symbol>,
    places: PlacesByName,
}

impl Model for Symbols {
    ghost use Rattle.std.specs.Prelude.{◌≡◌, List, true};
    ghost use Rattle.sps_expr.specs.Symbol.{SymbolEntry, has_no_name_twice};
    ghost use Rattle.sps_expr.specs.SymbolList.{entries_of_symbols, HasPlacesOf};

    ghost Value = { List SymbolEntry };

    ghost view = { λ s. entries_of_symbols s.entries.items };

    ghost invariant = { λ s. (has_no_name_twice (entries_of_symbols s.entries.items) ≡ true)
        × HasPlacesOf s.places (entries_of_symbols s.entries.items) };
}

impl Symbols {
    /// No symbols yet.
    ///
    /// It takes no memory; `define` does.
    /// Source: this project's own.
    #[tactic(auto, unfolding(crate::specs::Symbol::has_no_name_twice))]
    pub fn new(alloc: Global) -> Symbols
        ensures { result ≡ [] }
    {
        Symbols {
            entries: Vec::new(alloc),
            places: PlacesByName::new(alloc),
        }
    }

    /// The value and the statement of a name, or `None` if the symbols don't have the name. A name is a symbol as it is spelled,
    /// `h$name` or `name`.
    ///
    /// It takes no memory, and only a few more steps if there are twice as many names.
    /// Source: this project's own.
    pub fn find(&self, name: &[u8]) -> Option<(i64, u32)>
        ensures is { result ≡ find name.now self.now }

        // The name's entry is there, and it is the only one.
        ensures there { HasEntryOf self.now name.now result }
        ensures only { EachEntryHas self.now name.now result }

        // The invariant of the type.
        ensures once { has_no_name_twice self.now ≡ true }
    {
        let place = self.places.place(name)?;
        let symbol = &self.entries[place];
        Some((symbol.value, symbol.statement))
    }

    /// The value and the statement of the symbol to which a name without a `$` refers, or `None` if there is no such symbol.
    ///
    /// `head` is the head in force. A name of one to five characters refers to the symbol with that head, and a longer name to
    /// the symbol without a head. It takes no memory.
    /// Source: this project's own.
    pub fn find_under(&self, head: Option<u8>, name: &[u8]) -> Option<(i64, u32)>
        ensures { result ≡ find (symbol_of head name.now) self.now }
    {
        match head {
            Some(h) => {
                if name.len() <= SHORT_NAME {
                    self.find(headed(h, name).as_slice())
                } else {
                    self.find(name)
                }
            }
            None => self.find(name),
        }
    }

    /// Adds the symbol to which a label refers, with its value and its statement, as [`define`](Symbols::define) does.
    ///
    /// `head` is the head in force. A label of one to five characters refers to the symbol with that head, and a longer label to
    /// the symbol without a head.
    /// Source: this project's own.
    pub fn define_under(
        &mut self,
        alloc: Global,
        head: Option<u8>,
        name: &[u8],
        value: i64,
        statement: u32,
    ) -> Result<bool, AllocError>
        ensures is_new { IfOk result (λ is_new.
            is_new ≡ is_none (find (symbol_of head name.now) self.old)) }
        ensures ok { IfOk result (λ is_new. self.new
            ≡ with_new is_new self.old (entry_with (symbol_of head name.now) value statement)) }
        ensures err { OnErr result (self.new ≡ self.old) }
    {
        match head {
            Some(h) => {
                if name.len() <= SHORT_NAME {
                    self.define(alloc, headed(h, name).as_slice(), value, statement)
                } else {
                    self.define(alloc, name, value, statement)
                }
            }
            None => self.define(alloc, name, value, statement),
        }
    }

    /// Adds a name with its value and its statement after the others and answers true, or answers false if the name exists.
    ///
    /// The error is a lack of memory for a new name. After false, and after the error, all symbols are as before.
    /// Source: SPS manual, labels; that the first definition of a name counts is this project's own.
    pub fn define(
        &mut self,
        alloc: Global,
        name: &[u8],
        value: i64,
        statement: u32,
    ) -> Result<bool, AllocError>
        ensures is_new { IfOk result (λ is_new. is_new ≡ is_none (find name.now self.old)) }
        ensures ok { IfOk result (λ is_new.
            self.new ≡ with_new is_new self.old (entry_with name.now value statement)) }
        ensures err { OnErr result (self.new ≡ self.old) }
        ensures grew { OnErr result (is_none (find name.now self.old) ≡ true) }
    {
        if self.places.place(name).is_some() {
            return Ok(false);
        }
        // All steps that may lack memory come before the first visible change.
        let owned = Vec::from_slice(alloc, name)?;
        self.entries.reserve(1)?;
        self.places.add(alloc, name, self.entries.len())?;
        self.entries.push_reserved(Symbol {
            name: owned,
            value,
            statement,
        });
        Ok(true)
    }
}
