// The places of names, found by the names.
ghost use Rattle.std.specs.Prelude.{◌≡◌, ◌≤◌, length, slice_index, OnOk, OnErr};
ghost use Rattle.sps_expr.specs.SymbolList.{short_key, place_in_maps, HasNoPlace, HasPlaceMore, HasPlacesAsIn};

use std::alloc::{AllocError, Global};
use std::collections::BTreeMap;

// The greatest length of a name that the map holds as a number: a head, a `$` and five characters.
const SHORT_KEY: usize = 7;

// A byte of a name, or 0 after its end.
fn byte_at(name: &[u8], i: usize) -> u8
    ensures { result ≡ slice_index name.now i }
{
    if i < name.len() { name[i] } else { 0 }
}

// A name of at most seven bytes as a number. The numbers have the order of the names' bytes.
fn short_key(name: &[u8]) -> u64
    requires { length name.now ≤ 7 }
    ensures { result ≡ short_key name.now }
{
    u64::from_be_bytes([
        byte_at(name, 0),
        byte_at(name, 1),
        byte_at(name, 2),
        byte_at(name, 3),
        byte_at(name, 4),
        byte_at(name, 5),
        byte_at(name, 6),
        name.len() as u8,
    ])
}

// Maps from names to their places, in the order of the names' bytes: one for short names, which compares each name as one number,
// and one for longer names.
#[derive(Drop)]
pub(crate) struct PlacesByName {
    short: BTreeMap<u64, usize>,
    long: BTreeMap<Vec<u8>, usize>,
}

impl PlacesByName {
    pub(crate) fn new(alloc: Global) -> PlacesByName
        ensures { HasNoPlace result }
    {
        PlacesByName {
            short: BTreeMap::new(alloc),
            long: BTreeMap::new(alloc),
        }
    }

    // The place of a name.
    pub(crate) fn place(&self, name: &[u8]) -> Option<usize>
        ensures { result ≡ place_in_maps self.now name.now }
    {
        if name.len() <= SHORT_KEY {
            self.short.get(&short_key(name)).copied()
        } else {
            self.long.get(name).copied()
        }
    }

    // Gives a name its place. After an error all names keep their places.
    pub(crate) fn add(&mut self, alloc: Global, name: &[u8], place: usize) -> Result<(), AllocError>
        ensures ok { OnOk result (HasPlaceMore self.old self.new name.now place) }
        ensures err { OnErr result (HasPlacesAsIn self.old self.new) }
    {
        if name.len() <= SHORT_KEY {
            self.short.insert(short_key(name), place)?;
        } else {
            let key = Vec::from_slice(alloc, name)?;
            self.long.insert(key, place)?;
        }
        Ok(())
    }
}
