//! The last places of a run, to which a session may go back.
//!
//! A place is the inside of the machine: core, registers, panel, arms and mode, with the count of steps. The outside, that is the cards,
//! the keyboard's lines, the texts and the sectors, is not kept and never goes back.
//!
//! Source: this project's own.
#![tactic(auto)]

ghost use Rattle.std.specs.Prelude.{◌≡◌, [], ◌<◌, ◌≤◌, ◌*◌, ◌+◌, All, IfOk, length, slice_get, Some, IfSome};
ghost use Rattle.digit_core.specs.{AgreeOutside, IsSize};
ghost use Rattle.rewind_log.specs.Kept.{place_of_machine, places_with, machine_at, most_places, newest};
ghost use Rattle.rewind_log.specs.Entries.{IsHeld, IsEntryWithin, core_before, place_of_entry, oldest_dropped, places_of_entries};
ghost use Rattle.rewind_log.specs.declared.LogEntry.{LogEntry};

use branch_ops::Regs;
use circular_buffer::HeapCircularBuffer;
use cpu_step::{Machine, Mode};
use digit_core::{Core, CoreRoom};
use disk_1311::DRIVES;
use indicators::Panel;
use std::alloc::{AllocError, Global};
use std::marker::Model;
use std::vec::Vec;

/// How many places are kept: the furthest, and a thousand before it.
pub const PLACES: usize = 1_001;

// A kept place. The place before it has the same core, except for the words from number `from` on and below number `to`. `old` holds these
// words of the place before; all other words of `old` have no meaning.
#[derive(Drop)]
struct LogEntry<const M: u32> {
    regs: Regs,
    panel: Panel,
    arms: [u32; DRIVES],
    mode: Mode,
    steps: u64,
    from: u32,
    to: u32,
    old: Core<M>,
}

/// The last places of a run, at most 1,001.
#[derive(Drop)]
pub struct Rewind<const M: u32> {
    // The newest entry comes first.
    entries: HeapCircularBuffer<LogEntry<M>>,
    // The core of the newest place.
    latest: Core<M>,
    // Room for the core of each place that can still be kept before a place is dropped.
    spare: Vec<CoreRoom<M>>,
}

impl<const M: u32> Model for Rewind<M> {
    ghost use Rattle.std.specs.Prelude.{List};
    ghost use Rattle.rewind_log.specs.Kept.{Kept};
    ghost use Rattle.rewind_log.specs.Entries.{IsHeld, places_of_entries};

    ghost Value = { List Kept };

    ghost view = { λ r. places_of_entries M r.latest r.entries.items };

    ghost invariant = { λ r. IsHeld M r.latest r.entries r.spare.items };
}

impl<const M: u32> Rewind<M> {
    /// Makes room for all places. No place is kept yet.
    ///
    /// `M` is 1, 2 or 3. The room takes about 16,000,000 bytes for each unit of `M`. It is reserved here, and touched as places are
    /// kept; no other call takes memory. The error is want of memory.
    pub fn new(alloc: Global) -> Result<Self, AllocError>
        requires { IsSize M }
        ensures { IfOk result (λ r. r ≡ []) }
    {
        let mut spare = Vec::with_capacity(alloc, PLACES)?;
        for _place in 0..PLACES {
            spare.push_reserved(CoreRoom::new(alloc)?);
        }
        Ok(Rewind {
            entries: HeapCircularBuffer::with_capacity(alloc, PLACES)?,
            latest: Core::new(alloc)?,
            spare,
        })
    }

    /// How many places are kept, at most 1,001.
    pub fn len(&self) -> u32
        ensures len { result ≡ length self.now }
        ensures most { result ≤ most_places }
    {
        self.entries.len() as u32
    }

    /// The count of steps of place number `i`; the oldest place has number 0.
    ///
    /// `i` is below the number of kept places.
    pub fn count_at(&self, i: u32) -> u64
        requires { i < length self.now }
        ensures { IfSome (slice_get self.now i) (λ k. result ≡ k.steps) }
    {
        self.entry_at(i).steps
    }

    /// The registers of place number `i`; the oldest place has number 0.
    ///
    /// `i` is below the number of kept places.
    pub fn regs_at(&self, i: u32) -> Regs
        requires { i < length self.now }
        ensures { IfSome (slice_get self.now i) (λ k. result ≡ k.regs) }
    {
        self.entry_at(i).regs
    }

    /// The mode of place number `i`; the oldest place has number 0.
    ///
    /// `i` is below the number of kept places.
    pub fn mode_at(&self, i: u32) -> Mode
        requires { i < length self.now }
        ensures { IfSome (slice_get self.now i) (λ k. result ≡ k.mode) }
    {
        self.entry_at(i).mode
    }

    // The entry of place number `i`.
    fn entry_at(&self, i: u32) -> &LogEntry<M>
        requires { i < length self.now }
        ensures { IfSome (slice_get self.now i) (λ k. k ≡ place_of_entry M k.core result.now) }
    {
        match self.entries.get(self.entries.len() - 1 - i as usize) {
            Some(entry) => entry,
            None => unreachable!(),
        }
    }

    /// Keeps the machine's place after `steps` steps: its core, registers, panel, arms and mode.
    ///
    /// If 1,001 places were kept, the oldest is dropped; all others stay. Core is compared with the core of the place before. The words
    /// from the first to the last that differ are copied.
    pub fn keep(&mut self, machine: &Machine<M>, steps: u64)
        ensures { self.new ≡ places_with self.old (place_of_machine M machine.now steps) }
    {
        let (from, to) = self.latest.changed_words(&machine.core);
        push(
            &mut self.entries,
            &mut self.latest,
            &mut self.spare,
            machine,
            steps,
            from,
            to,
        );
    }

    /// Keeps the machine's place as `keep` does. Its core equals the core of the newest place, except for words from number `from` on
    /// and below number `to`; only these words are copied.
    ///
    /// At least one place is kept already. `from` is no more than `to`, and `to` no more than the number of words.
    pub fn keep_within(&mut self, machine: &Machine<M>, steps: u64, from: u32, to: u32)
        requires some { 0 < length self.old }
        requires order { from ≤ to }
        requires room { to ≤ M * 2000 }
        requires same { IfSome (newest self.old) (λ k. AgreeOutside k.core machine.now.core (10 * from) (10 * to)) }
        ensures { self.new ≡ places_with self.old (place_of_machine M machine.now steps) }
    {
        push(
            &mut self.entries,
            &mut self.latest,
            &mut self.spare,
            machine,
            steps,
            from,
            to,
        );
    }

    /// Brings the machine to place number `i`; the oldest place has number 0. The machine gets the core, registers, panel, arms and mode of
    /// the place. Its hopper and its keyboard stay as they are.
    ///
    /// `i` is below the number of kept places.
    pub fn restore(&self, i: u32, machine: &mut Machine<M>)
        requires { i < length self.now }
        ensures { IfSome (slice_get self.now i) (λ k. machine.new ≡ machine_at M k machine.old) }
    {
        let last = self.entries.len() - 1 - i as usize;
        machine.core.copy_from(&self.latest);
        for k in 0..last {
            undo(&self.entries, k, &mut machine.core);
        }
        stand_at(&self.entries, last, machine);
    }
}

// Turns the core of the place of entry number `k` into the core of the place before it.
fn undo<const M: u32>(entries: &HeapCircularBuffer<LogEntry<M>>, k: usize, core: &mut Core<M>)
    requires there { k < length entries.now.items }
    requires within { All (IsEntryWithin M) entries.now.items }
    ensures { (e : LogEntry M) → slice_get entries.now.items k ≡ Some e → core.new ≡ core_before M core.old e }
{
    match entries.get(k) {
        Some(entry) => core.copy_words(&entry.old, entry.from, entry.to),
        None => unreachable!(),
    }
}

// Brings a machine that has the core of the place of entry number `k` to that place.
fn stand_at<const M: u32>(
    entries: &HeapCircularBuffer<LogEntry<M>>,
    k: usize,
    machine: &mut Machine<M>,
)
    requires { k < length entries.now.items }
    ensures { (e : LogEntry M) → slice_get entries.now.items k ≡ Some e
        → machine.new ≡ machine_at M (place_of_entry M machine.old.core e) machine.old }
{
    match entries.get(k) {
        Some(entry) => {
            machine.regs = entry.regs;
            machine.panel = entry.panel;
            machine.arms = entry.arms;
            machine.mode = entry.mode;
        }
        None => unreachable!(),
    }
}

// A core for one more place: in spare room, or from the entry of the oldest place, which is dropped. Its cells have no meaning.
fn core_for_one<const M: u32>(
    entries: &mut HeapCircularBuffer<LogEntry<M>>,
    spare: &mut Vec<CoreRoom<M>>,
) -> Core<M>
    requires all { length entries.old.items + length spare.old.items ≡ most_places }
    ensures capacity { entries.new.capacity ≡ entries.old.capacity }
    ensures items { entries.new.items ≡ oldest_dropped M entries.old.items }
    ensures all { length entries.new.items + length spare.new.items + 1 ≡ most_places }
{
    match spare.pop() {
        Some(room) => room.core(),
        None => match entries.pop_back() {
            Some(oldest) => {
                let LogEntry { old, .. } = oldest;
                old
            }
            None => unreachable!(),
        },
    }
}

// Keeps one more place. Its core equals the core of the newest place, except for words from number `from` on and below number `to`.
fn push<const M: u32>(
    entries: &mut HeapCircularBuffer<LogEntry<M>>,
    latest: &mut Core<M>,
    spare: &mut Vec<CoreRoom<M>>,
    machine: &Machine<M>,
    steps: u64,
    from: u32,
    to: u32,
)
    requires held { IsHeld M latest.old entries.old spare.old.items }
    requires order { from ≤ to }
    requires room { to ≤ M * 2000 }
    requires same { AgreeOutside latest.old machine.now.core (10 * from) (10 * to) }
    ensures held { IsHeld M latest.new entries.new spare.new.items }
    ensures places { places_of_entries M latest.new entries.new.items
        ≡ places_with (places_of_entries M latest.old entries.old.items) (place_of_machine M machine.now steps) }
{
    latest.size_law();
    machine.core.size_law();
    let mut old = core_for_one(entries, spare);
    old.size_law();
    old.copy_words(latest, from, to);
    latest.copy_words(&machine.core, from, to);
    entries.push_front(LogEntry {
        regs: machine.regs,
        panel: machine.panel,
        arms: machine.arms,
        mode: machine.mode,
        steps,
        from,
        to,
        old,
    });
}
