// The breakpoints that are set.
ghost use Rattle.std.specs.Prelude.{◌≡◌, ◌≤◌, ◌<◌, ◌+◌, ◌-◌, ◌^◌, [], IfOk, length, slice_index_or, slice_set, vec_len, if◌then◌else◌};
ghost use Rattle.sps_listing.specs.Listing.{placed_texts};
ghost use Rattle.sps_pass_two.specs.Making.{text_of_placed};
ghost use Rattle.console_debug.specs.Breakpoints.{AreNumbersByAddress, HasTables, HasRoomIn, HasSameRoom, is_set, set_now, since_of};
ghost use Rattle.console_debug.specs.Lines.{statement_number};
ghost use Rattle.console_debug.specs.Places.{has_break, instruction_address, is_at, is_instruction_at, statement_address};
ghost use Rattle.console_debug.specs.Session.{with_break, without_break};

use digit_core::MOST_POSITIONS;
use sps_listing::statement_at;
use sps_pass_one::MOST_STATEMENTS;
use sps_pass_two::{Assembled, Placed};
use std::alloc::{AllocError, Global};
use std::vec::Vec;

// The statements whose breakpoints are set at the end of a session, and the tables of a session that goes on. The tables show at once
// whether a breakpoint is set at an address in core. So no list is searched during a run, or to clear a breakpoint.
#[derive(Drop)]
pub(crate) struct Breaks {
    pub(crate) statements: Vec<u64>,
    // The statement of each breakpoint that was set in this session, in order, even if it was cleared later.
    pub(crate) log: Vec<u64>,
    // By statement number: the number of the first log entry that can count for the statement.
    pub(crate) since: Vec<usize>,
    // By statement number: how many of the statement's entries count.
    pub(crate) times: Vec<usize>,
    // By address: how many entries count whose statement is at the address.
    pub(crate) counts: Vec<usize>,
    // By address: the number of the last instruction there, or 0 without an instruction.
    pub(crate) numbers: Vec<u32>,
}

impl Breaks {
    // Makes room for `count` breakpoints in a core of `positions` positions. No breakpoint is set.
    pub(crate) fn with_room(
        alloc: Global,
        count: usize,
        positions: u32,
    ) -> Result<Breaks, AllocError>
        ensures none_set { IfOk result (λ breaks. breaks.statements.items ≡ []) }
        ensures room { IfOk result (HasRoomIn count) }
    {
        let statements = Vec::with_capacity(alloc, count)?;
        let log = Vec::with_capacity(alloc, count)?;
        let since = vec![in alloc; 0; MOST_STATEMENTS as usize + 1]?;
        let times = vec![in alloc; 0; MOST_STATEMENTS as usize + 1]?;
        let reach = positions.min(MOST_POSITIONS) as usize;
        let counts = vec![in alloc; 0; reach]?;
        let numbers = vec![in alloc; 0; reach]?;
        Ok(Breaks {
            statements,
            log,
            since,
            times,
            counts,
            numbers,
        })
    }

    // Clears all breakpoints, for a session over these statements.
    pub(crate) fn clear_all(&mut self, assembled: &Assembled)
        requires { HasRoomIn 0 self.old }
        ensures none_set { set_now self.new ≡ [] }
        ensures none_logged { vec_len self.new.log ≡ 0 }
        ensures tables { HasTables (placed_texts assembled.now) self.new }
        ensures room { HasSameRoom self.old self.new }
    {
        self.log.clear();
        self.since.fill(0);
        self.times.fill(0);
        self.counts.fill(0);
        fill_numbers(&mut self.numbers, assembled);
    }

    // Sets the breakpoint of a statement if it is an instruction. The answer is whether it is.
    pub(crate) fn set(&mut self, assembled: &Assembled, statement: u64) -> bool
        requires room { HasRoomIn (vec_len self.old.log + 1) self.old }
        requires tables { HasTables (placed_texts assembled.now) self.old }
        ensures is { result ≡ is_instruction_at (placed_texts assembled.now) statement }
        ensures set { set_now self.new ≡ (if result then with_break statement (set_now self.old) else set_now self.old) }
        ensures tables { HasTables (placed_texts assembled.now) self.new }
        ensures len { vec_len self.new.log ≤ vec_len self.old.log + 1 }
        ensures room { HasSameRoom self.old self.new }
    {
        let Some(address) = statement_address(assembled, statement) else {
            return false;
        };
        raise(&mut self.times, statement as usize);
        raise(&mut self.counts, address as usize);
        self.log.push_reserved(statement);
        true
    }

    // Clears all breakpoints of a statement if it is an instruction. The answer is whether it is.
    pub(crate) fn clear(&mut self, assembled: &Assembled, statement: u64) -> bool
        requires tables { HasTables (placed_texts assembled.now) self.old }
        ensures is { result ≡ is_instruction_at (placed_texts assembled.now) statement }
        ensures set { set_now self.new ≡ (if result then without_break statement (set_now self.old) else set_now self.old) }
        ensures tables { HasTables (placed_texts assembled.now) self.new }
        ensures len { vec_len self.new.log ≡ vec_len self.old.log }
        ensures room { HasSameRoom self.old self.new }
    {
        let Some(address) = statement_address(assembled, statement) else {
            return false;
        };
        let statement = statement as usize;
        lower(&mut self.counts, address as usize, self.times[statement]);
        self.since[statement] = self.log.len();
        self.times[statement] = 0;
        true
    }

    // Whether a breakpoint is set at an address.
    pub(crate) fn has_break(&self, assembled: &Assembled, ir: u32) -> bool
        requires { HasTables (placed_texts assembled.now) self.now }
        ensures { result ≡ has_break (placed_texts assembled.now) (set_now self.now) ir }
    {
        let address = ir as usize;
        if address < self.counts.len() {
            return self.counts[address] > 0;
        }
        self.has_break_beyond(assembled, ir)
    }

    // Whether a breakpoint is set at an address beyond the table of counts.
    fn has_break_beyond(&self, assembled: &Assembled, ir: u32) -> bool
        requires { HasTables (placed_texts assembled.now) self.now }
        ensures { result ≡ has_break (placed_texts assembled.now) (set_now self.now) ir }
    {
        for number in 0..self.log.len() {
            let statement = self.log[number];
            if !self.is_set(number, statement) {
                continue;
            }
            if is_at(assembled, statement, ir) {
                return true;
            }
        }
        false
    }

    // Whether the log entry with this number, of this statement, counts.
    fn is_set(&self, number: usize, statement: u64) -> bool
        ensures { result ≡ is_set (since_of self.now.since.items) number statement }
    {
        match self.since.get(statement as usize) {
            Some(since) => *since <= number,
            None => true,
        }
    }

    // The number of the last instruction at an address, or 0 without an instruction.
    pub(crate) fn statement_number(&self, assembled: &Assembled, at: u32) -> u32
        requires { HasTables (placed_texts assembled.now) self.now }
        ensures { result ≡ statement_number (placed_texts assembled.now) at }
    {
        let address = at as usize;
        if address < self.numbers.len() {
            return self.numbers[address];
        }
        statement_at(assembled, at).unwrap_or(0)
    }

    // At the end of a session, keeps the statements whose breakpoints are set.
    pub(crate) fn settle(&mut self)
        requires { HasRoomIn (vec_len self.old.log) self.old }
        ensures statements { self.new.statements.items ≡ set_now self.old }
        ensures room { HasSameRoom self.old self.new }
    {
        self.statements.clear();
        for number in 0..self.log.len() {
            let statement = self.log[number];
            if !self.is_set(number, statement) {
                continue;
            }
            self.statements.push_reserved(statement);
        }
    }
}

// Adds 1 at an index of a table, if the table has that index.
fn raise(table: &mut Vec<usize>, at: usize)
    requires { slice_index_or table.old.items at 0 < 2 ^ 63 }
    ensures { table.new.items ≡ slice_set table.old.items at (slice_index_or table.old.items at 0 + 1) }
{
    if at < table.len() {
        table[at] += 1;
    }
}

// Subtracts a number at an index of a table, if the table has that index.
fn lower(table: &mut Vec<usize>, at: usize, by: usize)
    requires { at < length table.old.items → by ≤ slice_index_or table.old.items at 0 }
    ensures { table.new.items ≡ slice_set table.old.items at (slice_index_or table.old.items at 0 - by) }
{
    if at < table.len() {
        table[at] -= by;
    }
}

// Stores a number at an index of a table, if the table has that index.
fn put(table: &mut Vec<u32>, at: usize, number: u32)
    ensures { table.new.items ≡ slice_set table.old.items at number }
{
    if at < table.len() {
        table[at] = number;
    }
}

// Fills the table of statement numbers by address.
fn fill_numbers(numbers: &mut Vec<u32>, assembled: &Assembled)
    ensures { AreNumbersByAddress (placed_texts assembled.now) numbers.new.items }
{
    numbers.fill(0);
    let mut number = 0;
    for placed in assembled.placed.as_slice() {
        number += 1;
        let Some(address) = instruction_address(placed) else {
            continue;
        };
        put(numbers, address as usize, number);
    }
}

// Whether a statement is an instruction at the address.
fn is_at(assembled: &Assembled, statement: u64, ir: u32) -> bool
    ensures { result ≡ is_at ir (statement_address (placed_texts assembled.now) statement) }
{
    match statement_address(assembled, statement) {
        Some(address) => address == u64::from(ir),
        None => false,
    }
}

// The address of a placed statement that is an instruction.
fn instruction_address(placed: &Placed) -> Option<u64>
    ensures { result ≡ instruction_address (text_of_placed placed.now) }
{
    if placed.instruction {
        Some(placed.address.unsigned_abs())
    } else {
        None
    }
}

// The address of a statement if it is an instruction; the first statement has number 1.
fn statement_address(assembled: &Assembled, statement: u64) -> Option<u64>
    ensures { result ≡ statement_address (placed_texts assembled.now) statement }
{
    let place = usize::try_from(statement.checked_sub(1)?).ok()?;
    let placed = assembled.placed.as_slice().get(place)?;
    instruction_address(placed)
}
