// A session of the debugger.
// Source: this project's own.
ghost use Rattle.std.specs.Prelude.{◌≡◌, ◌≤◌, ◌+◌, [], All, count_by, false, vec_len};
ghost use Rattle.outside_io.specs.declared.host.Unit.TheVariants as units;
ghost use Rattle.outside_io.specs.Whole.{Sends};
ghost use Rattle.digit_core.specs.Size.{size};
ghost use Rattle.cpu_step.specs.Machine.{is_faulted};
ghost use Rattle.operator_script.specs.Scripts.{IsLine, lines_left};
ghost use Rattle.operator_script.specs.Run.{moment};
ghost use Rattle.sps_listing.specs.Listing.{placed_texts};
ghost use Rattle.console_debug.specs.Breakpoints.{HasTables, HasRoomIn, HasSameRoom, set_now};
ghost use Rattle.console_debug.specs.CommandLists.{IsCommand, HasBreakRoom, breakpoints, command_list};
ghost use Rattle.console_debug.specs.Grammar.{break_count, is_break, most_shown};
ghost use Rattle.console_debug.specs.Session as does;
ghost use Rattle.console_debug.specs.Lines.{show_line};
ghost use Rattle.console_debug.specs.Carries.{CarriesPart, IsReadyFor, IsSameDebugger, Sets, marks, debugger_state_of};
ghost use Rattle.console_debug.specs.Debugs.{Debugs, task, without_count};

use crate::breaks::Breaks;
use crate::commands::{Commands, DebugCommand};
use crate::lines::{no_statement_line, show_line};
use crate::walking::Cursor;
use cpu_step::Machine;
use operator_script::{Run, Script};
use outside_io::{Host, Sent, Unit, write_all};
use rewind_log::Rewind;
use sps_pass_two::Assembled;

/// How a session ends.
#[derive(Clone, Copy, Debug, PartialEq, Eq)]
pub enum SessionEnd {
    /// At `QUIT`, or at the end of the commands.
    Ended,
    /// The host failed: its count of faults rose.
    Failed,
}

/// Carries out the debugger's commands, one after another, up to `QUIT` or their end, and prints on Report.
///
/// The run uses this machine and this script, and executes up to `limit` instructions; their count begins at 0. `assembled` says
/// which statement is an instruction, and at which address. No breakpoint is set at the beginning, whatever earlier sessions set.
///
/// - `GO` runs on until an executed instruction has led the running machine to the address of a statement whose breakpoint is set. It
///   prints the line `BREAK`, with the last instruction there, the address and the count. If no stop follows, it runs to the end of
///   the run, and prints the line of that ending.
/// - `STEP n` executes n instructions, and prints a line `AT` before each, with its address and the count. If the run ends
///   before, it prints the line of the ending, once.
/// - `BACK n` goes back to the place n places before this place, and prints its line `AT`. If there are fewer places, or if
///   that place is more than 1,000 before the furthest place that was reached, it prints `NO BACK` and the number, and stays.
/// - `BREAK s` sets the breakpoint of a statement, `CLEAR s` clears it; for a statement that is not an instruction they print
///   `NO STATEMENT` and its number.
/// - `SHOW a n` prints the address of the first cell, and then n cells of core as object characters; a bad cell is `?`.
/// - `QUIT` ends the session; commands after it are not carried out.
///
/// A place is the state of the run before a turn. A turn is an executed instruction or an action of the operator's script. `BACK` sets
/// back all that is inside the machine: core, registers, indicators and switches, arms, mode, and the count. All outside stays as at the
/// furthest place: the cards and the keyboard's lines that are left, the script, the texts and the sectors. `GO` and `STEP` then lead over
/// the same places again, and make no turn twice: no card is read and nothing is typed or punched a second time.
///
/// An action of the operator's script is part of the run, and not an instruction. At the last place of the run each further `GO`,
/// and each `STEP` of one instruction or more, prints the line of the ending again. A session takes no memory: `rewind` has room for the
/// places, and keeps none at the beginning.
///
/// All that the session does is one list, in order: its lines, and its turns, with the bytes that each turn punches and types, the
/// sectors that it writes, and the cards and keyboard lines that it takes. At the end the session has done the whole list, and nothing
/// else: it has taken the cards and lines of the list. It asks for no card or line before it needs it, if that was so before.
///
/// `Failed` only if the host's count of faults rose: the session did a first part of that list, up to a part of one line or of one turn.
/// The printed, punched and typed bytes, the sectors, the machine, the cards and keyboard lines that are left, and the script all belong
/// to that moment. If a line was cut short, all turns before it are done; if a turn was cut short, a part of that turn is done.
pub fn session<const M: u32, H: Host>(
    machine: &mut Machine<M>,
    script: &mut Script,
    limit: u64,
    assembled: &Assembled,
    commands: &mut Commands,
    rewind: &mut Rewind<M>,
    host: &mut H,
) -> SessionEnd
    requires mode { is_faulted machine.old.mode ≡ false }
    requires lines { All (IsLine (size M)) (lines_left script.old) }
    requires fits { All (IsCommand (size M)) (command_list commands.old) }
    requires room { HasBreakRoom commands.old }
    requires empty { rewind.old ≡ [] }
    ensures does { let given = task limit (placed_texts assembled.now) (command_list commands.old) in
        let before = moment M machine.old script.old 0 (H.seen host.old) in
        let after = without_count M machine.new script.new (H.seen host.new) in
        Debugs M given before after (breakpoints commands.new) result }
    ensures kept { command_list commands.new ≡ command_list commands.old }
    ensures room { HasBreakRoom commands.new }
{
    commands.breaks.clear_all(assembled);
    rewind.keep(machine, 0);
    let run = Run {
        machine,
        script,
        steps: 0,
        limit,
    };
    let mut debugger = Debugger {
        cursor: Cursor {
            run,
            rewind,
            behind: 0,
        },
        assembled,
        breaks: &mut commands.breaks,
    };
    let sent = debugger.carry_out_all(&commands.list, host);
    commands.breaks.settle();
    match sent {
        Sent::Done => SessionEnd::Ended,
        Sent::Failed => SessionEnd::Failed,
    }
}

// Whether a command is `QUIT`.
fn is_quit(command: DebugCommand) -> bool
    ensures { result ≡ does.is_quit command }
{
    matches!(command, DebugCommand::Quit)
}

// What a session works on: its cursor over the places of the run, the placed statements, and the breakpoints.
#[derive(Drop)]
struct Debugger<'r, 'k, 'a, 'b, const M: u32> {
    cursor: Cursor<'r, 'k, M>,
    assembled: &'a Assembled,
    breaks: &'b mut Breaks,
}

impl<const M: u32> Debugger<'_, '_, '_, '_, M> {
    // Carries out one command after another, up to QUIT or their end.
    fn carry_out_all<H: Host>(&mut self, list: &[DebugCommand], host: &mut H) -> Sent
        requires ready { IsReadyFor M (count_by is_break list.now) self.old (H.seen host.old) }
        requires fits { All (IsCommand (size M)) list.now }
        ensures same { IsSameDebugger M self.old self.new }
        ensures carries { let before = debugger_state_of M self.old (H.seen host.old) in
            let after = debugger_state_of M self.new (H.seen host.new) in
            CarriesPart M self.old.cursor.run.limit (placed_texts self.old.assembled.now) (does.session_of list.now) before after result }
        ensures len { vec_len self.new.breaks.now.log ≤ vec_len self.old.breaks.now.log + count_by is_break list.now }
        ensures room { HasSameRoom self.old.breaks.now self.new.breaks.now }
    {
        for command in list {
            if is_quit(*command) {
                return Sent::Done;
            }
            match self.carry_out(*command, host) {
                Sent::Done => {}
                Sent::Failed => return Sent::Failed,
            }
        }
        Sent::Done
    }

    // Carries out a command; QUIT does nothing.
    fn carry_out<H: Host>(&mut self, command: DebugCommand, host: &mut H) -> Sent
        requires ready { IsReadyFor M (break_count command) self.old (H.seen host.old) }
        requires fits { IsCommand (size M) command }
        ensures same { IsSameDebugger M self.old self.new }
        ensures carries { let before = debugger_state_of M self.old (H.seen host.old) in
            let after = debugger_state_of M self.new (H.seen host.new) in
            CarriesPart M self.old.cursor.run.limit (placed_texts self.old.assembled.now) (does.session_after command) before after result }
        ensures tables { HasTables (placed_texts self.old.assembled.now) self.new.breaks.now }
        ensures len { vec_len self.new.breaks.now.log ≤ vec_len self.old.breaks.now.log + break_count command }
        ensures room { HasSameRoom self.old.breaks.now self.new.breaks.now }
    {
        match command {
            DebugCommand::Go => self.cursor.go(self.assembled, self.breaks, host),
            DebugCommand::Step(count) => self.cursor.step(count, host),
            DebugCommand::Back(count) => self.cursor.back(count, host),
            DebugCommand::Break(statement) => set_break(
                self.assembled,
                statement,
                self.breaks,
                host,
            ),
            DebugCommand::Clear(statement) => clear_break(
                self.assembled,
                statement,
                self.breaks,
                host,
            ),
            DebugCommand::Show { at, count } => show(&self.cursor.run, at, count, host),
            DebugCommand::Quit => Sent::Done,
        }
    }
}

// Sets the breakpoint of a statement, where it is an instruction.
fn set_break<H: Host>(
    assembled: &Assembled,
    statement: u64,
    breaks: &mut Breaks,
    host: &mut H,
) -> Sent
    requires room { HasRoomIn (vec_len breaks.old.log + 1) breaks.old }
    requires tables { HasTables (placed_texts assembled.now) breaks.old }
    ensures sets { let placed = placed_texts assembled.now in
        let before = marks (set_now breaks.old) (H.seen host.old) in
        let after = marks (set_now breaks.new) (H.seen host.new) in
        Sets placed statement (does.with_break statement) before after result }
    ensures tables { HasTables (placed_texts assembled.now) breaks.new }
    ensures len { vec_len breaks.new.log ≤ vec_len breaks.old.log + 1 }
    ensures room { HasSameRoom breaks.old breaks.new }
{
    if breaks.set(assembled, statement) {
        Sent::Done
    } else {
        write_all(host, Unit::Report, no_statement_line(statement).as_bytes())
    }
}

// Clears the breakpoint of a statement if it is an instruction; if not, prints NO STATEMENT.
fn clear_break<H: Host>(
    assembled: &Assembled,
    statement: u64,
    breaks: &mut Breaks,
    host: &mut H,
) -> Sent
    requires { HasTables (placed_texts assembled.now) breaks.old }
    ensures sets { let placed = placed_texts assembled.now in
        let before = marks (set_now breaks.old) (H.seen host.old) in
        let after = marks (set_now breaks.new) (H.seen host.new) in
        Sets placed statement (does.without_break statement) before after result }
    ensures tables { HasTables (placed_texts assembled.now) breaks.new }
    ensures len { vec_len breaks.new.log ≡ vec_len breaks.old.log }
    ensures room { HasSameRoom breaks.old breaks.new }
{
    if breaks.clear(assembled, statement) {
        Sent::Done
    } else {
        write_all(host, Unit::Report, no_statement_line(statement).as_bytes())
    }
}

// Prints cells of core.
fn show<const M: u32, H: Host>(run: &Run<M>, at: u32, count: u32, host: &mut H) -> Sent
    requires within { at + count ≤ size M }
    requires few { count ≤ most_shown }
    ensures { let line = show_line run.now.machine.now.core at count in
        Sends (H.seen host.old) (H.seen host.new) units.Report line result }
{
    write_all(
        host,
        Unit::Report,
        show_line(&run.machine.core, at, count).as_slice(),
    )
}
