// The turns of a run.
// Source: this project's own.
ghost use Rattle.std.specs.Prelude.{◌≡◌, ◌≤◌, ℕ, true, false, All, Some, is_some};
ghost use Rattle.digit_core.specs.Size.{size};
ghost use Rattle.cpu_step.specs.Machine.{is_faulted};
ghost use Rattle.operator_script.specs.Scripts.{IsLine, IsAction, HasFront, lines_left};
ghost use Rattle.operator_script.specs.Turn.{ending_at, can_go, mode_at_start, is_due, due_action};
ghost use Rattle.operator_script.specs.Run.{IsQuiet, Turns, Runs, ActsAsOperator, StepsBy, moment};

use crate::runs::Run;
use crate::script::{Action, Due, Script};
use addr_indirect::Stop;
use cpu_step::{Machine, Mode, Turned};
use outside_io::{Host, Unit};

/// How a run ends.
#[derive(Clone, Copy, Debug, PartialEq, Eq)]
pub enum Ending {
    /// The machine is halted, and no line of the script is due.
    Halted {
        /// The address of the halt instruction.
        at: u32,
    },
    /// An instruction stopped the machine.
    Stopped {
        /// Why.
        kind: Stop,
        /// The address of the instruction.
        at: u32,
    },
    /// The limit of steps was reached, and the machine would run on.
    Limit,
    /// A card was to be read, and none was left.
    NeedCards {
        /// The address of the instruction; 00000 if the Load key found no card.
        at: u32,
    },
    /// A line of the keyboard was to be read, and none was left.
    NeedKeys {
        /// The address of the instruction.
        at: u32,
    },
    /// The line to be read is over 80 bytes.
    Jam {
        /// The line's unit.
        unit: Unit,
        /// Its number in the unit, counted from 1.
        line: u64,
    },
    /// The host failed: its count of faults rose.
    Failed,
}

/// How a turn ended.
#[derive(Clone, Copy, Debug, PartialEq, Eq)]
pub enum TurnEnd {
    /// The operator acted by the front line of the script.
    Acted,
    /// The machine made one step.
    Stepped,
    /// The run has ended.
    Ended(Ending),
}

/// How a run ended, and after how many steps.
#[derive(Clone, Copy, Debug, PartialEq, Eq)]
pub struct Ended {
    /// How it ended.
    pub how: Ending,
    /// How many steps were made.
    pub steps: u64,
}

/// One turn of a run.
///
/// The first of these rules that applies decides. A machine that neither runs nor is halted ends the run. If the front line of the script
/// is due, it acts and is taken off: `AT n` is due once `steps` has reached n, `HALT` when the machine is halted. A halted machine
/// ends the run. `steps` at the limit ends the run. Otherwise the machine makes one step, and `steps` rises by 1.
///
/// `steps` is no more than the limit, and the mode is not Faulted. `Ended(Failed)` only if the host's count of faults rose, in
/// a step or in a `LOAD` of the script. Then a first part of the step or the `LOAD` is done, the step counts, the `LOAD` line is taken
/// off, and the mode is Faulted. Any other turn that ends the run changes nothing. `Ended(Limit)` comes only with `steps` at the
/// limit, and no turn ends the run of a running or halted machine while the front line is due. Whatever the host reveals of its
/// units, `Stepped` means that the machine made a step.
#[inline(always)]
pub fn turn<const M: u32, H: Host>(
    machine: &mut Machine<M>,
    script: &mut Script,
    steps: &mut u64,
    limit: u64,
    host: &mut H,
) -> TurnEnd
    requires steps { steps.old ≤ limit }
    requires mode { is_faulted machine.old.mode ≡ false }
    requires lines { All (IsLine (size M)) (lines_left script.old) }
    ensures turns { let before = moment M machine.old script.old steps.old (H.seen host.old) in
        let after = moment M machine.new script.new steps.new (H.seen host.new) in
        Turns M limit before after result }
    ensures stepped { StepsBy M result machine.old machine.new (H.seen host.old) (H.seen host.new) }
{
    let mut run = Run {
        machine,
        script,
        steps: *steps,
        limit,
    };
    let end = run.turn(host);
    *steps = run.steps;
    end
}

/// Makes turns from step count 0 on, until one ends the run.
///
/// The mode is not Faulted. Every run ends, for every script and every limit: it makes no more turns than the steps of its limit and the
/// lines of its script together. Whatever the host reveals of its units, the ending results from the machine's last mode. `Limit`
/// comes only with the count at the limit and a machine that would run on. No run ends with a running or halted machine while
/// the front line is due. `Failed` only if the host's count of faults rose. Then the mode is Faulted, the count is no more
/// than the limit, and machine, script and count belong to a moment within a turn of this run.
pub fn run<const M: u32, H: Host>(
    machine: &mut Machine<M>,
    script: &mut Script,
    limit: u64,
    host: &mut H,
) -> Ended
    requires mode { is_faulted machine.old.mode ≡ false }
    requires lines { All (IsLine (size M)) (lines_left script.old) }
    ensures { let before = moment M machine.old script.old 0 (H.seen host.old) in
        let after = moment M machine.new script.new result.steps (H.seen host.new) in
        Runs M limit before after result.how }
{
    let mut run = Run {
        machine,
        script,
        steps: 0,
        limit,
    };
    let how = run.to_end(host);
    Ended {
        how,
        steps: run.steps,
    }
}

// Whether a run can go on in this mode.
pub(crate) fn can_go(mode: Mode) -> bool
    ensures { result ≡ can_go mode }
{
    matches!(mode, Mode::Running | Mode::Halted { .. })
}

// How a run ends in this mode, with this IR.
pub(crate) fn ending_at(mode: Mode, ir: u32) -> Ending
    ensures { result ≡ ending_at mode ir }
{
    match mode {
        Mode::Running => Ending::Limit,
        Mode::Halted { at } => Ending::Halted { at },
        Mode::Stopped { kind, at } => Ending::Stopped { kind, at },
        Mode::Empty => Ending::NeedCards { at: ir },
        Mode::NoKeys => Ending::NeedKeys { at: ir },
        Mode::Jam { unit, line } => Ending::Jam { unit, line },
        Mode::Faulted => Ending::Failed,
    }
}

// Whether something is due.
fn is_due(due: Due, mode: Mode, steps: u64) -> bool
    ensures { result ≡ is_due due steps mode }
{
    match due {
        Due::At(n) => n <= steps,
        Due::Halt => matches!(mode, Mode::Halted { .. }),
    }
}

// Whether the front line is due.
pub(crate) fn is_front_due(script: &Script, mode: Mode, steps: u64) -> bool
    ensures { result ≡ is_some (due_action mode steps (lines_left script.now)) }
{
    match script.lines.get(script.front) {
        Some(line) => is_due(line.due, mode, steps),
        None => false,
    }
}

// A count up to which no line is due while the machine runs, no higher than the limit.
pub(crate) fn quiet_steps(script: &Script, limit: u64) -> u64
    ensures limit { result ≤ limit }
    ensures quiet { IsQuiet result (lines_left script.now) }
{
    match script.lines.get(script.front) {
        Some(line) => match line.due {
            Due::At(n) => n.min(limit),
            Due::Halt => limit,
        },
        None => limit,
    }
}

// The action of the front line, if it is due.
fn due_action(script: &Script, mode: Mode, steps: u64) -> Option<Action>
    ensures is { result ≡ due_action mode steps (lines_left script.now) }
    ensures front { (a : Action) → result ≡ Some a → HasFront script.now }
{
    let line = script.lines.get(script.front)?;
    if is_due(line.due, mode, steps) {
        Some(line.action)
    } else {
        None
    }
}

// The front line is due: the operator acts by it, and it is taken off. This is not inlined, so that a turn without a line is short.
#[inline(never)]
pub(crate) fn act_by_script<const M: u32, H: Host>(
    machine: &mut Machine<M>,
    script: &mut Script,
    steps: u64,
    host: &mut H,
) -> TurnEnd
    requires due { is_some (due_action machine.old.mode steps (lines_left script.old)) ≡ true }
    requires go { can_go machine.old.mode ≡ true }
    requires mode { is_faulted machine.old.mode ≡ false }
    requires lines { All (IsLine (size M)) (lines_left script.old) }
    ensures turns { let before = moment M machine.old script.old steps (H.seen host.old) in
        let after = moment M machine.new script.new steps (H.seen host.new) in
        (limit : ℕ) → steps ≤ limit → Turns M limit before after result }
    ensures stepped { StepsBy M result machine.old machine.new (H.seen host.old) (H.seen host.new) }
{
    match due_action(script, machine.mode, steps) {
        Some(action) => {
            script.front += 1;
            act(machine, action, host)
        }
        None => TurnEnd::Acted,
    }
}

// The mode after the Start key.
fn mode_at_start(mode: Mode) -> Mode
    ensures { result ≡ mode_at_start mode }
{
    match mode {
        Mode::Halted { .. } => Mode::Running,
        _ => mode,
    }
}

// The operator acts. `Ended(Failed)` if the host failed in the Load key, and `Acted` otherwise.
fn act<const M: u32, H: Host>(machine: &mut Machine<M>, action: Action, host: &mut H) -> TurnEnd
    requires action { IsAction (size M) action }
    requires mode { is_faulted machine.old.mode ≡ false }
    ensures { ActsAsOperator M action machine.old machine.new (H.seen host.old) (H.seen host.new) result }
{
    match action {
        Action::Start => machine.mode = mode_at_start(machine.mode),
        Action::Load => match machine.load_key(host) {
            Turned::Failed => return TurnEnd::Ended(Ending::Failed),
            _ => {}
        },
        Action::Switch { number, on } => machine.panel.set(number, on),
        Action::Overflow { stops } => {
            let (_overflow, io) = machine.panel.checks();
            machine.panel.set_checks(stops, io);
        }
        Action::InOut { stops } => {
            let (overflow, _io) = machine.panel.checks();
            machine.panel.set_checks(overflow, stops);
        }
        Action::Flip { at, bit } => machine.core.flip(at, bit),
    }
    TurnEnd::Acted
}
