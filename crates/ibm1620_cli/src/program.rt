// A program's deck is loaded, and the turns begin at its first instruction.
// Source: this project's own.
ghost use Rattle.std.specs.Prelude.{◌≡◌, ◌≤◌, length, All};
ghost use Rattle.digit_core.specs.Size.{IsSize, size};
ghost use Rattle.operator_script.specs.Scripts.{IsLine, lines_left};
ghost use Rattle.loader_cards.specs.ObjectDeck.{fewest_in};
ghost use Rattle.ibm1620_cli.specs.Program.{HeadlineLaw};
ghost use Rattle.ibm1620_cli.specs.Prompts.{PromptLaw};
ghost use Rattle.ibm1620_cli.specs.RoundTrip.{RoundTripLaw};
ghost use Rattle.ibm1620_cli.specs.Parts.{ProgramPromise, LeavesUnread};
ghost use Rattle.ibm1620_cli.specs.Inputs.{reads_feed};
ghost use Rattle.ibm1620_cli.specs.Job.{word_bytes};
ghost use Rattle.ibm1620_cli.specs.OverMemory.{HeadlineOverMemory};
ghost use Rattle.outside_io.specs.World.{IsFresh};
ghost use Rattle.outside_io.specs.Mem.{mem_seen};

use crate::answer::Answer;
use crate::execute::execute;
use crate::top::ibm1620_answer;
use card_code::Card;
use card_unit::Hopper;
use command_line::Settings;
use loader_cards::deck_steps;
use operator_script::Script;
use outside_io::{Host, MemHost};
use std::alloc::Global;

// Loads a program's deck, which has these cards and the form of the settings, takes the turns under the script from the program's
// first instruction on, and reports how they ended.
pub(crate) fn run_program<const M: u32, H: Host>(
    alloc: Global,
    host: &mut H,
    cards: Vec<Card>,
    script: Script,
    settings: Settings,
) -> Answer
    requires size { IsSize M }
    requires some { fewest_in settings.form ≤ length cards.items }
    requires most { length cards.items ≤ 100000 }
    requires lines { All (IsLine (size M)) (lines_left script) }
    ensures promise { ProgramPromise M settings cards script
        (H.seen host.old) (H.seen host.new) result }
    ensures stays { LeavesUnread reads_feed (H.seen host.old).world (H.seen host.new).world }
    ensures later { (H.seen host.old).faults ≤ (H.seen host.new).faults }
    ensures unrefused { result.refusal ≡ None }
    ensures unstated { result.statement ≡ None }
{
    let steps = deck_steps(cards.len() as u64, settings.form);
    execute::<M, H>(
        alloc,
        host,
        Hopper::of_cards(cards),
        steps,
        script,
        settings.limit,
    )
}

/// The headline: a run does what the turns from the overlaid core on do.
///
/// Take a core of any size, and any program whose digits are good, lie at 00100 or above and, like its start, lie in that core.
/// Take either form of its object deck, any script, limit, data cards, text at the keyboard and pack, whatever was done before.
///
/// On one side the machine is powered on with the object deck and then the data cards in the hopper. The Load key is pressed, the
/// deck's steps are made, and then the turns are taken. On the other side the cards of the deck are gone without being read, and
/// the machine runs at the program's start from the beginning. Its core has the program's digits over the standard tables and the
/// transfer card, and zeros elsewhere. The data cards are in the hopper, the last-card indicator is on exactly if there are none,
/// and all else is as at power on.
///
/// The job is equal on both sides: the status with its count of steps, and all that is done outside, event by event. The cards of
/// the deck are taken; then comes each byte that is punched, typed or reported, each sector that is written, and each card and
/// each line of Keys that is taken. The call does nothing; the law is its contract.
pub fn headline_law()
    ensures { HeadlineLaw }
{}

/// Does what the words say over a host in memory, as `ibm1620_answer` does. Its contract is the headline, with premises that a caller can see
/// before the call: no fault was counted, no call is listed to fail, and each output has room for more bytes than the run writes on it.
///
/// No unit of the host is in use, and no output has been given a byte.
pub fn headline_over_memory(alloc: Global, words: &[String], host: &mut MemHost) -> Answer
    requires { IsFresh (mem_seen host.old).world }
    ensures { HeadlineOverMemory (word_bytes words.now) (mem_seen host.old) (mem_seen host.new) result }
{
    let answer = ibm1620_answer(alloc, words, host);
    host.fault_law();
    answer
}

/// The prompt: no line of Keys is read before all that comes before it in the job's list is done.
///
/// Take any job with a machine, and a host that fails in it, so that the job stopped as `ibm1620` says of a host fault. Exactly a
/// first part of its list was done, and the cards and the lines of Keys that were taken are those in that part. Keys began with
/// some lines of at most 80 bytes, each with a LF and no CR before it; more bytes follow, and Keys still has these. Keys was not
/// asked before the job. Its last answer gave as many bytes as the last of these lines has with its LF, as a terminal gives one
/// line at a time. Then all these lines are in the part that was done, and so is all that comes before the last of them, as the
/// text that a program types before it reads. The call does nothing; the law is its contract.
pub fn prompt_law()
    ensures { PromptLaw }
{}

/// The round trip: the object deck of a source, given as a deck, does what a run of the source does.
///
/// Take a core of any size, any source that breaks no rule for it, either form of its object deck, any data cards, any text at
/// the keyboard and any pack. The bytes that `assemble` leaves on Object, given as Deck, are the cards of that deck and no
/// others. Let n be the number of the deck's steps. If no line of the script is due before and the limit is at least n, then n
/// turns after the Load key a `load` of the deck is at the very place from which `run` begins, with n steps counted. With n added
/// to the limit and to each `AT` line, the load ends where the run ends, with n more steps counted. It takes the cards of the
/// deck. Then it punches, types, writes to the pack, and takes cards and lines of Keys as the run does from there, event by
/// event, and does nothing else. The call does nothing; the law is its contract.
pub fn trip_law()
    ensures { RoundTripLaw }
{}
