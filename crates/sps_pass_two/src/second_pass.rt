// The second pass.
ghost use Rattle.std.specs.Prelude.{◌≡◌, ◌≤◌, length, IfOk};
ghost use Rattle.sps_pass_two.specs.Assembling.{Assembles, LiesWithin};
ghost use Rattle.sps_pass_two.specs.Image.{pieces_from};
ghost use Rattle.sps_pass_two.specs.Kept.{IsImage, IsProgram};
ghost use Rattle.sps_pass_one.specs.Layout.{most_statements};
ghost use Rattle.digit_core.specs.declared.TheConstants.{MOST_POSITIONS};

use crate::assembled::{AsmFault, Assembled, PlacedList};
use crate::cells::pieces_of;
use crate::image::Image;
use crate::made::{MadeSoFar, nothing_made};
use crate::refuse::end_faults;
use crate::statement::statement_outcome;
use crate::task::Task;
use sps_pass_one::{LookedUp, Walk, locate};
use sps_scan::scan;
use std::alloc::{AllocError, Global};

// The image's pieces, the start and the statements of a source that breaks no rule.
fn assembled(alloc: Global, made: MadeSoFar) -> Result<Assembled, AllocError>
    requires size { length made.cells.items ≤ MOST_POSITIONS }
    requires kept { IsImage (pieces_from 0 made.cells.items) }
    requires program { IsProgram (pieces_from 0 made.cells.items) made.start }
    requires few { length made.placed.items ≤ most_statements }
    ensures pieces { IfOk result (λ a. a.image.pieces ≡ pieces_from 0 made.cells.items) }
    ensures start { IfOk result (λ a. a.start ≡ made.start) }
    ensures placed { IfOk result (λ a. a.placed ≡ made.placed.items) }
{
    let pieces = pieces_of(alloc, &made.cells)?;
    Ok(Assembled {
        image: Image { pieces },
        start: made.start,
        placed: PlacedList::from_vec(made.placed),
    })
}

/// Assembles a source for a core with `positions` positions.
///
/// `positions` is 0 to 60,000. `Broken` is the first statement that breaks a rule, with the least rule that it breaks and the place of
/// the first part that breaks it. It takes memory.
/// Source: SPS manual, assembling; the rules are this project's own.
pub fn assemble(alloc: Global, source: &[u8], positions: u32) -> Result<Assembled, AsmFault>
    requires { positions ≤ MOST_POSITIONS }
    ensures is { Assembles positions source.now result }
    ensures within { IfOk result (LiesWithin positions) }
{
    let located = locate(alloc, source)?;
    let mut places = located.places.as_slice();
    let mut made = nothing_made(alloc, positions)?;
    let mut walk = Walk::new(source);
    while let Some(line) = walk.next() {
        let [place, more @ ..] = places else {
            unreachable!()
        };
        let scanned = scan(line.text);
        let s = LookedUp::of(&scanned);
        let head = walk.head();
        let ended = walk.ended();
        let size = u64::from(positions);
        let task = Task {
            statement: &s,
            place: *place,
            number: line.number,
            ended,
            head,
            symbols: &located.symbols,
            positions: size,
        };
        let outcome = statement_outcome(alloc, &task)?;
        if let Some(fault) = outcome.worst {
            return Err(AsmFault::Broken {
                statement: line.number,
                rule: fault.rule,
                part: fault.part,
            });
        }
        made.add(&task, outcome.digits)?;
        walk.pass(&s);
        places = more;
    }
    if let Some(fault) = end_faults(walk.ended()) {
        return Err(AsmFault::Broken {
            statement: walk.number(),
            rule: fault.rule,
            part: fault.part,
        });
    }
    let program = assembled(alloc, made)?;
    Ok(program)
}
