// The rule about the end of a source.
ghost use Rattle.std.specs.Prelude.{◌≡◌, None};
ghost use Rattle.sps_pass_one.specs.Faults.{least};
ghost use Rattle.sps_pass_two.specs.Broken.{end_faults};

use sps_ops::Rule;
use sps_pass_one::{Fault, broken_if};

// The rule that the end of a source breaks, if no statement is a DEND.
pub(crate) fn end_faults(ended: bool) -> Option<Fault>
    ensures { result ≡ least None (end_faults ended) }
{
    broken_if(None, !ended, Rule::NoEnd)
}
