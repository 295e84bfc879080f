// The files are bound to their units.
ghost use Rattle.std.specs.Prelude.{◌≡◌, false, option_copied};
ghost use Rattle.outside_io.specs.World.{IsFree};
ghost use Rattle.ibm1620_cli.specs.Binding.{BindsIf, BindsAll};
ghost use Rattle.command_line.specs.Given.{names_in};

use command_line::Names;
use outside_io::{Bound, Host, Unit};

// Binds a file to the unit, if there is a name.
fn bind_if<H: Host>(host: &mut H, unit: Unit, name: Option<&str>) -> Bound
    requires { (H.seen host.old).world.in_use unit ≡ false }
    ensures { BindsIf (H.seen host.old) (H.seen host.new) unit (option_copied name.entry) result }
{
    match name {
        None => Bound::Yes,
        Some(name) => host.bind(unit, name),
    }
}

// Binds the named files to their units, in the order of units.
pub(crate) fn bind_all<H: Host>(host: &mut H, names: &Names<'_>) -> Bound
    requires { IsFree (H.seen host.old).world }
    ensures { BindsAll (names_in names.now) (H.seen host.old) (H.seen host.new) result }
{
    for unit in Unit::ALL {
        match bind_if(host, unit, names.get(unit)) {
            Bound::Yes => {}
            Bound::Failed => return Bound::Failed,
        }
    }
    Bound::Yes
}
