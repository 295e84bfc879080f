// The listing.
ghost use Rattle.sps_listing.specs.Sending.{SendsLine, SendsListing};

use crate::columns::listed_columns;
use crate::line_end::without_back;
use crate::two_parts::write_ended;
use outside_io::{Host, Sent, Unit};
use sps_pass_one::Walk;
use sps_pass_two::{Assembled, Placed};

// Writes the line of a statement.
fn write_line<H: Host>(number: u32, line: &[u8], placed: &Placed, host: &mut H) -> Sent
    ensures { SendsLine (H.seen host.old) (H.seen host.new) number line.now placed.now result }
{
    let columns = listed_columns(number, line, placed);
    let text = without_back(line);
    write_ended(Unit::Listing, columns.as_bytes(), text, host)
}

/// Writes the listing of a source on Listing: a line for each statement, ended by LF.
///
/// A line is the statement's number in five digits, from 1; its address in at least five digits, or five blanks for a comment and
/// a blank line; its first twelve digits as object characters, filled up with blanks to twelve columns; and the source's line
/// without the blanks at its end. A blank is between any two of these. The address of a declarative is the value that its label
/// has or would have.
///
/// `assembled` is the result of `assemble` for this source. The call takes no memory.
/// `Failed` only if the host's count of faults rose: Listing has received a first part of the text, which may be empty or all.
/// Source: SPS manual, listing; the columns are this project's own.
pub fn listing<H: Host>(source: &[u8], assembled: &Assembled, host: &mut H) -> Sent
    ensures { SendsListing (H.seen host.old) (H.seen host.new) source.now assembled.now result }
{
    let mut walk = Walk::new(source);
    for placed in assembled.placed.as_slice() {
        let Some(line) = walk.next() else {
            return Sent::Done;
        };
        match write_line(line.number, line.text, placed, host) {
            Sent::Done => {}
            Sent::Failed => return Sent::Failed,
        }
    }
    Sent::Done
}
