// The statement at an address.
ghost use Rattle.std.specs.Prelude.{◌≡◌};
ghost use Rattle.sps_pass_two.specs.Making.{text_of_placed};
ghost use Rattle.sps_listing.specs.Listing.{placed_texts, stands_at, statement_at};

use sps_pass_two::{Assembled, Placed};

// Whether the statement is an instruction at the address.
fn stands_at(address: u32, placed: &Placed) -> bool
    ensures { result ≡ stands_at address (text_of_placed placed.now) }
{
    placed.instruction && placed.address.unsigned_abs() == u64::from(address)
}

/// The number of the last statement that is an instruction at an address, from 1; `None` if no statement is.
///
/// An instruction is at the address of its first digit. A declarative is not an instruction, whatever the value of its label.
/// Source: this project's own.
pub fn statement_at(assembled: &Assembled, address: u32) -> Option<u32>
    ensures { result ≡ statement_at (placed_texts assembled.now) address }
{
    let mut found = None;
    let mut number = 1u32;
    for placed in assembled.placed.as_slice() {
        if stands_at(address, placed) {
            found = Some(number);
        }
        number += 1;
    }
    found
}
