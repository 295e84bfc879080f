//! The cells that the next step may store.

use crate::machines::machine;
use cpu_step::Stores;
use std::alloc::Global;

// Whether the instruction of this text, at 00000, may store these cells: when it's met first, and again.
fn may_store(alloc: Global, text: &[u8], want: Stores) -> bool {
    let Ok(mut machine) = machine::<1>(alloc, text) else {
        return false;
    };
    machine.stores() == want && machine.stores() == want
}

#[test]
fn what_may_be_stored(rt: HostRuntime) {
    // An instruction, and the cells that it may store.
    let rows: [(&[u8], Stores); 16] = [
        (b"210050000600", Stores::Down(500)),
        (b"120050000007", Stores::Down(500)),
        (b"240050000600", Stores::Nothing),
        (b"250050000600", Stores::Cell(500)),
        (b"310050000600", Stores::Up(500)),
        (b"720050100600", Stores::Down(600)),
        (b"730050100600", Stores::Down(501)),
        // P of a strip must be odd: it stops.
        (b"720050000600", Stores::Nothing),
        (b"710050000600", Stores::Anywhere),
        (b"270050000600", Stores::Down(499)),
        (b"270000000600", Stores::Nothing),
        (b"460050001200", Stores::Nothing),
        (b"380050000100", Stores::Nothing),
        (b"360050000500", Stores::Anywhere),
        // No opcode.
        (b"990050000600", Stores::Nothing),
        // Indirect, to 00000.
        (b"260050]00600", Stores::Down(0)),
    ];
    for (text, want) in rows {
        assert!(rt; may_store(rt.alloc(), text, want));
    }
}
