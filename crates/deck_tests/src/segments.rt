//! The segments and cards of short sources.

use card_code::Card;
use deck_punch::{
    bridge_card, card_of, cut, cut_dense, cut_law, dense_card_of, dense_law, loader_card,
    other_pieces, table_piece, transfer_card, with_tables,
};
use digit_core::{Digit, standard_digit};
use sps_pass_two::{Assembled, Image, assemble};
use std::alloc::{AllocError, Global};
use std::test::Fail;

// The program of a halt in 00402 to 00413, and of lines for 00500 on: from column 6 on, with the operation in columns 12 to 15.
fn assembled(alloc: Global, lines: &[&str]) -> Result<Assembled, Fail> {
    let mut source = Vec::new(alloc);
    source.extend_from_slice(b"     START H\n           DORG500\n")?;
    for line in lines {
        source.extend_from_slice(b"     ")?;
        source.extend_from_slice(line.as_bytes())?;
        source.push(b'\n')?;
    }
    source.extend_from_slice(b"           DENDSTART\n")?;
    Ok(assemble(alloc, source.as_slice(), 20_000)?)
}

// The cards of an image's segments.
fn cards_of(alloc: Global, image: &Image) -> Result<Vec<Card>, AllocError> {
    let mut cards = Vec::new(alloc);
    for segment in &cut(alloc, image)? {
        cards.push(card_of(segment))?;
    }
    Ok(cards)
}

// Lines from 00500 on, and the address and length of each segment there.
const SEGMENTS: [(&[&str], &[(u32, usize)]); 7] = [
    (&["      DSC 1,@"], &[(500, 1)]),
    (&["      DSC 32,1"], &[(500, 32)]),
    (&["      DSC 33,1"], &[(500, 32), (532, 1)]),
    // a flag at the first digit ends no segment
    (&["      DC  5,1"], &[(500, 5)]),
    (&["      DC  3,1", "      DC  3,1"], &[(500, 4), (504, 2)]),
    (
        &["      DSC 1,-1", "      DSC 1,-2", "      DSC 1,-3"],
        &[(500, 2), (502, 1)],
    ),
    // a piece begins a segment of its own
    (
        &["      DSC 2,1", "      DORG600", "      DSC 2,1"],
        &[(500, 2), (600, 2)],
    ),
];

#[test]
fn a_flag_32_digits_or_the_piece_end_a_segment(rt: HostRuntime) -> Result<(), Fail> {
    cut_law();
    for (lines, want) in SEGMENTS {
        let program = assembled(rt.alloc(), lines)?;
        let mut found = Vec::new(rt.alloc());
        for segment in &cut(rt.alloc(), &program.image)? {
            found.push((segment.from, segment.digits.len()))?;
        }
        let mut all = Vec::new(rt.alloc());
        all.push((402, 12))?;
        all.extend_from_slice(want)?;
        assert!(rt; found.as_slice() == all.as_slice(), "{lines:?}");
    }
    Ok(())
}

// The address and the length of each piece of an image.
fn places_of(alloc: Global, image: &Image) -> Result<Vec<(u32, usize)>, AllocError> {
    let mut places = Vec::new(alloc);
    for piece in image.pieces.as_slice() {
        places.push((piece.from, piece.digits.as_slice().len()))?;
    }
    Ok(places)
}

// Lines in addition to the halt, and the pieces after the table piece.
const OTHER_PIECES: [(&[&str], &[(u32, usize)]); 5] = [
    (&["      DSC 1,@"], &[(402, 12), (500, 1)]),
    (&["      DSC 1,7,391"], &[(402, 12)]),
    (&["      DSC 1,7,100", "      DSC 1,7,399"], &[(402, 12)]),
    // a run that goes on past 00399 is divided there
    (&["      DSC 4,1234,398"], &[(400, 14)]),
    (&["      DSC 2,12,399"], &[(400, 1), (402, 12)]),
];

#[test]
fn a_deck_loads_the_tables_and_what_lies_behind_them(rt: HostRuntime) -> Result<(), Fail> {
    for (lines, want) in OTHER_PIECES {
        let program = assembled(rt.alloc(), lines)?;
        let others = other_pieces(rt.alloc(), &program.image)?;
        assert!(rt;
            places_of(rt.alloc(), &others)?.as_slice() == want,
            "{lines:?}"
        );
        let table = table_piece(rt.alloc(), &program.image)?;
        assert!(rt; places_of(rt.alloc(), &table)?.as_slice() == [(100, 300)].as_slice());
        let with = with_tables(rt.alloc(), &program.image)?;
        let mut all = Vec::new(rt.alloc());
        all.push((100, 300))?;
        all.extend_from_slice(want)?;
        assert!(rt;
            places_of(rt.alloc(), &with)?.as_slice() == all.as_slice(),
            "{lines:?}"
        );
    }
    Ok(())
}

#[test]
fn a_declared_digit_stands_in_the_table_piece(rt: HostRuntime) -> Result<(), Fail> {
    let program = assembled(rt.alloc(), &["      DSC 1,7,391"])?;
    let with = with_tables(rt.alloc(), &program.image)?;
    let digits = with.pieces.as_slice()[0].digits.as_slice();
    for a in 100..400u32 {
        let want = if a == 391 {
            Digit {
                flag: false,
                value: 7,
            }
        } else {
            standard_digit(a)
        };
        assert!(rt;
            digits.get((a - 100) as usize).copied() == Some(want),
            "{a}"
        );
    }
    Ok(())
}

// The card of the halt in 00402 to 00413.
const HALT: &str =
    "26004130007933004020000036000000050049000000000000000000000000000000M80000000000";

// Lines from 00500 on, and the cards of the segments there.
const CARDS: [(&[&str], &[&str]); 3] = [
    (
        &["      DSC 33,123456789012345678901234567890123"],
        &[
            "260053100079330050000000360000000500490000000000J2345678901234567890123456789012",
            "25005320007941000000000036000000050049000000000000000000000000000000000000000003",
        ],
    ),
    (
        &["      DSC 1,-1", "      DSC 1,-2", "      DSC 1,-3"],
        &[
            "260050100079410000000000360000000500490000000000000000000000000000000000000000JK",
            "2500502000794100000000003600000005004900000000000000000000000000000000000000000L",
        ],
    ),
    (
        &["      DSC 1,@"],
        &["2500500000794100000000003600000005004900000000000000000000000000000000000000000|"],
    ),
];

#[test]
fn a_card_moves_a_field_or_copies_a_digit(rt: HostRuntime) -> Result<(), Fail> {
    for (lines, want) in CARDS {
        let program = assembled(rt.alloc(), lines)?;
        let cards = cards_of(rt.alloc(), &program.image)?;
        assert!(rt; cards.len() == 1 + want.len(), "{lines:?}");
        assert!(rt; cards[0].0.as_slice() == HALT.as_bytes());
        for i in 0..want.len() {
            assert!(rt;
                cards[i + 1].0.as_slice() == want[i].as_bytes(),
                "{lines:?}"
            );
        }
    }
    Ok(())
}

#[test]
fn the_transfer_card_goes_to_the_start(rt: HostRuntime) {
    let want = b"49004020000000000000000000000000000049000000000000000000000000000000000000000000";
    assert!(rt; transfer_card(402).0.as_slice() == want.as_slice());
}

// The dense cards of an image's segments.
fn dense_cards_of(alloc: Global, image: &Image) -> Result<Vec<Card>, AllocError> {
    let mut cards = Vec::new(alloc);
    for segment in &cut_dense(alloc, image)? {
        cards.push(dense_card_of(segment))?;
    }
    Ok(cards)
}

// The dense card of the halt in 00402 to 00413.
const DENSE_HALT: &str =
    "00413004024000000000000000000000000000000000000000000000000000000000M80000000000";

// Lines from 00500 on, and the dense cards of the segments there.
const DENSE_CARDS: [(&[&str], &[&str]); 4] = [
    // a digit alone is its own repair
    (
        &["      DSC 1,@"],
        &["0017900500|0000000000000000000000000000000000000000000000000000000000000000000]0"],
    ),
    // a flag within the segment is repaired, and the flag of the last digit stays
    (
        &["      DSC 1,-1", "      DSC 1,-2", "      DSC 1,-3"],
        &["0050200501K000000000000000000000000000000000000000000000000000000000000000000J2L"],
    ),
    // nothing is to be repaired
    (
        &["      DC  5,1"],
        &["005040011000000000000000000000000000000000000000000000000000000000000000000]0001"],
    ),
    // the first digit has no flag, and is repaired
    (
        &["      DSC 2,1", "      DC  3,1"],
        &[
            "00502005000000000000000000000000000000000000000000000000000000000000000000000]1]",
            "005040050300000000000000000000000000000000000000000000000000000000000000000000]1",
        ],
    ),
];

#[test]
fn a_dense_card_has_its_digits_and_where_they_go(rt: HostRuntime) -> Result<(), Fail> {
    for (lines, want) in DENSE_CARDS {
        let program = assembled(rt.alloc(), lines)?;
        let cards = dense_cards_of(rt.alloc(), &program.image)?;
        assert!(rt; cards.len() == 1 + want.len(), "{lines:?}");
        assert!(rt; cards[0].0.as_slice() == DENSE_HALT.as_bytes());
        for i in 0..want.len() {
            assert!(rt;
                cards[i + 1].0.as_slice() == want[i].as_bytes(),
                "{lines:?}"
            );
        }
    }
    Ok(())
}

#[test]
fn the_loader_card_and_the_bridge_card(rt: HostRuntime) {
    let loader =
        b"360010000500260010M00179250010R0011049000000000000000000000000000000000000000000";
    assert!(rt; loader_card().0.as_slice() == loader.as_slice());
    let bridge =
        b"000420011000360000000500490000000000000000000000000000000000000000000000000]0112";
    assert!(rt; bridge_card().0.as_slice() == bridge.as_slice());
}

// Lines from 00500 on, and the address and length of each dense segment there.
const DENSE_SEGMENTS: [(&[&str], &[(u32, usize)]); 7] = [
    (&["      DSC 1,@"], &[(500, 1)]),
    // 69 digits
    (&["      DSC 50,1", "      DSC 19,1"], &[(500, 69)]),
    (
        &["      DSC 50,1", "      DSC 20,1"],
        &[(500, 69), (569, 1)],
    ),
    // a first digit without a flag: the first inner flag ends it
    (&["      DSC 2,1", "      DC  3,1"], &[(500, 3), (503, 2)]),
    // a first digit with a flag: the second inner flag ends it
    (&["      DC  3,1", "      DC  3,1"], &[(500, 6)]),
    (
        &["      DC  3,1", "      DC  3,1", "      DC  3,1"],
        &[(500, 7), (507, 2)],
    ),
    // a piece begins a segment of its own
    (
        &["      DSC 2,1", "      DORG600", "      DSC 2,1"],
        &[(500, 2), (600, 2)],
    ),
];

#[test]
fn flags_69_digits_or_the_piece_end_a_dense_segment(rt: HostRuntime) -> Result<(), Fail> {
    dense_law();
    for (lines, want) in DENSE_SEGMENTS {
        let program = assembled(rt.alloc(), lines)?;
        let mut found = Vec::new(rt.alloc());
        for segment in &cut_dense(rt.alloc(), &program.image)? {
            found.push((segment.from, segment.digits.len()))?;
        }
        let mut all = Vec::new(rt.alloc());
        all.push((402, 12))?;
        all.extend_from_slice(want)?;
        assert!(rt; found.as_slice() == all.as_slice(), "{lines:?}");
    }
    Ok(())
}
