//! The object deck: an image's digits cut into segments, and the cards that load them.
#![tactic(auto)]

mod cards;
mod cutting;
mod dense;
mod form;
mod segment;
mod tables;
mod text;

pub use cards::{BRANCH, CARD_READER, READ_NUMERICALLY, card_of, transfer_card};
pub use cutting::{cut, cut_dense, cut_law, dense_law};
pub use dense::{bridge_card, dense_card_of, loader_card};
pub use form::DeckForm;
pub use segment::{DENSE_DIGITS, DenseSegment, SEGMENT_DIGITS, Segment, SegmentOf};
pub use tables::{other_pieces, table_piece, with_tables};
pub use text::deck_bytes;
