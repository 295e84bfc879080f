//! Object decks: how images are cut into segments and punched on cards, and how the decks load. Programs on disk: their sectors, their
//! bootstrap decks, and how these load.
#![tactic(auto)]

#[cfg(test)]
mod boots;
#[cfg(test)]
mod decks;
#[cfg(test)]
mod segments;
