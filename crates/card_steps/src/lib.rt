//! How cards that load do their steps: the state between two cards, and steps that do nothing outside but take cards. Definitions and lemmas
//! alone, for the crates whose decks load a program.
#![tactic(auto)]
