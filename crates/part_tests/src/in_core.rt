//! Tests of core and of moves that compare two ways: by whole words, and one cell or digit after another.

mod cells;
mod moves;
