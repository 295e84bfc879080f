//! Tests of hosts, in memory and over real files, and of the lines of their texts.

mod asked;
mod fake;
mod memory;
mod packs;
mod real_files;
mod text_lines;
