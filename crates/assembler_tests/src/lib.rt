//! Sources through the assembler, with results worked out by hand from its rules.
#![tactic(auto)]

#[cfg(test)]
mod bytes;
#[cfg(test)]
mod edges;
#[cfg(test)]
mod images;
#[cfg(test)]
mod listings;
#[cfg(test)]
mod long_sources;
#[cfg(test)]
mod operand_edges;
#[cfg(test)]
mod operations;
#[cfg(test)]
mod refused_lines;
#[cfg(test)]
mod sources;
#[cfg(test)]
mod texts;
