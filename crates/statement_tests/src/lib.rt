//! Words of lines and of the command line, statements, expressions, layouts and made sources, one call at a time, with results
//! worked out by hand.
#![tactic(auto)]

#[cfg(test)]
mod command_words;
#[cfg(test)]
mod expressions;
#[cfg(test)]
mod layouts;
#[cfg(test)]
mod made_sources;
#[cfg(test)]
mod statements;
#[cfg(test)]
mod words;
