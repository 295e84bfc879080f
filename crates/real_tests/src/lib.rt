//! Real rows: whole runs over real files, with the results that the manuals' rules give.
#![tactic(auto)]

#[cfg(test)]
mod jobs;
#[cfg(test)]
mod real_files;
#[cfg(test)]
mod real_units;
