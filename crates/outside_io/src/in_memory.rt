// Hosts in memory, for tests and rows: one reveals everything and fails at chosen calls, the other never fails.
mod files;
pub(crate) mod mem;
mod pack;
pub(crate) mod quiet;
mod texts;
