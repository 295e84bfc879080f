// The lock that protects a pack's file from other runs.
// Source: this project's own.
use std::fs::{File, TryLockError};

/// Who else may have a file while a run has it.
#[derive(Clone, Copy, Debug, PartialEq, Eq)]
pub enum Sharing {
    /// Nobody: the run writes it.
    Alone,
    /// Other runs that only read it.
    WithReaders,
}

/// A file that a run can lock for as long as the file is open.
pub trait Lockable {
    /// Locks the file for this run; false if another run's lock doesn't allow it.
    ///
    /// If the system can't lock the file for another reason, the answer is true and nothing is locked.
    fn hold(&self, sharing: Sharing) -> bool;
}

impl Lockable for File {
    fn hold(&self, sharing: Sharing) -> bool {
        let locked = match sharing {
            Sharing::Alone => self.try_lock(),
            Sharing::WithReaders => self.try_lock_shared(),
        };
        !matches!(locked, Err(TryLockError::WouldBlock))
    }
}
