// Whether the environment asks for the console.
use std::env::{Env, FillError};

// The environment variable that asks for the console.
const ASKED: &str = "IBM1620_CONSOLE";

// Whether the variable is there, whatever its value is.
pub(crate) fn is_asked(rt: &HostRuntime) -> bool {
    let mut start = [0; 1];
    match rt.var(ASKED, &mut start) {
        Ok(_) | Err(FillError::TooLong) => true,
        Err(FillError::NotPresent) => false,
    }
}
