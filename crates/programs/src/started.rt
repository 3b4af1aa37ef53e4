// What a program is started with.
use std::env::{Env, FillError};

// Whether the program was given an argument of this number; its own name has the number 0.
pub fn is_given<R: Env>(rt: &R, number: usize) -> bool {
    let mut room = [0u8; 1];
    match rt.arg(number, &mut room) {
        Err(FillError::NotPresent) => false,
        _ => true,
    }
}
