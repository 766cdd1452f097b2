//! The words of a command line that are no texts.
use std::alloc::AllocError;
use std::env::Env;
use std::str;

/// How long an argument is at most: the system takes none that is longer.
const LONGEST: usize = 131072;

/// The number of the first argument that is not UTF-8, 1 for the first behind the program's name.
///
/// # Errors
///
/// Out of memory.
pub fn first_no_text<T: Env + AllocGlobal>(rt: &T) -> Result<Option<usize>, AllocError> {
    let mut buffer = vec![in rt.alloc(); 0u8; LONGEST]?;
    for number in 0..usize::MAX {
        let Ok(len) = rt.arg(number, &mut buffer) else {
            return Ok(None);
        };
        let argument = buffer.get(..len).unwrap_or(&[]);
        if str::from_utf8(argument).is_err() {
            return Ok(Some(number));
        }
    }
    Ok(None)
}
