//! Bytes from hexadecimal digits.
ghost use Rattle.std.specs.Prelude.{◌<◌};

use std::alloc::{AllocError, Global};

// The value of a digit; what is none counts as 0. The table has small letters alone: `to_digit` would read capitals too.
fn digit(b: u8) -> u8
    ensures { result < 16 }
{
    match b {
        b'0'..=b'9' => b - b'0',
        b'a'..=b'f' => b - b'a' + 10,
        _ => 0,
    }
}

// The bytes of a row of digits, two for each; `-` is no bytes.
pub fn bytes_of(heap: Global, digits: &str) -> Result<Vec<u8>, AllocError> {
    let mut bytes = Vec::new(heap);
    if digits == "-" {
        return Ok(bytes);
    }
    for pair in digits.as_bytes().chunks_exact(2) {
        if let [high, low] = pair {
            bytes.push(digit(*high) * 16 + digit(*low))?;
        }
    }
    Ok(bytes)
}
