// Bytes of texts that a line cannot hold, and texts of bytes.

use std::alloc::{AllocError, Global};

/// The bytes of the text, in which `^` and two hexadecimal digits stand for a byte, and `^^` for so many times `a`.
pub(crate) fn bytes_of(alloc: Global, text: &str, count: usize) -> Result<Vec<u8>, AllocError> {
    let mut bytes = Vec::new(alloc);
    let mut is_marked = false;
    let mut high: Option<u8> = None;
    for byte in text.as_bytes() {
        let byte = *byte;
        if let Some(digit) = high {
            high = None;
            bytes.push(digit.wrapping_mul(16).wrapping_add(digit_of(byte)))?;
        } else if is_marked {
            is_marked = false;
            if byte == b'^' {
                for _k in 0..count {
                    bytes.push(b'a')?;
                }
            } else {
                high = Some(digit_of(byte));
            }
        } else if byte == b'^' {
            is_marked = true;
        } else {
            bytes.push(byte)?;
        }
    }
    Ok(bytes)
}

// What a hexadecimal digit stands for, and 0 for any other byte.
fn digit_of(byte: u8) -> u8 {
    match byte {
        b'0'..=b'9' => byte - b'0',
        b'a'..=b'f' => byte - b'a' + 10,
        _ => 0,
    }
}

/// The bytes, each as a character.
pub(crate) fn text_of(alloc: Global, bytes: &[u8]) -> Result<String, AllocError> {
    let mut text = String::new(alloc);
    for byte in bytes {
        text.push(*byte as char)?;
    }
    Ok(text)
}
