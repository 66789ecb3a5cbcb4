//! Bytes that are printed as text.
use std::str;

/// The text of bytes that are one.
pub fn text_of(bytes: &[u8]) -> &str {
    match str::from_utf8(bytes) {
        Ok(text) => text,
        Err(_) => "no text",
    }
}
