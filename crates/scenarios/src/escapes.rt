//! Escapes: `\n`, `\r`, `\t`, `\s` for a blank, `\\`, `\e` for nothing, `\xHH` for a byte, and `\#`
//! for the number of a line that stands for many.
use scenario_lines::{number_of, word_of, words_behind};
use std::alloc::Global;

/// How many lines a line of text may stand for.
const MOST_LINES: u64 = 2000000;

/// What the bytes before say of the next one.
#[derive(Clone, Copy)]
enum State {
    Plain,
    Escaped,
    HighDigit,
    LowDigit(u8),
    Malformed,
}

/// Adds what a line of text stands for: a mark, how often it stands there, a blank and the text.
/// Returns whether it is well formed.
pub fn add_lines(alloc: Global, line: &str, text: &mut Vec<u8>) -> bool {
    let mark = word_of(line);
    let count = count_of(mark);
    if count > MOST_LINES {
        return false;
    }
    let mut is_well = true;
    for place in 0..count {
        is_well = unescape(alloc, words_behind(line), place.saturating_add(1), text) && is_well;
        if mark.starts_with('|') {
            let _ = text.push(b'\n');
        }
    }
    is_well
}

/// Returns how often a line of text stands there: the number behind its mark, or once.
fn count_of(mark: &str) -> u64 {
    let digits = mark.trim_start_matches(['|', '+']);
    if digits.is_empty() {
        1
    } else {
        number_of(digits)
    }
}

/// Adds the bytes that a written text stands for. Returns whether it is well formed.
pub fn unescape(alloc: Global, written: &str, number: u64, text: &mut Vec<u8>) -> bool {
    let mut state = State::Plain;
    for byte in written.bytes() {
        state = next_state(alloc, state, byte, number, text);
    }
    matches!(state, State::Plain)
}

/// Adds what one more byte stands for, if that is known now.
fn next_state(alloc: Global, state: State, byte: u8, number: u64, text: &mut Vec<u8>) -> State {
    match state {
        State::Plain => plain(byte, text),
        State::Escaped => escaped(alloc, byte, number, text),
        State::HighDigit => match hex_digit(byte) {
            Some(digit) => State::LowDigit(digit),
            None => State::Malformed,
        },
        State::LowDigit(high) => match hex_digit(byte) {
            Some(digit) => added(text, high.wrapping_mul(16) | digit),
            None => State::Malformed,
        },
        State::Malformed => State::Malformed,
    }
}

/// Adds a byte.
fn added(text: &mut Vec<u8>, byte: u8) -> State {
    let _ = text.push(byte);
    State::Plain
}

/// Adds a byte that stands for itself.
fn plain(byte: u8, text: &mut Vec<u8>) -> State {
    if byte == b'\\' {
        return State::Escaped;
    }
    added(text, byte)
}

/// Adds what an escape by one letter stands for.
fn escaped(alloc: Global, letter: u8, number: u64, text: &mut Vec<u8>) -> State {
    match letter {
        b'x' => State::HighDigit,
        b'n' => added(text, b'\n'),
        b'r' => added(text, b'\r'),
        b't' => added(text, b'\t'),
        b's' => added(text, b' '),
        b'\\' => added(text, b'\\'),
        b'e' => State::Plain,
        b'#' => numbered(alloc, number, text),
        _ => State::Malformed,
    }
}

/// Adds a number in decimal digits.
fn numbered(alloc: Global, number: u64, text: &mut Vec<u8>) -> State {
    if let Ok(digits) = format!(in alloc; "{number}") {
        let _ = text.extend_from_slice(digits.as_bytes());
    }
    State::Plain
}

/// Returns the value of a hexadecimal digit.
fn hex_digit(byte: u8) -> Option<u8> {
    match byte {
        b'0'..=b'9' => Some(byte - b'0'),
        b'a'..=b'f' => Some(byte - b'a' + 10),
        _ => None,
    }
}

/// Returns the text that a written word stands for, or none if it is malformed.
pub fn unescaped_word(alloc: Global, written: &str) -> Option<String> {
    let mut bytes = Vec::new(alloc);
    if !unescape(alloc, written, 0, &mut bytes) {
        return None;
    }
    match str::from_utf8(&bytes) {
        Ok(word) => String::from_str(alloc, word).ok(),
        Err(_) => None,
    }
}
