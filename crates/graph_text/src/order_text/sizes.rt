//! How many bytes numbers have in decimal, so that a text is made in a list of just its size. No
//! clause depends on it: where it were wrong a text would grow, or its list have room to spare.
/// The least numbers with one digit, with two, and so on.
const LEAST: [u64; 19] = [
    1,
    10,
    100,
    1000,
    10000,
    100000,
    1000000,
    10000000,
    100000000,
    1000000000,
    10000000000,
    100000000000,
    1000000000000,
    10000000000000,
    100000000000000,
    1000000000000000,
    10000000000000000,
    100000000000000000,
    1000000000000000000,
];

/// How many digits a number has. So many bits make at least 1233 / 4096 of their number of digits,
/// and at most one more.
pub fn digits(number: u64) -> usize {
    let number = number | 1;
    let bits = (64 - number.leading_zeros()).min(63);
    let least = (bits * 1233 / 4096) as usize;
    if number < LEAST[least] {
        least
    } else {
        least + 1
    }
}
