//! One value of a job.
ghost use Rattle.std.specs.Prelude.{◌≡◌, ◌≤◌, Err, IfOk, MatchResult, Ok, option_map};
ghost use Rattle.serde_json.specs.View.{view};
ghost use Rattle.job_io.specs.job_config.Ranges.{IsWithin};
ghost use Rattle.job_io.specs.job_config.Values.{algorithm_in, engine_in, flag_in, optional, required, whole_number_in, or_default, text_in};

use gl_base::{Algorithm, EngineKind, Key};
use serde_json::Value;

/// Why the value of a key was refused.
#[derive(Clone, Copy)]
pub enum KeyFault {
    /// The key is needed and absent.
    Missing(Key),
    /// The value is of another kind.
    WrongKind(Key),
    /// The value is out of its range: the number, or a text's length in bytes.
    OutOfRange(Key, u64),
}

/// A text of one byte to `most`.
pub fn read_text<'a>(key: Key, most: usize, value: &'a Value) -> Result<&'a str, KeyFault>
    ensures { MatchResult result (λ s. text_in key most (view value.entry.now) ≡ Ok s.now)
        (λ e. text_in key most (view value.entry.now) ≡ Err e) }
{
    match value.as_str() {
        None => Err(KeyFault::WrongKind(key)),
        Some(text) if text.is_empty() || text.len() > most => {
            Err(KeyFault::OutOfRange(key, text.len() as u64))
        }
        Some(text) => Ok(text),
    }
}

/// A whole number from `least` to `most`.
pub fn read_number(key: Key, least: u64, most: u64, value: &Value) -> Result<u64, KeyFault>
    ensures value { result ≡ whole_number_in key least most (view value.now) }
    ensures range { IfOk result (IsWithin least most) }
{
    match value.as_u64() {
        None => Err(KeyFault::WrongKind(key)),
        Some(number) if number < least || number > most => {
            Err(KeyFault::OutOfRange(key, number))
        }
        Some(number) => Ok(number),
    }
}

/// `true` or `false`.
pub fn read_flag(key: Key, value: &Value) -> Result<bool, KeyFault>
    ensures { result ≡ flag_in key (view value.now) }
{
    value.as_bool().ok_or(KeyFault::WrongKind(key))
}

/// The name of an algorithm.
pub fn read_algorithm(value: &Value) -> Result<Algorithm, KeyFault>
    ensures { result ≡ algorithm_in (view value.now) }
{
    let Some(name) = value.as_str() else {
        return Err(KeyFault::WrongKind(Key::Algorithm));
    };
    match name {
        "levels" => Ok(Algorithm::Levels),
        "components" => Ok(Algorithm::Components),
        "paths" => Ok(Algorithm::Paths),
        "colours" => Ok(Algorithm::Colours),
        "cores" => Ok(Algorithm::Cores),
        "pairs" => Ok(Algorithm::Pairs),
        _ => Err(KeyFault::OutOfRange(Key::Algorithm, name.len() as u64)),
    }
}

/// The name of an engine.
pub fn read_engine(value: &Value) -> Result<EngineKind, KeyFault>
    ensures { result ≡ engine_in (view value.now) }
{
    let Some(name) = value.as_str() else {
        return Err(KeyFault::WrongKind(Key::Engine));
    };
    match name {
        "locking" => Ok(EngineKind::Locking),
        "chromatic" => Ok(EngineKind::Chromatic),
        _ => Err(KeyFault::OutOfRange(Key::Engine, name.len() as u64)),
    }
}

/// A text that is needed.
pub fn required_text<'a>(
    key: Key,
    most: usize,
    value: Option<&'a Value>,
) -> Result<&'a str, KeyFault>
    ensures { MatchResult result (λ s. required key (text_in key most)
        (option_map (λ v. view v.now) value.entry) ≡ Ok s.now)
        (λ e. required key (text_in key most) (option_map (λ v. view v.now) value.entry) ≡ Err e) }
{
    match value {
        None => Err(KeyFault::Missing(key)),
        Some(value) => read_text(key, most, value),
    }
}

/// A text that may be absent.
pub fn optional_text<'a>(
    key: Key,
    most: usize,
    value: Option<&'a Value>,
) -> Result<Option<&'a str>, KeyFault>
    ensures { MatchResult result (λ s. optional (text_in key most)
        (option_map (λ v. view v.now) value.entry) ≡ Ok (option_map (λ t. t.now) s))
        (λ e. optional (text_in key most) (option_map (λ v. view v.now) value.entry) ≡ Err e) }
{
    match value {
        None => Ok(None),
        Some(value) => Ok(Some(read_text(key, most, value)?)),
    }
}

/// A whole number, or its default.
pub fn number_or(
    key: Key,
    least: u64,
    most: u64,
    default: u64,
    value: Option<&Value>,
) -> Result<u64, KeyFault>
    requires { IsWithin least most default }
    ensures value { result ≡ or_default default (whole_number_in key least most)
        (option_map (λ v. view v.now) value.entry) }
    ensures range { IfOk result (IsWithin least most) }
{
    match value {
        None => Ok(default),
        Some(value) => read_number(key, least, most, value),
    }
}
