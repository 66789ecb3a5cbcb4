//! The form of the words.
ghost use Rattle.std.specs.Prelude.{◌≡◌, is_some, option_and_then};
ghost use Rattle.gl_base.specs.declared.usage_faults.Opt.{Opt};
ghost use Rattle.job_io.specs.job_words.WordForms.{after_front, is_formed, option_form, any_option, texts, first_unformed};

/// Whether a word is the name alone, or the name, `=` and at least one byte.
fn is_option(word: &[u8], name: &[u8]) -> bool
    ensures { (o : Opt) → result
        ≡ is_some (option_and_then (option_form o) (after_front name.now word.now)) }
{
    match word.strip_prefix(name) {
        Some([]) => true,
        Some([b'=', _, ..]) => true,
        _ => false,
    }
}

/// Whether a word is one of the four options.
fn is_any_option(word: &[u8]) -> bool
    ensures { result ≡ is_some (any_option word.now) }
{
    is_option(word, b"--number")
        || is_option(word, b"--vertices")
        || is_option(word, b"--edges")
        || is_option(word, b"--weight")
}

/// Whether a word has the form of a word.
fn has_form(word: &[u8]) -> bool
    ensures { result ≡ is_formed word.now }
{
    match word {
        [] => false,
        [b'-', ..] => word == b"--report".as_slice() || is_any_option(word),
        _ => true,
    }
}

/// The place of the first word that has not the form of a word.
pub fn first_unformed(words: &[String]) -> Option<usize>
    ensures { result ≡ first_unformed (texts words.now) }
{
    words.iter().position(|word| !has_form(word.as_bytes()))
}
