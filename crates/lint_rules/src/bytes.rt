//! Which words look like a slip, judged by their bytes.
ghost use Rattle.std.specs.Prelude.{◌≡◌, ◌||◌, drop, bytes_eq};
ghost use Rattle.std.specs.List.{list_any};
ghost use Rattle.lint_rules.specs.Spelled.{is_letter, is_digit, begins_with, ends_with, begins_with_letter, is_marked, is_clips_variable, is_clips_test, is_joined, is_joined_variable, is_string};

fn is_letter(byte: u8) -> bool
    ensures { result ≡ is_letter byte }
{
    (b'A' <= byte && byte <= b'Z') || (b'a' <= byte && byte <= b'z')
}

fn is_digit(byte: u8) -> bool
    ensures { result ≡ is_digit byte }
{
    b'0' <= byte && byte <= b'9'
}

pub(crate) fn is(word: &[u8], other: &[u8]) -> bool
    ensures { result ≡ bytes_eq word.now other.now }
{
    word == other
}

fn begins_with(byte: u8, word: &[u8]) -> bool
    ensures { result ≡ begins_with byte word.now }
{
    !word.is_empty() && word[0] == byte
}

fn ends_with(byte: u8, word: &[u8]) -> bool
    ensures { result ≡ ends_with byte word.now }
{
    !word.is_empty() && word[word.len() - 1] == byte
}

fn begins_with_letter(word: &[u8]) -> bool
    ensures { result ≡ begins_with_letter word.now }
{
    !word.is_empty() && is_letter(word[0])
}

// the word without its first byte
fn rest_of(word: &[u8]) -> &[u8]
    ensures { result.now ≡ drop 1 word.now }
{
    if word.is_empty() { word } else { &word[1..] }
}

fn has_letter_or_digit(word: &[u8]) -> bool
    ensures { result ≡ list_any (λ b. is_letter b || is_digit b) word.now }
{
    word.iter().any(|byte| is_letter(*byte) || is_digit(*byte))
}

fn is_marked(word: &[u8]) -> bool
    ensures { result ≡ is_marked word.now }
{
    begins_with(b'?', word) && begins_with_letter(rest_of(word))
}

pub(crate) fn is_clips_variable(word: &[u8]) -> bool
    ensures { result ≡ is_clips_variable word.now }
{
    is_marked(word) || (begins_with(b'$', word) && is_marked(rest_of(word)))
}

pub(crate) fn is_clips_test(word: &[u8]) -> bool
    ensures { result ≡ is_clips_test word.now }
{
    begins_with(b'~', word) && has_letter_or_digit(word)
}

pub(crate) fn is_joined(word: &[u8]) -> bool
    ensures { result ≡ is_joined word.now }
{
    let stands_beside = begins_with(b'<', word)
        || begins_with(b'>', word)
        || begins_with(b'=', word)
        || ends_with(b'>', word);
    stands_beside && has_letter_or_digit(word)
}

pub(crate) fn is_joined_variable(word: &[u8]) -> bool
    ensures { result ≡ is_joined_variable word.now }
{
    rest_of(word).iter().any(|byte| *byte == b'<')
}

pub(crate) fn is_string(word: &[u8]) -> bool
    ensures { result ≡ is_string word.now }
{
    1 < word.len() && word[0] == b'"'
}
