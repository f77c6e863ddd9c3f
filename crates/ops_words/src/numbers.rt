//! The values of the options.
ghost use Rattle.std.specs.Prelude.{◌≡◌, option_map, codes};
ghost use Rattle.std.specs.List.{list_all};
ghost use Rattle.std.specs.Char.{is_ascii_digit};
ghost use Rattle.clap.specs.Words.{first_value, found_of};
ghost use Rattle.ops_jobs.specs.CommandLine.{engine_from, engine_named, number_from, number_of, options_from};

use clap::ArgMatches;
use ops_jobs::{
    DEFAULT_LIMIT, DEFAULT_LINES, DEFAULT_WORKERS, Engine, GREATEST_LIMIT, GREATEST_LINES,
    GREATEST_WORKERS, Options,
};

/// The most digits that a number may have.
const MOST_DIGITS: usize = 10;

fn are_digits(bytes: &[u8]) -> bool
    ensures { result ≡ list_all is_ascii_digit bytes.now }
{
    bytes.iter().all(|byte| byte.is_ascii_digit())
}

/// The number from the least to the greatest that the word spells, in one to ten digits.
pub fn number_of(word: &str, least: u64, greatest: u64) -> Option<u64>
    ensures { result ≡ number_of least greatest word.now }
{
    if word.len() > MOST_DIGITS || !are_digits(word.as_bytes()) {
        return None;
    }
    match word.parse::<u64>() {
        Ok(number) if least <= number && number <= greatest => Some(number),
        Ok(_) => None,
        Err(_) => None,
    }
}

/// The number that an option was given, or the usual one.
fn number_from(word: Option<&str>, usual: u64, greatest: u64) -> Option<u64>
    ensures { result ≡ number_from usual greatest (option_map (λ w. w.now) word.entry) }
{
    match word {
        None => Some(usual),
        Some(word) => number_of(word, 1, greatest),
    }
}

fn engine_named(word: &str) -> Option<Engine>
    ensures { result ≡ engine_named word.now }
{
    match word {
        "direct" => Some(Engine::Direct),
        "serial" => Some(Engine::Serial),
        "rounds" => Some(Engine::Rounds),
        "free" => Some(Engine::Free),
        "steal" => Some(Engine::Steal),
        _ => None,
    }
}

fn engine_from(word: Option<&str>) -> Option<Engine>
    ensures { result ≡ engine_from (option_map (λ w. w.now) word.entry) }
{
    match word {
        None => Some(Engine::Free),
        Some(word) => engine_named(word),
    }
}

/// What the options say, if their values fit, and whether `--overlap` is given.
pub fn options_of(matches: &ArgMatches<'_>, overlap: bool) -> Option<Options>
    ensures { result ≡ options_from (first_value (found_of matches.now) (codes "match")) (first_value (found_of matches.now) (codes "workers"))
        (first_value (found_of matches.now) (codes "lines")) (first_value (found_of matches.now) (codes "limit")) overlap }
{
    let engine = engine_from(matches.get_str("match"))?;
    let workers = number_from(
        matches.get_str("workers"),
        DEFAULT_WORKERS as u64,
        GREATEST_WORKERS as u64,
    )?;
    let lines = number_from(
        matches.get_str("lines"),
        DEFAULT_LINES as u64,
        GREATEST_LINES as u64,
    )?;
    let limit = number_from(matches.get_str("limit"), DEFAULT_LIMIT, GREATEST_LIMIT)?;
    Some(Options {
        engine,
        workers: workers as usize,
        lines: lines as usize,
        limit,
        overlap,
    })
}
