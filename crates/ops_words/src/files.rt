//! The files that the words name.
ghost use Rattle.std.specs.Prelude.{◌≡◌, [], IfOk, map, option_map, unwrap_or, codes};
ghost use Rattle.clap.specs.Words.{found_of, matched_of, raw_values};
ghost use Rattle.ops_jobs.specs.Words.{word_bytes};

use clap::ArgMatches;
use ops_jobs::FileList;
use std::alloc::{AllocError, Global};

fn copied(alloc: Global, names: &[&str]) -> Result<Vec<String>, AllocError>
    ensures { IfOk result (λ copies. word_bytes copies.items ≡ map (λ name. name.now) names.now) }
{
    let mut copies = Vec::new(alloc);
    for name in names {
        copies.push(String::from_str(alloc, name)?)?;
    }
    Ok(copies)
}

/// The names of the files, in the order in which they stand.
pub fn files_of(alloc: Global, matches: &ArgMatches<'_>) -> Result<FileList, AllocError>
    ensures { IfOk result (λ files. files ≡ unwrap_or (option_map raw_values (matched_of (found_of matches.now) (codes "file"))) []) }
{
    match matches.get_strs("file") {
        Some(names) => {
            let copies = copied(alloc, names)?;
            Ok(FileList::from_vec(copies))
        }
        None => Ok(FileList::from_vec(Vec::new(alloc))),
    }
}
