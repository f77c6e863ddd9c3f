//! Words with what they ask for, and words that do not fit.
use crate::{WordsFault, read_words};
use ops_jobs::{Engine, Job, Options};
use std::alloc::{AllocError, Global};
use std::test::Fail;

fn words_of(alloc: Global, words: &[&str]) -> Result<Vec<String>, AllocError> {
    let mut owned = Vec::new(alloc);
    for word in words {
        owned.push(String::from_str(alloc, word)?)?;
    }
    Ok(owned)
}

fn read(alloc: Global, words: &[&str]) -> Result<Job, WordsFault> {
    let words = words_of(alloc, words)?;
    read_words(alloc, &words)
}

const USUAL: Options = Options {
    engine: Engine::Free,
    workers: 4,
    lines: 1_024,
    limit: 1_000_000,
    overlap: false,
};

const SERIAL: Options = Options {
    engine: Engine::Serial,
    ..USUAL
};

/// Words that fit, with the options that they set, and with their files.
const FIT: [(&[&str], Options, &[&str]); 15] = [
    (&["f"], USUAL, &["f"]),
    (
        &["--limit=3", "a", "b"],
        Options { limit: 3, ..USUAL },
        &["a", "b"],
    ),
    (
        &["a", "--workers", "7"],
        Options {
            workers: 7,
            ..USUAL
        },
        &["a"],
    ),
    (&["--", "--limit"], USUAL, &["--limit"]),
    (&["a", "--", "-b", "--"], USUAL, &["a", "-b", "--"]),
    (
        &["-", "--match=direct", ""],
        Options {
            engine: Engine::Direct,
            ..USUAL
        },
        &["-", ""],
    ),
    (&["--match=free", "f"], USUAL, &["f"]),
    (
        &["--lines", "1", "a", "--limit=1000000000"],
        Options {
            lines: 1,
            limit: 1_000_000_000,
            ..USUAL
        },
        &["a"],
    ),
    (
        &["a", "--workers=64", "b", "--lines=65536", "c"],
        Options {
            workers: 64,
            lines: 65_536,
            ..USUAL
        },
        &["a", "b", "c"],
    ),
    (
        &["--limit", "0000000009", "é"],
        Options { limit: 9, ..USUAL },
        &["é"],
    ),
    (&["--match", "serial", "f"], SERIAL, &["f"]),
    (
        &["f", "--lines=2", "--match=serial", "--workers=3"],
        Options {
            workers: 3,
            lines: 2,
            ..SERIAL
        },
        &["f"],
    ),
    (&["--match=serial", "--", "serial"], SERIAL, &["serial"]),
    (
        &["--match=rounds", "f", "--workers=2"],
        Options {
            engine: Engine::Rounds,
            workers: 2,
            ..USUAL
        },
        &["f"],
    ),
    (
        &["--overlap", "f"],
        Options {
            overlap: true,
            ..USUAL
        },
        &["f"],
    ),
];

/// Words that ask for the network, with their files.
const NETWORKS: [(&[&str], &[&str]); 4] = [
    (&["--net", "f"], &["f"]),
    (&["f", "--net", "--limit=3", "g"], &["f", "g"]),
    (&["--net", "--", "--net"], &["--net"]),
    (&["--net", "--overlap", "f"], &["f"]),
];

/// Words that ask for explanations, with the options that they set, and with their files.
const EXPLANATIONS: [(&[&str], Options, &[&str]); 2] = [
    (&["--why", "f"], USUAL, &["f"]),
    (&["f", "--match=serial", "--why", "g"], SERIAL, &["f", "g"]),
];

/// Words that ask for a workload, with the options, the seed and the size that they set.
const WORKLOADS: [(&[&str], Options, u64, u64); 4] = [
    (&["--gen", "7", "1"], USUAL, 7, 1),
    (
        &["--gen", "--limit", "3", "--", "0", "100000"],
        Options { limit: 3, ..USUAL },
        0,
        100_000,
    ),
    (
        &["1000000", "--match=serial", "0000000020", "--gen"],
        SERIAL,
        1_000_000,
        20,
    ),
    (
        &["7", "--gen", "2", "--match", "rounds"],
        Options {
            engine: Engine::Rounds,
            ..USUAL
        },
        7,
        2,
    ),
];

/// Words that do not fit.
const UNFIT: [&[&str]; 48] = [
    &[],
    &["--"],
    &["--limit=3"],
    &["--match=queue", "f"],
    &["--match", "Serial", "f"],
    &["--match=", "f"],
    &["--match", "--workers", "7", "f"],
    &["--limit", "0", "f"],
    &["--limit=1000000001", "f"],
    &["--workers=65", "f"],
    &["--lines=65537", "f"],
    &["--match=serial", "--lines=0", "f"],
    &["--limit", "00000000001", "f"],
    &["--limit=+3", "f"],
    &["--limit=-3", "f"],
    &["--limit", "-", "f"],
    &["--limit=", "f"],
    &["f", "--limit"],
    &["--limit", "--", "3", "f"],
    &["--limit", "3", "--limit", "3", "f"],
    &["--lim=3", "f"],
    &["-x", "f"],
    &["-é", "f"],
    &["--help"],
    &["--gen"],
    &["--gen", "7"],
    &["--gen", "7", "1", "2"],
    &["--gen", "7", "0"],
    &["--gen", "1000001", "1"],
    &["--gen", "7", "100001"],
    &["--gen", "00000000007", "1"],
    &["--gen", "7", "f"],
    &["--gen", "7", "+1"],
    &["--gen", "--net", "7", "1"],
    &["--gen=1", "7", "1"],
    &["--gen", "--gen", "7", "1"],
    &["--gen", "--limit=0", "7", "1"],
    &["--net"],
    &["--net=1", "f"],
    &["--net", "--net", "f"],
    &["--net", "--limit=0", "f"],
    &["--limit", "--net", "f"],
    &["--why"],
    &["--why", "--why", "f"],
    &["--why", "--net", "f"],
    &["--gen", "--why", "7", "1"],
    &["--overlap", "--overlap", "f"],
    &["--overlap=1", "f"],
];

#[test]
fn words_that_fit(rt: HostRuntime) -> Result<(), Fail> {
    for (words, wanted, names) in FIT {
        let Job::Run { options, files } = read(rt.alloc(), words)? else {
            panic!(rt; "no files to run");
        };
        assert_eq!(rt; options, wanted);
        assert_eq!(rt; files.len(), names.len());
        for (file, name) in files.as_slice().iter().zip(names) {
            assert_eq!(rt; file.as_str(), *name);
        }
    }
    Ok(())
}

#[test]
fn networks(rt: HostRuntime) -> Result<(), Fail> {
    for (words, names) in NETWORKS {
        let Job::Net { files } = read(rt.alloc(), words)? else {
            panic!(rt; "no network");
        };
        assert_eq!(rt; files.len(), names.len());
        for (file, name) in files.as_slice().iter().zip(names) {
            assert_eq!(rt; file.as_str(), *name);
        }
    }
    Ok(())
}

#[test]
fn explanations(rt: HostRuntime) -> Result<(), Fail> {
    for (words, wanted, names) in EXPLANATIONS {
        let Job::Why { options, files } = read(rt.alloc(), words)? else {
            panic!(rt; "no explanation");
        };
        assert_eq!(rt; options, wanted);
        assert_eq!(rt; files.len(), names.len());
        for (file, name) in files.as_slice().iter().zip(names) {
            assert_eq!(rt; file.as_str(), *name);
        }
    }
    Ok(())
}

#[test]
fn workloads(rt: HostRuntime) -> Result<(), Fail> {
    for (words, wanted, from, items) in WORKLOADS {
        let Job::Gen {
            options,
            seed,
            size,
        } = read(rt.alloc(), words)?
        else {
            panic!(rt; "no workload");
        };
        assert_eq!(rt; options, wanted);
        assert_eq!(rt; seed, from);
        assert_eq!(rt; size, items);
    }
    Ok(())
}

#[test]
fn words_that_do_not_fit(rt: HostRuntime) {
    for words in UNFIT {
        let fault = read(rt.alloc(), words).err();
        assert_eq!(rt; fault, Some(WordsFault::Usage));
    }
}
