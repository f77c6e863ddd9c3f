//! The atoms that `accept` reads from inputs in memory.
ghost use Rattle.std.specs.Prelude.{◌+◌, ◌^◌, ◌<◌, ◌≤◌};

use crate::{AcceptFault, accept_atom};
use ops_base::symbols::Names;
use ops_base::values::Value;
use ops_io::{Input, MemSource};
use std::alloc::{AllocError, Global};
use std::test::Fail;

/// The next atom.
fn next(
    alloc: Global,
    names: &mut Names,
    input: &mut Input,
    source: &mut MemSource,
) -> Result<Value, AcceptFault>
    requires { source.old.faults < 2 ^ 63 }
    ensures { source.new.faults ≤ source.old.faults + 1 }
{
    accept_atom(alloc, names, input, source)
}

/// How it is written here: a number with a dot after it, a symbol between quotes, and a fault by its name.
fn written(
    alloc: Global,
    names: &Names,
    atom: Result<Value, AcceptFault>,
) -> Result<Vec<u8>, AllocError> {
    match atom {
        Ok(Value::Whole(number)) => {
            Ok(format!(in alloc; "{number}.")?.as_bytes().to_vec(alloc)?)
        }
        Ok(Value::Symbol(symbol)) => {
            let mut text = b"'".to_vec(alloc)?;
            text.extend_from_slice(names.text(symbol))?;
            text.push(b'\'')?;
            Ok(text)
        }
        Err(fault) => Ok(format!(in alloc; "{fault:?}")?.as_bytes().to_vec(alloc)?),
    }
}

/// This many atoms of a text that is read in pieces, of which the listed reads fail.
fn atoms(
    alloc: Global,
    text: &[u8],
    piece: usize,
    failing: Vec<u64>,
    count: u8,
) -> Result<Vec<u8>, Fail>
    requires { 0 < piece }
{
    let mut names = Names::new(alloc)?;
    let mut input = Input::new(alloc)?;
    let mut source = MemSource::new(text.to_vec(alloc)?, piece, failing);
    let mut atoms = Vec::new(alloc);
    for _ in 0..count {
        let atom = next(alloc, &mut names, &mut input, &mut source);
        atoms.extend_from_slice(&written(alloc, &names, atom)?)?;
    }
    Ok(atoms)
}

#[test]
fn accepts_the_same_of_any_pieces(rt: HostRuntime) -> Result<(), Fail> {
    let alloc = rt.alloc();
    let text = b"12 1.5 |a b| (x".as_slice();
    let want = b"12.'1.5''a b''(x''end-of-file''end-of-file'".as_slice();
    let bytes = atoms(alloc, text, 1, Vec::new(alloc), 6)?;
    assert_eq!(rt; bytes.as_slice(), want);
    let whole = atoms(alloc, text, 100, Vec::new(alloc), 6)?;
    assert_eq!(rt; whole.as_slice(), want);
    Ok(())
}

#[test]
fn accepts_numbers(rt: HostRuntime) -> Result<(), Fail> {
    let alloc = rt.alloc();
    let text = b"+5 -7.\t12a\n9223372036854775808 ".as_slice();
    let found = atoms(alloc, text, 3, Vec::new(alloc), 4)?;
    assert_eq!(rt;
        found.as_slice(),
        b"5.-7.'12a'9223372036854775808.".as_slice()
    );
    let text =
        b"170141183460469231731687303715884105727 170141183460469231731687303715884105728".as_slice();
    let found = atoms(alloc, text, 7, Vec::new(alloc), 2)?;
    assert_eq!(rt;
        found.as_slice(),
        b"170141183460469231731687303715884105727.'170141183460469231731687303715884105728'".as_slice()
    );
    Ok(())
}

#[test]
fn accepts_what_stands_by_a_bar(rt: HostRuntime) -> Result<(), Fail> {
    let alloc = rt.alloc();
    let text = b"ab|c d|12 a\x01\xC3b |\x7Fe ".as_slice();
    let found = atoms(alloc, text, 4, Vec::new(alloc), 6)?;
    assert_eq!(rt;
        found.as_slice(),
        b"'ab''c d'12.'a??b''?e ''end-of-file'".as_slice()
    );
    Ok(())
}

#[test]
fn failed_read_is_a_fault(rt: HostRuntime) -> Result<(), Fail> {
    let alloc = rt.alloc();
    let found = atoms(alloc, b"ab cd".as_slice(), 2, vec![in alloc; 2]?, 3)?;
    assert_eq!(rt; found.as_slice(), b"Read'cd''end-of-file'".as_slice());
    Ok(())
}
