//! Texts at a limit and past it, and how a fault is shown.

use ops_base::endings::{Fault, Limit};
use ops_base::memory::OutOfMemory;
use ops_check::{ProgramFault, read_program};
use std::alloc::Global;
use std::test::Fail;

// what stands before, this many times one piece, and what stands after
fn text_of(
    alloc: Global,
    before: &[u8],
    count: usize,
    piece: &[u8],
    after: &[u8],
) -> Result<Vec<u8>, OutOfMemory> {
    let mut text = Vec::from_slice(alloc, before)?;
    for _ in 0..count {
        text.extend_from_slice(piece)?;
    }
    text.extend_from_slice(after)?;
    Ok(text)
}

// the fault of the text, if it has one
fn fault_of(alloc: Global, text: Vec<u8>) -> Option<ProgramFault> {
    read_program(alloc, text).err()
}

// that limit is passed, at that column of the first line
fn passed(limit: Limit, column: u64) -> Option<ProgramFault> {
    Some(ProgramFault::At {
        fault: Fault::LimitPassed { limit },
        line: 1,
        column,
    })
}

#[test]
fn an_element_has_127_fields(rt: HostRuntime) -> Result<(), OutOfMemory> {
    let alloc = rt.alloc();
    let before = b"(literalize a x) (vector-attribute x) (make a ^x";
    let most = text_of(alloc, before, 126, b" 1", b")")?;
    assert_eq!(rt; fault_of(alloc, most), None);
    let more = text_of(alloc, before, 127, b" 1", b")")?;
    assert_eq!(rt; fault_of(alloc, more), passed(Limit::Fields, 302));
    Ok(())
}

#[test]
fn a_production_has_256_conditions(rt: HostRuntime) -> Result<(), OutOfMemory> {
    let alloc = rt.alloc();
    let most = text_of(alloc, b"(literalize a) (p r", 256, b" (a)", b" -->)")?;
    assert_eq!(rt; fault_of(alloc, most), None);
    let more = text_of(alloc, b"(literalize a) (p r", 257, b" (a)", b" -->)")?;
    assert_eq!(rt; fault_of(alloc, more), passed(Limit::Conditions, 1045));
    Ok(())
}

#[test]
fn members_are_among_256_conditions(rt: HostRuntime) -> Result<(), OutOfMemory> {
    let alloc = rt.alloc();
    let before = b"(literalize a) (p r (a) - {";
    let most = text_of(alloc, before, 255, b" (a)", b" } -->)")?;
    assert_eq!(rt; fault_of(alloc, most), None);
    let more = text_of(alloc, before, 256, b" (a)", b" } -->)")?;
    assert_eq!(rt; fault_of(alloc, more), passed(Limit::Conditions, 1049));
    Ok(())
}

#[test]
fn a_built_production_has_256_conditions(rt: HostRuntime) -> Result<(), OutOfMemory> {
    let alloc = rt.alloc();
    let before = b"(literalize a) (p r (a) --> (build s";
    let most = text_of(alloc, before, 256, b" (a)", b" -->))")?;
    assert_eq!(rt; fault_of(alloc, most), None);
    let more = text_of(alloc, before, 257, b" (a)", b" -->))")?;
    assert_eq!(rt; fault_of(alloc, more), passed(Limit::Conditions, 1062));
    Ok(())
}

// a text with 1 in this many brackets
fn nested(
    alloc: Global,
    before: &[u8],
    brackets: usize,
    after: &[u8],
) -> Result<Vec<u8>, OutOfMemory> {
    let open = text_of(alloc, before, brackets, b"(", b"1")?;
    text_of(alloc, &open, brackets, b")", after)
}

#[test]
fn brackets_are_limited(rt: HostRuntime) -> Result<(), OutOfMemory> {
    let alloc = rt.alloc();
    let before = b"(literalize a) (p r (a) --> (write (compute ";
    let most = nested(alloc, before, 29, b")))")?;
    assert_eq!(rt; fault_of(alloc, most), None);
    let more = nested(alloc, before, 30, b")))")?;
    assert_eq!(rt; fault_of(alloc, more), passed(Limit::Nesting, 74));
    Ok(())
}

#[test]
fn brackets_are_limited_in_a_build(rt: HostRuntime) -> Result<(), OutOfMemory> {
    let alloc = rt.alloc();
    let before = b"(literalize a) (p r (a) --> (build s (a) --> (write (compute ";
    let most = nested(alloc, before, 28, b"))))")?;
    assert_eq!(rt; fault_of(alloc, most), None);
    let more = nested(alloc, before, 29, b"))))")?;
    assert_eq!(rt; fault_of(alloc, more), passed(Limit::Nesting, 90));
    Ok(())
}

#[test]
fn a_fault_is_shown_with_its_place(rt: HostRuntime) -> Result<(), Fail> {
    let fault = ProgramFault::At {
        fault: Fault::LimitPassed {
            limit: Limit::Fields,
        },
        line: 3,
        column: 14,
    };
    let shown = format!(in rt.alloc(); "{fault}")?;
    assert_eq!(rt; shown.as_str(), "3:14: limit passed: fields");
    Ok(())
}
