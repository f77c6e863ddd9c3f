//! The text of a small workload, by a sample of its lines.

use crate::gen_text;
use std::test::Fail;

#[test]
fn one_item_from_7(rt: HostRuntime) -> Result<(), Fail> {
    let text = gen_text(rt.alloc(), 7, 1)?;
    let text = str::from_utf8(&text)?;
    assert_eq!(rt; text.lines().count(), 135);
    assert_eq!(rt;
        text.contains("(make item ^id 1 ^at 58 ^left 1)\n(run)\n"),
        true
    );
    assert_eq!(rt; text.contains("(make road ^from 58 ^to 9)\n"), true);
    Ok(())
}
