//! The lines that explain the productions, put into the output buffer.
ghost use Rattle.std.specs.Prelude.{◌≡◌, ◌^◌, ◌<◌, IsTrue};
ghost use Rattle.ops_base.specs.WorkingMemory.{HasRisingTags, shown};
ghost use Rattle.ops_io.specs.Ports.{port};
ghost use Rattle.ops_meaning.specs.Effects.{Performs, of_ending};
ghost use Rattle.ops_meaning.specs.Running.{Session, lists};
ghost use Rattle.why_lines.specs.WhyLines.{why_lines};

use crate::lines::why_text;
use ops_base::elements::Element;
use ops_base::endings::Ending;
use ops_base::programs::Program;
use ops_base::symbols::Names;
use ops_io::{Out, Sink};
use ops_print::fresh_line;
use std::alloc::Global;

/// Puts the lines that explain the productions of a program over working memory. It explains one production after
/// another (by `explain` of `why`), and holds the text of all in memory.
pub fn put_why<K: Sink>(
    alloc: Global,
    names: &Names,
    program: &Program,
    wm: &[&Element],
    out: &mut Out,
    sink: &mut K,
) -> Result<(), Ending>
    requires rising { HasRisingTags (shown wm.now) }
    requires whole { IsTrue out.old.whole }
    requires faults { K.faults sink.old < 2 ^ 63 }
    ensures { (k : Session) → Performs (λ _. k) of_ending result (port (K.taken sink.old) (K.faults sink.old) out.old)
        (port (K.taken sink.new) (K.faults sink.new) out.new)
        (lists out.old.column (why_lines names.now program.now.classes program.now.rules (shown wm.now)) k) }
{
    let text = why_text(alloc, names, program, wm)?;
    if text.as_slice().is_empty() {
        return Ok(());
    }
    fresh_line(out, sink)?;
    out.put(sink, &text)?;
    Ok(())
}
