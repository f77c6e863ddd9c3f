//! What `accept` returns.
ghost use Rattle.std.specs.Prelude.{◌≡◌, ◌^◌, ◌<◌, [], true, IsTrue};
ghost use Rattle.ops_meaning.specs.Effects.{silent};
ghost use Rattle.ops_tokens.specs.Accepting.{accepted};
ghost use Rattle.act_phase.specs.Deeds.{Acts, scene, atom_found};
ghost use Rattle.act_phase.specs.Outcomes.{fails_by, is_read_mishap};

use crate::outcome::ActionError;
use ops_base::endings::ActKind;
use ops_base::symbols::Names;
use ops_base::values::Value;
use ops_io::{Input, Out, Sink, Source};
use ops_tokens::{AcceptFault, accept_atom};
use std::alloc::Global;

/// Reads one atom. Everything that was put is written first, so that a person sees the question before the program
/// waits for the answer. So if the read fails, nothing is held in the buffer.
pub(crate) fn accept<I: Source, K: Sink>(
    alloc: Global,
    names: &mut Names,
    input: &mut Input,
    source: &mut I,
    out: &mut Out,
    sink: &mut K,
) -> Result<Value, ActionError>
    requires whole { IsTrue out.old.whole }
    requires writes { K.faults sink.old < 2 ^ 63 }
    requires reads { I.faults source.old < 2 ^ 63 }
    ensures does { Acts (λ v c. record { value = v; names = names.new; coming = c }) result
        (scene names.old input.old (I.left source.old) (I.faults source.old) (K.taken sink.old) (K.faults sink.old) out.old)
        (scene names.new input.new (I.left source.new) (I.faults source.new) (K.taken sink.new) (K.faults sink.new) out.new)
        (λ c. silent (atom_found (accepted names.old c))) }
    ensures written { fails_by is_read_mishap result ≡ true → out.new.held ≡ [] }
{
    out.flush(sink)?;
    match accept_atom(alloc, names, input, source) {
        Ok(value) => Ok(value),
        Err(AcceptFault::TooLong) => Err(ActionError::Fault(ActKind::InputTooLong)),
        Err(AcceptFault::Read) => Err(ActionError::Read),
        Err(AcceptFault::OutOfMemory) => Err(ActionError::OutOfMemory),
    }
}
