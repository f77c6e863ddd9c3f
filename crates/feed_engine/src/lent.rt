//! `LentActor`, an actor that borrows the closure by which it acts.
ghost use Rattle.std.specs.Prelude.{◌≡◌};
ghost use Rattle.feed_engine.specs.Lent.{ActsBy, matching, streams};

use act_phase::{ActFault, Acted};
use cycle::Actor;
use ops_base::programs::Program;
use ops_base::rules::Inst;
use ops_base::symbols::Names;
use ops_io::{Input, Out, Sink, Source};
use std::alloc::Global;
use std::marker::PhantomData;
use work_store::{Matcher, Settled};

/// Executes right sides, and settles matchers by their changes, by calling a closure that does both. The closure may
/// start threads.
#[derive(Drop)]
pub struct LentActor<'a, M, F> {
    act: &'a F,
    matchers: PhantomData<M>,
}

impl<'a, M, F> LentActor<'a, M, F> {
    /// An actor that acts by this closure.
    pub fn new(act: &'a F) -> LentActor<'a, M, F>
        ensures { result.act.now ≡ act.now }
    {
        LentActor {
            act,
            matchers: PhantomData,
        }
    }
}

impl<
    'a,
    M: Matcher,
    I: Source,
    K: Sink,
    F: Fn(
        Global,
        &Program,
        &mut Names,
        M,
        &Inst,
        u8,
        &mut Input,
        &mut I,
        &mut Out,
        &mut K,
    ) -> Result<(Acted, Settled<M>), ActFault>,
> Actor<M, I, K> for LentActor<'a, M, F> {
    ghost able = { λ f. ActsBy (matching M.stored M.found M.stands_for) (streams I.left I.faults K.taken K.faults)
        (λ alloc program names matcher inst watch input source out sink. F.pre f.act.now alloc program names matcher inst watch input source out sink)
        (λ alloc program names matcher inst watch input source out sink r names' input' source' out' sink'. F.post f.act.now alloc program names matcher inst watch input source out sink r names' input' source' out' sink') };

    fn act(
        &self,
        alloc: Global,
        program: &Program,
        names: &mut Names,
        matcher: M,
        inst: &Inst,
        watch: u8,
        input: &mut Input,
        source: &mut I,
        out: &mut Out,
        sink: &mut K,
    ) -> Result<(Acted, Settled<M>), ActFault> {
        (self.act)(
            alloc, program, names, matcher, inst, watch, input, source, out, sink,
        )
    }
}
