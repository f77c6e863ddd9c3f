//! What makes the matchers of each engine, and lets them grow. The network of a program, or what it lacks for a
//! production, is compiled where an engine needs one.
ghost use Rattle.std.specs.Prelude.{◌≤◌, ◌^◌};

use beta_net::compile;
use cycle::Maker;
use direct_engine::DirectEngine;
use free_engine::FreeEngine;
use grow_net::growth_for;
use ops_base::memory::OutOfMemory;
use ops_base::programs::Program;
use ops_io::Gate;
use rounds_engine::RoundsEngine;
use serial_engine::SerialEngine;
use std::alloc::Global;
use steal_engine::StealEngine;
use work_store::Settled;

/// Makes engines that match each production directly.
#[derive(Clone, Copy)]
pub(crate) struct DirectMaker;

impl Maker for DirectMaker {
    type M = DirectEngine;

    fn make(&self, alloc: Global, program: &Program) -> Result<DirectEngine, OutOfMemory> {
        DirectEngine::new(alloc, program)
    }

    fn grow(
        &self,
        alloc: Global,
        matcher: DirectEngine,
        program: &Program,
        number: usize,
    ) -> Result<Settled<DirectEngine>, OutOfMemory> {
        matcher.grow(alloc, program, number)
    }
}

/// Makes engines that do one activation after another.
#[derive(Drop)]
pub(crate) struct SerialMaker<G> {
    pub(crate) lines: usize,
    pub(crate) gate: G,
    ghost some: { 1 ≤ lines },
}

impl<G: Gate + Copy> Maker for SerialMaker<G> {
    type M = SerialEngine<G>;

    fn make(&self, alloc: Global, program: &Program) -> Result<SerialEngine<G>, OutOfMemory> {
        let net = compile(alloc, program)?;
        SerialEngine::new(alloc, net, self.lines, self.gate)
    }

    fn grow(
        &self,
        alloc: Global,
        matcher: SerialEngine<G>,
        program: &Program,
        number: usize,
    ) -> Result<Settled<SerialEngine<G>>, OutOfMemory> {
        let growth = growth_for(alloc, matcher.net(), program, number)?;
        let enter = |line: usize| self.gate.enter(0, line);
        matcher.grow(alloc, growth, &enter)
    }
}

/// Makes engines of rounds. They start no thread before they settle.
#[derive(Drop)]
pub(crate) struct RoundsMaker<G> {
    pub(crate) lines: usize,
    pub(crate) workers: usize,
    pub(crate) gate: G,
    ghost some_lines: { 1 ≤ lines },
    ghost some_workers: { 1 ≤ workers },
    ghost few_workers: { workers ≤ 2 ^ 32 },
}

impl<G: Gate + Copy> Maker for RoundsMaker<G> {
    type M = RoundsEngine<G>;

    fn make(&self, alloc: Global, program: &Program) -> Result<RoundsEngine<G>, OutOfMemory> {
        let net = compile(alloc, program)?;
        RoundsEngine::new(alloc, net, self.lines, self.workers, self.gate)
    }

    fn grow(
        &self,
        alloc: Global,
        matcher: RoundsEngine<G>,
        program: &Program,
        number: usize,
    ) -> Result<Settled<RoundsEngine<G>>, OutOfMemory> {
        let growth = growth_for(alloc, matcher.net(), program, number)?;
        let enter = |line: usize| self.gate.enter(0, line);
        matcher.grow(alloc, growth, &enter)
    }
}

/// Makes engines of free workers. They start no thread before they settle.
#[derive(Drop)]
pub(crate) struct FreeMaker<G> {
    pub(crate) lines: usize,
    pub(crate) workers: usize,
    pub(crate) gate: G,
    ghost some_lines: { 1 ≤ lines },
    ghost some_workers: { 1 ≤ workers },
    ghost few_workers: { workers ≤ 2 ^ 32 },
}

impl<G: Gate + Copy> Maker for FreeMaker<G> {
    type M = FreeEngine<G>;

    fn make(&self, alloc: Global, program: &Program) -> Result<FreeEngine<G>, OutOfMemory> {
        let net = compile(alloc, program)?;
        FreeEngine::new(alloc, net, self.lines, self.workers, self.gate)
    }

    fn grow(
        &self,
        alloc: Global,
        matcher: FreeEngine<G>,
        program: &Program,
        number: usize,
    ) -> Result<Settled<FreeEngine<G>>, OutOfMemory> {
        let growth = growth_for(alloc, matcher.net(), program, number)?;
        let enter = |line: usize| self.gate.enter(0, line);
        matcher.grow(alloc, growth, &enter)
    }
}

/// Makes stealing engines. They start no thread before they settle.
#[derive(Drop)]
pub(crate) struct StealMaker<G> {
    pub(crate) lines: usize,
    pub(crate) workers: usize,
    pub(crate) gate: G,
    ghost some_lines: { 1 ≤ lines },
    ghost some_workers: { 1 ≤ workers },
    ghost few_workers: { workers ≤ 2 ^ 32 },
}

impl<G: Gate + Copy> Maker for StealMaker<G> {
    type M = StealEngine<G>;

    fn make(&self, alloc: Global, program: &Program) -> Result<StealEngine<G>, OutOfMemory> {
        let net = compile(alloc, program)?;
        StealEngine::new(alloc, net, self.lines, self.workers, self.gate)
    }

    fn grow(
        &self,
        alloc: Global,
        matcher: StealEngine<G>,
        program: &Program,
        number: usize,
    ) -> Result<Settled<StealEngine<G>>, OutOfMemory> {
        let growth = growth_for(alloc, matcher.net(), program, number)?;
        let enter = |line: usize| self.gate.enter(0, line);
        matcher.grow(alloc, growth, &enter)
    }
}
