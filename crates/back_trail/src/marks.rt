//! Marks in the order of production and tags: one goes in and out at the cost of the logarithm of their number.
ghost use Rattle.std.specs.Prelude.{◌≡◌, ◌++◌, IfOk, OnOk, OnErr, Some, refl};
ghost use Rattle.std.specs.Cmp.{partial_equiv_from_equiv, eq_by_cmp_equiv, partial_order_from_agreeing_total};
ghost use Rattle.std.specs.Ordering.{eq_by_cmp};
ghost use Rattle.ops_base.specs.Instances.{by_rule_and_tags, IsInOrder};
ghost use Rattle.ops_base.specs.Refraction.{is_among, is_same_inst};
ghost use Rattle.cycle.specs.Standing.{with_inst, without_gone};
ghost use Rattle.back_trail.specs.Marks.{marks_total};

use ops_base::memory::OutOfMemory;
use ops_base::rules::Inst;
use std::alloc::Global;
use std::cmp::Ordering;
use std::collections::BTreeSet;
use std::marker::Model;

/// A marked instantiation, in the order of production and tags.
#[derive(Drop)]
pub(crate) struct Mark {
    inst: Inst,
}

impl Model for Mark {
    ghost use Rattle.ops_base.specs.declared.rules.Inst.{Inst};

    ghost Value = { Inst };

    ghost view = { λ m. m.inst };
}

impl PartialEq for Mark {
    ghost eq = { eq_by_cmp by_rule_and_tags };

    ghost laws = { partial_equiv_from_equiv (eq_by_cmp_equiv marks_total) };

    fn eq(&self, other: &Mark) -> bool {
        self.cmp(other).is_eq()
    }
}

impl Eq for Mark {
    ghost laws = { eq_by_cmp_equiv marks_total };
}

impl PartialOrd for Mark {
    ghost partial_cmp = { λ a b. Some (by_rule_and_tags a b) };

    ghost laws = { partial_order_from_agreeing_total by_rule_and_tags marks_total (λ a b. refl) (λ a b. refl) };

    fn partial_cmp(&self, other: &Mark) -> Option<Ordering> {
        Some(self.cmp(other))
    }
}

impl Ord for Mark {
    ghost cmp = { by_rule_and_tags };

    ghost total = { marks_total };

    ghost matches_partial_cmp = { λ a b. refl };

    ghost matches_eq = { λ a b. refl };

    fn cmp(&self, other: &Mark) -> Ordering {
        self.inst.compare(&other.inst)
    }
}

pub(crate) type Marks = BTreeSet<Mark>;

/// Puts one in at its place, unless it is there. If memory runs out, nothing has changed.
pub(crate) fn put_mark(marks: &mut Marks, inst: Inst) -> Result<(), OutOfMemory>
    ensures ok { OnOk result (marks.new.keys ≡ with_inst inst marks.old.keys) }
    ensures err { OnErr result (marks.new.keys ≡ marks.old.keys) }
{
    marks.insert(Mark { inst })?;
    Ok(())
}

fn is_same(i: &Inst, j: &Inst) -> bool
    ensures { result ≡ is_same_inst i.now j.now }
{
    i.rule == j.rule && i.tags.as_slice() == j.tags.as_slice()
}

/// Looks at one after the other.
pub(crate) fn is_among(insts: &[Inst], inst: &Inst) -> bool
    ensures { result ≡ is_among insts.now inst.now }
{
    insts.iter().any(|other| is_same(inst, other))
}

/// Takes out those that are gone. Takes no memory.
pub(crate) fn drop_marks(marks: &mut Marks, gone: Vec<Inst>)
    ensures { marks.new.keys ≡ without_gone gone.items marks.old.keys }
{
    // the set is looked at for what it keeps true
    let _len = marks.len();
    for inst in gone {
        marks.remove(&Mark { inst });
    }
}

/// Marks that stand in order.
pub(crate) fn marks_of(alloc: Global, insts: Vec<Inst>) -> Result<Marks, OutOfMemory>
    requires { IsInOrder insts.items }
    ensures { IfOk result (λ m. m.keys ≡ insts.items) }
{
    let mut marks = BTreeSet::new(alloc);
    for inst in insts {
        put_mark(&mut marks, inst)?;
    }
    Ok(marks)
}

/// Copies of the marked instantiations.
pub(crate) fn insts_of(alloc: Global, marks: &Marks) -> Result<Vec<Inst>, OutOfMemory>
    ensures insts { IfOk result (λ v. v.items ≡ marks.now.keys) }
    ensures in_order { IfOk result (λ v. IsInOrder v.items) }
{
    // the set is looked at for what it keeps true
    let _len = marks.len();
    let mut insts = Vec::new(alloc);
    for mark in marks.iter() {
        insts.push(mark.inst.copy(alloc)?)?;
    }
    Ok(insts)
}
