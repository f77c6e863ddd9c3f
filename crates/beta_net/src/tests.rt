//! What productions share, and the networks of groups: their nodes, their tests, and the nodes that take elements.
ghost use Rattle.std.specs.Prelude.{◌≡◌, ◌∷◌, [], IfOk, false};
ghost use Rattle.ops_base.specs.declared.conditions.Operand.TheVariants as operand;
ghost use Rattle.ops_base.specs.declared.conditions.Part.TheVariants as part;

use crate::compile;
use net_base::counts::Counts;
use net_base::nodes::{JoinTest, Kind};
use ops_base::conditions::{Condition, Operand, Part, Test};
use ops_base::elements::Class;
use ops_base::list::Listed;
use ops_base::memory::OutOfMemory;
use ops_base::programs::Program;
use ops_base::rules::Rule;
use ops_base::values::{Pred, Sym};
use std::alloc::Global;
use std::test::Fail;

fn class<const N: usize>(alloc: Global, name: u64, attrs: [Sym; N]) -> Result<Class, OutOfMemory>
    ensures { IfOk result (λ c. c ≡ record { name = record { 0 = name }; attrs = attrs.entry; vector = false }) }
{
    Ok(Class {
        name: Sym(name),
        attrs: Listed::from_array(alloc, attrs)?,
        vector: false,
    })
}

/// Compares a field with a variable, or binds it.
fn test(field: usize, pred: Pred, variable: usize, binds: bool) -> Test
    ensures { result ≡ record { field = field; pred = pred; operand = operand.Variable variable; binds = binds } }
{
    Test {
        field,
        pred,
        operand: Operand::Variable(variable),
        binds,
    }
}

fn condition<const N: usize>(
    alloc: Global,
    class: usize,
    negated: bool,
    tests: [Test; N],
) -> Result<Condition, OutOfMemory>
    ensures { IfOk result (λ c. c ≡ record { class = class; negated = negated; tests = tests.entry }) }
{
    Ok(Condition {
        class,
        negated,
        tests: Listed::from_array(alloc, tests)?,
    })
}

/// A condition that any element of the class meets.
fn any(alloc: Global, class: usize) -> Condition
    ensures { result ≡ record { class = class; negated = false; tests = [] } }
{
    Condition {
        class,
        negated: false,
        tests: Listed::new(alloc),
    }
}

/// A group that any two elements of these classes meet.
fn pair(alloc: Global, first: usize, second: usize) -> Result<Part, OutOfMemory>
    ensures { IfOk result (λ p. p ≡ part.Group
        (record { class = first; negated = false; tests = [] } ∷ record { class = second; negated = false; tests = [] } ∷ [])) }
{
    let members = [any(alloc, first), any(alloc, second)];
    Ok(Part::Group(Listed::from_array(alloc, members)?))
}

/// A production with this left side and without actions.
fn rule<const N: usize>(
    alloc: Global,
    name: u64,
    parts: [Part; N],
    specificity: u32,
    variables: usize,
    cells: usize,
) -> Result<Rule, OutOfMemory>
    ensures { IfOk result (λ r. r ≡ record {
      name = record { 0 = name };
      conditions = parts.entry;
      actions = [];
      specificity = specificity;
      variables = variables;
      cells = cells;
      first = 0;
      past = 0;
    }) }
{
    Ok(Rule {
        name: Sym(name),
        conditions: Listed::from_array(alloc, parts)?,
        actions: Listed::new(alloc),
        specificity,
        variables,
        cells,
        first: 0,
        past: 0,
    })
}

/// `(literalize a) (p first (a) --> ) (p second (a) --> )`
fn first_and_second(alloc: Global) -> Result<Program, OutOfMemory> {
    let classes = Listed::from_array(alloc, [class(alloc, 1, [])?])?;
    let first = rule(alloc, 2, [Part::One(any(alloc, 0))], 1, 0, 1)?;
    let second = rule(alloc, 3, [Part::One(any(alloc, 0))], 1, 0, 1)?;
    let rules = Listed::from_array(alloc, [first, second])?;
    Ok(Program::new(
        classes,
        rules,
        Listed::new(alloc),
        Listed::new(alloc),
        Listed::new(alloc),
    ))
}

/// `(literalize a) (p lone (a) - { (a) (a) } --> )`
fn lone(alloc: Global) -> Result<Program, OutOfMemory> {
    let classes = Listed::from_array(alloc, [class(alloc, 1, [])?])?;
    let parts = [Part::One(any(alloc, 0)), pair(alloc, 0, 0)?];
    let rules = Listed::from_array(alloc, [rule(alloc, 2, parts, 3, 0, 1)?])?;
    Ok(Program::new(
        classes,
        rules,
        Listed::new(alloc),
        Listed::new(alloc),
        Listed::new(alloc),
    ))
}

/// `(literalize job id) (literalize part job state)`
/// `(p ready (job ^id <j>) - { (part ^job <j> ^state <s>) (part ^job <j> ^state <> <s>) } --> )`
fn ready(alloc: Global) -> Result<Program, OutOfMemory> {
    let job = class(alloc, 1, [Sym(2)])?;
    let part = class(alloc, 3, [Sym(4), Sym(5)])?;
    let classes = Listed::from_array(alloc, [job, part])?;
    let of_job = condition(alloc, 0, false, [test(0, Pred::Eq, 0, true)])?;
    let same_job = test(0, Pred::Eq, 0, false);
    let some_state = condition(alloc, 1, false, [same_job, test(1, Pred::Eq, 1, true)])?;
    let same_job = test(0, Pred::Eq, 0, false);
    let other_state = condition(alloc, 1, false, [same_job, test(1, Pred::Ne, 1, false)])?;
    let members = Listed::from_array(alloc, [some_state, other_state])?;
    let parts = [Part::One(of_job), Part::Group(members)];
    let rules = Listed::from_array(alloc, [rule(alloc, 6, parts, 6, 2, 1)?])?;
    Ok(Program::new(
        classes,
        rules,
        Listed::new(alloc),
        Listed::new(alloc),
        Listed::new(alloc),
    ))
}

/// `(literalize a) (literalize b)`
fn two_classes(alloc: Global) -> Result<Listed<Class>, OutOfMemory>
    ensures { IfOk result (λ l. l ≡ record { name = record { 0 = 1 }; attrs = []; vector = false }
        ∷ record { name = record { 0 = 2 }; attrs = []; vector = false } ∷ []) }
{
    let a = class(alloc, 1, [])?;
    let b = class(alloc, 2, [])?;
    Listed::from_array(alloc, [a, b])
}

/// `(p first (a) - { (a) (b) } --> ) (p second (a) - { (a) (b) } (b) --> )`
fn same_groups(alloc: Global) -> Result<Program, OutOfMemory> {
    let classes = two_classes(alloc)?;
    let one = pair(alloc, 0, 1)?;
    let first = rule(alloc, 3, [Part::One(any(alloc, 0)), one], 3, 0, 1)?;
    let other = pair(alloc, 0, 1)?;
    let parts = [Part::One(any(alloc, 0)), other, Part::One(any(alloc, 1))];
    let second = rule(alloc, 4, parts, 4, 0, 2)?;
    let rules = Listed::from_array(alloc, [first, second])?;
    Ok(Program::new(
        classes,
        rules,
        Listed::new(alloc),
        Listed::new(alloc),
        Listed::new(alloc),
    ))
}

/// `(p first (a) - { (a) (b) } --> ) (p second (a) - { (a) (a) } --> )`
fn other_groups(alloc: Global) -> Result<Program, OutOfMemory> {
    let classes = two_classes(alloc)?;
    let one = pair(alloc, 0, 1)?;
    let first = rule(alloc, 3, [Part::One(any(alloc, 0)), one], 3, 0, 1)?;
    let other = pair(alloc, 0, 0)?;
    let second = rule(alloc, 4, [Part::One(any(alloc, 0)), other], 3, 0, 1)?;
    let rules = Listed::from_array(alloc, [first, second])?;
    Ok(Program::new(
        classes,
        rules,
        Listed::new(alloc),
        Listed::new(alloc),
        Listed::new(alloc),
    ))
}

/// `(p first (a) - { (a) (b) } --> ) (p second (a) (a) --> )`
fn member_and_condition(alloc: Global) -> Result<Program, OutOfMemory> {
    let classes = two_classes(alloc)?;
    let one = pair(alloc, 0, 1)?;
    let first = rule(alloc, 3, [Part::One(any(alloc, 0)), one], 3, 0, 1)?;
    let parts = [Part::One(any(alloc, 0)), Part::One(any(alloc, 0))];
    let second = rule(alloc, 4, parts, 2, 0, 2)?;
    let rules = Listed::from_array(alloc, [first, second])?;
    Ok(Program::new(
        classes,
        rules,
        Listed::new(alloc),
        Listed::new(alloc),
        Listed::new(alloc),
    ))
}

/// `(p after (a) - (b) - { (a) (b) } --> )`
fn after_negated(alloc: Global) -> Result<Program, OutOfMemory> {
    let classes = two_classes(alloc)?;
    let absent = condition(alloc, 1, true, [])?;
    let group = pair(alloc, 0, 1)?;
    let parts = [Part::One(any(alloc, 0)), Part::One(absent), group];
    let after = rule(alloc, 3, parts, 4, 0, 1)?;
    let rules = Listed::from_array(alloc, [after])?;
    Ok(Program::new(
        classes,
        rules,
        Listed::new(alloc),
        Listed::new(alloc),
        Listed::new(alloc),
    ))
}

fn nothing(alloc: Global) -> Program {
    Program::new(
        Listed::new(alloc),
        Listed::new(alloc),
        Listed::new(alloc),
        Listed::new(alloc),
        Listed::new(alloc),
    )
}

fn counts(alpha: usize, join: usize, negated: usize, terminal: usize) -> Counts {
    Counts {
        alpha,
        join,
        negated,
        terminal,
    }
}

/// The kind of a group of two members after one positive condition.
fn pair_of(giver: usize) -> Kind {
    Kind::Group {
        giver,
        width: 1,
        members: 2,
    }
}

#[test]
fn networks_of_programs(rt: HostRuntime) -> Result<(), Fail> {
    let alloc = rt.alloc();
    assert_eq!(rt;
        compile(alloc, &nothing(alloc))?.counts(),
        counts(0, 0, 0, 0)
    );
    let net = compile(alloc, &first_and_second(alloc)?)?;
    assert_eq!(rt; net.counts(), counts(1, 1, 0, 2));
    assert_eq!(rt; net.alphas().len(), 1);
    let nodes = net.nodes();
    assert_eq!(rt; nodes.len(), 3);
    assert_eq!(rt; nodes[0].children.as_slice(), [1, 2].as_slice());
    Ok(())
}

#[test]
fn network_of_a_group(rt: HostRuntime) -> Result<(), Fail> {
    let alloc = rt.alloc();
    let net = compile(alloc, &lone(alloc)?)?;
    assert_eq!(rt; net.counts(), counts(1, 3, 1, 1));
    let nodes = net.nodes();
    assert_eq!(rt; nodes.len(), 5);
    assert_eq!(rt; nodes[3].kind, pair_of(2));
    assert_eq!(rt; nodes[3].parent, Some(0));
    assert_eq!(rt; nodes[3].depth, 4);
    assert_eq!(rt; nodes[0].children.as_slice(), [1, 3].as_slice());
    assert_eq!(rt; nodes[2].rights.as_slice(), [3].as_slice());
    Ok(())
}

#[test]
fn a_member_sees_what_the_one_before_binds(rt: HostRuntime) -> Result<(), Fail> {
    let alloc = rt.alloc();
    let net = compile(alloc, &ready(alloc)?)?;
    assert_eq!(rt; net.counts(), counts(2, 3, 1, 1));
    let same_job = JoinTest {
        field: 0,
        pred: Pred::Eq,
        place: 0,
        other: 0,
    };
    let other_state = JoinTest {
        field: 1,
        pred: Pred::Ne,
        place: 1,
        other: 1,
    };
    let nodes = net.nodes();
    assert_eq!(rt; nodes.len(), 5);
    assert_eq!(rt; nodes[1].joins.as_slice(), [same_job].as_slice());
    assert_eq!(rt;
        nodes[2].joins.as_slice(),
        [same_job, other_state].as_slice()
    );
    assert_eq!(rt; nodes[3].kind, pair_of(2));
    Ok(())
}

#[test]
fn no_element_goes_to_a_group(rt: HostRuntime) -> Result<(), Fail> {
    let alloc = rt.alloc();
    let net = compile(alloc, &ready(alloc)?)?;
    let nodes = net.nodes();
    assert_eq!(rt; nodes.len(), 5);
    assert_eq!(rt; nodes[3].kind, pair_of(2));
    assert_eq!(rt; (nodes[3].class, nodes[3].alpha), (0, 0));
    assert_eq!(rt; net.alphas().len(), 2);
    assert_eq!(rt; net.takers(0), [0].as_slice());
    assert_eq!(rt; net.takers(1), [1, 2].as_slice());
    Ok(())
}

#[test]
fn groups_of_the_same_members_share_a_node(rt: HostRuntime) -> Result<(), Fail> {
    let alloc = rt.alloc();
    let net = compile(alloc, &same_groups(alloc)?)?;
    assert_eq!(rt; net.counts(), counts(2, 4, 1, 2));
    let nodes = net.nodes();
    assert_eq!(rt; nodes.len(), 7);
    assert_eq!(rt; nodes[3].kind, pair_of(2));
    assert_eq!(rt; nodes[3].children.as_slice(), [4, 5].as_slice());
    assert_eq!(rt; nodes[2].rights.as_slice(), [3].as_slice());
    Ok(())
}

#[test]
fn groups_of_other_members_share_the_first_alone(rt: HostRuntime) -> Result<(), Fail> {
    let alloc = rt.alloc();
    let net = compile(alloc, &other_groups(alloc)?)?;
    assert_eq!(rt; net.counts(), counts(2, 4, 2, 2));
    let nodes = net.nodes();
    assert_eq!(rt; nodes.len(), 8);
    assert_eq!(rt; nodes[1].children.as_slice(), [2, 4].as_slice());
    assert_eq!(rt; nodes[3].kind, pair_of(2));
    assert_eq!(rt; nodes[5].kind, pair_of(4));
    assert_eq!(rt; nodes[2].rights.as_slice(), [3].as_slice());
    assert_eq!(rt; nodes[4].rights.as_slice(), [5].as_slice());
    Ok(())
}

#[test]
fn a_member_shares_with_a_positive_condition(rt: HostRuntime) -> Result<(), Fail> {
    let alloc = rt.alloc();
    let net = compile(alloc, &member_and_condition(alloc)?)?;
    assert_eq!(rt; net.counts(), counts(2, 3, 1, 2));
    let nodes = net.nodes();
    assert_eq!(rt; nodes.len(), 6);
    assert_eq!(rt; nodes[1].children.as_slice(), [2, 5].as_slice());
    assert_eq!(rt; nodes[5].kind, Kind::Terminal { rule: 1 });
    Ok(())
}

#[test]
fn a_group_after_a_negated_condition(rt: HostRuntime) -> Result<(), Fail> {
    let alloc = rt.alloc();
    let net = compile(alloc, &after_negated(alloc)?)?;
    assert_eq!(rt; net.counts(), counts(2, 3, 2, 1));
    let nodes = net.nodes();
    assert_eq!(rt; nodes.len(), 6);
    assert_eq!(rt; nodes[1].kind, Kind::Negated);
    assert_eq!(rt; nodes[4].kind, pair_of(3));
    assert_eq!(rt; nodes[4].parent, Some(1));
    assert_eq!(rt; nodes[4].depth, 5);
    assert_eq!(rt; nodes[1].children.as_slice(), [2, 4].as_slice());
    assert_eq!(rt; nodes[5].depth, 6);
    Ok(())
}
