//! Networks, which are sound by their type.
ghost use Rattle.std.specs.Prelude.{◌≡◌, ◌≢◌, ◌∷◌, ◌++◌, ℕ, [], All, AllPairs, Contains, IfOk, IsTrue, OnOk, Some, count_by, slice_get};
ghost use Rattle.net_base.specs.declared.nodes.Alpha.{Alpha};
ghost use Rattle.net_base.specs.Sound.{IsSound, is_join, is_negated, is_terminal, takes_elements};
ghost use Rattle.net_base.specs.Shape.{counts_of};
ghost use Rattle.net_base.specs.Tokens.{passes_alpha};
ghost use Rattle.net_base.specs.Rows.{row_at};
ghost use Rattle.net_base.specs.Feeds.{IsCandidate, IsIndex, takers_of};

use crate::alpha_index::AlphaIndex;
use crate::counts::Counts;
use crate::nodes::{Alpha, Kind, Node};
use crate::rows::Rows;
use ops_base::elements::Element;
use ops_base::list::Listed;
use ops_base::memory::OutOfMemory;
use smallvec::SmallVec;
use std::alloc::Global;

/// Numbers of nodes or of alphas. Up to 16 take no memory.
pub type Numbers = SmallVec<usize, 16>;

/// A network. The parent of each node and the giver of each group have smaller numbers. All numbers of nodes, of
/// alphas and of places in a left token are in range. The children of a node are exactly the nodes that name it as
/// parent, and its `rights` exactly the groups that name it as giver.
#[derive(Drop)]
pub struct Net {
    alphas: Listed<Alpha>,
    nodes: Listed<Node>,
    index: AlphaIndex,
    takers: Rows,
    ghost sound: { IsSound alphas nodes },
    ghost indexed: { IsIndex alphas index },
    ghost fed: { (alpha : ℕ) → row_at takers alpha ≡ takers_of nodes alpha },
}

fn is_join(kind: Kind) -> bool
    ensures { result ≡ is_join kind }
{
    match kind {
        Kind::Join => true,
        Kind::Negated | Kind::Group { .. } | Kind::Terminal { .. } => false,
    }
}

fn is_negated(kind: Kind) -> bool
    ensures { result ≡ is_negated kind }
{
    match kind {
        Kind::Negated | Kind::Group { .. } => true,
        Kind::Join | Kind::Terminal { .. } => false,
    }
}

fn is_terminal(kind: Kind) -> bool
    ensures { result ≡ is_terminal kind }
{
    match kind {
        Kind::Terminal { .. } => true,
        Kind::Join | Kind::Negated | Kind::Group { .. } => false,
    }
}

fn takes_elements(kind: Kind) -> bool
    ensures { result ≡ takes_elements kind }
{
    match kind {
        Kind::Join | Kind::Negated => true,
        Kind::Group { .. } | Kind::Terminal { .. } => false,
    }
}

fn joins(nodes: &[Node]) -> usize
    ensures { result ≡ count_by (λ x. is_join x.kind) nodes.now }
{
    nodes.iter().filter(|x| is_join(x.kind)).count()
}

fn negated_nodes(nodes: &[Node]) -> usize
    ensures { result ≡ count_by (λ x. is_negated x.kind) nodes.now }
{
    nodes.iter().filter(|x| is_negated(x.kind)).count()
}

fn terminals(nodes: &[Node]) -> usize
    ensures { result ≡ count_by (λ x. is_terminal x.kind) nodes.now }
{
    nodes.iter().filter(|x| is_terminal(x.kind)).count()
}

/// The nodes that take the elements of each alpha: join and negated nodes.
fn takers(alloc: Global, nodes: &[Node]) -> Result<Rows, OutOfMemory>
    ensures { IfOk result (λ r. (alpha : ℕ) → row_at r alpha ≡ takers_of nodes.now alpha) }
{
    let mut takers = Rows::new(alloc);
    for (number, node) in nodes.iter().enumerate() {
        if takes_elements(node.kind) {
            takers.add(alloc, node.alpha, number)?;
        }
    }
    Ok(takers)
}

/// Adds an alpha after all others to the alphas and to their index.
fn add_alpha(
    alloc: Global,
    alphas: &mut Vec<Alpha>,
    index: &mut AlphaIndex,
    alpha: Alpha,
) -> Result<(), OutOfMemory>
    requires { IsIndex alphas.old.items index.old }
    ensures alphas { OnOk result (alphas.new.items ≡ alphas.old.items ++ alpha ∷ []) }
    ensures index { OnOk result (IsIndex alphas.new.items index.new) }
{
    let number = alphas.as_slice().len();
    index.add(alloc, number, &alpha)?;
    alphas.push(alpha)?;
    Ok(())
}

/// Adds a node after all others to the nodes and to the takers of its alpha.
fn add_node(
    alloc: Global,
    nodes: &mut Vec<Node>,
    takers: &mut Rows,
    node: Node,
) -> Result<(), OutOfMemory>
    requires { (alpha : ℕ) → row_at takers.old alpha ≡ takers_of nodes.old.items alpha }
    ensures nodes { OnOk result (nodes.new.items ≡ nodes.old.items ++ node ∷ []) }
    ensures takers { OnOk result ((alpha : ℕ) → row_at takers.new alpha ≡ takers_of nodes.new.items alpha) }
{
    if takes_elements(node.kind) {
        let number = nodes.as_slice().len();
        takers.add(alloc, node.alpha, number)?;
    }
    nodes.push(node)?;
    Ok(())
}

/// The alphas and their index with these alphas after all others.
fn with_alphas(
    alloc: Global,
    own: Listed<Alpha>,
    index: AlphaIndex,
    added: Vec<Alpha>,
) -> Result<(Listed<Alpha>, AlphaIndex), OutOfMemory>
    requires { IsIndex own index }
    ensures alphas { IfOk result (λ r. r.0 ≡ own ++ added.items) }
    ensures index { IfOk result (λ r. IsIndex r.0 r.1) }
{
    let mut all = own.into_vec();
    let mut index = index;
    for alpha in added {
        add_alpha(alloc, &mut all, &mut index, alpha)?;
    }
    Ok((Listed::from_vec(all), index))
}

/// The nodes and the takers with these nodes after all others.
fn with_nodes(
    alloc: Global,
    own: Listed<Node>,
    takers: Rows,
    added: Vec<Node>,
) -> Result<(Listed<Node>, Rows), OutOfMemory>
    requires { (alpha : ℕ) → row_at takers alpha ≡ takers_of own alpha }
    ensures nodes { IfOk result (λ r. r.0 ≡ own ++ added.items) }
    ensures takers { IfOk result (λ r. (alpha : ℕ) → row_at r.1 alpha ≡ takers_of r.0 alpha) }
{
    let mut all = own.into_vec();
    let mut takers = takers;
    for node in added {
        add_node(alloc, &mut all, &mut takers, node)?;
    }
    Ok((Listed::from_vec(all), takers))
}

impl Net {
    /// Looks at the tests of each alpha up to its first constant, and at each node once. Takes memory for each alpha
    /// and each node.
    pub fn new(
        alloc: Global,
        alphas: Listed<Alpha>,
        nodes: Listed<Node>,
    ) -> Result<Net, OutOfMemory>
        requires { IsSound alphas nodes }
        ensures alphas { IfOk result (λ net. net.alphas ≡ alphas) }
        ensures nodes { IfOk result (λ net. net.nodes ≡ nodes) }
    {
        let index = AlphaIndex::of(alloc, alphas.as_slice())?;
        let takers = takers(alloc, nodes.as_slice())?;
        Ok(Net {
            alphas,
            nodes,
            index,
            takers,
        })
    }

    /// The network with these alphas and nodes after its own. It costs what is added, not what was there. If memory runs
    /// out, the network is lost.
    pub fn extended(
        self,
        alloc: Global,
        alphas: Vec<Alpha>,
        nodes: Vec<Node>,
    ) -> Result<Net, OutOfMemory>
        requires { IsSound (self.alphas ++ alphas.items) (self.nodes ++ nodes.items) }
        ensures alphas { IfOk result (λ net. net.alphas ≡ self.alphas ++ alphas.items) }
        ensures nodes { IfOk result (λ net. net.nodes ≡ self.nodes ++ nodes.items) }
    {
        let (alphas, index) = with_alphas(alloc, self.alphas, self.index, alphas)?;
        let (nodes, takers) = with_nodes(alloc, self.nodes, self.takers, nodes)?;
        Ok(Net {
            alphas,
            nodes,
            index,
            takers,
        })
    }

    /// The alphas. Takes no memory.
    pub fn alphas(&self) -> &[Alpha]
        ensures { result.now ≡ self.now.alphas }
    {
        self.alphas.as_slice()
    }

    /// The nodes. Takes no memory.
    pub fn nodes(&self) -> &[Node]
        ensures nodes { result.now ≡ self.now.nodes }
        ensures sound { IsSound self.now.alphas self.now.nodes }
    {
        self.nodes.as_slice()
    }

    /// The alphas that the element can pass: those of its class that require no constant, and those whose first
    /// constant it has. They are put into an empty list. The alphas that the class alone decides are read at the
    /// index of the class, and there is one lookup for each field in which an alpha of its class first requires a
    /// constant. Up to 16 take no memory.
    pub fn candidates(&self, element: &Element, found: &mut Numbers) -> Result<(), OutOfMemory>
        requires { found.old.items ≡ [] }
        ensures passed { OnOk result ((n : ℕ) (a : Alpha) → slice_get self.now.alphas n ≡ Some a
            → IsTrue (passes_alpha a element.now) → Contains found.new.items n) }
        ensures able { OnOk result (All (IsCandidate self.now.alphas element.now) found.new.items) }
        ensures once { OnOk result (AllPairs (λ n m. n ≢ m) found.new.items) }
    {
        self.index.find(element, found)
    }

    /// The join and negated nodes of this alpha, in order: their right tokens are the elements that pass it. Takes no
    /// memory, and makes no lookup.
    pub fn takers(&self, alpha: usize) -> &[usize]
        ensures { result.now ≡ takers_of self.now.nodes alpha }
    {
        self.takers.at(alpha)
    }

    /// How many alphas it has, and how many nodes of each kind. The nodes of a group's members are counted as joins,
    /// and the group's own node as a negated node. It looks at each node three times, and takes no memory.
    pub fn counts(&self) -> Counts
        ensures { result ≡ counts_of self.now.alphas self.now.nodes }
    {
        let nodes = self.nodes.as_slice();
        Counts {
            alpha: self.alphas.len(),
            join: joins(nodes),
            negated: negated_nodes(nodes),
            terminal: terminals(nodes),
        }
    }
}
