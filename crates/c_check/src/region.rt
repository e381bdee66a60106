//! Regions: each number begins and ends at most once, both or neither, in one block, and begins first.

ghost use Rattle.std.specs.Prelude.{◌≡◌, ◌++◌, ◌∷◌, ◌==◌, [], ℕ, List, Some, None, IfOk, OnOk, if◌then◌else◌};
ghost use Rattle.std.specs.BTreeMap.{get};
ghost use Rattle.std.specs.Ordering.{nat_cmp};
ghost use Rattle.c_tree.specs.Breach.{Adds};
ghost use Rattle.c_tree.specs.Regions.{is_same_block, is_right_before, is_right, edge_breaches};
ghost use Rattle.c_tree.specs.Scope.{otherwise};
ghost use Rattle.c_check.specs.private.Firsts.{first_of, HasFirsts};

use c_rules::note;
use c_tree::{Broken, Edge, Least, OutOfMemory, Place};
use std::alloc::Global;
use std::collections::BTreeMap;

/// The first edges by their numbers: those that begin a region, and those that end one.
#[derive(Drop)]
pub(crate) struct Firsts {
    begins: BTreeMap<u32, Edge>,
    ends: BTreeMap<u32, Edge>,
}

/// Keeps an edge, unless one of its number is there.
fn keep_first(edges: &mut BTreeMap<u32, Edge>, edge: Edge) -> Result<(), OutOfMemory>
    ensures { OnOk result ((k : ℕ)
        → get nat_cmp edges.new k
        ≡ otherwise (get nat_cmp edges.old k) (if edge.number == k then Some edge else None)) }
{
    if !edges.contains_key(&edge.number) {
        edges.insert(edge.number, edge)?;
    }
    Ok(())
}

impl Firsts {
    fn new(alloc: Global) -> Firsts
        ensures { HasFirsts result [] }
    {
        Firsts {
            begins: BTreeMap::new(alloc),
            ends: BTreeMap::new(alloc),
        }
    }

    /// The first edge of a kind and number.
    fn find(&self, begins: bool, number: u32) -> Option<Edge>
        ensures { result ≡ first_of self.now begins number }
    {
        if begins {
            self.begins.get(&number).copied()
        } else {
            self.ends.get(&number).copied()
        }
    }

    /// One edge more.
    fn add(&mut self, edge: Edge) -> Result<(), OutOfMemory>
        ensures { OnOk result ((es : List Edge) → HasFirsts self.old es
            → HasFirsts self.new (es ++ edge ∷ [])) }
    {
        if edge.begins {
            keep_first(&mut self.begins, edge)
        } else {
            keep_first(&mut self.ends, edge)
        }
    }
}

/// The first edges of a list.
fn firsts_of(alloc: Global, edges: &[Edge]) -> Result<Firsts, OutOfMemory>
    ensures { IfOk result (λ firsts. HasFirsts firsts edges.now) }
{
    let mut firsts = Firsts::new(alloc);
    for edge in edges {
        firsts.add(*edge)?;
    }
    Ok(firsts)
}

fn is_same_block(a: Option<Place>, b: Option<Place>) -> bool
    ensures { result ≡ is_same_block a b }
{
    match (a, b) {
        (Some(a), Some(b)) => a.line == b.line && a.column == b.column,
        _ => false,
    }
}

/// Of a pair the earlier edge begins the region, and both stand in one block.
fn is_right_before(edge: Edge, partner: Option<Edge>) -> bool
    ensures { result ≡ is_right_before edge partner }
{
    match partner {
        None => false,
        Some(partner) => edge.begins && is_same_block(edge.block, partner.block),
    }
}

/// An edge is right, by the first edges before it and those of the whole list.
fn is_right(before: &Firsts, edge: Edge, whole: &Firsts) -> bool
    ensures { (es rest : List Edge) → HasFirsts before.now es
        → HasFirsts whole.now (es ++ edge ∷ rest) → result ≡ is_right es edge rest }
{
    if before.find(edge.begins, edge.number).is_some() {
        return false;
    }
    before.find(!edge.begins, edge.number).is_some()
        || is_right_before(edge, whole.find(!edge.begins, edge.number))
}

/// Notes each edge that isn't right.
#[tactic(auto, using(c_tree::proofs::LeastBreach::append_rules))]
pub(crate) fn check_edges(
    alloc: Global,
    edges: &[Edge],
    least: &mut Least,
) -> Result<(), OutOfMemory>
    ensures { OnOk result (Adds least.old least.new (edge_breaches [] edges.now)) }
{
    let whole = firsts_of(alloc, edges)?;
    let mut before = Firsts::new(alloc);
    for edge in edges {
        let right = is_right(&before, *edge, &whole);
        note(least, right, Broken::Marker, edge.place);
        before.add(*edge)?;
    }
    Ok(())
}
