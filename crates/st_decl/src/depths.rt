//! How deep types and units are: a walk from part to part, without recursion.

ghost use Rattle.std.specs.Prelude.{◌≡◌, ◌++◌, ◌∷◌, ◌≤◌, ◌<◌, [], map, IfOk, IfSome, Some, None, length, set, slice_get, replicate};
ghost use Rattle.st_decl.specs.Graphs.{Graph, links_at};
ghost use Rattle.st_decl.specs.declared.depths.Mark.TheVariants.{Unseen, OnPath, Depth};
ghost use Rattle.st_decl.specs.Walks.{seen_of, seen_of_target, deeper, MarksHold, HasLooked, IsOpen, Walking, WalkEnds};
ghost use Rattle.st_decl.specs.Walks.{is_on_path, is_unseen, IsWalked, AreDepths};

use crate::links::{Link, Target};
use st_rules::limits::MAX_TYPE_DEPTH;
use std::alloc::{AllocError, Global};

/// The state of a type or unit in the walk.
#[derive(Clone, Copy)]
pub enum Mark {
    Unseen,
    /// It is on the path, at this position.
    OnPath(usize),
    /// Its depth, cut off above the limit.
    Depth(usize),
}

/// A type or unit on the path.
#[derive(Clone, Copy)]
pub struct Visit {
    pub node: usize,
    /// How many of its links were looked at.
    pub looked: usize,
    /// The greatest depth among those.
    pub deepest: usize,
}

/// The state of a link in the walk.
#[derive(Clone, Copy)]
pub enum Seen {
    Depth(usize),
    /// The depth of this type or unit is not known yet.
    Open(usize),
}

/// The links of a type or unit by its number.
fn links_at(graph: &[Vec<Link>], node: usize) -> &[Link]
    ensures { result.now ≡ links_at (map (λ n. n.items) graph.now) node }
{
    match graph.get(node) {
        Some(links) => links,
        None => &[],
    }
}

/// One level above a depth, cut off above the limit.
fn deeper(depth: usize) -> usize
    ensures { result ≡ deeper depth }
{
    if depth < MAX_TYPE_DEPTH {
        depth + 1
    } else {
        MAX_TYPE_DEPTH + 1
    }
}

fn seen_of_target(marks: &[Mark], target: Target) -> Seen
    ensures { result ≡ seen_of_target marks.now target }
{
    match target {
        Target::Plain => Seen::Depth(1),
        Target::Standard => Seen::Depth(2),
        Target::Node(node) => match marks.get(node) {
            Some(Mark::Depth(depth)) => Seen::Depth(*depth),
            Some(_) => Seen::Open(node),
            None => Seen::Depth(1),
        },
    }
}

pub fn seen_of(marks: &[Mark], link: Link) -> Seen
    ensures { result ≡ seen_of marks.now link }
{
    match seen_of_target(marks, link.target) {
        Seen::Depth(depth) if link.is_row => Seen::Depth(deeper(depth)),
        seen => seen,
    }
}

/// Looks at further links, up to one whose depth is not known.
fn look(visit: Visit, links: &[Link], marks: &[Mark]) -> (Visit, Option<usize>)
    requires { visit.looked ≤ length links.now }
    ensures node { result.0.node ≡ visit.node }
    ensures keeps { (graph : Graph) → MarksHold graph marks.now → HasLooked graph links.now visit
        → HasLooked graph links.now result.0 }
    ensures all { result.1 ≡ None → result.0.looked ≡ length links.now }
    ensures leads { IfSome result.1 (IsOpen marks.now links.now) }
{
    let node = visit.node;
    let mut deepest = visit.deepest;
    for position in visit.looked..links.len() {
        match seen_of(marks, links[position]) {
            Seen::Depth(depth) => deepest = deepest.max(depth),
            Seen::Open(open) => {
                let visit = Visit {
                    node,
                    looked: position,
                    deepest,
                };
                return (visit, Some(open));
            }
        }
    }
    let visit = Visit {
        node,
        looked: links.len(),
        deepest,
    };
    (visit, None)
}

fn is_on_path(marks: &[Mark], node: usize) -> bool
    ensures { result ≡ is_on_path (slice_get marks.now node) }
{
    matches!(marks.get(node), Some(Mark::OnPath(_)))
}

/// Puts a type or unit on the path.
fn enter(marks: &mut [Mark], path: &mut Vec<Visit>, node: usize) -> Result<(), AllocError>
    requires { node < length marks.old }
    ensures marked { IfOk result (λ done. marks.new ≡ set marks.old node (OnPath (length path.old.items))) }
    ensures stands { IfOk result
        (λ done. path.new.items ≡ path.old.items ++ record { node = node; looked = 0; deepest = 0 } ∷ []) }
{
    marks[node] = Mark::OnPath(path.len());
    path.push(Visit {
        node,
        looked: 0,
        deepest: 0,
    })?;
    Ok(())
}

fn mark_depth(marks: &mut [Mark], node: usize, depth: usize)
    requires { node < length marks.old }
    ensures { marks.new ≡ set marks.old node (Depth depth) }
{
    marks[node] = Mark::Depth(depth);
}

/// Walks from a type or unit until its depth is known; answers one that contains itself, if it meets one.
fn walk_from(
    alloc: Global,
    graph: &[Vec<Link>],
    marks: &mut [Mark],
    start: usize,
) -> Result<Option<usize>, AllocError>
    requires unseen { slice_get marks.old start ≡ Some Unseen }
    requires walking { Walking (map (λ n. n.items) graph.now) marks.old [] }
    ensures { IfOk result (WalkEnds (map (λ n. n.items) graph.now) marks.old marks.new start) }
{
    let mut path = Vec::new(alloc);
    enter(marks, &mut path, start)?;
    while let Some(visit) = path.pop() {
        let (visit, next) = look(visit, links_at(graph, visit.node), marks);
        match next {
            None => mark_depth(marks, visit.node, deeper(visit.deepest)),
            Some(node) => {
                if is_on_path(marks, node) {
                    return Ok(Some(node));
                }
                path.push(visit)?;
                enter(marks, &mut path, node)?;
            }
        }
    }
    Ok(None)
}

/// The depth of each type and unit, or one of them that contains itself.
pub enum Depths {
    /// The depths by their numbers, cut off above the limit.
    Known(Vec<Mark>),
    /// The number of one that contains itself.
    Cycle(usize),
}

fn is_unseen(marks: &[Mark], node: usize) -> bool
    ensures { result ≡ is_unseen (slice_get marks.now node) }
{
    matches!(marks.get(node), Some(Mark::Unseen))
}

/// Walks from a type or unit, if its depth is not known yet.
fn walk_once(
    alloc: Global,
    graph: &[Vec<Link>],
    marks: &mut [Mark],
    start: usize,
) -> Result<Option<usize>, AllocError>
    requires there { start < length marks.old }
    requires walking { Walking (map (λ n. n.items) graph.now) marks.old [] }
    ensures { IfOk result (WalkEnds (map (λ n. n.items) graph.now) marks.old marks.new start) }
{
    if is_unseen(marks, start) {
        walk_from(alloc, graph, marks, start)
    } else {
        Ok(None)
    }
}

/// Walks from each type and unit; answers one that contains itself, if it meets one.
fn walk_all(
    alloc: Global,
    graph: &[Vec<Link>],
    marks: &mut [Mark],
) -> Result<Option<usize>, AllocError>
    requires { marks.old ≡ replicate (length graph.now) Unseen }
    ensures { IfOk result (IsWalked (map (λ n. n.items) graph.now) marks.new) }
{
    for start in 0..graph.len() {
        if let Some(node) = walk_once(alloc, graph, marks, start)? {
            return Ok(Some(node));
        }
    }
    Ok(None)
}

/// The depths of all types and units.
pub fn depths_of(alloc: Global, graph: &[Vec<Link>]) -> Result<Depths, AllocError>
    ensures { IfOk result (AreDepths (map (λ n. n.items) graph.now)) }
{
    let mut marks = vec![in alloc; Mark::Unseen; graph.len()]?;
    match walk_all(alloc, graph, &mut marks)? {
        Some(node) => Ok(Depths::Cycle(node)),
        None => Ok(Depths::Known(marks)),
    }
}
