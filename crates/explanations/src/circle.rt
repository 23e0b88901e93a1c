//! Classes that are their own supertypes.

use crate::classes::{Class, Naming};
use crate::page::Page;
use jasmin_words::name::same;
use std::alloc::{AllocError, Global};

/// The most names of a circle that are written.
const MOST_NAMES: usize = 8;

/// A class that names another one of the files as its supertype, by their places, and by which of its lines.
#[derive(Clone, Copy)]
struct Edge {
    from: usize,
    to: usize,
    line: usize,
}

/// The place of the first class that has this name.
fn place_of(classes: &[Class<'_>], name: &[u8]) -> Option<usize> {
    for (place, class) in classes.iter().enumerate() {
        if same(class.name(), name) {
            return Some(place);
        }
    }
    None
}

/// Adds what a class names.
fn add_edges(
    edges: &mut Vec<Edge>,
    classes: &[Class<'_>],
    from: usize,
    class: &Class<'_>,
) -> Result<(), AllocError> {
    for (line, naming) in class.supertypes.iter().enumerate() {
        if let Some(to) = place_of(classes, naming.name.bytes) {
            edges.push(Edge { from, to, line })?;
        }
    }
    Ok(())
}

/// What the classes name.
fn edges_of(alloc: Global, classes: &[Class<'_>]) -> Result<Vec<Edge>, AllocError> {
    let mut edges = Vec::new(alloc);
    for (from, class) in classes.iter().enumerate() {
        add_edges(&mut edges, classes, from, class)?;
    }
    Ok(edges)
}

/// How far a class is from the one at the circle's beginning; the greatest number where that isn't known.
fn distance(distances: &[usize], place: usize) -> usize {
    distances.get(place).copied().unwrap_or(usize::MAX)
}

/// Takes each edge once into the distances. Whether one has become smaller.
fn refine(distances: &mut [usize], edges: &[Edge]) -> bool {
    let mut changed = false;
    for edge in edges {
        let by_edge = distance(distances, edge.to).saturating_add(1);
        if by_edge < distance(distances, edge.from)
            && let Some(known) = distances.get_mut(edge.from)
        {
            *known = by_edge;
            changed = true;
        }
    }
    changed
}

/// How far each class is from this one, upward.
fn distances_to(
    alloc: Global,
    count: usize,
    edges: &[Edge],
    place: usize,
) -> Result<Vec<usize>, AllocError> {
    let mut distances = Vec::new(alloc);
    for other in 0..count {
        distances.push(if other == place { 0 } else { usize::MAX })?;
    }
    for _round in 0..count {
        if !refine(&mut distances, edges) {
            break;
        }
    }
    Ok(distances)
}

/// The edge from a class that leads by the shortest way to the circle's beginning.
fn best_edge(edges: &[Edge], distances: &[usize], from: usize) -> Option<Edge> {
    let mut best = None;
    let mut least = usize::MAX;
    for edge in edges {
        if edge.from == from && distance(distances, edge.to) < least {
            least = distance(distances, edge.to);
            best = Some(*edge);
        }
    }
    best
}

/// The line by which a class names another.
fn naming_of<'l, 'a>(classes: &'l [Class<'a>], edge: Edge) -> Option<&'l Naming<'a>> {
    classes.get(edge.from)?.supertypes.get(edge.line)
}

/// Says what the classes of a circle extend, from this one on.
fn say_circle(
    page: &mut Page,
    classes: &[Class<'_>],
    edges: &[Edge],
    distances: &[usize],
    start: usize,
) {
    let mut place = start;
    for _name in 0..MOST_NAMES {
        let Some(edge) = best_edge(edges, distances, place) else {
            return;
        };
        if let Some(naming) = naming_of(classes, edge) {
            page.about(" extends ", naming.name.bytes, "");
        }
        place = edge.to;
        if place == start {
            return;
        }
    }
    page.say(" ..");
}

/// Of `H3`: the line that begins the circle, and its names.
pub(crate) fn circle(
    alloc: Global,
    page: &mut Page,
    classes: &[Class<'_>],
    name: &[u8],
) -> Result<(), AllocError> {
    let edges = edges_of(alloc, classes)?;
    let start = place_of(classes, name).unwrap_or(0);
    let distances = distances_to(alloc, classes.len(), &edges, start)?;
    if let (Some(class), Some(edge)) = (classes.get(start), best_edge(&edges, &distances, start))
        && let Some(naming) = naming_of(classes, edge)
    {
        page.show_naming(class, naming);
    }
    page.about("a class is no supertype of its own: ", name, "");
    say_circle(page, classes, &edges, &distances, start);
    Ok(())
}
