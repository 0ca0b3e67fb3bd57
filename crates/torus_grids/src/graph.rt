//! Forms near a path, and which of them are a move apart.

use crate::draws::below;
use crate::form::Form;
use grid_core::MAX_SIZE;
use indexmap::IndexSet;
use memory_core::OutOfMemory;
use rand_pcg::Pcg32;
use std::alloc::Global;

/// The forms of a graph at most, unless the path alone has more.
const ROOM: usize = 131072;

/// The distance of a form that no way was found to.
const UNKNOWN: u32 = u32::MAX;

/// Forms by number, in the order in which they came, and the moves between them that are known.
#[derive(Drop)]
pub(crate) struct Graph {
    forms: IndexSet<Form>,
    nodes: Vec<Node>,
    edges: Vec<Edge>,
}

/// What is kept of a form.
#[derive(Clone, Copy, Drop)]
struct Node {
    /// Whether its neighbours by exchanges and destabilisations are in the graph.
    is_expanded: bool,
    /// Its latest edge, counted from 1, or 0 for none.
    edge: usize,
}

/// A move from a form.
#[derive(Clone, Copy, Drop)]
struct Edge {
    to: usize,
    /// The edge of the same form that came before it, counted from 1, or 0 for none.
    before: usize,
}

impl Graph {
    /// A graph of no form.
    pub(crate) fn new(alloc: Global) -> Graph {
        Graph {
            forms: IndexSet::new(alloc),
            nodes: Vec::new(alloc),
            edges: Vec::new(alloc),
        }
    }

    /// The form of a number.
    pub(crate) fn form(&self, number: usize) -> Option<Form> {
        self.forms.get_index(number).copied()
    }

    /// The number of a form, which is put in where it isn't there.
    pub(crate) fn add(&mut self, form: Form) -> Result<usize, OutOfMemory> {
        let (number, is_new) = self.forms.insert_full(form)?;
        if is_new {
            self.nodes.push(Node {
                is_expanded: false,
                edge: 0,
            })?;
        }
        Ok(number)
    }

    /// Notes that two forms are a move apart.
    pub(crate) fn tie(&mut self, one: usize, other: usize) -> Result<(), OutOfMemory> {
        self.point(one, other)?;
        self.point(other, one)
    }

    /// Notes a move from a form.
    fn point(&mut self, from: usize, to: usize) -> Result<(), OutOfMemory> {
        let before = self.last_edge(from);
        self.edges.push(Edge { to, before })?;
        let edge = self.edges.len();
        if let Some(node) = self.nodes.get_mut(from) {
            node.edge = edge;
        }
        Ok(())
    }

    /// The latest edge of a form, counted from 1, or 0 for none.
    fn last_edge(&self, number: usize) -> usize {
        match self.nodes.get(number) {
            Some(node) => node.edge,
            None => 0,
        }
    }

    /// The edge that is counted so from 1.
    fn edge(&self, count: usize) -> Option<Edge> {
        self.edges.get(count.checked_sub(1)?).copied()
    }

    /// Whether a form's neighbours by exchanges and destabilisations are there.
    fn is_expanded(&self, number: usize) -> bool {
        match self.nodes.get(number) {
            Some(node) => node.is_expanded,
            None => true,
        }
    }

    /// Puts in the neighbours of some forms by exchanges and destabilisations, as far as there is room.
    pub(crate) fn expand_all(&mut self, numbers: &[usize]) -> Result<(), OutOfMemory> {
        for number in numbers {
            if !self.is_expanded(*number) && self.forms.len() < ROOM - 4 * MAX_SIZE {
                self.expand(*number)?;
            }
        }
        Ok(())
    }

    /// Puts in the neighbours of a form by exchanges and destabilisations.
    fn expand(&mut self, number: usize) -> Result<(), OutOfMemory> {
        if let Some(node) = self.nodes.get_mut(number) {
            node.is_expanded = true;
        }
        let Some(form) = self.form(number) else {
            return Ok(());
        };
        let torus = form.torus();
        let moves = torus.moves();
        for place in 0..moves.count() {
            let mut next = torus;
            next.make(moves.at(place));
            self.meet(number, Form::of(&next), next.size() < torus.size())?;
        }
        Ok(())
    }

    /// Puts in a neighbour. An exchange with a form that is expanded is known already, since it leads back.
    fn meet(&mut self, from: usize, form: Form, is_smaller: bool) -> Result<(), OutOfMemory> {
        let to = self.add(form)?;
        if is_smaller || !self.is_expanded(to) {
            self.tie(from, to)?;
        }
        Ok(())
    }

    /// The forms that are a move apart from some of these.
    pub(crate) fn beside(
        &self,
        alloc: Global,
        numbers: &[usize],
    ) -> Result<Vec<usize>, OutOfMemory> {
        let mut list = Vec::new(alloc);
        for number in numbers {
            self.push_neighbours(&mut list, *number)?;
        }
        Ok(list)
    }

    /// Appends the forms that are a move apart from one.
    fn push_neighbours(&self, list: &mut Vec<usize>, number: usize) -> Result<(), OutOfMemory> {
        let mut at = self.last_edge(number);
        for _edge in 0..self.edges.len() {
            let Some(edge) = self.edge(at) else {
                break;
            };
            list.push(edge.to)?;
            at = edge.before;
        }
        Ok(())
    }

    /// A shortest way from a form to another, each step drawn at random among those that come nearer.
    pub(crate) fn shortest(
        &self,
        alloc: Global,
        start: usize,
        goal: usize,
        generator: &mut Pcg32,
    ) -> Result<Vec<usize>, OutOfMemory> {
        let far = self.distances(alloc, start, goal)?;
        let mut way = Vec::new(alloc);
        way.push(start)?;
        let mut here = start;
        for _step in 0..self.nodes.len() {
            if here == goal {
                break;
            }
            here = self.nearer(here, far.as_slice(), generator);
            way.push(here)?;
        }
        Ok(way)
    }

    /// The distances of forms to the goal, as far as to the start.
    fn distances(&self, alloc: Global, start: usize, goal: usize) -> Result<Vec<u32>, OutOfMemory> {
        let mut far = vec![in alloc; UNKNOWN; self.nodes.len()]?;
        let mut queue = Vec::new(alloc);
        queue.push(goal)?;
        if let Some(distance) = far.get_mut(goal) {
            *distance = 0;
        }
        for place in 0..self.nodes.len() {
            let Some(number) = queue.get(place).copied() else {
                break;
            };
            if number == start {
                break;
            }
            self.reach(number, &mut far, &mut queue)?;
        }
        Ok(far)
    }

    /// Gives the neighbours of a form their distances where they have none yet, and appends them to the queue.
    fn reach(
        &self,
        number: usize,
        far: &mut Vec<u32>,
        queue: &mut Vec<usize>,
    ) -> Result<(), OutOfMemory> {
        let next = distance(far.as_slice(), number).saturating_add(1);
        let mut at = self.last_edge(number);
        for _edge in 0..self.edges.len() {
            let Some(edge) = self.edge(at) else {
                break;
            };
            at = edge.before;
            if let Some(place) = far.get_mut(edge.to) {
                if *place == UNKNOWN {
                    *place = next;
                    queue.push(edge.to)?;
                }
            }
        }
        Ok(())
    }

    /// One of the neighbours of a form that are nearer to the goal, or the form itself where none is.
    fn nearer(&self, here: usize, far: &[u32], generator: &mut Pcg32) -> usize {
        let mut found = here;
        let mut seen = 0u32;
        let mut at = self.last_edge(here);
        for _edge in 0..self.edges.len() {
            let Some(edge) = self.edge(at) else {
                break;
            };
            at = edge.before;
            if distance(far, edge.to) < distance(far, here) {
                seen = seen.saturating_add(1);
                found = one_of(found, edge.to, seen, generator);
            }
        }
        found
    }
}

/// The distance of a form.
fn distance(far: &[u32], number: usize) -> u32 {
    far.get(number).copied().unwrap_or(UNKNOWN)
}

/// The later of two with the chance of one in so many as were seen with it.
fn one_of(found: usize, later: usize, seen: u32, generator: &mut Pcg32) -> usize {
    if seen > 0 && below(generator, seen) == 0 {
        later
    } else {
        found
    }
}
