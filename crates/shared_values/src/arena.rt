//! Values, each named by its number.

ghost use Rattle.std.specs.Prelude.{◌≡◌, ℕ, ◌+◌, ◌-◌, ◌<◌, ◌≤◌, ◌^◌, true, [], ◌∷◌, ◌++◌, length, IfOk, IfSome, OnOk, OnErr};
ghost use Rattle.value_terms.specs.Values.{plain, add, add_one, fold_in, weight_of, total, same_value, CountsEach};
ghost use Rattle.shared_values.specs.Arenas.{value_at, made, built, Fits, AreFit, Keeps};
ghost use Rattle.shared_values.specs.declared.node.Node.TheVariants as nodes;

use crate::folding::{Folding, folding_of};
use crate::node::{Fold, Key, Node, Step, is_same, key_of};
use crate::suffix::same_sums;
use crate::walk::{node_at, rebuilt, way_back};
use std::alloc::{AllocError, Global};
use std::collections::HashMap;
use std::marker::Model;
use value_terms::{Base, Contribution, Memory, Value};

/// Values, each named by its number. Equal numbers stand for equal values, and what was made in one way once has one number.
///
/// Contracts see the list of the values; `Keeps` says that a number stands for what it stood for.
#[derive(Drop)]
pub struct Arena {
    /// How the value of each number was made.
    nodes: Vec<Node>,
    /// Where a node may stand. What it says is looked at before it is taken.
    table: HashMap<Key, usize>,
    /// For each number one that is known to stand for an equal value: a lesser one, or itself.
    alike: Vec<usize>,
    /// A number that was given last, which is often asked for next.
    last: usize,
}

impl Model for Arena {
    ghost use Rattle.std.specs.Prelude.{List, []};
    ghost use Rattle.value_terms.specs.Values as says;
    ghost use Rattle.shared_values.specs.Arenas.{built, AreFit, IsHeldArena};

    ghost Value = { List says.Value };

    ghost view = { λ a. built [] a.nodes.items };

    ghost invariant = { λ a. IsHeldArena a.nodes.items a.alike.items };
}

/// Whether a node stands at a place.
fn stands_at(nodes: &[Node], id: usize, node: Node) -> bool
    requires { AreFit [] nodes.now }
    ensures known { result ≡ true → id < length nodes.now }
    ensures same { result ≡ true
        → value_at (built [] nodes.now) id ≡ made (built [] nodes.now) node }
{
    id < nodes.len() && is_same(node_at(nodes, id), node)
}

/// The number of what came of a fold, if a place tells of that fold.
fn fold_at(nodes: &[Node], id: usize, op: u32, target: usize, source: usize) -> Option<usize>
    requires { AreFit [] nodes.now }
    ensures { IfSome result (λ new. (new < length (built [] nodes.now)) × (value_at (built [] nodes.now) new
        ≡ fold_in (value_at (built [] nodes.now) target) op (value_at (built [] nodes.now) source))) }
{
    if id >= nodes.len() {
        return None;
    }
    let Node::Folded(fold) = node_at(nodes, id) else {
        return None;
    };
    if fold.op == op && fold.target == target && fold.source == source {
        return Some(fold.result);
    }
    None
}

impl Arena {
    /// No values.
    pub fn new(alloc: Global) -> Arena
        ensures { result ≡ [] }
    {
        Arena {
            nodes: Vec::new(alloc),
            table: HashMap::new(alloc),
            alike: Vec::new(alloc),
            last: 0,
        }
    }

    /// How many numbers were given.
    pub fn len(&self) -> usize
        ensures { result ≡ length self.now }
    {
        self.nodes.as_slice().len()
    }

    /// The number of a node that was made before.
    fn found(&self, node: Node) -> Option<usize>
        ensures { IfSome result (λ id. (id < length self.now)
            × (value_at self.now id ≡ made self.now node)) }
    {
        if stands_at(&self.nodes, self.last, node) {
            return Some(self.last);
        }
        let key = key_of(node);
        let id = match self.table.get(&key) {
            Some(id) => *id,
            None => return None,
        };
        if stands_at(&self.nodes, id, node) {
            return Some(id);
        }
        None
    }

    /// The number of a node.
    fn put(&mut self, node: Node) -> Result<usize, AllocError>
        requires { Fits self.old node }
        ensures known { IfOk result (λ id. id < length self.new) }
        ensures is { IfOk result (λ id. value_at self.new id ≡ made self.old node) }
        ensures kept { Keeps self.old self.new }
    {
        if let Some(id) = self.found(node) {
            self.last = id;
            return Ok(id);
        }
        let id = self.nodes.as_slice().len();
        self.last = id;
        self.nodes.reserve(1)?;
        self.table.insert(key_of(node), id)?;
        self.alike.reserve(1)?;
        self.nodes.push(node)?;
        let itself = self.alike.as_slice().len();
        self.alike.push(itself)?;
        Ok(id)
    }

    /// The least number that is known to stand for an equal value. Each is noted with a lesser one or itself.
    fn known_alike(&self, id: usize) -> usize
        requires { id < length self.now }
        ensures known { result < length self.now }
        ensures same { value_at self.now result ≡ value_at self.now id }
    {
        let mut at = id;
        while at < self.alike.as_slice().len() {
            let less = self.alike[at];
            if less >= at {
                return at;
            }
            at = less;
        }
        at
    }

    /// Notes that a number stands for the same value as another.
    fn note_alike(&mut self, id: usize, other: usize)
        requires known { other < length self.old }
        requires same { value_at self.old other ≡ value_at self.old id }
        ensures { self.new ≡ self.old }
    {
        if id < self.alike.as_slice().len() {
            self.alike[id] = other;
        }
    }

    /// Notes that two numbers stand for the same value: the larger with the less.
    fn note_both(&mut self, a: usize, b: usize)
        requires first { a < length self.old }
        requires second { b < length self.old }
        requires same { value_at self.old a ≡ value_at self.old b }
        ensures { self.new ≡ self.old }
    {
        if a < b {
            self.note_alike(b, a);
        } else {
            self.note_alike(a, b);
        }
    }

    /// The number of a base.
    pub fn base(&mut self, base: Base) -> Result<usize, Memory>
        ensures known { IfOk result (λ id. id < length self.new) }
        ensures is { IfOk result (λ id. value_at self.new id ≡ plain base) }
        ensures kept { Keeps self.old self.new }
    {
        let id = self.put(Node::Start(base))?;
        Ok(id)
    }

    /// The number of a value with a contribution added `n` times.
    pub fn add_many(&mut self, id: usize, op: u32, c: Contribution, n: u64) -> Result<usize, Memory>
        requires known { id < length self.old }
        requires some { 1 ≤ n }
        requires fits { weight_of (value_at self.old id) + n < 2 ^ 64 }
        ensures known { IfOk result (λ new. new < length self.new) }
        ensures is { IfOk result (λ new. value_at self.new new
            ≡ add op ((c, n) ∷ []) (value_at self.old id)) }
        ensures kept { Keeps self.old self.new }
    {
        let before = self.known_alike(id);
        let step = Step {
            before,
            op,
            task: c.task,
            req: c.req,
            n,
        };
        let new = self.put(Node::More(step))?;
        Ok(new)
    }

    /// The number of a value with a contribution added once.
    pub fn add(&mut self, id: usize, op: u32, c: Contribution) -> Result<usize, Memory>
        requires known { id < length self.old }
        requires fits { weight_of (value_at self.old id) < 2 ^ 64 - 1 }
        ensures known { IfOk result (λ new. new < length self.new) }
        ensures is { IfOk result (λ new. value_at self.new new
            ≡ add_one op c (value_at self.old id)) }
        ensures kept { Keeps self.old self.new }
    {
        let new = self.add_many(id, op, c, 1)?;
        Ok(new)
    }

    /// The number of a value with entries added by an operator.
    fn add_all(
        &mut self,
        id: usize,
        op: u32,
        entries: &[(Contribution, u64)],
    ) -> Result<usize, Memory>
        requires known { id < length self.old }
        requires counts { CountsEach entries.now }
        requires fits { weight_of (value_at self.old id) + total entries.now < 2 ^ 64 }
        ensures known { IfOk result (λ new. new < length self.new) }
        ensures is { IfOk result (λ new. value_at self.new new
            ≡ add op entries.now (value_at self.old id)) }
        ensures kept { Keeps self.old self.new }
    {
        let mut at = id;
        let mut rest = entries;
        while let [entry, more @ ..] = rest {
            at = self.add_many(at, op, entry.0, entry.1)?;
            rest = more;
        }
        Ok(at)
    }

    /// The number of what came of a fold that was made before.
    fn found_fold(&self, op: u32, target: usize, source: usize) -> Option<usize>
        ensures { IfSome result (λ id. (id < length self.now) × (value_at self.now id
            ≡ fold_in (value_at self.now target) op (value_at self.now source))) }
    {
        let key = Key::Fold(op, target, source);
        let id = match self.table.get(&key) {
            Some(id) => *id,
            None => return None,
        };
        fold_at(&self.nodes, id, op, target, source)
    }

    /// The number of a value with another folded in, entry by entry.
    fn fold_anew(
        &mut self,
        alloc: Global,
        op: u32,
        target: usize,
        source: usize,
    ) -> Result<usize, Memory>
        requires target { target < length self.old }
        requires source { source < length self.old }
        requires fits { weight_of (value_at self.old target)
            + weight_of (value_at self.old source) < 2 ^ 64 }
        ensures known { IfOk result (λ new. new < length self.new) }
        ensures is { IfOk result (λ new. value_at self.new new
            ≡ fold_in (value_at self.old target) op (value_at self.old source)) }
        ensures kept { Keeps self.old self.new }
    {
        let from = self.get(alloc, source)?;
        from.rules();
        match folding_of(&from, op) {
            Folding::Nothing => Ok(target),
            Folding::Adds(entries) => {
                let new = self.add_all(target, op, entries)?;
                Ok(new)
            }
            Folding::Spoils => {
                let new = self.base(Base::Raw)?;
                Ok(new)
            }
        }
    }

    /// The number of a value with another folded in by an operator. Each fold is made once, and remembered.
    pub fn fold(
        &mut self,
        alloc: Global,
        op: u32,
        target: usize,
        source: usize,
    ) -> Result<usize, Memory>
        requires target { target < length self.old }
        requires source { source < length self.old }
        requires fits { weight_of (value_at self.old target)
            + weight_of (value_at self.old source) < 2 ^ 64 }
        ensures known { IfOk result (λ new. new < length self.new) }
        ensures is { IfOk result (λ new. value_at self.new new
            ≡ fold_in (value_at self.old target) op (value_at self.old source)) }
        ensures kept { Keeps self.old self.new }
    {
        if let Some(id) = self.found_fold(op, target, source) {
            return Ok(id);
        }
        let result = self.fold_anew(alloc, op, target, source)?;
        let fold = Fold {
            op,
            target,
            source,
            result,
        };
        self.put(Node::Folded(fold))?;
        Ok(result)
    }

    /// The value of a number.
    pub fn get(&self, alloc: Global, id: usize) -> Result<Value, Memory>
        requires { id < length self.now }
        ensures { IfOk result (λ v. v ≡ value_at self.now id) }
    {
        let way = way_back(alloc, &self.nodes, id)?;
        let value = rebuilt(alloc, way)?;
        Ok(value)
    }

    /// Whether the two values, built anew, are equal.
    fn built_same(&self, alloc: Global, a: usize, b: usize) -> Result<bool, Memory>
        requires first { a < length self.now }
        requires second { b < length self.now }
        ensures { IfOk result (λ same. same
            ≡ same_value (value_at self.now a) (value_at self.now b)) }
    {
        let v = self.get(alloc, a)?;
        let w = self.get(alloc, b)?;
        Ok(v.same(&w))
    }

    /// Whether two numbers stand for equal values: by what was added to a common one, or by the values, built anew.
    fn found_same(&self, alloc: Global, a: usize, b: usize) -> Result<bool, Memory>
        requires first { a < length self.now }
        requires second { b < length self.now }
        ensures { IfOk result (λ same. same
            ≡ same_value (value_at self.now a) (value_at self.now b)) }
    {
        if same_sums(alloc, &self.nodes, a, b)? {
            return Ok(true);
        }
        self.built_same(alloc, a, b)
    }

    /// Whether two numbers stand for equal values. Where they do, that is noted: it is found once, and what is added to either later is added to the same.
    pub fn same(&mut self, alloc: Global, a: usize, b: usize) -> Result<bool, Memory>
        requires first { a < length self.old }
        requires second { b < length self.old }
        ensures is { IfOk result (λ same. same
            ≡ same_value (value_at self.old a) (value_at self.old b)) }
        ensures kept { self.new ≡ self.old }
    {
        let x = self.known_alike(a);
        let y = self.known_alike(b);
        if x == y {
            return Ok(true);
        }
        let same = self.found_same(alloc, x, y)?;
        if same {
            self.note_both(x, y);
        }
        Ok(same)
    }
}
