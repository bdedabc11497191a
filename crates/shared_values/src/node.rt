//! How a value was made.

ghost use Rattle.std.specs.Prelude.{◌≡◌};
ghost use Rattle.shared_values.specs.Arenas.{same_node};

use std::hash::Hash;
use value_terms::Base;

/// A contribution that is added to an earlier value.
#[derive(Clone, Copy, PartialEq, Eq, PartialOrd, Ord, Hash)]
pub struct Step {
    /// The number of the value.
    pub before: usize,
    /// The operator.
    pub op: u32,
    /// The task of the contribution.
    pub task: u32,
    /// Its requirement.
    pub req: u32,
    /// How often it is added.
    pub n: u64,
}

/// What a step adds by an operator that is known.
#[derive(Clone, Copy, PartialEq, Eq, PartialOrd, Ord)]
pub struct Entry {
    /// The task of the contribution.
    pub task: u32,
    /// Its requirement.
    pub req: u32,
    /// How often it is added.
    pub n: u64,
}

/// A value that was folded into another, and what came of it.
#[derive(Clone, Copy, PartialEq, Eq)]
pub struct Fold {
    /// The operator.
    pub op: u32,
    /// The number of the value that is folded into.
    pub target: usize,
    /// The number of the one that is folded in.
    pub source: usize,
    /// The number of what comes of it.
    pub result: usize,
}

/// How a value was made.
#[derive(Clone, Copy, PartialEq, Eq)]
pub enum Node {
    /// A base, to which nothing was added.
    Start(Base),
    /// A value with a contribution added.
    More(Step),
    /// The result of a fold again, by which the fold is remembered.
    Folded(Fold),
}

/// What a node is looked up by.
#[derive(Clone, Copy, PartialEq, Eq, Hash)]
pub enum Key {
    Raw,
    Init,
    Ident,
    Const(u32),
    Out(u32),
    More(Step),
    Fold(u32, usize, usize),
}

/// The key of a node.
pub fn key_of(node: Node) -> Key {
    match node {
        Node::Start(Base::Raw) => Key::Raw,
        Node::Start(Base::Init) => Key::Init,
        Node::Start(Base::Ident) => Key::Ident,
        Node::Start(Base::Const(n)) => Key::Const(n),
        Node::Start(Base::Out(t)) => Key::Out(t),
        Node::More(step) => Key::More(step),
        Node::Folded(fold) => Key::Fold(fold.op, fold.target, fold.source),
    }
}

/// Whether two nodes are the same.
pub fn is_same(one: Node, other: Node) -> bool
    ensures { result ≡ same_node one other }
{
    match (one, other) {
        (Node::Start(base), Node::Start(with)) => base == with,
        (Node::More(step), Node::More(with)) => {
            step.before == with.before
                && step.op == with.op
                && step.task == with.task
                && step.req == with.req
                && step.n == with.n
        }
        _ => false,
    }
}
