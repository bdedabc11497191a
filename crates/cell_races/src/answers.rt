//! Whether nodes come after the groups that they are asked about, by the marks of one block after the other.

ghost use Rattle.std.specs.Prelude.{◌≡◌, ℕ, ◌+◌, ◌*◌, ◌<◌, IfOk, IfSome, List, length, slice_index, true};
ghost use Rattle.bit_words.specs.Bits.{has_bit};
ghost use Rattle.vocabulary.specs.Prelude.{Before, Node};
ghost use Rattle.reach_marks.specs.BlockMarks.{IsTold};
ghost use Rattle.cell_races.specs.Questions.{AreAnswered, AreInBlock, AreKnown, asked_in};

use crate::questions::{Question, Questions};
use bit_words::{no_bits, set};
use event_graph::{Graph, Order};
use reach_marks::BlockReach;
use std::alloc::{AllocError, Global};

/// Members from one place of the list on that lie in one block: those up to another place, as bits.
#[derive(Drop)]
struct InBlock {
    from: usize,
    end: usize,
    stop: usize,
    bits: [u64; 16],
}

/// Where a node stands in a block of places, if it stands in this one.
fn place_in_block(order: &Order, block: usize, node: usize) -> Option<usize>
    ensures within { IfSome result (λ i. i < 1024) }
    ensures node { IfSome result (λ i. slice_index order.now (1024 * block + i) ≡ node) }
{
    let place = order.place(node)?;
    if place / 1024 == block {
        Some(place % 1024)
    } else {
        None
    }
}

/// The members that a question asks about, up to the first that does not lie in a block.
fn members_in(questions: &Questions, order: &Order, block: usize, question: Question) -> InBlock
    ensures from { result.from ≡ question.from }
    ensures bits { AreInBlock order.now block questions.now.members.items result.bits result.from result.stop }
{
    let Question { from, end, .. } = question;
    let mut bits = no_bits();
    let mut stop = from;
    while stop < end.min(questions.members.len()) {
        let Some(i) = place_in_block(order, block, questions.members[stop]) else {
            break;
        };
        set(&mut bits, i);
        stop += 1;
    }
    InBlock {
        from,
        end,
        stop,
        bits,
    }
}

/// The same, where it was looked for last what it may be.
fn members_again(
    last: InBlock,
    questions: &Questions,
    order: &Order,
    block: usize,
    question: Question,
) -> InBlock
    requires { AreInBlock order.now block questions.now.members.items last.bits last.from last.stop }
    ensures from { result.from ≡ question.from }
    ensures bits { AreInBlock order.now block questions.now.members.items result.bits result.from result.stop }
{
    if last.from == question.from && last.end == question.end {
        last
    } else {
        members_in(questions, order, block, question)
    }
}

/// What is left of a question, where the members before one are known to be before its node.
fn left_of(question: &Question, next: usize) -> Question
    ensures { result ≡ record question.now { from = next } }
{
    Question {
        node: question.node,
        from: next,
        end: question.end,
    }
}

/// The block in which the first member stands that a question asks about, if there is one.
fn block_of(questions: &Questions, order: &Order, question: Question) -> Option<usize> {
    if question.from < question.end && question.from < questions.members.len() {
        let place = order.place(questions.members[question.from])?;
        Some(place / 1024)
    } else {
        None
    }
}

/// The later of two places.
fn later(one: Option<usize>, other: Option<usize>) -> Option<usize> {
    match (one, other) {
        (Some(a), Some(b)) => Some(a.max(b)),
        (Some(a), None) => Some(a),
        (None, b) => b,
    }
}

/// The last place of a node that is asked whether it comes after a member in a block.
fn last_asked(questions: &Questions, order: &Order, nexts: &[usize], block: usize) -> Option<usize>
    requires { length nexts.now ≡ length questions.now.asked.items }
{
    let mut last = None;
    for (k, question) in questions.asked.iter().enumerate() {
        if block_of(questions, order, left_of(question, nexts[k])) == Some(block) {
            last = later(last, order.place(question.node));
        }
    }
    last
}

/// Whether a node is found to come after the members in a block.
fn comes_after(order: &Order, reach: &BlockReach, node: usize, in_block: &InBlock) -> bool
    ensures { result ≡ true → (nodes : List Node) → IsTold nodes order.now reach.now
        → (i : ℕ) → i < 1024 → has_bit in_block.now.bits i ≡ true
        → Before nodes (slice_index order.now (1024 * reach.now.block + i)) node }
{
    match order.place(node) {
        Some(place) => reach.has_all(place, &in_block.bits),
        None => false,
    }
}

/// Goes on with each question whose next members lie in a block. Whether all of them are found to be before its node.
fn answer_block(
    questions: &Questions,
    order: &Order,
    reach: &BlockReach,
    block: usize,
    nexts: &mut Vec<usize>,
) -> bool
    requires block { reach.now.block ≡ block }
    requires each { length nexts.old.items ≡ length questions.now.asked.items }
    ensures each { length nexts.new.items ≡ length questions.now.asked.items }
    ensures known { (nodes : List Node) → IsTold nodes order.now reach.now
        → AreKnown nodes questions.now nexts.old.items → AreKnown nodes questions.now nexts.new.items }
{
    let mut in_block = InBlock {
        from: 0,
        end: 0,
        stop: 0,
        bits: no_bits(),
    };
    for (k, question) in questions.asked.iter().enumerate() {
        let left = left_of(question, nexts[k]);
        if block_of(questions, order, left) == Some(block) {
            in_block = members_again(in_block, questions, order, block, left);
            if !comes_after(order, reach, left.node, &in_block) {
                return false;
            }
            nexts[k] = in_block.stop;
        }
    }
    true
}

/// Where the group of each question begins.
fn first_members(alloc: Global, questions: &Questions) -> Result<Vec<usize>, AllocError>
    ensures { IfOk result (λ nexts. (nodes : List Node) → AreKnown nodes questions.now nexts.items) }
{
    let mut nexts = Vec::with_capacity(alloc, questions.asked.len())?;
    for question in questions.asked.as_slice() {
        nexts.push(question.from)?;
    }
    Ok(nexts)
}

/// Whether each question is answered to the end of its group.
fn are_done(questions: &Questions, nexts: &[usize]) -> bool
    requires { length nexts.now ≡ length questions.now.asked.items }
    ensures { result ≡ true → (nodes : List Node) → AreKnown nodes questions.now nexts.now → AreAnswered nodes (asked_in questions.now) }
{
    for (k, question) in questions.asked.iter().enumerate() {
        if nexts[k] < question.end {
            return false;
        }
    }
    true
}

/// Whether each node is found to come after the group that it is asked about. The marks of one block are there at a time, for the blocks in which members stand.
pub(crate) fn are_answered(
    alloc: Global,
    graph: &Graph,
    order: &Order,
    questions: &Questions,
) -> Result<bool, AllocError>
    ensures { IfOk result (λ all. all ≡ true → AreAnswered graph.now (asked_in questions.now)) }
{
    let mut nexts = first_members(alloc, questions)?;
    let count = order.as_slice().len();
    for block in 0..count.div_ceil(1024) {
        if let Some(last) = last_asked(questions, order, nexts.as_slice(), block) {
            let reach = BlockReach::build(alloc, graph, order, block, last)?;
            if !answer_block(questions, order, &reach, block, &mut nexts) {
                return Ok(false);
            }
        }
    }
    Ok(are_done(questions, nexts.as_slice()))
}
