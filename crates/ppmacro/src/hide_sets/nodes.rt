//! Sets of numbers as nodes of a trie of 64-bit words.
//!
//! A node has one word of the set, for 64 numbers, and the numbers of two other nodes for the words after it: those with an odd
//! index are in the left one, and those with an even index in the right one. So a set with a large number has few nodes, and sets
//! share their common parts. Node 0 is the empty set, whose parts are itself.
//!
//! A node is added only if there is none like it. So equal sets have equal numbers, and a set that exists is found without a
//! change of the pool. An operation on two sets works node by node. Its result is cached for the whole sets alone: parts are few,
//! and most are empty or equal, which needs no lookup.
//!
//! Numbers of nodes have 32 bits. A pool that is full refuses new nodes, like a failed allocation, and still finds the others.
ghost use Rattle.std.specs.Prelude.{◌≡◌, Some, None, Ok, ◌<◌, ◌||◌, ◌+◌, ◌*◌, ℕ, IfOk, OnErr, ◌≤◌, [], length, nat_eq};
ghost use Rattle.std.specs.Int.RustNames.{bit_or};
ghost use Rattle.std.specs.HashSet.{hasher_of};
ghost use Rattle.ppmacro.specs.code.Nodes.{node_at, word, word_with, member, IsPool, KeepsNodes, PointsBelow, IsBounded, initial_nodes};
ghost use Rattle.ppmacro.specs.code.Operations.{member_rule, word_rule, known};
ghost use Rattle.ppmacro.specs.PairCache.{union_known, intersection_known, KeepsPairs};
ghost use Rattle.ppmacro.specs.code.PoolInvariant.{AreCachedResults};

use super::pair_cache::PairCache;
use indexmap::IndexSet;
use pptext::{Hashing, Memory};
use std::alloc::Global;
use std::marker::Model;

/// The number of members that a word holds. The number n is bit n % 64 of the word n / 64.
const WORD_BITS: usize = 64;

/// The maximum number of nodes. A new node beyond it fails like an allocation.
const MAX_NODES: usize = 0xFFFF_FFFF;

/// A set of numbers. Word 0 of the set is `here`. Word 2w + 1 is word w of the set with the number `left`, and word 2w + 2 is
/// word w of the set with the number `right`.
#[derive(Clone, Copy, PartialEq, Eq, Hash)]
pub(crate) struct Node {
    here: u64,
    left: u32,
    right: u32,
}

impl Model for Node {
    ghost use Rattle.ppmacro.specs.code.Nodes.{Node};

    ghost Value = { Node };

    ghost view = { λ n. record { here = n.here; left = n.left; right = n.right } };

    ghost inverse = { λ n. record { here = n.here; left = n.left; right = n.right } };
}

/// The two operations on sets: union and intersection.
#[derive(Clone, Copy)]
pub(crate) enum OperationKind {
    Union,
    Intersection,
}

/// An operation on two sets.
#[derive(Clone, Copy)]
pub(crate) struct Operation {
    pub(crate) kind: OperationKind,
}

impl Model for Operation {
    ghost use Rattle.std.specs.Prelude.{◌≡◌, refl};
    ghost use Rattle.ppmacro.specs.code.Operations as specification;
    ghost use Rattle.ppmacro.specs.declared.hide_sets.nodes.OperationKind.TheVariants.{Union, Intersection};

    ghost Value = { specification.Operation };

    ghost view = { λ o. elim o.kind [ Union ↦ specification.Union | Intersection ↦ specification.Intersection ] };

    ghost inverse = { λ o. record { kind = elim o [ specification.Union ↦ Union | specification.Intersection ↦ Intersection ] } };

    ghost inverse_ok = { λ o h. elim o.kind as (λ k. inverse (view (record { kind = k })) ≡ record { kind = k }) [ Union ↦ refl | Intersection ↦ refl ] };
}

impl Operation {
    /// Combines two words of members.
    fn combine_words(self, left: u64, right: u64) -> u64
        ensures { result ≡ word_rule self left right }
    {
        match self.kind {
            OperationKind::Union => left | right,
            OperationKind::Intersection => left & right,
        }
    }
}

/// Creates a pool with only the empty set. Nodes are hashed with `hashing`.
pub(crate) fn start(alloc: Global, hashing: Hashing) -> Result<IndexSet<Node, Hashing>, Memory>
    ensures pool { IfOk result (λ s. IsPool s.keys) }
    ensures bounded { IfOk result (λ s. IsBounded 0 s.keys) }
    ensures is { IfOk result (λ s. s.keys ≡ initial_nodes) }
    ensures hashing { IfOk result (λ s. hasher_of s ≡ hashing) }
{
    let mut nodes = IndexSet::with_hasher(alloc, hashing);
    let none = Node {
        here: 0,
        left: 0,
        right: 0,
    };
    let Ok(_) = nodes.insert_full(none) else {
        return Err(Memory);
    };
    Ok(nodes)
}

/// Returns the node with this number.
fn read(nodes: &IndexSet<Node, Hashing>, number: u32) -> Node
    requires { number < length nodes.now.keys }
    ensures { result ≡ node_at nodes.now.keys number }
{
    nodes.as_slice()[number as usize]
}

/// Returns the number of an existing node. Used once the pool is full.
#[inline(never)]
fn existing_number(nodes: &IndexSet<Node, Hashing>, node: Node) -> Result<u32, Memory>
    requires { IsPool nodes.now.keys }
    ensures known { IfOk result (λ n. n < length nodes.now.keys) }
    ensures is { IfOk result (λ n. node_at nodes.now.keys n ≡ node) }
    ensures there { (n : ℕ) → n < length nodes.now.keys → node_at nodes.now.keys n ≡ node → result ≡ Ok n }
{
    let Some(number) = nodes.get_index_of(&node) else {
        return Err(Memory);
    };
    Ok(number as u32)
}

/// Returns the number of a node. Adds the node if it is new.
fn number_for(nodes: &mut IndexSet<Node, Hashing>, node: Node) -> Result<u32, Memory>
    requires pool { IsPool nodes.old.keys }
    requires within { PointsBelow (length nodes.old.keys) node }
    ensures pool { IsPool nodes.new.keys }
    ensures keeps { KeepsNodes nodes.old.keys nodes.new.keys }
    ensures hashing { hasher_of nodes.new ≡ hasher_of nodes.old }
    ensures known { IfOk result (λ n. n < length nodes.new.keys) }
    ensures is { IfOk result (λ n. node_at nodes.new.keys n ≡ node) }
    ensures fresh { IfOk result (λ m. (n : ℕ) → length nodes.old.keys ≤ n → n < length nodes.new.keys → n ≡ m) }
    ensures err { OnErr result (nodes.new.keys ≡ nodes.old.keys) }
    ensures there { (n : ℕ) → n < length nodes.old.keys → node_at nodes.old.keys n ≡ node → (result ≡ Ok n) × (nodes.new.keys ≡ nodes.old.keys) }
{
    if nodes.len() >= MAX_NODES {
        return existing_number(nodes, node);
    }
    let Ok((number, _)) = nodes.insert_full(node) else {
        return Err(Memory);
    };
    Ok(number as u32)
}

/// Returns the number of a node. Looks at the nodes of two sets first, because the node may be one of them.
fn reuse_or_number(
    nodes: &mut IndexSet<Node, Hashing>,
    node: Node,
    one: u32,
    two: u32,
) -> Result<u32, Memory>
    requires pool { IsPool nodes.old.keys }
    requires within { PointsBelow (length nodes.old.keys) node }
    requires one { one < length nodes.old.keys }
    requires two { two < length nodes.old.keys }
    ensures pool { IsPool nodes.new.keys }
    ensures keeps { KeepsNodes nodes.old.keys nodes.new.keys }
    ensures hashing { hasher_of nodes.new ≡ hasher_of nodes.old }
    ensures known { IfOk result (λ n. n < length nodes.new.keys) }
    ensures is { IfOk result (λ n. node_at nodes.new.keys n ≡ node) }
    ensures fresh { IfOk result (λ m. (n : ℕ) → length nodes.old.keys ≤ n → n < length nodes.new.keys → n ≡ m) }
    ensures err { OnErr result (nodes.new.keys ≡ nodes.old.keys) }
    ensures there { (n : ℕ) → n < length nodes.old.keys → node_at nodes.old.keys n ≡ node → (result ≡ Ok n) × (nodes.new.keys ≡ nodes.old.keys) }
{
    if read(nodes, one) == node {
        return Ok(one);
    }
    if read(nodes, two) == node {
        return Ok(two);
    }
    number_for(nodes, node)
}

/// Returns a word of a set.
fn word_of(nodes: &IndexSet<Node, Hashing>, set: u32, index: usize) -> u64
    requires pool { IsPool nodes.now.keys }
    requires known { set < length nodes.now.keys }
    ensures { result ≡ word nodes.now.keys set index }
{
    let mut at = set;
    let mut rest = index;
    while rest > 0 {
        let node = read(nodes, at);
        rest -= 1;
        at = if rest % 2 == 0 { node.left } else { node.right };
        rest /= 2;
    }
    read(nodes, at).here
}

/// Returns whether a set contains a number.
pub(crate) fn has(nodes: &IndexSet<Node, Hashing>, set: u32, number: usize) -> bool
    requires pool { IsPool nodes.now.keys }
    requires known { set < length nodes.now.keys }
    ensures { result ≡ member nodes.now.keys set number }
{
    let bits = word_of(nodes, set, number / WORD_BITS);
    bits >> (number % WORD_BITS) & 1 == 1
}

/// Returns the set with one more member.
pub(crate) fn insert(
    nodes: &mut IndexSet<Node, Hashing>,
    set: u32,
    number: usize,
) -> Result<u32, Memory>
    requires pool { IsPool nodes.old.keys }
    requires known { set < length nodes.old.keys }
    ensures pool { IsPool nodes.new.keys }
    ensures keeps { KeepsNodes nodes.old.keys nodes.new.keys }
    ensures hashing { hasher_of nodes.new ≡ hasher_of nodes.old }
    ensures known { IfOk result (λ n. n < length nodes.new.keys) }
    ensures bounded { (limit : ℕ) → number < limit → IsBounded limit nodes.old.keys → IsBounded limit nodes.new.keys }
    ensures set { IfOk result (λ n. (x : ℕ) → member nodes.new.keys n x ≡ (nat_eq x number || member nodes.old.keys set x)) }
    ensures there { (n : ℕ) → n < length nodes.old.keys → ((x : ℕ) → member nodes.old.keys n x ≡ (nat_eq x number || member nodes.old.keys set x))
        → (result ≡ Ok n) × (nodes.new.keys ≡ nodes.old.keys) }
{
    let more = insert_bit(nodes, set, number / WORD_BITS, number % WORD_BITS)?;
    Ok(more)
}

/// Returns the set with one more bit in the word with this index.
fn insert_bit(
    nodes: &mut IndexSet<Node, Hashing>,
    set: u32,
    index: usize,
    bit: usize,
) -> Result<u32, Memory>
    requires pool { IsPool nodes.old.keys }
    requires known { set < length nodes.old.keys }
    requires bit { bit < 64 }
    ensures pool { IsPool nodes.new.keys }
    ensures keeps { KeepsNodes nodes.old.keys nodes.new.keys }
    ensures hashing { hasher_of nodes.new ≡ hasher_of nodes.old }
    ensures known { IfOk result (λ n. n < length nodes.new.keys) }
    ensures bounded { (limit : ℕ) → index * 64 + bit < limit → IsBounded limit nodes.old.keys → IsBounded limit nodes.new.keys }
    ensures set { IfOk result (λ n. (w : ℕ) → word nodes.new.keys n w ≡ bit_or (word nodes.old.keys set w) (word_with index bit w)) }
    ensures there { (n : ℕ) → n < length nodes.old.keys → ((w : ℕ) → word nodes.old.keys n w ≡ bit_or (word nodes.old.keys set w) (word_with index bit w))
        → (result ≡ Ok n) × (nodes.new.keys ≡ nodes.old.keys) }
{
    let node = read(nodes, set);
    if index == 0 {
        let here = node.here | 1 << bit;
        let whole = number_for(nodes, Node { here, ..node })?;
        return Ok(whole);
    }
    let rest = index - 1;
    if rest % 2 == 0 {
        let left = insert_bit(nodes, node.left, rest / 2, bit)?;
        let odd = number_for(nodes, Node { left, ..node })?;
        Ok(odd)
    } else {
        let right = insert_bit(nodes, node.right, rest / 2, bit)?;
        let even = number_for(nodes, Node { right, ..node })?;
        Ok(even)
    }
}

/// Returns the union if a set is empty or both are equal.
fn trivial_union(one: u32, two: u32) -> Option<u32>
    ensures { result ≡ union_known [] one two }
{
    if one == 0 {
        return Some(two);
    }
    if two == 0 || one == two {
        return Some(one);
    }
    None
}

/// Returns the intersection if a set is empty or both are equal.
fn trivial_meet(one: u32, two: u32) -> Option<u32>
    ensures { result ≡ intersection_known [] one two }
{
    if one == 0 {
        return Some(one);
    }
    if two == 0 {
        return Some(two);
    }
    if one == two {
        return Some(one);
    }
    None
}

/// Returns the result of an operation if a set is empty or both are equal.
fn trivial_result(operation: Operation, one: u32, two: u32) -> Option<u32>
    ensures { result ≡ known operation [] one two }
{
    match operation.kind {
        OperationKind::Union => trivial_union(one, two),
        OperationKind::Intersection => trivial_meet(one, two),
    }
}

/// Returns the result of an operation if it is trivial or cached.
fn known(pairs: &PairCache, operation: Operation, one: u32, two: u32) -> Option<u32>
    ensures { result ≡ known operation pairs.now.results one two }
{
    match trivial_result(operation, one, two) {
        Some(number) => Some(number),
        None => pairs.get(one, two),
    }
}

/// Computes the result of an operation word by word. Most parts are trivial and need no call.
#[cycle(making)]
#[inline(always)]
fn compute(
    nodes: &mut IndexSet<Node, Hashing>,
    operation: Operation,
    one: u32,
    two: u32,
) -> Result<u32, Memory>
    requires pool { IsPool nodes.old.keys }
    requires one { one < length nodes.old.keys }
    requires two { two < length nodes.old.keys }
    ensures pool { IsPool nodes.new.keys }
    ensures keeps { KeepsNodes nodes.old.keys nodes.new.keys }
    ensures hashing { hasher_of nodes.new ≡ hasher_of nodes.old }
    ensures known { IfOk result (λ n. n < length nodes.new.keys) }
    ensures bounded { (limit : ℕ) → IsBounded limit nodes.old.keys → IsBounded limit nodes.new.keys }
    ensures set { IfOk result (λ n. (w : ℕ) → word nodes.new.keys n w ≡ word_rule operation (word nodes.old.keys one w) (word nodes.old.keys two w)) }
    ensures there { (n : ℕ) → n < length nodes.old.keys
        → ((w : ℕ) → word nodes.old.keys n w ≡ word_rule operation (word nodes.old.keys one w) (word nodes.old.keys two w))
        → (result ≡ Ok n) × (nodes.new.keys ≡ nodes.old.keys) }
{
    match trivial_result(operation, one, two) {
        Some(number) => Ok(number),
        None => compute_node(nodes, operation, one, two),
    }
}

/// Computes the result of an operation if no set is empty and the sets differ.
#[cycle(making)]
#[inline(never)]
fn compute_node(
    nodes: &mut IndexSet<Node, Hashing>,
    operation: Operation,
    one: u32,
    two: u32,
) -> Result<u32, Memory>
    requires pool { IsPool nodes.old.keys }
    requires one { one < length nodes.old.keys }
    requires two { two < length nodes.old.keys }
    requires unsettled { known operation [] one two ≡ None }
    ensures pool { IsPool nodes.new.keys }
    ensures keeps { KeepsNodes nodes.old.keys nodes.new.keys }
    ensures hashing { hasher_of nodes.new ≡ hasher_of nodes.old }
    ensures known { IfOk result (λ n. n < length nodes.new.keys) }
    ensures bounded { (limit : ℕ) → IsBounded limit nodes.old.keys → IsBounded limit nodes.new.keys }
    ensures set { IfOk result (λ n. (w : ℕ) → word nodes.new.keys n w ≡ word_rule operation (word nodes.old.keys one w) (word nodes.old.keys two w)) }
    ensures there { (n : ℕ) → n < length nodes.old.keys
        → ((w : ℕ) → word nodes.old.keys n w ≡ word_rule operation (word nodes.old.keys one w) (word nodes.old.keys two w))
        → (result ≡ Ok n) × (nodes.new.keys ≡ nodes.old.keys) }
{
    let first = read(nodes, one);
    let second = read(nodes, two);
    let left = compute(nodes, operation, first.left, second.left)?;
    let right = compute(nodes, operation, first.right, second.right)?;
    let here = operation.combine_words(first.here, second.here);
    let both = reuse_or_number(nodes, Node { here, left, right }, one, two)?;
    Ok(both)
}

/// Returns the result of an operation, and caches it.
pub(crate) fn combine(
    nodes: &mut IndexSet<Node, Hashing>,
    pairs: &mut PairCache,
    operation: Operation,
    one: u32,
    two: u32,
) -> Result<u32, Memory>
    requires pool { IsPool nodes.old.keys }
    requires results { AreCachedResults (member_rule operation) nodes.old.keys pairs.old.results }
    requires one { one < length nodes.old.keys }
    requires two { two < length nodes.old.keys }
    ensures pool { IsPool nodes.new.keys }
    ensures keeps { KeepsNodes nodes.old.keys nodes.new.keys }
    ensures hashing { hasher_of nodes.new ≡ hasher_of nodes.old }
    ensures pairs { KeepsPairs pairs.old.results pairs.new.results }
    ensures pairs_hashing { pairs.new.hashing ≡ pairs.old.hashing }
    ensures results { AreCachedResults (member_rule operation) nodes.new.keys pairs.new.results }
    ensures known { IfOk result (λ n. n < length nodes.new.keys) }
    ensures bounded { (limit : ℕ) → IsBounded limit nodes.old.keys → IsBounded limit nodes.new.keys }
    ensures set { IfOk result (λ n. (x : ℕ) → member nodes.new.keys n x ≡ member_rule operation (member nodes.old.keys one x) (member nodes.old.keys two x)) }
    ensures remembered { IfOk result (λ n. known operation pairs.new.results one two ≡ Some n) }
    ensures if_cached { (n : ℕ) → known operation pairs.old.results one two ≡ Some n → (result ≡ Ok n) × (pairs.new ≡ pairs.old) × (nodes.new.keys ≡ nodes.old.keys) }
    ensures there { (n : ℕ) → n < length nodes.old.keys
        → ((x : ℕ) → member nodes.old.keys n x ≡ member_rule operation (member nodes.old.keys one x) (member nodes.old.keys two x))
        → IfOk result (λ m. m ≡ n) × (nodes.new.keys ≡ nodes.old.keys) × OnErr result (pairs.new ≡ pairs.old) }
{
    match known(pairs, operation, one, two) {
        Some(number) => Ok(number),
        None => {
            let both = compute(nodes, operation, one, two)?;
            pairs.put(one, two, both)?;
            Ok(both)
        }
    }
}
