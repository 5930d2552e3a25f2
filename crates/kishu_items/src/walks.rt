// Sequences that are walked item by item (Python Language Reference 3, "The for statement").
ghost use Rattle.std.specs.Prelude.{◌≡◌, ℕ, ◌∷◌, [], ◌+◌, ◌<◌, ◌≤◌, ◌^◌, IsTrue, IfOk, IfSome, length, map, option_map, option_and_then, slice_get};
ghost use Rattle.std.specs.List.{list_all};
ghost use Rattle.std.specs.Str.{chars};
ghost use Rattle.kishu_meaning.specs.declared.budget.Budget.{Budget};
ghost use Rattle.kishu_meaning.specs.values.Keys.{key_of};
ghost use Rattle.kishu_meaning.specs.values.Kinds.{not_iterable};
ghost use Rattle.kishu_meaning.specs.values.Nodes.{dict_in};
ghost use Rattle.kishu_meaning.specs.calls.Operators.{list_from, new_tuple};
ghost use Rattle.kishu_meaning.specs.moments.Moment.{Moment, fine, ◌>>=◌ as ◌⊳◌};
ghost use Rattle.kishu_meaning.specs.values.Sound.{is_sound};
ghost use Rattle.kishu_meaning.specs.values.Values as model;
ghost use Rattle.kishu_meaning.specs.values.Values.{value_of, node};
ghost use Rattle.kishu_meaning.specs.items.KeyOf.{value_of_key};
ghost use Rattle.kishu_meaning.specs.items.Walks as walks;
ghost use Rattle.kishu_meaning.specs.items.Walks.{along_range, along_text, along_tuple, entry_seen, item_for, or_none_there, seen, walk_view};
ghost use Rattle.kishu_heap.specs.Cells.{entries_of};
ghost use Rattle.kishu_heap.specs.Costs.{Reads, Spends};
ghost use Rattle.kishu_items.specs.Called.{moment_of, Gives};
ghost use Rattle.kishu_items.specs.Contents.{IsGrown};
ghost use Rattle.kishu_items.specs.Walks.{entry_for, entry_of, is_sound_walk, nodes_for, nodes_seen, view_of, walk_of};

use crate::faults::{not_iterable_text, plain_text, raise};
use crate::keys::{copied_key, value_of_key};
use crate::ranges::number_at;
use crate::sequences::{character_text, code_points, copied_all};
use indexmap::IndexMap;
use kishu_heap::{CallFault, Heap, Node, range_length};
use kishu_meaning::{Budget, ClassId, Key, NodeId, Steps, Value};
use std::alloc::{AllocError, Global};
use std::sync::ledger::Ledger;

/// What is taken of an entry of a dict.
#[derive(Clone, Copy)]
pub enum View {
    Keys,
    Values,
    Items,
}

impl View {
    ghost use Rattle.std.specs.Prelude.{◌≡◌};
    ghost use Rattle.kishu_meaning.specs.items.Walks.{view_name};
    ghost use Rattle.kishu_items.specs.Walks.{view_of};

    /// The view's name.
    pub fn name(self) -> &'static str
        ensures { result.now ≡ view_name (view_of self) }
    {
        match self {
            View::Keys => "keys",
            View::Values => "values",
            View::Items => "items",
        }
    }
}

/// What is walked.
#[derive(Drop)]
pub enum Walk {
    /// A list: each turn sees it as it is then.
    List(NodeId),
    /// A dict, with its size at the start, which must stay.
    Dict(NodeId, usize, View),
    Tuple(Vec<Value>),
    Text(Vec<char>),
    Range(i128, i128, i128),
}

// ---- what is walked

fn not_walked<L: Ledger>(
    alloc: Global,
    value: &Value,
    heap: &Heap,
    steps: &mut Steps<L>,
) -> Result<Walk, CallFault>
    requires sound { IsTrue (is_sound (length heap.now) (value_of value.now)) }
    ensures gives { (b : Budget) → Gives walk_of result (moment_of heap.now b) (not_iterable (value_of value.now) (moment_of heap.now b)) }
    ensures sound { IfOk result (λ w. IsTrue (is_sound_walk (length heap.now) (walk_of w))) }
    ensures few { IfOk result (λ w. nodes_for (walk_of w) ≤ 1) }
    ensures reads { Reads 1 steps.old steps.new }
{
    raise(
        ClassId::TYPE_ERROR,
        not_iterable_text(alloc, value, heap, steps)?,
    )
}

fn text_walk(alloc: Global, text: &str) -> Result<Walk, AllocError>
    ensures { IfOk result (λ w. walk_of w ≡ along_text (chars text.now)) }
{
    Ok(Walk::Text(code_points(alloc, text)?))
}

// The walk of a tuple, of which the items are taken now.
fn tuple_walk(alloc: Global, items: &[Value]) -> Result<Walk, AllocError>
    ensures { IfOk result (λ w. walk_of w ≡ along_tuple (map value_of items.now)) }
{
    Ok(Walk::Tuple(copied_all(alloc, items)?))
}

fn node_walk<L: Ledger>(
    alloc: Global,
    id: NodeId,
    heap: &Heap,
    steps: &mut Steps<L>,
) -> Result<Walk, CallFault>
    requires id { id.0 < length heap.now }
    ensures gives { (b : Budget) → Gives walk_of result (moment_of heap.now b) (walks.walk_of (node id.0) (moment_of heap.now b)) }
    ensures sound { IfOk result (λ w. IsTrue (is_sound_walk (length heap.now) (walk_of w))) }
    ensures few { IfOk result (λ w. nodes_for (walk_of w) ≤ 1) }
    ensures reads { Reads 2 steps.old steps.new }
{
    match heap.node(id, steps) {
        Node::List(_) => Ok(Walk::List(id)),
        Node::Tuple(items) => Ok(tuple_walk(alloc, items.as_slice())?),
        Node::Dict(entries) => Ok(Walk::Dict(id, entries.len(), View::Keys)),
        Node::Object(_) => not_walked(alloc, &Value::Node(id), heap, steps),
        Node::Function(_) => not_walked(alloc, &Value::Node(id), heap, steps),
        Node::Exception(..) => not_walked(alloc, &Value::Node(id), heap, steps),
    }
}

/// How a value is walked, or a TypeError. The items of a tuple are taken now.
pub fn walk_of<L: Ledger>(
    alloc: Global,
    value: &Value,
    heap: &Heap,
    steps: &mut Steps<L>,
) -> Result<Walk, CallFault>
    requires sound { IsTrue (is_sound (length heap.now) (value_of value.now)) }
    ensures gives { (b : Budget) → Gives walk_of result (moment_of heap.now b) (walks.walk_of (value_of value.now) (moment_of heap.now b)) }
    ensures sound { IfOk result (λ w. IsTrue (is_sound_walk (length heap.now) (walk_of w))) }
    ensures few { IfOk result (λ w. nodes_for (walk_of w) ≤ 1) }
    ensures reads { Reads 2 steps.old steps.new }
{
    match value {
        Value::Text(text) => Ok(text_walk(alloc, text.as_str())?),
        Value::Range(start, stop, step) => Ok(Walk::Range(*start, *stop, *step)),
        Value::Node(id) => node_walk(alloc, *id, heap, steps),
        Value::None => not_walked(alloc, value, heap, steps),
        Value::Bool(_) => not_walked(alloc, value, heap, steps),
        Value::Int(_) => not_walked(alloc, value, heap, steps),
        Value::Builtin(_) => not_walked(alloc, value, heap, steps),
        Value::Class(_) => not_walked(alloc, value, heap, steps),
    }
}

// The entries of a dict, where a number is that of one.
fn entries_at<'a, L: Ledger>(
    id: NodeId,
    heap: &'a Heap,
    steps: &mut Steps<L>,
) -> Option<&'a IndexMap<Key, Value>>
    ensures entries { option_map (λ m. entries_of m.now.entries) result ≡ option_and_then dict_in (slice_get heap.now id.0) }
    ensures sound { IfSome result (λ m. IsTrue (list_all (λ e. is_sound (length heap.now) e.1) (entries_of m.now.entries))) }
    ensures reads { Reads 1 steps.old steps.new }
{
    if id.0 < heap.len() {
        heap.node(id, steps).dict()
    } else {
        None
    }
}

fn size_of(entries: Option<&IndexMap<Key, Value>>) -> usize
    ensures { result ≡ length (or_none_there (option_map (λ m. entries_of m.now.entries) entries.entry)) }
{
    match entries {
        Some(entries) => entries.len(),
        None => 0,
    }
}

/// How a view of a dict is walked.
pub fn walk_view<L: Ledger>(id: NodeId, view: View, heap: &Heap, steps: &mut Steps<L>) -> Walk
    ensures gives { (b : Budget) → walk_view id.0 (view_of view) (moment_of heap.now b) ≡ fine (walk_of result) (moment_of heap.now b) }
    ensures reads { Reads 1 steps.old steps.new }
{
    Walk::Dict(id, size_of(entries_at(id, heap, steps)), view)
}

// ---- one item after another

// The value at a place, where there is one.
fn value_at(values: &[Value], k: usize) -> Result<Option<Value>, AllocError>
    ensures { IfOk result (λ o. option_map value_of o ≡ slice_get (map value_of values.now) k) }
{
    match values.get(k) {
        Some(value) => Ok(Some(value.copied()?)),
        None => Ok(None),
    }
}

// The item of a list as it is now.
fn list_item<L: Ledger>(
    id: NodeId,
    k: usize,
    heap: &Heap,
    steps: &mut Steps<L>,
) -> Result<Option<Value>, AllocError>
    requires id { id.0 < length heap.now }
    ensures item { IfOk result (λ o. option_map value_of o ≡ slice_get (or_none_there (list_from (slice_get heap.now id.0))) k) }
    ensures sound { IfOk result (λ o. IfSome o (λ v. IsTrue (is_sound (length heap.now) (value_of v)))) }
    ensures reads { Reads 1 steps.old steps.new }
{
    match heap.node(id, steps).list() {
        Some(items) => value_at(items, k),
        None => Ok(None),
    }
}

// The text of the code point at a place, where there is one.
fn character_at(alloc: Global, characters: &[char], k: usize) -> Result<Option<Value>, AllocError>
    ensures { IfOk result (λ o. option_map value_of o ≡ option_map (λ c. model.text (c ∷ [])) (slice_get characters.now k)) }
{
    match characters.get(k) {
        Some(character) => Ok(Some(character_text(alloc, *character)?)),
        None => Ok(None),
    }
}

// The number at a place of a range, where it has one.
fn number_for(start: i128, stop: i128, step: i128, k: usize) -> Option<Value>
    ensures gives { (s : Moment) → item_for (along_range start stop step) k s ≡ fine (option_map value_of result) s }
    ensures sound { (n : ℕ) → IfSome result (λ v. IsTrue (is_sound n (value_of v))) }
{
    let place = k as u128;
    if place < range_length(start, stop, step) {
        Some(Value::Int(number_at(start, stop, step, place)))
    } else {
        None
    }
}

// ---- the entries of a dict

// The entry at a place, where there is one.
fn entry_at(
    alloc: Global,
    entries: Option<&IndexMap<Key, Value>>,
    k: usize,
) -> Result<Option<(Key, Value)>, AllocError>
    ensures { IfOk result (λ o. option_map entry_of o ≡ slice_get (or_none_there (option_map (λ m. entries_of m.now.entries) entries.entry)) k) }
{
    let Some(entries) = entries else {
        return Ok(None);
    };
    match entries.get_index(k) {
        Some((key, value)) => Ok(Some((copied_key(alloc, key)?, value.copied()?))),
        None => Ok(None),
    }
}

// The entry for this turn, where there is one more. The dict must be as large as at the start.
fn entry_for<L: Ledger>(
    alloc: Global,
    id: NodeId,
    start: usize,
    k: usize,
    heap: &Heap,
    steps: &mut Steps<L>,
) -> Result<Option<(Key, Value)>, CallFault>
    ensures gives { (b : Budget) → Gives (option_map entry_of) result (moment_of heap.now b) (entry_for id.0 start k (moment_of heap.now b)) }
    ensures sound { IfOk result (λ o. IfSome o (λ e. IsTrue (is_sound (length heap.now) (value_of e.1)))) }
    ensures reads { Reads 1 steps.old steps.new }
{
    let entries = entries_at(id, heap, steps);
    if size_of(entries) != start {
        return raise(
            ClassId::RUNTIME_ERROR,
            plain_text(alloc, "dictionary changed size during iteration")?,
        );
    }
    Ok(entry_at(alloc, entries, k)?)
}

// A new tuple of two values.
fn new_pair(alloc: Global, first: Value, second: Value, heap: &mut Heap) -> Result<Value, CallFault>
    requires room { length heap.old + 1 < 2 ^ 32 }
    requires first { IsTrue (is_sound (length heap.old) (value_of first)) }
    requires second { IsTrue (is_sound (length heap.old) (value_of second)) }
    ensures gives { (b : Budget) → Gives value_of result (moment_of heap.new b) (new_tuple (value_of first ∷ value_of second ∷ []) (moment_of heap.old b)) }
    ensures sound { IfOk result (λ v. IsTrue (is_sound (length heap.new) (value_of v))) }
    ensures more { IsGrown 1 heap.old heap.new }
{
    let items = vec![in alloc; first, second]?;
    Ok(Value::Node(heap.make(Node::Tuple(items))?))
}

// A key with its value, in a new tuple.
fn pair_seen<L: Ledger>(
    alloc: Global,
    key: &Key,
    value: Value,
    heap: &mut Heap,
    budget: &mut Budget,
    steps: &mut Steps<L>,
) -> Result<Value, CallFault>
    requires room { length heap.old + 2 < 2 ^ 32 }
    requires sound { IsTrue (is_sound (length heap.old) (value_of value)) }
    ensures gives { Gives value_of result (moment_of heap.new budget.new) ((value_of_key (key_of key.now) ⊳ λ k. new_tuple (k ∷ value_of value ∷ [])) (moment_of heap.old budget.old)) }
    ensures sound { IfOk result (λ v. IsTrue (is_sound (length heap.new) (value_of v))) }
    ensures more { IsGrown 2 heap.old heap.new }
    ensures spends { Spends 0 budget.old steps.old budget.new steps.new }
{
    let first = value_of_key(alloc, key, heap, budget, steps)?;
    new_pair(alloc, first, value, heap)
}

// A key that is a tuple, and a key with its value, is a new node each time.
fn seen<L: Ledger>(
    alloc: Global,
    view: View,
    key: &Key,
    value: Value,
    heap: &mut Heap,
    budget: &mut Budget,
    steps: &mut Steps<L>,
) -> Result<Value, CallFault>
    requires room { length heap.old + 2 < 2 ^ 32 }
    requires sound { IsTrue (is_sound (length heap.old) (value_of value)) }
    ensures gives { Gives value_of result (moment_of heap.new budget.new) (seen (view_of view) (key_of key.now, value_of value) (moment_of heap.old budget.old)) }
    ensures sound { IfOk result (λ v. IsTrue (is_sound (length heap.new) (value_of v))) }
    ensures more { IsGrown (nodes_seen (view_of view)) heap.old heap.new }
    ensures spends { Spends 0 budget.old steps.old budget.new steps.new }
{
    match view {
        View::Keys => value_of_key(alloc, key, heap, budget, steps),
        View::Values => Ok(value),
        View::Items => pair_seen(alloc, key, value, heap, budget, steps),
    }
}

// What a view shows of an entry, where there is one.
fn entry_seen<L: Ledger>(
    alloc: Global,
    view: View,
    entry: Option<(Key, Value)>,
    heap: &mut Heap,
    budget: &mut Budget,
    steps: &mut Steps<L>,
) -> Result<Option<Value>, CallFault>
    requires room { length heap.old + 2 < 2 ^ 32 }
    requires sound { IfSome entry (λ e. IsTrue (is_sound (length heap.old) (value_of e.1))) }
    ensures gives { Gives (option_map value_of) result (moment_of heap.new budget.new) (entry_seen (view_of view) (option_map entry_of entry) (moment_of heap.old budget.old)) }
    ensures sound { IfOk result (λ o. IfSome o (λ v. IsTrue (is_sound (length heap.new) (value_of v)))) }
    ensures more { IsGrown (nodes_seen (view_of view)) heap.old heap.new }
    ensures spends { Spends 0 budget.old steps.old budget.new steps.new }
{
    match entry {
        Some((key, value)) => {
            let value = seen(alloc, view, &key, value, heap, budget, steps)?;
            Ok(Some(value))
        }
        None => Ok(None),
    }
}

// ---- every walk

/// The item for turn `k`, the first of which is 0, where there is one more. A key that is a tuple is
/// a new node each time and takes its length in steps, and a key with its value is a new node. A
/// dict that isn't as large as at the start is a RuntimeError.
pub fn item_for<L: Ledger>(
    alloc: Global,
    walk: &Walk,
    k: usize,
    heap: &mut Heap,
    budget: &mut Budget,
    steps: &mut Steps<L>,
) -> Result<Option<Value>, CallFault>
    requires sound { IsTrue (is_sound_walk (length heap.old) (walk_of walk.now)) }
    requires room { length heap.old + 2 < 2 ^ 32 }
    ensures gives { Gives (option_map value_of) result (moment_of heap.new budget.new) (item_for (walk_of walk.now) k (moment_of heap.old budget.old)) }
    ensures sound { IfOk result (λ o. IfSome o (λ v. IsTrue (is_sound (length heap.new) (value_of v)))) }
    ensures more { IsGrown (nodes_for (walk_of walk.now)) heap.old heap.new }
    ensures spends { Spends 1 budget.old steps.old budget.new steps.new }
{
    match walk {
        Walk::List(id) => Ok(list_item(*id, k, heap, steps)?),
        Walk::Dict(id, start, view) => {
            let entry = entry_for(alloc, *id, *start, k, heap, steps)?;
            entry_seen(alloc, *view, entry, heap, budget, steps)
        }
        Walk::Tuple(items) => Ok(value_at(items.as_slice(), k)?),
        Walk::Text(characters) => Ok(character_at(alloc, characters.as_slice(), k)?),
        Walk::Range(start, stop, step) => Ok(number_for(*start, *stop, *step, k)),
    }
}
