// The heap.
ghost use Rattle.std.specs.Prelude.{◌≡◌, ◌+◌, ◌-◌, ◌*◌, ◌<◌, ◌≤◌, ◌^◌, ◌∷◌, [], ◌++◌, IsTrue, IfSome, IfOk, OnOk, OnErr, Some, length, map, option_map, slice_get};
ghost use Rattle.std.specs.Rc.{rc_str_bytes};
ghost use Rattle.std.specs.Vec.{vec_len};
ghost use Rattle.kishu_meaning.specs.values.Keys.{key_of};
ghost use Rattle.kishu_language.specs.tokens.Names.{is_name};
ghost use Rattle.kishu_meaning.specs.values.Values.{value_of};
ghost use Rattle.kishu_meaning.specs.values.Nodes.{on_dict, changed, found, list_in, last_item, value_under, attribute, set_item, push, pop, replace_list, insert, remove, set_attr, remove_attr};
ghost use Rattle.kishu_meaning.specs.values.Sound.{is_sound, are_sound, is_sound_node, are_sound_nodes, is_sound_heap};
ghost use Rattle.kishu_meaning.specs.comparing.Equal.{pair_equal, equal_nodes, equal_in, less_in, greater_in, room_at};
ghost use Rattle.kishu_meaning_laws.specs.EqualLaws.{value_under_equal, insert_by_values};
ghost use Rattle.kishu_heap.specs.Cells.{node_of};
ghost use Rattle.kishu_heap.specs.Compared.{Gives, Orders};
ghost use Rattle.kishu_heap.specs.Tells.{TellsOfRanges, TellsOfKeys};
ghost use Rattle.kishu_heap.specs.Costs.{Compares, Reads};

use crate::compare::{equal_pair, equal_values};
use crate::edit;
use crate::fault::CompareFault;
use crate::less::less_values;
use crate::node::Node;
use kishu_meaning::{Budget, Key, NodeId, Steps, Value};
use std::alloc::{AllocError, Global};
use std::marker::Model;
use std::rc::RcStr;
use std::sync::ledger::Ledger;

/// How deep the points under evaluation may lie.
const MOST_DEPTH: u32 = 1_000;

/// The nodes, by their numbers.
#[derive(Drop)]
pub struct Heap {
    nodes: Vec<Node>,
}

impl Model for Heap {
    ghost use Rattle.std.specs.Prelude.{◌<◌, ◌^◌, IsTrue, List, length, map};
    ghost use Rattle.kishu_meaning.specs.values.Values as model;
    ghost use Rattle.kishu_meaning.specs.values.Sound.{is_sound_heap};
    ghost use Rattle.kishu_heap.specs.Cells.{node_of};

    ghost Value = { List model.Node };

    ghost view = { λ h. map node_of h.nodes.items };

    ghost invariant = { λ h. IsTrue (is_sound_heap (map node_of h.nodes.items)) × (length h.nodes.items < 2 ^ 32) };
}

impl Heap {
    /// No nodes.
    pub fn new(alloc: Global) -> Heap
        ensures { result ≡ [] }
    {
        Heap {
            nodes: Vec::new(alloc),
        }
    }

    /// How many nodes there are.
    pub fn len(&self) -> u32
        ensures len { result ≡ length self.now }
        ensures sound { IsTrue (is_sound_heap self.now) }
    {
        self.nodes.len() as u32
    }

    /// A node. It takes one step of the counter.
    pub fn node<L: Ledger>(&self, id: NodeId, steps: &mut Steps<L>) -> &Node
        requires { id.0 < length self.now }
        ensures node { slice_get self.now id.0 ≡ Some (node_of result.now) }
        ensures sound { IsTrue (is_sound_node (length self.now) (node_of result.now)) }
        ensures counted { steps.new ≡ steps.old + 1 }
    {
        steps.tick();
        &self.nodes[id.0 as usize]
    }

    /// A node, where there is one of this number. It takes at most one step of the counter.
    pub(crate) fn node_at<L: Ledger>(&self, id: NodeId, steps: &mut Steps<L>) -> Option<&Node>
        ensures node { option_map (λ n. node_of n.now) result ≡ slice_get self.now id.0 }
        ensures reads { Reads 1 steps.old steps.new }
    {
        if id.0 < self.len() {
            Some(self.node(id, steps))
        } else {
            None
        }
    }

    /// Adds a node at the end, and answers its number. Without memory nothing changes.
    pub fn make(&mut self, node: Node) -> Result<NodeId, AllocError>
        requires room { length self.old + 1 < 2 ^ 32 }
        requires sound { IsTrue (is_sound_node (length self.old) (node_of node)) }
        ensures id { IfOk result (λ id. id.0 ≡ length self.old) }
        ensures ok { OnOk result (self.new ≡ self.old ++ node_of node ∷ []) }
        ensures err { OnErr result (self.new ≡ self.old) }
    {
        let id = NodeId(self.nodes.len() as u32);
        self.nodes.push(node)?;
        Ok(id)
    }

    /// Adds nodes at the end, which may lead to each other. Without memory nothing changes.
    pub fn make_all(&mut self, mut nodes: Vec<Node>) -> Result<(), AllocError>
        requires room { length self.old + vec_len nodes < 2 ^ 32 }
        requires sound { IsTrue (are_sound_nodes (length self.old + vec_len nodes) (map node_of nodes.items)) }
        ensures ok { OnOk result (self.new ≡ self.old ++ map node_of nodes.items) }
        ensures err { OnErr result (self.new ≡ self.old) }
    {
        if self.nodes.is_empty() {
            self.nodes = nodes;
            return Ok(());
        }
        self.nodes.append(&mut nodes)
    }

    /// Puts a value in the place of a list's item.
    pub fn set_item(&mut self, id: NodeId, at: usize, value: Value)
        requires id { id.0 < length self.old }
        requires place { IfSome (found list_in id.0 self.old) (λ vs. at < length vs) }
        requires sound { IsTrue (is_sound (length self.old) (value_of value)) }
        ensures { self.new ≡ changed (set_item at (value_of value)) id.0 self.old }
    {
        edit::set_item(&mut self.nodes[id.0 as usize], at, value);
    }

    /// Puts a value behind a list's items. Without memory nothing changes.
    pub fn push(&mut self, id: NodeId, value: Value) -> Result<(), AllocError>
        requires id { id.0 < length self.old }
        requires sound { IsTrue (is_sound (length self.old) (value_of value)) }
        ensures ok { OnOk result (self.new ≡ changed (push (value_of value)) id.0 self.old) }
        ensures err { OnErr result (self.new ≡ self.old) }
    {
        edit::push(&mut self.nodes[id.0 as usize], value)
    }

    /// Takes a list's last item off, where it has one.
    pub fn pop(&mut self, id: NodeId) -> Option<Value>
        requires { id.0 < length self.old }
        ensures value { option_map value_of result ≡ found last_item id.0 self.old }
        ensures nodes { self.new ≡ changed pop id.0 self.old }
    {
        edit::pop(&mut self.nodes[id.0 as usize])
    }

    /// Replaces all items of a list.
    pub fn replace_list(&mut self, id: NodeId, items: Vec<Value>)
        requires id { id.0 < length self.old }
        requires sound { IsTrue (are_sound (length self.old) (map value_of items.items)) }
        ensures { self.new ≡ changed (replace_list (map value_of items.items)) id.0 self.old }
    {
        edit::replace_list(&mut self.nodes[id.0 as usize], items);
    }

    /// Sets a dict's value under a key. A key that is there keeps its place and its first spelling,
    /// and a new one goes last. Without memory nothing changes.
    pub fn insert(&mut self, id: NodeId, key: Key, value: Value) -> Result<(), AllocError>
        requires id { id.0 < length self.old }
        requires sound { IsTrue (is_sound (length self.old) (value_of value)) }
        ensures ok { OnOk result (self.new ≡ changed (insert (key_of key) (value_of value)) id.0 self.old) }
        ensures keys { OnOk result (self.new ≡ changed (insert_by_values (key_of key) (value_of value)) id.0 self.old) }
        ensures err { OnErr result (self.new ≡ self.old) }
    {
        edit::insert(&mut self.nodes[id.0 as usize], key, value)
    }

    /// Takes a dict's entry out, where it has the key, and answers its value. The others keep their
    /// order.
    pub fn remove(&mut self, id: NodeId, key: &Key) -> Option<Value>
        requires { id.0 < length self.old }
        ensures value { option_map value_of result ≡ found (value_under (key_of key.now)) id.0 self.old }
        ensures keys { option_map value_of result ≡ found (value_under_equal (key_of key.now)) id.0 self.old }
        ensures nodes { self.new ≡ changed (remove (key_of key.now)) id.0 self.old }
    {
        edit::remove(&mut self.nodes[id.0 as usize], key)
    }

    /// Takes all entries of a dict out.
    pub fn clear(&mut self, id: NodeId)
        requires { id.0 < length self.old }
        ensures { self.new ≡ changed (on_dict (λ entries. [])) id.0 self.old }
    {
        edit::clear(&mut self.nodes[id.0 as usize]);
    }

    /// Sets an attribute of an object. Without memory nothing changes.
    pub fn set_attr(&mut self, id: NodeId, name: RcStr, value: Value) -> Result<(), AllocError>
        requires id { id.0 < length self.old }
        requires name { IsTrue (is_name (rc_str_bytes name)) }
        requires sound { IsTrue (is_sound (length self.old) (value_of value)) }
        ensures ok { OnOk result (self.new ≡ changed (set_attr (rc_str_bytes name) (value_of value)) id.0 self.old) }
        ensures err { OnErr result (self.new ≡ self.old) }
    {
        edit::set_attr(&mut self.nodes[id.0 as usize], name, value)
    }

    /// Takes an attribute of an object out, where it has it, and answers its value. The others keep
    /// their order.
    pub fn remove_attr(&mut self, id: NodeId, name: &str) -> Option<Value>
        requires { id.0 < length self.old }
        ensures value { option_map value_of result ≡ found (attribute name.now) id.0 self.old }
        ensures nodes { self.new ≡ changed (remove_attr name.now) id.0 self.old }
    {
        edit::remove_attr(&mut self.nodes[id.0 as usize], name)
    }

    /// Whether two values are equal (Python Language Reference 3, "Value comparisons"). Each further
    /// pair of values takes a step of the budget, and two texts the code points of the shorter.
    /// `Depth` comes where nodes lie deeper in one another than is allowed, `Spent` where no step is
    /// left.
    pub fn equal<L: Ledger>(
        &self,
        a: &Value,
        b: &Value,
        budget: &mut Budget,
        steps: &mut Steps<L>,
    ) -> Result<bool, CompareFault>
        ensures gives { Gives result budget.new.left (equal_in self.now budget.old.depth (value_of a.now) (value_of b.now) budget.old.left) }
        ensures ranges { IfOk result (TellsOfRanges (value_of a.now) (value_of b.now)) }
        ensures keys { IfOk result (TellsOfKeys self.now (value_of a.now) (value_of b.now)) }
        ensures depth { budget.new.depth ≡ budget.old.depth }
        ensures takes { Compares 8 budget.old.left steps.old budget.new.left steps.new }
    {
        let room = room_at(budget.depth);
        equal_values(self, a, b, room, &mut budget.left, steps)
    }

    /// Whether an item is a value: the same, or equal (Python Language Reference 3, "Membership test
    /// operations"). The pair takes a step of the budget. If the two are the same, only texts take
    /// more, their code points; else the steps of `equal` follow. Faults are as there.
    pub fn is_item<L: Ledger>(
        &self,
        item: &Value,
        value: &Value,
        budget: &mut Budget,
        steps: &mut Steps<L>,
    ) -> Result<bool, CompareFault>
        ensures gives { Gives result budget.new.left (pair_equal (equal_nodes self.now (room_at budget.old.depth)) (value_of item.now) (value_of value.now) budget.old.left) }
        ensures depth { budget.new.depth ≡ budget.old.depth }
        ensures takes { Compares 0 budget.old.left steps.old budget.new.left steps.new }
    {
        let room = room_at(budget.depth);
        equal_pair(self, item, value, room, &mut budget.left, steps)
    }

    /// Whether a value is less than another (Python Language Reference 3, "Value comparisons").
    /// Steps and faults are as in `equal`; `Unordered` comes where two values are reached that have
    /// no order.
    pub fn less<L: Ledger>(
        &self,
        a: &Value,
        b: &Value,
        budget: &mut Budget,
        steps: &mut Steps<L>,
    ) -> Result<bool, CompareFault>
        ensures gives { Orders result budget.new.left (less_in self.now budget.old.depth (value_of a.now) (value_of b.now) budget.old.left) }
        ensures depth { budget.new.depth ≡ budget.old.depth }
        ensures takes { Compares 8 budget.old.left steps.old budget.new.left steps.new }
    {
        let room = room_at(budget.depth);
        less_values(self, false, a, b, room, &mut budget.left, steps)
    }

    /// Whether a value is greater than another: the other is less, where of each pair of items it is asked
    /// whether the first one's equals the second one's. Steps and faults are as in `less`.
    pub fn greater<L: Ledger>(
        &self,
        a: &Value,
        b: &Value,
        budget: &mut Budget,
        steps: &mut Steps<L>,
    ) -> Result<bool, CompareFault>
        ensures gives { Orders result budget.new.left (greater_in self.now budget.old.depth (value_of a.now) (value_of b.now) budget.old.left) }
        ensures depth { budget.new.depth ≡ budget.old.depth }
        ensures takes { Compares 8 budget.old.left steps.old budget.new.left steps.new }
    {
        let room = room_at(budget.depth);
        less_values(self, true, b, a, room, &mut budget.left, steps)
    }
}

/// How many nodes may lie in one another at a depth, the outermost among them.
pub fn room_at(depth: u32) -> u32
    ensures { result ≡ room_at depth }
{
    MOST_DEPTH.saturating_sub(depth) + 1
}
