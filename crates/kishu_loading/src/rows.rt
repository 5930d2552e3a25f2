// Rows: the nodes of a picture.
ghost use Rattle.std.specs.Prelude.{◌≡◌, ◌≤◌, IsTrue, IfOk, OnOk, length};
ghost use Rattle.std.specs.Rc.{rc_str_bytes};
ghost use Rattle.kishu_language.specs.tokens.Names.{is_name};
ghost use Rattle.kishu_meaning.specs.values.Keys.{key_of};
ghost use Rattle.kishu_meaning.specs.values.Sound.{is_exception_class};
ghost use Rattle.kishu_heap.specs.Cells.{node_of};
ghost use Rattle.kishu_reading.specs.FromBytes as reading;
ghost use Rattle.kishu_loading.specs.Fronts.{front_of, HasRoom, Reads, GoesOn};
ghost use Rattle.kishu_loading.specs.Told.{value_in, exception_number, new_key, new_attribute, ReadsEntries, ReadsAttributes, top_of, AreSoundEntries, AreSoundAttributes, IsSoundNode, AreSoundNodes, IsNewKey, IsNewName, nodes_in};
ghost use Rattle.kishu_loading.specs.Moving.{attribute, dict_by, object_by, exception_by, row_by, rows_by};

use crate::cursor::{Cursor, Stop};
use crate::keys::key;
use crate::kinds;
use crate::values::Nodes;
use indexmap::IndexMap;
use kishu_heap::Node;
use kishu_meaning::{ClassId, Key, Value};
use std::alloc::Global;
use std::rc::RcStr;

/// An entry with a whole number as its key takes so many bytes at least.
const LEAST_ENTRY: usize = 18;

/// A row takes so many bytes at least, with the value that its node is where it is met.
const LEAST_ROW: usize = 10;

/// A key that is none of those of the entries before it.
fn new_key(alloc: Global, cursor: &mut Cursor, entries: &IndexMap<Key, Value>) -> Result<Key, Stop>
    ensures gives { Reads key_of (new_key entries.now.entries) cursor.old result cursor.new }
    ensures forward { GoesOn cursor.old result cursor.new }
    ensures absent { IfOk result (IsNewKey entries.now.entries) }
{
    let fault = cursor.fault();
    let key = key(alloc, cursor)?;
    if entries.contains_key(&key) {
        return Err(fault);
    }
    Ok(key)
}

/// An attribute's name that is none of those before it.
fn new_attribute(
    alloc: Global,
    cursor: &mut Cursor,
    attributes: &IndexMap<RcStr, Value>,
) -> Result<RcStr, Stop>
    ensures gives { Reads rc_str_bytes (new_attribute attributes.now.entries) cursor.old result cursor.new }
    ensures forward { GoesOn cursor.old result cursor.new }
    ensures name { IfOk result (λ x. IsTrue (is_name (rc_str_bytes x))) }
    ensures absent { IfOk result (IsNewName attributes.now.entries) }
{
    let fault = cursor.fault();
    let name = cursor.attribute(alloc)?;
    if attributes.contains_key(name.as_str()) {
        return Err(fault);
    }
    Ok(name)
}

impl Nodes {
    /// So many entries of a dict.
    fn entries(
        &self,
        alloc: Global,
        cursor: &mut Cursor,
        count: u32,
    ) -> Result<IndexMap<Key, Value>, Stop>
        requires { HasRoom self.now.base (front_of cursor.old) }
        ensures gives { ReadsEntries (λ m. m.entries) self.now count cursor.old result cursor.new }
        ensures forward { GoesOn cursor.old result cursor.new }
        ensures sound { IfOk result (λ m. AreSoundEntries self.now m.entries) }
    {
        let mut entries = IndexMap::with_capacity(alloc, cursor.room(count, LEAST_ENTRY))?;
        for _turn in 0..count {
            let key = new_key(alloc, cursor, &entries)?;
            let value = self.value(alloc, cursor)?;
            entries.insert(key, value)?;
        }
        Ok(entries)
    }

    /// So many attributes of an object.
    fn attributes(
        &self,
        alloc: Global,
        cursor: &mut Cursor,
        count: u32,
    ) -> Result<IndexMap<RcStr, Value>, Stop>
        requires { HasRoom self.now.base (front_of cursor.old) }
        ensures gives { ReadsAttributes (λ m. m.entries) self.now count cursor.old result cursor.new }
        ensures forward { GoesOn cursor.old result cursor.new }
        ensures sound { IfOk result (λ m. AreSoundAttributes self.now m.entries) }
    {
        let mut attributes = IndexMap::new(alloc);
        for _turn in 0..count {
            let name = new_attribute(alloc, cursor, &attributes)?;
            let value = self.value(alloc, cursor)?;
            attributes.insert(name, value)?;
        }
        Ok(attributes)
    }

    /// A dict behind its kind.
    fn dict(&self, alloc: Global, cursor: &mut Cursor) -> Result<Node, Stop>
        requires { HasRoom self.now.base (front_of cursor.old) }
        ensures gives { Reads node_of (dict_by (value_in self.now)) cursor.old result cursor.new }
        ensures forward { GoesOn cursor.old result cursor.new }
        ensures sound { IfOk result (IsSoundNode self.now) }
    {
        let count = cursor.number()?;
        Ok(Node::Dict(self.entries(alloc, cursor, count)?))
    }

    /// An object behind its kind.
    fn object(&self, alloc: Global, cursor: &mut Cursor) -> Result<Node, Stop>
        requires { HasRoom self.now.base (front_of cursor.old) }
        ensures gives { Reads node_of (object_by (value_in self.now)) cursor.old result cursor.new }
        ensures forward { GoesOn cursor.old result cursor.new }
        ensures sound { IfOk result (IsSoundNode self.now) }
    {
        let count = cursor.number()?;
        Ok(Node::Object(self.attributes(alloc, cursor, count)?))
    }

    /// An exception behind its kind.
    fn exception(&self, alloc: Global, cursor: &mut Cursor) -> Result<Node, Stop>
        requires { HasRoom self.now.base (front_of cursor.old) }
        ensures gives { Reads node_of (exception_by (value_in self.now)) cursor.old result cursor.new }
        ensures forward { GoesOn cursor.old result cursor.new }
        ensures sound { IfOk result (IsSoundNode self.now) }
    {
        let class = exception_class(cursor)?;
        Ok(Node::Exception(class, self.counted_values(alloc, cursor)?))
    }

    #[tactic(auto, unfolding(crate::specs::Moving::row_by))]
    fn row(&self, alloc: Global, cursor: &mut Cursor) -> Result<Node, Stop>
        requires { HasRoom self.now.base (front_of cursor.old) }
        ensures gives { Reads node_of (row_by (value_in self.now)) cursor.old result cursor.new }
        ensures forward { GoesOn cursor.old result cursor.new }
        ensures sound { IfOk result (IsSoundNode self.now) }
    {
        let fault = cursor.fault();
        match cursor.byte()? {
            kinds::LIST_ROW => Ok(Node::List(self.counted_values(alloc, cursor)?)),
            kinds::TUPLE_ROW => Ok(Node::Tuple(self.counted_values(alloc, cursor)?)),
            kinds::DICT_ROW => self.dict(alloc, cursor),
            kinds::OBJECT_ROW => self.object(alloc, cursor),
            kinds::FUNCTION_ROW => Ok(Node::Function(self.function(alloc, cursor)?)),
            kinds::EXCEPTION_ROW => self.exception(alloc, cursor),
            _ => Err(fault),
        }
    }

    /// So many rows. A row begins only where its node was met.
    pub(crate) fn rows(
        &self,
        alloc: Global,
        cursor: &mut Cursor,
        count: u32,
    ) -> Result<Vec<Node>, Stop>
        requires { HasRoom self.now.base (front_of cursor.old) }
        ensures gives { Reads nodes_in (rows_by (value_in self.now) count 0) cursor.old result cursor.new }
        ensures forward { GoesOn cursor.old result cursor.new }
        ensures sound { IfOk result (AreSoundNodes (top_of self.now)) }
        ensures count { IfOk result (λ v. length v.items ≡ count) }
        ensures met { OnOk result (count ≤ cursor.new.met) }
    {
        let mut rows = Vec::with_capacity(alloc, cursor.room(count, LEAST_ROW))?;
        for row in 0..count {
            if row >= cursor.met {
                return Err(cursor.fault());
            }
            let node = self.row(alloc, cursor)?;
            rows.push(node)?;
        }
        Ok(rows)
    }
}

/// The class of an exception.
fn exception_class(cursor: &mut Cursor) -> Result<ClassId, Stop>
    ensures gives { Reads (λ c. c.0) exception_number cursor.old result cursor.new }
    ensures forward { GoesOn cursor.old result cursor.new }
    ensures class { IfOk result (λ c. IsTrue (is_exception_class c.0)) }
{
    let fault = cursor.fault();
    let number = cursor.byte()?;
    if number < ClassId::EXCEPTION.0 || number > ClassId::VALUE_ERROR.0 {
        return Err(fault);
    }
    Ok(ClassId(number))
}
