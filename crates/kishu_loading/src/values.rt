// Values.
ghost use Rattle.std.specs.Prelude.{◌≡◌, ◌+◌, ◌<◌, ℕ, IfOk, length};
ghost use Rattle.kishu_meaning.specs.values.Sound.{builtins, classes};
ghost use Rattle.kishu_meaning.specs.values.Values.{value_of, node};
ghost use Rattle.kishu_reading.specs.FromBytes.{repeated};
ghost use Rattle.kishu_loading.specs.Fronts.{front_of, HasRoom, Reads, GoesOn};
ghost use Rattle.kishu_loading.specs.Told.{value_in, number_in, builtin_number, class_number, top_of, LeadsAmong, IsSoundValue, AreSoundValues, values_in, id_value};
ghost use Rattle.kishu_loading.specs.Moving.{is_there, moved_value, values_by, range_by};

use crate::cursor::{Cursor, Stop};
use crate::kinds;
use kishu_meaning::{Builtin, ClassId, NodeId, Value};
use std::alloc::Global;

/// For so many values at most there is room from the start: a number that bytes tell may be false.
const FEW: u32 = 16;

/// The nodes of a picture that is read into a heap.
#[derive(Clone, Copy, Debug, PartialEq, Eq, Drop)]
pub(crate) struct Nodes {
    /// How many nodes the heap has: the numbers of the picture's nodes go behind theirs.
    pub(crate) base: u32,
    /// How many the picture has. None while its names are read, which stand before that number.
    pub(crate) count: Option<u32>,
}

impl Nodes {
    fn is_there(&self, number: u32) -> bool
        ensures { result ≡ is_there self.now.count number }
    {
        match self.count {
            Some(count) => number < count,
            None => true,
        }
    }

    /// The number of a node: at most that of the nodes met so far, of which there is one more then.
    fn node(&self, cursor: &mut Cursor) -> Result<NodeId, Stop>
        requires { HasRoom self.now.base (front_of cursor.old) }
        ensures gives { Reads id_value (number_in self.now) cursor.old result cursor.new }
        ensures forward { GoesOn cursor.old result cursor.new }
        ensures below { IfOk result (λ id. id.0 < top_of self.now) }
        ensures met { IfOk result (λ id. id.0 < self.now.base + cursor.new.met) }
    {
        let fault = cursor.fault();
        let number = cursor.number()?;
        if number > cursor.met || !self.is_there(number) {
            return Err(fault);
        }
        if number == cursor.met {
            cursor.met += 1;
        }
        Ok(NodeId(self.base + number))
    }

    #[tactic(auto, unfolding(crate::specs::Moving::moved_value))]
    pub(crate) fn value(&self, alloc: Global, cursor: &mut Cursor) -> Result<Value, Stop>
        requires { HasRoom self.now.base (front_of cursor.old) }
        ensures gives { Reads value_of (value_in self.now) cursor.old result cursor.new }
        ensures forward { GoesOn cursor.old result cursor.new }
        ensures sound { IfOk result (IsSoundValue self.now) }
        ensures met { IfOk result (LeadsAmong (self.now.base + cursor.new.met)) }
    {
        let fault = cursor.fault();
        match cursor.byte()? {
            kinds::NONE => Ok(Value::None),
            kinds::FALSE => Ok(Value::Bool(false)),
            kinds::TRUE => Ok(Value::Bool(true)),
            kinds::INT => Ok(Value::Int(cursor.whole_number()?)),
            kinds::TEXT => Ok(Value::Text(cursor.text(alloc)?)),
            kinds::RANGE => range(cursor),
            kinds::BUILTIN => Ok(Value::Builtin(builtin(cursor)?)),
            kinds::CLASS => Ok(Value::Class(class(cursor)?)),
            kinds::NODE => Ok(Value::Node(self.node(cursor)?)),
            _ => Err(fault),
        }
    }

    /// So many values.
    pub(crate) fn values(
        &self,
        alloc: Global,
        cursor: &mut Cursor,
        count: u32,
    ) -> Result<Vec<Value>, Stop>
        requires { HasRoom self.now.base (front_of cursor.old) }
        ensures gives { Reads values_in (repeated count (value_in self.now)) cursor.old result cursor.new }
        ensures forward { GoesOn cursor.old result cursor.new }
        ensures sound { IfOk result (AreSoundValues self.now) }
        ensures count { IfOk result (λ v. length v.items ≡ count) }
    {
        let mut values = Vec::with_capacity(alloc, count.min(FEW) as usize)?;
        for _turn in 0..count {
            let value = self.value(alloc, cursor)?;
            values.push(value)?;
        }
        Ok(values)
    }

    /// Values behind their number.
    pub(crate) fn counted_values(
        &self,
        alloc: Global,
        cursor: &mut Cursor,
    ) -> Result<Vec<Value>, Stop>
        requires { HasRoom self.now.base (front_of cursor.old) }
        ensures gives { Reads values_in (values_by (value_in self.now)) cursor.old result cursor.new }
        ensures forward { GoesOn cursor.old result cursor.new }
        ensures sound { IfOk result (AreSoundValues self.now) }
    {
        let count = cursor.number()?;
        self.values(alloc, cursor, count)
    }
}

/// A range, whose step isn't 0.
fn range(cursor: &mut Cursor) -> Result<Value, Stop>
    ensures gives { Reads value_of range_by cursor.old result cursor.new }
    ensures forward { GoesOn cursor.old result cursor.new }
    ensures sound { (n : ℕ) → IfOk result (LeadsAmong n) }
{
    let start = cursor.whole_number()?;
    let stop = cursor.whole_number()?;
    let fault = cursor.fault();
    let step = cursor.whole_number()?;
    if step == 0 {
        return Err(fault);
    }
    Ok(Value::Range(start, stop, step))
}

fn builtin(cursor: &mut Cursor) -> Result<Builtin, Stop>
    ensures gives { Reads (λ b. b.0) builtin_number cursor.old result cursor.new }
    ensures forward { GoesOn cursor.old result cursor.new }
    ensures there { IfOk result (λ b. b.0 < builtins) }
{
    let fault = cursor.fault();
    let number = cursor.byte()?;
    if number > Builtin::SUM.0 {
        return Err(fault);
    }
    Ok(Builtin(number))
}

fn class(cursor: &mut Cursor) -> Result<ClassId, Stop>
    ensures gives { Reads (λ c. c.0) class_number cursor.old result cursor.new }
    ensures forward { GoesOn cursor.old result cursor.new }
    ensures there { IfOk result (λ c. c.0 < classes) }
{
    let fault = cursor.fault();
    let number = cursor.byte()?;
    if number > ClassId::VALUE_ERROR.0 {
        return Err(fault);
    }
    Ok(ClassId(number))
}
