ghost use Rattle.std.specs.Prelude.{◌≡◌, IfOk};
ghost use Rattle.kishu_meaning.specs.values.Values.{value_of};

use std::alloc::AllocError;
use std::rc::RcStr;

/// A builtin function, by its number among the builtin functions (Library Reference, "Built-in
/// Functions").
#[derive(Clone, Copy, Debug, PartialEq, Eq)]
pub struct Builtin(pub u8);

impl Builtin {
    pub const ABS: Builtin = Builtin(0);

    pub const ALL: Builtin = Builtin(1);

    pub const ANY: Builtin = Builtin(2);

    pub const CHR: Builtin = Builtin(3);

    pub const DIVMOD: Builtin = Builtin(4);

    pub const ISINSTANCE: Builtin = Builtin(5);

    pub const LEN: Builtin = Builtin(6);

    pub const MAX: Builtin = Builtin(7);

    pub const MIN: Builtin = Builtin(8);

    pub const ORD: Builtin = Builtin(9);

    pub const PRINT: Builtin = Builtin(10);

    pub const REPR: Builtin = Builtin(11);

    pub const SORTED: Builtin = Builtin(12);

    pub const SUM: Builtin = Builtin(13);
}

/// A class, by its number among the classes.
#[derive(Clone, Copy, Debug, PartialEq, Eq)]
pub struct ClassId(pub u8);

impl ClassId {
    pub const BOOL: ClassId = ClassId(0);

    pub const DICT: ClassId = ClassId(1);

    pub const INT: ClassId = ClassId(2);

    pub const LIST: ClassId = ClassId(3);

    pub const RANGE: ClassId = ClassId(4);

    pub const SIMPLE_NAMESPACE: ClassId = ClassId(5);

    pub const STR: ClassId = ClassId(6);

    pub const TUPLE: ClassId = ClassId(7);

    pub const EXCEPTION: ClassId = ClassId(8);

    pub const ARITHMETIC_ERROR: ClassId = ClassId(9);

    pub const OVERFLOW_ERROR: ClassId = ClassId(10);

    pub const ZERO_DIVISION_ERROR: ClassId = ClassId(11);

    pub const ASSERTION_ERROR: ClassId = ClassId(12);

    pub const ATTRIBUTE_ERROR: ClassId = ClassId(13);

    pub const LOOKUP_ERROR: ClassId = ClassId(14);

    pub const INDEX_ERROR: ClassId = ClassId(15);

    pub const KEY_ERROR: ClassId = ClassId(16);

    pub const NAME_ERROR: ClassId = ClassId(17);

    pub const UNBOUND_LOCAL_ERROR: ClassId = ClassId(18);

    pub const RUNTIME_ERROR: ClassId = ClassId(19);

    pub const NOT_IMPLEMENTED_ERROR: ClassId = ClassId(20);

    pub const RECURSION_ERROR: ClassId = ClassId(21);

    pub const SYNTAX_ERROR: ClassId = ClassId(22);

    pub const TYPE_ERROR: ClassId = ClassId(23);

    pub const VALUE_ERROR: ClassId = ClassId(24);
}

/// A node of a heap, by its number there.
#[derive(Clone, Copy, Debug, PartialEq, Eq)]
pub struct NodeId(pub u32);

/// A value of the language (Python Language Reference 3, "The standard type hierarchy").
#[derive(Drop)]
pub enum Value {
    None,
    Bool(bool),
    /// A whole number of -2^127 to 2^127-1.
    Int(i128),
    Text(RcStr),
    /// The start, the stop and the step. In a sound value (`specs/Sound`) the step isn't 0.
    Range(i128, i128, i128),
    Builtin(Builtin),
    Class(ClassId),
    Node(NodeId),
}

impl Value {
    /// The same value once more. An error says that no memory is left.
    pub fn copied(&self) -> Result<Value, AllocError>
        ensures { IfOk result (λ v. value_of v ≡ value_of self.now) }
    {
        match self {
            Value::None => Ok(Value::None),
            Value::Bool(holds) => Ok(Value::Bool(*holds)),
            Value::Int(number) => Ok(Value::Int(*number)),
            Value::Text(text) => Ok(Value::Text(text.clone()?)),
            Value::Range(start, stop, step) => Ok(Value::Range(*start, *stop, *step)),
            Value::Builtin(builtin) => Ok(Value::Builtin(*builtin)),
            Value::Class(class) => Ok(Value::Class(*class)),
            Value::Node(id) => Ok(Value::Node(*id)),
        }
    }
}
