// Classes of exceptions (Library Reference, "Built-in Exceptions": "Exception hierarchy").
ghost use Rattle.std.specs.Prelude.{◌≡◌};
ghost use Rattle.kishu_meaning.specs.values.Classes.{class_above, is_within};

use kishu_meaning::ClassId;

// The class above a class of exceptions; that of all of them is its own.
fn class_above(class: ClassId) -> ClassId
    ensures { result.0 ≡ class_above class.0 }
{
    match class {
        ClassId::OVERFLOW_ERROR | ClassId::ZERO_DIVISION_ERROR => ClassId::ARITHMETIC_ERROR,
        ClassId::INDEX_ERROR | ClassId::KEY_ERROR => ClassId::LOOKUP_ERROR,
        ClassId::UNBOUND_LOCAL_ERROR => ClassId::NAME_ERROR,
        ClassId::NOT_IMPLEMENTED_ERROR | ClassId::RECURSION_ERROR => ClassId::RUNTIME_ERROR,
        _ => ClassId::EXCEPTION,
    }
}

/// Whether a class of exceptions is another one or lies below it.
pub fn is_within(class: ClassId, other: ClassId) -> bool
    ensures { result ≡ is_within class.0 other.0 }
{
    let above = class_above(class);
    class == other || (above == other || class_above(above) == other)
}
