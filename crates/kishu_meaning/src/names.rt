// The names of the builtin functions and classes.
ghost use Rattle.std.specs.Prelude.{◌≡◌, ◌<◌, length, map, option_map, slice_get};
ghost use Rattle.kishu_language.specs.tokens.Names.{place_among};
ghost use Rattle.kishu_meaning.specs.values.BuiltinNames.{builtin_names, class_names};
ghost use Rattle.kishu_meaning.specs.values.Numbered.{AreInOrder, builtin_constants, builtin_numbers, class_constants, class_numbers};
ghost use Rattle.kishu_meaning.specs.comparing.Show.{builtin_name, class_name, or_empty};

use crate::value::{Builtin, ClassId};

const BUILTINS: [&str; 14] = [
    "abs",
    "all",
    "any",
    "chr",
    "divmod",
    "isinstance",
    "len",
    "max",
    "min",
    "ord",
    "print",
    "repr",
    "sorted",
    "sum",
];

const CLASSES: [&str; 25] = [
    "bool",
    "dict",
    "int",
    "list",
    "range",
    "SimpleNamespace",
    "str",
    "tuple",
    "Exception",
    "ArithmeticError",
    "OverflowError",
    "ZeroDivisionError",
    "AssertionError",
    "AttributeError",
    "LookupError",
    "IndexError",
    "KeyError",
    "NameError",
    "UnboundLocalError",
    "RuntimeError",
    "NotImplementedError",
    "RecursionError",
    "SyntaxError",
    "TypeError",
    "ValueError",
];

// The place at which a word stands.
fn place_in(words: &[&str], word: &[u8]) -> Option<u8>
    requires { length words.now < 256 }
    ensures { result ≡ place_among word.now (map (λ w. w.now) words.now) }
{
    let mut place = 0;
    for other in words {
        if word == other.as_bytes() {
            return Some(place);
        }
        place += 1;
    }
    None
}

// The word at a place, and none behind the last.
fn word_at<'a>(words: &[&'a str], place: u8) -> &'a str
    ensures { result.now ≡ or_empty (slice_get (map (λ w. w.now) words.now) place) }
{
    match words.get(usize::from(place)) {
        Some(word) => word,
        None => "",
    }
}

/// The builtin function of this name, where there is one (Library Reference, "Built-in Functions").
#[tactic(auto, unfolding(crate::specs::values::BuiltinNames::builtin_names))]
pub fn builtin_named(word: &[u8]) -> Option<Builtin>
    ensures { option_map (λ b. b.0) result ≡ place_among word.now builtin_names }
{
    let words: [&str; 14] = BUILTINS;
    place_in(words.as_slice(), word).map(Builtin)
}

/// The class of this name, where there is one.
#[tactic(auto, unfolding(crate::specs::values::BuiltinNames::class_names))]
pub fn class_named(word: &[u8]) -> Option<ClassId>
    ensures { option_map (λ c. c.0) result ≡ place_among word.now class_names }
{
    let words: [&str; 25] = CLASSES;
    place_in(words.as_slice(), word).map(ClassId)
}

/// The name of a builtin function, which is empty where no function has this number.
#[tactic(auto, unfolding(crate::specs::values::BuiltinNames::builtin_names))]
pub fn builtin_name(builtin: Builtin) -> &'static str
    ensures { result.now ≡ builtin_name builtin.0 }
{
    let words: [&str; 14] = BUILTINS;
    word_at(words.as_slice(), builtin.0)
}

/// The name of a class, which is empty where no class has this number.
#[tactic(auto, unfolding(crate::specs::values::BuiltinNames::class_names))]
pub fn class_name(class: ClassId) -> &'static str
    ensures { result.now ≡ class_name class.0 }
{
    let words: [&str; 25] = CLASSES;
    word_at(words.as_slice(), class.0)
}

/// The constants of `Builtin` and `ClassId` are the numbers of the definitions, at which their names
/// stand.
pub fn constants_are_numbers()
    ensures builtins { map (λ b. b.0) builtin_constants ≡ builtin_numbers }
    ensures classes { map (λ c. c.0) class_constants ≡ class_numbers }
    ensures order { AreInOrder builtin_numbers × AreInOrder class_numbers }
{}
