// Keys of a dict.
ghost use Rattle.std.specs.Prelude.{◌≡◌, ◌==◌, ◌++◌, map};
ghost use Rattle.std.specs.Cmp.Lexicographic.{pointwise};
ghost use Rattle.std.specs.Hash as fed;
ghost use Rattle.std.specs.Str.{bytes_eq, chars};
ghost use Rattle.kishu_meaning.specs.values.Keys.{is_one_part, part_of, part_kind, part_number, part_text, key_of, key_kind, key_number, key_text, key_parts, same_part, same_key};
ghost use Rattle.kishu_meaning.specs.values.KeyLaws.{part_bytes, key_bytes, tuple_items, part_input, key_input};

use std::hash::{Hash, Hasher};
use std::rc::RcStr;

/// A part of a key that is a tuple.
#[derive(Drop)]
pub enum KeyPart {
    None,
    Bool(bool),
    Int(i128),
    Text(RcStr),
}

/// A key of a dict, which is kept by content. Two keys are equal where the values are, so `1` and
/// `True` are one key (Python Language Reference 3, "Dictionaries").
#[derive(Drop)]
pub enum Key {
    None,
    Bool(bool),
    Int(i128),
    Text(RcStr),
    Tuple(Vec<KeyPart>),
}

impl KeyPart {
    fn kind(&self) -> u8
        ensures { result ≡ part_kind (part_of self.now) }
    {
        match self {
            KeyPart::None => 0,
            KeyPart::Bool(_) => 1,
            KeyPart::Int(_) => 1,
            KeyPart::Text(_) => 2,
        }
    }

    fn number(&self) -> i128
        ensures { result ≡ part_number (part_of self.now) }
    {
        match self {
            KeyPart::None => 0,
            KeyPart::Bool(holds) => i128::from(*holds),
            KeyPart::Int(number) => *number,
            KeyPart::Text(_) => 0,
        }
    }

    fn text(&self) -> &str
        ensures bytes { result.now ≡ part_bytes self.now }
        ensures chars { chars result.now ≡ part_text (part_of self.now) }
    {
        match self {
            KeyPart::None | KeyPart::Bool(_) | KeyPart::Int(_) => "",
            KeyPart::Text(text) => text.as_str(),
        }
    }
}

impl Key {
    fn kind(&self) -> u8
        ensures { result ≡ key_kind (key_of self.now) }
    {
        match self {
            Key::None => 0,
            Key::Bool(_) => 1,
            Key::Int(_) => 1,
            Key::Text(_) => 2,
            Key::Tuple(_) => 3,
        }
    }

    fn number(&self) -> i128
        ensures { result ≡ key_number (key_of self.now) }
    {
        match self {
            Key::None => 0,
            Key::Bool(holds) => i128::from(*holds),
            Key::Int(number) => *number,
            Key::Text(_) => 0,
            Key::Tuple(_) => 0,
        }
    }

    fn text(&self) -> &str
        ensures bytes { result.now ≡ key_bytes self.now }
        ensures chars { chars result.now ≡ key_text (key_of self.now) }
    {
        match self {
            Key::None | Key::Bool(_) | Key::Int(_) | Key::Tuple(_) => "",
            Key::Text(text) => text.as_str(),
        }
    }

    #[tactic(auto, using(crate::specs::values::KeyLaws::parts_of_items))]
    fn parts(&self) -> &[KeyPart]
        ensures items { result.now ≡ tuple_items self.now }
        ensures parts { map part_of result.now ≡ key_parts (key_of self.now) }
    {
        match self {
            Key::None | Key::Bool(_) | Key::Int(_) | Key::Text(_) => &[],
            Key::Tuple(parts) => parts.as_slice(),
        }
    }
}

fn is_same_text(a: &str, b: &str) -> bool
    ensures { result ≡ bytes_eq (chars a.now) (chars b.now) }
{
    a == b
}

fn is_same_tuple(a: &[KeyPart], b: &[KeyPart]) -> bool
    ensures { result ≡ pointwise is_one_part (map part_of a.now) (map part_of b.now) }
{
    a == b
}

impl PartialEq for KeyPart {
    ghost use Rattle.std.specs.Cmp.{partial_equiv_from_equiv};
    ghost use Rattle.kishu_meaning.specs.values.KeyLaws.{same_part_equiv};

    ghost eq = { same_part };

    ghost laws = { partial_equiv_from_equiv same_part_equiv };

    fn eq(&self, other: &KeyPart) -> bool {
        self.kind() == other.kind()
            && self.number() == other.number()
            && is_same_text(self.text(), other.text())
    }
}

impl Eq for KeyPart {
    ghost use Rattle.kishu_meaning.specs.values.KeyLaws.{same_part_equiv};

    ghost laws = { same_part_equiv };
}

impl Hash for KeyPart {
    ghost use Rattle.kishu_meaning.specs.values.KeyLaws.{parts_Alike};

    ghost hash_input = { part_input };

    ghost respects_eq = { parts_Alike.fed };

    fn hash<H: Hasher>(&self, state: &mut H) {
        self.kind().hash(state);
        self.number().hash(state);
        self.text().hash(state);
    }
}

impl PartialEq for Key {
    ghost use Rattle.std.specs.Cmp.{partial_equiv_from_equiv};
    ghost use Rattle.kishu_meaning.specs.values.KeyLaws.{same_key_equiv};

    ghost eq = { same_key };

    ghost laws = { partial_equiv_from_equiv same_key_equiv };

    fn eq(&self, other: &Key) -> bool {
        self.kind() == other.kind()
            && self.number() == other.number()
            && is_same_text(self.text(), other.text())
            && is_same_tuple(self.parts(), other.parts())
    }
}

impl Eq for Key {
    ghost use Rattle.kishu_meaning.specs.values.KeyLaws.{same_key_equiv};

    ghost laws = { same_key_equiv };
}

impl Hash for Key {
    ghost use Rattle.kishu_meaning.specs.values.KeyLaws.{keys_Alike};

    ghost hash_input = { key_input };

    ghost respects_eq = { keys_Alike.fed };

    fn hash<H: Hasher>(&self, state: &mut H) {
        self.kind().hash(state);
        self.number().hash(state);
        self.text().hash(state);
        self.parts().hash(state);
    }
}
