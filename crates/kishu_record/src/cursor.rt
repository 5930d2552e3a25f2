ghost use Rattle.std.specs.Prelude.{◌≡◌, ◌<◌, ◌≤◌, ◌^◌, ◌++◌, ◌∷◌, [], List, ℕ, length, true, false, Ok, None, IfOk, IfSome};
ghost use Rattle.std.specs.Rc.{rc_str_bytes};
ghost use Rattle.kishu_bytes.specs.Numbers.{four};
ghost use Rattle.kishu_store.specs.EntryBytes.{eight, text_bytes, name_bytes, many};
ghost use Rattle.kishu_store.specs.Rules.{IsCell, AreCells, IsTitle};
ghost use Rattle.kishu_record.specs.Entries.{texts_of, cell_list_bytes, title_bytes};
ghost use Rattle.kishu_record.specs.Readings.{AreSome, Begins};
ghost use Rattle.kishu_record.specs.Took.{Took, TookCells};

use kishu_language::LONGEST_TEXT;
use simdutf8::basic::from_utf8;
use std::alloc::{AllocError, Global};
use std::rc::RcStr;

/// What is left to read of a head.
#[derive(Drop)]
pub(crate) struct Cursor<'a> {
    pub(crate) rest: &'a [u8],
}

/// Cells, one at least: how many there are, and the text of the first.
#[derive(Clone, Copy)]
pub(crate) struct Cells<'a> {
    pub(crate) count: u32,
    pub(crate) first: &'a str,
}

impl<'a> Cursor<'a> {
    /// Whether nothing is left.
    pub(crate) fn is_at_end(&self) -> bool
        ensures yes { result ≡ true → self.now.rest.now ≡ [] }
        ensures no { result ≡ false → self.now.rest.now ≡ [] → ⊥ }
    {
        self.rest.is_empty()
    }

    /// The next byte, or none at the end.
    pub(crate) fn byte(&mut self) -> Option<u8>
        ensures found { IfSome result (λ b. self.old.rest.now ≡ b ∷ self.new.rest.now) }
        ensures none { result ≡ None → self.old.rest.now ≡ [] }
    {
        match self.rest {
            [byte, rest @ ..] => {
                self.rest = rest;
                Some(*byte)
            }
            [] => None,
        }
    }

    /// The next `count` bytes, or none where fewer are left.
    fn bytes(&mut self, count: usize) -> Option<&'a [u8]>
        ensures found { IfSome result (λ s. self.old.rest.now ≡ s.now ++ self.new.rest.now) }
        ensures count { IfSome result (λ s. length s.now ≡ count) }
        ensures none { result ≡ None → length self.old.rest.now < count }
    {
        if self.rest.len() < count {
            return None;
        }
        let (bytes, rest) = self.rest.split_at(count);
        self.rest = rest;
        Some(bytes)
    }

    /// The next number of four bytes, or none where fewer are left.
    pub(crate) fn number(&mut self) -> Option<u32>
        ensures found { IfSome result (λ n. self.old.rest.now ≡ four n ++ self.new.rest.now) }
        ensures none { result ≡ None → length self.old.rest.now < 4 }
    {
        let bytes = self.bytes(4)?;
        Some(number_of(bytes))
    }

    /// The next number of eight bytes, or none where fewer are left.
    pub(crate) fn length(&mut self) -> Option<u64>
        ensures found { IfSome result (λ n. self.old.rest.now ≡ eight n ++ self.new.rest.now) }
        ensures none { result ≡ None → length self.old.rest.now < 8 }
    {
        let bytes = self.bytes(8)?;
        Some(length_of(bytes))
    }

    /// The next cell's text, or none where no such text follows.
    fn text(&mut self) -> Option<&'a str>
        ensures found { IfSome result (λ t. self.old.rest.now ≡ text_bytes t.now ++ self.new.rest.now) }
        ensures fits { IfSome result (λ t. IsCell t.now) }
        ensures none { result ≡ None → Begins text_bytes IsCell self.old.rest.now → ⊥ }
    {
        let length = self.number()? as usize;
        if length > LONGEST_TEXT {
            return None;
        }
        let bytes = self.bytes(length)?;
        let Ok(text) = from_utf8(bytes) else {
            return None;
        };
        Some(text)
    }

    /// The texts of the next cells behind their number, or none where no such texts follow.
    pub(crate) fn texts(&mut self, alloc: Global) -> Result<Option<Vec<RcStr>>, AllocError>
        requires { length self.old.rest.now < 2 ^ 32 }
        ensures found { IfOk result (λ o. IfSome o (λ v. Took self.old (cell_list_bytes v) self.new)) }
        ensures fit { IfOk result (λ o. IfSome o (λ v. AreCells (texts_of v))) }
        ensures none { result ≡ Ok None → Begins (many text_bytes) AreCells self.old.rest.now → ⊥ }
    {
        let Some(count) = self.number() else {
            return Ok(None);
        };
        // Most commits have one cell.
        let mut texts = Vec::with_capacity(alloc, 1)?;
        for _ in 0..count {
            let Some(text) = self.text() else {
                return Ok(None);
            };
            texts.push(RcStr::from_str(alloc, text)?)?;
        }
        Ok(Some(texts))
    }

    /// How many cells follow behind their number, of which one is there at least, and the text of the
    /// first; or none where no such cells follow. The others' texts are read, and not kept.
    pub(crate) fn cells(&mut self) -> Option<Cells<'a>>
        requires { length self.old.rest.now < 2 ^ 32 }
        ensures found { IfSome result (λ c. TookCells self.old c self.new) }
        ensures none { result ≡ None → Begins (many text_bytes) AreSome self.old.rest.now → ⊥ }
    {
        let count = self.number()?;
        if count == 0 {
            return None;
        }
        let first = self.text()?;
        for _ in 1..count {
            self.text()?;
        }
        Some(Cells { count, first })
    }

    /// The next name of a branch, or none where no text of at most 255 bytes follows.
    pub(crate) fn title(&mut self, alloc: Global) -> Result<Option<RcStr>, AllocError>
        ensures found { IfOk result (λ o. IfSome o (λ t. Took self.old (title_bytes t) self.new)) }
        ensures fits { IfOk result (λ o. IfSome o (λ t. IsTitle (rc_str_bytes t))) }
        ensures none { result ≡ Ok None → Begins name_bytes IsTitle self.old.rest.now → ⊥ }
    {
        let Some(length) = self.byte() else {
            return Ok(None);
        };
        let Some(bytes) = self.bytes(length as usize) else {
            return Ok(None);
        };
        let Ok(title) = str::from_utf8(bytes) else {
            return Ok(None);
        };
        Ok(Some(RcStr::from_str(alloc, title)?))
    }
}

/// The number that four bytes spell.
fn number_of(bytes: &[u8]) -> u32
    requires { length bytes.now ≡ 4 }
    ensures { four result ≡ bytes.now }
{
    let mut array = [0; 4];
    array.copy_from_slice(bytes);
    u32::from_be_bytes(array)
}

/// The number that eight bytes spell.
fn length_of(bytes: &[u8]) -> u64
    requires { length bytes.now ≡ 8 }
    ensures { eight result ≡ bytes.now }
{
    let mut array = [0; 8];
    array.copy_from_slice(bytes);
    u64::from_be_bytes(array)
}
