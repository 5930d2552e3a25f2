// The lines of all commits, one behind another in one text.
ghost use Rattle.std.specs.Prelude.{◌≡◌, ◌<◌, ◌≤◌, ◌+◌, ◌++◌, ◌∷◌, [], length, get_or, IfOk, OnOk};
ghost use Rattle.std.specs.String.{string_bytes, string_capacity, string_len};

use crate::commits::push_in_room;
use std::alloc::{AllocError, Global};

/// Lines by their numbers. None has a block of memory of its own.
#[derive(Drop)]
pub(crate) struct LineBuffer {
    /// All lines, one behind another.
    pub(crate) text: String,
    /// Where each of them ends.
    pub(crate) ends: Vec<usize>,
}

impl LineBuffer {
    ghost use Rattle.kishu_graph.specs.Buffers.{IsCut, HasRoom, lines_in};

    /// The root's line alone, which is empty. An error says that no memory is left.
    pub(crate) fn of_root(alloc: Global) -> Result<LineBuffer, AllocError>
        ensures cut { IfOk result IsCut }
        ensures lines { IfOk result (λ b. lines_in b ≡ [] ∷ []) }
        ensures one { IfOk result (λ b. length b.ends.items ≡ 1) }
    {
        let mut ends = Vec::new(alloc);
        ends.push(0)?;
        Ok(LineBuffer {
            text: String::new(alloc),
            ends,
        })
    }

    /// The line of a number.
    pub(crate) fn line(&self, number: usize) -> &str
        requires cut { IsCut self.now }
        requires there { number < length self.now.ends.items }
        ensures { result.now ≡ get_or (lines_in self.now) number [] }
    {
        &self.text.as_str()[self.start(number)..self.ends[number]]
    }

    /// Where the line of a number begins.
    fn start(&self, number: usize) -> usize
        requires { number < length self.now.ends.items }
        ensures { result ≡ get_or (0 ∷ self.now.ends.items) number 0 }
    {
        if number == 0 {
            0
        } else {
            self.ends[number - 1]
        }
    }

    /// Makes room for this line.
    pub(crate) fn reserve(&mut self, line: &str) -> Result<(), AllocError>
        ensures text { string_bytes self.new.text ≡ string_bytes self.old.text }
        ensures ends { self.new.ends.items ≡ self.old.ends.items }
        ensures room { OnOk result (HasRoom (length line.now) self.new) }
    {
        self.text.reserve(line.len())?;
        self.ends.reserve(1)
    }

    /// Adds a line where there is room for it.
    pub(crate) fn add(&mut self, line: &str)
        requires cut { IsCut self.old }
        requires room { HasRoom (length line.now) self.old }
        ensures cut { IsCut self.new }
        ensures lines { lines_in self.new ≡ lines_in self.old ++ (line.now ∷ []) }
        ensures one { length self.new.ends.items ≡ length self.old.ends.items + 1 }
    {
        let end = append(&mut self.text, line);
        push_in_room(&mut self.ends, end);
    }
}

/// Puts a text behind another where there is room for it, and answers where it ends.
fn append(text: &mut String, more: &str) -> usize
    requires { string_len text.old + length more.now ≤ string_capacity text.old }
    ensures bytes { string_bytes text.new ≡ string_bytes text.old ++ more.now }
    ensures end { result ≡ length (string_bytes text.new) }
{
    text.push_str(more).unwrap();
    text.len()
}
