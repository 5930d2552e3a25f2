// Functions.
ghost use Rattle.std.specs.Prelude.{◌≡◌, ◌≤◌, false, IsTrue, IfOk, IfSome, length};
ghost use Rattle.std.specs.Rc.{rc_str_bytes};
ghost use Rattle.kishu_language.specs.Limits.{longest_text};
ghost use Rattle.kishu_language.specs.trees.Tree.{definition_of};
ghost use Rattle.kishu_meaning.specs.values.Sound.{default_count, is_sound_node};
ghost use Rattle.kishu_reading.specs.FromBytes as reading;
ghost use Rattle.kishu_loading.specs.Coded.{IsFunction};
ghost use Rattle.kishu_loading.specs.Fronts.{front_of, HasRoom, same, Reads, GoesOn};
ghost use Rattle.kishu_loading.specs.Told.{value_in, code_length, code_of, code_text, defaults_number, function_in, top_of};
ghost use Rattle.kishu_loading.specs.Moving.{function_by};

use crate::cursor::{Cursor, Stop};
use crate::values::Nodes;
use kishu_heap::FunctionNode;
use kishu_language::{Def, LONGEST_TEXT, Profile};
use kishu_parser::{SyntaxFault, parse_def};
use std::alloc::{AllocError, Global};
use std::rc::{Rc, RcStr};

/// The code of a function, the profile under which it is read, and its tree.
#[derive(Drop)]
struct Code {
    profile: Profile,
    text: RcStr,
    def: Def,
}

fn profile(cursor: &mut Cursor) -> Result<Profile, Stop>
    ensures gives { Reads same reading.profile cursor.old result cursor.new }
    ensures forward { GoesOn cursor.old result cursor.new }
{
    let fault = cursor.fault();
    match cursor.byte()? {
        1 => Ok(Profile::One),
        _ => Err(fault),
    }
}

/// The length of code.
fn code_length(cursor: &mut Cursor) -> Result<usize, Stop>
    ensures gives { Reads same code_length cursor.old result cursor.new }
    ensures forward { GoesOn cursor.old result cursor.new }
    ensures short { IfOk result (λ n. n ≤ longest_text) }
{
    let fault = cursor.fault();
    let length = cursor.number()? as usize;
    if length > LONGEST_TEXT {
        return Err(fault);
    }
    Ok(length)
}

/// The function whose code bytes are, and nothing else; or none.
fn code_in(alloc: Global, profile: Profile, bytes: &[u8]) -> Result<Option<Code>, AllocError>
    requires { length bytes.now ≤ longest_text }
    ensures found { IfOk result (λ o. IfSome o (IsFunction bytes.now)) }
    ensures profile { IfOk result (λ o. IfSome o (λ c. c.profile ≡ profile)) }
    ensures none { IfOk result (λ o. o ≡ None → reading.is_code profile bytes.now ≡ false) }
{
    let Ok(text) = str::from_utf8(bytes) else {
        return Ok(None);
    };
    match parse_def(alloc, profile, text) {
        Ok(def) => Ok(Some(Code {
            profile,
            text: RcStr::from_str(alloc, text)?,
            def,
        })),
        Err(SyntaxFault::Syntax { .. }) => Ok(None),
        Err(SyntaxFault::NoMemory) => Err(AllocError),
    }
}

/// Code of so many bytes.
fn read_code(
    alloc: Global,
    cursor: &mut Cursor,
    profile: Profile,
    length: usize,
) -> Result<Code, Stop>
    requires { length ≤ longest_text }
    ensures gives { Reads code_text (code_of profile length) cursor.old result cursor.new }
    ensures forward { GoesOn cursor.old result cursor.new }
    ensures function { IfOk result (λ c. IsFunction (rc_str_bytes c.text) c) }
    ensures profile { IfOk result (λ c. c.profile ≡ profile) }
{
    let fault = cursor.fault();
    let bytes = cursor.bytes(length)?;
    match code_in(alloc, profile, bytes)? {
        Some(code) => Ok(code),
        None => Err(fault),
    }
}

/// How many parameters of a function have a default.
fn default_count(def: &Def) -> usize
    ensures { result ≡ default_count (definition_of def.now) }
{
    let mut count = 0;
    for (_, default) in &def.params {
        if default.is_some() {
            count += 1;
        }
    }
    count
}

/// The number of a function's defaults.
fn count_of_defaults(cursor: &mut Cursor, code: &Code) -> Result<u32, Stop>
    requires { IsFunction (rc_str_bytes code.now.text) code.now }
    ensures gives { Reads same (defaults_number code.now) cursor.old result cursor.new }
    ensures forward { GoesOn cursor.old result cursor.new }
    ensures filled { IfOk result (λ n. n ≡ default_count (definition_of code.now.def)) }
{
    let fault = cursor.fault();
    let count = cursor.number()?;
    if count as usize != default_count(&code.def) {
        return Err(fault);
    }
    Ok(count)
}

impl Nodes {
    /// A function behind its kind.
    #[tactic(auto, unfolding(crate::specs::Moving::function_by))]
    pub(crate) fn function(&self, alloc: Global, cursor: &mut Cursor) -> Result<FunctionNode, Stop>
        requires { HasRoom self.now.base (front_of cursor.old) }
        ensures gives { Reads function_in (function_by (value_in self.now)) cursor.old result cursor.new }
        ensures forward { GoesOn cursor.old result cursor.new }
        ensures sound { IfOk result (λ f. IsTrue (is_sound_node (top_of self.now) (function_in f))) }
    {
        let profile = profile(cursor)?;
        let length = code_length(cursor)?;
        let code = read_code(alloc, cursor, profile, length)?;
        let count = count_of_defaults(cursor, &code)?;
        let defaults = self.values(alloc, cursor, count)?;
        Ok(FunctionNode {
            profile: code.profile,
            code: code.text,
            def: Rc::new(alloc, code.def)?,
            defaults,
        })
    }
}
