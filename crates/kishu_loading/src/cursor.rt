// The fields of a picture, read from the front.
ghost use Rattle.std.specs.Prelude.{◌≡◌, ◌==◌, ◌<◌, length, is_some, IsTrue, IfOk, IfSome};
ghost use Rattle.std.specs.Option.{option_map};
ghost use Rattle.std.specs.Int.{w32, w128, from_be_bytes, cast_signed};
ghost use Rattle.std.specs.Rc.{rc_str_bytes};
ghost use Rattle.kishu_language.specs.tokens.Names.{is_name};
ghost use Rattle.kishu_reading.specs.FromBytes as reading;
ghost use Rattle.kishu_loading.specs.Fronts.{same, chars_of, Reads, GoesOn};
ghost use Rattle.kishu_loading.specs.Told.{short_length, name_after};
ghost use Rattle.kishu_loading.specs.Moving.{attribute};

use kishu_names::is_name;
use std::alloc::{AllocError, AllocFailed, Global};
use std::rc::RcStr;

/// Why reading stops.
#[derive(Clone, Copy, Debug, PartialEq, Eq, Drop)]
pub(crate) enum Stop {
    /// A field isn't whole or breaks its rule: so many bytes are left from where it begins.
    Fault { left: usize },
    NoMemory,
}

impl From<AllocError> for Stop {
    ghost use Rattle.std.specs.Prelude.{◌≡◌};
    ghost use Rattle.kishu_loading.specs.declared.cursor.Stop.TheVariants.{NoMemory};

    ghost from_gives = { λ _ stop. stop ≡ NoMemory };

    fn from(_error: AllocError) -> Stop {
        Stop::NoMemory
    }
}

impl<T: Drop> From<AllocFailed<T>> for Stop {
    ghost use Rattle.std.specs.Prelude.{◌≡◌};
    ghost use Rattle.kishu_loading.specs.declared.cursor.Stop.TheVariants.{NoMemory};

    ghost from_gives = { λ _ stop. stop ≡ NoMemory };

    fn from(_error: AllocFailed<T>) -> Stop {
        Stop::NoMemory
    }
}

/// Where reading stands: the bytes that are left, and how many nodes were met.
#[derive(Drop)]
pub(crate) struct Cursor<'a> {
    pub(crate) rest: &'a [u8],
    pub(crate) met: u32,
}

impl<'a> Cursor<'a> {
    /// The fault of a field that begins here.
    pub(crate) fn fault(&self) -> Stop
        ensures { result ≡ Stop.Fault (length self.now.rest.now) }
    {
        Stop::Fault {
            left: self.rest.len(),
        }
    }

    /// For how many things room is taken at once, of `count` that the bytes tell: no more than the bytes that
    /// are left can hold, if each takes `least` bytes or more, for the number told may be false.
    pub(crate) fn room(&self, count: u32, least: usize) -> usize
        requires { 0 < least }
    {
        (count as usize).min(self.rest.len() / least)
    }

    pub(crate) fn byte(&mut self) -> Result<u8, Stop>
        ensures gives { Reads same reading.byte self.old result self.new }
        ensures forward { GoesOn self.old result self.new }
    {
        match self.rest {
            [byte, rest @ ..] => {
                self.rest = rest;
                Ok(*byte)
            }
            [] => Err(self.fault()),
        }
    }

    pub(crate) fn bytes(&mut self, count: usize) -> Result<&'a [u8], Stop>
        ensures gives { Reads (λ s. s.now) (reading.bytes count) self.old result self.new }
        ensures forward { GoesOn self.old result self.new }
    {
        if self.rest.len() < count {
            return Err(self.fault());
        }
        let (bytes, rest) = self.rest.split_at(count);
        self.rest = rest;
        Ok(bytes)
    }

    /// A number of four bytes.
    pub(crate) fn number(&mut self) -> Result<u32, Stop>
        ensures gives { Reads same reading.number self.old result self.new }
        ensures forward { GoesOn self.old result self.new }
    {
        let bytes = self.bytes(4)?;
        Ok(number_of(bytes))
    }

    /// A whole number of sixteen bytes, in two's complement.
    pub(crate) fn whole_number(&mut self) -> Result<i128, Stop>
        ensures gives { Reads same reading.whole_number self.old result self.new }
        ensures forward { GoesOn self.old result self.new }
    {
        let bytes = self.bytes(16)?;
        Ok(whole_number_of(bytes))
    }

    /// A text behind its length.
    pub(crate) fn text(&mut self, alloc: Global) -> Result<RcStr, Stop>
        ensures gives { Reads chars_of reading.spelled self.old result self.new }
        ensures forward { GoesOn self.old result self.new }
    {
        let length = self.number()?;
        let fault = self.fault();
        let bytes = self.bytes(length as usize)?;
        let Ok(text) = str::from_utf8(bytes) else {
            return Err(fault);
        };
        Ok(RcStr::from_str(alloc, text)?)
    }

    /// The length of a name, which isn't 0.
    fn short_length(&mut self) -> Result<usize, Stop>
        ensures gives { Reads same short_length self.old result self.new }
        ensures forward { GoesOn self.old result self.new }
    {
        let fault = self.fault();
        let length = self.byte()?;
        if length == 0 {
            return Err(fault);
        }
        Ok(usize::from(length))
    }

    /// The name of an attribute behind its length.
    #[tactic(auto, unfolding(crate::specs::Moving::attribute))]
    pub(crate) fn attribute(&mut self, alloc: Global) -> Result<RcStr, Stop>
        ensures gives { Reads rc_str_bytes attribute self.old result self.new }
        ensures forward { GoesOn self.old result self.new }
        ensures name { IfOk result (λ x. IsTrue (is_name (rc_str_bytes x))) }
    {
        let length = self.short_length()?;
        let fault = self.fault();
        let bytes = self.bytes(length)?;
        let Some(name) = name_in(alloc, bytes)? else {
            return Err(fault);
        };
        Ok(name)
    }

    /// A name behind its length, which stands behind the last one.
    #[tactic(auto, unfolding(crate::specs::Moving::name_behind))]
    pub(crate) fn name(&mut self, alloc: Global, last: Option<&str>) -> Result<RcStr, Stop>
        ensures gives { Reads rc_str_bytes (name_after (λ x. x.now) last.entry) self.old result self.new }
        ensures forward { GoesOn self.old result self.new }
        ensures name { IfOk result (λ x. IsTrue (is_name (rc_str_bytes x))) }
    {
        let length = self.short_length()?;
        let fault = self.fault();
        let bytes = self.bytes(length)?;
        let Some(name) = name_in(alloc, bytes)? else {
            return Err(fault);
        };
        if !is_behind(last, name.as_str()) {
            return Err(fault);
        }
        Ok(name)
    }
}

/// The name that bytes are, or none.
#[tactic(auto, using(crate::proofs::Texts::no_name))]
fn name_in(alloc: Global, bytes: &[u8]) -> Result<Option<RcStr>, AllocError>
    ensures found { IfOk result (λ o. IfSome o (λ x. rc_str_bytes x ≡ bytes.now)) }
    ensures name { IfOk result (λ o. is_name bytes.now ≡ is_some o) }
{
    let Ok(text) = str::from_utf8(bytes) else {
        return Ok(None);
    };
    if !is_name(text) {
        return Ok(None);
    }
    Ok(Some(RcStr::from_str(alloc, text)?))
}

/// Whether a name stands behind the last one, if there is one.
#[tactic(auto, using(crate::proofs::Texts::behind_is))]
fn is_behind(last: Option<&str>, name: &str) -> bool
    ensures { result ≡ reading.is_behind (option_map (λ x. x.now) last.entry) name.now }
{
    match last {
        Some(last) => last.cmp(name).is_lt(),
        None => true,
    }
}

/// The number that four bytes spell.
fn number_of(bytes: &[u8]) -> u32
    requires { length bytes.now ≡ 4 }
    ensures { result ≡ from_be_bytes w32 bytes.now }
{
    let mut array = [0; 4];
    array.copy_from_slice(bytes);
    u32::from_be_bytes(array)
}

/// The whole number that sixteen bytes spell.
fn whole_number_of(bytes: &[u8]) -> i128
    requires { length bytes.now ≡ 16 }
    ensures { result ≡ cast_signed w128 (from_be_bytes w128 bytes.now) }
{
    let mut array = [0; 16];
    array.copy_from_slice(bytes);
    i128::from_be_bytes(array)
}
