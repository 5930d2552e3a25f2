// The numbers by which values, keys and rows tell their kinds.

pub(crate) const NONE: u8 = 0;

pub(crate) const FALSE: u8 = 1;

pub(crate) const TRUE: u8 = 2;

pub(crate) const INT: u8 = 3;

pub(crate) const TEXT: u8 = 4;

pub(crate) const RANGE: u8 = 5;

pub(crate) const BUILTIN: u8 = 6;

pub(crate) const CLASS: u8 = 7;

pub(crate) const NODE: u8 = 8;

/// Of a key alone: a tuple of parts.
pub(crate) const PARTS: u8 = 9;

pub(crate) const LIST_ROW: u8 = 1;

pub(crate) const TUPLE_ROW: u8 = 2;

pub(crate) const DICT_ROW: u8 = 3;

pub(crate) const OBJECT_ROW: u8 = 4;

pub(crate) const FUNCTION_ROW: u8 = 5;

pub(crate) const EXCEPTION_ROW: u8 = 6;
