// The parts of a head. Numbers stand with their highest byte first.
ghost use Rattle.std.specs.Prelude.{◌≡◌, ◌<◌, ◌≤◌, ◌^◌, ◌++◌, length, OnOk};
ghost use Rattle.std.specs.Rc.{rc_str_bytes};
ghost use Rattle.kishu_bytes.specs.Numbers.{four};
ghost use Rattle.kishu_store.specs.EntryBytes.{eight, text_bytes, name_bytes, many, group_bytes, stored_bytes};
ghost use Rattle.kishu_store.specs.Groups.{IsGroup, IsStored};
ghost use Rattle.std.specs.List.{AllByRecursion};
ghost use Rattle.kishu_record.specs.Entries.{texts_of, groups_of, all_stored_of, all_bytes};

use std::alloc::AllocError;
use std::rc::RcStr;

/// Appends a number in four bytes.
pub(crate) fn put_number(out: &mut Vec<u8>, n: u32) -> Result<(), AllocError>
    ensures { OnOk result (out.new.items ≡ out.old.items ++ four n) }
{
    out.extend_from_slice(&n.to_be_bytes())
}

/// Appends a number in eight bytes.
fn put_length(out: &mut Vec<u8>, n: u64) -> Result<(), AllocError>
    ensures { OnOk result (out.new.items ≡ out.old.items ++ eight n) }
{
    out.extend_from_slice(&n.to_be_bytes())
}

/// Appends a name of at most 255 bytes behind its length.
pub(crate) fn put_name(out: &mut Vec<u8>, name: &RcStr) -> Result<(), AllocError>
    requires { length (rc_str_bytes name.now) ≤ 255 }
    ensures { OnOk result (out.new.items ≡ out.old.items ++ name_bytes (rc_str_bytes name.now)) }
{
    out.push(name.len() as u8)?;
    out.extend_from_slice(name.as_str().as_bytes())
}

/// Appends texts behind their number, each behind its length.
pub(crate) fn put_texts(out: &mut Vec<u8>, texts: &Vec<RcStr>) -> Result<(), AllocError>
    requires { length (many text_bytes (texts_of texts.now)) < 2 ^ 32 }
    ensures { OnOk result (out.new.items ≡ out.old.items ++ many text_bytes (texts_of texts.now)) }
{
    put_number(out, texts.len() as u32)?;
    for text in texts {
        put_number(out, text.len() as u32)?;
        out.extend_from_slice(text.as_str().as_bytes())?;
    }
    Ok(())
}

/// Appends a group: its names behind their number.
fn put_group(out: &mut Vec<u8>, group: &Vec<RcStr>) -> Result<(), AllocError>
    requires group { IsGroup (texts_of group.now) }
    requires short { length (group_bytes (texts_of group.now)) < 2 ^ 32 }
    ensures { OnOk result (out.new.items ≡ out.old.items ++ group_bytes (texts_of group.now)) }
{
    put_number(out, group.len() as u32)?;
    for name in group {
        put_name(out, name)?;
    }
    Ok(())
}

/// Appends groups behind their number.
pub(crate) fn put_groups(out: &mut Vec<u8>, groups: &Vec<Vec<RcStr>>) -> Result<(), AllocError>
    requires groups { AllByRecursion IsGroup (groups_of groups.now) }
    requires short { length (many group_bytes (groups_of groups.now)) < 2 ^ 32 }
    ensures { OnOk result (out.new.items ≡ out.old.items ++ many group_bytes (groups_of groups.now)) }
{
    put_number(out, groups.len() as u32)?;
    for group in groups {
        put_group(out, group)?;
    }
    Ok(())
}

/// Appends groups behind their number, each with the length of its picture.
pub(crate) fn put_stored(
    out: &mut Vec<u8>,
    stored: &Vec<(Vec<RcStr>, u64)>,
) -> Result<(), AllocError>
    requires groups { AllByRecursion IsStored (all_stored_of stored.now) }
    requires short { length (many stored_bytes (all_stored_of stored.now)) < 2 ^ 32 }
    ensures { OnOk result (out.new.items ≡ out.old.items ++ many stored_bytes (all_stored_of stored.now)) }
{
    put_number(out, stored.len() as u32)?;
    for (group, length) in stored {
        put_group(out, group)?;
        put_length(out, *length)?;
    }
    Ok(())
}

/// Appends pictures, one behind another.
pub(crate) fn put_pictures(out: &mut Vec<u8>, pictures: &[Vec<u8>]) -> Result<(), AllocError>
    ensures { OnOk result (out.new.items ≡ out.old.items ++ all_bytes pictures.now) }
{
    for picture in pictures {
        out.extend_from_slice(picture)?;
    }
    Ok(())
}
