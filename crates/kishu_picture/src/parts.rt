// The parts of a picture. Numbers stand with their highest byte first.
ghost use Rattle.std.specs.Prelude.{◌≡◌, ◌<◌, ◌≤◌, ◌^◌, ◌++◌, FitsSigned, length, OnOk};
ghost use Rattle.std.specs.Int.{w128};
ghost use Rattle.std.specs.Str.{chars, encode_utf8_all};
ghost use Rattle.kishu_bytes.specs.Numbers.{sixteen};
ghost use Rattle.kishu_objects.specs.Bytes.{in_four, long, short};

use std::alloc::AllocError;

/// Puts a number in four bytes behind.
#[tactic(auto, unfolding(kishu_objects::specs::Bytes::in_four))]
pub(crate) fn put_number(out: &mut Vec<u8>, number: u32) -> Result<(), AllocError>
    ensures { OnOk result (out.new.items ≡ out.old.items ++ in_four number) }
{
    out.extend_from_slice(&number.to_be_bytes())
}

/// Puts a whole number in sixteen bytes behind, in two's complement.
#[tactic(auto, unfolding(kishu_bytes::specs::Numbers::sixteen))]
pub(crate) fn put_whole(out: &mut Vec<u8>, number: i128) -> Result<(), AllocError>
    ensures bytes { OnOk result (out.new.items ≡ out.old.items ++ sixteen number) }
    ensures fits { FitsSigned w128 number }
{
    let bits = number.cast_unsigned();
    out.extend_from_slice(&bits.to_be_bytes())?;
    Ok(())
}

/// Puts the three numbers of a range behind.
pub(crate) fn put_range(
    out: &mut Vec<u8>,
    start: i128,
    stop: i128,
    step: i128,
) -> Result<(), AllocError>
    ensures { OnOk result
        (out.new.items ≡ out.old.items ++ (sixteen start ++ (sixteen stop ++ sixteen step))) }
{
    put_whole(out, start)?;
    put_whole(out, stop)?;
    put_whole(out, step)?;
    Ok(())
}

/// Puts a text behind its length in four bytes.
pub(crate) fn put_text(out: &mut Vec<u8>, text: &str) -> Result<(), AllocError>
    requires { length text.now < 2 ^ 32 }
    ensures text { OnOk result (out.new.items ≡ out.old.items ++ long text.now) }
    ensures chars { OnOk result (out.new.items ≡ out.old.items ++ long (encode_utf8_all (chars text.now))) }
{
    put_number(out, text.len() as u32)?;
    out.extend_from_slice(text.as_bytes())?;
    Ok(())
}

/// Puts a name behind its length in one byte.
pub(crate) fn put_name(out: &mut Vec<u8>, name: &str) -> Result<(), AllocError>
    requires { length name.now ≤ 255 }
    ensures { OnOk result (out.new.items ≡ out.old.items ++ short name.now) }
{
    out.push(name.len() as u8)?;
    out.extend_from_slice(name.as_bytes())?;
    Ok(())
}
