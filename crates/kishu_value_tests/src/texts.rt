ghost use Rattle.std.specs.Prelude.{◌≡◌, true};
ghost use Rattle.kishu_meaning.specs.values.Texts.{places, LieWithin};

mod tables;

use self::tables::{
    COUNTS, FINDS, OCCURRENCES, PLACES, QUOTES, REPLACES, SLICES, SPLITS, STRIPS, WORDS,
};
use kishu_text::{at, count, find, occurrences, quote, replace, slice, split, split_space, strip};
use std::alloc::{AllocError, Global};
use std::test::Fail;

#[test]
fn counts(rt: HostRuntime) {
    for (text, want) in &COUNTS {
        assert!(rt; count(text) == *want, "at {text}");
    }
}

#[test]
fn characters(rt: HostRuntime) {
    for (text, i, want) in &PLACES {
        assert!(rt; at(text, *i) == *want, "at {text}, {i}");
    }
}

// Whether a slice's places lie in a text of this length.
fn fits(size: usize, start: i128, step: i128, len: usize) -> bool
    ensures { result ≡ true → LieWithin size (places start step len) }
{
    let mut left = len;
    let mut place = start;
    while left > 0 {
        if place < 0 || place >= size as i128 {
            return false;
        }
        left -= 1;
        if left > 0 {
            match place.checked_add(step) {
                Some(next) => place = next,
                None => return false,
            }
        }
    }
    true
}

// Whether the places of a slice lie in a text, and this is the slice.
fn is_sliced(
    alloc: Global,
    text: &str,
    start: i128,
    step: i128,
    len: usize,
    want: &str,
) -> Result<bool, AllocError> {
    if fits(count(text), start, step, len) {
        Ok(slice(alloc, text, start, step, len)?.as_str() == want)
    } else {
        Ok(false)
    }
}

#[test]
fn slices(rt: HostRuntime) -> Result<(), Fail> {
    let alloc = rt.alloc();
    for (text, start, step, len, want) in &SLICES {
        assert!(rt;
            is_sliced(alloc, text, *start, *step, *len, want)?,
            "at {text}, {start}"
        );
    }
    Ok(())
}

#[test]
fn finds(rt: HostRuntime) {
    for (text, part, want) in &FINDS {
        assert!(rt; find(text, part) == *want, "at {text}, {part}");
    }
}

// Whether there is a part, and it occurs so often.
fn occurs(text: &str, part: &str, want: usize) -> bool {
    !part.is_empty() && occurrences(text, part) == want
}

#[test]
fn counts_of_a_part(rt: HostRuntime) {
    for (text, part, want) in &OCCURRENCES {
        assert!(rt; occurs(text, part, *want), "at {text}, {part}");
    }
}

// Pieces, each in brackets.
fn shown(alloc: Global, pieces: &[String]) -> Result<String, AllocError> {
    let mut shown = String::new(alloc);
    for piece in pieces {
        shown.push('[')?;
        shown.push_str(piece)?;
        shown.push(']')?;
    }
    Ok(shown)
}

// Whether there is a part, and a text falls into these pieces at it.
fn is_split(alloc: Global, text: &str, part: &str, want: &str) -> Result<bool, AllocError> {
    if part.is_empty() {
        return Ok(false);
    }
    let pieces = split(alloc, text, part)?;
    Ok(shown(alloc, &pieces)?.as_str() == want)
}

#[test]
fn splits(rt: HostRuntime) -> Result<(), Fail> {
    let alloc = rt.alloc();
    for (text, part, want) in &SPLITS {
        assert!(rt; is_split(alloc, text, part, want)?, "at {text}, {part}");
    }
    Ok(())
}

// Whether a text has these words.
fn has_words(alloc: Global, text: &str, want: &str) -> Result<bool, AllocError> {
    let words = split_space(alloc, text)?;
    Ok(shown(alloc, &words)?.as_str() == want)
}

#[test]
fn words(rt: HostRuntime) -> Result<(), Fail> {
    let alloc = rt.alloc();
    for (text, want) in &WORDS {
        assert!(rt; has_words(alloc, text, want)?, "at {text}");
    }
    Ok(())
}

// Whether there is a part, and this comes of a text with another in its place.
fn is_replaced(
    alloc: Global,
    text: &str,
    part: &str,
    by: &str,
    want: &str,
) -> Result<bool, AllocError> {
    if part.is_empty() {
        return Ok(false);
    }
    Ok(replace(alloc, text, part, by)?.as_str() == want)
}

#[test]
fn replaces(rt: HostRuntime) -> Result<(), Fail> {
    let alloc = rt.alloc();
    for (text, part, by, want) in &REPLACES {
        assert!(rt;
            is_replaced(alloc, text, part, by, want)?,
            "at {text}, {part}, {by}"
        );
    }
    Ok(())
}

#[test]
fn strips(rt: HostRuntime) {
    for (text, want) in &STRIPS {
        assert!(rt; strip(text) == *want, "at {text}");
    }
}

// Whether this is a text's repr.
fn is_quoted(alloc: Global, text: &str, want: &str) -> Result<bool, AllocError> {
    Ok(quote(alloc, text)?.as_str() == want)
}

#[test]
fn quotes(rt: HostRuntime) -> Result<(), Fail> {
    let alloc = rt.alloc();
    for (text, want) in &QUOTES {
        assert!(rt; is_quoted(alloc, text, want)?, "at {text}");
    }
    Ok(())
}
