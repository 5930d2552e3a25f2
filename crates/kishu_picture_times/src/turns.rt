// One turn over a state: its groups, its picture, the load of that, and whether what was loaded is the
// same.
use crate::state::State;
use kishu_groups::groups;
use kishu_iso::same;
use kishu_meaning::Steps;
use std::io;
use std::sync::ledger::Ledger;
use std::time::{Duration, Instant};

/// What a turn found, and how long it took.
#[derive(Clone, Copy)]
pub(crate) struct Turn {
    found: Found,
    took: Took,
}

/// How many groups, bytes and nodes there are, and whether what was loaded is the same.
#[derive(Clone, Copy)]
struct Found {
    groups: usize,
    bytes: usize,
    nodes: u32,
    same: bool,
}

/// How long each call took.
#[derive(Clone, Copy)]
struct Took {
    groups: Duration,
    picture_len: Duration,
    picture: Duration,
    load: Duration,
    same: Duration,
}

/// A picture, with the times of its length and of itself.
#[derive(Drop)]
struct Pictured {
    bytes: Vec<u8>,
    len_took: Duration,
    took: Duration,
}

/// What was loaded.
#[derive(Drop)]
struct Loaded {
    state: State,
    took: Duration,
}

/// How many groups there are.
fn time_groups<L: Ledger>(
    rt: &HostRuntime,
    state: &State,
    steps: &mut Steps<L>,
) -> io::Result<(usize, Duration)> {
    let all = state.names.names()?;
    let begun = Instant::now(rt)?;
    let found = groups(rt.alloc(), &state.heap, &state.names, all.as_slice(), steps)?;
    Ok((found.len(), begun.elapsed(rt)?))
}

/// The picture of all names, where it isn't too long.
fn time_picture<L: Ledger>(
    rt: &HostRuntime,
    state: &State,
    steps: &mut Steps<L>,
) -> io::Result<Option<Pictured>> {
    let begun = Instant::now(rt)?;
    let is_short = state.is_short(rt.alloc(), steps)?;
    let len_took = begun.elapsed(rt)?;
    if !is_short {
        return Ok(None);
    }
    let begun = Instant::now(rt)?;
    let bytes = state.picture(rt.alloc(), steps)?;
    let took = begun.elapsed(rt)?;
    Ok(Some(Pictured {
        bytes,
        len_took,
        took,
    }))
}

/// What is loaded from a picture, where it is one and isn't too long.
fn time_load(rt: &HostRuntime, bytes: &[u8]) -> io::Result<Option<Loaded>> {
    if bytes.len() >= u32::MAX as usize {
        return Ok(None);
    }
    let begun = Instant::now(rt)?;
    let Ok(state) = State::loaded(rt.alloc(), bytes) else {
        return Ok(None);
    };
    let took = begun.elapsed(rt)?;
    Ok(Some(Loaded { state, took }))
}

/// Whether two states are the same, where their pictures aren't too long.
fn time_same<L: Ledger>(
    rt: &HostRuntime,
    one: &State,
    other: &State,
    steps: &mut Steps<L>,
) -> io::Result<Option<(bool, Duration)>> {
    let alloc = rt.alloc();
    if !one.is_short(alloc, steps)? || !other.is_short(alloc, steps)? {
        return Ok(None);
    }
    let begun = Instant::now(rt)?;
    let same = same(
        alloc,
        &one.heap,
        &one.names,
        &other.heap,
        &other.names,
        steps,
    )?;
    Ok(Some((same, begun.elapsed(rt)?)))
}

/// Does each call once. Where the picture is too long, or doesn't load, there is nothing to tell.
pub(crate) fn take_turn<L: Ledger>(
    rt: &HostRuntime,
    state: &State,
    steps: &mut Steps<L>,
) -> io::Result<Option<Turn>> {
    let (groups, groups_took) = time_groups(rt, state, steps)?;
    let Some(picture) = time_picture(rt, state, steps)? else {
        return Ok(None);
    };
    let Some(loaded) = time_load(rt, picture.bytes.as_slice())? else {
        return Ok(None);
    };
    let Some((same, same_took)) = time_same(rt, state, &loaded.state, steps)? else {
        return Ok(None);
    };
    Ok(Some(Turn {
        found: Found {
            groups,
            bytes: picture.bytes.len(),
            nodes: loaded.state.heap.len(),
            same,
        },
        took: Took {
            groups: groups_took,
            picture_len: picture.len_took,
            picture: picture.took,
            load: loaded.took,
            same: same_took,
        },
    }))
}

impl Turn {
    /// What was found, with the least of the times of this turn and of another.
    pub(crate) fn least(self, other: Option<Turn>) -> Turn {
        match other {
            Some(other) => Turn {
                found: self.found,
                took: self.took.least(other.took),
            },
            None => self,
        }
    }

    /// Tells what was found on standard output, and the times on standard error.
    pub(crate) fn tell(self, rt: &HostRuntime) -> io::Result<()> {
        self.took.tell(rt)?;
        let Found {
            groups,
            bytes,
            nodes,
            same,
        } = self.found;
        println!(rt; "groups {groups}\nbytes {bytes}\nnodes {nodes}\nsame {same}")
    }
}

impl Took {
    fn least(self, other: Took) -> Took {
        Took {
            groups: self.groups.min(other.groups),
            picture_len: self.picture_len.min(other.picture_len),
            picture: self.picture.min(other.picture),
            load: self.load.min(other.load),
            same: self.same.min(other.same),
        }
    }

    fn tell(self, rt: &HostRuntime) -> io::Result<()> {
        eprintln!(rt; "groups {}", self.groups.as_nanos())?;
        eprintln!(rt; "picture_len {}", self.picture_len.as_nanos())?;
        eprintln!(rt; "picture {}", self.picture.as_nanos())?;
        eprintln!(rt; "load {}", self.load.as_nanos())?;
        eprintln!(rt; "same {}", self.same.as_nanos())
    }
}
