// Which groups cells change, told by a draft and the pictures that are handed for the rows that it asks for.
ghost use Rattle.std.specs.Prelude.{◌≡◌, ◌≤◌, IfOk, true};
ghost use Rattle.kishu_delta.specs.Deltas.{classes_now};
ghost use Rattle.kishu_objects.specs.Sizes.{size_among, most_bytes};
ghost use Rattle.kishu_picture.specs.Held.{held};

use crate::cells::State;
use crate::questions::{Question, is_told};
use kishu_delta::{Asked, Delta, Draft, Kept, StoredGroup, draft, settle, state_len};
use kishu_graph::{Group, Table, TableRow};
use kishu_meaning::Steps;
use std::alloc::{AllocError, Global};
use std::collections::BTreeMap;
use std::rc::RcStr;
use std::sync::ledger::Ledger;
use std::test::Fail;

/// The most bytes of a state's pictures.
const MOST_BYTES: u64 = 1 << 28;

/// What is kept of the cells that ran: the digests, the pictures that were stored, and for each group of the
/// table which of them is its own.
#[derive(Drop)]
struct Stored {
    kept: Kept,
    pictures: Vec<Vec<u8>>,
    places: BTreeMap<Vec<RcStr>, usize>,
}

impl Stored {
    /// Before any cell.
    fn new(alloc: Global) -> Stored {
        Stored {
            kept: Kept::new(alloc),
            pictures: Vec::new(alloc),
            places: BTreeMap::new(alloc),
        }
    }

    /// The table. The place of a row is the number of its picture.
    fn table(&self, alloc: Global) -> Result<Table, AllocError> {
        let mut rows = Vec::new(alloc);
        for (group, place) in self.places.iter() {
            let names = shared(alloc, group)?;
            let (place, len) = (*place as u64, picture(&self.pictures, *place).len() as u64);
            rows.push(TableRow {
                group: Group { names },
                version: 1,
                place,
                len,
            })?;
        }
        Ok(Table { rows })
    }

    /// The pictures of these rows. Those of groups with one of these names end in another byte.
    fn handed(
        &self,
        alloc: Global,
        asked: &[Asked],
        others: &str,
    ) -> Result<Vec<Vec<u8>>, AllocError> {
        let mut handed = Vec::new(alloc);
        for asked in asked {
            let mut bytes = picture(&self.pictures, asked.row.place as usize).to_vec(alloc)?;
            if holds_any(others, &asked.row.group.names) {
                if let Some(last) = bytes.pop() {
                    bytes.push(last ^ 1)?;
                }
            }
            handed.push(bytes)?;
        }
        Ok(handed)
    }

    /// Takes the groups out that leave the table, and puts those in that come.
    fn follow(&mut self, delta: Delta) -> Result<(), AllocError> {
        for group in &delta.dropped {
            self.places.remove(group.as_slice());
        }
        for group in delta.stored {
            self.places.insert(group.names, self.pictures.len())?;
            self.pictures.push(group.bytes)?;
        }
        Ok(())
    }

    /// Keeps the digests of the table's pictures anew, as at an opening.
    fn open(&mut self, alloc: Global) -> Result<(), AllocError> {
        self.kept = Kept::new(alloc);
        for (group, place) in self.places.iter() {
            self.kept.hold(group, picture(&self.pictures, *place))?;
        }
        Ok(())
    }
}

// The picture of a number, and no bytes where there is none.
fn picture(pictures: &[Vec<u8>], place: usize) -> &[u8] {
    match pictures.get(place) {
        Some(bytes) => bytes,
        None => &[],
    }
}

// The names once more.
fn shared(alloc: Global, group: &[RcStr]) -> Result<Vec<RcStr>, AllocError> {
    let mut names = Vec::new(alloc);
    for name in group {
        names.push(name.clone()?)?;
    }
    Ok(names)
}

// Whether a group has one of the names of a list: a space stands between two.
fn holds_any(names: &str, group: &[RcStr]) -> bool {
    for name in group {
        for other in names.split(' ') {
            if other == name.as_str() {
                return true;
            }
        }
    }
    false
}

// ---- what is told

fn push_names(all: &mut String, group: &[RcStr]) -> Result<(), AllocError> {
    for name in group {
        all.push_str(name.as_str())?;
        all.push_str(" ")?;
    }
    Ok(())
}

// The groups of rows that are asked for, each with the length of its picture.
fn asked_told(alloc: Global, asked: &[Asked]) -> Result<String, AllocError> {
    let mut all = String::new(alloc);
    all.push_str("? ")?;
    for asked in asked {
        push_names(&mut all, &asked.row.group.names)?;
        all.push_str(format!(in alloc; "{} ", asked.bytes.len())?.as_str())?;
    }
    Ok(all)
}

// The groups that leave the table, and those that come in.
fn push_delta(all: &mut String, delta: &Delta) -> Result<(), AllocError> {
    all.push_str("- ")?;
    for group in &delta.dropped {
        push_names(all, group)?;
        all.push_str("| ")?;
    }
    all.push_str("+ ")?;
    for group in &delta.stored {
        push_names(all, &group.names)?;
        all.push_str("| ")?;
    }
    Ok(())
}

// Whether the pictures of the classes of the touched names can be made.
fn is_small<L: Ledger>(
    alloc: Global,
    table: &Table,
    state: &State,
    steps: &mut Steps<L>,
) -> Result<bool, AllocError>
    ensures { IfOk result (λ told. told ≡ true
        → size_among (classes_now table.now state.now.heap state.now.names)
        (held state.now.heap state.now.names) ≤ most_bytes) }
{
    let bytes = state_len(alloc, table, &state.heap, &state.names, steps)?;
    Ok(bytes <= MOST_BYTES)
}

// What the cell changed that ran, where its pictures can be made.
fn drafted<L: Ledger>(
    alloc: Global,
    kept: &Kept,
    table: &Table,
    state: &State,
    steps: &mut Steps<L>,
) -> Result<Option<Draft>, AllocError> {
    if is_small(alloc, table, state, steps)? {
        let draft = draft(alloc, kept, table, &state.heap, &state.names, steps)?;
        Ok(Some(draft))
    } else {
        Ok(None)
    }
}

// Runs a cell, and tells what it changes. Behind it and a `\x1f` may stand names: of the groups that have one
// of them other pictures are handed.
fn changed<L: Ledger>(
    alloc: Global,
    stored: &mut Stored,
    state: &mut State,
    cell: &str,
    steps: &mut Steps<L>,
) -> Result<String, AllocError> {
    let (text, others) = match cell.split_once('\x1f') {
        Some(parts) => parts,
        None => (cell, ""),
    };
    state.names.clear_record();
    state.run(alloc, text, steps)?;
    let table = stored.table(alloc)?;
    let Some(draft) = drafted(alloc, &stored.kept, &table, state, steps)? else {
        return String::from_str(alloc, "too large");
    };
    let mut all = asked_told(alloc, &draft.asked)?;
    let handed = stored.handed(alloc, &draft.asked, others)?;
    if handed.len() != draft.asked.len() {
        return String::from_str(alloc, "not as many");
    }
    let delta = settle(alloc, &mut stored.kept, draft, &handed)?;
    push_delta(&mut all, &delta)?;
    stored.follow(delta)?;
    Ok(all)
}

/// What each of these cells changes, in turn: `\x1e` stands between them. Before each the digests may be kept
/// anew.
pub(crate) fn changes_told<L: Ledger>(
    alloc: Global,
    state: State,
    cells: &str,
    opens: bool,
    steps: &mut Steps<L>,
) -> Result<String, AllocError> {
    let mut stored = Stored::new(alloc);
    let mut state = state;
    let mut all = String::new(alloc);
    for cell in cells.split('\x1e') {
        if opens {
            stored.open(alloc)?;
        }
        all.push_str(changed(alloc, &mut stored, &mut state, cell, steps)?.as_str())?;
    }
    Ok(all)
}

/// Cells, and what each changes: `?` the groups that are asked for, each with the length of its picture, `-`
/// those that leave the table, and `+` those that come in.
const CHANGES: [(&str, &str); 6] = [
    // A group is parted.
    (
        "x = [1]; y = [x]; z = [2]\x1ey = 0",
        "? - + x y | z | ? - x y | + x | y | ",
    ),
    // A list is changed that a function reaches by its name alone.
    (
        "L = []\x1edef f(): L.append(1)\x1ef()",
        "? - + L | ? - + f | ? f 45 - L | + L | ",
    ),
    // A group is joined by what a default holds.
    (
        "def g(x, acc=[]): acc.append(x); return acc\x1ep = g(1)\x1ep = 0",
        "? - + g | ? - g | + g p | ? - g p | + g | p | ",
    ),
    // What is written is what was there, and then it isn't.
    ("a = [1]\x1ea[0] = 1", "? - + a | ? a 37 - + "),
    ("a = [1]\x1ea[0] = 2", "? - + a | ? - a | + a | "),
    // Groups come and go in the order of their first names.
    (
        "b = 1; d = 2; f = 3\x1edel b, f; a = 4; e = d",
        "? - + b | d | f | ? d 27 - b | f | + a | e | ",
    ),
];

#[test]
fn changes_of_cells(rt: HostRuntime) -> Result<(), Fail> {
    let alloc = rt.alloc();
    for (cells, want) in &CHANGES {
        assert!(rt;
            is_told(alloc, Question::Changes, "", cells, want)?,
            "at {cells}"
        );
        assert!(rt;
            is_told(alloc, Question::ChangesOnceOpened, "", cells, want)?,
            "at {cells}, opened"
        );
    }
    Ok(())
}

/// Cells, of which some have names behind them: of the groups with one of these other pictures are handed
/// than those that were stored. So digests are equal, and bytes aren't.
const CHANGES_BY_OTHER_PICTURES: [(&str, &str); 2] = [
    // Those join both lists whose pictures differ, in the order of first names. Behind the next cell the
    // stored pictures are handed, and it changes nothing.
    (
        "a = [1]; b = 5; c = 7; d = 8\x1ea; b = 6; c; d\x1fa d\x1ea; b; c; d",
        "? - + a | b | c | d | ? a 37 c 27 d 27 - a | b | d | + a | b | d | ? a 37 b 27 c 27 d 27 - + ",
    ),
    // All join.
    (
        "a = []; b = a; c = 7\x1ec; a\x1fb c",
        "? - + a b | c | ? a b 27 c 27 - a b | c | + a b | c | ",
    ),
];

#[test]
fn changes_by_other_pictures(rt: HostRuntime) -> Result<(), Fail> {
    let alloc = rt.alloc();
    for (cells, want) in &CHANGES_BY_OTHER_PICTURES {
        assert!(rt;
            is_told(alloc, Question::Changes, "", cells, want)?,
            "at {cells}"
        );
    }
    Ok(())
}
