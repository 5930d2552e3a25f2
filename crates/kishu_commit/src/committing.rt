// The record of cells that were run.
ghost use Rattle.std.specs.Prelude.{◌≡◌, IfOk, map};
ghost use Rattle.kishu_names.specs.Record.{texts_of};
ghost use Rattle.kishu_delta.specs.Deltas.{groups_among, pictures_among, groups_dropped, groups_stored, pictures_stored};
ghost use Rattle.kishu_record.specs.Entries.{all_stored_of, record_of};
ghost use Rattle.kishu_commit.specs.Told.{with_lengths, record_with};

use kishu_delta::{Delta, StoredGroup};
use kishu_model::Profile;
use kishu_record::Entry;
use std::alloc::{AllocError, Global};
use std::rc::RcStr;

/// What a record says, and the pictures of the groups that it stores, in their order.
#[derive(Drop)]
pub struct Record {
    pub entry: Entry,
    pub pictures: Vec<Vec<u8>>,
}

/// Groups with the lengths of their pictures in bytes, and these pictures.
#[derive(Drop)]
struct Stored {
    groups: Vec<(Vec<RcStr>, u64)>,
    pictures: Vec<Vec<u8>>,
}

/// Texts once more. They are shared.
fn shared(alloc: Global, texts: &[RcStr]) -> Result<Vec<RcStr>, AllocError>
    ensures { IfOk result (λ v. texts_of v.items ≡ texts_of texts.now) }
{
    let mut again = Vec::new(alloc);
    for text in texts {
        again.push(text.clone()?)?;
    }
    Ok(again)
}

/// The groups and their pictures, each for itself.
fn apart(alloc: Global, groups: Vec<StoredGroup>) -> Result<Stored, AllocError>
    ensures groups { IfOk result (λ s. all_stored_of s.groups
        ≡ with_lengths (groups_among groups.items) (pictures_among groups.items)) }
    ensures pictures { IfOk result (λ s. map (λ p. p.items) s.pictures.items ≡ pictures_among groups.items) }
{
    let mut stored = Stored {
        groups: Vec::new(alloc),
        pictures: Vec::new(alloc),
    };
    for group in groups {
        let StoredGroup { names, bytes } = group;
        stored.groups.push((names, bytes.len() as u64))?;
        stored.pictures.push(bytes)?;
    }
    Ok(stored)
}

/// The record of a commit of cells, which were run on the state of this parent: it drops the groups that
/// left the parent's table, and stores those that came in, each with its picture.
///
/// An error says that no memory is left.
pub fn commit(
    alloc: Global,
    parent: u32,
    cells: &[RcStr],
    delta: Delta,
) -> Result<Record, AllocError>
    ensures record { IfOk result (λ r. record_of r.entry r.pictures.items
        ≡ record_with parent (texts_of cells.now) (groups_dropped delta) (groups_stored delta)
        (pictures_stored delta)) }
{
    let Delta { dropped, stored } = delta;
    let Stored { groups, pictures } = apart(alloc, stored)?;
    let entry = Entry::Commit {
        parent,
        profile: Profile::One,
        cells: shared(alloc, cells)?,
        dropped,
        stored: groups,
    };
    Ok(Record { entry, pictures })
}
