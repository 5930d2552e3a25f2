// The digests that are kept.
ghost use Rattle.std.specs.Prelude.{◌≡◌, OnOk, OnErr, None, Some};
ghost use Rattle.kishu_names.specs.Record.{texts_of};
ghost use Rattle.kishu_store.specs.Groups.{Group};
ghost use Rattle.kishu_delta.specs.Kept.{digest_of, kept_of, is_kept, KeepsDigest};

use crate::digest::Digest;
use crate::sets::shared;
use std::alloc::{AllocError, Global};
use std::collections::BTreeMap;
use std::marker::Model;
use std::rc::RcStr;

/// The digest and the length of the picture of each group of the head's table.
#[derive(Drop)]
pub struct Kept {
    alloc: Global,
    digests: BTreeMap<Vec<RcStr>, Digest>,
}

impl Model for Kept {
    ghost use Rattle.kishu_delta.specs.Kept.{Digests, digests_of};

    ghost Value = { Digests };

    ghost view = { λ k. digests_of k.digests.entries };
}

impl Kept {
    /// Nothing is kept.
    pub fn new(alloc: Global) -> Kept
        ensures { (g : Group) → kept_of result g ≡ None }
    {
        Kept {
            alloc,
            digests: BTreeMap::new(alloc),
        }
    }

    /// Keeps the digest and the length of a group's picture, in the place of what was kept of it; other
    /// groups stay. An error says that no memory is left; then all is as before.
    pub fn hold(&mut self, group: &[RcStr], bytes: &[u8]) -> Result<(), AllocError>
        ensures ok { OnOk result (KeepsDigest (texts_of group.now) (Some (digest_of bytes.now))
            self.old self.new) }
        ensures err { OnErr result (self.new ≡ self.old) }
    {
        let names = shared(self.alloc, group)?;
        self.digests.insert(names, Digest::of(bytes))?;
        Ok(())
    }

    /// Forgets a group, where something is kept of it; other groups stay.
    pub fn forget(&mut self, group: &[RcStr])
        ensures { KeepsDigest (texts_of group.now) None self.old self.new }
    {
        self.digests.remove(group);
    }

    /// Whether the digest and the length of these bytes are kept of a group.
    pub(crate) fn is_kept(&self, group: &[RcStr], bytes: &[u8]) -> bool
        ensures { result ≡ is_kept self.now (texts_of group.now) bytes.now }
    {
        match self.digests.get(group) {
            Some(digest) => digest.is_of(bytes),
            None => false,
        }
    }
}
