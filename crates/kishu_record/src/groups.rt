// Groups of names, as a commit's head tells them.
ghost use Rattle.std.specs.Prelude.{◌≡◌, ◌<◌, ◌^◌, ◌++◌, true, false, List, ℕ, length, map, Ok, None, IfOk, IfSome, IsTrue};
ghost use Rattle.std.specs.List.{AllByRecursion};
ghost use Rattle.std.specs.Rc.{rc_str_bytes};
ghost use Rattle.kishu_store.specs.EntryBytes.{name_bytes, many, group_bytes, stored_bytes};
ghost use Rattle.kishu_store.specs.Groups.{Rise, IsName, IsGroup, AreGroups, IsStored, AreStored, first_name};
ghost use Rattle.kishu_record.specs.Entries.{texts_of, groups_of, stored_of, all_stored_of, title_bytes, group_list_bytes, stored_group_bytes, stored_list_bytes};
ghost use Rattle.kishu_record.specs.Readings.{Begins, BeginsGroups, BeginsStored};
ghost use Rattle.kishu_record.specs.Took.{Took};

use crate::cursor::Cursor;
use crate::order::{groups_rise, names_rise, stored_rise};
use kishu_names::is_name;
use std::alloc::{AllocError, Global};
use std::rc::RcStr;

impl<'a> Cursor<'a> {
    /// The next name of a group, or none where no name follows.
    fn name(&mut self, alloc: Global) -> Result<Option<RcStr>, AllocError>
        ensures found { IfOk result (λ o. IfSome o (λ t. Took self.old (title_bytes t) self.new)) }
        ensures fits { IfOk result (λ o. IfSome o (λ t. IsName (rc_str_bytes t))) }
        ensures none { result ≡ Ok None → Begins name_bytes IsName self.old.rest.now → ⊥ }
    {
        let Some(name) = self.title(alloc)? else {
            return Ok(None);
        };
        if !is_name(name.as_str()) {
            return Ok(None);
        }
        Ok(Some(name))
    }

    /// The next names behind their number, or none where no such names follow.
    fn names(&mut self, alloc: Global) -> Result<Option<Vec<RcStr>>, AllocError>
        requires { length self.old.rest.now < 2 ^ 32 }
        ensures found { IfOk result (λ o. IfSome o (λ v. Took self.old (group_bytes (texts_of v)) self.new)) }
        ensures fit { IfOk result (λ o. IfSome o (λ v. AllByRecursion IsName (texts_of v))) }
        ensures none { result ≡ Ok None → Begins group_bytes (AllByRecursion IsName) self.old.rest.now → ⊥ }
    {
        let Some(count) = self.number() else {
            return Ok(None);
        };
        let mut names = Vec::new(alloc);
        for _ in 0..count {
            let Some(name) = self.name(alloc)? else {
                return Ok(None);
            };
            names.push(name)?;
        }
        Ok(Some(names))
    }

    /// The next group: names in byte order, one at least. Or none where no group follows.
    fn group(&mut self, alloc: Global) -> Result<Option<Vec<RcStr>>, AllocError>
        requires { length self.old.rest.now < 2 ^ 32 }
        ensures found { IfOk result (λ o. IfSome o (λ v. Took self.old (group_bytes (texts_of v)) self.new)) }
        ensures fits { IfOk result (λ o. IfSome o (λ v. IsGroup (texts_of v))) }
        ensures none { result ≡ Ok None → Begins group_bytes IsGroup self.old.rest.now → ⊥ }
    {
        let Some(names) = self.names(alloc)? else {
            return Ok(None);
        };
        if names.is_empty() {
            return Ok(None);
        }
        if !names_rise(&names) {
            return Ok(None);
        }
        Ok(Some(names))
    }

    /// The next groups behind their number, or none where no such groups follow.
    fn group_list(&mut self, alloc: Global) -> Result<Option<Vec<Vec<RcStr>>>, AllocError>
        requires { length self.old.rest.now < 2 ^ 32 }
        ensures found { IfOk result (λ o. IfSome o (λ v. Took self.old (group_list_bytes v) self.new)) }
        ensures fit { IfOk result (λ o. IfSome o (λ v. AllByRecursion IsGroup (groups_of v))) }
        ensures none { result ≡ Ok None → BeginsGroups self.old.rest.now → ⊥ }
    {
        let Some(count) = self.number() else {
            return Ok(None);
        };
        let mut groups = Vec::new(alloc);
        for _ in 0..count {
            let Some(group) = self.group(alloc)? else {
                return Ok(None);
            };
            groups.push(group)?;
        }
        Ok(Some(groups))
    }

    /// The groups that a commit drops, in the order of their first names; or none.
    pub(crate) fn dropped(&mut self, alloc: Global) -> Result<Option<Vec<Vec<RcStr>>>, AllocError>
        requires { length self.old.rest.now < 2 ^ 32 }
        ensures found { IfOk result (λ o. IfSome o (λ v. Took self.old (group_list_bytes v) self.new)) }
        ensures fit { IfOk result (λ o. IfSome o (λ v. AreGroups (groups_of v))) }
        ensures none { result ≡ Ok None → Begins (many group_bytes) AreGroups self.old.rest.now → ⊥ }
    {
        let Some(groups) = self.group_list(alloc)? else {
            return Ok(None);
        };
        if !groups_rise(&groups) {
            return Ok(None);
        }
        Ok(Some(groups))
    }

    /// The next group with the length of its picture, or none where none follows.
    fn stored_group(&mut self, alloc: Global) -> Result<Option<(Vec<RcStr>, u64)>, AllocError>
        requires { length self.old.rest.now < 2 ^ 32 }
        ensures found { IfOk result (λ o. IfSome o (λ s. Took self.old (stored_group_bytes s) self.new)) }
        ensures fits { IfOk result (λ o. IfSome o (λ s. IsStored (stored_of s))) }
        ensures none { result ≡ Ok None → Begins stored_bytes IsStored self.old.rest.now → ⊥ }
    {
        let Some(group) = self.group(alloc)? else {
            return Ok(None);
        };
        let Some(length) = self.length() else {
            return Ok(None);
        };
        Ok(Some((group, length)))
    }

    /// The next such groups behind their number, or none where none follow.
    fn stored_list(&mut self, alloc: Global) -> Result<Option<Vec<(Vec<RcStr>, u64)>>, AllocError>
        requires { length self.old.rest.now < 2 ^ 32 }
        ensures found { IfOk result (λ o. IfSome o (λ v. Took self.old (stored_list_bytes v) self.new)) }
        ensures fit { IfOk result (λ o. IfSome o (λ v. AllByRecursion IsStored (all_stored_of v))) }
        ensures none { result ≡ Ok None → BeginsStored self.old.rest.now → ⊥ }
    {
        let Some(count) = self.number() else {
            return Ok(None);
        };
        let mut stored = Vec::new(alloc);
        for _ in 0..count {
            let Some(group) = self.stored_group(alloc)? else {
                return Ok(None);
            };
            stored.push(group)?;
        }
        Ok(Some(stored))
    }

    /// The groups that a commit stores, in the order of their first names; or none.
    pub(crate) fn stored(
        &mut self,
        alloc: Global,
    ) -> Result<Option<Vec<(Vec<RcStr>, u64)>>, AllocError>
        requires { length self.old.rest.now < 2 ^ 32 }
        ensures found { IfOk result (λ o. IfSome o (λ v. Took self.old (stored_list_bytes v) self.new)) }
        ensures fit { IfOk result (λ o. IfSome o (λ v. AreStored (all_stored_of v))) }
        ensures none { result ≡ Ok None → Begins (many stored_bytes) AreStored self.old.rest.now → ⊥ }
    {
        let Some(stored) = self.stored_list(alloc)? else {
            return Ok(None);
        };
        if !stored_rise(&stored) {
            return Ok(None);
        }
        Ok(Some(stored))
    }
}
