// What a record changes in a graph.
ghost use Rattle.std.specs.Prelude.{◌≡◌, ◌<◌, ◌⊎◌, ◌↔◌, ◌++◌, ◌∷◌, [], suc, IfOk, IfErr, IfSome, OnOk, OnErr, IsErrOf, length, option_map};
ghost use Rattle.kishu_store.specs.Graph.{newest};
ghost use Rattle.kishu_store.specs.Limits.{most_records};
ghost use Rattle.kishu_store.specs.References.{resolve};
ghost use Rattle.kishu_store.specs.Tables.{no_change};
ghost use Rattle.kishu_store.specs.Targets.{target_of};
ghost use Rattle.kishu_graph.specs.Facts.{Answers, start_from, with_newest, ShapesCommit, StandsForCommit, MovesTo, BeginsAt, RefusesMove, RefusesBranch, OrNoMemory};
ghost use Rattle.kishu_graph.specs.Kept.{noted_of};
ghost use Rattle.kishu_graph.specs.Refusals.{at_commit, at_branch, start_at};
ghost use Rattle.kishu_graph.specs.declared.fault.GraphFault.TheVariants.{StoreFull, NoMemory};

use crate::commits::{Commit, make_room, push_in_room};
use crate::graph::at_number;
use crate::references::is_branch_name;
use crate::tables::Noted;
use crate::{Graph, GraphFault, branches};
use kishu_language::Profile;
use kishu_store::{MOST_RECORDS, Target};
use std::rc::RcStr;

impl Graph {
    /// Adds a commit to the head's, and answers its number: its profile, how many cells it has, and its
    /// line. The head moves to it, and with it the branch on which the head stands.
    ///
    /// After an error nothing has changed.
    ///
    /// - `StoreFull`: there are 1,000,000 records.
    /// - `NoMemory`: there was no memory.
    pub fn add_commit(
        &mut self,
        profile: Profile,
        cells: u32,
        line: &str,
    ) -> Result<u32, GraphFault>
        ensures number { IfOk result (λ c. Answers self.old (λ g. suc (newest g)) c) }
        ensures added { OnOk result (self.new.commits ≡ with_newest profile cells line.now self.old) }
        ensures shape { OnOk result (ShapesCommit profile self.old self.new) }
        ensures stands { IfOk result (λ c. StandsForCommit profile cells line.now self.old self.new) }
        ensures noted { OnOk result (self.new.noted ≡ self.old.noted ++ (noted_of no_change ∷ [])) }
        ensures room { OnOk result (self.old.records < most_records) }
        ensures full { IsErrOf result StoreFull ↔ (self.old.records ≡ most_records) }
        ensures only_these { IfErr result (λ e. (e ≡ StoreFull) ⊎ (e ≡ NoMemory)) }
        ensures err { OnErr result (self.new ≡ self.old) }
    {
        if self.records >= MOST_RECORDS {
            return Err(GraphFault::StoreFull);
        }
        let number = self.commits.len() as u32;
        let commit = Commit {
            parent: self.head.commit,
            cells,
            profile,
        };
        let bare = Noted::bare(self.noted[self.head.commit as usize].rows);
        let Ok(()) = make_room(&mut self.commits, &mut self.noted) else {
            return Err(GraphFault::NoMemory);
        };
        let Ok(()) = self.lines.reserve(line) else {
            return Err(GraphFault::NoMemory);
        };
        let Ok(()) = branches::move_along(&mut self.branches, &self.head.branch, number) else {
            return Err(GraphFault::NoMemory);
        };
        push_in_room(&mut self.commits, commit);
        push_in_room(&mut self.noted, bare);
        self.lines.add(line);
        self.head_rows.go_on(self.head.commit, number);
        self.head.commit = number;
        self.records += 1;
        Ok(number)
    }

    /// Adds a branch at what a text names, or at the head's commit, and answers its commit. The head
    /// stays where it is.
    ///
    /// After an error nothing has changed. The causes are tried in this order.
    ///
    /// - `BadName`: no branch may have this name.
    /// - `NameTaken`: there is a branch of this name.
    /// - `NoSuchRef`: the text names no commit and no branch.
    /// - `StoreFull`: there are 1,000,000 records.
    /// - `NoMemory`: there was no memory.
    pub fn add_branch(&mut self, name: &str, at: Option<&str>) -> Result<u32, GraphFault>
        ensures branched { IfOk result (λ c. BeginsAt name.now (start_from at.entry) c self.old self.new) }
        ensures refused { IfErr result (OrNoMemory (RefusesBranch name.now (start_from at.entry) self.old)) }
        ensures err { OnErr result (self.new ≡ self.old) }
    {
        let start = self.start(at);
        self.branch_from(name, start)
    }

    /// Adds a branch at the commit of a number, as `add_branch` does.
    pub fn add_branch_at(&mut self, name: &str, commit: u32) -> Result<u32, GraphFault>
        ensures branched { IfOk result (λ c. BeginsAt name.now (start_at commit) c self.old self.new) }
        ensures refused { IfErr result (OrNoMemory (RefusesBranch name.now (start_at commit) self.old)) }
        ensures err { OnErr result (self.new ≡ self.old) }
    {
        let start = self.there(commit);
        self.branch_from(name, start)
    }

    /// Adds a branch at a commit that is there, if it is.
    fn branch_from(&mut self, name: &str, start: Option<u32>) -> Result<u32, GraphFault>
        requires there { IfSome start (λ c. c < length self.old.commits) }
        ensures branched { IfOk result (λ c. BeginsAt name.now (λ g. start) c self.old self.new) }
        ensures refused { IfErr result (OrNoMemory (RefusesBranch name.now (λ g. start) self.old)) }
        ensures err { OnErr result (self.new ≡ self.old) }
    {
        if !is_branch_name(name) {
            return Err(GraphFault::BadName);
        }
        if branches::commit_of(&self.branches, name).is_some() {
            return Err(GraphFault::NameTaken);
        }
        let Some(commit) = start else {
            return Err(GraphFault::NoSuchRef);
        };
        if self.records >= MOST_RECORDS {
            return Err(GraphFault::StoreFull);
        }
        let Ok(text) = RcStr::from_str(self.alloc, name) else {
            return Err(GraphFault::NoMemory);
        };
        let Ok(()) = branches::put(&mut self.branches, text, commit) else {
            return Err(GraphFault::NoMemory);
        };
        self.records += 1;
        Ok(commit)
    }

    /// Moves the head to what a text names, and answers the commit on which it stands then. No commit
    /// and no branch changes.
    ///
    /// After an error nothing has changed. The causes are tried in this order.
    ///
    /// - `NoSuchRef`: the text names no commit and no branch.
    /// - `StoreFull`: there are 1,000,000 records.
    /// - `NoMemory`: there was no memory.
    pub fn move_head(&mut self, to: &str) -> Result<u32, GraphFault>
        ensures moved { IfOk result (λ c. MovesTo (λ g. resolve g to.now) c self.old self.new) }
        ensures refused { IfErr result (OrNoMemory (RefusesMove (λ g. resolve g to.now) self.old)) }
        ensures err { OnErr result (self.new ≡ self.old) }
    {
        let Ok(target) = self.resolve(to) else {
            return Err(GraphFault::NoMemory);
        };
        self.stand_at(target)
    }

    /// Moves the head to the commit of a number, as `move_head` does. It takes no memory.
    pub fn move_to_commit(&mut self, commit: u32) -> Result<u32, GraphFault>
        ensures moved { IfOk result (λ c. MovesTo (at_commit commit) c self.old self.new) }
        ensures refused { IfErr result (λ e. RefusesMove (at_commit commit) self.old e) }
        ensures err { OnErr result (self.new ≡ self.old) }
    {
        let target = at_number(self.there(commit));
        self.stand_at(target)
    }

    /// Moves the head to a branch, whatever its name looks like, as `move_head` does.
    pub fn move_to_branch(&mut self, name: &str) -> Result<u32, GraphFault>
        ensures moved { IfOk result (λ c. MovesTo (at_branch name.now) c self.old self.new) }
        ensures refused { IfErr result (OrNoMemory (RefusesMove (at_branch name.now) self.old)) }
        ensures err { OnErr result (self.new ≡ self.old) }
    {
        let Ok(target) = branches::target_of(&self.branches, name) else {
            return Err(GraphFault::NoMemory);
        };
        self.stand_at(target)
    }

    /// Moves the head to a target, if there is one.
    fn stand_at(&mut self, target: Option<Target>) -> Result<u32, GraphFault>
        requires there { IfSome target (λ t. t.commit < length self.old.commits) }
        ensures moved { IfOk result (λ c. MovesTo (λ g. option_map target_of target) c self.old self.new) }
        ensures refused { IfErr result (λ e. RefusesMove (λ g. option_map target_of target) self.old e) }
        ensures err { OnErr result (self.new ≡ self.old) }
    {
        let Some(target) = target else {
            return Err(GraphFault::NoSuchRef);
        };
        if self.records >= MOST_RECORDS {
            return Err(GraphFault::StoreFull);
        }
        let commit = target.commit;
        self.head = target;
        self.records += 1;
        Ok(commit)
    }
}
