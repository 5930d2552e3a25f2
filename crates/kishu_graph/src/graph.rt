// A graph, and what is read of it.
ghost use Rattle.std.specs.Prelude.{◌≡◌, ◌<◌, ◌≤◌, suc, [], IsTrue, IfOk, IfSome, MatchOption, Some, None, length, get_or, map, option_map};
ghost use Rattle.std.specs.List.{list_all};
ghost use Rattle.kishu_store.specs.Graph.{new_graph, newest};
ghost use Rattle.kishu_store.specs.Limits.{most_records};
ghost use Rattle.kishu_language.specs.tokens.Names.{is_digit};
ghost use Rattle.kishu_store.specs.References.{resolve, number_from};
ghost use Rattle.kishu_store.specs.Targets.{target_of};
ghost use Rattle.kishu_graph.specs.Facts.{Answers, Tells, below, start_from};
ghost use Rattle.kishu_graph.specs.Kept.{HasShapeOf, StandsFor, TellsChanges, IsSound, root, bare_graph, outline_in, path_numbers, branches_of, Rises};
ghost use Rattle.kishu_graph.specs.Refusals.{start_of};

use crate::branches;
use crate::buffer::LineBuffer;
use crate::commits::{Commit, path_to};
use crate::heads::HeadRows;
use crate::references::{is_decimal, number_of};
use crate::tables::Noted;
use kishu_language::Profile;
use kishu_store::Target;
use std::alloc::{AllocError, Global};
use std::collections::{BTreeMap, BTreeSet};
use std::marker::Model;
use std::rc::RcStr;

/// Commits, branches, a head, a number of records, and the tables of the commits.
#[derive(Drop)]
pub struct Graph {
    pub(crate) alloc: Global,
    /// By their numbers, the root first.
    pub(crate) commits: Vec<Commit>,
    /// By the numbers of the commits.
    pub(crate) lines: LineBuffer,
    pub(crate) branches: BTreeMap<RcStr, u32>,
    pub(crate) head: Target,
    pub(crate) records: u32,
    /// By the numbers of the commits.
    pub(crate) noted: Vec<Noted>,
    /// Each name that a noted row has, once: its text is shared.
    pub(crate) texts: BTreeSet<RcStr>,
    /// The rows of one commit's table: of the one whose groups were noted last, or of a commit behind it that
    /// changes none.
    pub(crate) head_rows: HeadRows,
}

impl Model for Graph {
    ghost use Rattle.kishu_graph.specs.Heads.{AreAllKept};
    ghost use Rattle.kishu_graph.specs.Buffers.{lines_in};
    ghost use Rattle.kishu_graph.specs.Kept.{Kept, kept_in, told};

    ghost Value = { Kept };

    ghost view = { λ g.
        told (lines_in g.lines) (kept_in g.commits.items g.branches.entries g.head g.records g.noted.items) };

    ghost invariant = { λ g.
        AreAllKept g.commits.items g.lines g.branches.entries g.head g.records g.noted.items g.head_rows };
}

impl Graph {
    /// The graph of a new store: the root, the branch `main` there, and the head on it.
    pub fn new(alloc: Global) -> Result<Graph, AllocError>
        ensures graph { IfOk result (λ graph. StandsFor graph new_graph) }
        ensures tables { IfOk result (λ graph. TellsChanges graph []) }
    {
        let mut commits = Vec::new(alloc);
        commits.push(Commit {
            parent: 0,
            cells: 0,
            profile: Profile::One,
        })?;
        let lines = LineBuffer::of_root(alloc)?;
        let mut noted = Vec::new(alloc);
        noted.push(Noted::bare(Some(0)))?;
        let main = RcStr::from_str(alloc, "main")?;
        let mut branches = BTreeMap::new(alloc);
        branches::put(&mut branches, main.clone()?, 0)?;
        Ok(Graph {
            alloc,
            commits,
            lines,
            branches,
            head: Target {
                commit: 0,
                branch: Some(main),
            },
            records: 0,
            noted,
            texts: BTreeSet::new(alloc),
            head_rows: HeadRows::of_root(alloc),
        })
    }

    /// How many commits there are, the root counted.
    pub fn commits(&self) -> u32
        ensures value { result ≡ length self.now.commits }
        ensures newest { Answers self.now (λ g. suc (newest g)) result }
        ensures sound { IsSound self.now }
        ensures shape { HasShapeOf self.now (bare_graph self.now) }
    {
        self.commits.len() as u32
    }

    /// How many records there are.
    pub fn records(&self) -> u32
        ensures value { result ≡ self.now.records }
        ensures most { result ≤ most_records }
    {
        self.records
    }

    /// The number of a commit's parent. The commit is there, and isn't the root.
    pub fn parent(&self, commit: u32) -> u32
        requires there { commit < length self.now.commits }
        requires not_root { 0 < commit }
        ensures value { Answers self.now (λ g. (outline_in g.commits commit).parent) result }
        ensures older { result < commit }
    {
        self.commits[commit as usize].parent
    }

    /// The profile under which a commit's cells run. The commit is there.
    pub fn profile(&self, commit: u32) -> Profile
        requires { commit < length self.now.commits }
        ensures { Answers self.now (λ g. (outline_in g.commits commit).profile) result }
    {
        self.commits[commit as usize].profile
    }

    /// How many cells a commit has. The commit is there.
    pub fn cells(&self, commit: u32) -> u32
        requires { commit < length self.now.commits }
        ensures kept { result ≡ (get_or self.now.commits commit root).cells }
        ensures told { Tells self.now (λ o. o.cells) commit result }
    {
        self.commits[commit as usize].cells
    }

    /// The line by which a commit is told. The commit is there.
    pub fn line(&self, commit: u32) -> &str
        requires { commit < length self.now.commits }
        ensures kept { result.now ≡ (get_or self.now.commits commit root).line }
        ensures told { Tells self.now (λ o. o.line) commit result.now }
    {
        self.lines.line(commit as usize)
    }

    /// Where the head stands.
    pub fn head(&self) -> &Target
        ensures value { target_of result.now ≡ self.now.head }
        ensures there { result.now.commit < length self.now.commits }
    {
        &self.head
    }

    /// The branches with the numbers of their commits, in byte order of the names. An error says that
    /// no memory is left.
    pub fn branches(&self) -> Result<Vec<(RcStr, u32)>, AllocError>
        ensures branches { IfOk result (λ all. branches_of all.items ≡ self.now.branches) }
        ensures order { Rises (map (λ b. b.0) self.now.branches) }
    {
        branches::all(self.alloc, &self.branches)
    }

    /// What a text names: decimal digits without leading zeros the commit of that number, any other
    /// text the branch of that name; or none. An error says that no memory is left.
    pub fn resolve(&self, to: &str) -> Result<Option<Target>, AllocError>
        ensures value { IfOk result (λ o. Answers self.now (λ g. resolve g to.now) (option_map target_of o)) }
        ensures there { IfOk result (λ o. IfSome o (λ t. t.commit < length self.now.commits)) }
    {
        let digits = to.as_bytes();
        if is_decimal(digits) {
            return Ok(at_number(self.numbered(digits)));
        }
        branches::target_of(&self.branches, to)
    }

    /// The numbers of the commits from the root, which has the number 0, to this one, which is there.
    /// An error says that no memory is left.
    pub fn path(&self, commit: u32) -> Result<Vec<u32>, AllocError>
        requires { commit < length self.now.commits }
        ensures { IfOk result (λ v. Answers self.now (λ g. path_numbers g.commits commit) v.items) }
    {
        path_to(self.alloc, &self.commits, commit)
    }

    /// The commit of a number, where the graph has one.
    pub(crate) fn there(&self, commit: u32) -> Option<u32>
        ensures { result ≡ below commit (length self.now.commits) }
    {
        below(commit, self.commits())
    }

    /// The commit of the number that these digits spell.
    fn numbered(&self, digits: &[u8]) -> Option<u32>
        requires { IsTrue (list_all is_digit digits.now) }
        ensures { result ≡ below (number_from 0 digits.now) (length self.now.commits) }
    {
        let commits = self.commits();
        counted(number_of(digits), commits)
    }

    /// The commit of what a text names.
    pub(crate) fn find(&self, to: &str) -> Option<u32>
        ensures value { Answers self.now (start_of (Some to.now)) result }
        ensures there { IfSome result (λ c. c < length self.now.commits) }
    {
        let digits = to.as_bytes();
        if is_decimal(digits) {
            self.numbered(digits)
        } else {
            branches::commit_of(&self.branches, to)
        }
    }

    /// Where a branch begins: at the commit of what a text names, or else at the head's.
    pub(crate) fn start(&self, at: Option<&str>) -> Option<u32>
        ensures value { Answers self.now (start_from at.entry) result }
        ensures there { IfSome result (λ c. c < length self.now.commits) }
    {
        match at {
            Some(to) => self.find(to),
            None => Some(self.head.commit),
        }
    }
}

/// Where a head stands that goes to the commit of a number.
pub(crate) fn at_number(commit: Option<u32>) -> Option<Target>
    ensures { option_map target_of result ≡ option_map (λ c. record { commit = c; branch = None }) commit }
{
    match commit {
        Some(commit) => Some(Target {
            commit,
            branch: None,
        }),
        None => None,
    }
}

/// A number of a commit, where there are so many commits.
fn below(number: u32, commits: u32) -> Option<u32>
    ensures { result ≡ below number commits }
{
    if number < commits { Some(number) } else { None }
}

/// The same of a number that may be missing.
fn counted(number: Option<u32>, commits: u32) -> Option<u32>
    ensures { MatchOption number (result ≡ None) (λ n. result ≡ below n commits) }
{
    match number {
        Some(number) => below(number, commits),
        None => None,
    }
}
