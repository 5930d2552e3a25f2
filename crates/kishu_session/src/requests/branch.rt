// A branch more. The head stays.
ghost use Rattle.std.specs.Prelude.{◌≡◌, Some, None, IfOk, IfErr, OnErr};
ghost use Rattle.std.specs.Rc.{rc_str_bytes};
ghost use Rattle.kishu_store.specs.Entries.{plain, name as named};
ghost use Rattle.kishu_model.specs.Answers.{branched};
ghost use Rattle.kishu_model.specs.Values.{answer_of};
ghost use Rattle.kishu_session.specs.Asked.{branch_for};
ghost use Rattle.kishu_session.specs.Branching.{BranchesAt, IsCause};
ghost use Rattle.kishu_session.specs.Known.{HasHistory};
ghost use Rattle.kishu_session.specs.Prepared.{LeadsAlone, record_in};
ghost use Rattle.kishu_session.specs.TextLists.{text_in};

use crate::head::Head;
use crate::prepared::Prepared;
use crate::refusing::refusal;
use kishu_graph::{Graph, GraphFault};
use kishu_model::Answer;
use kishu_record::Entry;
use std::alloc::{AllocError, Global};
use std::rc::RcStr;

/// Adds a branch at what a reference names, or at the head's commit.
fn add_branch(graph: &mut Graph, name: &str, at: &Option<RcStr>) -> Result<u32, GraphFault>
    ensures branched { IfOk result (BranchesAt graph.old graph.new name.now (text_in at.now)) }
    ensures refused { IfErr result (IsCause graph.old name.now (text_in at.now)) }
    ensures err { OnErr result (graph.new ≡ graph.old) }
{
    match at {
        Some(to) => graph.add_branch(name, Some(to.as_str())),
        None => graph.add_branch(name, None),
    }
}

/// The answer that tells a branch at a commit, and its record.
fn branched(alloc: Global, commit: u32, name: &RcStr) -> Result<Prepared, AllocError>
    ensures answer { IfOk result
        (λ p. answer_of p.answer ≡ Some (branched commit (rc_str_bytes name.now))) }
    ensures record { IfOk result
        (λ p. record_in p.recorded ≡ Some (plain (named (rc_str_bytes name.now) commit))) }
{
    let answer = Answer::Branch {
        commit,
        name: name.clone()?,
    };
    let entry = Entry::Name {
        name: name.clone()?,
        commit,
    };
    Ok(Prepared::with_entry(alloc, answer, entry))
}

impl Head {
    /// Adds a branch at what a reference names, or at the head's commit, and prepares its record. Where it
    /// is refused nothing has changed.
    pub(crate) fn branch(
        &mut self,
        name: &RcStr,
        at: &Option<RcStr>,
    ) -> Result<Prepared, AllocError>
        requires known { HasHistory self.old.graph }
        ensures leads { IfOk result (LeadsAlone self.old self.new (branch_for name.now at.now)) }
        ensures stays { IfOk result (λ p. p.recorded ≡ None → self.new ≡ self.old) }
        ensures live { self.new.live ≡ self.old.live }
    {
        match add_branch(&mut self.graph, name.as_str(), at) {
            Ok(commit) => branched(self.alloc, commit, name),
            Err(fault) => Ok(Prepared::refused(refusal(fault)?)),
        }
    }
}
