// The answering of requests.
ghost use Rattle.std.specs.Prelude.{ℕ, ◌≡◌, ◌≤◌, ◌⊎◌, ◌↔◌, true, IfOk, IfErr, OnOk, IsErr, IsErrOf, IsSome};
ghost use Rattle.kishu_host.specs.Host.{ReadsMore};
ghost use Rattle.kishu_model.specs.Values.{request_of, answer_of};
ghost use Rattle.kishu_model.specs.requests.Cells.{HasRoom};
ghost use Rattle.kishu_journal.specs.Going.{IsQuiet};
ghost use Rattle.kishu_session.specs.Applying.{IsAnswer, IsIdle, CarriesRenewed, StaysAttached, Counts, CountsAtMost, StaysAtEnd, StaysLive, IsBackAt, KeepsOld, LacksHere, LeavesCounter, MakesNodes, ReadsAsked, ReadsLoaded, RecordsOne, LeavesBeforeOrAfter, LeavesHere, KeepsSmall, TellsAlone};
ghost use Rattle.kishu_session.specs.Attached.{IsReady};
ghost use Rattle.kishu_session.specs.Bounded.{IsBounded};
ghost use Rattle.kishu_session.specs.Faults.{DiskFailed};
ghost use Rattle.kishu_session.specs.Head.{IsKnown};
ghost use Rattle.kishu_session.specs.Becoming.{GoesOnLive, IsAnswerHere, LeavesAnew};
ghost use Rattle.kishu_session.specs.Prepared.{RefusesFor, LeavesLarge};
ghost use Rattle.kishu_session.specs.Recording.{StaysDurable};
ghost use Rattle.kishu_session.specs.Refusing.{IsRefusal, RefusesSize};
ghost use Rattle.kishu_session.specs.declared.halt.Halt.TheVariants.{DiskFault, Damaged, NoMemory, Closed};

use crate::recording::record;
use crate::{Halt, Session};
use kishu_host::Host;
use kishu_model::{Answer, Request, Steps};
use std::sync::ledger::Ledger;

impl Session {
    /// Answers a request, and records it where it changes the store. A refusal is an answer.
    ///
    /// Before a cell runs, and before a checkout that isn't refused loads, a live state of more than 8,000,000
    /// nodes is loaded anew from its own pictures. No answer shows it.
    ///
    /// Unless an earlier call ended it, the session stands at the end of the file that the host tells. The
    /// texts of `cells`, each with four bytes more, have together at most 2^26 bytes.
    ///
    /// After an error the session is closed.
    ///
    /// - `Closed`: an earlier call ended the session. The host isn't called.
    /// - `Damaged`: at that place there is no picture of a group that a checkout loads, or of one of the
    ///   head's: cells that leave a state that is too large go back to these, and cells that would be
    ///   committed ask for those that they left with the digests that they had.
    /// - `DiskFault`: a call of the host failed. The store holds the graph before or after the request.
    /// - `NoMemory`: there was no memory.
    pub fn apply<H: Host, L: Ledger>(
        &mut self,
        host: &mut H,
        request: &Request,
        steps: &mut Steps<L>,
    ) -> Result<Answer, Halt>
        requires at_end { IsReady self.old (H.state host.old) }
        requires room { HasRoom (request_of request.now) }

        // From a session that is attached to the graph of its host's file, the answer is that of one step of
        // the machine that replays each commit from empty, and the session stays attached, to the graph after
        // the request.
        ensures answered { IfOk result (IsAnswer self.old (H.state host.old) request.now) }
        ensures attached { OnOk result
            (StaysAttached self.old self.new (H.state host.old) (H.state host.new) request.now) }

        // From one that stands at the file's end, whatever its live state is, the file's graph becomes the one
        // after the request on that state, by one record at most.
        ensures at_end { OnOk result
            (StaysAtEnd self.old self.new (H.state host.old) (H.state host.new) request.now) }
        ensures bytes { OnOk result (RecordsOne self.old (H.state host.old) (H.state host.new)) }

        // So the answer is the one on the live state. That becomes the same as the one that the request's cells
        // left, where they are committed, and just that one where it wasn't loaded anew before one of them;
        // else it stays, or is carried on to the head of the graph after the request, or is loaded anew for
        // the head, where the request's cells left a state that is too large.
        ensures answered_here { IfOk result (IsAnswerHere self.old (H.state host.old) request.now) }
        ensures goes_on { OnOk result (GoesOnLive self.old self.new (H.state host.old) request.now) }

        // A state of more than 8,000,000 nodes is loaded anew before each cell and before a checkout, and no
        // other is: cells that are committed leave just what they leave then, and a checkout that isn't refused
        // carries on just that state.
        ensures anew { OnOk result (LeavesAnew self.old self.new (H.state host.old) request.now) }
        ensures carries { IfOk result
            (λ a. CarriesRenewed self.old self.new (H.state host.old) request.now a) }

        // A checkout that isn't refused leaves the nodes that were there, from at most 8,000,000; and from an
        // attached session the names of the groups that both commits have with one version keep their values.
        ensures kept { IfOk result (λ a. KeepsOld self.old self.new (H.state host.old) request.now a) }

        // On every store the live state stays the one that the head's table tells.
        ensures live { OnOk result (StaysLive self.old self.new (H.state host.old) (H.state host.new)) }

        // On every host there is a history that is kept, and the live state has the names of its head's
        // table, no two rows share a node, and each has a picture of its length. This table is kept, and the
        // digests of these pictures.
        ensures known { OnOk result (IsKnown self.new.head self.new.journal.place) }

        // So these pictures have together at most 2^28 bytes.
        ensures bounded { OnOk result (IsBounded self.new.head) }

        // On every host the answer is one, a request is refused just for the causes that the session's graph
        // gives, or for a state's size, and a refusal for such a cause leaves host, graph, nodes and names as
        // they were.
        ensures is_one { IfOk result (λ a. IsSome (answer_of a)) }
        ensures refuses { IfOk result (RefusesFor self.old.head.graph (request_of request.now)) }
        ensures refused { IfOk result (λ a. IsRefusal (answer_of a)
            → (host.new ≡ host.old) × (self.new.head ≡ self.old.head)) }

        // A state is refused for its size only where the request's cells left it, above 2^28 bytes, as the
        // head's table tells them. The host is only read then, and the graph is as it was. The head's state is
        // loaded: it is the same as the one before, where this was the one that the file tells.
        ensures too_large { IfOk result (λ a. (bytes : ℕ) → RefusesSize (answer_of a) bytes
            → LeavesLarge self.old.head (request_of request.now) bytes
            × IsQuiet (H.state host.old) (H.state host.new) × (self.new.head.graph ≡ self.old.head.graph)) }
        ensures back { IfOk result (λ a. (bytes : ℕ) → RefusesSize (answer_of a) bytes
            → IsBackAt self.old self.new (H.state host.old)) }

        // What only tells what is kept or bound leaves host, graph, nodes and names as they were.
        ensures stays { OnOk result (TellsAlone (request_of request.now)
            → (host.new ≡ host.old) × (self.new.head ≡ self.old.head)) }

        // A graph without a replay that is too large becomes one of that kind.
        ensures small { KeepsSmall request.now }

        // A stop at any moment leaves the graph before or after the request, and no output: from an attached
        // session, where the file that it leaves is good, and from one that stands at the file's end. Where
        // a stop before left the file alone, so it does afterwards.
        ensures stop { LeavesBeforeOrAfter self.old (H.state host.old) (H.state host.new) request.now }
        ensures stop_here { LeavesHere self.old (H.state host.old) (H.state host.new) request.now }
        ensures durable { OnOk result (StaysDurable (H.state host.old) (H.state host.new)) }
        ensures out { (H.state host.new).out ≡ (H.state host.old).out }
        ensures tells { (H.state host.new).tells ≡ (H.state host.old).tells }

        // Each halt has its cause, and closes the session.
        ensures closed { IsErrOf result Closed ↔ (self.old.halted ≡ true) }
        ensures untouched { IsErrOf result Closed → host.new ≡ host.old }
        ensures halted { (self.new.halted ≡ true) ↔ IsErr result }
        ensures damaged { (at : ℕ) → IsErrOf result (Damaged at)
            → LacksHere self.old (H.state host.old) request.now at }
        ensures damaged_stays { (at : ℕ) → IsErrOf result (Damaged at)
            → (H.state host.new).file ≡ (H.state host.old).file }
        ensures disk_fault { IsErrOf result DiskFault → DiskFailed (H.state host.old) (H.state host.new) }
        ensures only_these { IfErr result (λ e. ((at : ℕ) × (e ≡ Damaged at))
            ⊎ (e ≡ DiskFault) ⊎ (e ≡ NoMemory) ⊎ (e ≡ Closed)) }
        ensures disk { (H.state host.old).disk_faults ≤ (H.state host.new).disk_faults }
        ensures outs { (H.state host.old).out_faults ≤ (H.state host.new).out_faults }

        // From an attached session the live state gets at most the nodes that one step of the machine makes.
        ensures makes { OnOk result
            (MakesNodes self.old self.new (H.state host.old) (request_of request.now)) }

        // A checkout reads just the pictures of the groups that it loads, and cells that are committed those
        // of the touched groups that both tables have with one digest and length. Whatever the result is,
        // what only tells or names what is kept reads nothing, and the counter stays, but at cells,
        // `inspect`, and a checkout from more than 8,000,000 nodes. A cell that is committed raises it by no
        // more than its bound.
        ensures loads { IfOk result (λ a.
            ReadsLoaded self.old (H.state host.old) (H.state host.new) request.now a) }
        ensures reads { IfOk result (λ a.
            ReadsAsked self.old self.new (H.state host.old) (H.state host.new) request.now a) }
        ensures idle { IsIdle (request_of request.now)
            → ReadsMore (H.state host.old).reads (H.state host.new).reads 0 }
        ensures still { LeavesCounter self.old request.now → steps.new ≡ steps.old }
        ensures most { IfOk result (λ a.
            CountsAtMost self.old self.new request.now a steps.old steps.new) }

        // Each step of the request's own cells is counted.
        ensures least { OnOk result (Counts self.old (H.state host.old) request.now steps.old steps.new) }
    {
        if self.halted {
            return Err(Halt::Closed);
        }
        self.halted = true;
        let prepared = self.head.prepare(host, &self.journal, request, steps)?;
        record(self.alloc, &mut self.journal, host, &prepared.recorded)?;
        self.halted = false;
        Ok(prepared.answer)
    }
}
