// What cells have left, or what was loaded, and the running of one cell more.
ghost use Rattle.std.specs.Prelude.{◌≡◌, ◌≤◌, ◌+◌, ◌*◌, ◌^◌, ◌∷◌, ℕ, [], Some, IsTrue, IfOk, OnOk, IsErrOf, length, option_map};
ghost use Rattle.kishu_meaning.specs.moments.Accesses.{with_accesses};
ghost use Rattle.kishu_language.specs.Limits.{longest_text};
ghost use Rattle.kishu_meaning.specs.values.Sound.{are_sound_names};
ghost use Rattle.kishu_meaning.specs.values.Values.{empty, report_of};
ghost use Rattle.kishu_graph.specs.Tables.{table_of_rows};
ghost use Rattle.kishu_heap.specs.Costs.{Reads};
ghost use Rattle.kishu_history.specs.Touched.{size_told, touched};
ghost use Rattle.kishu_model.specs.Values.{answer_of, refusal_of};
ghost use Rattle.kishu_model.specs.requests.Inspect.{told_at};
ghost use Rattle.kishu_objects.specs.Picture.{order, whole};
ghost use Rattle.kishu_store.specs.Tables.{groups_in};
ghost use Rattle.kishu_anew.specs.Anew.{IsAnew, IsSmall, IsWhole, most_kept};
ghost use Rattle.kishu_checkout.specs.Fetched.{contents, taken_by};
ghost use Rattle.kishu_checkout.specs.Placed.{ArePlaced, FailsAt};
ghost use Rattle.kishu_checkout.specs.Plans.{groups_dropped, rows_loaded};
ghost use Rattle.kishu_checkout.specs.declared.fault.CheckoutFault.TheVariants.{Damaged, DiskFault};
ghost use Rattle.kishu_session.specs.Sized.{size_refused};

use kishu_anew::load_anew;
use kishu_checkout::{CheckoutFault, Plan};
use kishu_delta::state_len;
use kishu_graph::Table;
use kishu_heap::Heap;
use kishu_interp::run_cell;
use kishu_model::{Answer, CellResult, Profile, Refusal, Steps};
use kishu_names::Names;
use std::alloc::{AllocError, Global};
use std::sync::ledger::Ledger;

/// The most bytes that the pictures of a state's groups may have.
const MOST_BYTES: u64 = 1 << 28;

/// The nodes and the names that cells have left, or that were loaded.
#[derive(Drop)]
pub(crate) struct Live {
    pub(crate) heap: Heap,
    pub(crate) names: Names,
    ghost sound: { IsTrue (are_sound_names (length heap) names.bound) },
}

impl Live {
    ghost use Rattle.kishu_session.specs.Lives.{state_of, run_on};
    ghost use Rattle.kishu_session.specs.Renewing.{IsLeft, renewed};

    /// An empty heap and no names.
    pub(crate) fn new(alloc: Global) -> Live
        ensures { state_of result ≡ empty }
    {
        Live {
            heap: Heap::new(alloc),
            names: Names::new(alloc),
        }
    }

    /// Forgets which names were accessed.
    pub(crate) fn clear_record(&mut self)
        ensures state { state_of self.new ≡ state_of self.old }
        ensures accessed { self.new.names.accessed ≡ [] }
    {
        self.names.clear_record();
    }

    /// Loads the state anew where its heap has more than 8,000,000 nodes, and leaves at most 2^28.
    pub(crate) fn renew<L: Ledger>(
        &mut self,
        alloc: Global,
        steps: &mut Steps<L>,
    ) -> Result<(), AllocError>
        requires whole { IsWhole (state_of self.old) }
        requires small { IsSmall (state_of self.old) }
        ensures anew { OnOk result (IsAnew (state_of self.old) (state_of self.new)) }
        ensures is { OnOk result (state_of self.new ≡ renewed (state_of self.old)) }
        ensures accessed { OnOk result (self.new.names.accessed ≡ self.old.names.accessed) }
        ensures counted { steps.old ≤ steps.new }
        ensures still { length self.old.heap ≤ most_kept → steps.new ≡ steps.old }
    {
        load_anew(alloc, &mut self.heap, &mut self.names, steps)
    }

    /// Unbinds the names that a plan drops, and loads the pictures of the rows that it loads, which stand in
    /// its order. The nodes that are there stay.
    pub(crate) fn place(
        &mut self,
        alloc: Global,
        plan: &Plan,
        pictures: &[Vec<u8>],
    ) -> Result<(), CheckoutFault>
        requires one { length pictures.now ≡ length plan.now.load.items }
        requires room { length self.old.heap ≤ 2 ^ 31 }
        requires small { taken_by (contents pictures.now) ≤ 2 ^ 28 }
        ensures placed { OnOk result (ArePlaced (groups_dropped plan.now) (rows_loaded plan.now)
            (contents pictures.now) (state_of self.old) (state_of self.new)) }
        ensures damaged { (at : ℕ) → IsErrOf result (Damaged at)
            → FailsAt (rows_loaded plan.now) (contents pictures.now) at }
        ensures no_disk { IsErrOf result DiskFault → ⊥ }
        ensures whole { OnOk result (IsWhole (state_of self.old) → IsWhole (state_of self.new)) }
    {
        kishu_checkout::place(alloc, plan, pictures, &mut self.heap, &mut self.names)
    }

    /// Runs a cell, before which the state is loaded anew where its heap has more than 8,000,000 nodes.
    pub(crate) fn run<L: Ledger>(
        &mut self,
        alloc: Global,
        text: &str,
        steps: &mut Steps<L>,
    ) -> Result<CellResult, AllocError>
        requires short { length text.now ≤ longest_text }
        requires whole { IsWhole (state_of self.old) }
        requires small { IsSmall (state_of self.old) }
        ensures report { IfOk result (λ r. report_of r ≡ (run_on self.old text.now).report) }
        ensures left { OnOk result (IsLeft (text.now ∷ []) (state_of self.old) (state_of self.new)) }
        ensures accessed { OnOk result (self.new.names.accessed
            ≡ with_accesses (run_on self.old text.now).accessed self.old.names.accessed) }
        ensures least { OnOk result (steps.old + (run_on self.old text.now).charge ≤ steps.new) }
        ensures most { OnOk result (length self.old.heap ≤ most_kept
            → steps.new ≤ steps.old + 128 * (run_on self.old text.now).charge + 128) }
        ensures whole { OnOk result (IsWhole (state_of self.new)) }
    {
        self.renew(alloc, steps)?;
        run_cell(
            alloc,
            Profile::One,
            text,
            &mut self.heap,
            &mut self.names,
            steps,
        )
    }

    /// The refusal of a state that is too large, as the table from before the cells tells it among the names
    /// that they accessed. None says that it isn't.
    pub(crate) fn too_large<L: Ledger>(
        &self,
        alloc: Global,
        table: &Table,
        steps: &mut Steps<L>,
    ) -> Result<Option<Refusal>, AllocError>
        ensures refusal { IfOk result (λ o. option_map refusal_of o ≡ size_refused
            (size_told (table_of_rows table.now) self.now.names.accessed (state_of self.now))) }
        ensures reads { Reads (4 * length (order (state_of self.now) (touched
            (groups_in (table_of_rows table.now)) self.now.names.accessed (state_of self.now))))
            steps.old steps.new }
    {
        let bytes = state_len(alloc, table, &self.heap, &self.names, steps)?;
        if bytes > MOST_BYTES {
            Ok(Some(Refusal::StateTooLarge { bytes }))
        } else {
            Ok(None)
        }
    }

    /// What is bound, told at this commit.
    pub(crate) fn told<L: Ledger>(
        &self,
        alloc: Global,
        commit: u32,
        steps: &mut Steps<L>,
    ) -> Result<Answer, AllocError>
        ensures answer { IfOk result (λ a. answer_of a ≡ Some (told_at commit (whole (state_of self.now)))) }
        ensures counted { steps.old ≤ steps.new }
    {
        kishu_inspect::told(alloc, &self.heap, &self.names, commit, steps)
    }
}
