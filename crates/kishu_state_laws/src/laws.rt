// What holds of every state, and that runs keep it.

ghost use Rattle.kishu_language.specs.Limits.{longest_text};
ghost use Rattle.kishu_language.specs.declared.profile.Profile.{Profile};
ghost use Rattle.kishu_language.specs.declared.tree.Comparison.{Comparison};
ghost use Rattle.kishu_language.specs.reading.ReadText.{read_chars, ReadsDef};
ghost use Rattle.kishu_language.specs.trees.Tree as t;
ghost use Rattle.kishu_language.specs.trees.Tree.{Definition, Expression, Statement, Statements, Text, statements};
ghost use Rattle.kishu_meaning.specs.calls.Builtins.{Call, best_of, builtin_call, decide};
ghost use Rattle.kishu_meaning.specs.cells.Meaning.{act, acts, all_calls, call, cell, expr, run};
ghost use Rattle.kishu_meaning.specs.cells.Ways.{Flow, repeat, turns, walk_along, walk_on};
ghost use Rattle.kishu_meaning.specs.items.Walks.{Walk};
ghost use Rattle.kishu_meaning.specs.moments.Moment.{M, Moment, most_depth, most_steps};
ghost use Rattle.kishu_meaning.specs.values.Sound.{default_count};
ghost use Rattle.kishu_meaning.specs.values.BuiltinNames as builtins;
ghost use Rattle.kishu_meaning.specs.values.Values.{State, Value, empty};
ghost use Rattle.kishu_replay.specs.Replay.{after_cells, replay};
ghost use Rattle.kishu_objects.specs.Same.{Same};
ghost use Rattle.kishu_objects.specs.States.{IsSoundState};
ghost use Rattle.kishu_objects.specs.Lists.{Rise};
ghost use Rattle.kishu_objects.specs.Bytes.{state_bytes, picture_bytes};
ghost use Rattle.kishu_objects.specs.Fits.{StateFits};
ghost use Rattle.kishu_objects.specs.Loading.{with_picture};
ghost use Rattle.kishu_objects.specs.Picture.{picture, whole};
ghost use Rattle.kishu_meaning.specs.moments.Accesses.{unbind};
ghost use Rattle.kishu_pairing_laws.specs.World.{end_of};
ghost use Rattle.kishu_state_laws.specs.Budgets.{IsStopped, Start, run_by, run_of};
ghost use Rattle.kishu_state_laws.specs.Moments.{AreUnder, Holds, IsWalk, Leads, LeadsOn, LeadsWith, widest_budget};
ghost use Rattle.kishu_state_laws.specs.Turns.{Outlasts, best_within, decide_within, for_within, sum_within, while_within};
ghost use Rattle.kishu_objects.specs.State.{Grown, IsCell, IsCode, IsState, IsValue};
ghost use Rattle.kishu_state_laws.specs.trees.Sound.{ExpressionSound, StatementSound, StatementsSound};
ghost use Rattle.kishu_store.specs.Graph.{Commit, Graph, path};
ghost use Rattle.kishu_store.specs.Holds.{Holds as HoldsGraph};
ghost use Rattle.kishu_store.specs.Limits.{newest_profile};
ghost use Rattle.std.specs.List.{AllByRecursion};
ghost use Rattle.std.specs.Prelude.{Bool, List, Ok, [], length, suc, ℕ, ◌∷◌, ◌+◌, ◌≡◌, ◌↔◌, ◌≤◌, ◌<◌, ◌^◌};
ghost use Rattle.std.specs.Str.{IsUtf8, chars};

/// The empty state is a state, and a run leads from a state to a state.
pub fn runs_keep_states()
    ensures empty { IsState empty }
    ensures run { (profile : Profile) (text : List ℕ) (s : State) → IsCell text → IsState s → IsState (run profile text s).state }
{}

/// In a run old nodes keep their numbers, and new ones stand behind them.
pub fn runs_keep_nodes()
    ensures grown { (profile : Profile) (text : List ℕ) (s : State) → IsCell text → IsState s → Grown s.nodes (run profile text s).state.nodes }
    ensures many { (profile : Profile) (text : List ℕ) (s : State) → IsCell text → IsState s → length s.nodes ≤ length (run profile text s).state.nodes }
{}

/// Each part of a run leads from a moment to a later one: what holds of every moment is kept, no step is
/// given back, and old nodes keep their numbers.
pub fn no_step_is_given_back()
    ensures expressions { (e : Expression) (s : Moment) → ExpressionSound e → Holds s → Leads s (end_of (expr all_calls e s)) }
    ensures statements { (ss : Statements) (s : Moment) → StatementsSound ss → Holds s → Leads s (end_of (acts all_calls ss s)) }
    ensures cells { (tree : List Statement) (s : Moment) → StatementsSound (statements tree) → Holds s → Leads s (end_of (cell tree s)) }
{}

/// Cells one after another keep states, old nodes keep their numbers through them, and a replay gives a
/// state; the cells of a graph that a file holds are such cells, so each of its replays does.
pub fn cells_keep_states()
    ensures states { (profile : Profile) (cells : List (List ℕ)) (s : State) → AllByRecursion IsCell cells → IsState s → IsState (after_cells profile cells s) }
    ensures nodes { (profile : Profile) (cells : List (List ℕ)) (s : State) → AllByRecursion IsCell cells → IsState s → Grown s.nodes (after_cells profile cells s).nodes }
    ensures replays { (g : Graph) (c : ℕ) → AllByRecursion (λ (k : Commit). AllByRecursion IsCell k.cells) (path g c) → IsState (replay g c) }
    ensures texts { (file : List ℕ) (g : Graph) → HoldsGraph file g → AllByRecursion (λ (k : Commit). AllByRecursion IsCell k.cells) g.commits }
    ensures held { (file : List ℕ) (g : Graph) → HoldsGraph file g → (c : ℕ) → IsState (replay g c) }
{}

/// Cells that run under a profile keep all functions under it; so of a graph that a file holds the functions of each replay are under the newest profile.
pub fn runs_keep_profiles()
    ensures run { (profile : Profile) (text : List ℕ) (s : State) → IsCell text → IsState s → AreUnder profile s.nodes → AreUnder profile (run profile text s).state.nodes }
    ensures cells { (profile : Profile) (cells : List (List ℕ)) (s : State) → AllByRecursion IsCell cells → IsState s → AreUnder profile s.nodes → AreUnder profile (after_cells profile cells s).nodes }
    ensures replays { (profile : Profile) (g : Graph) (c : ℕ) → AllByRecursion (λ (k : Commit). AllByRecursion IsCell k.cells) (path g c) → AllByRecursion (λ (k : Commit). k.profile ≡ profile) (path g c) → AreUnder profile (replay g c).nodes }
    ensures held { (file : List ℕ) (g : Graph) → HoldsGraph file g → (c : ℕ) → AreUnder newest_profile (replay g c).nodes }
{}

/// The tree of a cell's text is sound: its names, its numbers, its texts and the codes of its functions.
pub fn trees_are_sound()
    ensures { (profile : Profile) (text : List ℕ) (tree : List Statement) → IsCell text → read_chars profile (chars text) ≡ Ok tree → StatementsSound (statements tree) }
{}

/// A text that reads as a function, however that is known, is the code of one with as many defaults.
pub fn what_reads_is_code()
    ensures { (profile : Profile) (code : Text) (d : Definition) (n : ℕ) → IsUtf8 code → length code ≤ longest_text → ∥ ReadsDef profile code d ∥₁ → n ≡ default_count d → IsCode profile code n }
{}

/// A state's names rise, and its names and nodes lead to nodes that are there.
pub fn states_are_real()
    ensures { (s : State) → IsState s → IsSoundState s }
{}

/// Cells one after another can't tell states apart that are the same.
pub fn cells_cannot_tell_states()
    ensures { (profile : Profile) (cells : List (List ℕ)) (s t : State) → AllByRecursion IsCell cells → IsState s → IsState t → Same s t → Same (after_cells profile cells s) (after_cells profile cells t) }
{}

/// The picture of names that stand in order is a state where it is one of a state, and so is what a load and the unbinding of a name leave.
pub fn pictures_are_states()
    ensures picture { (s : State) (names : List (List ℕ)) → IsState s → Rise names → IsState (picture s names) }
    ensures loaded { (s p : State) → IsState s → IsState p → IsState (with_picture s p) }
    ensures unbound { (s : State) (x : List ℕ) → IsState s → IsState (record { names = unbind x s.names; nodes = s.nodes }) }
{}

/// A state that takes fewer than 2^32 bytes can be written: its numbers, texts and lengths fit. So can the picture of a state, and two states are the same exactly where the pictures of all their own names have equal bytes.
pub fn states_fit()
    ensures bytes { (p : State) → IsState p → length (state_bytes p) < 2 ^ 32 → StateFits p }
    ensures picture { (s : State) (names : List (List ℕ)) → IsState s → Rise names → length (picture_bytes s names) < 2 ^ 32 → StateFits (picture s names) }
    ensures same { (s t : State) → IsState s → IsState t → length (state_bytes (whole s)) < 2 ^ 32 → length (state_bytes (whole t)) < 2 ^ 32 → (Same s t ↔ (state_bytes (whole s) ≡ state_bytes (whole t))) }
{}

/// A run is stopped exactly where it asks for a step past its budget: then its whole budget is
/// charged, and with one step more it would take that one too. Else each larger budget gives the same
/// run. `run_of` is the run of a cell from a state, and `run_by` the same with a budget of any size.
pub fn budgets_stop_runs()
    ensures budget { (c : Start) → run_by most_steps c ≡ run_of c }
    ensures most { (c : Start) (n : ℕ) → (run_by n c).charge ≤ n }
    ensures cells { (c : Start) → IsStopped (run_of c) → (run_of c).charge ≡ most_steps }
    ensures whole { (c : Start) (n : ℕ) → n < widest_budget → IsStopped (run_by n c) → (run_by n c).charge ≡ n }
    ensures further { (c : Start) (n : ℕ) → n < widest_budget → (IsStopped (run_by n c) ↔ (run_by (n + 1) c).charge ≡ n + 1) }
    ensures larger { (c : Start) (n m : ℕ) → n ≤ m → m ≤ widest_budget → (IsStopped (run_by n c) → ⊥) → run_by m c ≡ run_by n c }
{}

/// A loop never runs out of turns. Each turn takes a step, so a loop with any number of turns above the
/// steps that are left goes as the meaning has it: it ends by its test, behind its last item, by a way
/// out, or where the budget is spent. First for all that leads on, then for statements as they run
/// within d calls, and for `all` and `any`, `max` and `min`, and `sum`.
pub fn turns_never_run_out()
    ensures tests { (test : M Value) (body : M Flow) (n : ℕ) (s : Moment) → LeadsOn test → LeadsOn body → Outlasts n s → repeat test body s ≡ turns n test body s }
    ensures walks { (walk : Walk) (turn : Value → M Flow) (n : ℕ) (s : Moment) → LeadsWith turn → IsWalk (length s.nodes) walk → Outlasts n s → walk_along walk turn s ≡ walk_on n walk 0 turn s }
    ensures whiles { (d n : ℕ) (e : Expression) (body : Statements) (s : Moment) → StatementSound (t.while e body) → Outlasts n s → act (call d) (t.while e body) s ≡ while_within n (call d) e body s }
    ensures fors { (d n : ℕ) (e walked : Expression) (body : Statements) (s : Moment) → StatementSound (t.for e walked body) → Outlasts n s → act (call d) (t.for e walked body) s ≡ for_within n (call d) e walked body s }
    ensures decisions { (which : Bool) (n : ℕ) (v : Value) (s : Moment) → IsValue (length s.nodes) v → Outlasts n s → decide which v s ≡ decide_within n which v s }
    ensures bests { (comparison : Comparison) (n : ℕ) (walk : Walk) (s : Moment) → IsWalk (length s.nodes) walk → Outlasts n s → best_of comparison walk s ≡ best_within n comparison walk s }
    ensures sums { (print : Call) (n : ℕ) (v : Value) (s : Moment) → IsValue (length s.nodes) v → Outlasts n s → builtin_call print builtins.sum (v ∷ []) s ≡ sum_within n v s }
{}

/// Calls never run out: each lies a level deeper, so with any number of them above the levels that are
/// left a run goes as the meaning has it, with a RecursionError at the deepest level alone. `call n` has
/// n calls in one another, and `all_calls` one more than there are levels.
pub fn calls_never_run_out()
    ensures expressions { (n : ℕ) (e : Expression) (s : Moment) → ExpressionSound e → Holds s → most_depth ≤ n + s.depth → expr (call (suc n)) e s ≡ expr all_calls e s }
    ensures statements { (n : ℕ) (ss : Statements) (s : Moment) → StatementsSound ss → Holds s → most_depth ≤ n + s.depth → acts (call (suc n)) ss s ≡ acts all_calls ss s }
{}
