// What holds of versions, tables, detection and checkout.

ghost use Rattle.std.specs.Prelude.{Bool, ◌≡◌, ◌↔◌, ◌≤◌, ◌<◌, ◌+◌, ◌⊎◌, ◌++◌, ℕ, suc, true, false, not, ◌&&◌, List, [], ◌∷◌, length, map, filter, drop, Option};
ghost use Rattle.std.specs.List.{AllZip};
ghost use Rattle.std.specs.Str.{bytes_eq};
ghost use Rattle.kishu_language.specs.declared.profile.Profile.{Profile};
ghost use Rattle.kishu_meaning.specs.values.Values.{State, empty, find};
ghost use Rattle.kishu_meaning.specs.cells.Meaning.{run};
ghost use Rattle.kishu_store.specs.Graph.{Commit, Graph, newest, with_commit, new_graph};
ghost use Rattle.kishu_store.specs.Holds.{Holds, Gives};
ghost use Rattle.kishu_replay.specs.Replay.{after_cells, replay};
ghost use Rattle.kishu_objects.specs.Shape.{node_at};
ghost use Rattle.kishu_objects.specs.Same.{Same};
ghost use Rattle.kishu_objects.specs.Picture.{picture, listed};
ghost use Rattle.kishu_objects.specs.Reading.{IsInOrder};
ghost use Rattle.kishu_objects.specs.Sound.{IsSound};
ghost use Rattle.kishu_objects.specs.Lists.{In, Rise};
ghost use Rattle.kishu_objects.specs.Bytes.{state_bytes, picture_bytes};
ghost use Rattle.kishu_objects.specs.Loading.{with_picture};
ghost use Rattle.kishu_objects.specs.Fits.{StateFits};
ghost use Rattle.kishu_history.specs.Alike.{is_state};
ghost use Rattle.kishu_objects.specs.Groups.{groups_of};
ghost use Rattle.kishu_history.specs.Changed.{Group, is_one_of, Stands, stands, changed};
ghost use Rattle.kishu_objects.specs.States.{IsSoundState};
ghost use Rattle.kishu_history.specs.Versions.{Stop, at_end, end_number, AreStates, Falls, Agree, IsVersion, version, stored, dropped, kept, loaded, left};
ghost use Rattle.kishu_history.specs.Tables.{Row, Table, groups_in, first_name, first_in, bytes_in, Change, no_change, after, table_of, rows_from, IsTable, AreOfOne, AreRight, IsRight};
ghost use Rattle.kishu_history.specs.Paths.{stops_in, stops, ReplaysAreStates, table_in, table_at, with_change, change_of, AreRows};
ghost use Rattle.kishu_store_laws.specs.HistoryLaws.{AreChanges};
ghost use Rattle.kishu_store_laws.specs.PlaceLaws.{StayIn};
ghost use Rattle.kishu_history.specs.Touched.{holds_any, untouched, touched, classes, dropped_among, stored_among, IsKept, change_told, size_told};
ghost use Rattle.kishu_history.specs.Cut.{IsCut};
ghost use Rattle.kishu_objects.specs.Locality.{Reached, Leaves};
ghost use Rattle.kishu_history.specs.Checkout.{to_keep, to_load, to_drop, carried};
ghost use Rattle.kishu_history.specs.Live.{IsLive, IsPictureOf};
ghost use Rattle.kishu_history.specs.Stored.{bytes_at, Held, Stored, Keeps, KeepsRecords, joined, AreNewRows};
ghost use Rattle.kishu_objects.specs.Sizes.{size_among, size, most_bytes};
ghost use Rattle.kishu_history.specs.Sizes.{StaySmall};
ghost use Rattle.kishu_history.specs.Good.{IsGoodStore, IsAttached};
ghost use Rattle.kishu_history_laws.specs.cells.Led.{LeadsTo};

/// The test of two states tells whether they are one, that of a group whether it is among others, and that of a group in a state whether it stands there with a picture. Where pictures fit into bytes, their bytes tell the first.
pub fn tests_decide()
    ensures states { (s t : State) → ((is_state s t ≡ true) ↔ (s ≡ t)) }
    ensures groups { (g : Group) (gs : List Group) → ((is_one_of g gs ≡ true) ↔ In g gs) }
    ensures stands { (g : Group) (p s : State) → ((stands g p s ≡ true) ↔ Stands g p s) }
    ensures bytes { (p q : State) → StateFits p → StateFits q → bytes_eq (state_bytes p) (state_bytes q) ≡ is_state p q }
{}

/// The version that is computed is the earliest commit from which on the group stands with one picture, and no other number is. Groups of one version have one picture. What a commit stores is what changed since its parent, seen from the other side.
pub fn versions_tell()
    ensures earliest { (k : Stop) (ks : List Stop) (g : Group) → In g (groups_of k.state) → IsVersion (k ∷ ks) g (version (k ∷ ks) g) }
    ensures only { (k : Stop) (ks : List Stop) (g : Group) (a : ℕ) → IsVersion (k ∷ ks) g a → version (k ∷ ks) g ≡ a }
    ensures pictures { (h c : List Stop) (g : Group) → Agree h c → In g (groups_of (at_end h)) → In g (groups_of (at_end c)) → version h g ≡ version c g → picture (at_end h) g ≡ picture (at_end c) g }
    ensures stored { (k : Stop) (ks : List Stop) → Falls (k ∷ ks) → stored (k ∷ ks) ≡ changed k.state (at_end ks) }
{}

/// The path to a commit ends at its replay, each state on it is its own commit's replay, its numbers fall, and two paths of one graph agree. A further commit comes to the front of its parent's path, and leaves the other paths. Where runs keep states, all replays are states.
pub fn paths_are_replays()
    ensures end { (g : Graph) (c : ℕ) → at_end (stops g c) ≡ replay g c }
    ensures each { (g : Graph) (c : ℕ) (k : Stop) → In k (stops g c) → (k.commit ≤ newest g) × (k.state ≡ replay g k.commit) }
    ensures falls { (g : Graph) (c : ℕ) → Falls (stops g c) }
    ensures agree { (g : Graph) (c d : ℕ) → Agree (stops g c) (stops g d) }
    ensures further { (profile : Profile) (cells : List (List ℕ)) (g : Graph) → stops (with_commit profile cells g) (suc (newest g)) ≡ record { commit = suc (newest g); state = after_cells profile cells (at_end (stops g g.head.commit)) } ∷ stops g g.head.commit }
    ensures others { (profile : Profile) (cells : List (List ℕ)) (g : Graph) (c : ℕ) → c ≤ newest g → stops (with_commit profile cells g) c ≡ stops g c }
    ensures states { ((profile : Profile) (cell : List ℕ) (s : State) → IsSoundState s → IsSoundState (run profile cell s).state) → (g : Graph) → ReplaysAreStates g.commits }
{}

/// A table has just the groups of its commit, each with its version, where each record on the path drops and stores just what it has to.
pub fn tables_are_right()
    ensures right { (ks : List Stop) (cs : List Change) → AreStates ks → Falls ks → AreRight ks cs → IsRight ks (table_of cs) }
    ensures table { (ks : List Stop) (t : Table) → IsSoundState (at_end ks) → IsRight ks t → IsTable t }
{}

/// On every store: the rows of records have their commits' numbers and stand in order, where none are, and with those of a further commit, which changes nothing at the root. Each row of a table stands among those that its version's record stored, so tables of one graph are of one; and a record that fits leaves a table.
pub fn records_give_tables()
    ensures none { AreRows (λ c. no_change) }
    ensures further { (of : ℕ → Change) → AreRows of → (commit : ℕ) (c : Change) → ((r : Row) → In r c.stored → r.version ≡ commit) → Rise (map first_in c.stored) → AreRows (with_change of commit c) }
    ensures root { (of : ℕ → Change) (commit : ℕ) (c : Change) → of 0 ≡ no_change → with_change of (suc commit) c 0 ≡ no_change }
    ensures recorded { (ks : List Commit) (of : ℕ → Change) → AreRows of → (c : ℕ) (r : Row) → In r (table_in ks of c) → In r (of r.version).stored × (r.version ≤ length ks) }
    ensures of_one { (ks : List Commit) (of : ℕ → Change) → AreRows of → (c d : ℕ) → AreOfOne (table_in ks of c) (table_in ks of d) }
    ensures fits { (c : Change) (t : Table) (commit : ℕ) → IsTable t → Rise (map first_in c.stored) → ((r : Row) → In r c.stored → In (first_in r) r.group) → ((r : Row) → In r c.stored → Rise r.group) → ((r : Row) → In r c.stored → r.version ≡ commit) → ((r : Row) → In r t → r.version < commit) → ((r q : Row) (x : List ℕ) → In r (after c t) → In q (after c t) → In x r.group → In x q.group → r ≡ q) → IsTable (after c t) }
{}

/// What a file's records change is what the laws above ask for: their rows have their commits' numbers and stand in order, each commit's table is one, in a file that keeps the bytes at their places they are kept, and nothing changes at the root. And a commit's pictures take no more bytes than the file that holds them.
pub fn files_give_tables()
    ensures rows { (g : Graph) (cs : List Change) (place : ℕ) → AreChanges g cs place → AreRows (change_of cs) }
    ensures tables { (g : Graph) (cs : List Change) (place : ℕ) → AreChanges g cs place → (c : ℕ) → IsTable (table_at g (change_of cs) c) }
    ensures stays { (file grown : List ℕ) (cs : List Change) (newest : ℕ) → StayIn file grown cs → KeepsRecords file grown newest (change_of cs) }
    ensures root { (cs : List Change) → change_of cs 0 ≡ no_change }
    ensures within { (file : List ℕ) (g : Graph) (cs : List Change) → Holds file g → Gives file cs
        → (c : ℕ) → bytes_in (table_at g (change_of cs) c) ≤ length file }
{}

/// The rows of a record have its commit and its groups, and lie where its pictures lie. What a file holds at a row's place is one picture, it may be loaded for the row where it reads in order, and it stays in a file that begins alike.
pub fn rows_lie_at_their_pictures()
    ensures version { (commit place : ℕ) (gs : List (Group × ℕ)) (r : Row) → In r (rows_from commit place gs) → r.version ≡ commit }
    ensures groups { (commit place : ℕ) (gs : List (Group × ℕ)) → groups_in (rows_from commit place gs) ≡ map (λ (g : Group × ℕ). g.0) gs }
    ensures bytes { (file : List ℕ) (commit place : ℕ) (gs : List (Group × ℕ)) (ps : List (List ℕ)) (rest : List ℕ) → AllZip (λ (g : Group × ℕ) (p : List ℕ). g.1 ≡ length p) gs ps → drop place file ≡ joined ps ++ rest → AllZip (λ (r : Row) (p : List ℕ). bytes_at file r ≡ p) (rows_from commit place gs) ps }
    ensures one { (file : List ℕ) (r : Row) (p q : State) → Held file r p → Held file r q → p ≡ q }
    ensures read { (file : List ℕ) (r : Row) (p : State) → IsSound p → Rise (listed p) → IsInOrder p → StateFits p → listed p ≡ r.group → bytes_at file r ≡ state_bytes p → length (state_bytes p) ≡ r.len → IsPictureOf (Held file) r p }
    ensures stays { (front rest more : List ℕ) (r : Row) → r.place + r.len ≤ length front → bytes_at (front ++ rest) r ≡ bytes_at (front ++ more) r }
{}

/// Between right tables the rows to keep, to load and to drop are those of the groups that are kept, loaded and left; from a table to itself nothing is to be done.
pub fn plans_are_exact()
    ensures keep { (h c : List Stop) (t u : Table) → IsRight h t → IsRight c u → groups_in (to_keep t u) ≡ kept h c }
    ensures load { (h c : List Stop) (t u : Table) → IsRight h t → IsRight c u → groups_in (to_load t u) ≡ loaded h c }
    ensures drop { (h c : List Stop) (t u : Table) → IsRight h t → IsRight c u → to_drop t u ≡ left h c }
    ensures nothing_to_load { (t : Table) → to_load t t ≡ [] }
    ensures nothing_to_drop { (t : Table) → to_drop t t ≡ [] }
{}

/// What is told among the touched names is exact against the whole state, where the other groups stand as they were; and each group is stored or has the picture that it had. Whatever test tells which classes of the touched names stay, each stays or is stored, and none does both.
pub fn detection_is_exact()
    ensures dropped { (gs : List Group) (pic : Group → State) (accessed : List (List ℕ)) (s : State) → IsSoundState s → IsKept gs pic accessed s → dropped_among gs pic accessed s ≡ filter (λ g. not (stands g (pic g) s)) gs }
    ensures stored { (gs : List Group) (pic : Group → State) (accessed : List (List ℕ)) (s : State) → IsSoundState s → IsKept gs pic accessed s → stored_among gs pic accessed s ≡ filter (λ g. not (is_one_of g gs && is_state (picture s g) (pic g))) (groups_of s) }
    ensures kept { (gs : List Group) (pic : Group → State) (accessed : List (List ℕ)) (s : State) → IsSoundState s → IsKept gs pic accessed s → (g : Group) → In g (groups_of s) → In g (stored_among gs pic accessed s) ⊎ (In g gs × (picture s g ≡ pic g)) }
    ensures split { (gs : List Group) (accessed : List (List ℕ)) (s : State) (same : Group → Bool) → IsSoundState s → Rise (map first_name gs) → ((g h : Group) (x : List ℕ) → In g gs → In h gs → In x g → In x h → g ≡ h) → (g : Group) → (In g (classes gs accessed s) ↔ (In g (filter (λ g. holds_any accessed g && (is_one_of g (classes gs accessed s) && same g)) gs) ⊎ In g (filter (λ g. not (is_one_of g gs && same g)) (classes gs accessed s)))) }
    ensures apart { (gs : List Group) (accessed : List (List ℕ)) (s : State) (same : Group → Bool) → IsSoundState s → Rise (map first_name gs) → ((g h : Group) (x : List ℕ) → In g gs → In h gs → In x g → In x h → g ≡ h) → (g : Group) → In g (filter (λ g. holds_any accessed g && (is_one_of g (classes gs accessed s) && same g)) gs) → In g (filter (λ g. not (is_one_of g gs && same g)) (classes gs accessed s)) → ⊥ }
{}

/// Only which names cells access counts: lists of the same names touch, drop and store the same groups, and tell the same size.
pub fn accesses_are_sets()
    ensures holds { (a b : List (List ℕ)) → ((x : List ℕ) → (In x a ↔ In x b)) → (g : Group) → holds_any a g ≡ holds_any b g }
    ensures untouched { (a b : List (List ℕ)) → ((x : List ℕ) → (In x a ↔ In x b)) → (t : Table) → untouched t a ≡ untouched t b }
    ensures touched { (a b : List (List ℕ)) → ((x : List ℕ) → (In x a ↔ In x b)) → (gs : List Group) (s : State) → touched gs a s ≡ touched gs b s }
    ensures classes { (a b : List (List ℕ)) → ((x : List ℕ) → (In x a ↔ In x b)) → (gs : List Group) (s : State) → classes gs a s ≡ classes gs b s }
    ensures dropped { (a b : List (List ℕ)) → ((x : List ℕ) → (In x a ↔ In x b)) → (gs : List Group) (pic : Group → State) (s : State) → dropped_among gs pic a s ≡ dropped_among gs pic b s }
    ensures stored { (a b : List (List ℕ)) → ((x : List ℕ) → (In x a ↔ In x b)) → (gs : List Group) (pic : Group → State) (s : State) → stored_among gs pic a s ≡ stored_among gs pic b s }
    ensures size { (a b : List (List ℕ)) → ((x : List ℕ) → (In x a ↔ In x b)) → (t : Table) (s : State) → size_told t a s ≡ size_told t b s }
    ensures change { (a b : List (List ℕ)) → ((x : List ℕ) → (In x a ↔ In x b)) → (t : Table) (s u : State) (rows : Table) → change_told t s a u rows ≡ change_told t s b u rows }
{}

/// After a cell the groups are those of before that hold no accessed name, and the classes of the touched names. The others stand as they were, so what is told among the touched names is what changed.
pub fn cells_are_told()
    ensures groups { (accessed : List (List ℕ)) (s t : State) → IsSoundState s → IsSoundState t → Leaves accessed s t → (g : Group) → (In g (groups_of t) ↔ ((In g (groups_of s) × (holds_any accessed g ≡ false)) ⊎ In g (classes (groups_of s) accessed t))) }
    ensures kept { (accessed : List (List ℕ)) (s t : State) → IsSoundState s → IsSoundState t → Leaves accessed s t → IsKept (groups_of s) (picture s) accessed t }
    ensures dropped { (accessed : List (List ℕ)) (s t : State) → IsSoundState s → IsSoundState t → Leaves accessed s t → dropped_among (groups_of s) (picture s) accessed t ≡ changed s t }
    ensures stored { (accessed : List (List ℕ)) (s t : State) → IsSoundState s → IsSoundState t → Leaves accessed s t → stored_among (groups_of s) (picture s) accessed t ≡ changed t s }
{}

/// Where the live states before and after a cell are the same as the replays, and the parent's table is right, what is told among the touched names is just what the new commit drops and stores.
pub fn commits_are_told()
    ensures dropped { (ks : List Stop) (k : Stop) (t : Table) (s u : State) (accessed : List (List ℕ)) → AreStates (k ∷ ks) → Falls (k ∷ ks) → IsRight ks t → IsSoundState s → IsSoundState u → Same s (at_end ks) → Same u k.state → Leaves accessed s u → dropped_among (groups_in t) (picture s) accessed u ≡ dropped (k ∷ ks) }
    ensures stored { (ks : List Stop) (k : Stop) (t : Table) (s u : State) (accessed : List (List ℕ)) → AreStates (k ∷ ks) → Falls (k ∷ ks) → IsRight ks t → IsSoundState s → IsSoundState u → Same s (at_end ks) → Same u k.state → Leaves accessed s u → stored_among (groups_in t) (picture s) accessed u ≡ stored (k ∷ ks) }
{}

/// States that are the same have the same groups and pictures, and the same groups change from them and to them.
pub fn same_states_change_alike()
    ensures groups { (s t : State) → IsSoundState s → IsSoundState t → Same s t → groups_of s ≡ groups_of t }
    ensures pictures { (s t : State) → IsSoundState s → IsSoundState t → Same s t → (g : Group) → picture s g ≡ picture t g }
    ensures changes { (s u t v : State) → IsSoundState s → IsSoundState u → IsSoundState t → IsSoundState v → Same s t → Same u v → changed s u ≡ changed t v }
{}

/// Old nodes that no accessed name reached stay, and no accessed name reaches them afterwards. What a run leaves that accesses some names, it leaves also by more names; and two runs one after the other leave it by the names of both.
pub fn runs_leave()
    ensures outside { (accessed : List (List ℕ)) (s t : State) → IsSoundState s → Leaves accessed s t → (i : ℕ) → i < length s.nodes → (Reached accessed s i → ⊥) → (node_at s.nodes i ≡ node_at t.nodes i) × (Reached accessed t i → ⊥) }
    ensures more { (a b : List (List ℕ)) (s t : State) → IsSoundState s → Leaves a s t → ((x : List ℕ) → In x a → In x b) → Leaves b s t }
    ensures both { (a b : List (List ℕ)) (s t u : State) → IsSoundState s → IsSoundState t → Leaves a s t → Leaves b t u → Leaves (a ++ b) s u }
{}

/// The groups of a state cut it, and so do those of a table that tells it. States that the same groups cut, with one picture each, are the same; so is the state that a table tells to one that its groups cut, where the stored pictures are those there. What a file holds for a table gives one state, which takes at most 2^28 bytes where the table's rows do.
pub fn groups_cut_states()
    ensures own { (s : State) → IsSoundState s → IsCut (groups_of s) s }
    ensures told { (file : Option (List ℕ)) (t : Table) (s : State) → IsTable t → IsLive (Stored file) t s → IsCut (groups_in t) s }
    ensures glued { (gs : List Group) (s t : State) → IsSoundState s → IsSoundState t → Rise (map first_name gs) → IsCut gs s → IsCut gs t → ((g : Group) → In g gs → picture s g ≡ picture t g) → Same s t }
    ensures same { (file : Option (List ℕ)) (t : Table) (s u : State) → IsTable t → IsLive (Stored file) t s → IsSoundState u → IsCut (groups_in t) u → ((r : Row) (p : State) → In r t → Stored file r p → p ≡ picture u r.group) → Same s u }
    ensures one { (file : List ℕ) (t : Table) (s u : State) → IsTable t → IsLive (Held file) t s → IsLive (Held file) t u → Same s u × (bytes_in t ≤ most_bytes → size_among (groups_in t) s ≤ most_bytes) }
{}

/// After a cell the live state is the one that the new table tells, on every store, and the new table is one; each of its rows is new, or its picture is as it was; the groups that are dropped and the rows that are stored stand in the order of their first names.
pub fn cells_stay_live()
    ensures live { (file : Option (List ℕ)) (t : Table) (s u : State) (accessed : List (List ℕ)) (rows : Table) → IsTable t → IsLive (Stored file) t s → IsSoundState u → Leaves accessed s u → groups_in rows ≡ stored_among (groups_in t) (picture s) accessed u → ((r : Row) → In r rows → Stored file r (picture u r.group)) → IsLive (Stored file) (after (change_told t s accessed u rows) t) u }
    ensures table { (file : Option (List ℕ)) (t : Table) (s u : State) (accessed : List (List ℕ)) (rows : Table) → IsTable t → IsLive (Stored file) t s → IsSoundState u → Leaves accessed s u → groups_in rows ≡ stored_among (groups_in t) (picture s) accessed u → ((r : Row) → In r rows → Stored file r (picture u r.group)) → IsTable (after (change_told t s accessed u rows) t) }
    ensures kept { (file : Option (List ℕ)) (t : Table) (s u : State) (accessed : List (List ℕ)) (rows : Table) → IsTable t → IsLive (Stored file) t s → IsSoundState u → Leaves accessed s u → groups_in rows ≡ stored_among (groups_in t) (picture s) accessed u → ((r : Row) → In r rows → Stored file r (picture u r.group)) → (r : Row) → In r (after (change_told t s accessed u rows) t) → In r rows ⊎ (picture u r.group ≡ picture s r.group) }
    ensures order { (file : Option (List ℕ)) (t : Table) (s u : State) (accessed : List (List ℕ)) (rows : Table) → IsTable t → IsLive (Stored file) t s → IsSoundState u → Leaves accessed s u → groups_in rows ≡ stored_among (groups_in t) (picture s) accessed u → ((r : Row) → In r rows → Stored file r (picture u r.group)) → Rise (map first_name (dropped_among (groups_in t) (picture s) accessed u)) × Rise (map first_in rows) }
{}

/// So it is whatever test tells which classes of the touched names stay, where each that does is stored for its row with its picture now: the new table is one and tells the live state, and takes what its rows without an accessed name take and the classes; each of its rows is new, or has its picture as it was, or is of a class that passes the test; and what is dropped and stored stands in order. So it is also where the live state is only the same as the one that the cells left.
pub fn cells_stay_live_by_tests()
    ensures live { (file : Option (List ℕ)) (t : Table) (s u : State) (accessed : List (List ℕ)) (same : Group → Bool) (rows : Table)
        → IsTable t → IsLive (Stored file) t s → IsSoundState u → LeadsTo accessed s u
        → ((r : Row) → In r t → In r.group (classes (groups_in t) accessed u) → same r.group ≡ true
        → Stored file r (picture u r.group))
        → groups_in rows ≡ filter (λ g. not (is_one_of g (groups_in t) && same g)) (classes (groups_in t) accessed u)
        → ((r : Row) → In r rows → Stored file r (picture u r.group))
        → IsLive (Stored file) (after (record {
          dropped = filter (λ g. holds_any accessed g
              && not (is_one_of g (classes (groups_in t) accessed u) && same g)) (groups_in t);
          stored = rows;
        }) t) u }
    ensures table { (file : Option (List ℕ)) (t : Table) (s u : State) (accessed : List (List ℕ)) (same : Group → Bool) (rows : Table)
        → IsTable t → IsLive (Stored file) t s → IsSoundState u → LeadsTo accessed s u
        → ((r : Row) → In r t → In r.group (classes (groups_in t) accessed u) → same r.group ≡ true
        → Stored file r (picture u r.group))
        → groups_in rows ≡ filter (λ g. not (is_one_of g (groups_in t) && same g)) (classes (groups_in t) accessed u)
        → ((r : Row) → In r rows → Stored file r (picture u r.group))
        → IsTable (after (record {
          dropped = filter (λ g. holds_any accessed g
              && not (is_one_of g (classes (groups_in t) accessed u) && same g)) (groups_in t);
          stored = rows;
        }) t) }
    ensures takes { (file : Option (List ℕ)) (t : Table) (s u : State) (accessed : List (List ℕ)) (same : Group → Bool) (rows : Table)
        → IsTable t → IsLive (Stored file) t s → IsSoundState u → LeadsTo accessed s u
        → ((r : Row) → In r t → In r.group (classes (groups_in t) accessed u) → same r.group ≡ true
        → Stored file r (picture u r.group))
        → groups_in rows ≡ filter (λ g. not (is_one_of g (groups_in t) && same g)) (classes (groups_in t) accessed u)
        → ((r : Row) → In r rows → Stored file r (picture u r.group))
        → bytes_in (after (record {
          dropped = filter (λ g. holds_any accessed g
              && not (is_one_of g (classes (groups_in t) accessed u) && same g)) (groups_in t);
          stored = rows;
        }) t)
        ≡ bytes_in (untouched t accessed) + size_among (classes (groups_in t) accessed u) u }
    ensures kinds { (file : Option (List ℕ)) (t : Table) (s u : State) (accessed : List (List ℕ)) (same : Group → Bool) (rows : Table)
        → IsTable t → IsLive (Stored file) t s → IsSoundState u → LeadsTo accessed s u
        → ((r : Row) → In r t → In r.group (classes (groups_in t) accessed u) → same r.group ≡ true
        → Stored file r (picture u r.group))
        → groups_in rows ≡ filter (λ g. not (is_one_of g (groups_in t) && same g)) (classes (groups_in t) accessed u)
        → ((r : Row) → In r rows → Stored file r (picture u r.group))
        → (r : Row) → In r (after (record {
          dropped = filter (λ g. holds_any accessed g
              && not (is_one_of g (classes (groups_in t) accessed u) && same g)) (groups_in t);
          stored = rows;
        }) t)
        → In r rows ⊎ ((picture u r.group ≡ picture s r.group)
        ⊎ (In r.group (classes (groups_in t) accessed u) × (same r.group ≡ true))) }
    ensures order { (file : Option (List ℕ)) (t : Table) (s u : State) (accessed : List (List ℕ)) (same : Group → Bool) (rows : Table)
        → IsTable t → IsLive (Stored file) t s → IsSoundState u → LeadsTo accessed s u
        → ((r : Row) → In r t → In r.group (classes (groups_in t) accessed u) → same r.group ≡ true
        → Stored file r (picture u r.group))
        → groups_in rows ≡ filter (λ g. not (is_one_of g (groups_in t) && same g)) (classes (groups_in t) accessed u)
        → ((r : Row) → In r rows → Stored file r (picture u r.group))
        → Rise (map first_name (filter (λ g. holds_any accessed g
        && not (is_one_of g (classes (groups_in t) accessed u) && same g)) (groups_in t))) × Rise (map first_in rows) }
{}

/// After a checkout the live state is the one that the target's table tells, on every store; old nodes, of which none is taken out, the names of kept groups and all names that are neither dropped nor loaded are in place. The live state is told also after loading anew from its own pictures, and in a file that has grown.
pub fn checkouts_stay_live()
    ensures live { (file : Option (List ℕ)) (t u : Table) (s : State) (ps : List State) → IsTable t → IsTable u → AreOfOne t u → IsLive (Stored file) t s → AllZip (IsPictureOf (Stored file)) (to_load t u) ps → IsLive (Stored file) u (carried (to_drop t u) ps s) }
    ensures nodes { (t u : Table) (ps : List State) (s : State) (i : ℕ) → i < length s.nodes → node_at s.nodes i ≡ node_at (carried (to_drop t u) ps s).nodes i }
    ensures many { (gs : List Group) (ps : List State) (s : State) → length s.nodes ≤ length (carried gs ps s).nodes }
    ensures names { (file : Option (List ℕ)) (t u : Table) (ps : List State) (s : State) → IsTable t → IsTable u → AreOfOne t u → AllZip (IsPictureOf (Stored file)) (to_load t u) ps → (r : Row) (x : List ℕ) → In r (to_keep t u) → In x r.group → find x (carried (to_drop t u) ps s).names ≡ find x s.names }
    ensures others { (file : Option (List ℕ)) (t u : Table) (ps : List State) (s : State) → AllZip (IsPictureOf (Stored file)) (to_load t u) ps → (x : List ℕ) → ((g : Group) → In g (to_drop t u) → In x g → ⊥) → ((r : Row) → In r (to_load t u) → In x r.group → ⊥) → find x (carried (to_drop t u) ps s).names ≡ find x s.names }
    ensures anew { (file : Option (List ℕ)) (t : Table) → IsTable t → (s : State) → IsLive (Stored file) t s → IsLive (Stored file) t (carried [] (map (λ r. picture s r.group) t) empty) }
    ensures grown { (file grown : List ℕ) (t : Table) (s : State) → Keeps file grown t → IsLive (Held file) t s → IsLive (Held grown) t s }
    ensures new { (file : Option (List ℕ)) → IsLive (Stored file) [] empty }
{}

/// The picture of names that stand in order is a sound state, and so is what a load and a checkout leave of sound states, where the pictures are sound.
pub fn loads_keep_states_sound()
    ensures picture { (s : State) (names : List (List ℕ)) → IsSoundState s → Rise names → IsSoundState (picture s names) }
    ensures loaded { (s p : State) → IsSoundState s → IsSoundState p → IsSoundState (with_picture s p) }
    ensures carried { (gs : List Group) (ps : List State) (s : State) → IsSoundState s → ((p : State) → In p ps → IsSoundState p) → IsSoundState (carried gs ps s) }
{}

/// A store without commits is good. On a good store each commit's table is right and tells the commit's replay, whose pictures may be loaded for its rows; each live state that it tells is the same as the replay, and opening and a checkout leave such a state. Between two commits just the groups that are kept, loaded and left are kept, loaded and dropped.
pub fn good_stores_replay()
    ensures new { (file : List ℕ) → IsGoodStore file [] (λ c. no_change) }
    ensures right { (file : List ℕ) (ks : List Commit) (of : ℕ → Change) → AreRows of → IsGoodStore file ks of → ReplaysAreStates ks → (c : ℕ) → c ≤ length ks → IsRight (stops_in ks c) (table_in ks of c) }
    ensures told { (file : List ℕ) (ks : List Commit) (of : ℕ → Change) → AreRows of → IsGoodStore file ks of → ReplaysAreStates ks → (c : ℕ) → c ≤ length ks → IsLive (Held file) (table_in ks of c) (at_end (stops_in ks c)) }
    ensures loads { (file : List ℕ) (ks : List Commit) (of : ℕ → Change) → AreRows of → IsGoodStore file ks of → ReplaysAreStates ks → (c : ℕ) → c ≤ length ks → (r : Row) → In r (table_in ks of c) → IsPictureOf (Held file) r (picture (at_end (stops_in ks c)) r.group) }
    ensures same { (file : List ℕ) (ks : List Commit) (of : ℕ → Change) → AreRows of → IsGoodStore file ks of → ReplaysAreStates ks → (c : ℕ) → c ≤ length ks → (s : State) → IsLive (Held file) (table_in ks of c) s → Same s (at_end (stops_in ks c)) }
    ensures opened { (file : List ℕ) (ks : List Commit) (of : ℕ → Change) → AreRows of → IsGoodStore file ks of → ReplaysAreStates ks → (c : ℕ) → c ≤ length ks → (ps : List State) → AllZip (IsPictureOf (Held file)) (table_in ks of c) ps → IsLive (Held file) (table_in ks of c) (carried [] ps empty) × Same (carried [] ps empty) (at_end (stops_in ks c)) }
    ensures checked_out { (file : List ℕ) (ks : List Commit) (of : ℕ → Change) → AreRows of → IsGoodStore file ks of → ReplaysAreStates ks → (h c : ℕ) → h ≤ length ks → c ≤ length ks → (s : State) → IsLive (Held file) (table_in ks of h) s → (ps : List State) → AllZip (IsPictureOf (Held file)) (to_load (table_in ks of h) (table_in ks of c)) ps → IsLive (Held file) (table_in ks of c) (carried (to_drop (table_in ks of h) (table_in ks of c)) ps s) × Same (carried (to_drop (table_in ks of h) (table_in ks of c)) ps s) (at_end (stops_in ks c)) }
    ensures kept { (file : List ℕ) (ks : List Commit) (of : ℕ → Change) → AreRows of → IsGoodStore file ks of → ReplaysAreStates ks → (h c : ℕ) → h ≤ length ks → c ≤ length ks → groups_in (to_keep (table_in ks of h) (table_in ks of c)) ≡ kept (stops_in ks h) (stops_in ks c) }
    ensures loaded { (file : List ℕ) (ks : List Commit) (of : ℕ → Change) → AreRows of → IsGoodStore file ks of → ReplaysAreStates ks → (h c : ℕ) → h ≤ length ks → c ≤ length ks → groups_in (to_load (table_in ks of h) (table_in ks of c)) ≡ loaded (stops_in ks h) (stops_in ks c) }
    ensures left { (file : List ℕ) (ks : List Commit) (of : ℕ → Change) → AreRows of → IsGoodStore file ks of → ReplaysAreStates ks → (h c : ℕ) → h ≤ length ks → c ≤ length ks → to_drop (table_in ks of h) (table_in ks of c) ≡ left (stops_in ks h) (stops_in ks c) }
{}

/// A state takes what its groups without an accessed name take and the classes of the touched names, and so does its table after a cell; a table takes what the pictures of its rows take, and where it has the state's groups what the state takes; and states that are the same take the same.
pub fn sizes_are_told()
    ensures cell { (gs : List Group) (pic : Group → State) (accessed : List (List ℕ)) (s : State) → IsSoundState s → IsKept gs pic accessed s → Rise (map first_name gs) → size s ≡ size_among (filter (λ g. not (holds_any accessed g)) gs) s + size_among (classes gs accessed s) s }
    ensures after { (file : Option (List ℕ)) (t : Table) (s u : State) (accessed : List (List ℕ)) (rows : Table) → IsTable t → IsLive (Stored file) t s → IsSoundState u → groups_in rows ≡ stored_among (groups_in t) (picture s) accessed u → ((r : Row) → In r rows → Stored file r (picture u r.group)) → bytes_in (after (change_told t s accessed u rows) t) ≡ bytes_in (filter (λ r. not (holds_any accessed r.group)) t) + size_among (classes (groups_in t) accessed u) u }
    ensures rows { (file : Option (List ℕ)) (t : Table) (s : State) → IsLive (Stored file) t s → bytes_in t ≡ size_among (groups_in t) s }
    ensures table { (file : Option (List ℕ)) (t : Table) (s : State) → IsLive (Stored file) t s → groups_in t ≡ groups_of s → bytes_in t ≡ size s }
    ensures same { (s t : State) → IsSoundState s → IsSoundState t → Same s t → size s ≡ size t }
{}

/// A session on a new store is attached with the empty state, and on a good store with each sound state that is the same as the head's replay; and it stays attached: at opening, at a record that makes no commit, at a checkout, and at cells.
pub fn sessions_stay_attached()
    ensures new { (file : List ℕ) → IsAttached file new_graph (λ c. no_change) empty }
    ensures opened { (file : List ℕ) (g : Graph) (of : ℕ → Change) → AreRows of → ReplaysAreStates g.commits → IsGoodStore file g.commits of → g.head.commit ≤ newest g → (ps : List State) → AllZip (IsPictureOf (Held file)) (table_at g of g.head.commit) ps → IsAttached file g of (carried [] ps empty) }
    ensures same { (file : List ℕ) (g : Graph) (of : ℕ → Change) → AreRows of → ReplaysAreStates g.commits → IsGoodStore file g.commits of → g.head.commit ≤ newest g → (s : State) → IsSoundState s → Same s (replay g g.head.commit) → IsAttached file g of s }
    ensures still { (file grown : List ℕ) (g : Graph) (of : ℕ → Change) → AreRows of → (s : State) → IsAttached file g of s → KeepsRecords file grown (newest g) of → (h : Graph) → h.commits ≡ g.commits → h.head.commit ≡ g.head.commit → IsAttached grown h of s }
    ensures moved { (file grown : List ℕ) (g : Graph) (of : ℕ → Change) → AreRows of → ReplaysAreStates g.commits → (s : State) → IsAttached file g of s → KeepsRecords file grown (newest g) of → (h : Graph) → h.commits ≡ g.commits → h.head.commit ≤ newest g → (ps : List State) → AllZip (IsPictureOf (Held file)) (to_load (table_at g of g.head.commit) (table_at g of h.head.commit)) ps → IsAttached grown h of (carried (to_drop (table_at g of g.head.commit) (table_at g of h.head.commit)) ps s) }
    ensures cells { (file grown : List ℕ) (g : Graph) (of : ℕ → Change) → AreRows of → ReplaysAreStates g.commits → (s : State) → IsAttached file g of s → KeepsRecords file grown (newest g) of → (profile : Profile) (cells : List (List ℕ)) (u : State) → IsSoundState u → IsSoundState (after_cells profile cells (replay g g.head.commit)) → Same u (after_cells profile cells (replay g g.head.commit)) → (accessed : List (List ℕ)) → Leaves accessed s u → (rows : Table) → AreNewRows grown (suc (newest g)) (table_at g of g.head.commit) s accessed u rows → StaySmall profile cells (replay g g.head.commit) → IsAttached grown (with_commit profile cells g) (with_change of (suc (newest g)) (change_told (table_at g of g.head.commit) s accessed u rows)) u }
{}
