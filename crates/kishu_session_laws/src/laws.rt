// What holds of a session over the cells that it runs.

ghost use Rattle.std.specs.Prelude.{◌≡◌, ◌≤◌, ℕ, suc, List, [], Option, ◌↔◌, ◌⊎◌, ◌+◌, false, not, filter, ◌<◌, ◌^◌};
ghost use Rattle.std.specs.List.{AllByRecursion, AllZip};
ghost use Rattle.kishu_language.specs.declared.profile.Profile.{Profile};
ghost use Rattle.kishu_meaning.specs.values.Values.{State, empty};
ghost use Rattle.kishu_store.specs.Graph.{Commit, Graph, newest, with_commit};
ghost use Rattle.kishu_replay.specs.Replay.{after_cells, replay};
ghost use Rattle.kishu_objects.specs.Same.{Same};
ghost use Rattle.kishu_objects.specs.Picture.{picture, listed};
ghost use Rattle.kishu_objects.specs.Reading.{IsInOrder};
ghost use Rattle.kishu_objects.specs.Lists.{In};
ghost use Rattle.kishu_objects.specs.State.{IsCell, IsState};
ghost use Rattle.kishu_objects.specs.States.{IsSoundState};
ghost use Rattle.kishu_history.specs.Versions.{stored, dropped, kept, loaded, left};
ghost use Rattle.kishu_history.specs.Tables.{Row, Table, groups_in, Change, after, IsTable};
ghost use Rattle.kishu_history.specs.Paths.{stops, ReplaysAreStates, table_at, with_change, AreRows};
ghost use Rattle.kishu_history.specs.Accessed.{accessed_by};
ghost use Rattle.kishu_history.specs.Touched.{dropped_among, stored_among, change_told, holds_any, classes};
ghost use Rattle.kishu_objects.specs.Locality.{Leaves};
ghost use Rattle.kishu_history.specs.Checkout.{to_keep, to_load, to_drop, carried};
ghost use Rattle.kishu_history.specs.Live.{IsLive, IsPictureOf, IsStoredPicture};
ghost use Rattle.kishu_history.specs.Stored.{Held, IsWritten, Stored, KeepsRecords, AreNewRows};
ghost use Rattle.kishu_objects.specs.Sizes.{size_among, size};
ghost use Rattle.kishu_history.specs.Sizes.{StaySmall};
ghost use Rattle.kishu_history.specs.Good.{IsGoodStore, IsWrittenStore, IsGoodFileOf, IsWrittenFileOf, IsAttached};
ghost use Rattle.kishu_objects.specs.Groups.{groups_of};
ghost use Rattle.kishu_history.specs.Changed.{Group, changed};

/// The state that each commit's replay leaves is one, and so is what cells leave of a state.
pub fn replays_are_states()
    ensures all { (g : Graph) → ReplaysAreStates g.commits }
    ensures each { (g : Graph) (c : ℕ) → IsSoundState (replay g c) }
    ensures cells { (profile : Profile) (cells : List (List ℕ)) (s : State) → IsSoundState s → IsSoundState (after_cells profile cells s) }
{}

/// Cells one after another leave what the names that they access didn't reach.
pub fn cells_leave()
    ensures { (profile : Profile) (cells : List (List ℕ)) (s : State) → IsSoundState s → Leaves (accessed_by profile cells s) s (after_cells profile cells s) }
{}

/// After cells the groups are those of before that hold no accessed name, and the classes of the touched names; what the state takes is what these take; and what is told among the touched names is what changed.
pub fn cells_are_told()
    ensures groups { (profile : Profile) (cells : List (List ℕ)) (s : State) → IsSoundState s → (g : Group) → (In g (groups_of (after_cells profile cells s)) ↔ ((In g (groups_of s) × (holds_any (accessed_by profile cells s) g ≡ false)) ⊎ In g (classes (groups_of s) (accessed_by profile cells s) (after_cells profile cells s)))) }
    ensures size { (profile : Profile) (cells : List (List ℕ)) (s : State) → IsSoundState s → size (after_cells profile cells s) ≡ size_among (filter (λ g. not (holds_any (accessed_by profile cells s) g)) (groups_of s)) (after_cells profile cells s) + size_among (classes (groups_of s) (accessed_by profile cells s) (after_cells profile cells s)) (after_cells profile cells s) }
    ensures dropped { (profile : Profile) (cells : List (List ℕ)) (s : State) → IsSoundState s → dropped_among (groups_of s) (picture s) (accessed_by profile cells s) (after_cells profile cells s) ≡ changed s (after_cells profile cells s) }
    ensures stored { (profile : Profile) (cells : List (List ℕ)) (s : State) → IsSoundState s → stored_among (groups_of s) (picture s) (accessed_by profile cells s) (after_cells profile cells s) ≡ changed (after_cells profile cells s) s }
{}

/// On every store cells leave the live state that the new table tells, and the new table is one.
pub fn cells_stay_live()
    ensures live { (file : Option (List ℕ)) (t : Table) (s : State) (profile : Profile) (cells : List (List ℕ)) (rows : Table) → IsTable t → IsLive (Stored file) t s → groups_in rows ≡ stored_among (groups_in t) (picture s) (accessed_by profile cells s) (after_cells profile cells s) → ((r : Row) → In r rows → Stored file r (picture (after_cells profile cells s) r.group)) → IsLive (Stored file) (after (change_told t s (accessed_by profile cells s) (after_cells profile cells s) rows) t) (after_cells profile cells s) }
    ensures table { (file : Option (List ℕ)) (t : Table) (s : State) (profile : Profile) (cells : List (List ℕ)) (rows : Table) → IsTable t → IsLive (Stored file) t s → groups_in rows ≡ stored_among (groups_in t) (picture s) (accessed_by profile cells s) (after_cells profile cells s) → ((r : Row) → In r rows → Stored file r (picture (after_cells profile cells s) r.group)) → IsTable (after (change_told t s (accessed_by profile cells s) (after_cells profile cells s) rows) t) }
{}

/// In a session attached to a good store what is told among the touched names is just what the new commit drops and stores.
pub fn commits_are_told()
    ensures dropped { (file : List ℕ) (g : Graph) (of : ℕ → Change) → AreRows of → (s : State) → IsAttached file g of s → (profile : Profile) (cells : List (List ℕ)) → dropped_among (groups_in (table_at g of g.head.commit)) (picture s) (accessed_by profile cells s) (after_cells profile cells s) ≡ dropped (stops (with_commit profile cells g) (suc (newest g))) }
    ensures stored { (file : List ℕ) (g : Graph) (of : ℕ → Change) → AreRows of → (s : State) → IsAttached file g of s → (profile : Profile) (cells : List (List ℕ)) → stored_among (groups_in (table_at g of g.head.commit)) (picture s) (accessed_by profile cells s) (after_cells profile cells s) ≡ stored (stops (with_commit profile cells g) (suc (newest g))) }
{}

/// Where the cells of all commits are texts, a store is good exactly where its records store and drop what they have to, the file has the bytes of the stored pictures, and no replay is too large: that these pictures can be written follows. A file is then good exactly where it holds the graph and is such a store by its bytes, since the cells of each graph that a file holds are texts.
pub fn written_stores_are_good()
    ensures groups { (file : List ℕ) (ks : List Commit) (of : ℕ → Change)
        → AllByRecursion (λ (k : Commit). AllByRecursion IsCell k.cells) ks
        → (IsWrittenStore file ks of ↔ IsGoodStore file ks of) }
    ensures file { (file : List ℕ) (g : Graph)
        → (IsWrittenFileOf file g ↔ IsGoodFileOf file g) }
{}

/// A checkout of states into a state leaves one. A state that reads in order and has just a row's names may be loaded for it where the file has its bytes there, and on a good store whose cells are texts the picture of each row is one that may be loaded for it: so what such a store stores is never refused as no picture.
pub fn stored_pictures_are_states()
    ensures carried { (gs : List Group) (ps : List State) (s : State) → IsState s → ((p : State) → In p ps → IsState p) → IsState (carried gs ps s) }
    ensures loaded { (file : Option (List ℕ)) (t : Table) (ps : List State) → AllZip (IsStoredPicture (Stored file)) t ps → (p : State) → In p ps → IsState p }
    ensures read { (file : List ℕ) (r : Row) (p : State) → IsState p → IsInOrder p → listed p ≡ r.group → IsWritten file r p → r.len < 2 ^ 32 → IsStoredPicture (Held file) r p }
    ensures good { (file : List ℕ) (g : Graph) (of : ℕ → Change) → AreRows of → IsGoodStore file g.commits of → AllByRecursion (λ (k : Commit). AllByRecursion IsCell k.cells) g.commits → (c : ℕ) → c ≤ newest g → (r : Row) → In r (table_at g of c) → IsStoredPicture (Held file) r (picture (replay g c) r.group) }
{}

/// On a good store a checkout keeps, loads and drops just the groups that are kept, loaded and left from one commit to the other.
pub fn checkouts_are_planned()
    ensures kept { (file : List ℕ) (g : Graph) (of : ℕ → Change) → AreRows of → IsGoodStore file g.commits of → (h c : ℕ) → h ≤ newest g → c ≤ newest g → groups_in (to_keep (table_at g of h) (table_at g of c)) ≡ kept (stops g h) (stops g c) }
    ensures loaded { (file : List ℕ) (g : Graph) (of : ℕ → Change) → AreRows of → IsGoodStore file g.commits of → (h c : ℕ) → h ≤ newest g → c ≤ newest g → groups_in (to_load (table_at g of h) (table_at g of c)) ≡ loaded (stops g h) (stops g c) }
    ensures left { (file : List ℕ) (g : Graph) (of : ℕ → Change) → AreRows of → IsGoodStore file g.commits of → (h c : ℕ) → h ≤ newest g → c ≤ newest g → to_drop (table_at g of h) (table_at g of c) ≡ left (stops g h) (stops g c) }
{}

/// A session on a good store is attached after opening, and with each sound state that is the same as the head's replay; it stays attached at a record that makes no commit, at a checkout, and at the cells that it runs, where none is too large; the rows of the records then have their commits' numbers and stand in order again.
pub fn sessions_stay_attached()
    ensures opened { (file : List ℕ) (g : Graph) (of : ℕ → Change) → AreRows of → IsGoodStore file g.commits of → g.head.commit ≤ newest g → (ps : List State) → AllZip (IsPictureOf (Held file)) (table_at g of g.head.commit) ps → IsAttached file g of (carried [] ps empty) }
    ensures same { (file : List ℕ) (g : Graph) (of : ℕ → Change) → AreRows of → IsGoodStore file g.commits of → g.head.commit ≤ newest g → (s : State) → IsSoundState s → Same s (replay g g.head.commit) → IsAttached file g of s }
    ensures still { (file grown : List ℕ) (g : Graph) (of : ℕ → Change) → AreRows of → (s : State) → IsAttached file g of s → KeepsRecords file grown (newest g) of → (h : Graph) → h.commits ≡ g.commits → h.head.commit ≡ g.head.commit → IsAttached grown h of s }
    ensures moved { (file grown : List ℕ) (g : Graph) (of : ℕ → Change) → AreRows of → (s : State) → IsAttached file g of s → KeepsRecords file grown (newest g) of → (h : Graph) → h.commits ≡ g.commits → h.head.commit ≤ newest g → (ps : List State) → AllZip (IsPictureOf (Held file)) (to_load (table_at g of g.head.commit) (table_at g of h.head.commit)) ps → IsAttached grown h of (carried (to_drop (table_at g of g.head.commit) (table_at g of h.head.commit)) ps s) }
    ensures cells { (file grown : List ℕ) (g : Graph) (of : ℕ → Change) → AreRows of → (s : State) → IsAttached file g of s → KeepsRecords file grown (newest g) of → (profile : Profile) (cells : List (List ℕ)) (rows : Table) → AreNewRows grown (suc (newest g)) (table_at g of g.head.commit) s (accessed_by profile cells s) (after_cells profile cells s) rows → StaySmall profile cells s → IsAttached grown (with_commit profile cells g) (with_change of (suc (newest g)) (change_told (table_at g of g.head.commit) s (accessed_by profile cells s) (after_cells profile cells s) rows)) (after_cells profile cells s) }
    ensures rows { (file grown : List ℕ) (g : Graph) (of : ℕ → Change) → AreRows of → (s : State) → IsAttached file g of s → KeepsRecords file grown (newest g) of → (profile : Profile) (cells : List (List ℕ)) (rows : Table) → AreNewRows grown (suc (newest g)) (table_at g of g.head.commit) s (accessed_by profile cells s) (after_cells profile cells s) rows → AreRows (with_change of (suc (newest g)) (change_told (table_at g of g.head.commit) s (accessed_by profile cells s) (after_cells profile cells s) rows)) }
{}
