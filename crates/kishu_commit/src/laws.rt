// What holds of commits that store just what changed, told among the names that their cells accessed.
ghost use Rattle.std.specs.Prelude.{◌≡◌, ◌↔◌, ◌<◌, ◌≤◌, ◌^◌, ℕ, Bool, List, [], ◌∷◌, ◌++◌, map, Option, Some, None};
ghost use Rattle.std.specs.List.{AllByRecursion, AllZip};
ghost use Rattle.kishu_meaning.specs.values.Values.{State};
ghost use Rattle.kishu_objects.specs.Bytes.{picture_bytes};
ghost use Rattle.kishu_objects.specs.Fits.{StateFits};
ghost use Rattle.kishu_objects.specs.Lists.{In};
ghost use Rattle.kishu_objects.specs.Locality.{Leaves};
ghost use Rattle.kishu_objects.specs.Picture.{picture, listed};
ghost use Rattle.kishu_objects.specs.Sizes.{most_bytes};
ghost use Rattle.kishu_objects.specs.States.{IsSoundState};
ghost use Rattle.kishu_replay.specs.Replay.{after_cells};
ghost use Rattle.kishu_store.specs.Entries.{Record};
ghost use Rattle.kishu_store.specs.Graph.{newest};
ghost use Rattle.kishu_store.specs.Groups.{Group, IsName};
ghost use Rattle.kishu_store.specs.Histories.{History, head_table, led, Follows, FollowsAt};
ghost use Rattle.kishu_store.specs.Holds.{HasRecords, history_by};
ghost use Rattle.kishu_store.specs.Limits.{most_records, most_pictured, newest_profile};
ghost use Rattle.kishu_store.specs.Rules.{IsRecord};
ghost use Rattle.kishu_store.specs.Tables.{Table, groups_in, rows_from, after, bytes_in, bytes_at, change_of, FitsTable, IsKeptTable};
ghost use Rattle.kishu_store_laws.specs.HistoryLaws.{IsHistory};
ghost use Rattle.kishu_history.specs.Accessed.{accessed_by};
ghost use Rattle.kishu_history.specs.Good.{IsAttached};
ghost use Rattle.kishu_history.specs.Live.{IsLive};
ghost use Rattle.kishu_history.specs.Sizes.{StaySmall};
ghost use Rattle.kishu_history.specs.Stored.{Stored, Keeps, KeepsRecords};
ghost use Rattle.kishu_history.specs.Tables.{IsTable};
ghost use Rattle.kishu_history.specs.Touched.{classes, change_told, size_told};
ghost use Rattle.kishu_history_laws.specs.cells.Led.{LeadsTo};
ghost use Rattle.kishu_commit.specs.Told.{measured, record_with, record_by, change_by, next_entry_by, rows_by, AreToldBy};
ghost use Rattle.kishu_commit.specs.Told.{dropped_told, groups_told, stored_told, pictures_told, told_record, next_entry, next_record, next_rows};
ghost use Rattle.kishu_commit.specs.Told.{PicturesFit, CanBeStored, StayStored, MayBeCommitted, HasShortNames};

/// On every store a commit of what is told fits the table of its parent, whatever its number and wherever its
/// pictures lie, and the records before it, where what is told to be its state's size isn't too large. Its
/// record may be written where the names of the table's groups are short; so they are where the table tells a
/// state. The pictures that it stores are among those of the classes of the touched names.
pub fn commits_fit()
    ensures table { (t : Table) → IsTable t → (s u : State) (accessed : List (List ℕ))
        → IsLive (Stored None) t s → IsSoundState u → Leaves accessed s u → CanBeStored t s accessed u
        → size_told t accessed u ≤ most_bytes → (number place : ℕ)
        → FitsTable t (change_told t s accessed u (rows_from number place (stored_told t s accessed u))) }
    ensures follows { (h : History) → IsHistory h → (cells : List (List ℕ)) (s u : State)
        (accessed : List (List ℕ)) → IsLive (Stored None) (head_table h) s → IsSoundState u
        → Leaves accessed s u → CanBeStored (head_table h) s accessed u
        → size_told (head_table h) accessed u ≤ most_bytes → h.graph.records < most_records
        → Follows h (next_entry h cells s accessed u) }
    ensures rules { (parent : ℕ) (cells : List (List ℕ)) (t : Table) (s u : State) (accessed : List (List ℕ))
        → parent < 2 ^ 32 → MayBeCommitted cells → IsKeptTable t → HasShortNames t → IsSoundState u
        → AllByRecursion IsName (listed u) → size_told t accessed u ≤ most_bytes
        → IsRecord (told_record parent cells t s accessed u) }
    ensures names { (file : Option (List ℕ)) (t : Table) (s : State) → IsLive (Stored file) t s
        → bytes_in t ≤ most_pictured → HasShortNames t }
    ensures stored { (t : Table) (s u : State) (accessed : List (List ℕ))
        → ((g : Group) → In g (classes (groups_in t) accessed u) → StateFits (picture u g))
        → CanBeStored t s accessed u }
{}

/// So it is of a commit whose lists are told by any test which classes of the touched names stay, where each
/// row that stays so has a picture now of its length, also where the state is only the same as the one that
/// its cells left. It fits wherever its body stands. That its record may be written doesn't hang on the state
/// before.
pub fn commits_fit_by_tests()
    ensures table { (t : Table) → IsTable t → (s u : State) (accessed : List (List ℕ))
        → IsLive (Stored None) t s → IsSoundState u → LeadsTo accessed s u → (same : Group → Bool)
        → StayStored None t accessed u same → (dropped stored : List Group)
        → AreToldBy t accessed u same dropped stored → PicturesFit u stored
        → size_told t accessed u ≤ most_bytes → (number place : ℕ)
        → FitsTable t (change_by dropped (rows_from number place (map (measured u) stored))) }
    ensures follows { (body : ℕ) (h : History) → IsHistory h → (cells : List (List ℕ)) (s u : State)
        (accessed : List (List ℕ)) → IsLive (Stored None) (head_table h) s → IsSoundState u
        → LeadsTo accessed s u → (same : Group → Bool) → StayStored None (head_table h) accessed u same
        → (dropped stored : List Group) → AreToldBy (head_table h) accessed u same dropped stored
        → PicturesFit u stored → size_told (head_table h) accessed u ≤ most_bytes
        → h.graph.records < most_records → FollowsAt body h (next_entry_by h cells dropped stored u) }
    ensures rules { (parent : ℕ) (cells : List (List ℕ)) (t : Table) (u : State) (accessed : List (List ℕ))
        (same : Group → Bool) (dropped stored : List Group) → AreToldBy t accessed u same dropped stored
        → parent < 2 ^ 32 → MayBeCommitted cells → IsKeptTable t → HasShortNames t → IsSoundState u
        → AllByRecursion IsName (listed u) → size_told t accessed u ≤ most_bytes
        → IsRecord (record_by parent cells dropped stored u) }
    ensures stored { (t : Table) (accessed : List (List ℕ)) (u : State) (same : Group → Bool)
        (dropped stored : List Group) → AreToldBy t accessed u same dropped stored
        → ((g : Group) → In g (classes (groups_in t) accessed u) → StateFits (picture u g))
        → PicturesFit u stored }
{}

/// A record of the groups that are told, and of the pictures of those that it stores, is that of the commit.
/// On every store the commit's table is its parent's with what is told, and tells the state that the commit's
/// cells left: by the lengths of its pictures, and by the pictures themselves where the new ones lie in the
/// file at their rows' places and the old ones stay there, as they do in a file that ends with the commit's
/// record.
pub fn commits_tell_states()
    ensures record { (parent : ℕ) (cells : List (List ℕ)) (t : Table) (s u : State)
        (accessed : List (List ℕ)) (dropped stored : List Group)
        → dropped ≡ dropped_told t s accessed u → stored ≡ groups_told t s accessed u
        → record_with parent cells dropped stored (map (picture_bytes u) stored)
        ≡ told_record parent cells t s accessed u }
    ensures table { (h : History) → IsHistory h → (cells : List (List ℕ)) (s u : State)
        (accessed : List (List ℕ)) → head_table (led h (next_entry h cells s accessed u))
        ≡ after (change_told (head_table h) s accessed u (next_rows h cells s accessed u)) (head_table h) }
    ensures untold { (h : History) → IsHistory h → (cells : List (List ℕ)) (s u : State)
        (accessed : List (List ℕ)) → IsLive (Stored None) (head_table h) s → IsSoundState u
        → Leaves accessed s u → CanBeStored (head_table h) s accessed u
        → IsLive (Stored None) (head_table (led h (next_entry h cells s accessed u))) u }
    ensures told { (h : History) → IsHistory h → (cells : List (List ℕ)) (s u : State)
        (accessed : List (List ℕ)) (file grown : List ℕ) → IsLive (Stored (Some file)) (head_table h) s
        → IsSoundState u → Leaves accessed s u → CanBeStored (head_table h) s accessed u
        → Keeps file grown (head_table h)
        → AllZip (λ r p. bytes_at grown r ≡ p) (next_rows h cells s accessed u)
        (pictures_told (head_table h) s accessed u)
        → IsLive (Stored (Some grown)) (head_table (led h (next_entry h cells s accessed u))) u }
    ensures recorded { (rs : List Record) (cells : List (List ℕ)) (s u : State) (accessed : List (List ℕ))
        → (file : List ℕ) → HasRecords file rs → IsLive (Stored (Some file)) (head_table (history_by rs)) s
        → IsSoundState u → Leaves accessed s u → CanBeStored (head_table (history_by rs)) s accessed u
        → (grown : List ℕ) → HasRecords grown (rs ++ (next_record (history_by rs) cells s accessed u ∷ []))
        → IsLive (Stored (Some grown))
        (head_table (history_by (rs ++ (next_record (history_by rs) cells s accessed u ∷ [])))) u }
{}

/// A record of any groups, and of the pictures that those have now which it stores, is told by these lists.
/// On every store the commit's table is its parent's with them. It tells the state that the commit's cells
/// left, and each that is the same, by the lengths of its pictures, where the lists are told by a test which
/// classes of the touched names stay, and each row that stays so has a picture now of its length.
pub fn commits_tell_states_by_tests()
    ensures record { (parent : ℕ) (cells : List (List ℕ)) (dropped stored : List Group) (u : State)
        → record_with parent cells dropped stored (map (picture_bytes u) stored)
        ≡ record_by parent cells dropped stored u }
    ensures table { (h : History) → IsHistory h → (cells : List (List ℕ)) (dropped stored : List Group)
        (u : State) → head_table (led h (next_entry_by h cells dropped stored u))
        ≡ after (change_by dropped (rows_by h cells dropped stored u)) (head_table h) }
    ensures untold { (h : History) → IsHistory h → (cells : List (List ℕ)) (s u : State)
        (accessed : List (List ℕ)) → IsLive (Stored None) (head_table h) s → IsSoundState u
        → LeadsTo accessed s u → (same : Group → Bool) → StayStored None (head_table h) accessed u same
        → (dropped stored : List Group) → AreToldBy (head_table h) accessed u same dropped stored
        → PicturesFit u stored
        → IsLive (Stored None) (head_table (led h (next_entry_by h cells dropped stored u))) u }
{}

/// A session that is attached to a good store stays attached with one commit more of the cells that it ran,
/// where the state after each isn't too large, and the new pictures lie in the file at their rows' places and
/// the old ones stay there, as they do in a file that ends with the commit's record. What is told is told
/// among the names that the cells accessed, however often each is among them.
pub fn sessions_stay_attached()
    ensures leaves { (cells : List (List ℕ)) (s : State) → IsSoundState s → (accessed : List (List ℕ))
        → ((x : List ℕ) → (In x accessed ↔ In x (accessed_by newest_profile cells s)))
        → Leaves accessed s (after_cells newest_profile cells s) }
    ensures cells { (file grown : List ℕ) (h : History) → IsHistory h → (s : State)
        → IsAttached file h.graph (change_of h.changes) s
        → KeepsRecords file grown (newest h.graph) (change_of h.changes)
        → (cells : List (List ℕ)) (u : State) → u ≡ after_cells newest_profile cells s
        → (accessed : List (List ℕ))
        → ((x : List ℕ) → (In x accessed ↔ In x (accessed_by newest_profile cells s)))
        → CanBeStored (head_table h) s accessed u → StaySmall newest_profile cells s
        → AllZip (λ r p. bytes_at grown r ≡ p) (next_rows h cells s accessed u)
        (pictures_told (head_table h) s accessed u)
        → IsAttached grown (led h (next_entry h cells s accessed u)).graph
        (change_of (led h (next_entry h cells s accessed u)).changes) u }
    ensures recorded { (rs : List Record) (file : List ℕ) → HasRecords file rs → (s : State)
        → IsAttached file (history_by rs).graph (change_of (history_by rs).changes) s
        → (cells : List (List ℕ)) (u : State) → u ≡ after_cells newest_profile cells s
        → (accessed : List (List ℕ))
        → ((x : List ℕ) → (In x accessed ↔ In x (accessed_by newest_profile cells s)))
        → CanBeStored (head_table (history_by rs)) s accessed u → StaySmall newest_profile cells s
        → (grown : List ℕ) → HasRecords grown (rs ++ (next_record (history_by rs) cells s accessed u ∷ []))
        → IsAttached grown (history_by (rs ++ (next_record (history_by rs) cells s accessed u ∷ []))).graph
        (change_of (history_by (rs ++ (next_record (history_by rs) cells s accessed u ∷ []))).changes) u }
{}
