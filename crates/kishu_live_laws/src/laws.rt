// What requests give on a live state.

ghost use Rattle.std.specs.Prelude.{◌≡◌, ◌≤◌, ◌<◌, ◌+◌, if◌then◌else◌, ℕ, List, [], length, Some, None};
ghost use Rattle.std.specs.List.{AllZip};
ghost use Rattle.kishu_language.specs.declared.profile.Profile.{Profile};
ghost use Rattle.kishu_meaning.specs.cells.Meaning.{run};
ghost use Rattle.kishu_meaning.specs.values.Values.{State, empty};
ghost use Rattle.kishu_store.specs.Graph.{Graph, newest, path_in, with_commit};
ghost use Rattle.kishu_store.specs.Holds.{Holds};
ghost use Rattle.kishu_store.specs.Limits.{newest_profile};
ghost use Rattle.kishu_replay.specs.Replay.{after_cells, charge_in, replay};
ghost use Rattle.kishu_model.specs.Answers.{Refusal, refused, state_too_large};
ghost use Rattle.kishu_model.specs.Request.{Request, cell};
ghost use Rattle.kishu_model.specs.requests.Cells.{cells_run, results_from};
ghost use Rattle.kishu_model.specs.requests.Inspect.{told_at};
ghost use Rattle.kishu_model.specs.requests.Status.{names_in};
ghost use Rattle.kishu_model.specs.requests.TooLarge.{is_too_large, too_large};
ghost use Rattle.kishu_model.specs.Serve.{after};
ghost use Rattle.kishu_model.specs.Step.{step, charge_of};
ghost use Rattle.kishu_objects.specs.Groups.{groups_of};
ghost use Rattle.kishu_objects.specs.Lists.{In};
ghost use Rattle.kishu_objects.specs.Picture.{picture, whole};
ghost use Rattle.kishu_objects.specs.Same.{Same};
ghost use Rattle.kishu_objects.specs.Sizes.{size, size_among};
ghost use Rattle.kishu_objects.specs.Sound.{IsSound};
ghost use Rattle.kishu_objects.specs.States.{IsSoundState};
ghost use Rattle.kishu_reading.specs.Pictured.{AreKnown};
ghost use Rattle.kishu_history.specs.Changed.{Group};
ghost use Rattle.kishu_history.specs.Checkout.{carried, to_load};
ghost use Rattle.kishu_history.specs.Good.{IsAttached, IsGoodStore};
ghost use Rattle.kishu_history.specs.Live.{IsPictureOf, IsStoredPicture};
ghost use Rattle.kishu_history.specs.Paths.{AreRows, stops, table_at};
ghost use Rattle.kishu_history.specs.Sizes.{AllStaySmall, StaySmall};
ghost use Rattle.kishu_history.specs.Stored.{Held};
ghost use Rattle.kishu_history.specs.Tables.{Change, Row, Table, bytes_in, groups_in};
ghost use Rattle.kishu_history.specs.Versions.{loaded};
ghost use Rattle.kishu_live_laws.specs.Alike.{OnAttached, OnHeld, OnSame, head_after, head_of};
ghost use Rattle.kishu_live_laws.specs.Asked.{Test, bytes_by};
ghost use Rattle.kishu_live_laws.specs.Made.{loaded_nodes, made_by, made_by_cells, opened_nodes};
ghost use Rattle.kishu_live_laws.specs.OnStates.{IsNoCheckout, StayTold, after_on, answer_on, charge_on, head_rows, left_of, left_size, ran_by, run_of, state_on};
ghost use Rattle.kishu_live_laws.specs.Reached.{reached_by};
ghost use Rattle.kishu_live_laws.specs.Refusals.{LeavesTooLarge, refusal_in};

/// Where a session is attached to a good store, what is told of its cells by the head's table is what they
/// leave: so just those are run that end well and leave no state that is too large.
pub fn attached_sizes_are_told()
    ensures size { OnAttached (λ of s g. (cells : List (List ℕ))
        → left_size (head_rows of g) cells s ≡ size (after_cells newest_profile cells s)) }
    ensures ran { OnAttached (λ of s g. (texts : List (List ℕ))
        → run_of (head_rows of g) texts s ≡ cells_run newest_profile texts s) }
{}

/// Where a session is attached to a good store, a request gives on its state just what one step of the
/// machine gives that replays each commit from empty; the state that it leaves is the same as the replay of
/// the new head, where it makes a commit, where the head stays at its commit, and where it is no checkout.
pub fn live_states_step()
    ensures answer { OnHeld (λ of s g. (q : Request) → answer_on of s g q ≡ (step g q).answer) }
    ensures after { OnAttached (λ of s g. (q : Request) → after_on of s g q ≡ after g q) }
    ensures charge { OnAttached (λ of s g. (q : Request) → charge_on of s g q ≡ charge_of g q) }
    ensures committed { OnAttached (λ of s g. (q : Request)
        → newest g < newest (after g q) → Same (state_on of s g q) (head_after g q)) }
    ensures stayed { OnAttached (λ of s g. (q : Request)
        → (after g q).head.commit ≡ g.head.commit → Same (state_on of s g q) (head_after g q)) }
    ensures others { OnAttached (λ of s g. (q : Request)
        → IsNoCheckout q → Same (state_on of s g q) (head_after g q)) }
{}

/// Where a session is attached to a good store, a request that makes a commit makes as many nodes as its
/// cells make on the replay of the head; an opening makes as many as the pictures of the head's groups have,
/// and a checkout as many as those of the groups that it loads. Cells make as many nodes on states that are
/// the same. A picture has no more nodes than its state.
pub fn requests_make_nodes()
    ensures committed { OnAttached (λ of s g. (q : Request) → newest g < newest (after g q)
        → length (state_on of s g q).nodes ≡ length s.nodes + made_by_cells g q) }
    ensures opened { (file : List ℕ) (g : Graph) (of : ℕ → Change) → AreRows of
        → IsGoodStore file g.commits of → (c : ℕ) → c ≤ newest g → (ps : List State)
        → AllZip (IsPictureOf (Held file)) (table_at g of c) ps
        → length (carried [] ps empty).nodes ≡ opened_nodes g c }
    ensures moved { (file : List ℕ) (g : Graph) (of : ℕ → Change) → AreRows of
        → IsGoodStore file g.commits of → (h c : ℕ) → h ≤ newest g → c ≤ newest g → (ps : List State)
        → AllZip (IsPictureOf (Held file)) (to_load (table_at g of h) (table_at g of c)) ps
        → (gs : List Group) (s : State)
        → length (carried gs ps s).nodes ≡ length s.nodes + loaded_nodes g h c }
    ensures same { (profile : Profile) (texts : List (List ℕ)) → OnSame (λ s t.
        length (after_cells profile texts s).nodes + length t.nodes
        ≡ length (after_cells profile texts t).nodes + length s.nodes) }
    ensures pictures { (s : State) (names : List (List ℕ)) → IsSound s
        → length (picture s names).nodes ≤ length s.nodes }
{}

/// On a good store the rows that a checkout loads take just the bytes of the pictures of the groups that it
/// loads, and the rows of a commit's table those of all groups of its replay.
pub fn loaded_bytes_are_sizes()
    ensures moved { (file : List ℕ) (g : Graph) (of : ℕ → Change) → AreRows of
        → IsGoodStore file g.commits of → (h c : ℕ) → h ≤ newest g → c ≤ newest g
        → bytes_in (to_load (table_at g of h) (table_at g of c))
        ≡ size_among (loaded (stops g h) (stops g c)) (replay g c) }
    ensures opened { (file : List ℕ) (g : Graph) (of : ℕ → Change) → AreRows of
        → IsGoodStore file g.commits of → (c : ℕ) → c ≤ newest g
        → bytes_in (table_at g of c) ≡ size (replay g c) }
{}

/// In a session that is attached to a good store the live state after a request, whichever that is, has at
/// most as many more nodes as the request makes by the machine that replays: the state that its cells left;
/// where none are committed, the one that is carried on to the head after it; and the one that is loaded
/// anew for the head, which has no more than there were.
pub fn next_states_make_no_more()
    ensures on { OnAttached (λ of s g. (q : Request)
        → length (state_on of s g q).nodes ≤ length s.nodes + made_by g q) }
    ensures carried { (file : List ℕ) (of : ℕ → Change) (s : State) (g : Graph) → AreRows of
        → IsAttached file g of s → (q : Request) → newest (after_on of s g q) ≤ newest g → (ps : List State)
        → AllZip (IsPictureOf (Held file)) (to_load (head_rows of g) (head_rows of (after_on of s g q))) ps
        → (gs : List Group) → length (carried gs ps s).nodes ≤ length s.nodes + made_by g q }
    ensures anew { (file : List ℕ) (of : ℕ → Change) (s : State) (g : Graph) → AreRows of
        → IsAttached file g of s → (ps : List State) → AllZip (IsPictureOf (Held file)) (head_rows of g) ps
        → length (carried [] ps empty).nodes ≤ length s.nodes }
{}

/// The names that a cell touched reach as many nodes afterwards, and the cell takes as many steps, on states
/// that are the same; so in a session that is attached to a good store, by the head's table, as on the
/// replay of the head. Where the cell is committed its state is the live one.
pub fn touched_names_reach_alike()
    ensures same { OnSame (λ s t. (text : List ℕ) (gs : List Group)
        → reached_by gs s text ≡ reached_by gs t text) }
    ensures reached { OnAttached (λ of s g. (text : List ℕ)
        → reached_by (groups_in (head_rows of g)) s text
        ≡ reached_by (groups_of (head_of g)) (head_of g) text) }
    ensures charge { OnAttached (λ of s g. (text : List ℕ)
        → (run newest_profile text s).charge ≡ (run newest_profile text (head_of g)).charge) }
    ensures left { OnAttached (λ of s g. (text : List ℕ) → newest g < newest (after g (cell text))
        → state_on of s g (cell text) ≡ (run newest_profile text s).state) }
{}

/// Of the groups that a cell touched, as the state has them before it and after it, those that pass a test by
/// the bytes of their pictures then and now take as many bytes on states that are the same; so in a session
/// that is attached to a good store, by the head's table, as on the replay of the head.
pub fn pictures_are_asked_alike()
    ensures same { OnSame (λ s t. (test : Test) (text : List ℕ) (gs : List Group)
        → bytes_by test gs s text ≡ bytes_by test gs t text) }
    ensures asked { OnAttached (λ of s g. (test : Test) (text : List ℕ)
        → bytes_by test (groups_in (head_rows of g)) s text
        ≡ bytes_by test (groups_of (head_of g)) (head_of g) text) }
{}

/// Whatever the state is, and whatever the records change: a request makes one commit, of the cells that are
/// run on that state, or none; the state that it leaves is a state; and where it makes none, the state stays.
pub fn requests_commit_what_ran()
    ensures commit { (of : ℕ → Change) (s : State) (g : Graph) (q : Request)
        → newest g < newest (after_on of s g q)
        → after_on of s g q ≡ with_commit newest_profile (ran_by (head_rows of g) q s) g }
    ensures none { (of : ℕ → Change) (s : State) (g : Graph) (q : Request)
        → newest (after_on of s g q) ≤ newest g → (after_on of s g q).commits ≡ g.commits }
    ensures left { (of : ℕ → Change) (s : State) (g : Graph) (q : Request)
        → newest g < newest (after_on of s g q) → state_on of s g q ≡ left_of (head_rows of g) q s }
    ensures stays { (of : ℕ → Change) (s : State) (g : Graph) (q : Request)
        → newest (after_on of s g q) ≤ newest g → state_on of s g q ≡ s }
    ensures head { (of : ℕ → Change) (s : State) (g : Graph) (q : Request) → IsNoCheckout q
        → newest (after_on of s g q) ≤ newest g → (after_on of s g q).head ≡ g.head }
    ensures sound { (of : ℕ → Change) (s : State) (g : Graph) (q : Request)
        → IsSoundState s → IsSoundState (state_on of s g q) }
{}

/// The graph alone decides each refusal but that for a state's size, by its branches, its head, and how many
/// commits and records it has; what is refused changes nothing; and a state is refused for its size only
/// where the request's cells left so much, told by the head's table.
pub fn refusals_change_nothing()
    ensures alike { (g : Graph) (of other : ℕ → Change) (s t : State) (q : Request)
        → refusal_in (answer_on of s g q) ≡ refusal_in (answer_on other t g q) }
    ensures step { (g : Graph) (of : ℕ → Change) (s : State) (q : Request)
        → refusal_in (answer_on of s g q) ≡ refusal_in (step g q).answer }
    ensures graphs { (g h : Graph) → g.branches ≡ h.branches → g.head ≡ h.head → newest g ≡ newest h
        → g.records ≡ h.records → (q : Request)
        → refusal_in (step g q).answer ≡ refusal_in (step h q).answer }
    ensures stays { (g : Graph) (of : ℕ → Change) (s : State) (q : Request) (r : Refusal)
        → answer_on of s g q ≡ refused r → after_on of s g q ≡ g }
    ensures unchanged { (g : Graph) (of : ℕ → Change) (s : State) (q : Request) (r : Refusal)
        → refusal_in (answer_on of s g q) ≡ Some r → after_on of s g q ≡ g }
    ensures large { (g : Graph) (of : ℕ → Change) (s : State) (q : Request) (bytes : ℕ)
        → answer_on of s g q ≡ refused (state_too_large bytes) → LeavesTooLarge (head_rows of g) s q bytes }
{}

/// Where cells are committed no more than may be kept is told after one of them; so where a session is
/// attached no state after one of them is too large, nor is the replay. A graph none of whose replays is too
/// large stays one.
pub fn commits_stay_small()
    ensures live { (of : ℕ → Change) (s : State) (g : Graph) (q : Request)
        → newest g < newest (after_on of s g q) → StayTold (head_rows of g) (ran_by (head_rows of g) q s) s }
    ensures attached { OnAttached (λ of s g. (q : Request)
        → newest g < newest (after g q) → StaySmall newest_profile (ran_by (head_rows of g) q s) s) }
    ensures replay { OnAttached (λ of s g. (q : Request)
        → newest g < newest (after g q)
        → StaySmall newest_profile (ran_by (head_rows of g) q s) (head_of g)) }
    ensures all { (g : Graph) (q : Request)
        → ((c : ℕ) → c ≤ newest g → AllStaySmall (path_in g.commits c) empty)
        → (c : ℕ) → AllStaySmall (path_in (after g q).commits c) empty }
{}

/// Cells can't tell states apart that are the same: as many of them are run, they show the same and take as
/// many steps.
pub fn cells_run_alike()
    ensures ran { (profile : Profile) (texts : List (List ℕ))
        → OnSame (λ s t. cells_run profile texts s ≡ cells_run profile texts t) }
    ensures shown { (count : ℕ) (profile : Profile) (texts : List (List ℕ))
        → OnSame (λ s t. results_from count profile texts s ≡ results_from count profile texts t) }
    ensures charge { (profile : Profile) (texts : List (List ℕ))
        → OnSame (λ s t. charge_in profile texts s ≡ charge_in profile texts t) }
    ensures left { (profile : Profile) (texts : List (List ℕ)) → OnSame (λ s t.
        Same (after_cells profile (cells_run profile texts s) s)
        (after_cells profile (cells_run profile texts t) t)) }
{}

/// A request can't tell states apart that are the same, whatever the records change: as many of its cells are
/// run, they leave states that are the same, of which as much is told by a table; and its answer, the graph
/// after it and the steps of its cells are those on the other.
pub fn requests_run_alike()
    ensures ran { OnSame (λ s t. (rows : Table) (q : Request) → ran_by rows q s ≡ ran_by rows q t) }
    ensures size { OnSame (λ s t. (rows : Table) (texts : List (List ℕ))
        → left_size rows texts s ≡ left_size rows texts t) }
    ensures answer { (of : ℕ → Change) → OnSame (λ s t. (g : Graph) (q : Request)
        → answer_on of s g q ≡ answer_on of t g q) }
    ensures after { (of : ℕ → Change) → OnSame (λ s t. (g : Graph) (q : Request)
        → after_on of s g q ≡ after_on of t g q) }
    ensures charge { (of : ℕ → Change) → OnSame (λ s t. (g : Graph) (q : Request)
        → charge_on of s g q ≡ charge_on of t g q) }
    ensures left { (of : ℕ → Change) → OnSame (λ s t. (g : Graph) (q : Request)
        → Same (state_on of s g q) (state_on of t g q)) }
{}

/// States that are the same are told alike: their names, what is bound in them, and whether they are too
/// large.
pub fn same_states_are_told_alike()
    ensures large { OnSame (λ s t. is_too_large s ≡ is_too_large t) }
    ensures refusal { OnSame (λ s t. (if is_too_large s then Some (too_large s) else None)
        ≡ (if is_too_large t then Some (too_large t) else None)) }
    ensures told { OnSame (λ s t. (commit : ℕ) → told_at commit (whole s) ≡ told_at commit (whole t)) }
    ensures names { OnSame (λ s t. names_in s ≡ names_in t) }
{}

/// Of a file that holds a graph the functions of each replay, and of its pictures, are of the profile that
/// there is; and on a good store the picture of each row of a commit's table is a state that may
/// be loaded for it.
pub fn stored_pictures_can_be_loaded()
    ensures known { (file : List ℕ) (g : Graph) → Holds file g → (c : ℕ) → AreKnown (replay g c).nodes }
    ensures pictures { (file : List ℕ) (g : Graph) → Holds file g
        → (c : ℕ) (names : List (List ℕ)) → AreKnown (picture (replay g c) names).nodes }
    ensures loads { (file : List ℕ) (g : Graph) (of : ℕ → Change) → AreRows of
        → IsGoodStore file g.commits of → Holds file g → (c : ℕ) → c ≤ newest g
        → (r : Row) → In r (table_at g of c)
        → IsStoredPicture (Held file) r (picture (replay g c) r.group)
        × AreKnown (picture (replay g c) r.group).nodes }
{}
