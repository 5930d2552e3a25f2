// What holds of pictures, groups and sameness.

ghost use Rattle.std.specs.Prelude.{◌≡◌, ◌↔◌, ◌<◌, ℕ, Bool, true, false, filter, Some, List, Contains, All, length, ◌∷◌, IsTrue, ◌+◌, []};
ghost use Rattle.kishu_meaning.specs.values.Sound.{is_sound_heap, are_sound_names};
ghost use Rattle.kishu_meaning.specs.values.Values.{Value, node, Node, State, find};
ghost use Rattle.kishu_objects.specs.Lists.{Rise, AllDiffer};
ghost use Rattle.kishu_objects.specs.Shape.{node_at};
ghost use Rattle.kishu_objects.specs.Same.{Same, SameOn};
ghost use Rattle.kishu_objects.specs.Picture.{listed, picture, whole, order, met, roots};
ghost use Rattle.kishu_objects.specs.Sound.{IsSound};
ghost use Rattle.kishu_objects.specs.Reading.{IsInOrder};
ghost use Rattle.kishu_objects.specs.Loading.{with_picture};
ghost use Rattle.kishu_objects.specs.Groups.{AreApart, Cuts, Linked, Reaches, Touch, groups, groups_of};
ghost use Rattle.kishu_objects.specs.Components.{Joined};
ghost use Rattle.kishu_objects.specs.Bytes.{state_bytes, picture_bytes};
ghost use Rattle.kishu_objects.specs.Fits.{StateFits};

/// Where the tests of a sound heap and of sound names hold, each node number of the state is that of a node.
pub fn soundness_is_tested()
    ensures { (s : State) → IsTrue (is_sound_heap s.nodes) → IsTrue (are_sound_names (length s.nodes) s.names) → IsSound s }
{}

/// The order of names has just the nodes that they reach, each once, and what is met from the names and then from its nodes is the order itself.
pub fn orders_list_what_is_reached()
    ensures reached { (s : State) (names : List (List ℕ)) → IsSound s → (i : ℕ) → (Contains (order s names) i ↔ ((x : List ℕ) × Contains names x × Reaches s x i)) }
    ensures once { (s : State) (names : List (List ℕ)) → AllDiffer (order s names) }
    ensures met { (s : State) (names : List (List ℕ)) → IsSound s → met s.nodes (roots s names) (order s names) ≡ order s names }
{}

/// Sameness on names goes from a state to itself, back, and on.
pub fn same_goes_on()
    ensures itself { (s : State) (names : List (List ℕ)) → SameOn s s names }
    ensures back { (s t : State) (names : List (List ℕ)) → SameOn s t names → SameOn t s names }
    ensures on { (s t u : State) (names : List (List ℕ)) → SameOn s t names → SameOn t u names → SameOn s u names }
{}

/// Two states have equal pictures of names exactly where they are the same on these names.
pub fn pictures_tell()
    ensures { (s t : State) (names : List (List ℕ)) → IsSound s → IsSound t → (SameOn s t names ↔ (picture s names ≡ picture t names)) }
{}

/// Two states have equal pictures of all their names exactly where they are the same.
pub fn pictures_tell_all()
    ensures { (s t : State) → IsSound s → IsSound t → Rise (listed s) → Rise (listed t) → (Same s t ↔ (whole s ≡ whole t)) }
{}

/// States of which the parts have equal pictures are the same, where no two parts share a node.
pub fn pictures_glue()
    ensures { (s t : State) (gs : List (List (List ℕ))) → IsSound s → IsSound t → Cuts s gs → Cuts t gs → AreApart s gs → AreApart t gs → All (λ g. picture s g ≡ picture t g) gs → Same s t }
{}

/// Names keep their picture where they keep their values and what these reach stays.
pub fn pictures_stay()
    ensures { (s t : State) (names : List (List ℕ)) → IsSound s → IsSound t → ((x : List ℕ) → Contains names x → find x s.names ≡ find x t.names) → ((x : List ℕ) (i : ℕ) → Contains names x → Reaches s x i → node_at s.nodes i ≡ node_at t.nodes i) → picture s names ≡ picture t names }
{}

/// A state is the same as its picture, a picture is its own picture, each node number of it is that of a node, and its names stand in order where those of the list do.
pub fn pictures_are_their_own()
    ensures same { (s : State) (names : List (List ℕ)) → IsSound s → SameOn s (picture s names) names }
    ensures again { (s : State) (names : List (List ℕ)) → IsSound s → picture (picture s names) names ≡ picture s names }
    ensures sound { (s : State) (names : List (List ℕ)) → IsSound s → IsSound (picture s names) }
    ensures rise { (s : State) (names : List (List ℕ)) → Rise names → Rise (listed (picture s names)) }
{}

/// A state reads in order exactly where it is its own picture.
pub fn pictures_read_in_order()
    ensures order { (p : State) → IsSound p → Rise (listed p) → (IsInOrder p ↔ (whole p ≡ p)) }
    ensures picture { (s : State) → IsSound s → whole (whole s) ≡ whole s }
{}

/// A picture that is loaded is the same there on its names, and so is the state of which it is; other names and the nodes stay, and there are just the picture's nodes besides.
pub fn pictures_load()
    ensures same { (s p : State) → IsSound p → Rise (listed p) → SameOn p (with_picture s p) (listed p) }
    ensures pictured { (s t : State) (names : List (List ℕ)) → IsSound t → Rise names → ((x : List ℕ) → Contains names x → (v : Value) × (find x t.names ≡ Some v)) → SameOn t (with_picture s (picture t names)) names }
    ensures others { (s p : State) → IsSound p → Rise (listed p) → (x : List ℕ) → (Contains (listed p) x → ⊥) → find x (with_picture s p).names ≡ find x s.names }
    ensures nodes { (s p : State) (i : ℕ) → i < length s.nodes → node_at (with_picture s p).nodes i ≡ node_at s.nodes i }
    ensures more { (s p : State) → length (with_picture s p).nodes ≡ length s.nodes + length p.nodes }
{}

/// The bytes of a picture determine it, so two pictures have equal bytes exactly where the states are the same on the names; and two states are the same exactly where the pictures of all their own names have equal bytes.
pub fn bytes_tell()
    ensures pictures { (s t : State) → StateFits s → StateFits t → state_bytes s ≡ state_bytes t → s ≡ t }
    ensures states { (s t : State) (names : List (List ℕ)) → IsSound s → IsSound t → StateFits (picture s names) → StateFits (picture t names) → (SameOn s t names ↔ (picture_bytes s names ≡ picture_bytes t names)) }
    ensures whole { (s t : State) → IsSound s → IsSound t → Rise (listed s) → Rise (listed t) → StateFits (whole s) → StateFits (whole t) → (Same s t ↔ (state_bytes (whole s) ≡ state_bytes (whole t))) }
{}

/// Each name is in one group, groups have names of the list alone, two names are in one group exactly where they are linked, and the groups of all names cut the state.
pub fn groups_cut()
    ensures each { (s : State) (of : List (List ℕ)) → IsSound s → (x : List ℕ) → Contains of x → (g : List (List ℕ)) × Contains (groups s of) g × Contains g x }
    ensures once { (s : State) (of : List (List ℕ)) → IsSound s → (g h : List (List ℕ)) (x : List ℕ) → Contains (groups s of) g → Contains (groups s of) h → Contains g x → Contains h x → g ≡ h }
    ensures names { (s : State) (of : List (List ℕ)) → IsSound s → (g : List (List ℕ)) (x : List ℕ) → Contains (groups s of) g → Contains g x → Contains of x }
    ensures linked { (s : State) (of : List (List ℕ)) → IsSound s → (g : List (List ℕ)) (x y : List ℕ) → Contains (groups s of) g → Contains g x → (Contains g y ↔ Linked s of x y) }
    ensures all { (s : State) → IsSound s → Cuts s (groups_of s) }
{}

/// A name with a plain value, or with none, is a group by itself.
pub fn plain_names_are_alone()
    ensures { (s : State) (of : List (List ℕ)) → IsSound s → AllDiffer of → (x : List ℕ) → Contains of x → ((i : ℕ) → find x s.names ≡ Some (node i) → ⊥) → Contains (groups s of) (x ∷ []) }
{}

/// No two groups share a node.
pub fn groups_are_apart()
    ensures all { (s : State) → IsSound s → Rise (listed s) → AreApart s (groups_of s) }
    ensures some { (s : State) (of : List (List ℕ)) → IsSound s → AllDiffer of → AreApart s (groups s of) }
{}

/// States that are the same on names have the same groups of them.
pub fn groups_of_the_same()
    ensures { (s t : State) (of : List (List ℕ)) → IsSound s → IsSound t → SameOn s t of → groups s of ≡ groups t of }
{}

/// Names that no other name touches have the groups that they have among all names.
pub fn groups_of_a_part()
    ensures { (s : State) (of : List (List ℕ)) (test : List ℕ → Bool) → IsSound s → ((x y : List ℕ) → Contains of x → Contains of y → test x ≡ true → test y ≡ false → Touch s x y → ⊥) → (g : List (List ℕ)) (x : List ℕ) → Contains g x → Contains (filter test of) x → (Contains (groups s (filter test of)) g ↔ Contains (groups s of) g) }
{}

/// Names with nodes are linked exactly where edges between reached nodes, taken either way, lead from one's node to the other's.
pub fn groups_are_components()
    ensures { (s : State) (of : List (List ℕ)) → IsSound s → (x y : List ℕ) (i j : ℕ) → Contains of x → Contains of y → find x s.names ≡ Some (node i) → find y s.names ≡ Some (node j) → (Linked s of x y ↔ Joined s of i j) }
{}
