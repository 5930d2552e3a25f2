// What pictures tell of states, as laws. A state of these has its names in byte order, each once, and
// its node numbers are those of nodes (`IsSoundState`), or it is one that cells lead from and to, of
// which each value is one that the language has (`IsState`).
ghost use Rattle.std.specs.Prelude.{◌≡◌, ◌↔◌, ◌<◌, ◌+◌, ℕ, List, length, Contains};
ghost use Rattle.kishu_meaning.specs.values.Values.{State, find};
ghost use Rattle.kishu_objects.specs.Bytes.{picture_bytes};
ghost use Rattle.kishu_objects.specs.Lists.{Rise};
ghost use Rattle.kishu_objects.specs.Loading.{with_picture};
ghost use Rattle.kishu_objects.specs.Picture.{listed, picture, whole};
ghost use Rattle.kishu_objects.specs.Same.{Same, SameOn};
ghost use Rattle.kishu_objects.specs.Shape.{node_at};
ghost use Rattle.kishu_objects.specs.State.{IsState};
ghost use Rattle.kishu_objects.specs.States.{IsSoundState};
ghost use Rattle.kishu_picture.specs.Held.{AreBound};
ghost use Rattle.kishu_reading.specs.Pictured.{IsPictureOf};
ghost use Rattle.kishu_iso.specs.Parts.{IsCutBy, HaveEqualPictures, IsShort, HaveEqualBytes};
ghost use Rattle.kishu_iso.specs.Wholes.{HasShortPicture, whole_bytes};

/// Two states have equal pictures of all their names exactly where they are the same, and equal
/// pictures of the names of a list exactly where they are the same on these.
pub fn equal_pictures_tell_same_states()
    ensures whole { (s t : State) → IsSoundState s → IsSoundState t → (Same s t ↔ (whole s ≡ whole t)) }
    ensures names { (s t : State) (names : List (List ℕ)) → IsSoundState s → IsSoundState t
        → (SameOn s t names ↔ (picture s names ≡ picture t names)) }
{}

/// The same of the bytes of the pictures, where these are fewer than 2^32.
pub fn equal_bytes_tell_same_states()
    ensures whole { (s t : State) → IsState s → IsState t → HasShortPicture s → HasShortPicture t
        → (Same s t ↔ (whole_bytes s ≡ whole_bytes t)) }
    ensures names { (s t : State) (names : List (List ℕ)) → IsState s → IsState t → Rise names
        → IsShort s names → IsShort t names
        → (SameOn s t names ↔ (picture_bytes s names ≡ picture_bytes t names)) }
{}

/// Each state is the same as itself; where it is the same as another, that is the same as it; and what
/// is the same as the other is the same as it. So it is on the names of a list, on which states are the
/// same that are the same on all names.
pub fn sameness_goes_on()
    ensures itself { (s : State) → Same s s }
    ensures back { (s t : State) → Same s t → Same t s }
    ensures on { (s t u : State) → Same s t → Same t u → Same s u }
    ensures names_itself { (s : State) (names : List (List ℕ)) → SameOn s s names }
    ensures names_back { (s t : State) (names : List (List ℕ)) → SameOn s t names → SameOn t s names }
    ensures names_on { (s t u : State) (names : List (List ℕ)) → SameOn s t names → SameOn t u names
        → SameOn s u names }
    ensures fewer { (s t : State) (names : List (List ℕ)) → Same s t → SameOn s t names }
{}

/// Two states are the same where one list of groups cuts the names of both, no two of the groups share a
/// node in either, and each group has equal pictures in both, or pictures of equal bytes.
pub fn parts_make_the_whole_same()
    ensures pictures { (s t : State) (groups : List (List (List ℕ))) → IsSoundState s → IsSoundState t
        → IsCutBy s groups → IsCutBy t groups → HaveEqualPictures s t groups → Same s t }
    ensures bytes { (s t : State) (groups : List (List (List ℕ))) → IsState s → IsState t
        → IsCutBy s groups → IsCutBy t groups → HaveEqualBytes s t groups → Same s t }
{}

/// What the load of a picture into a state leaves is the same as the pictured state on the picture's
/// names, whether the picture is known as such or by its bytes. The other names keep their values, the
/// old nodes stay, and there are just the picture's nodes besides.
pub fn loads_bring_the_same_back()
    ensures same { (s t : State) (names : List (List ℕ)) → IsSoundState t → Rise names
        → AreBound t.names names → SameOn t (with_picture s (picture t names)) names }
    ensures bytes { (s t p : State) (names : List (List ℕ)) → IsState t → Rise names
        → AreBound t.names names → IsShort t names → IsPictureOf (picture_bytes t names) p
        → SameOn t (with_picture s p) names }
    ensures others { (s p : State) → IsSoundState p → (x : List ℕ) → (Contains (listed p) x → ⊥)
        → find x (with_picture s p).names ≡ find x s.names }
    ensures nodes { (s p : State) (i : ℕ) → i < length s.nodes
        → node_at (with_picture s p).nodes i ≡ node_at s.nodes i }
    ensures more { (s p : State) → length (with_picture s p).nodes ≡ length s.nodes + length p.nodes }
{}
