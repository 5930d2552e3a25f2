// Which bytes are pictures, and where those that aren't have their first fault.

ghost use Rattle.std.specs.Prelude.{◌≡◌, ◌↔◌, ◌≤◌, ℕ, List, length, IsOk, Ok, Err};
ghost use Rattle.kishu_meaning.specs.values.Values.{State};
ghost use Rattle.kishu_objects.specs.Bytes.{picture_bytes, state_bytes};
ghost use Rattle.kishu_objects.specs.Lists.{Rise};
ghost use Rattle.kishu_objects.specs.Picture.{listed, picture};
ghost use Rattle.kishu_objects.specs.Reading.{IsInOrder};
ghost use Rattle.kishu_objects.specs.Sound.{IsSound};
ghost use Rattle.kishu_reading.specs.FromBytes.{Front, read_picture, whole_picture};
ghost use Rattle.kishu_reading.specs.Pictured.{AreBytes, AreKnown, IsInPicture, IsPicture, IsPictureOf};

/// Of bytes a state is read exactly where they are the picture of this state, and so of some state exactly
/// where they are a picture.
pub fn pictures_are_read()
    ensures told { (bs : List ℕ) (p : State) → AreBytes bs → ((read_picture bs ≡ Ok p) ↔ IsPictureOf bs p) }
    ensures found { (bs : List ℕ) → AreBytes bs → (IsOk (read_picture bs) ↔ IsPicture bs) }
{}

/// What is written of a state that is its own picture is read as that state.
pub fn read_is_written_back()
    ensures { (p : State) → IsInPicture p → read_picture (state_bytes p) ≡ Ok p }
{}

/// Names that stand in order have a picture that stands in order, with profiles that are known where those of
/// the state are; and each picture is that of all names of its state.
pub fn pictures_are_of_names()
    ensures order { (s : State) (xs : List (List ℕ)) → IsSound s → Rise xs → IsInOrder (picture s xs) }
    ensures known { (s : State) (xs : List (List ℕ)) → AreKnown s.nodes → AreKnown (picture s xs).nodes }
    ensures names { (bs : List ℕ) (p : State) → IsPictureOf bs p → bs ≡ picture_bytes p (listed p) }
{}

/// A fault begins in the bytes or at their end: no more of them are left there than there were.
pub fn faults_lie_inside()
    ensures place { (bs : List ℕ) (place : ℕ) → read_picture bs ≡ Err place → place ≤ length bs }
    ensures left { (s : Front) (left : ℕ) → whole_picture s ≡ Err left → left ≤ length s.rest }
{}
