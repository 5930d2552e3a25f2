// What a run can't tell apart, what it leaves alone, and what it leads to.

ghost use Rattle.kishu_language.specs.declared.profile.Profile.{Profile};
ghost use Rattle.kishu_meaning.specs.cells.Meaning.{run};
ghost use Rattle.kishu_meaning.specs.values.Values.{State};
ghost use Rattle.kishu_objects.specs.Same.{Same, SameOn};
ghost use Rattle.kishu_objects.specs.Locality.{Leaves, LeavesAlone};
ghost use Rattle.kishu_objects.specs.AlikeRuns.{ArePaired, IsPairing, RunAlike, RunsSame};
ghost use Rattle.kishu_objects.specs.States.{IsSoundState};
ghost use Rattle.std.specs.Prelude.{Contains, List, ℕ, ⊤};

/// Runs from two states that a closed pairing relates go alike, where the names that correspond hold all that are accessed.
pub fn runs_go_alike()
    ensures { (pairs : List (ℕ × ℕ)) (names : List (List ℕ)) (s t : State) (profile : Profile) (source : List ℕ) → IsPairing (ArePaired pairs) (λ x. Contains names x) s t → ((x : List ℕ) → Contains (run profile source s).accessed x → Contains names x) → RunAlike (ArePaired pairs) (λ x. Contains names x) s t (run profile source s) (run profile source t) }
{}

/// A run can't tell states apart that are the same.
pub fn run_cannot_tell()
    ensures { (profile : Profile) (source : List ℕ) (s t : State) → IsSoundState s → IsSoundState t → Same s t → RunsSame (λ x. ⊤) s t (run profile source s) (run profile source t) }
{}

/// A run goes alike from states that are the same on names that hold all that it accesses.
pub fn run_is_local()
    ensures { (profile : Profile) (source : List ℕ) (s t : State) (names : List (List ℕ)) → IsSoundState s → IsSoundState t → SameOn s t names → ((x : List ℕ) → Contains (run profile source s).accessed x → Contains names x) → RunsSame (λ x. Contains names x) s t (run profile source s) (run profile source t) }
{}

/// What the accessed names reached before, or is new, leads afterwards only to such nodes, and all else stays.
pub fn run_leaves()
    ensures { (profile : Profile) (source : List ℕ) (s : State) → IsSoundState s → Leaves (run profile source s).accessed s (run profile source s).state }
{}

/// What no accessed name reached stays, and no accessed name reaches it afterwards.
pub fn run_leaves_alone()
    ensures runs { (profile : Profile) (source : List ℕ) (s : State) → IsSoundState s → LeavesAlone (run profile source s).accessed s (run profile source s).state }
    ensures follows { (accessed : List (List ℕ)) (s t : State) → Leaves accessed s t → LeavesAlone accessed s t }
{}

/// A run leads from a sound state whose names are in order to another.
pub fn runs_are_sound()
    ensures { (profile : Profile) (source : List ℕ) (s : State) → IsSoundState s → IsSoundState (run profile source s).state }
{}
