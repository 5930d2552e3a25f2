// What holds of cells one after another.

ghost use Rattle.kishu_language.specs.declared.profile.Profile.{Profile};
ghost use Rattle.kishu_meaning.specs.values.Values.{State};
ghost use Rattle.kishu_replay.specs.Replay.{after_cells};
ghost use Rattle.kishu_objects.specs.Same.{Same};
ghost use Rattle.kishu_objects.specs.States.{IsSoundState};
ghost use Rattle.std.specs.Prelude.{List, ℕ};

/// Cells one after another can't tell states apart that are the same.
pub fn cells_cannot_tell()
    ensures { (profile : Profile) (cells : List (List ℕ)) (s t : State) → IsSoundState s → IsSoundState t → Same s t → Same (after_cells profile cells s) (after_cells profile cells t) }
{}

/// Cells one after another lead from a sound state whose names are in order to another.
pub fn cells_are_sound()
    ensures { (profile : Profile) (cells : List (List ℕ)) (s : State) → IsSoundState s → IsSoundState (after_cells profile cells s) }
{}
