// What a run leaves is sound.

ghost use Rattle.kishu_language.specs.declared.profile.Profile.{Profile};
ghost use Rattle.kishu_meaning.specs.cells.Meaning.{run};
ghost use Rattle.kishu_meaning.specs.values.Values.{State};
ghost use Rattle.kishu_soundness_laws.specs.Below.{StateBelow};
ghost use Rattle.std.specs.Prelude.{List, ℕ};

/// After a run each node number is that of a node, where this was so before.
pub fn runs_keep_numbers()
    ensures { (profile : Profile) (source : List ℕ) (s : State) → StateBelow s → StateBelow (run profile source s).state }
{}
