ghost use Rattle.std.specs.Prelude.{◌≡◌, ℕ, List};
ghost use Rattle.kishu_store.specs.Graph.{Graph};
ghost use Rattle.kishu_store.specs.Holds.{Holds, IsBroken, IsForeign};

/// Of every store file: it holds at most one graph, none where it is foreign or broken, it isn't
/// both, and it is broken at one place only. The call does nothing; what it promises is proved of
/// all files.
pub fn one_graph()
    ensures one_graph { (file : List ℕ) (g h : Graph) → Holds file g → Holds file h → g ≡ h }
    ensures foreign { (file : List ℕ) (g : Graph) → IsForeign file → Holds file g → ⊥ }
    ensures broken { (file : List ℕ) (at : ℕ) (g : Graph) → IsBroken file at → Holds file g → ⊥ }
    ensures not_both { (file : List ℕ) (at : ℕ) → IsForeign file → IsBroken file at → ⊥ }
    ensures one_place { (file : List ℕ) (at there : ℕ) → IsBroken file at → IsBroken file there → at ≡ there }
{}
