// That a run meets nothing of what its meaning has for trees that no text has.

ghost use Rattle.std.specs.Prelude.{◌≡◌, ℕ, IsTrue, Some};
ghost use Rattle.std.specs.Str.{chars};
ghost use Rattle.kishu_language.specs.declared.profile.Profile.{Profile};
ghost use Rattle.kishu_language.specs.grammar.Targets.{is_place, is_target};
ghost use Rattle.kishu_language.specs.reading.ReadText.{read_chars};
ghost use Rattle.kishu_language.specs.trees.Tree.{Definition, Expression, Text};
ghost use Rattle.kishu_meaning.specs.calls.Functions.{function_in};
ghost use Rattle.kishu_meaning.specs.cells.Meaning.{Calls, Place, place, store};
ghost use Rattle.kishu_meaning.specs.moments.Moment.{M};
ghost use Rattle.kishu_meaning.specs.values.Values.{Value};
ghost use Rattle.kishu_objects.specs.State.{IsCode};
ghost use Rattle.kishu_state_laws.specs.trees.Places.{place_or, store_or};

/// A place is found and a target stored alike, whatever stood in the rules for what is none; and the
/// code of a function reads as one. In the tree of a text the places are places and the targets
/// targets (`kishu_language_laws::trees_have_places`), so no run meets these rules.
pub fn places_are_found()
    ensures places { (calls : Calls) (other : M Place) (e : Expression) → IsTrue (is_place e) → place_or calls other e ≡ place calls e }
    ensures targets { (calls : Calls) (other : M Place) (nothing : M (Unit {0})) (e : Expression) → IsTrue (is_target e) → (v : Value) → store_or calls other nothing e v ≡ store calls e v }
    ensures codes { (profile : Profile) (code : Text) (n : ℕ) → IsCode profile code n → (d : Definition) × (function_in (read_chars profile (chars code)) ≡ Some d) }
{}
