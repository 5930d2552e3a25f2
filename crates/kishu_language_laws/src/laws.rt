// What holds of readings and trees.

ghost use Rattle.std.specs.Prelude.{◌≡◌, ◌↔◌, ◌≤◌, ℕ, List, ◌∷◌, length};
ghost use Rattle.kishu_language.specs.declared.profile.Profile.{Profile};
ghost use Rattle.kishu_language.specs.tokens.Layout.{Token};
ghost use Rattle.kishu_language.specs.trees.Tree.{Definition, Statement, Text, statements};
ghost use Rattle.kishu_language.specs.grammar.Parse.{Parse, ParseDef};
ghost use Rattle.kishu_language.specs.grammar.Pieces.{FirstBad};
ghost use Rattle.kishu_language.specs.reading.ReadText.{ReadsDef, pieces};
ghost use Rattle.kishu_language_laws.specs.reading.Reads.{Reads, ReadsFault, Refuses};
ghost use Rattle.kishu_language_laws.specs.trees.Placed.{StatementsPlaced};

/// The reading by which a cell's run gets its tree is the grammar: it gives a tree exactly where the
/// grammar relates the text to this tree, and a fault on a line exactly where the grammar relates the
/// text to no tree and the text's fault is on this line. It reads a code as a function exactly where
/// the grammar does.
pub fn reading_is_the_grammar()
    ensures tree { (profile : Profile) (text : Text) (tree : List Statement) → (Reads profile text tree ↔ Parse profile text tree) }
    ensures line { (profile : Profile) (text : Text) (line : ℕ) → (ReadsFault profile text line ↔ Refuses profile text line) }
    ensures function { (profile : Profile) (code : Text) (d : Definition) → (ReadsDef profile code d ↔ ParseDef profile code d) }
{}

/// No default of the reading is met. As many turns as there are tokens are enough, so that more give
/// the same; and the first piece that is no chunk has a token, on whose line the fault is told.
pub fn reading_meets_no_default()
    ensures turns { (source : Text) (n : ℕ) (found : List Statement) (ts : List Token) → length ts ≤ n → pieces source n found ts ≡ pieces source (length ts) found ts }
    ensures fault { (source : Text) (ts at : List Token) → FirstBad source ts at → (t : Token) × (rest : List Token) × (at ≡ t ∷ rest) }
{}

/// In the tree of a text what is deleted, or updated by an operator, is a place, and what is assigned
/// to, or takes the items of a walk, is a target.
pub fn trees_have_places()
    ensures { (profile : Profile) (text : Text) (tree : List Statement) → Reads profile text tree → StatementsPlaced (statements tree) }
{}
