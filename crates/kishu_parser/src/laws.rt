ghost use Rattle.std.specs.Prelude.{List};
ghost use Rattle.std.specs.Str.{IsUtf8};
ghost use Rattle.kishu_language.specs.declared.profile.Profile.{Profile};
ghost use Rattle.kishu_language.specs.trees.Tree.{Text, Statement};
ghost use Rattle.kishu_language.specs.grammar.Parse.{Parse};
ghost use Rattle.kishu_language.specs.trees.FunctionCodes.{CodesRead};

/// Of every text in UTF-8 that has a tree: the code of each function in the tree, taken by itself,
/// is that function's code and nothing else, so `parse_def` reads it as that function; and it has
/// at most as many bytes as the text. The call does nothing; what it promises is proved of all
/// texts.
pub fn codes_read()
    ensures { (profile : Profile) (text : Text) → IsUtf8 text → (tree : List Statement) → Parse profile text tree → CodesRead profile text tree }
{}
