// The trees of texts.
ghost use Rattle.kishu_language.specs.Limits.{longest_text};
ghost use Rattle.std.specs.Prelude.{◌≡◌, ◌≤◌, List, [], ◌∷◌, length, map, IfOk, IfErr, MatchResult};
ghost use Rattle.kishu_language.specs.trees.Tree.{Statement, Definition, statements, program_of, definition_of};
ghost use Rattle.kishu_language.specs.trees.Height.{of_statement, of_statements};
ghost use Rattle.kishu_language.specs.grammar.Parse.{Parse, Line, ParseDef, LineDef};
ghost use Rattle.kishu_language.specs.trees.FunctionCodes.{CodesRead};
ghost use Rattle.kishu_parser.specs.Statements as lines;
ghost use Rattle.kishu_parser.specs.TopLevel.{Lined, piece_of, HasPieces};
ghost use Rattle.kishu_parser.specs.TopLaws.{statements_of};

use crate::cursor::{Parser, Stop};
use crate::pieces::Piece;
use kishu_language::{Def, Profile, Program, Stmt};
use kishu_lexer::{SyntaxFault, plain_lines, tokens};
use std::alloc::{AllocError, Global};

/// The tree of a text of at most 1,048,576 bytes, under the rules of a profile (Python Language
/// Reference 3, "Full Grammar specification"). Syntax says that it has none, with the line of its
/// fault: the line of the first fault of its tokens, else the line on which the first of its
/// top-level pieces begins that the grammar doesn't read. NoMemory says nothing of the text.
pub fn parse(alloc: Global, profile: Profile, text: &str) -> Result<Program, SyntaxFault>
    requires { length text.now ≤ longest_text }
    ensures found { IfOk result (λ p. Parse profile text.now (program_of p)) }

    // A text that has a tree gets that tree, and no other is its tree.
    ensures only { (tree : List Statement) → Parse profile text.now tree → MatchResult result (λ p. program_of p ≡ tree) (λ e. e ≡ SyntaxFault.NoMemory) }

    // The code of each function in the tree reads as that function, and is no longer than the text.
    ensures codes { IfOk result (λ p. CodesRead profile text.now (program_of p)) }

    // Syntax comes only where there is no tree, with the line of the fault.
    ensures line { IfErr result (lines.FaultOf (Line profile text.now)) }

    // However long the text is, each expression and each statement is one higher than the highest of
    // its parts, and none is higher than 611.
    ensures height { IfOk result (λ p. of_statements (statements (program_of p)) ≤ 611) }
{
    let all = parse_pieces(alloc, profile, text)?;
    let statements = joined(alloc, all)?;
    Ok(Program { statements })
}

/// The top-level pieces of a text of at most 1,048,576 bytes, in order, each with the line on which
/// it begins. Syntax says that it has no tree, with the line of its fault, as `parse` does;
/// NoMemory says nothing of the text.
pub fn parse_pieces(alloc: Global, profile: Profile, text: &str) -> Result<Vec<Piece>, SyntaxFault>
    requires { length text.now ≤ longest_text }
    ensures found { IfOk result (λ v. HasPieces profile text.now (map piece_of v.items)) }

    // A text that has pieces gets those, and no others are its pieces.
    ensures only { (all : List Lined) → HasPieces profile text.now all → MatchResult result (λ v. map piece_of v.items ≡ all) (λ e. e ≡ SyntaxFault.NoMemory) }

    // Syntax comes only where there is no tree, with the line of the fault.
    ensures line { IfErr result (lines.FaultOf (Line profile text.now)) }
{
    let found = tokens(alloc, profile, text)?;
    let source = plain_lines(alloc, text)?;
    let parser = Parser {
        alloc,
        source: source.as_str(),
        tokens: found.as_slice(),
    };
    let all = parser.lined_pieces()?;
    Ok(all)
}

/// The function whose code a text of at most 1,048,576 bytes is (Python Language Reference 3,
/// "Function definitions"). Syntax says that it isn't one function's code and nothing else: with the
/// line of its fault where it has no tree, as `parse` tells it, else with line 1. NoMemory says
/// nothing of the text.
pub fn parse_def(alloc: Global, profile: Profile, text: &str) -> Result<Def, SyntaxFault>
    requires { length text.now ≤ longest_text }
    ensures found { IfOk result (λ d. ParseDef profile text.now (definition_of d)) }

    // A text that is one function's code gets that function, and is no other's.
    ensures only { (d : Definition) → ParseDef profile text.now d → MatchResult result (λ found. definition_of found ≡ d) (λ e. e ≡ SyntaxFault.NoMemory) }

    // Syntax comes only where it is none, with the line of its fault, or line 1 where it has a tree.
    ensures line { IfErr result (lines.FaultOf (LineDef profile text.now)) }

    // The function as a statement is no higher than 611, as in the tree of a text.
    ensures height { IfOk result (λ d. of_statement (lines.defined (definition_of d) text.now) ≤ 611) }
{
    let found = tokens(alloc, profile, text)?;
    let source = plain_lines(alloc, text)?;
    let parser = Parser {
        alloc,
        source: source.as_str(),
        tokens: found.as_slice(),
    };
    match parser.whole_function(text) {
        Ok(definition) => Ok(definition),
        Err(Stop::NoMemory) => Err(SyntaxFault::NoMemory),
        Err(Stop::Refused) => {
            parser.lined_pieces()?;
            Err(SyntaxFault::Syntax { line: 1 })
        }
    }
}

/// The statements of all the pieces, in order.
fn joined(alloc: Global, pieces: Vec<Piece>) -> Result<Vec<Stmt>, AllocError>
    ensures { IfOk result (λ v. lines.statements_in v ≡ statements_of (map piece_of pieces.items)) }
{
    let mut all = Vec::new(alloc);
    for mut piece in pieces {
        all.append(&mut piece.statements)?;
    }
    Ok(all)
}
