use std::alloc::AllocError;

/// Why a text isn't read: as tokens, as a tree, or as one function's code.
#[derive(Debug, PartialEq, Eq, Drop)]
pub enum SyntaxFault {
    /// It isn't what the call reads. `line`, from 1, is the line of its fault, and each call says
    /// which one that is.
    Syntax { line: u32 },
    /// Memory ran out. Nothing is said of the text.
    NoMemory,
}

impl From<AllocError> for SyntaxFault {
    ghost use Rattle.std.specs.Prelude.{◌≡◌};
    ghost use Rattle.kishu_lexer.specs.declared.fault.SyntaxFault.TheVariants.{NoMemory};

    ghost from_gives = { λ _ fault. fault ≡ NoMemory };

    fn from(_fault: AllocError) -> SyntaxFault {
        SyntaxFault::NoMemory
    }
}
