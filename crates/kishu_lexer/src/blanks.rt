use std::alloc::{AllocError, Global};
use std::marker::Model;

/// The spaces and tabs at the start of a line.
#[derive(Drop)]
pub(crate) struct Blanks {
    chars: Vec<char>,
}

impl Model for Blanks {
    ghost use Rattle.std.specs.Prelude.{ℕ, List};

    ghost Value = { List ℕ };

    ghost view = { λ b. b.chars.items };
}

impl Blanks {
    ghost use Rattle.std.specs.Prelude.{◌≡◌, IfOk};

    pub(crate) fn from_slice(alloc: Global, blanks: &[char]) -> Result<Blanks, AllocError>
        ensures { IfOk result (λ b. b ≡ blanks.now) }
    {
        let chars = Vec::from_slice(alloc, blanks)?;
        Ok(Blanks { chars })
    }

    pub(crate) fn as_slice(&self) -> &[char]
        ensures { result.now ≡ self.now }
    {
        self.chars.as_slice()
    }
}
