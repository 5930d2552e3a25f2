// What requests have come to.
ghost use Rattle.std.specs.Prelude.{◌≡◌, ◌++◌, [], ℕ, List, IfOk};
ghost use Rattle.serde_json.specs.View.{view};
ghost use Rattle.kishu_model.specs.generated.Run.{summary_data, summary_line};
ghost use Rattle.kishu_gen.specs.Summaries.{HasTaken};

use serde_json::{Value, json};
use sha2::{Digest, Sha256};
use std::alloc::{AllocError, Global};

/// The digest of lines that were taken one after another, as they stand behind one another.
#[derive(Drop)]
pub struct Summary {
    hasher: Sha256,
}

impl Summary {
    /// That of no line.
    pub fn new() -> Summary
        ensures { HasTaken result [] }
    {
        Summary {
            hasher: Sha256::new(),
        }
    }

    /// Takes one line more, with its line feed.
    pub fn take(&mut self, line: &[u8])
        ensures { (lines : List ℕ) → HasTaken self.old lines → HasTaken self.new (lines ++ line.now) }
    {
        self.hasher.update(line);
    }

    /// The line that tells how many commits and records a graph has, and the digest of what was taken.
    ///
    /// - `commits`: the root is counted.
    ///
    /// The error is want of memory.
    pub fn line(self, alloc: Global, commits: u32, records: u32) -> Result<Vec<u8>, AllocError>
        ensures { (lines : List ℕ) → HasTaken self lines
            → IfOk result (λ v. v.items ≡ summary_line commits records lines) }
    {
        let digest = hex::encode(alloc, self.hasher.finalize())?;
        let value = summary_json(alloc, commits, records, &digest)?;
        let mut line = value.to_vec(alloc)?;
        line.push(b'\n')?;
        Ok(line)
    }
}

/// The value that sums up, with this text of a digest.
fn summary_json(
    alloc: Global,
    commits: u32,
    records: u32,
    digest: &str,
) -> Result<Value, AllocError>
    ensures { IfOk result (λ v. view v ≡ summary_data commits records digest.now) }
{
    json!(in alloc; {
        "answer": "gen",
        "commits": commits,
        "records": records,
        "sha256": digest
    })
}
