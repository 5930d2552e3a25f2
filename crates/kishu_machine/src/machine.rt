// What a run holds.
ghost use Rattle.std.specs.Prelude.{IsTrue, option_map};
ghost use Rattle.kishu_meaning.specs.values.Values.{value_of};
ghost use Rattle.kishu_machine.specs.Frames.{is_sound_run, locals_of};

use crate::frame::Frame;
use kishu_heap::Heap;
use kishu_language::Profile;
use kishu_meaning::{Budget, Value};
use kishu_names::Names;
use std::alloc::Global;

/// How many steps a cell may take.
pub const MOST_STEPS: u64 = 4_000_000;

/// How deep the points under evaluation may lie.
pub const MOST_DEPTH: u32 = 1_000;

/// A run in progress. It holds the heap and the names, and each value in it leads to nodes that are
/// there.
#[derive(Drop)]
pub struct Machine {
    pub alloc: Global,
    pub profile: Profile,
    pub heap: Heap,
    pub names: Names,
    /// Those of the function in progress.
    pub locals: Option<Frame>,
    /// The exception that the innermost handler in progress caught.
    pub handled: Option<Value>,
    pub budget: Budget,
    pub printed: String,
    ghost sound: { IsTrue (is_sound_run heap names.bound (locals_of locals) (option_map value_of handled)) },
}
