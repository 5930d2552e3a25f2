// Requests, one after another.
ghost use Rattle.std.specs.Prelude.{◌≡◌, ◌≤◌, ◌∷◌, [], suc, None, Ok, IfOk, IfSome, IsErr, MatchOption};
ghost use Rattle.kishu_model.specs.requests.Cells.{HasRoom};
ghost use Rattle.kishu_model.specs.Values.{request_of};
ghost use Rattle.kishu_model.specs.generated.Requests.{generated_requests};

use crate::drawing::{cells_with, next_number};
use crate::wording::request_with;
use kishu_model::Request;
use std::alloc::{AllocError, Global};

/// Makes requests from a number.
#[derive(Drop)]
pub struct Script {
    /// The number by which the last request was drawn, or the start.
    number: u32,
    /// How many requests were made, and how many of them are cells.
    made: u32,
    cells: u32,
    /// How many are made in all.
    many: u32,
    ghost few: { cells ≤ made },
}

impl Script {
    ghost use Rattle.kishu_gen.specs.Scripts.{left, to_come};

    /// The `many` requests that are made from `start`.
    pub fn new(start: u32, many: u32) -> Script
        ensures asks { to_come result ≡ generated_requests start many }
        ensures many { left result ≡ many }
    {
        Script {
            number: start,
            made: 0,
            cells: 0,
            many,
        }
    }

    /// The next request. `None` says that all were made, and comes just then. The error is want of memory;
    /// the request is to come still.
    pub fn next(&mut self, alloc: Global) -> Result<Option<Request>, AllocError>
        ensures next { IfOk result (λ found. IfSome found (λ request.
            to_come self.old ≡ request_of request ∷ to_come self.new)) }
        ensures left { IfOk result (λ found. MatchOption found
            (left self.old ≡ 0) (λ request. left self.old ≡ suc (left self.new))) }
        ensures end { result ≡ Ok None → (to_come self.old ≡ []) × (self.new ≡ self.old) }
        ensures kept { IsErr result → self.new ≡ self.old }
        ensures room { IfOk result (λ found. IfSome found (λ request. HasRoom (request_of request))) }
    {
        if self.made >= self.many {
            return Ok(None);
        }
        let number = next_number(self.number);
        let drawn = number / 65536;
        let request = request_with(alloc, self.made, self.cells, drawn)?;
        *self = Script {
            number,
            made: self.made + 1,
            cells: cells_with(self.made, self.cells, drawn),
            many: self.many,
        };
        Ok(Some(request))
    }
}
