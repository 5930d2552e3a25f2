// Why a graph isn't changed, as a refusal.
ghost use Rattle.std.specs.Prelude.{◌≡◌, IfOk, Some};
ghost use Rattle.kishu_model.specs.Values.{refusal_of};
ghost use Rattle.kishu_session.specs.Refusing.{refusal_by};

use kishu_graph::GraphFault;
use kishu_model::Refusal;
use std::alloc::AllocError;

/// The refusal of a request that a graph doesn't take. Want of memory is none.
pub(crate) fn refusal(fault: GraphFault) -> Result<Refusal, AllocError>
    ensures { IfOk result (λ r. refusal_by fault ≡ Some (refusal_of r)) }
{
    match fault {
        GraphFault::NoSuchRef => Ok(Refusal::NoSuchRef),
        GraphFault::BadName => Ok(Refusal::BadName),
        GraphFault::NameTaken => Ok(Refusal::NameTaken),
        GraphFault::StoreFull => Ok(Refusal::StoreFull),
        GraphFault::NoMemory => Err(AllocError),
    }
}
