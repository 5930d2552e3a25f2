// What each request leads to.

pub(crate) mod branch;
pub(crate) mod cell;
pub(crate) mod cells;
pub(crate) mod checkout;
pub(crate) mod inspect;
pub(crate) mod log;
pub(crate) mod plan;
pub(crate) mod status;
pub(crate) mod stored;
