//! A picture read from bytes: `specs/FromBytes` says field by field which bytes are a picture, of which
//! state, and where the first field begins that is at fault. `specs/Pictured`
//! says it of a whole picture at once. Rows that were worked by hand are computed in `proofs/Examples`.
#![tactic(auto)]
