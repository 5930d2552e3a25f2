//! Numbers as bytes, as records and pictures have them. The definitions stand in `specs/`.
#![tactic(auto)]
