//! What is proved of JSON (RFC 8259) as serde_json reads it: a value is no larger than its text. It has
//! laws alone, in `specs/`, which the check proves and nobody has to believe. There is nothing else here.
#![tactic(auto)]
