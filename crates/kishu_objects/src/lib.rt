//! States as what their names reach. The definitions stand in `specs/`, one line a rule: `Shape` has paths and what they reach,
//! `Same` when two states can't be told apart, `Picture` what is kept of names, `State` what holds of the states that cells lead
//! from and to, `Sound` and `States` the part of it that most laws need, `Fits` what can be written as bytes, `Reading` when rows
//! stand in order, `Loading` what a picture leaves where it is loaded, `Groups` and `Components` which names belong together,
//! `Bytes` how a picture is written, `Sizes` how many bytes a state takes, `Pairings` when a pairing of nodes relates two
//! states, `AlikeRuns` when two runs go alike, `Locality` what a run leaves alone, and `Lists` what the others need of lists.
//! `kishu_objects_laws`, `kishu_pairing_laws` and `kishu_state_laws` have what is proved of them.
#![tactic(auto)]
