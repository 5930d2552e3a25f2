//! Tests over the public calls that work on values over a heap: heaps after some calls, comparisons,
//! and tables of numbers, of texts, of methods and of builtin functions, whose expected values come from
//! outside. They stand in a crate of their own, since a crate with tests is proved twice, and beside
//! the other crates of tests, so that all are proved at once. There is nothing else here.
#![tactic(auto)]

#[cfg(test)]
mod builtins;
#[cfg(test)]
mod heap;
#[cfg(test)]
mod methods;
#[cfg(test)]
mod numbers;
#[cfg(test)]
mod show;
#[cfg(test)]
mod texts;
