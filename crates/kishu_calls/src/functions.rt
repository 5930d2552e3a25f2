// Functions: the one that a node is, and what a call binds (Python Language Reference 3, "Function
// definitions" and "Calls").
ghost use Rattle.std.specs.List.{list_all};
ghost use Rattle.std.specs.Prelude.{IfOk, IfSome, IsTrue, MatchOption, OnOk, drop, length, map, not, option_map, slice_get, ◌≡◌, ◌≤◌};
ghost use Rattle.std.specs.Rc.{rc_str_bytes};
ghost use Rattle.kishu_meaning.specs.calls.Functions.{arguments_fit, bound_values, values_for, with_defaults};
ghost use Rattle.kishu_language.specs.tokens.Names.{is_among};
ghost use Rattle.kishu_language.specs.grammar.Refusals.{titles};
ghost use Rattle.kishu_language.specs.trees.Tree.{definition_of, parameter_of, value_of as tree_value};
ghost use Rattle.kishu_meaning.specs.values.Values.{bind, find, value_of};
ghost use Rattle.kishu_calls.specs.Calls.{IsFunction, given_of, named_of};
ghost use Rattle.kishu_calls.specs.Forms.{argument_for, arguments_for, bound_each, default_count, is_function, next_default};
ghost use Rattle.kishu_machine.specs.Frames.{names_of};
ghost use Rattle.kishu_machine.specs.Clauses.{AreSoundIn};
ghost use Rattle.kishu_heap.specs.Costs.{Reads};
ghost use Rattle.kishu_meaning.specs.cells.Meaning as m;

use crate::callees::Given;
use kishu_heap::Node;
use kishu_language::{Def, Expr};
use kishu_machine::{Machine, is_among, is_same_text, node_at};
use kishu_meaning::{NodeId, Steps, Value};
use std::alloc::{AllocError, Global};
use std::collections::BTreeMap;
use std::rc::{Rc, RcStr};
use std::sync::ledger::Ledger;

/// A function that is called: its tree, and the values of its defaults.
#[derive(Drop)]
pub struct Function {
    pub def: Rc<Def>,
    pub defaults: Vec<Value>,
}

/// The function that a node is.
#[inline(never)]
pub fn function_at<L: Ledger>(
    machine: &Machine,
    id: NodeId,
    steps: &mut Steps<L>,
) -> Result<Option<Function>, AllocError>
    ensures found { IfOk result (λ o. MatchOption o (IsTrue (not (is_function (slice_get machine.now.heap id.0)))) (λ f. IsFunction (slice_get machine.now.heap id.0) f)) }
    ensures sound { IfOk result (λ o. IfSome o (λ f. AreSoundIn machine.now.heap f.defaults.items)) }
    ensures reads { Reads 4 steps.old steps.new }
{
    match node_at(&machine.heap, &Value::Node(id), steps) {
        Some(Node::Function(function)) => {
            let def = function.def.clone()?;
            let defaults = function.defaults.as_slice();
            let defaults = kishu_items::copied_all(machine.alloc, defaults)?;
            Ok(Some(Function { def, defaults }))
        }
        _ => Ok(None),
    }
}

// ---- arguments

// The value of the keyword of this name.
fn keyword<'a>(named: &'a [(RcStr, Value)], name: &str) -> Option<&'a Value>
    ensures { option_map (λ v. value_of v.now) result ≡ find name.now (named_of named.now) }
{
    for (other, value) in named {
        if is_same_text(name, other.as_str()) {
            return Some(value);
        }
    }
    None
}

// Whether one of these parameters has this name.
fn is_parameter(name: &str, params: &[(RcStr, Option<Expr>)]) -> bool
    ensures { result ≡ is_among name.now (titles (map parameter_of params.now)) }
{
    for (other, _) in params {
        if is_same_text(name, other.as_str()) {
            return true;
        }
    }
    false
}

// Whether each keyword is one of these parameters.
fn keywords_fit(params: &[(RcStr, Option<Expr>)], named: &[(RcStr, Value)]) -> bool
    ensures { result ≡ list_all (λ k. is_among k.0 (titles (map parameter_of params.now))) (named_of named.now) }
{
    for (name, _) in named {
        if !is_parameter(name.as_str(), params) {
            return false;
        }
    }
    true
}

// There are no more plain arguments than parameters, and each keyword is one of the other
// parameters.
fn arguments_fit(params: &[(RcStr, Option<Expr>)], given: &Given) -> bool
    ensures { result ≡ arguments_fit (titles (map parameter_of params.now)) (given_of given.now) }
{
    let plain = given.plain.len();
    plain <= params.len() && keywords_fit(&params[plain..], given.named.as_slice())
}

// The value of a parameter: a plain argument, one with its keyword, or its default.
fn value_for(
    place: usize,
    name: &str,
    default: Option<&Value>,
    given: &Given,
) -> Result<Option<Value>, AllocError>
    ensures { IfOk result (λ o. option_map value_of o ≡ argument_for place name.now (option_map (λ v. value_of v.now) default.entry) (given_of given.now)) }
{
    if let Some(value) = given.plain.get(place) {
        return Ok(Some(value.copied()?));
    }
    if let Some(value) = keyword(given.named.as_slice(), name) {
        return Ok(Some(value.copied()?));
    }
    match default {
        Some(value) => Ok(Some(value.copied()?)),
        None => Ok(None),
    }
}

// How many values of defaults belong to this parameter.
fn default_count(default: &Option<Expr>) -> usize
    ensures is { result ≡ default_count (tree_value default.now) }
    ensures most { result ≤ 1 }
{
    match default {
        Some(_) => 1,
        None => 0,
    }
}

// The value of this parameter's default, where that of the first default that is left has this place.
fn next_default<'a>(default: &Option<Expr>, defaults: &'a [Value], used: usize) -> Option<&'a Value>
    ensures { option_map (λ v. value_of v.now) result ≡ next_default (tree_value default.now) (drop used (map value_of defaults.now)) }
{
    match default {
        Some(_) => defaults.get(used),
        None => None,
    }
}

// The values of the parameters in order, where each has one.
fn argument_values(
    alloc: Global,
    params: &[(RcStr, Option<Expr>)],
    defaults: &[Value],
    given: &Given,
) -> Result<Option<Vec<Value>>, AllocError>
    ensures gives { IfOk result (λ o. option_map (λ v. map value_of v.items) o ≡ arguments_for (with_defaults (map parameter_of params.now) (map value_of defaults.now)) (map value_of given.now.plain.items) (named_of given.now.named.items)) }
    ensures each { IfOk result (λ o. IfSome o (λ v. length v.items ≡ length params.now)) }
{
    let mut values = Vec::new(alloc);
    let mut used = 0;
    for place in 0..params.len() {
        let (name, default) = &params[place];
        let found = next_default(default, defaults, used);
        used += default_count(default);
        match value_for(place, name.as_str(), found, given)? {
            Some(value) => values.push(value)?,
            None => return Ok(None),
        }
    }
    Ok(Some(values))
}

// With this name bound to this value.
fn bind_one(
    bound: &mut BTreeMap<RcStr, Value>,
    name: &RcStr,
    value: Value,
) -> Result<(), AllocError>
    ensures { OnOk result (names_of bound.new.entries ≡ bind (rc_str_bytes name.now) (value_of value) (names_of bound.old.entries)) }
{
    bound.insert(name.clone()?, value)?;
    Ok(())
}

// Each parameter with its value. They are bound from the last to the first.
fn bound_each(
    alloc: Global,
    params: &[(RcStr, Option<Expr>)],
    mut values: Vec<Value>,
) -> Result<BTreeMap<RcStr, Value>, AllocError>
    requires { length values.items ≤ length params.now }
    ensures { IfOk result (λ m. names_of m.entries ≡ bound_each (titles (map parameter_of params.now)) (map value_of values.items)) }
{
    let mut bound = BTreeMap::new(alloc);
    while let Some(value) = values.pop() {
        let (name, _) = &params[values.len()];
        bind_one(&mut bound, name, value)?;
    }
    Ok(bound)
}

// What the parameters are bound to, where each has a value.
#[tactic(auto, using(crate::proofs::Binding::parameters_bound))]
fn values_for(
    alloc: Global,
    params: &[(RcStr, Option<Expr>)],
    defaults: &[Value],
    given: &Given,
) -> Result<Option<BTreeMap<RcStr, Value>>, AllocError>
    ensures { IfOk result (λ o. option_map (λ m. names_of m.entries) o ≡ values_for (with_defaults (map parameter_of params.now) (map value_of defaults.now)) (map value_of given.now.plain.items) (named_of given.now.named.items)) }
{
    match argument_values(alloc, params, defaults, given)? {
        Some(values) => Ok(Some(bound_each(alloc, params, values)?)),
        None => Ok(None),
    }
}

/// What a call binds; none where an argument is missing, repeated or unknown, or one too many.
#[inline(never)]
#[tactic(auto, using(kishu_language::specs::trees::StatementRows::parameters_at))]
pub fn bound_values(
    alloc: Global,
    def: &Def,
    defaults: &[Value],
    given: &Given,
) -> Result<Option<BTreeMap<RcStr, Value>>, AllocError>
    ensures { IfOk result (λ o. option_map (λ m. names_of m.entries) o ≡ bound_values (definition_of def.now) (map value_of defaults.now) (given_of given.now)) }
{
    if !arguments_fit(def.params.as_slice(), given) {
        return Ok(None);
    }
    values_for(alloc, def.params.as_slice(), defaults, given)
}
