// The names and the record after some calls.
ghost use Rattle.std.specs.Prelude.{IsTrue};
ghost use Rattle.kishu_language.specs.tokens.Names.{is_name};

use crate::{Names, is_name};
use kishu_meaning::Value;
use std::alloc::{AllocError, Global};
use std::rc::RcStr;
use std::test::Fail;

fn joined(alloc: Global, texts: &[RcStr]) -> Result<String, AllocError> {
    let mut all = String::new(alloc);
    for text in texts {
        all.push_str(text.as_str())?;
        all.push_str(" ")?;
    }
    Ok(all)
}

// The names that are bound, and those that were accessed.
fn told(alloc: Global, names: &Names) -> Result<String, AllocError> {
    let mut all = joined(alloc, names.names()?.as_slice())?;
    all.push_str("| ")?;
    all.push_str(joined(alloc, names.accessed())?.as_str())?;
    Ok(all)
}

fn number(value: Option<&Value>) -> i128 {
    match value {
        Some(Value::Int(number)) => *number,
        _ => -1,
    }
}

fn bind(names: &mut Names, name: &str, number: i128) -> Result<(), AllocError>
    requires { IsTrue (is_name name.now) }
{
    names.bind(name, Value::Int(number))
}

#[test]
#[tactic(auto, unfolding(kishu_language::specs::tokens::Names::reserved_words))]
fn accesses(rt: HostRuntime) -> Result<(), Fail> {
    let alloc = rt.alloc();
    let mut names = Names::new(alloc);
    bind(&mut names, "b", 1)?;
    bind(&mut names, "a", 2)?;
    bind(&mut names, "b", 3)?;
    assert_eq!(rt; told(alloc, &names)?.as_str(), "a b | a b ");
    names.clear_record();
    assert_eq!(rt; number(names.get("b")?.as_ref()), 3);
    assert_eq!(rt; number(names.get("missing")?.as_ref()), -1);
    names.restore("c", Value::Int(4))?;
    assert_eq!(rt; number(names.peek("c")), 4);
    assert_eq!(rt; told(alloc, &names)?.as_str(), "a b c | b missing ");
    assert_eq!(rt; number(names.unbind("a")?.as_ref()), 2);
    assert_eq!(rt; number(names.unbind("a")?.as_ref()), -1);
    assert_eq!(rt; told(alloc, &names)?.as_str(), "b c | a b missing ");
    Ok(())
}

#[test]
fn names_are_told(rt: HostRuntime) -> Result<(), Fail> {
    let rows: [(&str, bool); 8] = [
        ("_", true),
        ("a_1", true),
        ("print", true),
        ("", false),
        ("1a", false),
        ("if", false),
        ("a-b", false),
        ("\u{e9}", false),
    ];
    for (text, want) in rows {
        assert_eq!(rt; is_name(text), want, "{text}");
    }
    Ok(())
}
