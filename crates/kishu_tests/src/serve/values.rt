// Sessions of cells, and cells alone, through the program: what they show.
use super::{host_over, run_cell_of};
use kishu_host::MemHost;
use kishu_serve::Status;
use std::alloc::{AllocError, Global};
use std::process::Abort;
use std::test::Fail;

/// Whether a cell on this store is done, and all that was put out is this then.
fn is_told(
    alloc: Global,
    host: &mut MemHost,
    input: &str,
    told: &[u8],
) -> Result<bool, AllocError> {
    let status = run_cell_of(alloc, host, input.as_bytes())?;
    Ok(status == Status::Done && host.out() == told)
}

/// Runs cells in turn on a store that is empty at first, each with its answer.
fn run_in_turn(rt: &impl Abort, alloc: Global, rows: &[(&str, &str)]) -> Result<(), Fail> {
    let mut host = host_over(alloc, &[], Vec::new(alloc), None)?.ok_or("room")?;
    let mut told = Vec::new(alloc);
    for (input, line) in rows {
        told.extend_from_slice(line.as_bytes())?;
        assert!(rt; is_told(alloc, &mut host, input, &told)?, "{input}");
    }
    Ok(())
}

/// Cells that are run in turn, and their answers.
const IN_TURN: [(&str, &str); 6] = [
    (
        "x = 2\nprint(x * x + 1)",
        "{\"answer\":\"cell\",\"commit\":1,\"count\":1,\"outcome\":\"ok\",\"outputs\":[{\"name\":\"stdout\",\"output_type\":\"stream\",\"text\":\"5\\n\"}]}\n",
    ),
    (
        "y = [x]; y.append(y); y",
        "{\"answer\":\"cell\",\"commit\":2,\"count\":2,\"outcome\":\"ok\",\"outputs\":[{\"data\":{\"text/plain\":\"[2, [...]]\"},\"execution_count\":2,\"metadata\":{},\"output_type\":\"execute_result\"}]}\n",
    ),
    (
        "print(z)",
        "{\"answer\":\"cell\",\"commit\":3,\"count\":3,\"outcome\":\"error\",\"outputs\":[{\"ename\":\"NameError\",\"evalue\":\"name 'z' is not defined\",\"output_type\":\"error\",\"traceback\":[\"NameError: name 'z' is not defined\"]}]}\n",
    ),
    (
        "a = 1\n\nif a:\n    print(len(y), y is y[1])",
        "{\"answer\":\"cell\",\"commit\":4,\"count\":4,\"outcome\":\"ok\",\"outputs\":[{\"name\":\"stdout\",\"output_type\":\"stream\",\"text\":\"2 True\\n\"}]}\n",
    ),
    (
        "a = 1\n\nb = a +",
        "{\"answer\":\"cell\",\"commit\":5,\"count\":5,\"outcome\":\"error\",\"outputs\":[{\"ename\":\"SyntaxError\",\"evalue\":\"invalid syntax, line 3\",\"output_type\":\"error\",\"traceback\":[\"SyntaxError: invalid syntax, line 3\"]}]}\n",
    ),
    (
        "",
        "{\"answer\":\"cell\",\"commit\":6,\"count\":6,\"outcome\":\"ok\",\"outputs\":[]}\n",
    ),
];

#[test]
fn cells_in_turn(rt: HostRuntime) -> Result<(), Fail> {
    run_in_turn(&rt, rt.alloc(), &IN_TURN)
}

/// The same, of which the first raises.
const RAISED: [(&str, &str); 2] = [
    (
        "n = 1; m = 1 // 0; n = 2",
        "{\"answer\":\"cell\",\"commit\":1,\"count\":1,\"outcome\":\"error\",\"outputs\":[{\"ename\":\"ZeroDivisionError\",\"evalue\":\"division by zero\",\"output_type\":\"error\",\"traceback\":[\"ZeroDivisionError: division by zero\"]}]}\n",
    ),
    (
        "n",
        "{\"answer\":\"cell\",\"commit\":2,\"count\":2,\"outcome\":\"ok\",\"outputs\":[{\"data\":{\"text/plain\":\"1\"},\"execution_count\":2,\"metadata\":{},\"output_type\":\"execute_result\"}]}\n",
    ),
];

/// The same, of which the first spends its steps.
const STOPPED: [(&str, &str); 2] = [
    (
        "n = 0\nwhile True: n += 1",
        "{\"answer\":\"cell\",\"commit\":1,\"count\":1,\"outcome\":\"stopped\",\"outputs\":[{\"ename\":\"Stopped\",\"evalue\":\"step budget spent\",\"output_type\":\"error\",\"traceback\":[\"Stopped: step budget spent\"]}]}\n",
    ),
    (
        "print(n)",
        "{\"answer\":\"cell\",\"commit\":2,\"count\":2,\"outcome\":\"ok\",\"outputs\":[{\"name\":\"stdout\",\"output_type\":\"stream\",\"text\":\"666666\\n\"}]}\n",
    ),
];

// What a cell bound before it raised, or before its steps were spent, stays bound.
#[test]
fn names_outlive_their_cells(rt: HostRuntime) -> Result<(), Fail> {
    run_in_turn(&rt, rt.alloc(), &RAISED)?;
    // Three steps come before the first turn, and each turn takes six.
    run_in_turn(&rt, rt.alloc(), &STOPPED)
}

/// Whether a cell on a store that is empty at first is answered so.
fn is_answered(alloc: Global, input: &str, line: &str) -> Result<bool, Fail> {
    let mut host = host_over(alloc, &[], Vec::new(alloc), None)?.ok_or("room")?;
    Ok(is_told(alloc, &mut host, input, line.as_bytes())?)
}

/// Runs cells, each on a store that is empty at first, with its answer.
fn run_alone(rt: &impl Abort, alloc: Global, rows: &[(&str, &str)]) -> Result<(), Fail> {
    for (input, line) in rows {
        assert!(rt; is_answered(alloc, input, line)?, "{input}");
    }
    Ok(())
}

/// The same of a function with a default.
const DEFAULTS: [(&str, &str); 4] = [
    (
        "def g(x, acc=[]): acc.append(x); return acc",
        "{\"answer\":\"cell\",\"commit\":1,\"count\":1,\"outcome\":\"ok\",\"outputs\":[]}\n",
    ),
    (
        "p = g(1)",
        "{\"answer\":\"cell\",\"commit\":2,\"count\":2,\"outcome\":\"ok\",\"outputs\":[]}\n",
    ),
    (
        "g(2) is p",
        "{\"answer\":\"cell\",\"commit\":3,\"count\":3,\"outcome\":\"ok\",\"outputs\":[{\"data\":{\"text/plain\":\"True\"},\"execution_count\":3,\"metadata\":{},\"output_type\":\"execute_result\"}]}\n",
    ),
    (
        "print(p)",
        "{\"answer\":\"cell\",\"commit\":4,\"count\":4,\"outcome\":\"ok\",\"outputs\":[{\"name\":\"stdout\",\"output_type\":\"stream\",\"text\":\"[1, 2]\\n\"}]}\n",
    ),
];

// The list that a call answers is the default of the next call, also in a later cell.
#[test]
fn a_default_is_one_list(rt: HostRuntime) -> Result<(), Fail> {
    run_in_turn(&rt, rt.alloc(), &DEFAULTS)
}

/// The same of functions.
const FUNCTIONS: [(&str, &str); 6] = [
    (
        "def g(x, acc=[]): acc.append(x); return acc",
        "{\"answer\":\"cell\",\"commit\":1,\"count\":1,\"outcome\":\"ok\",\"outputs\":[]}\n",
    ),
    (
        "print(g(1) is g(2), g(3))",
        "{\"answer\":\"cell\",\"commit\":2,\"count\":2,\"outcome\":\"ok\",\"outputs\":[{\"name\":\"stdout\",\"output_type\":\"stream\",\"text\":\"True [1, 2, 3]\\n\"}]}\n",
    ),
    (
        "def h():\n    try: return 1\n    finally: print('f')",
        "{\"answer\":\"cell\",\"commit\":3,\"count\":3,\"outcome\":\"ok\",\"outputs\":[]}\n",
    ),
    (
        "h()",
        "{\"answer\":\"cell\",\"commit\":4,\"count\":4,\"outcome\":\"ok\",\"outputs\":[{\"name\":\"stdout\",\"output_type\":\"stream\",\"text\":\"f\\n\"},{\"data\":{\"text/plain\":\"1\"},\"execution_count\":4,\"metadata\":{},\"output_type\":\"execute_result\"}]}\n",
    ),
    (
        "def f(n): return f(n - 1)\nf(0)",
        "{\"answer\":\"cell\",\"commit\":5,\"count\":5,\"outcome\":\"error\",\"outputs\":[{\"ename\":\"RecursionError\",\"evalue\":\"depth limit reached\",\"output_type\":\"error\",\"traceback\":[\"RecursionError: depth limit reached\"]}]}\n",
    ),
    (
        "try:\n    while True: pass\nexcept Exception: print('no')",
        "{\"answer\":\"cell\",\"commit\":6,\"count\":6,\"outcome\":\"stopped\",\"outputs\":[{\"ename\":\"Stopped\",\"evalue\":\"step budget spent\",\"output_type\":\"error\",\"traceback\":[\"Stopped: step budget spent\"]}]}\n",
    ),
];

// No handler catches that the steps are spent. The recursion needs more stack under `rt try`.
#[test]
fn functions_of_earlier_cells(rt: HostRuntime) -> Result<(), Fail> {
    run_in_turn(&rt, rt.alloc(), &FUNCTIONS)
}

/// The same of dicts and loops.
const DICTS_AND_LOOPS: [(&str, &str); 7] = [
    (
        "d = {1: 'a', True: 'b'}; print(d)",
        "{\"answer\":\"cell\",\"commit\":1,\"count\":1,\"outcome\":\"ok\",\"outputs\":[{\"name\":\"stdout\",\"output_type\":\"stream\",\"text\":\"{1: 'b'}\\n\"}]}\n",
    ),
    (
        "rows = [{'name': 'ann', 'n': 3}, {'name': 'bo', 'n': 4}, {'name': 'ann', 'n': 5}]\ntot = {}\nfor r in rows:\n    tot[r['name']] = tot.get(r['name'], 0) + r['n']\ntot",
        "{\"answer\":\"cell\",\"commit\":2,\"count\":2,\"outcome\":\"ok\",\"outputs\":[{\"data\":{\"text/plain\":\"{'ann': 8, 'bo': 4}\"},\"execution_count\":2,\"metadata\":{},\"output_type\":\"execute_result\"}]}\n",
    ),
    (
        "try:\n    {}['k']\nexcept KeyError as e:\n    print(e, repr(e))\nfinally:\n    print('end')",
        "{\"answer\":\"cell\",\"commit\":3,\"count\":3,\"outcome\":\"ok\",\"outputs\":[{\"name\":\"stdout\",\"output_type\":\"stream\",\"text\":\"'k' KeyError('k')\\nend\\n\"}]}\n",
    ),
    (
        "e",
        "{\"answer\":\"cell\",\"commit\":4,\"count\":4,\"outcome\":\"error\",\"outputs\":[{\"ename\":\"NameError\",\"evalue\":\"name 'e' is not defined\",\"output_type\":\"error\",\"traceback\":[\"NameError: name 'e' is not defined\"]}]}\n",
    ),
    (
        "a = [1]\nfor x in a:\n    if len(a) < 3: a.append(x + 1)\nprint(a)",
        "{\"answer\":\"cell\",\"commit\":5,\"count\":5,\"outcome\":\"ok\",\"outputs\":[{\"name\":\"stdout\",\"output_type\":\"stream\",\"text\":\"[1, 2, 3]\\n\"}]}\n",
    ),
    (
        "d = {1: 1}\nfor k in d: d[k + 1] = 0",
        "{\"answer\":\"cell\",\"commit\":6,\"count\":6,\"outcome\":\"error\",\"outputs\":[{\"ename\":\"RuntimeError\",\"evalue\":\"dictionary changed size during iteration\",\"output_type\":\"error\",\"traceback\":[\"RuntimeError: dictionary changed size during iteration\"]}]}\n",
    ),
    (
        "d",
        "{\"answer\":\"cell\",\"commit\":7,\"count\":7,\"outcome\":\"ok\",\"outputs\":[{\"data\":{\"text/plain\":\"{1: 1, 2: 0}\"},\"execution_count\":7,\"metadata\":{},\"output_type\":\"execute_result\"}]}\n",
    ),
];

// A dict that grew while it was walked has its new entry.
#[test]
fn dicts_and_loops(rt: HostRuntime) -> Result<(), Fail> {
    run_in_turn(&rt, rt.alloc(), &DICTS_AND_LOOPS)
}

/// Cells, each alone, and their answers.
const SHARED: [(&str, &str); 2] = [
    (
        "a = [1]; b = a; b.append(2); print(a, a is b, [1] is [1])",
        "{\"answer\":\"cell\",\"commit\":1,\"count\":1,\"outcome\":\"ok\",\"outputs\":[{\"name\":\"stdout\",\"output_type\":\"stream\",\"text\":\"[1, 2] True False\\n\"}]}\n",
    ),
    (
        "d = {'k': 1}; d.update({'k': 2, 'j': 3}); d",
        "{\"answer\":\"cell\",\"commit\":1,\"count\":1,\"outcome\":\"ok\",\"outputs\":[{\"data\":{\"text/plain\":\"{'k': 2, 'j': 3}\"},\"execution_count\":1,\"metadata\":{},\"output_type\":\"execute_result\"}]}\n",
    ),
];

// Names, dicts and displays: which of them are one list or dict.
#[test]
fn lists_are_shared(rt: HostRuntime) -> Result<(), Fail> {
    run_alone(&rt, rt.alloc(), &SHARED)
}

/// The same of values of all kinds.
const OF_ALL_KINDS: [(&str, &str); 11] = [
    (
        "o = SimpleNamespace(a=1); o.b = [o]; o",
        "{\"answer\":\"cell\",\"commit\":1,\"count\":1,\"outcome\":\"ok\",\"outputs\":[{\"data\":{\"text/plain\":\"namespace(a=1, b=[namespace(...)])\"},\"execution_count\":1,\"metadata\":{},\"output_type\":\"execute_result\"}]}\n",
    ),
    (
        "print(repr(\"it's\"), repr('a\\tb'), len('\u{e9}'))",
        "{\"answer\":\"cell\",\"commit\":1,\"count\":1,\"outcome\":\"ok\",\"outputs\":[{\"name\":\"stdout\",\"output_type\":\"stream\",\"text\":\"\\\"it's\\\" 'a\\\\tb' 1\\n\"}]}\n",
    ),
    (
        "print('a,b,,c'.split(','), ' a  b '.split(), 'aXbX'.replace('X', '--'))",
        "{\"answer\":\"cell\",\"commit\":1,\"count\":1,\"outcome\":\"ok\",\"outputs\":[{\"name\":\"stdout\",\"output_type\":\"stream\",\"text\":\"['a', 'b', '', 'c'] ['a', 'b'] a--b--\\n\"}]}\n",
    ),
    (
        "print('abcdef'[::-2], [1, 2, 3, 4][-3:-1], 'banana'.count('an'))",
        "{\"answer\":\"cell\",\"commit\":1,\"count\":1,\"outcome\":\"ok\",\"outputs\":[{\"name\":\"stdout\",\"output_type\":\"stream\",\"text\":\"fdb [2, 3] 2\\n\"}]}\n",
    ),
    (
        "print(tuple(range(3)), list('ab'), int(' 42 '), str([1, 'x']))",
        "{\"answer\":\"cell\",\"commit\":1,\"count\":1,\"outcome\":\"ok\",\"outputs\":[{\"name\":\"stdout\",\"output_type\":\"stream\",\"text\":\"(0, 1, 2) ['a', 'b'] 42 [1, 'x']\\n\"}]}\n",
    ),
    (
        "print(2 ** 10, divmod(-7, 2), sorted([3, True, 2]), 'x' is 'x', [] is [])",
        "{\"answer\":\"cell\",\"commit\":1,\"count\":1,\"outcome\":\"ok\",\"outputs\":[{\"name\":\"stdout\",\"output_type\":\"stream\",\"text\":\"1024 (-4, 1) [True, 2, 3] True False\\n\"}]}\n",
    ),
    (
        "print((1, 2) < (1, 3), [1] == [True], {1: 2} == {True: 2}, 3 in range(0, 9, 3))",
        "{\"answer\":\"cell\",\"commit\":1,\"count\":1,\"outcome\":\"ok\",\"outputs\":[{\"name\":\"stdout\",\"output_type\":\"stream\",\"text\":\"True True True True\\n\"}]}\n",
    ),
    (
        "'a' + 1",
        "{\"answer\":\"cell\",\"commit\":1,\"count\":1,\"outcome\":\"error\",\"outputs\":[{\"ename\":\"TypeError\",\"evalue\":\"bad operand types for +: 'str' and 'int'\",\"output_type\":\"error\",\"traceback\":[\"TypeError: bad operand types for +: 'str' and 'int'\"]}]}\n",
    ),
    (
        "{[]: 1}",
        "{\"answer\":\"cell\",\"commit\":1,\"count\":1,\"outcome\":\"error\",\"outputs\":[{\"ename\":\"TypeError\",\"evalue\":\"unhashable key: 'list'\",\"output_type\":\"error\",\"traceback\":[\"TypeError: unhashable key: 'list'\"]}]}\n",
    ),
    (
        "a, b = 1, 2, 3",
        "{\"answer\":\"cell\",\"commit\":1,\"count\":1,\"outcome\":\"error\",\"outputs\":[{\"ename\":\"ValueError\",\"evalue\":\"cannot unpack into 2\",\"output_type\":\"error\",\"traceback\":[\"ValueError: cannot unpack into 2\"]}]}\n",
    ),
    (
        "raise ValueError('x', 1)",
        "{\"answer\":\"cell\",\"commit\":1,\"count\":1,\"outcome\":\"error\",\"outputs\":[{\"ename\":\"ValueError\",\"evalue\":\"('x', 1)\",\"output_type\":\"error\",\"traceback\":[\"ValueError: ('x', 1)\"]}]}\n",
    ),
];

// Objects, texts, slices, conversions, comparisons, and what is raised.
#[test]
fn values_of_all_kinds(rt: HostRuntime) -> Result<(), Fail> {
    run_alone(&rt, rt.alloc(), &OF_ALL_KINDS)
}

/// The same of calls, blocks and nodes that lie deep.
const DEEP: [(&str, &str); 10] = [
    (
        "def f(n): return f(n + 1)\nf(0)",
        "{\"answer\":\"cell\",\"commit\":1,\"count\":1,\"outcome\":\"error\",\"outputs\":[{\"ename\":\"RecursionError\",\"evalue\":\"depth limit reached\",\"output_type\":\"error\",\"traceback\":[\"RecursionError: depth limit reached\"]}]}\n",
    ),
    (
        "def g(x): return x\ndef f(n): return g(g(g(g(g(g(g(g(g(g(g(g(g(g(g(g(g(g(g(g(g(g(g(g(g(g(g(g(g(g(g(g(g(g(g(g(g(g(g(g(g(g(g(g(g(g(g(g(g(g(g(g(g(g(g(g(g(f(n))))))))))))))))))))))))))))))))))))))))))))))))))))))))))\nf(0)",
        "{\"answer\":\"cell\",\"commit\":1,\"count\":1,\"outcome\":\"error\",\"outputs\":[{\"ename\":\"RecursionError\",\"evalue\":\"depth limit reached\",\"output_type\":\"error\",\"traceback\":[\"RecursionError: depth limit reached\"]}]}\n",
    ),
    (
        "def f(n): return (((((((((((((((((((((((((((((((((((((((((((((((((((((((((f(n))))))))))))))))))))))))))))))))))))))))))))))))))))))))))\nf(0)",
        "{\"answer\":\"cell\",\"commit\":1,\"count\":1,\"outcome\":\"error\",\"outputs\":[{\"ename\":\"RecursionError\",\"evalue\":\"depth limit reached\",\"output_type\":\"error\",\"traceback\":[\"RecursionError: depth limit reached\"]}]}\n",
    ),
    (
        "def f(n): return 0 < (0 < (0 < (0 < (0 < (0 < (0 < (0 < (0 < (0 < (0 < (0 < (0 < (0 < (0 < (0 < (0 < (0 < (0 < (0 < (0 < (0 < (0 < (0 < (0 < (0 < (0 < (0 < (0 < (0 < (0 < (0 < (0 < (0 < (0 < (0 < (0 < (0 < (0 < (0 < (0 < (0 < (0 < (0 < (0 < (0 < (0 < (0 < (0 < (0 < (0 < (0 < (0 < (0 < (0 < (0 < (0 < (f(n))))))))))))))))))))))))))))))))))))))))))))))))))))))))))\nf(0)",
        "{\"answer\":\"cell\",\"commit\":1,\"count\":1,\"outcome\":\"error\",\"outputs\":[{\"ename\":\"RecursionError\",\"evalue\":\"depth limit reached\",\"output_type\":\"error\",\"traceback\":[\"RecursionError: depth limit reached\"]}]}\n",
    ),
    (
        "def f(n): return 1 if 0 or 1 and 0 < 1 + 1 * f(n) else 2\nf(0)",
        "{\"answer\":\"cell\",\"commit\":1,\"count\":1,\"outcome\":\"error\",\"outputs\":[{\"ename\":\"RecursionError\",\"evalue\":\"depth limit reached\",\"output_type\":\"error\",\"traceback\":[\"RecursionError: depth limit reached\"]}]}\n",
    ),
    (
        "def f(n): return {1: 1 if 0 or 1 and 0 < 1 + 1 * {1: 1 if 0 or 1 and 0 < 1 + 1 * {1: 1 if 0 or 1 and 0 < 1 + 1 * {1: 1 if 0 or 1 and 0 < 1 + 1 * {1: 1 if 0 or 1 and 0 < 1 + 1 * {1: 1 if 0 or 1 and 0 < 1 + 1 * {1: 1 if 0 or 1 and 0 < 1 + 1 * {1: 1 if 0 or 1 and 0 < 1 + 1 * {1: 1 if 0 or 1 and 0 < 1 + 1 * {1: 1 if 0 or 1 and 0 < 1 + 1 * {1: 1 if 0 or 1 and 0 < 1 + 1 * {1: 1 if 0 or 1 and 0 < 1 + 1 * {1: 1 if 0 or 1 and 0 < 1 + 1 * {1: 1 if 0 or 1 and 0 < 1 + 1 * {1: 1 if 0 or 1 and 0 < 1 + 1 * {1: 1 if 0 or 1 and 0 < 1 + 1 * {1: 1 if 0 or 1 and 0 < 1 + 1 * {1: 1 if 0 or 1 and 0 < 1 + 1 * {1: 1 if 0 or 1 and 0 < 1 + 1 * {1: 1 if 0 or 1 and 0 < 1 + 1 * {1: 1 if 0 or 1 and 0 < 1 + 1 * {1: 1 if 0 or 1 and 0 < 1 + 1 * {1: 1 if 0 or 1 and 0 < 1 + 1 * {1: 1 if 0 or 1 and 0 < 1 + 1 * {1: 1 if 0 or 1 and 0 < 1 + 1 * {1: 1 if 0 or 1 and 0 < 1 + 1 * {1: 1 if 0 or 1 and 0 < 1 + 1 * {1: 1 if 0 or 1 and 0 < 1 + 1 * {1: 1 if 0 or 1 and 0 < 1 + 1 * {1: 1 if 0 or 1 and 0 < 1 + 1 * {1: 1 if 0 or 1 and 0 < 1 + 1 * {1: 1 if 0 or 1 and 0 < 1 + 1 * {1: 1 if 0 or 1 and 0 < 1 + 1 * {1: 1 if 0 or 1 and 0 < 1 + 1 * {1: 1 if 0 or 1 and 0 < 1 + 1 * {1: 1 if 0 or 1 and 0 < 1 + 1 * {1: 1 if 0 or 1 and 0 < 1 + 1 * {1: 1 if 0 or 1 and 0 < 1 + 1 * {1: 1 if 0 or 1 and 0 < 1 + 1 * {1: 1 if 0 or 1 and 0 < 1 + 1 * {1: 1 if 0 or 1 and 0 < 1 + 1 * {1: 1 if 0 or 1 and 0 < 1 + 1 * {1: 1 if 0 or 1 and 0 < 1 + 1 * {1: 1 if 0 or 1 and 0 < 1 + 1 * {1: 1 if 0 or 1 and 0 < 1 + 1 * {1: 1 if 0 or 1 and 0 < 1 + 1 * {1: 1 if 0 or 1 and 0 < 1 + 1 * {1: 1 if 0 or 1 and 0 < 1 + 1 * {1: 1 if 0 or 1 and 0 < 1 + 1 * {1: 1 if 0 or 1 and 0 < 1 + 1 * {1: 1 if 0 or 1 and 0 < 1 + 1 * {1: 1 if 0 or 1 and 0 < 1 + 1 * {1: 1 if 0 or 1 and 0 < 1 + 1 * {1: 1 if 0 or 1 and 0 < 1 + 1 * {1: 1 if 0 or 1 and 0 < 1 + 1 * {1: 1 if 0 or 1 and 0 < 1 + 1 * {1: 1 if 0 or 1 and 0 < 1 + 1 * f(n) ** 2 else 1}[1] ** 2 else 1}[1] ** 2 else 1}[1] ** 2 else 1}[1] ** 2 else 1}[1] ** 2 else 1}[1] ** 2 else 1}[1] ** 2 else 1}[1] ** 2 else 1}[1] ** 2 else 1}[1] ** 2 else 1}[1] ** 2 else 1}[1] ** 2 else 1}[1] ** 2 else 1}[1] ** 2 else 1}[1] ** 2 else 1}[1] ** 2 else 1}[1] ** 2 else 1}[1] ** 2 else 1}[1] ** 2 else 1}[1] ** 2 else 1}[1] ** 2 else 1}[1] ** 2 else 1}[1] ** 2 else 1}[1] ** 2 else 1}[1] ** 2 else 1}[1] ** 2 else 1}[1] ** 2 else 1}[1] ** 2 else 1}[1] ** 2 else 1}[1] ** 2 else 1}[1] ** 2 else 1}[1] ** 2 else 1}[1] ** 2 else 1}[1] ** 2 else 1}[1] ** 2 else 1}[1] ** 2 else 1}[1] ** 2 else 1}[1] ** 2 else 1}[1] ** 2 else 1}[1] ** 2 else 1}[1] ** 2 else 1}[1] ** 2 else 1}[1] ** 2 else 1}[1] ** 2 else 1}[1] ** 2 else 1}[1] ** 2 else 1}[1] ** 2 else 1}[1] ** 2 else 1}[1] ** 2 else 1}[1] ** 2 else 1}[1] ** 2 else 1}[1] ** 2 else 1}[1] ** 2 else 1}[1] ** 2 else 1}[1] ** 2 else 1}[1] ** 2 else 1}[1]\nf(0)",
        "{\"answer\":\"cell\",\"commit\":1,\"count\":1,\"outcome\":\"error\",\"outputs\":[{\"ename\":\"RecursionError\",\"evalue\":\"depth limit reached\",\"output_type\":\"error\",\"traceback\":[\"RecursionError: depth limit reached\"]}]}\n",
    ),
    (
        "n = 0\ndef f():\n    global n\n    for i in [1, 2]:\n        try: f()\n        finally: n += 1\ntry: f()\nexcept RecursionError as e: print(e, n > 100)",
        "{\"answer\":\"cell\",\"commit\":1,\"count\":1,\"outcome\":\"ok\",\"outputs\":[{\"name\":\"stdout\",\"output_type\":\"stream\",\"text\":\"depth limit reached True\\n\"}]}\n",
    ),
    (
        "x = []\ny = []\nfor i in range(900):\n    x = [x]\n    y = [y]\nprint(x == y, x < y, len(repr(x)))",
        "{\"answer\":\"cell\",\"commit\":1,\"count\":1,\"outcome\":\"ok\",\"outputs\":[{\"name\":\"stdout\",\"output_type\":\"stream\",\"text\":\"True False 1802\\n\"}]}\n",
    ),
    (
        "x = []\nfor i in range(2000): x = {1: (x,)}\nx",
        "{\"answer\":\"cell\",\"commit\":1,\"count\":1,\"outcome\":\"error\",\"outputs\":[{\"ename\":\"RecursionError\",\"evalue\":\"depth limit reached\",\"output_type\":\"error\",\"traceback\":[\"RecursionError: depth limit reached\"]}]}\n",
    ),
    (
        "x = []\nfor i in range(900000): x = [x]\nx = 0\ni",
        "{\"answer\":\"cell\",\"commit\":1,\"count\":1,\"outcome\":\"ok\",\"outputs\":[{\"data\":{\"text/plain\":\"899999\"},\"execution_count\":1,\"metadata\":{},\"output_type\":\"execute_result\"}]}\n",
    ),
];

// The deepest calls and blocks, and nodes in nodes, on the stack that a test has. Under `rt try`, whose
// frames are larger, the recursion runs out of it.
#[test]
fn cells_of_great_depth(rt: HostRuntime) -> Result<(), Fail> {
    run_alone(&rt, rt.alloc(), &DEEP)
}
