// Notebooks: what is read and refused, what is set, and what is written.
ghost use Rattle.std.specs.Prelude.{◌≡◌, ◌<◌, length, true, IfOk};
ghost use Rattle.kishu_notebook.specs.Views.{data_of};
ghost use Rattle.kishu_model.specs.notebooks.Notebook.{sources_of};

use kishu_model::{Answer, CellResult, Counted, Outcome, Output, Refusal};
use kishu_notebook::NotebookKey::{Cells, Format, Metadata, Minor};
use kishu_notebook::NotebookRefusal::{
    BadCell, NotJson, NotNotebook, NotWhole, RepeatedId, Version,
};
use kishu_notebook::{Notebook, NotebookFault, NotebookRefusal};
use std::alloc::{AllocError, Global};
use std::rc::RcStr;
use std::test::Fail;

/// The notebook that a text is. The texts here are short.
fn read(alloc: Global, bytes: &[u8]) -> Result<Notebook, NotebookFault> {
    if bytes.len() >= 1 << 32 {
        return Err(NotebookFault::NoMemory);
    }
    Notebook::read(alloc, bytes)
}

/// Why bytes are no notebook, where they are none.
fn refusal(alloc: Global, bytes: &[u8]) -> Result<Option<NotebookRefusal>, AllocError> {
    match read(alloc, bytes) {
        Ok(_) => Ok(None),
        Err(NotebookFault::Refused(refusal)) => Ok(Some(refusal)),
        Err(NotebookFault::NoMemory) => Err(AllocError),
    }
}

/// The text of a notebook with these cells.
fn with_cells(alloc: Global, cells: &str) -> Result<String, AllocError> {
    format!(in alloc;
        "{{\"cells\":[{cells}],\"metadata\":{{}},\"nbformat\":4,\"nbformat_minor\":5}}"
    )
}

/// Texts that are no notebooks, each with its fault. Where two faults stand in one, the first in the
/// order of the faults is told.
const REFUSED: [(&str, Option<NotebookRefusal>); 22] = [
    ("", Some(NotJson)),
    ("{", Some(NotJson)),
    ("[1.5", Some(NotJson)),
    ("{\"nbformat\":1e999}", Some(NotJson)),
    ("[]", Some(NotNotebook { key: Format })),
    ("1.5", Some(NotNotebook { key: Format })),
    ("{}", Some(NotNotebook { key: Format })),
    (
        "{\"nbformat\":3,\"nbformat_minor\":5}",
        Some(NotNotebook { key: Format }),
    ),
    (
        "{\"nbformat\":4.0,\"nbformat_minor\":5}",
        Some(NotNotebook { key: Format }),
    ),
    (
        "{\"nbformat\":\"4\",\"nbformat_minor\":5}",
        Some(NotNotebook { key: Format }),
    ),
    ("{\"nbformat\":4}", Some(NotNotebook { key: Minor })),
    (
        "{\"nbformat\":4,\"nbformat_minor\":-1,\"metadata\":[]}",
        Some(NotNotebook { key: Minor }),
    ),
    (
        "{\"nbformat\":4,\"nbformat_minor\":18446744073709551616}",
        Some(NotNotebook { key: Minor }),
    ),
    (
        "{\"nbformat\":4,\"nbformat_minor\":4}",
        Some(NotNotebook { key: Metadata }),
    ),
    (
        "{\"nbformat\":4,\"nbformat_minor\":4,\"metadata\":[],\"cells\":{}}",
        Some(NotNotebook { key: Metadata }),
    ),
    (
        "{\"nbformat\":4,\"nbformat_minor\":4,\"metadata\":{}}",
        Some(NotNotebook { key: Cells }),
    ),
    (
        "{\"nbformat\":4,\"nbformat_minor\":4,\"metadata\":{},\"cells\":{}}",
        Some(NotNotebook { key: Cells }),
    ),
    (
        "{\"nbformat\":4,\"nbformat_minor\":4,\"metadata\":{},\"cells\":[0]}",
        Some(Version { minor: 4 }),
    ),
    (
        "{\"nbformat\":4,\"nbformat_minor\":18446744073709551615,\"metadata\":{},\"cells\":[]}",
        Some(Version {
            minor: 18446744073709551615,
        }),
    ),
    (
        "{\"nbformat\":4,\"nbformat_minor\":5,\"metadata\":{\"a\":1.5},\"cells\":[]}",
        Some(NotWhole),
    ),
    (
        "{\"nbformat\":4,\"nbformat_minor\":5,\"metadata\":{\"a\":[{\"b\":-0}]},\"cells\":[]}",
        Some(NotWhole),
    ),
    (
        "{\"nbformat\":4,\"nbformat_minor\":5,\"metadata\":{\"a\":1.0},\"cells\":[0]}",
        Some(BadCell { index: 0 }),
    ),
];

/// Cells, each with what is told of the notebook that has them.
const CELLS: [(&str, Option<NotebookRefusal>); 33] = [
    ("", None),
    (
        "{\"cell_type\":\"raw\",\"id\":\"a\",\"metadata\":{},\"source\":\"x\"}",
        None,
    ),
    (
        "{\"cell_type\":\"markdown\",\"id\":\"aZ09-_\",\"metadata\":{},\"source\":[]}",
        None,
    ),
    (
        "{\"cell_type\":\"code\",\"id\":\"a\",\"metadata\":{},\"source\":\"\",\"outputs\":[],\"execution_count\":null}",
        None,
    ),
    (
        "{\"cell_type\":\"code\",\"id\":\"a\",\"metadata\":{},\"source\":\"\",\"outputs\":[{\"output_type\":\"x\"}],\"execution_count\":0}",
        None,
    ),
    ("0", Some(BadCell { index: 0 })),
    ("{}", Some(BadCell { index: 0 })),
    (
        "{\"cell_type\":\"heading\",\"id\":\"a\",\"metadata\":{},\"source\":\"\"}",
        Some(BadCell { index: 0 }),
    ),
    (
        "{\"cell_type\":1,\"id\":\"a\",\"metadata\":{},\"source\":\"\"}",
        Some(BadCell { index: 0 }),
    ),
    (
        "{\"cell_type\":\"raw\",\"metadata\":{},\"source\":\"\"}",
        Some(BadCell { index: 0 }),
    ),
    (
        "{\"cell_type\":\"raw\",\"id\":1,\"metadata\":{},\"source\":\"\"}",
        Some(BadCell { index: 0 }),
    ),
    (
        "{\"cell_type\":\"raw\",\"id\":\"\",\"metadata\":{},\"source\":\"\"}",
        Some(BadCell { index: 0 }),
    ),
    (
        "{\"cell_type\":\"raw\",\"id\":\"a b\",\"metadata\":{},\"source\":\"\"}",
        Some(BadCell { index: 0 }),
    ),
    (
        "{\"cell_type\":\"raw\",\"id\":\"\u{e9}\",\"metadata\":{},\"source\":\"\"}",
        Some(BadCell { index: 0 }),
    ),
    (
        "{\"cell_type\":\"raw\",\"id\":\"0123456789012345678901234567890123456789012345678901234567890123\",\"metadata\":{},\"source\":\"\"}",
        None,
    ),
    (
        "{\"cell_type\":\"raw\",\"id\":\"01234567890123456789012345678901234567890123456789012345678901234\",\"metadata\":{},\"source\":\"\"}",
        Some(BadCell { index: 0 }),
    ),
    (
        "{\"cell_type\":\"raw\",\"id\":\"a\",\"source\":\"\"}",
        Some(BadCell { index: 0 }),
    ),
    (
        "{\"cell_type\":\"raw\",\"id\":\"a\",\"metadata\":[],\"source\":\"\"}",
        Some(BadCell { index: 0 }),
    ),
    (
        "{\"cell_type\":\"raw\",\"id\":\"a\",\"metadata\":{}}",
        Some(BadCell { index: 0 }),
    ),
    (
        "{\"cell_type\":\"raw\",\"id\":\"a\",\"metadata\":{},\"source\":null}",
        Some(BadCell { index: 0 }),
    ),
    (
        "{\"cell_type\":\"raw\",\"id\":\"a\",\"metadata\":{},\"source\":[\"x\",1]}",
        Some(BadCell { index: 0 }),
    ),
    (
        "{\"cell_type\":\"code\",\"id\":\"a\",\"metadata\":{},\"source\":\"\",\"execution_count\":null}",
        Some(BadCell { index: 0 }),
    ),
    (
        "{\"cell_type\":\"code\",\"id\":\"a\",\"metadata\":{},\"source\":\"\",\"outputs\":{},\"execution_count\":null}",
        Some(BadCell { index: 0 }),
    ),
    (
        "{\"cell_type\":\"code\",\"id\":\"a\",\"metadata\":{},\"source\":\"\",\"outputs\":[[]],\"execution_count\":null}",
        Some(BadCell { index: 0 }),
    ),
    (
        "{\"cell_type\":\"code\",\"id\":\"a\",\"metadata\":{},\"source\":\"\",\"outputs\":[{\"output_type\":1}],\"execution_count\":null}",
        Some(BadCell { index: 0 }),
    ),
    (
        "{\"cell_type\":\"code\",\"id\":\"a\",\"metadata\":{},\"source\":\"\",\"outputs\":[]}",
        Some(BadCell { index: 0 }),
    ),
    (
        "{\"cell_type\":\"code\",\"id\":\"a\",\"metadata\":{},\"source\":\"\",\"outputs\":[],\"execution_count\":-1}",
        Some(BadCell { index: 0 }),
    ),
    (
        "{\"cell_type\":\"code\",\"id\":\"a\",\"metadata\":{},\"source\":\"\",\"outputs\":[],\"execution_count\":1.0}",
        Some(BadCell { index: 0 }),
    ),
    (
        "{\"cell_type\":\"raw\",\"id\":\"a\",\"metadata\":{},\"source\":\"\"},{\"cell_type\":\"raw\",\"id\":\"a\",\"metadata\":{},\"source\":\"\"}",
        Some(RepeatedId { index: 1 }),
    ),
    (
        "{\"cell_type\":\"raw\",\"id\":\"a\",\"metadata\":{},\"source\":\"\"},{\"cell_type\":\"raw\",\"id\":\"a\",\"metadata\":{},\"source\":\"\"},0",
        Some(BadCell { index: 2 }),
    ),
    (
        "{\"cell_type\":\"raw\",\"id\":\"a\",\"metadata\":{\"a\":0.5},\"source\":\"\"},{\"cell_type\":\"raw\",\"id\":\"a\",\"metadata\":{},\"source\":\"\"}",
        Some(RepeatedId { index: 1 }),
    ),
    (
        "{\"cell_type\":\"code\",\"id\":\"a\",\"metadata\":{},\"source\":\"\",\"outputs\":[{\"output_type\":\"x\",\"y\":1e3}],\"execution_count\":1}",
        Some(NotWhole),
    ),
    (
        "{\"cell_type\":\"raw\",\"id\":\"a\",\"metadata\":{\"a\":-9223372036854775808,\"b\":18446744073709551615},\"source\":\"\"}",
        None,
    ),
];

#[test]
fn tells_the_first_fault(rt: HostRuntime) -> Result<(), Fail> {
    let alloc = rt.alloc();
    for (text, want) in &REFUSED {
        assert!(rt; refusal(alloc, text.as_bytes())? == *want, "at {text}");
    }
    // no text
    assert!(rt; refusal(alloc, &[b'"', 0xff, b'"'])? == Some(NotJson));
    Ok(())
}

#[test]
fn tells_the_first_fault_in_cells(rt: HostRuntime) -> Result<(), Fail> {
    let alloc = rt.alloc();
    for (cells, want) in &CELLS {
        let text = with_cells(alloc, cells)?;
        assert!(rt; refusal(alloc, text.as_bytes())? == *want, "at {cells}");
    }
    Ok(())
}

/// A notebook as Jupyter writes it: a markdown cell, and code cells whose sources are `x = [1]` and
/// `x` on two lines, `x[5]`, and nothing; the last has a picture among its outputs.
const JUPYTER: &str = "{
 \"cells\": [
  {
   \"cell_type\": \"markdown\",
   \"id\": \"aa11\",
   \"metadata\": {},
   \"source\": [
    \"# A title\\n\",
    \"x = 7\"
   ]
  },
  {
   \"cell_type\": \"code\",
   \"execution_count\": null,
   \"id\": \"bb22\",
   \"metadata\": {},
   \"outputs\": [],
   \"source\": [
    \"x = [1]\\n\",
    \"x\"
   ]
  },
  {
   \"cell_type\": \"code\",
   \"execution_count\": 7,
   \"id\": \"cc33\",
   \"metadata\": {},
   \"outputs\": [
    {
     \"name\": \"stdout\",
     \"output_type\": \"stream\",
     \"text\": [
      \"old\\n\"
     ]
    }
   ],
   \"source\": \"x[5]\"
  },
  {
   \"cell_type\": \"code\",
   \"execution_count\": 4,
   \"id\": \"dd44\",
   \"metadata\": {},
   \"outputs\": [
    {
     \"data\": {
      \"image/png\": \"iVBORw0KGgo=\"
     },
     \"metadata\": {},
     \"output_type\": \"display_data\"
    }
   ],
   \"source\": []
  }
 ],
 \"metadata\": {
  \"kernelspec\": {
   \"display_name\": \"Python 3\",
   \"language\": \"python\",
   \"name\": \"python3\"
  }
 },
 \"nbformat\": 4,
 \"nbformat_minor\": 5
}
";

/// The same with the results of its first two code cells, as two spaces a level and ordered keys.
const SET: &str = "{
  \"cells\": [
    {
      \"cell_type\": \"markdown\",
      \"id\": \"aa11\",
      \"metadata\": {},
      \"source\": [
        \"# A title\\n\",
        \"x = 7\"
      ]
    },
    {
      \"cell_type\": \"code\",
      \"execution_count\": 1,
      \"id\": \"bb22\",
      \"metadata\": {},
      \"outputs\": [
        {
          \"data\": {
            \"text/plain\": \"[1]\"
          },
          \"execution_count\": 1,
          \"metadata\": {},
          \"output_type\": \"execute_result\"
        }
      ],
      \"source\": [
        \"x = [1]\\n\",
        \"x\"
      ]
    },
    {
      \"cell_type\": \"code\",
      \"execution_count\": 2,
      \"id\": \"cc33\",
      \"metadata\": {},
      \"outputs\": [
        {
          \"ename\": \"IndexError\",
          \"evalue\": \"index out of range\",
          \"output_type\": \"error\",
          \"traceback\": [
            \"IndexError: index out of range\"
          ]
        }
      ],
      \"source\": \"x[5]\"
    },
    {
      \"cell_type\": \"code\",
      \"execution_count\": 4,
      \"id\": \"dd44\",
      \"metadata\": {},
      \"outputs\": [
        {
          \"data\": {
            \"image/png\": \"iVBORw0KGgo=\"
          },
          \"metadata\": {},
          \"output_type\": \"display_data\"
        }
      ],
      \"source\": []
    }
  ],
  \"metadata\": {
    \"kernelspec\": {
      \"display_name\": \"Python 3\",
      \"language\": \"python\",
      \"name\": \"python3\"
    }
  },
  \"nbformat\": 4,
  \"nbformat_minor\": 5
}
";

/// What the first code cell of that notebook gives.
fn first(alloc: Global) -> Result<CellResult, AllocError> {
    let text = RcStr::from_str(alloc, "[1]")?;
    let outputs = vec![in alloc; Output::Shown { text }]?;
    Ok(CellResult {
        outcome: Outcome::Done,
        outputs,
    })
}

/// What the second one gives.
fn second(alloc: Global) -> Result<CellResult, AllocError> {
    let ename = RcStr::from_str(alloc, "IndexError")?;
    let evalue = RcStr::from_str(alloc, "index out of range")?;
    let outputs = vec![in alloc; Output::Fault { ename, evalue }]?;
    Ok(CellResult {
        outcome: Outcome::Raised,
        outputs,
    })
}

/// A code cell, and the notebook with it alone after it was refused.
const CODE_CELL: &str =
    "{\"cell_type\":\"code\",\"id\":\"a\",\"metadata\":{},\"source\":\"\",\"outputs\":[],\"execution_count\":3}";

const CELL_REFUSED: &str =
    "{\n  \"cells\": [\n    {\n      \"cell_type\": \"code\",\n      \"execution_count\": null,\n      \"id\": \"a\",\n      \"metadata\": {},\n      \"outputs\": [\n        {\n          \"ename\": \"StoreFull\",\n          \"evalue\": \"\",\n          \"output_type\": \"error\",\n          \"traceback\": [\n            \"StoreFull: \"\n          ]\n        }\n      ],\n      \"source\": \"\"\n    }\n  ],\n  \"metadata\": {},\n  \"nbformat\": 4,\n  \"nbformat_minor\": 5\n}\n";

/// A notebook without cells, as it is written.
const EMPTY: &str =
    "{\n  \"cells\": [],\n  \"metadata\": {},\n  \"nbformat\": 4,\n  \"nbformat_minor\": 5\n}\n";

/// Whether this is written of a notebook.
fn is_written(notebook: &Notebook, want: &str) -> Result<bool, AllocError> {
    Ok(notebook.write()?.as_slice() == want.as_bytes())
}

/// The texts of a notebook's code cells, each behind a bar.
fn barred(alloc: Global, notebook: &Notebook) -> Result<String, AllocError> {
    let mut all = String::new(alloc);
    for source in &notebook.sources()? {
        all.push('|')?;
        all.push_str(source.as_str())?;
    }
    Ok(all)
}

/// Whether the texts of a notebook's code cells are these, each behind a bar.
fn has_sources(alloc: Global, notebook: &Notebook, want: &str) -> Result<bool, AllocError> {
    Ok(barred(alloc, notebook)?.as_str() == want)
}

#[test]
fn writes_without_cells(rt: HostRuntime) -> Result<(), Fail> {
    let alloc = rt.alloc();
    let text = with_cells(alloc, "")?;
    let notebook = read(alloc, text.as_bytes())?;
    assert!(rt; has_sources(alloc, &notebook, "")?);
    assert!(rt; is_written(&notebook, EMPTY)?);
    Ok(())
}

/// Whether a notebook has such a code cell.
fn has_code_cell(notebook: &Notebook, at: u32) -> Result<bool, AllocError>
    ensures { IfOk result (λ there. there ≡ true → at < length (sources_of (data_of notebook.now))) }
{
    let sources = notebook.sources()?;
    Ok((at as usize) < sources.len())
}

/// Sets a result where there is such a code cell.
fn set_result(
    notebook: &mut Notebook,
    at: u32,
    ran: &CellResult,
    count: u64,
) -> Result<(), AllocError> {
    if has_code_cell(notebook, at)? {
        notebook.set_result(at, ran, count)?;
    }
    Ok(())
}

/// The same of a refusal.
fn set_refused(notebook: &mut Notebook, at: u32, reason: &str) -> Result<(), AllocError> {
    if has_code_cell(notebook, at)? {
        notebook.set_refused(at, reason)?;
    }
    Ok(())
}

#[test]
fn sets_results(rt: HostRuntime) -> Result<(), Fail> {
    let alloc = rt.alloc();
    let mut notebook = read(alloc, JUPYTER.as_bytes())?;
    assert!(rt; has_sources(alloc, &notebook, "|x = [1]\nx|x[5]|")?);
    let (one, two) = (first(alloc)?, second(alloc)?);
    set_result(&mut notebook, 0, &one, 1)?;
    set_result(&mut notebook, 1, &two, 2)?;
    assert!(rt; is_written(&notebook, SET)?);
    Ok(())
}

#[test]
fn sets_a_refusal(rt: HostRuntime) -> Result<(), Fail> {
    let alloc = rt.alloc();
    let text = with_cells(alloc, CODE_CELL)?;
    let mut notebook = read(alloc, text.as_bytes())?;
    set_refused(&mut notebook, 0, "StoreFull")?;
    assert!(rt; is_written(&notebook, CELL_REFUSED)?);
    Ok(())
}

/// Whether this is written of a notebook once an answer is set, whose first cell is its first one.
fn answers(alloc: Global, text: &str, answer: &Answer, want: &str) -> Result<bool, Fail> {
    let mut notebook = read(alloc, text.as_bytes())?;
    notebook.set_answer(0, answer)?;
    Ok(is_written(&notebook, want)?)
}

/// The answer to both cells together.
fn both(alloc: Global) -> Result<Answer, AllocError> {
    let one = Counted {
        count: 1,
        result: first(alloc)?,
    };
    let two = Counted {
        count: 2,
        result: second(alloc)?,
    };
    let results = vec![in alloc; one, two]?;
    Ok(Answer::Cells { commit: 1, results })
}

/// The answers to the first and to the second cell.
fn each(alloc: Global) -> Result<(Answer, Answer), AllocError> {
    let one = Answer::Cell {
        commit: 1,
        count: 1,
        result: first(alloc)?,
    };
    let two = Answer::Cell {
        commit: 2,
        count: 2,
        result: second(alloc)?,
    };
    Ok((one, two))
}

#[test]
fn sets_answers(rt: HostRuntime) -> Result<(), Fail> {
    let alloc = rt.alloc();
    let mut notebook = read(alloc, JUPYTER.as_bytes())?;
    let (one, two) = each(alloc)?;
    notebook.set_answer(0, &one)?;
    notebook.set_answer(1, &two)?;
    // past the last code cell
    notebook.set_answer(3, &one)?;
    assert!(rt; is_written(&notebook, SET)?);
    Ok(())
}

#[test]
fn sets_one_answer(rt: HostRuntime) -> Result<(), Fail> {
    let alloc = rt.alloc();
    let together = both(alloc)?;
    assert!(rt; answers(alloc, JUPYTER, &together, SET)?);
    let text = with_cells(alloc, CODE_CELL)?;
    let refused = Refusal::StoreFull.answer();
    assert!(rt; answers(alloc, text.as_str(), &refused, CELL_REFUSED)?);
    Ok(())
}
