// Notebooks: runs of their code cells, and what is written of them.
use super::sessions::{records, run_words};
use super::{FIRST, host_over};
use kishu_serve::Status;
use std::alloc::{AllocError, Global};
use std::process::Abort;
use std::test::Fail;

/// Words, a notebook, what is written of it, and the answer to `log` behind the run.
const RUNS: [(&[&str], &str, &str, &str); 8] = [
    // A notebook as Jupyter writes it. The third code cell isn't run, and keeps its picture.
    (
        &["S", "run"],
        r##"{
 "cells": [
  {
   "cell_type": "markdown",
   "id": "t",
   "metadata": {},
   "source": [
    "# A list\n",
    "of one item"
   ]
  },
  {
   "cell_type": "code",
   "execution_count": null,
   "id": "a1",
   "metadata": {},
   "outputs": [],
   "source": [
    "x = [1]\n",
    "x"
   ]
  },
  {
   "cell_type": "code",
   "execution_count": null,
   "id": "a2",
   "metadata": {},
   "outputs": [],
   "source": "x[5]"
  },
  {
   "cell_type": "code",
   "execution_count": 9,
   "id": "a3",
   "metadata": {},
   "outputs": [
    {
     "data": {
      "image/png": "iVBORw0KGgo=",
      "text/plain": [
       "<Figure>"
      ]
     },
     "metadata": {},
     "output_type": "display_data"
    }
   ],
   "source": []
  }
 ],
 "metadata": {
  "kernelspec": {
   "display_name": "Python 3 (ipykernel)",
   "language": "python",
   "name": "python3"
  }
 },
 "nbformat": 4,
 "nbformat_minor": 5
}
"##,
        r##"{
  "cells": [
    {
      "cell_type": "markdown",
      "id": "t",
      "metadata": {},
      "source": [
        "# A list\n",
        "of one item"
      ]
    },
    {
      "cell_type": "code",
      "execution_count": 1,
      "id": "a1",
      "metadata": {},
      "outputs": [
        {
          "data": {
            "text/plain": "[1]"
          },
          "execution_count": 1,
          "metadata": {},
          "output_type": "execute_result"
        }
      ],
      "source": [
        "x = [1]\n",
        "x"
      ]
    },
    {
      "cell_type": "code",
      "execution_count": 2,
      "id": "a2",
      "metadata": {},
      "outputs": [
        {
          "ename": "IndexError",
          "evalue": "index out of range",
          "output_type": "error",
          "traceback": [
            "IndexError: index out of range"
          ]
        }
      ],
      "source": "x[5]"
    },
    {
      "cell_type": "code",
      "execution_count": 9,
      "id": "a3",
      "metadata": {},
      "outputs": [
        {
          "data": {
            "image/png": "iVBORw0KGgo=",
            "text/plain": [
              "<Figure>"
            ]
          },
          "metadata": {},
          "output_type": "display_data"
        }
      ],
      "source": []
    }
  ],
  "metadata": {
    "kernelspec": {
      "display_name": "Python 3 (ipykernel)",
      "language": "python",
      "name": "python3"
    }
  },
  "nbformat": 4,
  "nbformat_minor": 5
}
"##,
        r#"{"answer":"log","branches":[{"commit":2,"name":"main"}],"path":[{"cells":1,"commit":2,"line":"x[5]","parent":1},{"cells":1,"commit":1,"line":"x = [1]","parent":0}]}
"#,
    ),
    // Each cell is a commit of its own; none is run behind the one that raised.
    (
        &["S", "run"],
        r#"{"cells":[{"cell_type":"code","execution_count":null,"id":"a","metadata":{},"outputs":[],"source":"a = 1"},{"cell_type":"code","execution_count":null,"id":"b","metadata":{},"outputs":[],"source":"a // 0"},{"cell_type":"code","execution_count":null,"id":"c","metadata":{},"outputs":[],"source":"a = 2"}],"metadata":{},"nbformat":4,"nbformat_minor":5}"#,
        r#"{
  "cells": [
    {
      "cell_type": "code",
      "execution_count": 1,
      "id": "a",
      "metadata": {},
      "outputs": [],
      "source": "a = 1"
    },
    {
      "cell_type": "code",
      "execution_count": 2,
      "id": "b",
      "metadata": {},
      "outputs": [
        {
          "ename": "ZeroDivisionError",
          "evalue": "division by zero",
          "output_type": "error",
          "traceback": [
            "ZeroDivisionError: division by zero"
          ]
        }
      ],
      "source": "a // 0"
    },
    {
      "cell_type": "code",
      "execution_count": null,
      "id": "c",
      "metadata": {},
      "outputs": [],
      "source": "a = 2"
    }
  ],
  "metadata": {},
  "nbformat": 4,
  "nbformat_minor": 5
}
"#,
        r#"{"answer":"log","branches":[{"commit":2,"name":"main"}],"path":[{"cells":1,"commit":2,"line":"a // 0","parent":1},{"cells":1,"commit":1,"line":"a = 1","parent":0}]}
"#,
    ),
    // Together they are one commit.
    (
        &["S", "run", "--together"],
        r#"{"cells":[{"cell_type":"code","execution_count":null,"id":"a","metadata":{},"outputs":[],"source":"a = 1"},{"cell_type":"code","execution_count":null,"id":"b","metadata":{},"outputs":[],"source":"a // 0"},{"cell_type":"code","execution_count":null,"id":"c","metadata":{},"outputs":[],"source":"a = 2"}],"metadata":{},"nbformat":4,"nbformat_minor":5}"#,
        r#"{
  "cells": [
    {
      "cell_type": "code",
      "execution_count": 1,
      "id": "a",
      "metadata": {},
      "outputs": [],
      "source": "a = 1"
    },
    {
      "cell_type": "code",
      "execution_count": 2,
      "id": "b",
      "metadata": {},
      "outputs": [
        {
          "ename": "ZeroDivisionError",
          "evalue": "division by zero",
          "output_type": "error",
          "traceback": [
            "ZeroDivisionError: division by zero"
          ]
        }
      ],
      "source": "a // 0"
    },
    {
      "cell_type": "code",
      "execution_count": null,
      "id": "c",
      "metadata": {},
      "outputs": [],
      "source": "a = 2"
    }
  ],
  "metadata": {},
  "nbformat": 4,
  "nbformat_minor": 5
}
"#,
        r#"{"answer":"log","branches":[{"commit":1,"name":"main"}],"path":[{"cells":2,"commit":1,"line":"a = 1","parent":0}]}
"#,
    ),
    // The flag stands at any place.
    (
        &["--together", "S", "run"],
        r#"{"cells":[{"cell_type":"code","execution_count":null,"id":"a","metadata":{},"outputs":[],"source":"a = 1"},{"cell_type":"code","execution_count":null,"id":"b","metadata":{},"outputs":[],"source":"a // 0"},{"cell_type":"code","execution_count":null,"id":"c","metadata":{},"outputs":[],"source":"a = 2"}],"metadata":{},"nbformat":4,"nbformat_minor":5}"#,
        r#"{
  "cells": [
    {
      "cell_type": "code",
      "execution_count": 1,
      "id": "a",
      "metadata": {},
      "outputs": [],
      "source": "a = 1"
    },
    {
      "cell_type": "code",
      "execution_count": 2,
      "id": "b",
      "metadata": {},
      "outputs": [
        {
          "ename": "ZeroDivisionError",
          "evalue": "division by zero",
          "output_type": "error",
          "traceback": [
            "ZeroDivisionError: division by zero"
          ]
        }
      ],
      "source": "a // 0"
    },
    {
      "cell_type": "code",
      "execution_count": null,
      "id": "c",
      "metadata": {},
      "outputs": [],
      "source": "a = 2"
    }
  ],
  "metadata": {},
  "nbformat": 4,
  "nbformat_minor": 5
}
"#,
        r#"{"answer":"log","branches":[{"commit":1,"name":"main"}],"path":[{"cells":2,"commit":1,"line":"a = 1","parent":0}]}
"#,
    ),
    (
        &["S", "--together", "run"],
        r#"{"cells":[{"cell_type":"code","execution_count":null,"id":"a","metadata":{},"outputs":[],"source":"a = 1"},{"cell_type":"code","execution_count":null,"id":"b","metadata":{},"outputs":[],"source":"a // 0"},{"cell_type":"code","execution_count":null,"id":"c","metadata":{},"outputs":[],"source":"a = 2"}],"metadata":{},"nbformat":4,"nbformat_minor":5}"#,
        r#"{
  "cells": [
    {
      "cell_type": "code",
      "execution_count": 1,
      "id": "a",
      "metadata": {},
      "outputs": [],
      "source": "a = 1"
    },
    {
      "cell_type": "code",
      "execution_count": 2,
      "id": "b",
      "metadata": {},
      "outputs": [
        {
          "ename": "ZeroDivisionError",
          "evalue": "division by zero",
          "output_type": "error",
          "traceback": [
            "ZeroDivisionError: division by zero"
          ]
        }
      ],
      "source": "a // 0"
    },
    {
      "cell_type": "code",
      "execution_count": null,
      "id": "c",
      "metadata": {},
      "outputs": [],
      "source": "a = 2"
    }
  ],
  "metadata": {},
  "nbformat": 4,
  "nbformat_minor": 5
}
"#,
        r#"{"answer":"log","branches":[{"commit":1,"name":"main"}],"path":[{"cells":2,"commit":1,"line":"a = 1","parent":0}]}
"#,
    ),
    // A cell that leaves a state that is too large isn't kept, and no further cell is run.
    (
        &["S", "run"],
        r#"{"cells":[{"cell_type":"code","execution_count":null,"id":"a","metadata":{},"outputs":[],"source":"s = 'x' * 1000000"},{"cell_type":"code","execution_count":7,"id":"b","metadata":{},"outputs":[],"source":"a = [s] * 300"},{"cell_type":"code","execution_count":null,"id":"c","metadata":{},"outputs":[],"source":"1"}],"metadata":{},"nbformat":4,"nbformat_minor":5}"#,
        r#"{
  "cells": [
    {
      "cell_type": "code",
      "execution_count": 1,
      "id": "a",
      "metadata": {},
      "outputs": [],
      "source": "s = 'x' * 1000000"
    },
    {
      "cell_type": "code",
      "execution_count": null,
      "id": "b",
      "metadata": {},
      "outputs": [
        {
          "ename": "StateTooLarge",
          "evalue": "",
          "output_type": "error",
          "traceback": [
            "StateTooLarge: "
          ]
        }
      ],
      "source": "a = [s] * 300"
    },
    {
      "cell_type": "code",
      "execution_count": null,
      "id": "c",
      "metadata": {},
      "outputs": [],
      "source": "1"
    }
  ],
  "metadata": {},
  "nbformat": 4,
  "nbformat_minor": 5
}
"#,
        r#"{"answer":"log","branches":[{"commit":1,"name":"main"}],"path":[{"cells":1,"commit":1,"line":"s = 'x' * 1000000","parent":0}]}
"#,
    ),
    // Without code cells there is no commit.
    (
        &["S", "run"],
        r#"{"cells":[],"metadata":{},"nbformat":4,"nbformat_minor":5}"#,
        r#"{
  "cells": [],
  "metadata": {},
  "nbformat": 4,
  "nbformat_minor": 5
}
"#,
        r#"{"answer":"log","branches":[{"commit":0,"name":"main"}],"path":[]}
"#,
    ),
    (
        &["S", "run", "--together"],
        r#"{"cells":[{"cell_type":"raw","id":"r","metadata":{},"source":"a = 1"}],"metadata":{},"nbformat":4,"nbformat_minor":5}"#,
        r#"{
  "cells": [
    {
      "cell_type": "raw",
      "id": "r",
      "metadata": {},
      "source": "a = 1"
    }
  ],
  "metadata": {},
  "nbformat": 4,
  "nbformat_minor": 5
}
"#,
        r#"{"answer":"log","branches":[{"commit":0,"name":"main"}],"path":[]}
"#,
    ),
];

/// Whether words on this file are done, and this is put out.
fn put_out(
    alloc: Global,
    file: &[u8],
    words: &[&str],
    input: &str,
    want: &str,
) -> Result<bool, Fail> {
    let mut host = host_over(alloc, file, Vec::new(alloc), None)?.ok_or("room")?;
    let status = run_words(alloc, &mut host, words, input.as_bytes())?;
    Ok(status == Status::Done && host.out() == want.as_bytes())
}

/// Whether the run of a notebook on an empty store writes what its row says, and leaves its log.
fn is_written(alloc: Global, row: &(&[&str], &str, &str, &str)) -> Result<bool, Fail> {
    let (words, notebook, want, log) = row;
    let mut host = host_over(alloc, &[], Vec::new(alloc), None)?.ok_or("room")?;
    let status = run_words(alloc, &mut host, words, notebook.as_bytes())?;
    Ok(
        status == Status::Done
            && host.out() == want.as_bytes()
            && put_out(alloc, host.file(), &["S", "log"], "", log)?,
    )
}

#[test]
fn runs_notebooks(rt: HostRuntime) -> Result<(), Fail> {
    let alloc = rt.alloc();
    for row in &RUNS {
        assert!(rt; is_written(alloc, row)?, "{}", row.3);
    }
    Ok(())
}

/// What is no notebook that is run, and the reason.
const REFUSED: [(&str, &str); 9] = [
    ("", "not JSON"),
    ("{", "not JSON"),
    (r#"[]"#, "key nbformat"),
    (
        r#"{"cells":[],"metadata":{},"nbformat":3,"nbformat_minor":5}"#,
        "key nbformat",
    ),
    (
        r#"{"cells":[],"metadata":{},"nbformat":4}"#,
        "key nbformat_minor",
    ),
    (
        r#"{"cells":[],"metadata":{},"nbformat":4,"nbformat_minor":4}"#,
        "minor 4",
    ),
    (
        r#"{"cells":[{"cell_type":"code","execution_count":null,"id":"a","metadata":{},"outputs":[],"source":"print(1)"},{"cell_type":"code"}],"metadata":{},"nbformat":4,"nbformat_minor":5}"#,
        "cell 1",
    ),
    (
        r#"{"cells":[{"cell_type":"code","execution_count":null,"id":"a","metadata":{},"outputs":[],"source":"print(1)"},{"cell_type":"code","execution_count":null,"id":"a","metadata":{},"outputs":[],"source":"2"}],"metadata":{},"nbformat":4,"nbformat_minor":5}"#,
        "repeated id at cell 1",
    ),
    (
        r#"{"cells":[{"cell_type":"code","execution_count":null,"id":"a","metadata":{},"outputs":[],"source":"print(1)"}],"metadata":{"a":1.5},"nbformat":4,"nbformat_minor":5}"#,
        "a number is not whole",
    ),
];

/// Whether a status tells the refusal of a notebook for this reason.
fn is_refusal(alloc: Global, status: Status, reason: &str) -> Result<bool, AllocError> {
    let text = format!(in alloc; "notebook refused: {reason}")?;
    Ok(status.code() == 4 && status.text(alloc)?.as_str() == text.as_str())
}

/// Whether a notebook is refused for this reason, and no call of the host is made: each would fail.
fn is_refused(alloc: Global, words: &[&str], notebook: &str, reason: &str) -> Result<bool, Fail> {
    let mut host = host_over(alloc, &FIRST, Vec::new(alloc), Some(1))?.ok_or("room")?;
    let status = run_words(alloc, &mut host, words, notebook.as_bytes())?;
    Ok(is_refusal(alloc, status, reason)? && host.failed_disk() == 0 && host.out().is_empty())
}

#[test]
fn refuses_notebooks(rt: HostRuntime) -> Result<(), Fail> {
    let alloc = rt.alloc();
    for (notebook, reason) in &REFUSED {
        assert!(rt;
            is_refused(alloc, &["S", "run"], notebook, reason)?,
            "{notebook}"
        );
        assert!(rt;
            is_refused(alloc, &["S", "run", "--together"], notebook, reason)?,
            "{notebook}"
        );
    }
    Ok(())
}

/// A notebook of three cells, and what is left of it behind the first cells; and what is written of each.
const LEFT: [(&str, &str); 4] = [
    (
        r#"{"cells":[{"cell_type":"code","execution_count":null,"id":"a","metadata":{},"outputs":[],"source":"x = [1]"},{"cell_type":"code","execution_count":null,"id":"b","metadata":{},"outputs":[],"source":"x.append(len(x) + 1)"},{"cell_type":"code","execution_count":null,"id":"c","metadata":{},"outputs":[],"source":"x"}],"metadata":{},"nbformat":4,"nbformat_minor":5}"#,
        r#"{
  "cells": [
    {
      "cell_type": "code",
      "execution_count": 1,
      "id": "a",
      "metadata": {},
      "outputs": [],
      "source": "x = [1]"
    },
    {
      "cell_type": "code",
      "execution_count": 2,
      "id": "b",
      "metadata": {},
      "outputs": [],
      "source": "x.append(len(x) + 1)"
    },
    {
      "cell_type": "code",
      "execution_count": 3,
      "id": "c",
      "metadata": {},
      "outputs": [
        {
          "data": {
            "text/plain": "[1, 2]"
          },
          "execution_count": 3,
          "metadata": {},
          "output_type": "execute_result"
        }
      ],
      "source": "x"
    }
  ],
  "metadata": {},
  "nbformat": 4,
  "nbformat_minor": 5
}
"#,
    ),
    (
        r#"{"cells":[{"cell_type":"code","execution_count":null,"id":"b","metadata":{},"outputs":[],"source":"x.append(len(x) + 1)"},{"cell_type":"code","execution_count":null,"id":"c","metadata":{},"outputs":[],"source":"x"}],"metadata":{},"nbformat":4,"nbformat_minor":5}"#,
        r#"{
  "cells": [
    {
      "cell_type": "code",
      "execution_count": 2,
      "id": "b",
      "metadata": {},
      "outputs": [],
      "source": "x.append(len(x) + 1)"
    },
    {
      "cell_type": "code",
      "execution_count": 3,
      "id": "c",
      "metadata": {},
      "outputs": [
        {
          "data": {
            "text/plain": "[1, 2]"
          },
          "execution_count": 3,
          "metadata": {},
          "output_type": "execute_result"
        }
      ],
      "source": "x"
    }
  ],
  "metadata": {},
  "nbformat": 4,
  "nbformat_minor": 5
}
"#,
    ),
    (
        r#"{"cells":[{"cell_type":"code","execution_count":null,"id":"c","metadata":{},"outputs":[],"source":"x"}],"metadata":{},"nbformat":4,"nbformat_minor":5}"#,
        r#"{
  "cells": [
    {
      "cell_type": "code",
      "execution_count": 3,
      "id": "c",
      "metadata": {},
      "outputs": [
        {
          "data": {
            "text/plain": "[1, 2]"
          },
          "execution_count": 3,
          "metadata": {},
          "output_type": "execute_result"
        }
      ],
      "source": "x"
    }
  ],
  "metadata": {},
  "nbformat": 4,
  "nbformat_minor": 5
}
"#,
    ),
    (
        r#"{"cells":[],"metadata":{},"nbformat":4,"nbformat_minor":5}"#,
        r#"{
  "cells": [],
  "metadata": {},
  "nbformat": 4,
  "nbformat_minor": 5
}
"#,
    ),
];

/// The run of three cells with its n-th host call failing, or stopped there: each store that may be left holds the
/// first cells, all three where any of the notebook is out, and a run of the other cells goes on from there. Whether the
/// run came to its end.
fn goes_on(
    rt: &impl Abort,
    alloc: Global,
    fail: Vec<u64>,
    stop: Option<u64>,
) -> Result<bool, Fail> {
    let mut host = host_over(alloc, &[], fail, stop)?.ok_or("room")?;
    let status = run_words(alloc, &mut host, &["S", "run"], LEFT[0].0.as_bytes())?;
    let out = host.out();
    assert!(rt; LEFT[0].1.as_bytes().starts_with(out));
    assert!(rt; (status == Status::Done) == (out.len() == LEFT[0].1.len()));
    for fill in [0u8, 0xa5, 0xff] {
        let torn = host.torn_file(fill)?;
        let count = records(alloc, &torn)?.ok_or("not opened")?;
        assert!(rt; out.is_empty() || count == 3);
        let (rest, want) = LEFT.get(count).ok_or("more than three records")?;
        assert!(rt; put_out(alloc, &torn, &["S", "run"], rest, want)?);
    }
    Ok(status == Status::Done)
}

#[test]
fn each_call_of_a_notebook_run_stopped_and_failed(rt: HostRuntime) -> Result<(), Fail> {
    let alloc = rt.alloc();
    let mut whole = 0u64;
    for n in 1..60u64 {
        let stopped = goes_on(&rt, alloc, Vec::new(alloc), Some(n))?;
        let failed = goes_on(&rt, alloc, vec![in alloc; n]?, None)?;
        assert!(rt; stopped == failed);
        if stopped {
            whole = n;
            break;
        }
    }
    // Opening makes four calls over an empty file, each of three records four; the last cell reads the picture of the
    // list, which it leaves as it is, by one; and the notebook is put out by one.
    assert!(rt; whole == 19);
    Ok(())
}
