// A user with a notebook: it is run, and its session is gone on with, as the README shows it.
use super::host_over;
use super::sessions::run_words;
use kishu_serve::Status;
use std::test::Fail;

/// Words, an input, and what is put out, one after another on one store.
const STEPS: [(&[&str], &str, &str); 8] = [
    (
        &["S", "run"],
        r##"{
 "cells": [
  {
   "cell_type": "markdown",
   "id": "title",
   "metadata": {},
   "source": [
    "# Sales"
   ]
  },
  {
   "cell_type": "code",
   "execution_count": null,
   "id": "rows",
   "metadata": {},
   "outputs": [],
   "source": [
    "sales = [3, 4, 5]"
   ]
  },
  {
   "cell_type": "code",
   "execution_count": null,
   "id": "sum",
   "metadata": {},
   "outputs": [],
   "source": [
    "total = 0\n",
    "for n in sales:\n",
    "    total += n\n",
    "total"
   ]
  },
  {
   "cell_type": "code",
   "execution_count": null,
   "id": "late",
   "metadata": {},
   "outputs": [],
   "source": [
    "sales.append(8)"
   ]
  }
 ],
 "metadata": {
  "kernelspec": {
   "display_name": "Python 3 (ipykernel)",
   "language": "python",
   "name": "python3"
  }
 },
 "nbformat": 4,
 "nbformat_minor": 5
}
"##,
        r##"{
  "cells": [
    {
      "cell_type": "markdown",
      "id": "title",
      "metadata": {},
      "source": [
        "# Sales"
      ]
    },
    {
      "cell_type": "code",
      "execution_count": 1,
      "id": "rows",
      "metadata": {},
      "outputs": [],
      "source": [
        "sales = [3, 4, 5]"
      ]
    },
    {
      "cell_type": "code",
      "execution_count": 2,
      "id": "sum",
      "metadata": {},
      "outputs": [
        {
          "data": {
            "text/plain": "12"
          },
          "execution_count": 2,
          "metadata": {},
          "output_type": "execute_result"
        }
      ],
      "source": [
        "total = 0\n",
        "for n in sales:\n",
        "    total += n\n",
        "total"
      ]
    },
    {
      "cell_type": "code",
      "execution_count": 3,
      "id": "late",
      "metadata": {},
      "outputs": [],
      "source": [
        "sales.append(8)"
      ]
    }
  ],
  "metadata": {
    "kernelspec": {
      "display_name": "Python 3 (ipykernel)",
      "language": "python",
      "name": "python3"
    }
  },
  "nbformat": 4,
  "nbformat_minor": 5
}
"##,
    ),
    (
        &["S", "log"],
        "",
        r#"{"answer":"log","branches":[{"commit":3,"name":"main"}],"path":[{"cells":1,"commit":3,"line":"sales.append(8)","parent":2},{"cells":1,"commit":2,"line":"total = 0","parent":1},{"cells":1,"commit":1,"line":"sales = [3, 4, 5]","parent":0}]}
"#,
    ),
    (
        &["S", "status"],
        "",
        r#"{"answer":"status","branch":"main","commit":3,"commits":4,"names":["n","sales","total"],"records":3}
"#,
    ),
    (
        &["S", "branch", "try", "2"],
        "",
        r#"{"answer":"branch","commit":2,"name":"try"}
"#,
    ),
    (
        &["S", "checkout", "try"],
        "",
        r#"{"answer":"checkout","commit":2,"head":"try"}
"#,
    ),
    (
        &["S", "cell"],
        "sales.append(0); print(sales)\n",
        r#"{"answer":"cell","commit":4,"count":3,"outcome":"ok","outputs":[{"name":"stdout","output_type":"stream","text":"[3, 4, 5, 0]\n"}]}
"#,
    ),
    (
        &["S", "checkout", "main"],
        "",
        r#"{"answer":"checkout","commit":3,"head":"main"}
"#,
    ),
    (
        &["S", "cell"],
        "print(sales)\n",
        r#"{"answer":"cell","commit":5,"count":4,"outcome":"ok","outputs":[{"name":"stdout","output_type":"stream","text":"[3, 4, 5, 8]\n"}]}
"#,
    ),
];

#[test]
fn a_user_with_a_notebook(rt: HostRuntime) -> Result<(), Fail> {
    let alloc = rt.alloc();
    let mut file = Vec::new(alloc);
    for (words, input, want) in &STEPS {
        let mut host = host_over(alloc, &file, Vec::new(alloc), None)?.ok_or("room")?;
        let status = run_words(alloc, &mut host, words, input.as_bytes())?;
        assert!(rt; status == Status::Done);
        assert!(rt; host.out() == want.as_bytes());
        file = host.file().to_vec(alloc)?;
    }
    Ok(())
}
