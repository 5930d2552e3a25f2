// Functions in texts, with their codes: the text and the code, with \x1f between, and \x1e behind each row.
pub(crate) const COUNT: usize = 22;

pub(crate) const ROWS: &str = "\
    def f(): pass\n\x1fdef f(): pass\x1e\
    if a:\n    def f():\n        b\n        return c\n    d\n\x1fdef f():\n        b\n        return c\x1e\
    if a:\n  def f(): pass\n  b\n\x1fdef f(): pass\x1e\
    if a:\n  def f():\n# c\n\n    b\n # c\n    c\n\n# d\n  d\n\x1fdef f():\n# c\n\n    b\n # c\n    c\x1e\
    def f(a,\n  b=[1,\n2],\n):\n  return (a,\nb\n      )\nc\n\x1fdef f(a,\n  b=[1,\n2],\n):\n  return (a,\nb\n      )\x1e\
    if x:\n  def f(): \\\n return 1\n\x1fdef f(): \\\n return 1\x1e\
    if x:\n  def f():\n      a = 1 + \\\n  2\n      return a\n  y\n\x1fdef f():\n      a = 1 + \\\n  2\n      return a\x1e\
    if x:\n  def f():\n    s = '''a\n b\n'''\n    return s + \"\"\"\n\"\"\"\ny\n\x1fdef f():\n    s = '''a\n b\n'''\n    return s + \"\"\"\n\"\"\"\x1e\
    def f(): a; b;  # c\nd\n\x1fdef f(): a; b;\x1e\
    def f():\n  a # b\n  # c\n # d\n\x1fdef f():\n  a\x1e\
    def f():\r\n  a\r  b\r\nc\r\n\x1fdef f():\n  a\n  b\x1e\
    if a:\n\tdef f():\n\t\tb\n\t\tif c:\n\t\t\td\n\t\telse: e\n\x1fdef f():\n\t\tb\n\t\tif c:\n\t\t\td\n\t\telse: e\x1e\
    for a in b:\n  while c:\n    def f():\n     if d:\n      e\n     return e\n    break\n\x1fdef f():\n     if d:\n      e\n     return e\x1e\
    try:\n  def f():\n    raise a\nexcept A:\n  def g(): pass\nelse: b\n\x1fdef f():\n    raise a\x1e\
    try:\n  def f():\n    raise a\nexcept A:\n  def g(): pass\nelse: b\n\x1fdef g(): pass\x1e\
    def f():\n  return 0x1F\x1fdef f():\n  return 0x1F\x1e\
    def f():\n  return 'a' 'b'\n\n\n\x1fdef f():\n  return 'a' 'b'\x1e\
    def f(): return a\\\n\nb\n\x1fdef f(): return a\x1e\
    if a:\n  \\\n  def f():\n    b\n\x1fdef f():\n    b\x1e\
    if a:\n  def f():\n   if b:\n     c\n   elif d: e\n   else:\n     try: g\n     finally: h\n  i\n\x1fdef f():\n   if b:\n     c\n   elif d: e\n   else:\n     try: g\n     finally: h\x1e\
    a = '\u{fc}'\nif a:\n  def f(): return '\u{e9}' # \u{fc}\nb\n\x1fdef f(): return '\u{e9}'\x1e\
    def f(a=(1,)): # c\n\n  # c\n  return {a: [\n1]}[0\n]; pass ;\n\x1fdef f(a=(1,)): # c\n\n  # c\n  return {a: [\n1]}[0\n]; pass ;\x1e\
    ";
