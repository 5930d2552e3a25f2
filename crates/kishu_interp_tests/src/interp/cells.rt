// Made by tools/cells/cells.py: how a cell ended and what it shows, and its text, with \x1f between, and \x1e
// behind each row. What was printed stands in `<` and `>`.
pub(crate) const COUNT: usize = 735;

// Of these so many spend their steps.
pub(crate) const SPENT: usize = 21;

pub(crate) const ROWS: &str = "\
    ok\x1f\x1e\
    ok\x1fpass\x1e\
    ok\x1f# nothing\n\n\x1e\
    ok 1\x1f1\x1e\
    ok -7\x1f-7\x1e\
    ok\x1fNone\x1e\
    ok False\x1fTrue; False\x1e\
    ok 1\x1f1;\x1e\
    ok 2\x1f1; 2\x1e\
    ok 1\x1fx = 1; x;\x1e\
    ok 1\x1fx = 1 # c\nx\x1e\
    ok 1\x1f((1))\x1e\
    ok 'a'\x1f'a'\x1e\
    ok \"it's\"\x1f\"it's\"\x1e\
    ok '\"'\x1f'\"'\x1e\
    ok '\\'\"'\x1f'\\'\"'\x1e\
    ok 'a\\tb\\n\\r\\\\'\x1f'a\\tb\\n\\r\\\\'\x1e\
    ok '\\x00\\x1f\\x7f'\x1f'\\0\\x1f\\x7f'\x1e\
    ok '\\\\n'\x1fr'\\n'\x1e\
    ok 'ab'\x1f'a' \"b\"\x1e\
    ok 'a\\nb'\x1f'''a\nb'''\x1e\
    ok 'A\u{e9}'\x1f'\\x41\\u00e9'\x1e\
    ok '\u{e9}\u{1f600}'\x1f'\u{e9}\u{1f600}'\x1e\
    ok 273\x1f0xff + 0o17 + 0b11\x1e\
    ok 1000\x1f1_000\x1e\
    ok <3\n>\x1fprint(1 + 2)\x1e\
    ok <5\n>\x1fx = 2\nprint(x * x + 1)\x1e\
    error NameError: name 'z' is not defined\x1fprint(z)\x1e\
    ok <\n>\x1fprint()\x1e\
    ok <\n>\x1fprint('')\x1e\
    ok <1\nNone\n>\x1fprint(print(1))\x1e\
    ok <None True False 0 -5 x\n>\x1fprint(None, True, False, 0, -5, 'x')\x1e\
    ok <a\tb \\\n>\x1fprint('a\\tb', '\\\\')\x1e\
    ok <\u{e9}\u{e9}\n>\x1fprint('\u{e9}' * 2)\x1e\
    ok <1\n2\n> 3\x1fprint(1)\nprint(2)\n3\x1e\
    error <x\n> ZeroDivisionError: division by zero\x1fprint('x'); 1 // 0; print('y')\x1e\
    ok 6\x1f1 + 2 * 3 - 4 // 3 % 2\x1e\
    ok 9\x1f(1 + 2) * 3\x1e\
    ok <-4 1\n>\x1fprint(-7 // 2, -7 % 2)\x1e\
    ok <-4 -1 3 -1\n>\x1fprint(7 // -2, 7 % -2, -7 // -2, -7 % -2)\x1e\
    ok <0 0\n>\x1fprint(0 // 5, 0 % -5)\x1e\
    ok <1024 1 -4 -8 512\n>\x1fprint(2 ** 10, 0 ** 0, -2 ** 2, (-2) ** 3, 2 ** 3 ** 2)\x1e\
    ok <2 3 -1 0 1\n>\x1fprint(True + True, True * 3, -True, +False, True ** 2)\x1e\
    ok -170141183460469231731687303715884105728\x1f-2 ** 126 * 2\x1e\
    ok 170141183460469231731687303715884105727\x1f170141183460469231731687303715884105727\x1e\
    error ZeroDivisionError: division by zero\x1f1 // 0\x1e\
    error ZeroDivisionError: division by zero\x1f1 % 0\x1e\
    error ZeroDivisionError: division by zero\x1f0 // False\x1e\
    ok 'ab'\x1f'a' + 'b'\x1e\
    ok 'ababab'\x1f'ab' * 3\x1e\
    ok 'ababab'\x1f3 * 'ab'\x1e\
    ok < ab  \n>\x1fprint('ab' * -1, 'ab' * True, False * 'ab', '' * 10)\x1e\
    error TypeError: bad operand types for +: 'str' and 'int'\x1f'a' + 1\x1e\
    error TypeError: bad operand types for +: 'int' and 'str'\x1f1 + 'a'\x1e\
    error TypeError: bad operand types for -: 'str' and 'str'\x1f'a' - 'b'\x1e\
    error TypeError: bad operand types for +: 'NoneType' and 'int'\x1fNone + 1\x1e\
    error TypeError: bad operand types for *: 'str' and 'str'\x1f'a' * 'b'\x1e\
    error TypeError: bad operand types for *: 'NoneType' and 'int'\x1fNone * 2\x1e\
    error TypeError: bad operand types for //: 'str' and 'int'\x1f'a' // 2\x1e\
    error TypeError: bad operand types for %: 'str' and 'int'\x1f'a' % 1\x1e\
    error TypeError: bad operand types for **: 'int' and 'str'\x1f1 ** 'a'\x1e\
    error TypeError: bad operand types for %: 'int' and 'NoneType'\x1f1 % None\x1e\
    error TypeError: bad operand type for -: 'str'\x1f-'a'\x1e\
    error TypeError: bad operand type for +: 'NoneType'\x1f+None\x1e\
    error TypeError: bad operand types for <: 'int' and 'str'\x1f1 < 'a'\x1e\
    error TypeError: bad operand types for <: 'NoneType' and 'int'\x1fNone < 1\x1e\
    error TypeError: bad operand types for >=: 'str' and 'int'\x1f'a' >= 2\x1e\
    error TypeError: bad operand types for >: 'NoneType' and 'NoneType'\x1fNone > None\x1e\
    error TypeError: bad operand types for <=: 'int' and 'NoneType'\x1f1 <= None\x1e\
    error TypeError: bad operand types for in: 'int' and 'str'\x1f1 in 'a'\x1e\
    error TypeError: bad operand types for not in: 'NoneType' and 'str'\x1fNone not in 'a'\x1e\
    error TypeError: 'int' object is not iterable\x1f'a' in 1\x1e\
    error TypeError: 'NoneType' object is not iterable\x1f'a' not in None\x1e\
    ok <True False True False\n>\x1fprint(1 < 2 < 3, 3 > 2 > 2, 1 <= 1, 2 >= 3)\x1e\
    ok <True False True True True False True\n>\x1fprint(1 == True, 1 is True, 1 != 2, None is None, None == None, 'a' == 1, None != 0)\x1e\
    ok <True True True True False\n>\x1fprint('a' < 'b', 'ab' < 'abc', 'b' > 'abc', '' <= '', 'a' >= 'b')\x1e\
    ok <True True\n>\x1fprint('ab' == 'ab', 'ab' != 'abc')\x1e\
    ok True\x1f'\u{e9}' < '\u{1f600}'\x1e\
    ok <True True True False\n>\x1fprint('an' in 'banana', '' in '', 'x' not in 'abc', 'abcd' in 'abc')\x1e\
    ok False\x1f1 < 2 == True\x1e\
    ok True\x1f(1 < 2) == True\x1e\
    ok <False False False True False False False\n>\x1fprint(1 is 2, True is False, 'a' is 'ab', 1 is not 2, None is 0, 'a' is 1, 0 is False)\x1e\
    ok <True True False False True False False True\n>\x1fprint(2 >= 2, 2 <= 2, 2 > 2, 2 < 2, 'b' >= 'b', 'b' > 'b', 1 != True, 0 == False)\x1e\
    ok <False False True False False False\n>\x1fprint(1 == 2, True == False, 0 == False, 1 == 'a', None == 0, '' == None)\x1e\
    ok <1\n2\n3\n> False\x1fprint(1) == print(2) != print(3)\x1e\
    ok False\x1f1 > 2 > print(3)\x1e\
    error TypeError: bad operand types for <: 'int' and 'str'\x1f1 < 2 < 'a'\x1e\
    ok True\x1f1 is 1 is not None\x1e\
    ok 'a'\x1f0 or 'a'\x1e\
    ok ''\x1f'' and 1\x1e\
    ok 3\x1f1 and 2 and 3\x1e\
    ok ''\x1f0 or None or ''\x1e\
    ok 0\x1f1 and 0 and print(1)\x1e\
    ok 1\x1f1 or print(2)\x1e\
    ok 'b'\x1f(0 or 1) and 'b'\x1e\
    error NameError: name 'x' is not defined\x1f0 or x\x1e\
    ok True\x1fnot 0\x1e\
    ok False\x1fnot 'a'\x1e\
    ok False\x1fnot not None\x1e\
    ok False\x1fnot -0 == 0\x1e\
    ok 1\x1f1 if 'x' else 2\x1e\
    ok 'no'\x1fprint(1) if 0 else 'no'\x1e\
    ok 3\x1f1 if 0 else 2 if '' else 3\x1e\
    ok 8\x1fx = -(1 if None else -(2)) ** (0 or 3)\nx\x1e\
    error NameError: name 'x' is not defined\x1fx if 1 else 2\x1e\
    ok 'qq'\x1fa = b = 'q'\na + b\x1e\
    ok 3\x1fx = 5; x -= 2; x *= 4; x //= 5; x **= 3; x %= 5\nx\x1e\
    ok 'abab'\x1fx = 'a'\nx += 'b'\nx *= 2\nx\x1e\
    error TypeError: bad operand types for +: 'int' and 'str'\x1fx = 1\nx += 'a'\x1e\
    error NameError: name 'y' is not defined\x1fy += 1 // 0\x1e\
    error NameError: name 'y' is not defined\x1fx = 1\nx += y\x1e\
    error ZeroDivisionError: division by zero\x1fa = 1 // 0\x1e\
    error NameError: name 'b' is not defined\x1fa = 1\na = b\x1e\
    error ZeroDivisionError: division by zero\x1fn = 1; m = 1 // 0; n = 2\x1e\
    error ZeroDivisionError: division by zero\x1fx = 1; x // 0\x1e\
    ok 0\x1f_a1 = Zz = 0; _a1\x1e\
    ok True\x1fx = None; y = not x; z = '\u{e9}'; y\x1e\
    ok\x1fb = a = 0; B = a; a_ = B\x1e\
    ok 1\x1f(a) = 1; a\x1e\
    ok <3 3 3\n>\x1f(a) = (b) = c = 3; print(a, b, c)\x1e\
    ok 2\x1f((a)) = 1\n(a) = a + 1\na\x1e\
    ok <1\n>\x1f(print)(1)\x1e\
    ok <2 x\n>\x1f((print))((2), 'x')\x1e\
    error NameError: name 'y' is not defined\x1f((x)) = (y)\x1e\
    ok\x1fx = 3\nif x > 2: 'big'\x1e\
    ok <3\n>\x1fif 0: print(1)\nelif '': print(2)\nelif 1: print(3)\nelse: print(4)\x1e\
    ok <else\n>\x1fif None: pass\nelse: print('else')\x1e\
    ok\x1fif 0: x = 1\nelif None: x = 2\x1e\
    ok <2\n> 5\x1fif 1:\n  if '':\n    print(1)\n  else:\n    print(2)\n  x = 5\nx\x1e\
    error NameError: name 'y' is not defined\x1fif y: pass\x1e\
    ok False\x1fif 0 or 1: x = not 1\nx\x1e\
    ok <3\n2\n1\n>\x1fn = 3\nwhile n: print(n); n -= 1\x1e\
    ok\x1fwhile 0: print(1)\x1e\
    error NameError: name 'x' is not defined\x1fwhile x: pass\x1e\
    ok <1\n3\n> 4\x1fn = 0\nwhile True:\n  n += 1\n  if n == 2: continue\n  if n == 4: break\n  print(n)\nn\x1e\
    ok <0 1\n1 2\n>\x1fi = 0\nwhile i < 2:\n  j = 0\n  while True:\n    j += 1\n    if j > i: break\n  print(i, j)\n  i += 1\x1e\
    error ZeroDivisionError: division by zero\x1fn = 3\nwhile n:\n  n -= 1\n  n // (n - 1)\x1e\
    error OverflowError: whole number too large\x1f2 ** 127\x1e\
    error OverflowError: whole number too large\x1f170141183460469231731687303715884105727 + 1\x1e\
    error OverflowError: whole number too large\x1f-170141183460469231731687303715884105727 - 2\x1e\
    error OverflowError: whole number too large\x1fx = -2 ** 126 * 2; x // -1\x1e\
    error OverflowError: whole number too large\x1fx = -2 ** 126 * 2; -x\x1e\
    error ValueError: negative power\x1f2 ** -1\x1e\
    error ValueError: negative power\x1f0 ** -1\x1e\
    ok True\x1fx = 'ab'; x is 'a' 'b'\x1e\
    ok True\x1f'a' is not 'b'\x1e\
    ok <1\n2\n>\x1fprint(1)\r\nprint(2)\r\x1e\
    ok <a\nb\n>\x1fprint('''a\r\nb''')\x1e\
    stopped Stopped: step budget spent\x1fn = 0\nwhile True: n += 1\x1e\
    stopped <before\n> Stopped: step budget spent\x1fprint('before')\nwhile True: pass\x1e\
    stopped Stopped: step budget spent\x1fx = 'a' * 4000000\x1e\
    ok\x1fx = 'a' * 3999996\x1e\
    stopped Stopped: step budget spent\x1fx = 'a' * 3999997\x1e\
    stopped <one\n> Stopped: step budget spent\x1fx = 'a' * 2000000\nprint('one')\nprint(x)\x1e\
    stopped Stopped: step budget spent\x1f'a' * 1999999\x1e\
    stopped Stopped: step budget spent\x1f'a' * 170141183460469231731687303715884105727\x1e\
    stopped Stopped: step budget spent\x1f('b' * 2000) in 'b' * 2000\x1e\
    error SyntaxError: invalid syntax, line 1\x1f170141183460469231731687303715884105728\x1e\
    error SyntaxError: invalid syntax, line 2\x1fx = 1\nif x:\n    y = \x1e\
    error SyntaxError: invalid syntax, line 1\x1f'abc\x1e\
    error SyntaxError: invalid syntax, line 1\x1fa = = 1\x1e\
    error SyntaxError: invalid syntax, line 3\x1fpass\n\nx = (1\x1e\
    error SyntaxError: invalid syntax, line 1\x1fx\n  y\nz\x1e\
    error SyntaxError: invalid syntax, line 2\x1fprint('no')\nbreak\x1e\
    error SyntaxError: invalid syntax, line 1\x1fx = 01\x1e\
    error SyntaxError: invalid syntax, line 1\x1fwhile 1:\npass\x1e\
    error SyntaxError: invalid syntax, line 1\x1fx = 1 $ 2\x1e\
    error SyntaxError: invalid syntax, line 3\x1f\n\nx = 1 +\n\x1e\
    error SyntaxError: invalid syntax, line 1\x1fif 1: pass\nelse pass\x1e\
    ok []\x1f[]\x1e\
    ok ()\x1f()\x1e\
    ok {}\x1f{}\x1e\
    ok [1, 'a', None]\x1f[1, 'a', None]\x1e\
    ok (1,)\x1f(1,)\x1e\
    ok (1, 2)\x1f1, 2\x1e\
    ok (1,)\x1fx = 1,\nx\x1e\
    ok ([[1], [2]], ())\x1f[[1], [2]], ()\x1e\
    ok {1: 'b'}\x1f{1: 'a', True: 'b'}\x1e\
    ok <{1: 'b'}\n>\x1fd = {1: 'a', True: 'b'}; print(d)\x1e\
    ok {'k': [1], (1, 'a'): {}}\x1f{'k': [1], (1, 'a'): {}}\x1e\
    ok {None: 0, 'a': 1, 2: 3, (): 4}\x1f{None: 0, 'a': 1, 2: 3, (): 4}\x1e\
    error TypeError: unhashable key: 'list'\x1f{[]: 1}\x1e\
    error TypeError: unhashable key: 'dict'\x1f{{}: 1}\x1e\
    error TypeError: unhashable key: 'list'\x1f{(1, []): 1}\x1e\
    error NameError: name 'x' is not defined\x1f{1: x}\x1e\
    error NameError: name 'x' is not defined\x1f[1, x]\x1e\
    error <1\n3\n> TypeError: unhashable key: 'list'\x1fx = {[]: print(1), 2: print(3)}\x1e\
    error <3\n> KeyError: None\x1f{1: 2}[print(3)]\x1e\
    ok [[...]]\x1fa = []; a.append(a); a\x1e\
    ok <1\n2\n3\n4\n[None, None] {None: None}\n>\x1fprint([print(1), print(2)], {print(3): print(4)})\x1e\
    ok <[1, 2] True False\n>\x1fa = [1]; b = a; b.append(2); print(a, a is b, [1] is [1])\x1e\
    ok <[[1], [1]] True False\n>\x1fa = []; b = [a, a]; b[0].append(1); print(b, b[0] is b[1], a is not b[0])\x1e\
    ok True\x1fd = {}; d is {} or d is d\x1e\
    ok True\x1fa = (1, 2); b = a; a is b\x1e\
    ok <False False False\n>\x1fprint([] is None, None is [], 1 is [1])\x1e\
    ok 'none'\x1f[] or () or {} or 'none'\x1e\
    ok 'all'\x1f[0] and (0,) and {0: 0} and 'all'\x1e\
    ok 2\x1fx = 1 if [] else 2\nx\x1e\
    ok False\x1fnot [[]]\x1e\
    ok 1\x1f[1, 2, 3][0]\x1e\
    ok 3\x1f[1, 2, 3][-1]\x1e\
    ok 2\x1f(1, 2)[True]\x1e\
    ok 'b'\x1f'abc'[1]\x1e\
    ok 'a'\x1f'abc'[-3]\x1e\
    ok 1\x1f{'a': 1}['a']\x1e\
    ok 2\x1f{1: 2}[True]\x1e\
    ok 3\x1f{(1, 2): 3}[1, 2]\x1e\
    ok 2\x1f[[1, 2], [3]][0][1]\x1e\
    ok '\u{1f600}'\x1f'\u{e9}\u{1f600}'[1]\x1e\
    error IndexError: index out of range\x1f[1][1]\x1e\
    error IndexError: index out of range\x1f[1][-2]\x1e\
    error IndexError: index out of range\x1f()[0]\x1e\
    error IndexError: index out of range\x1f''[0]\x1e\
    error KeyError: 'k'\x1f{}['k']\x1e\
    error KeyError: (1,)\x1f{1: 2}[(1,)]\x1e\
    error TypeError: unhashable key: 'list'\x1f{}[[]]\x1e\
    error TypeError: bad index type: 'str'\x1f[1]['a']\x1e\
    error TypeError: bad index type: 'NoneType'\x1f[1][None]\x1e\
    error TypeError: bad index type: 'str'\x1f'a'['b']\x1e\
    error TypeError: 'int' object is not subscriptable\x1f1[0]\x1e\
    error TypeError: 'NoneType' object is not subscriptable\x1fNone[0]\x1e\
    error TypeError: 'bool' object is not subscriptable\x1f(1 < 2)[0]\x1e\
    error ZeroDivisionError: division by zero\x1fx = [1]\nx[1 // 0]\x1e\
    error NameError: name 'y' is not defined\x1fx = {}\nx[y]\x1e\
    ok [2, 3]\x1f[1, 2, 3, 4][1:3]\x1e\
    ok ([1, 2], [3, 4], [1, 2])\x1f[1, 2, 3, 4][:2], [1, 2, 3, 4][2:], [1, 2][:]\x1e\
    ok <fdb [2, 3]\n>\x1fprint('abcdef'[::-2], [1, 2, 3, 4][-3:-1])\x1e\
    ok [3, 2, 1]\x1f[1, 2, 3][::-1]\x1e\
    ok ((2, 3), (), (1, 2))\x1f(1, 2, 3)[1:], (1, 2)[5:], (1, 2)[-9:9]\x1e\
    ok 'dcb'\x1f'abcde'[3:0:-1]\x1e\
    ok 'ec'\x1f'abcde'[-1:-4:-2]\x1e\
    ok [1, 2, 3]\x1f[1, 2, 3][None:None:None]\x1e\
    ok []\x1f[1, 2, 3][2:1]\x1e\
    ok 'b'\x1f'abc'[1:-1:2]\x1e\
    ok [4, 2]\x1f[1, 2, 3, 4, 5][-2::-2]\x1e\
    ok [2, 1]\x1f[1, 2][10:-10:-1]\x1e\
    ok 'a'\x1f'ab'[::100]\x1e\
    ok False\x1fa = [1]; a[:] is a\x1e\
    error ValueError: step is zero\x1f[1][::0]\x1e\
    error TypeError: bad index type: 'str'\x1f[1]['a':]\x1e\
    error TypeError: bad index type: 'str'\x1f[1][:'b']\x1e\
    error TypeError: bad index type: 'str'\x1f[1][::'c']\x1e\
    error TypeError: bad index type: 'str'\x1f[1]['a'::0]\x1e\
    error TypeError: 'int' object is not subscriptable\x1f1[1:2]\x1e\
    error TypeError: 'dict' object is not subscriptable\x1f{}[1:2]\x1e\
    error NameError: name 'x' is not defined\x1f[1][x:]\x1e\
    ok namespace(a=1, b=[namespace(...)])\x1ffrom types import SimpleNamespace\no = SimpleNamespace(a=1); o.b = [o]; o\x1e\
    ok namespace(y=1)\x1ffrom types import SimpleNamespace\no = SimpleNamespace(); o.x = 1; o.y = o.x; del o.x; o\x1e\
    ok 3\x1ffrom types import SimpleNamespace\no = SimpleNamespace(a=1); o.a += 2; o.a\x1e\
    ok 2\x1ffrom types import SimpleNamespace\nSimpleNamespace(a=1, b=[2]).b[0]\x1e\
    error AttributeError: 'SimpleNamespace' object has no attribute 'a'\x1ffrom types import SimpleNamespace\nSimpleNamespace().a\x1e\
    error AttributeError: 'SimpleNamespace' object has no attribute 'a'\x1ffrom types import SimpleNamespace\no = SimpleNamespace(); del o.a\x1e\
    ok namespace(b=[1])\x1ffrom types import SimpleNamespace\no = SimpleNamespace(a=[]); o.a.append(1); o.f = SimpleNamespace; o.f(b=o.a)\x1e\
    error TypeError: SimpleNamespace() got bad arguments\x1ffrom types import SimpleNamespace\nSimpleNamespace(1)\x1e\
    ok namespace()\x1ffrom types import SimpleNamespace\no = SimpleNamespace(keys=SimpleNamespace); o.keys()\x1e\
    error AttributeError: 'SimpleNamespace' object has no attribute 'keys'\x1ffrom types import SimpleNamespace\no = SimpleNamespace(); o.keys()\x1e\
    ok namespace(a=namespace(b=1))\x1ffrom types import SimpleNamespace as S\no = S(a=S()); o.a.b = 1; o\x1e\
    ok (True, False)\x1ffrom types import SimpleNamespace\nx = SimpleNamespace(a=1) == SimpleNamespace(a=1), SimpleNamespace(a=1) == SimpleNamespace(b=1); x\x1e\
    error AttributeError: 'list' object has no attribute 'a'\x1f[].a\x1e\
    error AttributeError: 'int' object has no attribute 'a'\x1fx = 1\nx.a = 2\x1e\
    error AttributeError: 'str' object has no attribute 'b'\x1f'a'.b\x1e\
    error NameError: name 'x' is not defined\x1f(1).a = x\x1e\
    error AttributeError: 'list' object has no attribute 'x'\x1f[1].x = 2\x1e\
    error AttributeError: 'list' object has no attribute 'x'\x1fdel [1].x\x1e\
    error AttributeError: 'NoneType' object has no attribute 'a'\x1fNone.a.b\x1e\
    ok [1, 2, None]\x1fa = [1]; a.append(a.append(2)); a\x1e\
    error AttributeError: 'list' object has no attribute 'foo'\x1f[].foo()\x1e\
    ok\x1fx = [].append(1)\nx\x1e\
    error TypeError: append() got bad arguments\x1f[].append(1, 2)\x1e\
    error AttributeError: 'list' object has no attribute 'foo'\x1f[].foo(print(1))\x1e\
    error AttributeError: 'int' object has no attribute 'append'\x1f(1).append(2)\x1e\
    ok [3, 4]\x1fa = [3]; (a.append)(4); a\x1e\
    ok <2 [1]\n>\x1fa = [1, 2]; print(a.pop(), a)\x1e\
    error IndexError: pop from empty list\x1f[].pop()\x1e\
    ok {'k': 2, 'j': 3}\x1fd = {'k': 1}; d.update({'k': 2, 'j': 3}); d\x1e\
    ok <2 None 4\n>\x1fd = {1: 2}; print(d.get(1), d.get(3), d.get(3, 4))\x1e\
    error TypeError: unhashable key: 'list'\x1f{}.get([])\x1e\
    error TypeError: append() got bad arguments\x1f[].append(x=1)\x1e\
    error TypeError: 'int' object is not callable\x1f1()\x1e\
    error TypeError: 'list' object is not callable\x1f[](2)\x1e\
    error <2\n> TypeError: 'int' object is not callable\x1fx = 1\nx(print(2))\x1e\
    error NameError: name 'y' is not defined\x1fNone(y)\x1e\
    ok [1, 2, 3]\x1f[1] + [2, 3]\x1e\
    ok (1, 2)\x1f(1,) + (2,)\x1e\
    ok False\x1fa = [1]; b = a + []; b is a\x1e\
    ok [1, 2, 1, 2]\x1f[1, 2] * 2\x1e\
    ok (1, 2, 1, 2)\x1f2 * (1, 2)\x1e\
    ok ([], (), [0])\x1f[1] * -1, () * 3, [0] * True\x1e\
    error TypeError: bad operand types for +: 'list' and 'tuple'\x1f[1] + (2,)\x1e\
    error TypeError: bad operand types for +: 'list' and 'int'\x1f[1] + 1\x1e\
    error TypeError: bad operand types for +: 'int' and 'list'\x1f1 + [1]\x1e\
    error TypeError: bad operand types for -: 'tuple' and 'tuple'\x1f(1,) - (1,)\x1e\
    error TypeError: bad operand types for *: 'list' and 'list'\x1f[1] * [1]\x1e\
    error TypeError: bad operand types for +: 'dict' and 'dict'\x1f{} + {}\x1e\
    error TypeError: bad operand types for *: 'str' and 'list'\x1f'a' * []\x1e\
    error TypeError: bad operand type for -: 'list'\x1f-[1]\x1e\
    ok True\x1fnot {}\x1e\
    ok [[1], [1]]\x1fa = [[]] * 2; a[0].append(1); a\x1e\
    ok (True, True, False, True)\x1f[1, 2] == [1, 2], (1,) == (1,), [1] == (1,), {1: 2} == {True: 2}\x1e\
    ok <True True True\n>\x1fprint((1, 2) < (1, 3), [1] == [True], {1: 2} == {True: 2})\x1e\
    ok (True, True, True, True)\x1f[1, 'a'] < [1, 'b'], [] < [0], [1] <= [1], (2,) > (1, 5)\x1e\
    error TypeError: bad operand types for <: 'list' and 'list'\x1f[1] < ['a']\x1e\
    error TypeError: bad operand types for <: 'list' and 'tuple'\x1f[1] < (1,)\x1e\
    error TypeError: bad operand types for <: 'dict' and 'dict'\x1f{} < {}\x1e\
    error TypeError: bad operand types for >=: 'list' and 'list'\x1f[1, []] >= [1, {}]\x1e\
    error TypeError: bad operand types for >: 'list' and 'list'\x1f[{1: 1, 2: 2}] > [{2: 3, 1: 1}]\x1e\
    error TypeError: bad operand types for <=: 'list' and 'list'\x1f[{1: 1, 2: 2}] <= [{2: 3, 1: 1}]\x1e\
    error TypeError: bad operand types for >: 'list' and 'list'\x1fmax([{1: 1, 2: 2}], [{2: 3, 1: 1}])\x1e\
    ok (False, True)\x1f[] != [], [[]] != [[], 1]\x1e\
    ok True\x1f{1: [2], 3: 4} == {3: 4, 1: [2]}\x1e\
    ok (True, False, True, True)\x1f1 in [1, 2], 'a' in ('b',), [1] in [[1]], 3 not in [1, 2]\x1e\
    ok (True, False, True)\x1f1 in {True: 0}, 'k' in {}, (1,) in {(1,): 2}\x1e\
    error TypeError: unhashable key: 'list'\x1f[] in {}\x1e\
    error TypeError: 'int' object is not iterable\x1f1 in 1\x1e\
    error TypeError: 'NoneType' object is not iterable\x1f1 in None\x1e\
    error NameError: name 'x' is not defined\x1f1 in [2, 1, x]\x1e\
    error NameError: name 'x' is not defined\x1f1 in [x]\x1e\
    ok True\x1fa = []; a in [[], a]\x1e\
    ok True\x1f1 < 2 in [2, True]\x1e\
    ok (2, 1)\x1fa, b = 1, 2\nb, a = a, b\n(a, b)\x1e\
    ok (1, 2, 3)\x1f[a, (b, c)] = 1, [2, 3]\na, b, c\x1e\
    ok ('x', 'y')\x1fa, b = 'xy'; a, b\x1e\
    ok 1\x1f(a), = [1]; a\x1e\
    ok ('x', 'y')\x1fa, b = {'x': 1, 'y': 2}; a, b\x1e\
    error ValueError: cannot unpack into 2\x1fa, b = 1, 2, 3\x1e\
    error ValueError: cannot unpack into 2\x1fa, b = 1,\x1e\
    error TypeError: 'int' object is not iterable\x1fa, b = 5\x1e\
    error TypeError: 'NoneType' object is not iterable\x1fa, b = None\x1e\
    error NameError: name 'x' is not defined\x1f[a, b] = x\x1e\
    ok ((1, 2), 1, 2)\x1fa = b, c = 1, 2\na, b, c\x1e\
    error TypeError: 'int' object is not iterable\x1fa, (b, c) = 1, 2\x1e\
    ok [0, 2]\x1fa = [0, 0]; i = 0; i, a[i] = 1, 2; a\x1e\
    ok [2, 1]\x1fa = [1, 2]; a[0], a[1] = a[1], a[0]; a\x1e\
    ok [[...]]\x1fa = [0]; a[0] = a; a\x1e\
    ok [5]\x1fa = [0]; a[-1] = 5; a\x1e\
    ok {'k': 1, 'j': 1}\x1fd = {}; d['k'] = d['j'] = 1; d\x1e\
    ok {(1, 2): 3}\x1fd = {}; d[1, 2] = 3; d\x1e\
    error IndexError: index out of range\x1fa = [1]; a[1] = 2\x1e\
    error TypeError: bad index type: 'str'\x1fa = [1]; a['x'] = 2\x1e\
    error TypeError: unhashable key: 'list'\x1fd = {}; d[[]] = 1\x1e\
    error TypeError: 'str' object is not subscriptable\x1fx = 'ab'\nx[0] = 'c'\x1e\
    error TypeError: 'tuple' object is not subscriptable\x1f(1, 2)[0] = 3\x1e\
    error NameError: name 'y' is not defined\x1fx = 1\nx[0] = y\x1e\
    error <1\n0\n> TypeError: bad index type: 'NoneType'\x1fx = [1]; x[print(0)] = print(1)\x1e\
    ok <[0]\n> [(1, 0)]\x1fx = [0]\nprint(x)\nx[0] = x[0] + 1, x[0]\nx\x1e\
    ok [1]\x1fa = b = []; a.append(1); b\x1e\
    ok [3]\x1fa = [1]\na, a[0] = [2], 3\na\x1e\
    ok <[1, 2] [1, 2] True\n>\x1fa = [1]; b = a; a += [2]; print(a, b, a is b)\x1e\
    ok <[1, 2] [1]\n>\x1fa = [1]; b = a; a = a + [2]; print(a, b)\x1e\
    ok [1, 'x', 'y', 3, 4]\x1fa = [1]; a += 'xy'; a += (3,); a += {4: 5}; a\x1e\
    ok [1, 1]\x1fa = [1]; a += a; a\x1e\
    error TypeError: 'int' object is not iterable\x1fa = [1]; a += 1\x1e\
    ok [1, 1]\x1fa = [1]; a *= 2; a\x1e\
    ok {'n': 3}\x1fd = {'n': 1}; d['n'] += 2; d\x1e\
    ok [[1, 2]]\x1fa = [[1]]; a[0] += [2]; a\x1e\
    ok (1, 2)\x1ft = (1,); t += (2,); t\x1e\
    error TypeError: bad operand types for -: 'list' and 'int'\x1fa = [1]; a -= 1\x1e\
    ok <0\n> [1, 7]\x1fx = [1, 2]\nx[print(0) is None] += 5\nx\x1e\
    error KeyError: 'n'\x1fd = {}; d['n'] += 1\x1e\
    error IndexError: index out of range\x1fa = []; a[0] += 1\x1e\
    ok\x1f[1][0] += 1\x1e\
    error TypeError: 'tuple' object is not subscriptable\x1f(1, 2)[0] += 1\x1e\
    error NameError: name 'x' is not defined\x1fx.a += 1\x1e\
    error TypeError: 'tuple' object is not subscriptable\x1fa = ([1],)\na[0] += [2]\x1e\
    ok [25]\x1fa = [5]\ni = 0\na[i] **= 2\na\x1e\
    error NameError: name 'x' is not defined\x1fx = 1; del x; x\x1e\
    error NameError: name 'x' is not defined\x1fdel x\x1e\
    ok [1, 3]\x1fa = [1, 2, 3]; del a[1]; a\x1e\
    ok []\x1fa = [1, 2]; del a[-1], a[0]; a\x1e\
    ok {3: 4}\x1fd = {1: 2, 3: 4}; del d[True]; d\x1e\
    error KeyError: 'k'\x1fd = {}; del d['k']\x1e\
    error IndexError: index out of range\x1fa = []; del a[0]\x1e\
    error TypeError: 'tuple' object is not subscriptable\x1fdel (1, 2)[0]\x1e\
    error TypeError: bad index type: 'str'\x1fa = [1]; del a['x']\x1e\
    error NameError: name 'x' is not defined\x1fx = y = 1\ndel x, x\x1e\
    error TypeError: unhashable key: 'list'\x1fd = {1: 2}; del d[[]]\x1e\
    ok {3: 4, 1: 5}\x1fd = {1: 2, 3: 4}; del d[1]; d[1] = 5; d\x1e\
    ok <1\n2\n>\x1ffor x in [1, 2]: print(x)\x1e\
    error NameError: name 'x' is not defined\x1ffor x in (): print(x)\nx\x1e\
    ok <a\nb\n>\x1ffor c in 'ab': print(c)\x1e\
    ok <a\nb\n>\x1ffor k in {'a': 1, 'b': 2}: print(k)\x1e\
    ok <3\n7\n>\x1ffor a, b in [(1, 2), (3, 4)]: print(a + b)\x1e\
    ok <1\n2\n>\x1ffor x in 1, 2: print(x)\x1e\
    ok <x y\n1 2\n>\x1ffor [a, b] in 'xy', [1, 2]: print(a, b)\x1e\
    ok <1\n2\n>\x1ffor x, in [[1], (2,)]: print(x)\x1e\
    error TypeError: 'int' object is not iterable\x1ffor x in 5: pass\x1e\
    error TypeError: 'NoneType' object is not iterable\x1ffor x in None: pass\x1e\
    error NameError: name 'y' is not defined\x1ffor x in y: pass\x1e\
    error TypeError: 'int' object is not iterable\x1ffor a, b in [1]: pass\x1e\
    ok <[1, 2, 3]\n>\x1fa = [1]\nfor x in a:\n    if x < 3: a.append(x + 1)\nprint(a)\x1e\
    ok <1\n2\n>\x1fa = [1, 2, 3, 4]\nfor x in a:\n    a.pop()\n    print(x)\x1e\
    error RuntimeError: dictionary changed size during iteration\x1fd = {1: 1}\nfor k in d: d[k + 1] = 0\x1e\
    ok {1: 2, 2: 3}\x1fd = {1: 1, 2: 2}\nfor k in d: d[k] += 1\nd\x1e\
    error RuntimeError: dictionary changed size during iteration\x1fd = {1: 1}\nfor k in d: d.clear()\x1e\
    ok {}\x1fd = {1: 1, 2: 2}\nfor k in d:\n    d.clear()\n    break\nd\x1e\
    ok <(1, 2) True\n1\n>\x1fd = {(1, 2): 3}\nfor k in d: print(k, k is k)\nfor a, b in d: print(a)\x1e\
    ok <a\nb\n1\n2\na 1\nb 2\n>\x1fd = {'a': 1, 'b': 2}\nfor k in d.keys(): print(k)\nfor v in d.values(): print(v)\nfor k, v in d.items(): print(k, v)\x1e\
    ok <((1, 2), 3)\n>\x1fd = {(1, 2): 3}\nfor p in d.items(): print(p)\x1e\
    error RuntimeError: dictionary changed size during iteration\x1fd = {1: 2}\nfor k, v in d.items(): d[3] = v\x1e\
    ok {}\x1fd = {}\nfor k in (d.keys()): pass\nd\x1e\
    ok <1\n>\x1ffor k in {1: 2}.keys(): print(k)\x1e\
    error AttributeError: 'list' object has no attribute 'keys'\x1ffor k in [1].keys(): pass\x1e\
    error AttributeError: 'dict' object has no attribute 'keyz'\x1ffor k in {}.keyz(): pass\x1e\
    error TypeError: 'SimpleNamespace' object is not iterable\x1ffrom types import SimpleNamespace\no = SimpleNamespace(keys=SimpleNamespace)\nfor k in o.keys(): pass\x1e\
    ok [8, 1]\x1fx = [3, 1]\nfor x[0] in [7, 8]: pass\nx\x1e\
    ok <1\n> 3\x1ffor i in [1, 2, 3]:\n    if i == 2: continue\n    if i == 3: break\n    print(i)\ni\x1e\
    ok <1 a\n2 a\n>\x1ffor i in [1, 2]:\n    for j in 'ab':\n        if j == 'b': break\n        print(i, j)\x1e\
    error ZeroDivisionError: division by zero\x1ffor x in [1, 0]: 1 // x\x1e\
    ok 6\x1fn = 0\nfor x in [1, 2, 3]: n += x\nn\x1e\
    ok {'ann': 8, 'bo': 4}\x1frows = [{'name': 'ann', 'n': 3}, {'name': 'bo', 'n': 4}, {'name': 'ann', 'n': 5}]\ntot = {}\nfor r in rows:\n    tot[r['name']] = tot.get(r['name'], 0) + r['n']\ntot\x1e\
    ok <12\n>\x1fprint(1, 2, sep='')\x1e\
    ok <a, b!>\x1fprint('a', 'b', sep=', ', end='!')\x1e\
    ok\x1fprint(end='')\x1e\
    error TypeError: print() got bad arguments\x1fprint(sep=1)\x1e\
    ok <1\n\n>\x1fprint(1, sep='-', end='\\n\\n')\x1e\
    error TypeError: print() got bad arguments\x1fprint(x=1)\x1e\
    ok <[1, 'a'] {'k': (1,)} x\n>\x1fprint([1, 'a'], {'k': (1,)}, 'x')\x1e\
    ok <1\t2>\x1fprint(1, 2, end='', sep='\\t')\x1e\
    ok True\x1ffrom types import SimpleNamespace as S; S is S\x1e\
    ok True\x1ffrom types import SimpleNamespace\nSimpleNamespace is SimpleNamespace\x1e\
    error AttributeError: 'class' object has no attribute 'a'\x1ffrom types import SimpleNamespace as S\nS.a\x1e\
    error TypeError: 'class' object is not subscriptable\x1ffrom types import SimpleNamespace as S\nS[0]\x1e\
    error NameError: name 'S' is not defined\x1ffrom types import SimpleNamespace as S\ndel S\nS\x1e\
    error ZeroDivisionError: division by zero\x1fa = [1]\na.append(2)\na.append(1 // 0)\x1e\
    error ValueError: cannot unpack into 3\x1fa = [1]\na[0], b, c = 5, 6\x1e\
    error IndexError: index out of range\x1fa = [0]\na[0], a[1] = 5, 6\x1e\
    error NameError: name 'y' is not defined\x1fx, y.a = 1, 2\x1e\
    error AttributeError: 'list' object has no attribute 'append'\x1f[].append\x1e\
    error AttributeError: 'dict' object has no attribute 'keys'\x1f{}.keys()\x1e\
    error AttributeError: 'dict' object has no attribute 'items'\x1f{1: 2}.items\x1e\
    error AttributeError: 'dict' object has no attribute 'keys'\x1ffor k in [{}.keys()]: pass\x1e\
    error AttributeError: 'dict' object has no attribute 'keys'\x1fx = {}\nfor k in x.keys(1): pass\x1e\
    error AttributeError: 'dict' object has no attribute 'values'\x1f{}.values()[0]\x1e\
    ok namespace(a=1, b=[namespace(...)])\x1fo = SimpleNamespace(a=1); o.b = [o]; o\x1e\
    ok 1\x1fSimpleNamespace(a=1).a\x1e\
    error TypeError: print() got bad arguments\x1fprint(sep=None)\x1e\
    error TypeError: print() got bad arguments\x1fprint(1, end=None)\x1e\
    ok <class 'SimpleNamespace'>\x1ffrom types import SimpleNamespace as S\nS\x1e\
    error TypeError: bad operand types for +: 'class' and 'int'\x1ffrom types import SimpleNamespace as S\nS + 1\x1e\
    ok namespace(a=1)\x1ffrom types import SimpleNamespace as print\nprint(a=1)\x1e\
    error TypeError: unhashable key: 'class'\x1ffrom types import SimpleNamespace as S\n{S: 1}\x1e\
    error TypeError: 'dict' object is not subscriptable\x1f{1: 2}[1:2]\x1e\
    ok False\x1f[1, 2] is [1, 2]\x1e\
    ok (False, [1, 1], [1])\x1fa = [1]; b = a; a *= 2; a is b, a, b\x1e\
    error TypeError: append() got bad arguments\x1fa = []; (a.append)(x=1)\x1e\
    ok 1\x1fa = []; ((a).append)((1)); (a).pop()\x1e\
    stopped Stopped: step budget spent\x1fx = [1] * 4000000\x1e\
    stopped Stopped: step budget spent\x1fx = [0]\nx *= 170141183460469231731687303715884105727\x1e\
    stopped Stopped: step budget spent\x1fx = [0]\nwhile True: x += x\x1e\
    stopped Stopped: step budget spent\x1fa = [1]\nfor x in a: a.append(x)\x1e\
    stopped Stopped: step budget spent\x1fd = {}\nn = 0\nwhile True:\n    d[n] = n\n    n += 1\x1e\
    ok <None\n>\x1fdef f(): pass\nf()\nprint(f())\x1e\
    ok 2\x1fdef f(): return 1\nf() + 1\x1e\
    ok ((1, 2, 3), (1, 5, 3), (1, 2, 7), (0, 1, 3))\x1fdef f(a, b=2, c=3): return a, b, c\nf(1), f(1, 5), f(1, c=7), f(b=1, a=0)\x1e\
    ok <function f>\x1fdef f(x): return x\nf\x1e\
    ok True\x1fdef f(): return\nf() is None\x1e\
    error TypeError: f() got bad arguments\x1fdef f(a): pass\nf()\x1e\
    error TypeError: f() got bad arguments\x1fdef f(a): pass\nf(1, 2)\x1e\
    error TypeError: f() got bad arguments\x1fdef f(a): pass\nf(b=1)\x1e\
    error TypeError: f() got bad arguments\x1fdef f(a): pass\nf(1, a=2)\x1e\
    error TypeError: f() got bad arguments\x1fdef f(a, b): return b\nf(b=1)\x1e\
    ok (True, [1, 1, 1, 1])\x1fdef f(a=[]):\n    a.append(1)\n    return a\nf()\nf() is f(), f()\x1e\
    ok <True [1, 2, 3]\n>\x1fdef g(x, acc=[]): acc.append(x); return acc\nprint(g(1) is g(2), g(3))\x1e\
    ok [1]\x1fd = []\ndef f(a=d): return a\nd.append(1)\nd = 5\nf()\x1e\
    ok <1\n2\n3\n>\x1fdef f(a=print(1), b=print(2)): pass\nf(print(3))\x1e\
    error NameError: name 'x' is not defined\x1fdef f(a=x): pass\x1e\
    ok 120\x1fdef f(n): return 1 if n < 2 else n * f(n - 1)\nf(5)\x1e\
    ok (True, False)\x1fdef even(n): return True if n == 0 else odd(n - 1)\ndef odd(n): return False if n == 0 else even(n - 1)\neven(4), odd(4)\x1e\
    ok (1, 2)\x1fdef f(): return g()\ndef g(): return 1\na = f()\ndef g(): return 2\na, f()\x1e\
    ok [1, 1]\x1fL = []\ndef f(): L.append(1)\nf(); f(); L\x1e\
    ok (2, 1)\x1fx = 1\ndef f():\n    x = 2\n    return x\nf(), x\x1e\
    ok 2\x1fx = 1\ndef f():\n    global x\n    x = 2\nf(); x\x1e\
    ok 5\x1fx = 1\ndef f(): return x\nx = 5\nf()\x1e\
    error UnboundLocalError: local name 'x' has no value\x1fx = 1\ndef f():\n    print(x)\n    x = 2\nf()\x1e\
    error UnboundLocalError: local name 'y' has no value\x1fdef f():\n    if 0: y = 1\n    return y\nf()\x1e\
    error UnboundLocalError: local name 'a' has no value\x1fdef f(a):\n    del a\n    return a\nf(1)\x1e\
    error UnboundLocalError: local name 'a' has no value\x1fdef f():\n    del a\nf()\x1e\
    ok 2\x1fdef f(a):\n    a += 1\n    return a\nf(1)\x1e\
    error UnboundLocalError: local name 'x' has no value\x1fx = 1\ndef f(): x += 1\nf()\x1e\
    ok 2\x1fdef f():\n    for i in [1, 2]:\n        if i == 2: return i\n    return 0\nf()\x1e\
    ok 'w'\x1fdef f():\n    while 1:\n        return 'w'\nf()\x1e\
    ok 1\x1fdef f(f): return f\nf(1)\x1e\
    ok True\x1fdef f(): return f\nf() is f\x1e\
    ok (True, False)\x1fdef f(): return f\ng = f\ndef f(): pass\ng() is f, g is f\x1e\
    error NameError: name 'y' is not defined\x1fdef f(): return y\nf()\x1e\
    ok 1\x1fdef f(x): x = 2\nx = 1\nf(x); x\x1e\
    ok [1, 2]\x1fdef f(x): x.append(2)\nx = [1]\nf(x); x\x1e\
    error NameError: name 'b' is not defined\x1fdef f():\n    global a\n    a, b = 1, 2\nf()\na\nb\x1e\
    error NameError: name 'c' is not defined\x1fdef f(): (a, [b]), c[0] = [1, [2]], 3\nf()\x1e\
    ok 1\x1fdef f():\n    from types import SimpleNamespace\n    return SimpleNamespace(a=1)\nf().a\x1e\
    ok <1\n2\n> 2\x1fdef f(a, b): return a - b\nf(print(1) or 5, b=print(2) or 3)\x1e\
    error AttributeError: 'function' object has no attribute 'a'\x1fdef f(): pass\nf.a\x1e\
    ok (True, True, True, False)\x1fdef f(): pass\nf == f, f is f, f != 1, not f\x1e\
    error TypeError: bad operand types for <: 'function' and 'function'\x1fdef f(): pass\nf < f\x1e\
    error ZeroDivisionError: division by zero\x1fdef f(): 1 // 0\nf()\x1e\
    ok (1, 2)\x1fdef f(a=1): return a\no = [f]\no[0](), o[0](2)\x1e\
    ok 1\x1ffrom types import SimpleNamespace\ndef f(a): return a\no = SimpleNamespace(f=f)\no.f(1)\x1e\
    ok (1, 2)\x1fdef f():\n    x = 1\n    def_ = 2\n    return x, def_\nf()\x1e\
    error TypeError: 'int' object is not callable\x1fdef f(a): return a\nf(1)(2)\x1e\
    error UnboundLocalError: local name 'x' has no value\x1fdef f(): del x\nx = 1\nf()\x1e\
    error NameError: name 'x' is not defined\x1fdef f():\n    global x\n    del x\nx = 1\nf()\nx\x1e\
    ok <'k'\nend\n>\x1ftry:\n    {}['k']\nexcept KeyError as e:\n    print(e)\nfinally:\n    print('end')\x1e\
    ok <z\n>\x1ftry: raise ZeroDivisionError('z')\nexcept ArithmeticError as e: print(e)\x1e\
    ok <yes\n>\x1ftry: 1 // 0\nexcept KeyError: print('no')\nexcept (IndexError, ZeroDivisionError): print('yes')\x1e\
    ok <any\n>\x1ftry: x\nexcept: print('any')\x1e\
    ok <else\nlast\n>\x1ftry: pass\nexcept: print('no')\nelse: print('else')\nfinally: print('last')\x1e\
    error <f\n> ZeroDivisionError: division by zero\x1ftry: 1 // 0\nexcept KeyError: pass\nfinally: print('f')\x1e\
    ok <inner\nouter\n>\x1ftry:\n    try: 1 // 0\n    finally: print('inner')\nexcept Exception: print('outer')\x1e\
    error NameError: name 'e' is not defined\x1ftry: 1 // 0\nexcept ZeroDivisionError as e: pass\ne\x1e\
    error NameError: name 'e' is not defined\x1fe = 5\ntry: 1 // 0\nexcept Exception as e: e = 6\ne\x1e\
    ok\x1ftry: 1 // 0\nexcept Exception as e: del e\x1e\
    ok NameError(\"name 'x' is not defined\")\x1ftry: x\nexcept Exception as e: x = e\nx\x1e\
    ok (\"name 'y' is not defined\",)\x1ftry: y\nexcept Exception as e: y = e.args\ny\x1e\
    error TypeError: exceptions must be exception classes or objects\x1ftry: 1 // 0\nexcept 5: pass\x1e\
    error TypeError: exceptions must be exception classes or objects\x1ftry: 1 // 0\nexcept (KeyError, 5): pass\x1e\
    ok 1\x1ftry: pass\nexcept 5: pass\n1\x1e\
    error NameError: name 'x' is not defined\x1ftry: 1 // 0\nexcept KeyError: pass\nexcept x: pass\x1e\
    error <1\n> TypeError: exceptions must be exception classes or objects\x1ftry: 1 // 0\nexcept print(1): pass\x1e\
    error NameError: name 'z' is not defined\x1ftry: 1 // 0\nexcept Exception as e: z\x1e\
    error ZeroDivisionError: division by zero\x1ftry: 1 // 0\nexcept () : pass\x1e\
    ok <(1, 'a')\n>\x1ftry: {}[1, 'a']\nexcept LookupError as e: print(e)\x1e\
    ok <1\n>\x1ftry: x\nexcept NameError: print(1)\nelse: print(2)\x1e\
    ok <t\n>\x1ftry: 'a' + 1\nexcept (ValueError, (TypeError)): print('t')\x1e\
    ok <f\n> 1\x1fdef f():\n    try: return 1\n    finally: print('f')\nf()\x1e\
    ok 2\x1fdef f():\n    try: return 1\n    finally: return 2\nf()\x1e\
    ok 2\x1fdef f():\n    try: 1 // 0\n    finally: return 2\nf()\x1e\
    ok <1\n2\n> 'd'\x1fdef f():\n    for i in [1, 2]:\n        try: continue\n        finally: print(i)\n    return 'd'\nf()\x1e\
    ok <1\n> 1\x1ffor i in [1, 2]:\n    try: break\n    finally: print(i)\ni\x1e\
    ok\x1ffor i in [1, 2]:\n    try: 1 // 0\n    except: continue\n    print('no')\x1e\
    ok 1\x1fwhile 1:\n    try: 1 // 0\n    finally: break\n1\x1e\
    error <f\n> ZeroDivisionError: division by zero\x1ftry: 1 // 0\nexcept: 1 // 0\nfinally: print('f')\x1e\
    error NameError: name 'x' is not defined\x1ftry: pass\nfinally: x\x1e\
    error NameError: name 'y' is not defined\x1ftry: x\nfinally: y // 1\x1e\
    ok <name 'x' is not defined\n>\x1ftry:\n    try: x\n    except NameError: raise\nexcept Exception as e: print(e)\x1e\
    ok <True\n>\x1ftry:\n    try: {}[0]\n    except Exception as e: x = e; raise\nexcept Exception as f: print(f is x)\x1e\
    error ZeroDivisionError: division by zero\x1ftry: 1 // 0\nexcept Exception:\n    try: x\n    except Exception: pass\n    raise\x1e\
    ok KeyError(0)\x1fdef f():\n    try: return {}[0]\n    except Exception as e: return e\nf()\x1e\
    ok 'h'\x1fdef f():\n    try: return 1 // 0\n    except Exception: return 'h'\n    else: return 'e'\nf()\x1e\
    error ZeroDivisionError: division by zero\x1ftry: pass\nexcept: pass\nelse: 1 // 0\x1e\
    ok 1\x1ffor i in [1]:\n    try: pass\n    except: pass\n    else: break\ni\x1e\
    ok 1\x1ftry:\n    x = 1\n    1 // 0\nexcept: pass\nx\x1e\
    error ValueError: ('x', 1)\x1fraise ValueError('x', 1)\x1e\
    error ValueError: \x1fraise ValueError\x1e\
    error ValueError: \x1fraise ValueError()\x1e\
    error KeyError: 'k'\x1fraise KeyError('k')\x1e\
    error KeyError: (1,)\x1fraise KeyError((1,))\x1e\
    error ValueError: [1]\x1fraise ValueError([1])\x1e\
    error TypeError: exceptions must be exception classes or objects\x1fraise 5\x1e\
    error TypeError: exceptions must be exception classes or objects\x1fraise None\x1e\
    error TypeError: exceptions must be exception classes or objects\x1fraise print\x1e\
    error TypeError: exceptions must be exception classes or objects\x1fraise (ValueError,)\x1e\
    error ValueError: a\x1fx = ValueError('a'); raise x\x1e\
    ok <True ('a',)\n>\x1fx = ValueError('a')\ntry: raise x\nexcept ValueError as e: print(e is x, e.args)\x1e\
    error NameError: name 'x' is not defined\x1fraise x\x1e\
    error ZeroDivisionError: division by zero\x1fraise ValueError(1 // 0)\x1e\
    ok KeyError(1, 2)\x1fe = KeyError(1, 2)\ne\x1e\
    ok False\x1fValueError('a') == ValueError('a')\x1e\
    error TypeError: ValueError() got bad arguments\x1fValueError(a=1)\x1e\
    ok 'a'\x1fValueError('a').args[0]\x1e\
    ok\x1fassert 1\x1e\
    error AssertionError: \x1fassert 0\x1e\
    error AssertionError: m\x1fassert [], 'm'\x1e\
    ok\x1fassert 1, x\x1e\
    error NameError: name 'x' is not defined\x1fassert 0, x\x1e\
    error NameError: name 'x' is not defined\x1fassert x\x1e\
    error AssertionError: [1, 'a']\x1fassert 0, [1, 'a']\x1e\
    error AssertionError: ('a', 'b')\x1fassert 0, ('a', 'b')\x1e\
    ok\x1fassert (0, 1)\x1e\
    ok <5 (5,)\n>\x1ftry: assert 0, 5\nexcept AssertionError as e: print(e, e.args)\x1e\
    ok\x1ftry: raise NotImplementedError\nexcept RuntimeError as e: e.args\x1e\
    error AttributeError: 'class' object has no attribute 'a'\x1fValueError.a\x1e\
    error AttributeError: 'ValueError' object has no attribute 'b'\x1fValueError().b\x1e\
    ok <class 'ValueError'>\x1fValueError\x1e\
    ok <x 'x'  (1, 2)\n>\x1fprint(ValueError('x'), KeyError('x'), ValueError(), ValueError(1, 2))\x1e\
    ok False\x1fnot ValueError()\x1e\
    ok (True, False)\x1fValueError is ValueError, ValueError == KeyError\x1e\
    ok <n\n>\x1ftry: raise UnboundLocalError\nexcept NameError: print('n')\x1e\
    ok <r\n>\x1ftry: raise RecursionError\nexcept (LookupError, RuntimeError): print('r')\x1e\
    error Exception: \x1ftry: raise Exception\nexcept ValueError: print('no')\x1e\
    error OverflowError: \x1ftry: raise OverflowError\nexcept LookupError: print('no')\x1e\
    error AttributeError: 'function' object has no attribute 'a'\x1fdef f(): pass\nf.a = 1\x1e\
    ok ValueError([ValueError(...)])\x1fx = ValueError([]); x.args[0].append(x); x\x1e\
    ok ZeroDivisionError('division by zero')\x1ftry: 1 // 0\nexcept Exception as e: x = e\nx\x1e\
    ok <index out of range\n>\x1ftry: [][0]\nexcept LookupError as e: print(e)\x1e\
    error TypeError: unhashable key: 'function'\x1fdef f(): pass\n{f: 1}\x1e\
    error AttributeError: 'ValueError' object has no attribute 'args'\x1fValueError().args()\x1e\
    error AttributeError: 'ValueError' object has no attribute 'foo'\x1fValueError('a').foo(1)\x1e\
    error AttributeError: 'function' object has no attribute 'x'\x1fdef f(): pass\nf.x(1)\x1e\
    stopped Stopped: step budget spent\x1ftry:\n    while True: pass\nexcept Exception: print('no')\nfinally: print('no')\x1e\
    stopped Stopped: step budget spent\x1fdef f():\n    while True: pass\ntry: f()\nexcept: pass\x1e\
    error TypeError: exceptions must be exception classes or objects\x1ftry: 1 // 0\nexcept SimpleNamespace: pass\x1e\
    error TypeError: exceptions must be exception classes or objects\x1fraise SimpleNamespace\x1e\
    error TypeError: f() got bad arguments\x1fdef f(x): pass\nf(1, 2)\x1e\
    stopped Stopped: step budget spent\x1ftry: 1 // 0\nexcept Exception as e:\n    while True: pass\x1e\
    stopped Stopped: step budget spent\x1fdef f(): return x\nx = 'a' * 4000000\nf()\x1e\
    ok (3, 3, 1, 0)\x1fabs(-3), abs(3), abs(True), abs(0)\x1e\
    error TypeError: abs() got bad arguments\x1fabs('a')\x1e\
    error TypeError: abs() got bad arguments\x1fabs()\x1e\
    error TypeError: abs() got bad arguments\x1fabs(1, 2)\x1e\
    error TypeError: abs() got bad arguments\x1fabs(x=1)\x1e\
    ok (True, True, False, True, False, True)\x1fall([]), all([1, 'a']), all([1, 0, 2]), all(''), all({0: 1}), all((1,))\x1e\
    ok (False, False)\x1fany([]), any([0, ''])\x1e\
    ok (True, True)\x1fany([0, 3, 0]), any({0: 1, 1: 2})\x1e\
    error TypeError: 'int' object is not iterable\x1fall(5)\x1e\
    error TypeError: 'NoneType' object is not iterable\x1fany(None)\x1e\
    error TypeError: all() got bad arguments\x1fall([1], [2])\x1e\
    ok ('a', '\u{1f600}', True)\x1fchr(97), chr(0x1F600), chr(0) == '\\0'\x1e\
    error ValueError: not a character\x1fchr(-1)\x1e\
    error ValueError: not a character\x1fchr(0x110000)\x1e\
    error TypeError: chr() got bad arguments\x1fchr('a')\x1e\
    ok (97, 233, 128512)\x1ford('a'), ord('\u{e9}'), ord(chr(128512))\x1e\
    error TypeError: ord() got bad arguments\x1ford('')\x1e\
    error TypeError: ord() got bad arguments\x1ford('ab')\x1e\
    error TypeError: ord() got bad arguments\x1ford(1)\x1e\
    ok ((3, 1), (-4, 1), (-4, -1), (1, 0))\x1fdivmod(7, 2), divmod(-7, 2), divmod(7, -2), divmod(True, 1)\x1e\
    error ZeroDivisionError: division by zero\x1fdivmod(1, 0)\x1e\
    error TypeError: divmod() got bad arguments\x1fdivmod(1, 'a')\x1e\
    error TypeError: divmod() got bad arguments\x1fdivmod(1)\x1e\
    ok (True, True, True, False, True, True, True, True)\x1fisinstance(1, int), isinstance(True, int), isinstance(True, bool), isinstance(1, bool), isinstance('a', str), isinstance([], list), isinstance((), tuple), isinstance({}, dict)\x1e\
    ok (True, False, False)\x1fisinstance([], (int, list)), isinstance([], (int, str)), isinstance([], ())\x1e\
    ok (False, False, False, True)\x1fisinstance(None, int), isinstance(len, int), isinstance(int, int), isinstance(range(1), range)\x1e\
    ok (True, True, False, True)\x1fisinstance(KeyError('a'), LookupError), isinstance(KeyError('a'), Exception), isinstance(KeyError('a'), IndexError), isinstance(ZeroDivisionError(), ArithmeticError)\x1e\
    ok True\x1fisinstance(SimpleNamespace(), SimpleNamespace)\x1e\
    error TypeError: isinstance() got bad arguments\x1fisinstance(1, 1)\x1e\
    error TypeError: isinstance() got bad arguments\x1fisinstance(1)\x1e\
    error TypeError: isinstance() got bad arguments\x1fisinstance(1, [int])\x1e\
    ok False\x1fdef f(): pass\nisinstance(f, dict)\x1e\
    ok (3, 1, 0, 1, 4, 2)\x1flen('abc'), len([1]), len(()), len({1: 2}), len(range(0, 10, 3)), len('\u{e9}\u{1f600}')\x1e\
    error TypeError: len() got bad arguments\x1flen(5)\x1e\
    error TypeError: len() got bad arguments\x1flen(None)\x1e\
    error TypeError: len() got bad arguments\x1flen()\x1e\
    ok (2, 1, 3, 'a', 5)\x1fmax(1, 2), min(1, 2), max([3, 1, 2]), min('bca'), max({1: 2, 5: 0})\x1e\
    ok (True, 1, True)\x1fmax([True, 1]), max(1, True), min([True, 1])\x1e\
    error ValueError: empty argument\x1fmax([])\x1e\
    error ValueError: empty argument\x1fmin('')\x1e\
    error TypeError: max() got bad arguments\x1fmax()\x1e\
    error TypeError: 'int' object is not iterable\x1fmax(5)\x1e\
    error TypeError: bad operand types for >: 'str' and 'int'\x1fmax(1, 'a')\x1e\
    error TypeError: bad operand types for <: 'NoneType' and 'int'\x1fmin([1, None])\x1e\
    ok ([1, 3], ())\x1fmax([1, 2], [1, 3]), min((), (1,))\x1e\
    ok [1]\x1fmax([[], [1]])\x1e\
    ok (\"'a'\", '1', \"[1, 'b']\", 'None')\x1frepr('a'), repr(1), repr([1, 'b']), repr(None)\x1e\
    error TypeError: repr() got bad arguments\x1frepr()\x1e\
    ok ('<built-in function len>', \"<class 'int'>\", \"<class 'ValueError'>\")\x1frepr(len), repr(int), repr(ValueError)\x1e\
    ok ([1, 2, 3], ['a', 'b', 'c'], [], [1, 2], [1, 3])\x1fsorted([3, 1, 2]), sorted('bca'), sorted([]), sorted((2, 1)), sorted({3: 0, 1: 0})\x1e\
    ok [True, 2, 3]\x1fsorted([3, True, 2])\x1e\
    ok [0, False, 1, True]\x1fsorted([1, True, 0, False])\x1e\
    error TypeError: sorted() got bad arguments\x1fsorted([1, 'a'])\x1e\
    error TypeError: 'int' object is not iterable\x1fsorted(5)\x1e\
    ok [1, 3, 5]\x1fsorted(range(5, 0, -2))\x1e\
    ok (False, [2, 1])\x1fa = [2, 1]; sorted(a) is a, a\x1e\
    ok (6, 0, 2, 10, 1)\x1fsum([1, 2, 3]), sum([]), sum((True, True)), sum(range(5)), sum({1: 2})\x1e\
    error TypeError: sum() got bad arguments\x1fsum(['a'])\x1e\
    error TypeError: 'int' object is not iterable\x1fsum(5)\x1e\
    error TypeError: sum() got bad arguments\x1fsum([[]])\x1e\
    ok (False, False, True, False)\x1fbool(), bool(0), bool([0]), bool('')\x1e\
    error TypeError: bool() got bad arguments\x1fbool(1, 2)\x1e\
    ok ({}, {1: 2})\x1fdict(), dict({1: 2})\x1e\
    ok (False, True, True)\x1fd = {1: []}; e = dict(d); e is d, e[1] is d[1], e == d\x1e\
    error TypeError: dict() got bad arguments\x1fdict(1)\x1e\
    ok (0, 5, 1, 42, -7, 0, 7)\x1fint(), int(5), int(True), int(' 42 '), int('-7'), int('+0'), int('007')\x1e\
    error ValueError: not a whole number\x1fint('a')\x1e\
    error ValueError: not a whole number\x1fint('')\x1e\
    error ValueError: not a whole number\x1fint('1 2')\x1e\
    error TypeError: int() got bad arguments\x1fint([])\x1e\
    error TypeError: int() got bad arguments\x1fint(None)\x1e\
    ok ([], ['a', 'b'], [1, 2], [1], [0, 1, 2])\x1flist(), list('ab'), list((1, 2)), list({1: 2}), list(range(3))\x1e\
    ok (False, True)\x1fa = [1]; list(a) is a, list(a) == a\x1e\
    error TypeError: 'int' object is not iterable\x1flist(5)\x1e\
    error TypeError: list() got bad arguments\x1flist(1, 2)\x1e\
    ok <(0, 1, 2) ['a', 'b'] 42 [1, 'x']\n>\x1fprint(tuple(range(3)), list('ab'), int(' 42 '), str([1, 'x']))\x1e\
    ok (range(0, 3), range(1, 5), range(0, 10, 3), range(5, 0, -1), range(0, 1))\x1frange(3), range(1, 5), range(0, 10, 3), range(5, 0, -1), range(True)\x1e\
    error ValueError: step is zero\x1frange(1, 2, 0)\x1e\
    error TypeError: range() got bad arguments\x1frange('a')\x1e\
    error TypeError: range() got bad arguments\x1frange()\x1e\
    ok <0\n1\n2\n>\x1ffor i in range(3): print(i)\x1e\
    ok (True, True, True)\x1frange(3) == range(0, 3, 1), range(0) == range(5, 0), range(1, 10, 5) == range(1, 7, 5)\x1e\
    ok ('', '1', 'a', \"[1, 'a']\", 'None')\x1fstr(), str(1), str('a'), str([1, 'a']), str(None)\x1e\
    ok (\"'k'\", 'v', '<built-in function len>', \"<class 'int'>\")\x1fstr(KeyError('k')), str(ValueError('v')), str(len), str(int)\x1e\
    ok ((), (1,), ('a', 'b'))\x1ftuple(), tuple([1]), tuple('ab')\x1e\
    ok True\x1ft = (1,); tuple(t) is t\x1e\
    error TypeError: 'int' object is not iterable\x1ftuple(5)\x1e\
    error TypeError: tuple() got bad arguments\x1ftuple(x=1)\x1e\
    ok (1, 2)\x1flist({(1, 2): 3})[0]\x1e\
    ok (False, True)\x1fall({(): 1}), any({(0,): 1})\x1e\
    ok (1, 3)\x1fmax({(1, 2): 0, (1, 3): 0})\x1e\
    ok <1024 (-4, 1) [True, 2, 3]\n>\x1fprint(2 ** 10, divmod(-7, 2), sorted([3, True, 2]))\x1e\
    ok 5\x1flen = 5; len\x1e\
    ok <<built-in function len> <class 'int'> <built-in function print>\n>\x1fprint(len, int, print)\x1e\
    ok (True, True, False, False)\x1flen is len, int is int, len == abs, int == bool\x1e\
    error TypeError: bad operand types for <: 'builtin' and 'builtin'\x1flen < abs\x1e\
    error AttributeError: 'builtin' object has no attribute 'a'\x1flen.a\x1e\
    error AttributeError: 'class' object has no attribute 'b'\x1fint.b\x1e\
    error TypeError: 'builtin' object is not subscriptable\x1flen[0]\x1e\
    ok 2\x1fx = len; x('ab')\x1e\
    ok 3\x1fdef f(a=len): return a('abc')\nf()\x1e\
    error NameError: name 'len' is not defined\x1fdel len\x1e\
    ok 2\x1f[len][0]('ab')\x1e\
    ok (False, False)\x1fnot len, not int\x1e\
    ok (True, True)\x1flen in [abs, len], int in (bool, int)\x1e\
    error TypeError: exceptions must be exception classes or objects\x1fraise len\x1e\
    ok 1\x1fdef f(len): return len\nf(1)\x1e\
    ok (1, 1)\x1fdef f():\n    len = 1\n    return len\nf(), len('a')\x1e\
    error TypeError: bad operand types for +: 'builtin' and 'int'\x1flen + 1\x1e\
    error TypeError: bad operand type for -: 'builtin'\x1f-len\x1e\
    error TypeError: 'builtin' object is not iterable\x1ffor x in len: pass\x1e\
    error TypeError: 'class' object is not iterable\x1fa, b = int\x1e\
    ok ['', 'a', 'ab', 'b']\x1fsorted(['b', 'a', 'ab', ''])\x1e\
    ok\x1ftry: int('x')\nexcept ValueError as e: e.args[0] is e.args[0]\x1e\
    ok False\x1fisinstance(isinstance, int)\x1e\
    ok 170141183460469231731687303715884105726\x1fsum([170141183460469231731687303715884105727]) - 1\x1e\
    error ValueError: not a character\x1fchr(0xD800)\x1e\
    error ValueError: not a whole number\x1fint('1_0')\x1e\
    error ValueError: not a whole number\x1fint('\u{663}')\x1e\
    error TypeError: unhashable key: 'builtin'\x1f{len: 1}\x1e\
    error TypeError: unhashable key: 'class'\x1f{int: 1}\x1e\
    error TypeError: isinstance() got bad arguments\x1fisinstance(1, (int, 5))\x1e\
    error OverflowError: whole number too large\x1fsum([170141183460469231731687303715884105727, 1])\x1e\
    error OverflowError: whole number too large\x1fsum([170141183460469231731687303715884105727, 1, -1])\x1e\
    error OverflowError: whole number too large\x1fabs(-170141183460469231731687303715884105727 - 1)\x1e\
    error ValueError: not a whole number\x1fint('170141183460469231731687303715884105728')\x1e\
    error OverflowError: whole number too large\x1flen(range(-170141183460469231731687303715884105727, 170141183460469231731687303715884105727))\x1e\
    error TypeError: sorted() got bad arguments\x1fsorted([[1], [0]])\x1e\
    ok <True False\n>\x1fprint('x' is 'x', [] is [])\x1e\
    error TypeError: sum() got bad arguments\x1fsum([1], 2)\x1e\
    error TypeError: max() got bad arguments\x1fmax([1], key=len)\x1e\
    stopped Stopped: step budget spent\x1flist(range(10 ** 30))\x1e\
    stopped Stopped: step budget spent\x1fsorted(range(10 ** 30))\x1e\
    stopped Stopped: step budget spent\x1fmax(range(10 ** 30))\x1e\
    stopped Stopped: step budget spent\x1fall(range(1, 10 ** 30))\x1e\
    error OverflowError: whole number too large\x1fdivmod(-170141183460469231731687303715884105727 - 1, -1)\x1e\
    error TypeError: dict() got bad arguments\x1fdict([(1, 2)])\x1e\
    error TypeError: dict() got bad arguments\x1fdict(a=1)\x1e\
    error TypeError: int() got bad arguments\x1fint('12', 3)\x1e\
    error TypeError: str() got bad arguments\x1fstr(b=1)\x1e\
";
