// Made by tools/rows/tokens.py: what is wanted and the text, with \x1f between, and \x1e behind each row.
pub(crate) const COUNT: usize = 185;

pub(crate) const ROWS: &str = "\
    \x1f\x1e\
    x@1:0-1 newline@1:1-1\x1fx\x1e\
    x@1:0-1 newline@1:1-2\x1fx\n\x1e\
    x@1:0-1 Assign@1:2-3 #1@1:4-5 newline@1:5-6\x1fx = 1\n\x1e\
    \x1f\n\n  \n# c\n\x1e\
    x@1:0-1 newline@1:7-8 y@2:8-9 newline@2:9-10\x1fx # c \\\ny\n\x1e\
    x@1:0-1 Assign@1:2-3 #1@2:8-9 newline@2:9-10 y@3:10-11 newline@3:11-12\x1fx = \\\n  1\ny\n\x1e\
    LeftParenthesis@1:0-1 a@1:1-2 Comma@1:2-3 b@2:5-6 RightParenthesis@2:6-7 newline@2:7-8 c@3:8-9 newline@3:9-10\x1f(a,\n b)\nc\n\x1e\
    LeftBracket@1:0-1 LeftBrace@4:9-10 RightBrace@5:11-12 RightBracket@6:13-14 newline@6:14-15\x1f[\n# c\n\n  {\n}\n]\n\x1e\
    If@1:0-2 a@1:3-4 Colon@1:4-5 newline@1:5-6 indent@2:6-8 b@2:8-9 newline@2:9-10 c@5:21-22 newline@5:22-23 dedent@6:23-23 d@6:23-24 newline@6:24-25\x1fif a:\n  b\n\n    # c\n  c\nd\n\x1e\
    If@1:0-2 a@1:3-4 Colon@1:4-5 newline@1:5-6 indent@2:6-7 If@2:7-9 b@2:10-11 Colon@2:11-12 newline@2:12-13 indent@3:13-16 c@3:16-17 newline@3:17-18 dedent@4:18-18 dedent@4:18-18 d@4:18-19 newline@4:19-20\x1fif a:\n\tif b:\n\t  c\nd\n\x1e\
    If@1:0-2 a@1:3-4 Colon@1:4-5 newline@1:5-6 indent@2:6-8 b@2:8-9 newline@2:9-9 dedent@2:9-9\x1fif a:\n  b\x1e\
    If@1:0-2 a@1:3-4 Colon@1:4-5 newline@1:5-6 indent@2:6-8 If@2:8-10 b@2:11-12 Colon@2:12-13 newline@2:13-14 indent@3:14-18 c@3:18-19 newline@3:19-20 dedent@4:20-20 dedent@4:20-20\x1fif a:\n  if b:\n    c\n\x1e\
    If@1:0-2 a@1:3-4 Colon@1:4-5 newline@1:5-6 indent@2:6-8 If@2:8-10 b@2:11-12 Colon@2:12-13 newline@2:13-14 indent@3:14-18 c@3:18-19 newline@3:19-20 dedent@4:20-20 dedent@4:20-20 d@4:20-21 newline@4:21-22\x1fif a:\n  if b:\n    c\nd\n\x1e\
    If@1:0-2 a@1:3-4 Colon@1:4-5 newline@1:5-6 indent@2:6-8 b@2:8-9 newline@2:9-10 If@3:12-14 c@3:15-16 Colon@3:16-17 newline@3:17-18 indent@4:18-21 d@4:21-22 newline@4:22-23 dedent@5:25-25 e@5:25-26 newline@5:26-27 dedent@6:27-27\x1fif a:\n \tb\n \tif c:\n \t\td\n \te\n\x1e\
    If@1:0-2 a@1:3-4 Colon@1:4-5 newline@1:5-6 indent@2:6-8 b@2:8-9 newline@2:9-10 dedent@4:15-15 d@4:15-16 newline@4:16-17\x1fif a:\n  b\n # c\nd\n\x1e\
    If@1:0-2 a@1:3-4 Colon@1:4-5 b@1:6-7 newline@1:7-8\x1fif a: b\n\x1e\
    _a1@1:0-3 Zz@1:4-6 __@1:7-9 newline@1:9-10\x1f_a1 Zz __\n\x1e\
    False@1:0-5 None@1:6-10 True@1:11-15 And@1:16-19 As@1:20-22 Assert@1:23-29 Async@1:30-35 Await@1:36-41 Break@1:42-47 Class@1:48-53 Continue@1:54-62 Def@1:63-66 Del@1:67-70 Elif@1:71-75 Else@1:76-80 Except@1:81-87 Finally@1:88-95 For@1:96-99 From@1:100-104 Global@1:105-111 If@1:112-114 Import@1:115-121 In@1:122-124 Is@1:125-127 Lambda@1:128-134 Nonlocal@1:135-143 Not@1:144-147 Or@1:148-150 Pass@1:151-155 Raise@1:156-161 Return@1:162-168 Try@1:169-172 While@1:173-178 With@1:179-183 Yield@1:184-189 newline@1:189-190\x1fFalse None True and as assert async await break class continue def del elif else except finally for from global if import in is lambda nonlocal not or pass raise return try while with yield\n\x1e\
    iff@1:0-3 nota@1:4-8 NONE@1:9-13 newline@1:13-14\x1fiff nota NONE\n\x1e\
    #0@1:0-1 #0@1:2-4 #0@1:5-8 #1@1:9-10 #12@1:11-13 #123@1:14-19 newline@1:19-20\x1f0 00 0_0 1 12 1_2_3\n\x1e\
    #1@1:0-1 'a'@1:1-4 #1@1:5-6 LeftParenthesis@1:6-7 #2@1:7-8 RightParenthesis@1:8-9 x@1:9-10 newline@1:10-11\x1f1'a' 1(2)x\n\x1e\
    #31@1:0-4 #2748@1:5-11 #15@1:12-16 #7@1:17-20 #5@1:21-26 #1@1:27-31 #15@1:32-36 newline@1:36-37\x1f0x1F 0XaB_c 0o17 0O7 0b101 0B_1 0x_f\n\x1e\
    #170141183460469231731687303715884105727@1:0-39 newline@1:39-40\x1f170141183460469231731687303715884105727\n\x1e\
    #170141183460469231731687303715884105727@1:0-34 newline@1:34-35\x1f0x7fffffffffffffffffffffffffffffff\n\x1e\
    'a'@1:0-3 'b'@1:4-7 'c'@1:8-15 'd'@1:16-23 newline@1:23-24\x1f'a' \"b\" '''c''' \"\"\"d\"\"\"\n\x1e\
    ''@1:0-2 ''@1:3-5 ''@1:6-12 ''@1:13-16 newline@1:16-17\x1f'' \"\" '''''' r''\n\x1e\
    'a\"b'@1:0-5 'a'b'@1:6-11 'a'b''c'@1:12-24 newline@1:24-25\x1f'a\"b' \"a'b\" '''a'b''c'''\n\x1e\
    'a\\'b'@1:0-7 '\\n\\x'@1:8-15 'x\t'@1:16-22 'y'@1:23-27 newline@1:27-28\x1fr'a\\'b' R\"\\n\\x\" u'x\\t' U\"y\"\n\x1e\
    r@1:0-1 x@1:2-3 newline@1:3-4\x1fr x\n\x1e\
    'a\n'b\"c\n'@1:0-13 newline@3:13-14 x@4:14-15 newline@4:15-16\x1f\"\"\"a\n'b\"c\n\"\"\"\nx\n\x1e\
    'ab'@1:0-6 newline@2:6-7 x@3:7-8 newline@3:8-9\x1f'a\\\nb'\nx\n\x1e\
    'a\\\nb'@1:0-7 newline@2:7-8 x@3:8-9 newline@3:9-10\x1fr'a\\\nb'\nx\n\x1e\
    '\\N\\ud800\\\\'@1:0-13 '\\''@1:14-19 'a\n\\\"'@1:20-31 newline@2:31-32\x1fr'\\N\\ud800\\\\' R'\\'' r\"\"\"a\n\\\"\"\"\"\n\x1e\
    'a\n'@1:0-11 newline@2:11-12\x1f'''\\\na\\n'''\n\x1e\
    '\\'\"\x07\x08\x0c\n\r\t\x0b'@1:0-22 newline@1:22-23\x1f'\\\\\\'\\\"\\a\\b\\f\\n\\r\\t\\v'\n\x1e\
    '\0\nAA8ǿ\\8'@1:0-22 newline@1:22-23\x1f'\\0\\12\\101\\1018\\777\\8'\n\x1e\
    'A\x7féé\u{1f600}\u{10ffff}'@1:0-40 newline@1:40-41\x1f'\\x41\\x7f\\xe9\\u00e9\\U0001F600\\U0010ffff'\n\x1e\
    '\\q\\é\\_'@1:0-9 newline@1:9-10\x1f'\\q\\é\\_'\n\x1e\
    'é\u{1f600}'@1:0-8 x@1:9-10 newline@1:10-11\x1f'é\u{1f600}' x\n\x1e\
    'a'@1:0-3 'b'@1:4-7 newline@1:7-8\x1f'a' 'b'\n\x1e\
    x@2:5-6 newline@2:6-7\x1f# é\nx\n\x1e\
    'a\x0cb'@1:0-5 newline@1:9-10 x@2:10-11 newline@2:11-12\x1f'a\x0cb' # \x0c\nx\n\x1e\
    Plus@1:0-1 Minus@1:2-3 Star@1:4-5 FloorDivide@1:6-8 Percent@1:9-10 Power@1:11-13 Equal@1:14-16 NotEqual@1:17-19 Less@1:20-21 LessEqual@1:22-24 Greater@1:25-26 GreaterEqual@1:27-29 Assign@1:30-31 PlusAssign@1:32-34 MinusAssign@1:35-37 StarAssign@1:38-40 FloorDivideAssign@1:41-44 PercentAssign@1:45-47 PowerAssign@1:48-51 Comma@1:52-53 Colon@1:54-55 Dot@1:56-57 Semicolon@1:58-59 newline@1:59-60\x1f+ - * // % ** == != < <= > >= = += -= *= //= %= **= , : . ;\n\x1e\
    LeftParenthesis@1:0-1 RightParenthesis@1:1-2 LeftBracket@1:2-3 RightBracket@1:3-4 LeftBrace@1:4-5 RightBrace@1:5-6 newline@1:6-7\x1f()[]{}\n\x1e\
    a@1:0-1 PowerAssign@1:1-4 b@1:4-5 Power@1:5-7 c@1:7-8 FloorDivideAssign@1:8-11 d@1:11-12 FloorDivide@1:12-14 e@1:14-15 Star@1:15-16 f@1:16-17 newline@1:17-18\x1fa**=b**c//=d//e*f\n\x1e\
    a@1:0-1 LessEqual@1:1-3 b@1:3-4 Less@1:4-5 c@1:5-6 Equal@1:6-8 d@1:8-9 NotEqual@1:9-11 e@1:11-12 GreaterEqual@1:12-14 f@1:14-15 Greater@1:15-16 g@1:16-17 Assign@1:17-18 h@1:18-19 newline@1:19-20\x1fa<=b<c==d!=e>=f>g=h\n\x1e\
    a@1:0-1 MinusAssign@1:1-3 #1@1:3-4 Minus@1:4-5 b@1:5-6 PlusAssign@1:6-8 #2@1:8-9 Plus@1:9-10 c@1:10-11 StarAssign@1:11-13 #3@1:13-14 Star@1:14-15 d@1:15-16 PercentAssign@1:16-18 #4@1:18-19 Percent@1:19-20 e@1:20-21 newline@1:21-22\x1fa-=1-b+=2+c*=3*d%=4%e\n\x1e\
    a@1:0-1 Dot@1:1-2 b@1:2-3 Semicolon@1:3-4 c@1:4-5 Colon@1:5-6 d@1:6-7 newline@1:7-8\x1fa.b;c:d\n\x1e\
    a@1:0-1 Minus@1:1-2 Minus@1:2-3 b@1:3-4 newline@1:4-5\x1fa--b\n\x1e\
    x@1:0-1 newline@1:1-2 y@2:2-3 newline@2:3-4 z@3:4-5 newline@3:5-6\x1fx\r\ny\rz\n\x1e\
    x@1:0-1 newline@1:1-2 y@3:3-4 newline@3:4-5\x1fx\r\r\ny\n\x1e\
    'a\nb\nc'@1:0-11 d@3:12-13 newline@3:13-14\x1f'''a\r\nb\rc''' d\n\x1e\
    x@2:4-5 newline@2:5-6\x1f# a\rx\n\x1e\
    x@1:0-1 newline@1:1-2\x1fx\n\n\n  # end\x1e\
    aaaaaaaaaaaaaaaaaaaaaaaaaaaaaaaaaaaaaaaaaaaaaaaaaaaaaaaaaaaaaaaaaaaaaaaaaaaaaaaaaaaaaaaaaaaaaaaaaaaaaaaaaaaaaaaaaaaaaaaaaaaaaaaaaaaaaaaaaaaaaaaaaaaaaaaaaaaaaaaaaaaaaaaaaaaaaaaaaaaaaaaaaaaaaaaaaaaaaaaaaaaaaaaaaaaaaaaaaaaaaaaaaaaaaaaaaaaaaaaaaaaaaaaaaaaaaaa@1:0-255 newline@1:255-256\x1faaaaaaaaaaaaaaaaaaaaaaaaaaaaaaaaaaaaaaaaaaaaaaaaaaaaaaaaaaaaaaaaaaaaaaaaaaaaaaaaaaaaaaaaaaaaaaaaaaaaaaaaaaaaaaaaaaaaaaaaaaaaaaaaaaaaaaaaaaaaaaaaaaaaaaaaaaaaaaaaaaaaaaaaaaaaaaaaaaaaaaaaaaaaaaaaaaaaaaaaaaaaaaaaaaaaaaaaaaaaaaaaaaaaaaaaaaaaaaaaaaaaaaaaaaaaaaa\n\x1e\
    x@1:0-1 Assign@1:2-3 #1@1:4-5 newline@1:5-6\x1fx\t=\t1\n\x1e\
    x@2:2-3 newline@2:3-4\x1f\\\nx\n\x1e\
    x@2:4-5 newline@2:5-6\x1f\\\n  x\n\x1e\
    indent@1:0-2 a@2:5-6 newline@2:6-6 dedent@2:6-6\x1f  \\\n a\x1e\
    indent@1:0-2 x@3:7-8 newline@3:8-9 dedent@4:9-9 y@4:9-10 newline@4:10-11\x1f  \\\n\\\n x\ny\n\x1e\
    If@1:0-2 a@1:3-4 Colon@1:4-5 newline@1:5-6 indent@2:6-8 b@3:11-12 newline@3:12-13 dedent@4:13-13\x1fif a:\n  \\\n b\n\x1e\
    If@1:0-2 a@1:3-4 Colon@1:4-5 newline@1:5-6 indent@2:6-10 b@2:10-11 newline@2:11-12 dedent@3:12-12 c@4:14-15 newline@4:15-16\x1fif a:\n    b\n\\\nc\n\x1e\
    If@1:0-2 a@1:3-4 Colon@1:4-5 newline@1:5-6 indent@2:6-8 If@2:8-10 b@2:11-12 Colon@2:12-13 newline@2:13-14 indent@3:14-18 c@3:18-19 newline@3:19-20 dedent@4:22-22 d@5:24-25 newline@5:25-26 dedent@6:26-26\x1fif a:\n  if b:\n    c\n  \\\nd\n\x1e\
    x@1:0-1 newline@2:3-3\x1fx\\\n\x1e\
    \x1f\\\n\x1e\
    x@1:0-1 newline@1:1-2 y@6:14-15 newline@6:15-16\x1fx\n  \\\n\n\\\n # c\ny\n\x1e\
    br@1:0-2 'x'@1:2-5 newline@1:5-6\x1fbr'x'\n\x1e\
    rr@1:0-2 'x'@1:2-5 newline@1:5-6\x1frr'x'\n\x1e\
    ur@1:0-2 'x'@1:2-5 Rr@1:6-8 'y'@1:8-11 newline@1:11-11\x1fur'x' Rr'y'\x1e\
    Dot@1:0-1 #5@1:1-2 newline@1:2-3\x1f.5\n\x1e\
    a@1:0-1 Less@1:1-2 Greater@1:2-3 b@1:3-4 Colon@1:4-5 Assign@1:5-6 c@1:6-7 Minus@1:7-8 Greater@1:8-9 d@1:9-10 Dot@1:10-11 Dot@1:11-12 Dot@1:12-13 newline@1:13-14\x1fa<>b:=c->d...\n\x1e\
    #1@1:0-1 If@1:2-4 x@1:5-6 newline@1:6-7\x1f1 if x\n\x1e\
    print@1:0-5 newline@1:5-6\x1fprint\n\x1e\
    line 2\x1fa\n$\n\x1e\
    line 1\x1f?\x1e\
    line 1\x1fa ! b\x1e\
    line 1\x1fa / b\x1e\
    line 1\x1fa /= b\x1e\
    line 1\x1fa @ b\x1e\
    line 1\x1f~a\x1e\
    line 1\x1fé\x1e\
    line 1\x1faé\x1e\
    line 1\x1fa\x0cb\x1e\
    line 1\x1f\x0ca\x1e\
    line 2\x1fx\n \x0c\n\x1e\
    line 1\x1fa\x0b\x1e\
    line 1\x1f\u{a0}a\x1e\
    line 1\x1f\u{feff}a\x1e\
    line 5\x1fa\n\n(\n\n`\x1e\
    line 1\x1fa\0\x1e\
    line 2\x1fa\n# \0\n\x1e\
    line 2\x1f\n\0\n\x1e\
    line 1\x1f'\0'\x1e\
    line 3\x1f'''\n\n\0'''\x1e\
    line 1\x1f'''\n\0\n\\x1'''\x1e\
    line 1\x1f'''\n\0\x1e\
    line 3\x1fif a:\n  b\n#\0\n c\x1e\
    line 1\x1fr'\\\0'\x1e\
    line 1\x1fa\\\0\x1e\
    line 1\x1f1\0\x1e\
    line 2\x1f(\n# \0\n\x1e\
    line 1\x1fa \\ b\x1e\
    line 1\x1fa\\\x1e\
    line 1\x1f\\\x1e\
    line 1\x1fa\\ \nb\x1e\
    line 3\x1fif a:\n    b\n  c\n\x1e\
    line 3\x1fif a:\n\tb\n        c\n\x1e\
    line 3\x1fif a:\n  b\n\tc\n\x1e\
    line 4\x1fif a:\n  if b:\n    c\n   d\n\x1e\
    line 3\x1fif a:\n\t b\n \tc\n\x1e\
    line 3\x1fif a:\n    b\n  \\\nc\n\x1e\
    line 3\x1fif a:\n    b\n  \\\n$\x1e\
    line 3\x1fif a:\n    b\n  \\\n)\x1e\
    line 4\x1fif a:\n    b\n  \\\n# \0\x1e\
    line 4\x1fif a:\n    b\n\\\n$\x1e\
    line 3\x1fif a:\n    b\n  '''\n\0\x1e\
    line 3\x1fif a:\n    b\n  '''\n\0'''\x1e\
    line 3\x1fif a:\n    b\n  'c\\\n\0'\x1e\
    line 4\x1fif a:\n    b\n    '''\n\0'''\x1e\
    line 3\x1fif a:\n    b\n '''\n\\x1'''\x1e\
    line 1\x1f)\x1e\
    line 2\x1f(\n]\x1e\
    line 1\x1f(]\x1e\
    line 1\x1f[(])\x1e\
    line 2\x1f{\n)\n\x1e\
    line 1\x1f(\n\x1e\
    line 2\x1f(\n[\n\x1e\
    line 1\x1f(\n[\n]\n\x1e\
    line 3\x1f(\n\n$\x1e\
    line 2\x1f(\n'a\x1e\
    line 1\x1f{a\nb\x1e\
    line 1\x1faaaaaaaaaaaaaaaaaaaaaaaaaaaaaaaaaaaaaaaaaaaaaaaaaaaaaaaaaaaaaaaaaaaaaaaaaaaaaaaaaaaaaaaaaaaaaaaaaaaaaaaaaaaaaaaaaaaaaaaaaaaaaaaaaaaaaaaaaaaaaaaaaaaaaaaaaaaaaaaaaaaaaaaaaaaaaaaaaaaaaaaaaaaaaaaaaaaaaaaaaaaaaaaaaaaaaaaaaaaaaaaaaaaaaaaaaaaaaaaaaaaaaaaaaaaaaaaa\x1e\
    line 1\x1f01\x1e\
    line 1\x1f0_1\x1e\
    line 1\x1f1_\x1e\
    line 1\x1f1__0\x1e\
    line 1\x1f0x\x1e\
    line 1\x1f0x_\x1e\
    line 1\x1f0x1_\x1e\
    line 1\x1f0x__1\x1e\
    line 1\x1f0xg\x1e\
    line 1\x1f0b2\x1e\
    line 1\x1f0o8\x1e\
    line 1\x1f1a\x1e\
    line 1\x1f1.5\x1e\
    line 1\x1f1.\x1e\
    line 1\x1f0x1.\x1e\
    line 1\x1f1_a\x1e\
    line 1\x1f12e3\x1e\
    line 1\x1f1if\x1e\
    line 1\x1f0__0\x1e\
    line 1\x1f170141183460469231731687303715884105728\x1e\
    line 1\x1f0x80000000000000000000000000000000\x1e\
    line 1\x1f99999999999999999999999999999999999999999999\x1e\
    line 1\x1f'a\nb'\x1e\
    line 2\x1fx\n'''a\n\x1e\
    line 1\x1f'a\x1e\
    line 1\x1f'a\\\x1e\
    line 1\x1fr'\\'\x1e\
    line 1\x1f'''a''\x1e\
    line 1\x1f\"a'\x1e\
    line 1\x1f'\\x4'\x1e\
    line 1\x1f'\\xg1'\x1e\
    line 1\x1f'\\u123'\x1e\
    line 1\x1f'\\U0001234'\x1e\
    line 1\x1f'\\ud800'\x1e\
    line 1\x1f'\\udfff'\x1e\
    line 1\x1f'\\U00110000'\x1e\
    line 1\x1f'\\N{DIGIT ONE}'\x1e\
    line 2\x1fx\n'''a\n\\N'''\x1e\
    line 1\x1f'\\x\x1e\
    line 1\x1fu'\\N'\x1e\
    line 1\x1f'\\UD800DFFF'\x1e\
    line 1\x1f'\\Uffffffff'\x1e\
    line 2\x1f\n'''\n\\udc00'''\x1e\
    line 1\x1fr'''a''\x1e\
    line 1\x1fr'a\nb'\x1e\
    line 1\x1f'''\\'''\x1e\
    line 3\x1fx = \\\n\n$\x1e\
    line 3\x1f'a\\\nb'\n$\x1e\
    line 3\x1f'''a\n\n'''$\x1e\
    line 2\x1fa\r\n$\x1e\
    line 2\x1fa\r$\x1e\
    line 3\x1fa\r\r$\x1e\
    ";
