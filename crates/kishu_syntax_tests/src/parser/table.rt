// Made by tools/rows/trees.py: what is wanted and the text, with \x1f between, and \x1e behind each row.
pub(crate) const COUNT: usize = 447;

pub(crate) const ROWS: &str = "\
    \x1f\x1e\
    (= (to) x)\x1fx\n\x1e\
    (= (to x) #1)\x1fx = 1\n\x1e\
    (= (to a b) (tuple c d))\x1fa = b = c, d\n\x1e\
    (= (to (tuple a b)) (tuple b a))\x1fa, b = b, a\n\x1e\
    (= (to (tuple a)) x)\x1fa, = x\n\x1e\
    (= (to (tuple (paren (tuple a b)) (list c d))) x)\x1f(a, b), [c, d] = x\n\x1e\
    (= (to (paren a) (list b)) x)\x1f(a) = [b] = x\n\x1e\
    (= (to (primary a (. b)) (primary c (index #1)) (primary d (index (tuple #1 #2)))) x)\x1fa.b = c[1] = d[1, 2] = x\n\x1e\
    (= (to (primary a (. b) (call c) (. d) (index e) (. f))) #1)\x1fa.b(c).d[e].f = 1\n\x1e\
    (update a Add (tuple #1 #2))\x1fa += 1, 2\n\x1e\
    (update (primary a (. b)) Subtract #1)(update (primary a (index #0)) Multiply #2)(update a FloorDivide #3)(update a Modulo #4)(update a Power #5)\x1fa.b -= 1; a[0] *= 2; a //= 3; a %= 4; a **= 5\n\x1e\
    (= (to) (sum #1 Add #2 Subtract #3 Add #4))\x1f1 + 2 - 3 + 4\n\x1e\
    (= (to) (sum (product #1 Multiply #2 FloorDivide #3 Modulo #4) Add #5))\x1f1 * 2 // 3 % 4 + 5\n\x1e\
    (= (to) (product (paren (sum #1 Add #2)) Multiply #3))\x1f(1 + 2) * 3\n\x1e\
    (= (to) (sum #1 Add (paren (sum #2 Add #3))))\x1f1 + (2 + 3)\n\x1e\
    (= (to) (sum (Minus #1) Add (Plus #2) Subtract (Minus #3)))\x1f-1 + +2 - -3\n\x1e\
    (= (to) (Minus (power a (Minus (power b c)))))\x1f-a ** -b ** c\n\x1e\
    (= (to) (power a (power b c)))\x1fa ** b ** c\n\x1e\
    (= (to) (compared a Less b LessEqual c Greater d GreaterEqual e Equal f NotEqual g))\x1fa < b <= c > d >= e == f != g\n\x1e\
    (= (to) (compared a In b NotIn c Is d IsNot e))\x1fa in b not in c is d is not e\n\x1e\
    (= (to) (compared (paren (compared a Less b)) Less c))\x1f(a < b) < c\n\x1e\
    (= (to) (not (compared a Equal b)))\x1fnot a == b\n\x1e\
    (= (to) (or (and (not (not a)) b) (and c (not d))))\x1fnot not a and b or c and not d\n\x1e\
    (= (to) (or a (paren (or b c)) d))\x1fa or (b or c) or d\n\x1e\
    (= (to) (if x a (if y b z)))\x1fx if a else y if b else z\n\x1e\
    (= (to) (primary a (. b) (. c) (call d) (index e) (call f (= g #1) (= h #2))))\x1fa.b.c(d)[e](f, g=1, h=2,)\n\x1e\
    (= (to) (primary f (call)))\x1ff()\n\x1e\
    (= (to) (primary f (call (paren a))))\x1ff((a))\n\x1e\
    (= (to) (primary f (call (paren (tuple a b)) (tuple))))\x1ff((a, b), ())\n\x1e\
    (= (to) (tuple (primary a (slice #1 #2 _)) (primary a (slice _ _ _)) (primary a (slice _ _ _)) (primary a (slice #1 _ _)) (primary a (slice _ #2 _)) (primary a (slice _ _ #3)) (primary a (slice #1 #2 #3)) (primary a (slice _ #2 _)) (primary a (slice (tuple) #1 _))))\x1fa[1:2], a[:], a[::], a[1:], a[:2], a[::3], a[1:2:3], a[:2:], a[():1]\n\x1e\
    (= (to) (tuple (primary a (index (tuple #1 #2))) (primary a (index (tuple #1)))))\x1fa[1, 2], a[1,]\n\x1e\
    (= (to) (tuple (tuple) (paren (tuple a)) (paren (paren a)) (list) (list a) (list a b) (dict) (dict a b) (dict a b c d)))\x1f(), (a,), ((a)), [], [a], [a, b,], {}, {a: b}, {a: b, c: d,}\n\x1e\
    (= (to) 'abc')\x1f'a' 'b' \"c\"\n\x1e\
    (= (to) (tuple None True False))\x1fNone, True, False\n\x1e\
    (pass)(= (to) x)(= (to) y)\x1fpass; x; y;\n\x1e\
    (assert a _)(assert a b)\x1fassert a\nassert a, b\n\x1e\
    (del a (primary b (. c)) (primary d (index #0)))\x1fdel a, b.c, d[0]\n\x1e\
    (import _)(import S)\x1ffrom types import SimpleNamespace\nfrom types import SimpleNamespace as S\n\x1e\
    (if [a {(= (to) b)}][c {(= (to) d)}][e {(= (to) f)}] {(= (to) g)})\x1fif a: b\nelif c: d\nelif e: f\nelse: g\n\x1e\
    (if [a {(if [b {(= (to) c)}] {(= (to) d)})}] {})\x1fif a:\n  if b:\n    c\n  else:\n    d\n\x1e\
    (while a {(if [b {(break)}] {(continue)})})\x1fwhile a:\n  if b: break\n  else: continue\n\x1e\
    (for (tuple a b) (tuple c d) {(= (to) e)})\x1ffor a, b in c, d:\n  e\n\x1e\
    (for (tuple (paren (tuple a b))) c {(= (to) d)})\x1ffor (a, b), in c: d\n\x1e\
    (for (primary a (. b) (index c)) d {(= (to) e)})\x1ffor a.b[c] in d: e\n\x1e\
    (try {(= (to) a)} [A b {(raise _)}] [(paren (tuple B C)) _ {(= (to) c)}] [_ _ {(= (to) d)}] {(= (to) e)} {(= (to) f)})\x1ftry:\n  a\nexcept A as b:\n  raise\nexcept (B, C):\n  c\nexcept:\n  d\nelse:\n  e\nfinally:\n  f\n\x1e\
    (finally {(= (to) a)} {(= (to) b)})\x1ftry: a\nfinally: b\n\x1e\
    (raise a)\x1fraise a\n\x1e\
    (def f {(pass)} 'def f(): pass')\x1fdef f(): pass\n\x1e\
    (def f (a _) (b #1) (c (paren #2)) {(global d e)(= (to d) a)(return (tuple d b))} 'def f(a, b=1, c=(2),):\n  global d, e\n  d = a\n  return d, b')(= (to) (primary f (call #1)))\x1fdef f(a, b=1, c=(2),):\n  global d, e\n  d = a\n  return d, b\n# c\nf(1)\n\x1e\
    (def f {(for x a {(if [x {(return _)}] {})})(return x)} 'def f():\n  for x in a:\n    if x: return\n  return x')\x1fdef f():\n  for x in a:\n    if x: return\n  return x\n\x1e\
    (def f {(global a)(global a)(= (to a) #1)} 'def f():\n  global a\n  global a\n  a = 1')\x1fdef f():\n  global a\n  global a\n  a = 1\n\x1e\
    (= (to) (paren (tuple a b)))\x1f(\n  a,\n  b\n)\n\x1e\
    \x1f# c\n\x1e\
    (def f {(= (to) a)} 'def f(): a;')\x1fdef f(): a;\n\x1e\
    (if [a {(def f {(= (to) b)} 'def f():\n\n    b ;')}] {(= (to) e)})\x1fif a:\n  def f():\n\n    b ;  # c\n\n# d\nelse: e\n\x1e\
    (for (tuple x) a {(= (to) b)(= (to) c)})\x1ffor x, in a: b; c;\n\x1e\
    (for (paren x) (compared a In b) {(= (to) c)})\x1ffor (x) in a in b: c\n\x1e\
    (for (list x y) a {(= (to) b)})\x1ffor [x, y] in a: b\n\x1e\
    (= (to (list a b) (list c) (primary (paren d) (index #0)) (primary (list e) (. f))) g)\x1f[a, b,] = [c] = (d)[0] = [e].f = g\n\x1e\
    (del (primary a (index (tuple #1))) (primary (paren b) (. c)))\x1fdel a[1,], (b).c\n\x1e\
    (update (primary a (index (tuple #1))) Add (tuple b))\x1fa[1,] += b,\n\x1e\
    (= (to) (if x a (if (paren (if y b z)) c w)))\x1fx if a else (y if b else z) if c else w\n\x1e\
    (= (to) (tuple (compared a Less (Minus (power b (Plus c)))) (not (compared a In b)) (compared (paren (not a)) In b)))\x1fa < -b ** +c, not a in b, (not a) in b\n\x1e\
    (= (to) (primary f (call (if a b c) (= d (or e f))) (call (compared a Equal #1))))\x1ff(a if b else c, d=e or f)(a == 1)\n\x1e\
    (def f (a b) (c a) {(global b f)(= (to b f) #1)} 'def f(a=b, c=a):\n  global b, f\n  b = f = 1')\x1fdef f(a=b, c=a):\n  global b, f\n  b = f = 1\n\x1e\
    (def f {(if [a {(global b)}] {(= (to b) #1)})} 'def f():\n  if a: global b\n  else: b = 1')\x1fdef f():\n  if a: global b\n  else: b = 1\n\x1e\
    (def f {(= (to) (primary x (. a) (call (= b #1))))(global a b a)} 'def f():\n  x.a(b=1)\n  global a, b, a')\x1fdef f():\n  x.a(b=1)\n  global a, b, a\n\x1e\
    (while a {(try {(= (to) b)} [_ _ {(break)}] {(continue)} {(break)})})\x1fwhile a:\n  try: b\n  except: break\n  else: continue\n  finally: break\n\x1e\
    (while a {(def f {(for b c {(return b)})} 'def f():\n    for b in c:\n      return b')(break)})\x1fwhile a:\n  def f():\n    for b in c:\n      return b\n  break\n\x1e\
    (try {(= (to) a)} [A _ {(while b {(if [c {(raise _)}] {})})}] {} {})\x1ftry: a\nexcept A:\n  while b:\n    if c: raise\n\x1e\
    (def f {(try {(= (to) a)} [_ _ {(finally {(raise _)} {(raise _)})}] {} {})} 'def f():\n  try: a\n  except:\n    try: raise\n    finally: raise')\x1fdef f():\n  try: a\n  except:\n    try: raise\n    finally: raise\n\x1e\
    (try {(= (to) a)} [A _ {(= (to) b)}] {(= (to) d)} {(= (to) e)})\x1ftry: a\nexcept A: b\n\n# c\nelse: d\n\nfinally: e\n\x1e\
    (def f (e #1) {(pass)} 'def f(e=1): pass')\x1fdef f(e=1): pass\n\x1e\
    (= (to x) '\u{e9}\u{20ac}\u{1f600}')(def f (a '\u{20ac}') {(return '\u{1f600}')} 'def f(a='\u{20ac}'):\n  # \u{e9}\n  return '\u{1f600}'')(= (to) (primary f (call)))\x1fx = '\u{e9}\u{20ac}\u{1f600}'\ndef f(a='\u{20ac}'):\n  # \u{e9}\n  return '\u{1f600}'  # \u{e9}\n\nf()\n\x1e\
    (if [a {(def f {(if [b {(= (to) c)}] {})} 'def f():\n    if b:\n      c')(= (to) d)}] {})\x1fif a:\n  def f():\n    if b:\n      c\n\n  d\n\x1e\
    (def f {(= (to) a)(= (to) b)} 'def f(): a; b')(= (to) (primary g (call)))\x1fdef f(): a; b\ng()\n\x1e\
    (= (to) (primary a (index b) (call c) (slice d e _) (. f) (call g)))\x1fa[b](c)[d:e].f(g)\n\x1e\
    (= (to x) (not (compared a In b)))\x1fx = not a in b\n\x1e\
    (for x (if a b c) {(= (to) d)})\x1ffor x in a if b else c: d\n\x1e\
    (for (tuple (primary a (index #0)) (primary b (. c)) (paren (tuple d (list e)))) f {(= (to) g)})\x1ffor a[0], b.c, (d, [e]), in f: g\n\x1e\
    (del (primary a (index b)) (primary c (call d) (. e)))\x1fdel a[b], c(d).e\n\x1e\
    (try {(= (to) a)} [(paren B) _ {(raise C)}] {} {})\x1ftry: a\nexcept (B): raise C\n\x1e\
    (= (to) (Minus (power #1 (Minus #2))))\x1f-1 ** -2\n\x1e\
    (= (to) (tuple (if a b c) d))\x1fa if b else c, d\n\x1e\
    (= (to) (primary f (call (if a b c) (= d (or e g)))))\x1ff(a if b else c, d=e or g)\n\x1e\
    (= (to x y z) (paren a))\x1fx = y = z = (a)\n\x1e\
    (= (to) (dict a (if b c d)))\x1f{a: b if c else d}\n\x1e\
    (= (to (primary a (. b)) (primary c (. d) (. e))) f)\x1fa.b = c.d.e = f\n\x1e\
    (while True {(finally {(break)} {(continue)})})\x1fwhile True:\n  try:\n    break\n  finally:\n    continue\n\x1e\
    (def f (a _) (b _) (c d) (e g) {(return _)} 'def f(a, b, c=d, e=g): return')\x1fdef f(a, b, c=d, e=g): return\n\x1e\
    (def f {(for x y {(if [z {(continue)}] {(break)})})(global w)} 'def f():\n  for x in y:\n    if z:\n      continue\n    else:\n      break\n  global w')\x1fdef f():\n  for x in y:\n    if z:\n      continue\n    else:\n      break\n  global w\n\x1e\
    (= (to) x)\x1fx\x1e\
    (= (to x) #1)(def f {(= (to) a)(return b)} 'def f():\n  a\n\n  return b')(= (to) (primary f (call)))\x1fx = 1\r\ndef f():\r\n  a\r\n\r\n  return b\r\nf()\r\n\x1e\
    (= (to a) (sum b Add (paren (sum c Add d))))\x1fa = \\\n  b + (c\n  + d)\x1e\
    (= (to) (tuple #31 #15 #3 #1000 #0 #170141183460469231731687303715884105727))\x1f0x1F, 0o17, 0b11, 1_000, 0, 170141183460469231731687303715884105727\n\x1e\
    (try {(= (to) a)} [A _ {(= (to) b)}] {(= (to) c)} {})\x1ftry: a\nexcept A: b\nelse: c\n\x1e\
    (try {(= (to) a)} [A _ {(= (to) b)}] {} {(= (to) c)})\x1ftry: a\nexcept A: b\nfinally: c\n\x1e\
    (finally {(= (to) a)} {(try {(= (to) b)} [_ _ {(= (to) c)}] {} {})})\x1ftry:\n  a\nfinally:\n  try: b\n  except: c\n\x1e\
    (try {(= (to) a)} [_ _ {(= (to) b)}] {(if [c {(= (to) d)}] {})} {})\x1ftry: a\nexcept: b\nelse:\n  if c: d\n\x1e\
    (try {(= (to) a)} [(primary a (. b) (call c)) d {(= (to) e)}] [B _ {(= (to) f)}] {} {})\x1ftry: a\nexcept a.b(c) as d: e\nexcept B: f\n\x1e\
    (def f {(return (tuple a (paren b)))} 'def f(): return a, (b),')\x1fdef f(): return a, (b),\n\x1e\
    (def f (a _) {(return _)} 'def f(a): return')(def g (a _) (b _) {(= (to) (primary f (call a)))(return (primary f (call b)))} 'def g(a, b,): f(a); return f(b)')\x1fdef f(a): return\ndef g(a, b,): f(a); return f(b)\n\x1e\
    (= (to) (primary f (call a) (call (= b #1)) (call) (index c) (call d (= e #1))))\x1ff(a,)(b=1,)()[c](d, e=1)\n\x1e\
    (= (to) (primary (list (paren (tuple a b)) (list c) (dict d (paren e)) (tuple)) (index #0) (slice #1 _ _)))\x1f[(a, b), [c], {d: (e)}, ()][0][1:]\n\x1e\
    (= (to (primary (paren (primary a (. b))) (index c) (. d)) (paren e)) f)\x1f(a.b)[c].d = (e) = f\n\x1e\
    (= (to (tuple (primary (paren a) (index #0)) (list (primary b (. c))))) d)\x1f(a)[0], [b.c] = d\n\x1e\
    (= (to (list (list a b) (paren (tuple c (list d))))) e)\x1f[[a, b], (c, [d]),] = e\n\x1e\
    (= (to) (or (and (not (compared a Less b)) (compared c In d)) (not (paren (or e f)))))\x1fnot a < b and c in d or not (e or f)\n\x1e\
    (= (to) (tuple (power (paren (power a b)) c) (power (paren (Minus a)) b) (Minus (paren (Minus a))) (Plus (primary a (. b) (call c)))))\x1f(a ** b) ** c, (-a) ** b, -(-a), +a.b(c)\n\x1e\
    (= (to) (if (paren (if a b c)) (paren d) e))\x1f(a if b else c) if (d) else e\n\x1e\
    (= (to) (if (and a b) (or c d) (not e)))\x1fa and b if c or d else not e\n\x1e\
    (= (to) (tuple (compared a IsNot b) (compared a Is (paren (not b))) (compared a NotIn (paren b)) (not (paren (compared a In b)))))\x1fa is not b, a is (not b), a not in (b), not (a in b)\n\x1e\
    (raise (primary A (call 'b')))\x1fraise A('b')\n\x1e\
    (assert (paren (tuple a b)) (if c d e))\x1fassert (a, b), c if d else e\n\x1e\
    (while (not a) {(= (to) b)(break)})\x1fwhile not a: b; break\n\x1e\
    (if [a {(= (to) b)(= (to) c)}] {(= (to) d)(= (to) e)})\x1fif a: b; c;\nelse: d; e\n\x1e\
    (if [a {(if [b {(= (to) c)}][d {(= (to) e)}] {})}][f {(= (to) g)}] {(= (to) h)})\x1fif a:\n  if b: c\n  elif d: e\nelif f:\n  g\nelse:\n  h\n\x1e\
    (for x (tuple a b (paren c)) {(= (to) d)})\x1ffor x in a, b, (c): d\n\x1e\
    (for x y {(for z x {(if [z {(break)}] {})})(continue)})\x1ffor x in y:\n  for z in x:\n    if z: break\n  continue\n\x1e\
    (while a {(try {(break)} [A _ {(while b {(raise _)})}] {} {})(continue)})\x1fwhile a:\n  try: break\n  except A:\n    while b: raise\n  continue\n\x1e\
    (= (to) (paren (paren (paren (paren (paren (paren (paren (paren (paren (paren (paren (paren (paren (paren (paren (paren (paren (paren (paren (paren (paren (paren (paren (paren (paren (paren (paren (paren (paren (paren (paren (paren (paren (paren (paren (paren (paren (paren (paren (paren (paren (paren (paren (paren (paren (paren (paren (paren (paren (paren (paren (paren (paren (paren (paren (paren (paren (paren (paren (paren a)))))))))))))))))))))))))))))))))))))))))))))))))))))))))))))\x1f((((((((((((((((((((((((((((((((((((((((((((((((((((((((((((a))))))))))))))))))))))))))))))))))))))))))))))))))))))))))))\n\x1e\
    (= (to) (list (list (list (list (list (list (list (list (list (list (list (list (list (list (list (list (list (list (list (list (list (list (list (list (list (list (list (list (list (list (list (list (list (list (list (list (list (list (list (list (list (list (list (list (list (list (list (list (list (list (list (list (list (list (list (list (list (list (list (list a)))))))))))))))))))))))))))))))))))))))))))))))))))))))))))))\x1f[[[[[[[[[[[[[[[[[[[[[[[[[[[[[[[[[[[[[[[[[[[[[[[[[[[[[[[[[[[[a]]]]]]]]]]]]]]]]]]]]]]]]]]]]]]]]]]]]]]]]]]]]]]]]]]]]]]]]]]]]\n\x1e\
    (= (to) (primary a (index (primary a (index (primary a (index (primary a (index (primary a (index (primary a (index (primary a (index (primary a (index (primary a (index (primary a (index (primary a (index (primary a (index (primary a (index (primary a (index (primary a (index (primary a (index (primary a (index (primary a (index (primary a (index (primary a (index (primary a (index (primary a (index (primary a (index (primary a (index (primary a (index (primary a (index (primary a (index (primary a (index (primary a (index (primary a (index (primary a (index (primary a (index (primary a (index (primary a (index (primary a (index (primary a (index (primary a (index (primary a (index (primary a (index (primary a (index (primary a (index (primary a (index (primary a (index (primary a (index (primary a (index (primary a (index (primary a (index (primary a (index (primary a (index (primary a (index (primary a (index (primary a (index (primary a (index (primary a (index (primary a (index (primary a (index (primary a (index (primary a (index (primary a (index (primary a (index a)))))))))))))))))))))))))))))))))))))))))))))))))))))))))))))))))))))))))))))))))))))))))))))))))))))))))))))))))))))))))\x1fa[a[a[a[a[a[a[a[a[a[a[a[a[a[a[a[a[a[a[a[a[a[a[a[a[a[a[a[a[a[a[a[a[a[a[a[a[a[a[a[a[a[a[a[a[a[a[a[a[a[a[a[a[a[a[a[a[a[a[a[a]]]]]]]]]]]]]]]]]]]]]]]]]]]]]]]]]]]]]]]]]]]]]]]]]]]]]]]]]]]]\n\x1e\
    (= (to) (primary f (call (primary f (call (primary f (call (primary f (call (primary f (call (primary f (call (primary f (call (primary f (call (primary f (call (primary f (call (primary f (call (primary f (call (primary f (call (primary f (call (primary f (call (primary f (call (primary f (call (primary f (call (primary f (call (primary f (call (primary f (call (primary f (call (primary f (call (primary f (call (primary f (call (primary f (call (primary f (call (primary f (call (primary f (call (primary f (call (primary f (call (primary f (call (primary f (call (primary f (call (primary f (call (primary f (call (primary f (call (primary f (call (primary f (call (primary f (call (primary f (call (primary f (call (primary f (call (primary f (call (primary f (call (primary f (call (primary f (call (primary f (call (primary f (call (primary f (call (primary f (call (primary f (call (primary f (call (primary f (call (primary f (call (primary f (call (primary f (call (primary f (call (primary f (call (primary f (call a)))))))))))))))))))))))))))))))))))))))))))))))))))))))))))))))))))))))))))))))))))))))))))))))))))))))))))))))))))))))))\x1ff(f(f(f(f(f(f(f(f(f(f(f(f(f(f(f(f(f(f(f(f(f(f(f(f(f(f(f(f(f(f(f(f(f(f(f(f(f(f(f(f(f(f(f(f(f(f(f(f(f(f(f(f(f(f(f(f(f(f(f(a))))))))))))))))))))))))))))))))))))))))))))))))))))))))))))\n\x1e\
    (= (to) (not (not (not (not (not (not (not (not (not (not (not (not (not (not (not (not (not (not (not (not (not (not (not (not (not (not (not (not (not (not (not (not (not (not (not (not (not (not (not (not (not (not (not (not (not (not (not (not (not (not (not (not (not (not (not (not (not (not (not (not a)))))))))))))))))))))))))))))))))))))))))))))))))))))))))))))\x1fnot not not not not not not not not not not not not not not not not not not not not not not not not not not not not not not not not not not not not not not not not not not not not not not not not not not not not not not not not not not not a\n\x1e\
    (= (to) (Minus (Minus (Minus (Minus (Minus (Minus (Minus (Minus (Minus (Minus (Minus (Minus (Minus (Minus (Minus (Minus (Minus (Minus (Minus (Minus (Minus (Minus (Minus (Minus (Minus (Minus (Minus (Minus (Minus (Minus (Minus (Minus (Minus (Minus (Minus (Minus (Minus (Minus (Minus (Minus (Minus (Minus (Minus (Minus (Minus (Minus (Minus (Minus (Minus (Minus (Minus (Minus (Minus (Minus (Minus (Minus (Minus (Minus (Minus (Minus a)))))))))))))))))))))))))))))))))))))))))))))))))))))))))))))\x1f- - - - - - - - - - - - - - - - - - - - - - - - - - - - - - - - - - - - - - - - - - - - - - - - - - - - - - - - - - - - a\n\x1e\
    (= (to) (power a (power a (power a (power a (power a (power a (power a (power a (power a (power a (power a (power a (power a (power a (power a (power a (power a (power a (power a (power a (power a (power a (power a (power a (power a (power a (power a (power a (power a (power a (power a (power a (power a (power a (power a (power a (power a (power a (power a (power a (power a (power a (power a (power a (power a (power a (power a (power a (power a (power a (power a (power a (power a (power a (power a (power a (power a (power a (power a (power a a)))))))))))))))))))))))))))))))))))))))))))))))))))))))))))))\x1fa ** a ** a ** a ** a ** a ** a ** a ** a ** a ** a ** a ** a ** a ** a ** a ** a ** a ** a ** a ** a ** a ** a ** a ** a ** a ** a ** a ** a ** a ** a ** a ** a ** a ** a ** a ** a ** a ** a ** a ** a ** a ** a ** a ** a ** a ** a ** a ** a ** a ** a ** a ** a ** a ** a ** a ** a ** a ** a ** a ** a\n\x1e\
    (= (to) (if a b (if a b (if a b (if a b (if a b (if a b (if a b (if a b (if a b (if a b (if a b (if a b (if a b (if a b (if a b (if a b (if a b (if a b (if a b (if a b (if a b (if a b (if a b (if a b (if a b (if a b (if a b (if a b (if a b (if a b (if a b (if a b (if a b (if a b (if a b (if a b (if a b (if a b (if a b (if a b (if a b (if a b (if a b (if a b (if a b (if a b (if a b (if a b (if a b (if a b (if a b (if a b (if a b (if a b (if a b (if a b (if a b (if a b (if a b (if a b a)))))))))))))))))))))))))))))))))))))))))))))))))))))))))))))\x1fa if b else a if b else a if b else a if b else a if b else a if b else a if b else a if b else a if b else a if b else a if b else a if b else a if b else a if b else a if b else a if b else a if b else a if b else a if b else a if b else a if b else a if b else a if b else a if b else a if b else a if b else a if b else a if b else a if b else a if b else a if b else a if b else a if b else a if b else a if b else a if b else a if b else a if b else a if b else a if b else a if b else a if b else a if b else a if b else a if b else a if b else a if b else a if b else a if b else a if b else a if b else a if b else a if b else a if b else a if b else a if b else a if b else a if b else a if b else a if b else a\n\x1e\
    (= (to (paren (paren (paren (paren (paren (paren (paren (paren (paren (paren (paren (paren (paren (paren (paren (paren (paren (paren (paren (paren (paren (paren (paren (paren (paren (paren (paren (paren (paren (paren (paren (paren (paren (paren (paren (paren (paren (paren (paren (paren (paren (paren (paren (paren (paren (paren (paren (paren (paren (paren (paren (paren (paren (paren (paren (paren (paren (paren (paren (paren a))))))))))))))))))))))))))))))))))))))))))))))))))))))))))))) b)\x1f((((((((((((((((((((((((((((((((((((((((((((((((((((((((((((a)))))))))))))))))))))))))))))))))))))))))))))))))))))))))))) = b\n\x1e\
    (= (to) (paren (paren (paren (paren (paren (paren (paren (paren (paren (paren (paren (paren (paren (paren (paren (paren (paren (paren (paren (paren (paren (paren (paren (paren (paren (paren (paren (paren (paren (paren (paren (paren (paren (paren (paren (paren (paren (paren (paren (paren (paren (paren (paren (paren (paren (paren (paren (paren (paren (paren (paren (paren (paren (paren (paren (paren (paren (paren (paren (tuple)))))))))))))))))))))))))))))))))))))))))))))))))))))))))))))\x1f(((((((((((((((((((((((((((((((((((((((((((((((((((((((((((())))))))))))))))))))))))))))))))))))))))))))))))))))))))))))\n\x1e\
    (= (to) (list (list (list (list (list (list (list (list (list (list (list (list (list (list (list (list (list (list (list (list (list (list (list (list (list (list (list (list (list (list (list (list (list (list (list (list (list (list (list (list (list (list (list (list (list (list (list (list (list (list (list (list (list (list (list (list (list (list (list (list)))))))))))))))))))))))))))))))))))))))))))))))))))))))))))))\x1f[[[[[[[[[[[[[[[[[[[[[[[[[[[[[[[[[[[[[[[[[[[[[[[[[[[[[[[[[[[[]]]]]]]]]]]]]]]]]]]]]]]]]]]]]]]]]]]]]]]]]]]]]]]]]]]]]]]]]]]]\n\x1e\
    (= (to) (primary f (call (primary f (call (primary f (call (primary f (call (primary f (call (primary f (call (primary f (call (primary f (call (primary f (call (primary f (call (primary f (call (primary f (call (primary f (call (primary f (call (primary f (call (primary f (call (primary f (call (primary f (call (primary f (call (primary f (call (primary f (call (primary f (call (primary f (call (primary f (call (primary f (call (primary f (call (primary f (call (primary f (call (primary f (call (primary f (call (primary f (call (primary f (call (primary f (call (primary f (call (primary f (call (primary f (call (primary f (call (primary f (call (primary f (call (primary f (call (primary f (call (primary f (call (primary f (call (primary f (call (primary f (call (primary f (call (primary f (call (primary f (call (primary f (call (primary f (call (primary f (call (primary f (call (primary f (call (primary f (call (primary f (call (primary f (call (primary f (call (primary f (call (primary f (call (primary f (call)))))))))))))))))))))))))))))))))))))))))))))))))))))))))))))))))))))))))))))))))))))))))))))))))))))))))))))))))))))))))\x1ff(f(f(f(f(f(f(f(f(f(f(f(f(f(f(f(f(f(f(f(f(f(f(f(f(f(f(f(f(f(f(f(f(f(f(f(f(f(f(f(f(f(f(f(f(f(f(f(f(f(f(f(f(f(f(f(f(f(f(f())))))))))))))))))))))))))))))))))))))))))))))))))))))))))))\n\x1e\
    (= (to) (primary a (index (primary a (index (primary a (index (primary a (index (primary a (index (primary a (index (primary a (index (primary a (index (primary a (index (primary a (index (primary a (index (primary a (index (primary a (index (primary a (index (primary a (index (primary a (index (primary a (index (primary a (index (primary a (index (primary a (index (primary a (index (primary a (index (primary a (index (primary a (index (primary a (index (primary a (index (primary a (index (primary a (index (primary a (index (primary a (index (primary a (index (primary a (index (primary a (index (primary a (index (primary a (index (primary a (index (primary a (index (primary a (index (primary a (index (primary a (index (primary a (index (primary a (index (primary a (index (primary a (index (primary a (index (primary a (index (primary a (index (primary a (index (primary a (index (primary a (index (primary a (index (primary a (index (primary a (index (primary a (index (primary a (index (primary a (index (primary a (index (primary a (index (primary a (index (primary a (slice _ _ _)))))))))))))))))))))))))))))))))))))))))))))))))))))))))))))))))))))))))))))))))))))))))))))))))))))))))))))))))))))))))\x1fa[a[a[a[a[a[a[a[a[a[a[a[a[a[a[a[a[a[a[a[a[a[a[a[a[a[a[a[a[a[a[a[a[a[a[a[a[a[a[a[a[a[a[a[a[a[a[a[a[a[a[a[a[a[a[a[a[a[a[a[:]]]]]]]]]]]]]]]]]]]]]]]]]]]]]]]]]]]]]]]]]]]]]]]]]]]]]]]]]]]]\n\x1e\
    (= (to) (dict a (dict a (dict a (dict a (dict a (dict a (dict a (dict a (dict a (dict a (dict a (dict a (dict a (dict a (dict a (dict a (dict a (dict a (dict a (dict a (dict a (dict a (dict a (dict a (dict a (dict a (dict a (dict a (dict a (dict a (dict a (dict a (dict a (dict a (dict a (dict a (dict a (dict a (dict a (dict a (dict a (dict a (dict a (dict a (dict a (dict a (dict a (dict a (dict a (dict a (dict a (dict a (dict a (dict a (dict a (dict a (dict a (dict a (dict a (dict)))))))))))))))))))))))))))))))))))))))))))))))))))))))))))))\x1f{a: {a: {a: {a: {a: {a: {a: {a: {a: {a: {a: {a: {a: {a: {a: {a: {a: {a: {a: {a: {a: {a: {a: {a: {a: {a: {a: {a: {a: {a: {a: {a: {a: {a: {a: {a: {a: {a: {a: {a: {a: {a: {a: {a: {a: {a: {a: {a: {a: {a: {a: {a: {a: {a: {a: {a: {a: {a: {a: {}}}}}}}}}}}}}}}}}}}}}}}}}}}}}}}}}}}}}}}}}}}}}}}}}}}}}}}}}}}}\n\x1e\
    (if [a {(if [a {(if [a {(if [a {(if [a {(if [a {(if [a {(if [a {(if [a {(if [a {(if [a {(if [a {(if [a {(if [a {(if [a {(if [a {(if [a {(if [a {(if [a {(if [a {(if [a {(if [a {(if [a {(if [a {(if [a {(if [a {(if [a {(if [a {(if [a {(if [a {(if [a {(if [a {(if [a {(if [a {(if [a {(if [a {(if [a {(if [a {(if [a {(if [a {(if [a {(if [a {(if [a {(if [a {(if [a {(if [a {(if [a {(if [a {(if [a {(if [a {(if [a {(if [a {(if [a {(if [a {(if [a {(if [a {(if [a {(if [a {(if [a {(if [a {(= (to) b)}] {})}] {})}] {})}] {})}] {})}] {})}] {})}] {})}] {})}] {})}] {})}] {})}] {})}] {})}] {})}] {})}] {})}] {})}] {})}] {})}] {})}] {})}] {})}] {})}] {})}] {})}] {})}] {})}] {})}] {})}] {})}] {})}] {})}] {})}] {})}] {})}] {})}] {})}] {})}] {})}] {})}] {})}] {})}] {})}] {})}] {})}] {})}] {})}] {})}] {})}] {})}] {})}] {})}] {})}] {})}] {})}] {})}] {})}] {})}] {})\x1fif a:\n  if a:\n    if a:\n      if a:\n        if a:\n          if a:\n            if a:\n              if a:\n                if a:\n                  if a:\n                    if a:\n                      if a:\n                        if a:\n                          if a:\n                            if a:\n                              if a:\n                                if a:\n                                  if a:\n                                    if a:\n                                      if a:\n                                        if a:\n                                          if a:\n                                            if a:\n                                              if a:\n                                                if a:\n                                                  if a:\n                                                    if a:\n                                                      if a:\n                                                        if a:\n                                                          if a:\n                                                            if a:\n                                                              if a:\n                                                                if a:\n                                                                  if a:\n                                                                    if a:\n                                                                      if a:\n                                                                        if a:\n                                                                          if a:\n                                                                            if a:\n                                                                              if a:\n                                                                                if a:\n                                                                                  if a:\n                                                                                    if a:\n                                                                                      if a:\n                                                                                        if a:\n                                                                                          if a:\n                                                                                            if a:\n                                                                                              if a:\n                                                                                                if a:\n                                                                                                  if a:\n                                                                                                    if a:\n                                                                                                      if a:\n                                                                                                        if a:\n                                                                                                          if a:\n                                                                                                            if a:\n                                                                                                              if a:\n                                                                                                                if a:\n                                                                                                                  if a:\n                                                                                                                    if a:\n                                                                                                                      if a:\n                                                                                                                        b\n\x1e\
    (if [a {(if [a {(if [a {(if [a {(if [a {(if [a {(if [a {(if [a {(if [a {(if [a {(if [a {(if [a {(if [a {(if [a {(if [a {(if [a {(if [a {(if [a {(if [a {(if [a {(if [a {(if [a {(if [a {(if [a {(if [a {(if [a {(if [a {(if [a {(if [a {(if [a {(if [a {(if [a {(if [a {(if [a {(if [a {(if [a {(if [a {(if [a {(if [a {(if [a {(if [a {(if [a {(if [a {(if [a {(if [a {(if [a {(if [a {(if [a {(if [a {(if [a {(if [a {(if [a {(if [a {(if [a {(if [a {(if [a {(if [a {(if [a {(if [a {(if [a {(pass)}] {})}] {})}] {})}] {})}] {})}] {})}] {})}] {})}] {})}] {})}] {})}] {})}] {})}] {})}] {})}] {})}] {})}] {})}] {})}] {})}] {})}] {})}] {})}] {})}] {})}] {})}] {})}] {})}] {})}] {})}] {})}] {})}] {})}] {})}] {})}] {})}] {})}] {})}] {})}] {})}] {})}] {})}] {})}] {})}] {})}] {})}] {})}] {})}] {})}] {})}] {})}] {})}] {})}] {})}] {})}] {})}] {})}] {})}] {})}] {})\x1fif a:\n  if a:\n    if a:\n      if a:\n        if a:\n          if a:\n            if a:\n              if a:\n                if a:\n                  if a:\n                    if a:\n                      if a:\n                        if a:\n                          if a:\n                            if a:\n                              if a:\n                                if a:\n                                  if a:\n                                    if a:\n                                      if a:\n                                        if a:\n                                          if a:\n                                            if a:\n                                              if a:\n                                                if a:\n                                                  if a:\n                                                    if a:\n                                                      if a:\n                                                        if a:\n                                                          if a:\n                                                            if a:\n                                                              if a:\n                                                                if a:\n                                                                  if a:\n                                                                    if a:\n                                                                      if a:\n                                                                        if a:\n                                                                          if a:\n                                                                            if a:\n                                                                              if a:\n                                                                                if a:\n                                                                                  if a:\n                                                                                    if a:\n                                                                                      if a:\n                                                                                        if a:\n                                                                                          if a:\n                                                                                            if a:\n                                                                                              if a:\n                                                                                                if a:\n                                                                                                  if a:\n                                                                                                    if a:\n                                                                                                      if a:\n                                                                                                        if a:\n                                                                                                          if a:\n                                                                                                            if a:\n                                                                                                              if a:\n                                                                                                                if a:\n                                                                                                                  if a:\n                                                                                                                    if a:\n                                                                                                                      if a: pass\n\x1e\
    line 1\x1fa = = 1\n\x1e\
    line 1\x1f(a) += 1, = 2\n\x1e\
    line 2\x1fx\na[1:2] += = 3\n\x1e\
    line 1\x1ff(a=1, 2)\n\x1e\
    line 1\x1fx if y\n\x1e\
    line 1\x1ffor x in\n\x1e\
    line 1\x1ff(a=1, a=2)\n\x1e\
    line 1\x1fa + = 1\n\x1e\
    line 1\x1f(a, b) += 1\n\x1e\
    line 1\x1ff() = 1\n\x1e\
    line 1\x1fa + b = 1\n\x1e\
    line 1\x1fa, b += 1\n\x1e\
    line 1\x1f1 = a\n\x1e\
    line 1\x1fa not b\n\x1e\
    line 1\x1fa < not b\n\x1e\
    line 1\x1fa ** not b\n\x1e\
    line 1\x1f- not a\n\x1e\
    line 1\x1fdel a + b\n\x1e\
    line 1\x1fdel f()\n\x1e\
    line 1\x1fa b\n\x1e\
    line 1\x1fa.1\n\x1e\
    line 1\x1f{a}, {b: c, d}\n\x1e\
    line 1\x1fa[]\n\x1e\
    line 1\x1f(,)\n\x1e\
    line 1\x1ff(,)\n\x1e\
    line 1\x1fpass pass\n\x1e\
    line 1\x1f;\n\x1e\
    line 1\x1fa;; b\n\x1e\
    line 1\x1fif a b\n\x1e\
    line 1\x1fif a:\nb\n\x1e\
    line 1\x1fx\nelse: y\n\x1e\
    line 3\x1fx\ny\nif a: b\nelif: c\nz\n\x1e\
    line 2\x1fx\ntry: a\ny\n\x1e\
    line 1\x1ftry: a\nelse: b\n\x1e\
    line 1\x1fwhile a: b\nelif c: d\n\x1e\
    line 1\x1f  a\n\x1e\
    line 1\x1fa\n  b\nc\n\x1e\
    line 1\x1fif a:\n  b\n    c\nd\n\x1e\
    line 1\x1freturn\n\x1e\
    line 2\x1fx\nbreak\n\x1e\
    line 1\x1fcontinue\n\x1e\
    line 1\x1fif a: break\n\x1e\
    line 1\x1fwhile a:\n  def f(): break\n\x1e\
    line 1\x1fdef f(a, a): pass\n\x1e\
    line 1\x1fdef f(a=1, b): pass\n\x1e\
    line 1\x1fdef f(a):\n  global a\n\x1e\
    line 1\x1fdef f():\n  a = 1\n  global a\n\x1e\
    line 1\x1fdef f():\n  x.a(a)\n  global b, a\n\x1e\
    line 1\x1fdef f():\n  for a in b: c\n  global a\n\x1e\
    line 1\x1fdef f(,): pass\n\x1e\
    line 1\x1fdef f(1): pass\n\x1e\
    line 1\x1ftry: a\nexcept: b\nexcept A: c\n\x1e\
    line 1\x1ffrom types import\n\x1e\
    line 1\x1fglobal\n\x1e\
    line 1\x1fassert a, b, c\n\x1e\
    line 1\x1fx = yield = 1\n\x1e\
    line 1\x1fraise a, b\n\x1e\
    line 1\x1fx = (pass)\n\x1e\
    line 4\x1fx\n\n# c\nif a:\n  b\n\n  c +\nd\n\x1e\
    line 1\x1fx += y = z\n\x1e\
    line 1\x1fx = y += z\n\x1e\
    line 1\x1fif a: if b: c\n\x1e\
    line 1\x1ffor x in a: while b: c\n\x1e\
    line 1\x1fif a: b\n  c\n\x1e\
    line 1\x1fx\n\nelse: y\nz\n\x1e\
    line 2\x1fx\nif a: b\nexcept: c\n\x1e\
    line 2\x1fx\nif a: b\n\nelif c: d\nelse: e\nelse: f\ng\n\x1e\
    line 1\x1felse: x\ny\n\x1e\
    line 3\x1f\n\n  x\ny\n\x1e\
    line 2\x1fx\n(\n  a\n) b\n\x1e\
    line 2\x1fpass\n;\n\x1e\
    line 1\x1fx;;\n\x1e\
    line 1\x1fdef f():\n  if a:\n    b\n  global b\n\x1e\
    line 1\x1fdef f():\n  global a; a = 1; global a\n\x1e\
    line 1\x1fdef f():\n  try: a\n  except A as b: global b\n\x1e\
    line 1\x1fdef f():\n  a.b = c\n  global d, c\n\x1e\
    line 1\x1fdef f():\n  for a in b: global a\n\x1e\
    line 1\x1fdef f():\n  del a\n  global a\n\x1e\
    line 1\x1fdef f():\n  a += 1\n  global a\n\x1e\
    line 1\x1ftry: a\nfinally: b\nexcept: c\n\x1e\
    line 1\x1ftry: a\nexcept A, B: c\n\x1e\
    line 1\x1ftry: a\nexcept as b: c\n\x1e\
    line 1\x1ftry: a\n\x1e\
    line 1\x1fglobal a,\n\x1e\
    line 1\x1fassert a,\n\x1e\
    line 1\x1fx if a\n\x1e\
    line 1\x1fx if a if b else c else d\n\x1e\
    line 1\x1fa = not = b\n\x1e\
    line 1\x1f{a: b: c}\n\x1e\
    line 1\x1ff(a b)\n\x1e\
    line 1\x1ff(1=a)\n\x1e\
    line 1\x1ff(a.b=1)\n\x1e\
    line 1\x1fa..b\n\x1e\
    line 1\x1fa[1:2:3:4]\n\x1e\
    line 1\x1fNone = 1\n\x1e\
    line 1\x1f(a + b) = 1\n\x1e\
    line 1\x1f'a' = b\n\x1e\
    line 1\x1ffor a + b in c: d\n\x1e\
    line 1\x1ffor x in a b: c\n\x1e\
    line 1\x1fdef f(a b): c\n\x1e\
    line 1\x1fdef f(a.b): c\n\x1e\
    line 1\x1fdef f()\n  a\n\x1e\
    line 1\x1fwhile a:\n  if b:\n    c\n    def f(): continue\n\x1e\
    line 1\x1fif a:\n\x1e\
    line 1\x1ffrom types import SimpleNamespace as\n\x1e\
    line 1\x1ffrom types import SimpleNamespace,\n\x1e\
    line 1\x1fdef f(a=1, b=2, c): d\n\x1e\
    line 1\x1fdef f(a, b, a): c\n\x1e\
    line 2\x1fdef f(): return\nreturn\n\x1e\
    line 1\x1ff(a=1, b, c=2)\n\x1e\
    line 1\x1fa = = 1\x1e\
    line 1\x1ff(a=1, 2)\x1e\
    line 1\x1fx if y\x1e\
    line 1\x1ffor x in\x1e\
    line 2\x1fx = 1\nif x:\n    y = \x1e\
    line 1\x1f'abc\x1e\
    line 2\x1fx = = 1\ny = 'abc\x1e\
    line 3\x1fx = = 1\ny\n  $\n\x1e\
    line 2\x1freturn\nx = (\n\x1e\
    line 3\x1fif a:\n    b\n  c\nd = = 1\n\x1e\
    line 2\x1fx\n0x\n\x1e\
    line 3\x1fx = 1\r\ny\rz = = 1\r\n\x1e\
    line 3\x1fa = \\\n  b\nc = \\\n  = d\n\x1e\
    line 1\x1fif a:\n  b\n  c = = d\ne\n\x1e\
    line 1\x1fdef f(a):\n  def g(): pass\n  return = 1\n\x1e\
    line 1\x1fwhile a:\n  b\nelse\n\x1e\
    line 1\x1fif a: b\nelse: c\nelif d: e\n\x1e\
    line 1\x1ftry: a\nexcept A: b\nfinally: c\nelse: d\n\x1e\
    line 1\x1ftry: a\nexcept A: b\nelse: c\nexcept B: d\n\x1e\
    line 1\x1ffor x a: b\n\x1e\
    line 1\x1ffor in a: b\n\x1e\
    line 1\x1fwhile: a\n\x1e\
    line 1\x1fif: a\n\x1e\
    line 1\x1fdef (a): b\n\x1e\
    line 1\x1fdef f: b\n\x1e\
    line 1\x1fdef f(a=): b\n\x1e\
    line 1\x1ffrom types import SimpleNamespace as a.b\n\x1e\
    line 1\x1fglobal a.b\n\x1e\
    line 1\x1fglobal a = 1\n\x1e\
    line 1\x1fa = \n\x1e\
    line 1\x1f= a\n\x1e\
    line 1\x1fa = b +\n\x1e\
    line 1\x1fa + * b\n\x1e\
    line 1\x1fa // // b\n\x1e\
    line 1\x1fa ** \n\x1e\
    line 1\x1fnot\n\x1e\
    line 1\x1fa and\n\x1e\
    line 1\x1for a\n\x1e\
    line 1\x1fa is is b\n\x1e\
    line 1\x1fa in not b\n\x1e\
    line 1\x1fa if else b\n\x1e\
    line 1\x1f(a b)\n\x1e\
    line 1\x1f[a b]\n\x1e\
    line 1\x1f[,]\n\x1e\
    line 1\x1f{,}\n\x1e\
    line 1\x1f{a: b, c}\n\x1e\
    line 1\x1f{a:}\n\x1e\
    line 1\x1ff(a=)\n\x1e\
    line 1\x1ff(=a)\n\x1e\
    line 1\x1ff(a,,b)\n\x1e\
    line 1\x1fa[,]\n\x1e\
    line 1\x1fa.\n\x1e\
    line 1\x1f.a\n\x1e\
    line 1\x1fa.if\n\x1e\
    line 1\x1fif = 1\n\x1e\
    line 1\x1fNone.a = b = 1 = c\n\x1e\
    line 1\x1ff(a) += 1\n\x1e\
    line 1\x1fa + 1 -= 1\n\x1e\
    line 1\x1fnot a = b\n\x1e\
    line 1\x1fa if b else c = d\n\x1e\
    line 1\x1f-a = b\n\x1e\
    line 1\x1f(a, 1) = b\n\x1e\
    line 1\x1f[a, f()] = b\n\x1e\
    line 1\x1fdel 1\n\x1e\
    line 1\x1fdel\n\x1e\
    line 1\x1fassert\n\x1e\
    line 1\x1fbreak a\n\x1e\
    line 1\x1fcontinue a\n\x1e\
    line 1\x1fdef f(): break\n\x1e\
    line 1\x1fwhile a:\n  def f():\n    if b: break\n\x1e\
    line 2\x1fwhile a: b\nbreak\n\x1e\
    line 2\x1ffor a in b: c\ncontinue\n\x1e\
    line 3\x1fwhile a:\n  b\nif c: break\n\x1e\
    line 4\x1fx\nfor a in b:\n  c\ndef f():\n  continue\n\x1e\
    line 1\x1fdef f(a, b=1, *, c): d\nx = = 1\n\x1e\
    line 1\x1fdef f(a=1, b): c\n\x1e\
    line 1\x1ff(a=1, b=2, a=3)\n\x1e\
    line 1\x1ff(a)(b=1, c)\n\x1e\
    line 1\x1ftry: a\nexcept: b\nexcept: c\n\x1e\
    line 1\x1fdef f(a):\n  if b:\n    global a\n\x1e\
    line 1\x1fdef f():\n  while a: global a\n\x1e\
    line 1\x1fdef f():\n  if b: a = 1\n  else: global a\n\x1e\
    line 1\x1fdef f():\n  a[0] = b\n  global a\n\x1e\
    line 1\x1fdef f():\n  b.c(d=a)\n  global a\n\x1e\
    line 1\x1fdef f():\n  {b: a}\n  global a\n\x1e\
    line 1\x1fdef f():\n  b[:a]\n  global a\n\x1e\
    line 1\x1fdef f():\n  assert b, a\n  global a\n\x1e\
    line 1\x1fdef f():\n  raise a\n  global a\n\x1e\
    line 1\x1fdef f():\n  return a\n  global a\n\x1e\
    line 1\x1fdef f():\n  try: b\n  except a: c\n  global a\n\x1e\
    line 1\x1fdef f():\n  b if a else c\n  global a\n\x1e\
    line 1\x1fdef f():\n  for b in c:\n    a\n    global a\n\x1e\
    line 1\x1f(a) += 1\n\x1e\
    line 1\x1fdel (a)\n\x1e\
    line 1\x1fdel a,\n\x1e\
    line 1\x1fa[1:2] = 3\n\x1e\
    line 1\x1f() = a\n\x1e\
    line 1\x1f[] = a\n\x1e\
    line 1\x1fa[1, 2:3]\n\x1e\
    line 1\x1fraise\n\x1e\
    line 1\x1fraise a from b\n\x1e\
    line 1\x1fdef f():\n  def g(): pass\n\x1e\
    line 2\x1fx\nglobal a\n\x1e\
    line 1\x1ff(*a)\n\x1e\
    line 1\x1ff(**a)\n\x1e\
    line 1\x1flambda: a\n\x1e\
    line 1\x1f[a for a in b]\n\x1e\
    line 1\x1f{a, b}\n\x1e\
    line 1\x1fclass A: pass\n\x1e\
    line 1\x1fimport types\n\x1e\
    line 1\x1ffrom types import FunctionType\n\x1e\
    line 1\x1fwhile a: b\nelse: c\n\x1e\
    line 1\x1ffor a in b: c\nelse: d\n\x1e\
    line 1\x1fdef f(a) -> b: pass\n\x1e\
    line 1\x1fa: b\n\x1e\
    line 1\x1fa, *b = c\n\x1e\
    line 1\x1fx = yield_ = (yield_ := 1)\n\x1e\
    line 1\x1fwith a: b\n\x1e\
    line 1\x1ftry:\n  a\nexcept A:\n  def f(): raise\n\x1e\
    line 1\x1ftry: a\nexcept A: b\nelse: raise\n\x1e\
    line 1\x1ftry: a\nexcept A: b\nfinally: raise\n\x1e\
    line 1\x1fdef f(): raise\n\x1e\
    line 1\x1fif a:\n  def f():\n    if b:\n      def g(): c\n\x1e\
    line 1\x1f(a, b)[0:1] += 1\n\x1e\
    line 1\x1f[] = () = a\n\x1e\
    line 1\x1ffor () in a: b\n\x1e\
    line 1\x1fdel [a]\n\x1e\
    line 1\x1fdel (a, b)\n\x1e\
    line 1\x1f(a): b = 1\n\x1e\
    line 1\x1fa[1:2, 3] = b\n\x1e\
    line 1\x1f{**a}\n\x1e\
    line 1\x1f(a for b in c)\n\x1e\
    line 1\x1fdef f(a, /, b): c\n\x1e\
    line 1\x1fdef f(*a): b\n\x1e\
    line 1\x1fdef f(a: b): c\n\x1e\
    line 1\x1fdef f():\n  from types import SimpleNamespace as a\n  global a\n\x1e\
    line 1\x1fdef f():\n  from types import SimpleNamespace\n  global SimpleNamespace\n\x1e\
    line 1\x1ffrom types import (SimpleNamespace)\n\x1e\
    line 2\x1fnonlocal_ = 1\nimport a\n\x1e\
    line 1\x1ftry: a\nexcept* A: b\n\x1e\
    line 1\x1f(a) += 1\x1e\
    line 1\x1fa[1:2] = 3\x1e\
    line 1\x1fdel (a)\x1e\
    line 3\x1fx\n\nraise\n\x1e\
    line 3\x1ftry: a\nexcept A: b\nraise\n\x1e\
    line 1\x1fif a: raise\n\x1e\
    line 1\x1ftry:\n  raise\nexcept A: b\n\x1e\
    line 1\x1ftry: raise\nfinally: b\n\x1e\
    line 1\x1fwhile a:\n  raise\n\x1e\
    line 1\x1fif a:\n  global b\n\x1e\
    line 2\x1fa = {}\na |= b\n\x1e\
    line 1\x1fa = b @ c\n\x1e\
    line 1\x1fa = ~b\n\x1e\
    line 1\x1fa = b / c\n\x1e\
    line 1\x1fa << b\n\x1e\
    line 1\x1fa = 1.5\n\x1e\
    line 1\x1fa = b'c'\n\x1e\
    line 1\x1fa = f'b'\n\x1e\
    line 1\x1fa = ...\n\x1e\
    line 1\x1fa, *b\n\x1e\
    line 1\x1ff(a for b in c)\n\x1e\
    line 1\x1f@a\ndef f(): b\n\x1e\
    line 1\x1fasync def f(): a\n\x1e\
    line 1\x1fmatch a:\n  case b: c\n\x1e\
    line 1\x1ffrom types import SimpleNamespace as a, b\n\x1e\
    line 1\x1ffrom a import b\n\x1e\
    line 1\x1ffrom types import SimpleNamespace, FunctionType\n\x1e\
    line 1\x1fimport types as a\n\x1e\
    line 1\x1fimport a, b\n\x1e\
    line 1\x1ffor a in b:\n  c\nelse:\n  d\n\x1e\
    line 2\x1fx\nwhile a:\n  b\nelse:\n  c\ny\n\x1e\
    line 1\x1ftry: a\nexcept A: b\nelse: c\nfinally: def_ = 1; raise\n\x1e\
    line 1\x1fa: b = c\n\x1e\
    line 1\x1fa.b: c\n\x1e\
    line 1\x1fdel a, (b, c)\n\x1e\
    line 1\x1ffor [] in a: b\n\x1e\
    line 1\x1ffor a[1:2] in b: c\n\x1e\
    line 1\x1fa[b:c] += d\n\x1e\
    line 1\x1fdel a[b:c]\n\x1e\
    line 1\x1fif (a := b): c\n\x1e\
    line 1\x1fdef f():\n  yield a\n\x1e\
    line 1\x1fdef f():\n  nonlocal_ = (yield)\n\x1e\
    line 1\x1fdef f():\n  if a:\n    def g(): b\n\x1e\
    line 1\x1fdef f():\n  while a:\n    b\n    def g(): c\nd\n\x1e\
    line 1\x1f(((((((((((((((((((((((((((((((((((((((((((((((((((((((((((((a)))))))))))))))))))))))))))))))))))))))))))))))))))))))))))))\n\x1e\
    line 1\x1f[[[[[[[[[[[[[[[[[[[[[[[[[[[[[[[[[[[[[[[[[[[[[[[[[[[[[[[[[[[[[a]]]]]]]]]]]]]]]]]]]]]]]]]]]]]]]]]]]]]]]]]]]]]]]]]]]]]]]]]]]]]\n\x1e\
    line 1\x1fa[a[a[a[a[a[a[a[a[a[a[a[a[a[a[a[a[a[a[a[a[a[a[a[a[a[a[a[a[a[a[a[a[a[a[a[a[a[a[a[a[a[a[a[a[a[a[a[a[a[a[a[a[a[a[a[a[a[a[a[a[a]]]]]]]]]]]]]]]]]]]]]]]]]]]]]]]]]]]]]]]]]]]]]]]]]]]]]]]]]]]]]\n\x1e\
    line 1\x1ff(f(f(f(f(f(f(f(f(f(f(f(f(f(f(f(f(f(f(f(f(f(f(f(f(f(f(f(f(f(f(f(f(f(f(f(f(f(f(f(f(f(f(f(f(f(f(f(f(f(f(f(f(f(f(f(f(f(f(f(f(a)))))))))))))))))))))))))))))))))))))))))))))))))))))))))))))\n\x1e\
    line 1\x1fnot not not not not not not not not not not not not not not not not not not not not not not not not not not not not not not not not not not not not not not not not not not not not not not not not not not not not not not not not not not not not a\n\x1e\
    line 1\x1f- - - - - - - - - - - - - - - - - - - - - - - - - - - - - - - - - - - - - - - - - - - - - - - - - - - - - - - - - - - - - a\n\x1e\
    line 1\x1fa ** a ** a ** a ** a ** a ** a ** a ** a ** a ** a ** a ** a ** a ** a ** a ** a ** a ** a ** a ** a ** a ** a ** a ** a ** a ** a ** a ** a ** a ** a ** a ** a ** a ** a ** a ** a ** a ** a ** a ** a ** a ** a ** a ** a ** a ** a ** a ** a ** a ** a ** a ** a ** a ** a ** a ** a ** a ** a ** a ** a ** a\n\x1e\
    line 1\x1fa if b else a if b else a if b else a if b else a if b else a if b else a if b else a if b else a if b else a if b else a if b else a if b else a if b else a if b else a if b else a if b else a if b else a if b else a if b else a if b else a if b else a if b else a if b else a if b else a if b else a if b else a if b else a if b else a if b else a if b else a if b else a if b else a if b else a if b else a if b else a if b else a if b else a if b else a if b else a if b else a if b else a if b else a if b else a if b else a if b else a if b else a if b else a if b else a if b else a if b else a if b else a if b else a if b else a if b else a if b else a if b else a if b else a if b else a if b else a if b else a if b else a\n\x1e\
    line 1\x1f(((((((((((((((((((((((((((((((((((((((((((((((((((((((((((((a))))))))))))))))))))))))))))))))))))))))))))))))))))))))))))) = b\n\x1e\
    line 1\x1f((((((((((((((((((((((((((((((((((((((((((((((((((((((((((((()))))))))))))))))))))))))))))))))))))))))))))))))))))))))))))\n\x1e\
    line 1\x1f[[[[[[[[[[[[[[[[[[[[[[[[[[[[[[[[[[[[[[[[[[[[[[[[[[[[[[[[[[[[[]]]]]]]]]]]]]]]]]]]]]]]]]]]]]]]]]]]]]]]]]]]]]]]]]]]]]]]]]]]]]\n\x1e\
    line 1\x1ff(f(f(f(f(f(f(f(f(f(f(f(f(f(f(f(f(f(f(f(f(f(f(f(f(f(f(f(f(f(f(f(f(f(f(f(f(f(f(f(f(f(f(f(f(f(f(f(f(f(f(f(f(f(f(f(f(f(f(f(f()))))))))))))))))))))))))))))))))))))))))))))))))))))))))))))\n\x1e\
    line 1\x1fa[a[a[a[a[a[a[a[a[a[a[a[a[a[a[a[a[a[a[a[a[a[a[a[a[a[a[a[a[a[a[a[a[a[a[a[a[a[a[a[a[a[a[a[a[a[a[a[a[a[a[a[a[a[a[a[a[a[a[a[a[:]]]]]]]]]]]]]]]]]]]]]]]]]]]]]]]]]]]]]]]]]]]]]]]]]]]]]]]]]]]]]\n\x1e\
    line 1\x1f{a: {a: {a: {a: {a: {a: {a: {a: {a: {a: {a: {a: {a: {a: {a: {a: {a: {a: {a: {a: {a: {a: {a: {a: {a: {a: {a: {a: {a: {a: {a: {a: {a: {a: {a: {a: {a: {a: {a: {a: {a: {a: {a: {a: {a: {a: {a: {a: {a: {a: {a: {a: {a: {a: {a: {a: {a: {a: {a: {a: {}}}}}}}}}}}}}}}}}}}}}}}}}}}}}}}}}}}}}}}}}}}}}}}}}}}}}}}}}}}}}\n\x1e\
    line 1\x1fif a:\n  if a:\n    if a:\n      if a:\n        if a:\n          if a:\n            if a:\n              if a:\n                if a:\n                  if a:\n                    if a:\n                      if a:\n                        if a:\n                          if a:\n                            if a:\n                              if a:\n                                if a:\n                                  if a:\n                                    if a:\n                                      if a:\n                                        if a:\n                                          if a:\n                                            if a:\n                                              if a:\n                                                if a:\n                                                  if a:\n                                                    if a:\n                                                      if a:\n                                                        if a:\n                                                          if a:\n                                                            if a:\n                                                              if a:\n                                                                if a:\n                                                                  if a:\n                                                                    if a:\n                                                                      if a:\n                                                                        if a:\n                                                                          if a:\n                                                                            if a:\n                                                                              if a:\n                                                                                if a:\n                                                                                  if a:\n                                                                                    if a:\n                                                                                      if a:\n                                                                                        if a:\n                                                                                          if a:\n                                                                                            if a:\n                                                                                              if a:\n                                                                                                if a:\n                                                                                                  if a:\n                                                                                                    if a:\n                                                                                                      if a:\n                                                                                                        if a:\n                                                                                                          if a:\n                                                                                                            if a:\n                                                                                                              if a:\n                                                                                                                if a:\n                                                                                                                  if a:\n                                                                                                                    if a:\n                                                                                                                      if a:\n                                                                                                                        if a:\n                                                                                                                          b\n\x1e\
    line 1\x1fif a:\n  if a:\n    if a:\n      if a:\n        if a:\n          if a:\n            if a:\n              if a:\n                if a:\n                  if a:\n                    if a:\n                      if a:\n                        if a:\n                          if a:\n                            if a:\n                              if a:\n                                if a:\n                                  if a:\n                                    if a:\n                                      if a:\n                                        if a:\n                                          if a:\n                                            if a:\n                                              if a:\n                                                if a:\n                                                  if a:\n                                                    if a:\n                                                      if a:\n                                                        if a:\n                                                          if a:\n                                                            if a:\n                                                              if a:\n                                                                if a:\n                                                                  if a:\n                                                                    if a:\n                                                                      if a:\n                                                                        if a:\n                                                                          if a:\n                                                                            if a:\n                                                                              if a:\n                                                                                if a:\n                                                                                  if a:\n                                                                                    if a:\n                                                                                      if a:\n                                                                                        if a:\n                                                                                          if a:\n                                                                                            if a:\n                                                                                              if a:\n                                                                                                if a:\n                                                                                                  if a:\n                                                                                                    if a:\n                                                                                                      if a:\n                                                                                                        if a:\n                                                                                                          if a:\n                                                                                                            if a:\n                                                                                                              if a:\n                                                                                                                if a:\n                                                                                                                  if a:\n                                                                                                                    if a:\n                                                                                                                      if a:\n                                                                                                                        if a: pass\n\x1e\
    ";
