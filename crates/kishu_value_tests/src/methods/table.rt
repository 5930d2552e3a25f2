// Printed by tools/rows/method_rows.py, from what CPython answers.

/// A value, a method, its arguments and the budget; and what the call gives, the steps that it takes
/// and the value then.
pub(crate) const ROWS: &str = "\
    list;|append|1;|100\x1dNone|0|[1,]\x1e\
    list;1;|append|list~2;|100\x1dNone|0|[1,node,]\x1e\
    list;4;5;|append|itself;|100\x1dNone|0|[4,5,node,]\x1e\
    list;|append||100\x1dTypeError: append() got bad arguments|0|[]\x1e\
    list;|append|1;2;|100\x1dTypeError: append() got bad arguments|0|[]\x1e\
    list;1;2;|pop||100\x1d2|0|[1,]\x1e\
    list;|pop||100\x1dIndexError: pop from empty list|0|[]\x1e\
    list;1;2;3;|pop|0;|100\x1d1|3|[2,3,]\x1e\
    list;1;2;3;|pop|-1;|100\x1d3|3|[1,2,]\x1e\
    list;1;2;3;|pop|-3;|100\x1d1|3|[2,3,]\x1e\
    list;1;2;3;|pop|True;|100\x1d2|3|[1,3,]\x1e\
    list;'a;list~1;3;|pop|1;|100\x1d[1,]|3|['a',3,]\x1e\
    list;1;2;|pop|2;|100\x1dIndexError: index out of range|0|[1,2,]\x1e\
    list;1;2;|pop|-3;|100\x1dIndexError: index out of range|0|[1,2,]\x1e\
    list;|pop|0;|100\x1dIndexError: pop from empty list|0|[]\x1e\
    list;1;|pop|'a;|100\x1dTypeError: bad index type: 'str'|0|[1,]\x1e\
    list;|pop|None;|100\x1dTypeError: bad index type: 'NoneType'|0|[]\x1e\
    list;1;|pop|0;0;|100\x1dTypeError: pop() got bad arguments|0|[1,]\x1e\
    list;1;2;|pop|0;|1\x1dspent|1|[1,2,]\x1e\
    list;1;2;|pop|9;|1\x1dIndexError: index out of range|0|[1,2,]\x1e\
    list;1;2;|pop||0\x1d2|0|[1,]\x1e\
    list;1;2;|insert|0;'x;|100\x1dNone|2|['x',1,2,]\x1e\
    list;1;2;|insert|1;'x;|100\x1dNone|2|[1,'x',2,]\x1e\
    list;1;2;|insert|2;'x;|100\x1dNone|2|[1,2,'x',]\x1e\
    list;1;2;|insert|9;'x;|100\x1dNone|2|[1,2,'x',]\x1e\
    list;1;2;|insert|-1;'x;|100\x1dNone|2|[1,'x',2,]\x1e\
    list;1;2;|insert|-2;'x;|100\x1dNone|2|['x',1,2,]\x1e\
    list;1;2;|insert|-9;'x;|100\x1dNone|2|['x',1,2,]\x1e\
    list;|insert|5;1;|100\x1dNone|0|[1,]\x1e\
    list;|insert|-5;1;|100\x1dNone|0|[1,]\x1e\
    list;1;|insert|True;None;|100\x1dNone|1|[1,None,]\x1e\
    list;1;|insert|None;2;|100\x1dTypeError: bad index type: 'NoneType'|0|[1,]\x1e\
    list;1;|insert|0;|100\x1dTypeError: insert() got bad arguments|0|[1,]\x1e\
    list;1;|insert|'0;2;3;|100\x1dTypeError: insert() got bad arguments|0|[1,]\x1e\
    list;1;2;|insert|0;3;|1\x1dspent|1|[1,2,]\x1e\
    list;1;2;|clear||100\x1dNone|0|[]\x1e\
    list;|clear||100\x1dNone|0|[]\x1e\
    list;1;|clear|1;|100\x1dTypeError: clear() got bad arguments|0|[1,]\x1e\
    list;1;2;|clear||0\x1dNone|0|[]\x1e\
    list;1;|extend|list~2~3;|100\x1dNone|2|[1,2,3,]\x1e\
    list;1;|extend|itself;|100\x1dNone|1|[1,1,]\x1e\
    list;1;|extend|tuple~2;|100\x1dNone|1|[1,2,]\x1e\
    list;|extend|'ab;|100\x1dNone|2|['a','b',]\x1e\
    list;0;|extend|range~1~7~2;|100\x1dNone|3|[0,1,3,5,]\x1e\
    list;|extend|dict~1=2~'a=3;|100\x1dNone|2|[1,'a',]\x1e\
    list;1;|extend|list;|100\x1dNone|0|[1,]\x1e\
    list;1;|extend|5;|100\x1dTypeError: 'int' object is not iterable|0|[1,]\x1e\
    list;1;|extend|None;|100\x1dTypeError: 'NoneType' object is not iterable|0|[1,]\x1e\
    list;1;|extend||100\x1dTypeError: extend() got bad arguments|0|[1,]\x1e\
    list;1;|extend|list~1;list~2;|100\x1dTypeError: extend() got bad arguments|0|[1,]\x1e\
    list;1;|extend|list~2~3;|1\x1dspent|1|[1,]\x1e\
    list;1;|extend|range~0~1000000000000000000000000000000~1;|100\x1dspent|100|[1,]\x1e\
    list;1;2;1;|remove|1;|100\x1dNone|1|[2,1,]\x1e\
    list;1;2;|remove|2;|100\x1dNone|2|[1,]\x1e\
    list;1;2;|remove|3;|100\x1dValueError: value not found|2|[1,2,]\x1e\
    list;|remove|1;|100\x1dValueError: value not found|0|[]\x1e\
    list;0;True;|remove|1;|100\x1dNone|2|[0,]\x1e\
    list;list~1;list~2;|remove|list~2;|100\x1dNone|4|[node,]\x1e\
    list;'ab;'a;|remove|'a;|100\x1dNone|4|['ab',]\x1e\
    list;1;|remove||100\x1dTypeError: remove() got bad arguments|0|[1,]\x1e\
    list;'ab;'ac;|remove|'ac;|4\x1dspent|4|['ab','ac',]\x1e\
    list;'ab;'ac;|remove|'ac;|5\x1dspent|5|['ab','ac',]\x1e\
    list;'ab;'ac;|remove|'ac;|6\x1dNone|6|['ab',]\x1e\
    list;1;2;1;|index|1;|100\x1d0|1|[1,2,1,]\x1e\
    list;1;True;2;|index|2;|100\x1d2|3|[1,True,2,]\x1e\
    list;1;|index|'1;|100\x1dValueError: value not found|1|[1,]\x1e\
    list;|index|1;|100\x1dValueError: value not found|0|[]\x1e\
    list;1;|index|1;0;|100\x1dTypeError: index() got bad arguments|0|[1,]\x1e\
    list;1;2;True;|count|1;|100\x1d2|3|[1,2,True,]\x1e\
    list;|count|1;|100\x1d0|0|[]\x1e\
    list;'a;'a;'b;|count|'a;|100\x1d2|6|['a','a','b',]\x1e\
    list;list;list;tuple;|count|list;|100\x1d2|3|[node,node,node,]\x1e\
    list;1;2;3;|count|3;|2\x1dspent|2|[1,2,3,]\x1e\
    list;1;|count||100\x1dTypeError: count() got bad arguments|0|[1,]\x1e\
    list;1;2;3;|reverse||100\x1dNone|3|[3,2,1,]\x1e\
    list;|reverse||100\x1dNone|0|[]\x1e\
    list;1;2;|reverse||1\x1dspent|1|[1,2,]\x1e\
    list;1;|reverse|1;|100\x1dTypeError: reverse() got bad arguments|0|[1,]\x1e\
    list;1;list~2;|copy||100\x1d[1,node,]|2|[1,node,]\x1e\
    list;|copy||100\x1d[]|0|[]\x1e\
    list;1;2;|copy||1\x1dspent|1|[1,2,]\x1e\
    list;|copy|1;|100\x1dTypeError: copy() got bad arguments|0|[]\x1e\
    list;3;1;2;|sort||100\x1dNone|9|[1,2,3,]\x1e\
    list;2;True;1;0;False;|sort||100\x1dNone|20|[0,False,True,1,2,]\x1e\
    list;'b;';'a;'B;'ab;|sort||100\x1dNone|20|['','B','a','ab','b',]\x1e\
    list;|sort||100\x1dNone|0|[]\x1e\
    list;'\u{e9};'z;|sort||100\x1dNone|6|['z','\u{e9}',]\x1e\
    list;-1;-3;5;|sort||100\x1dNone|9|[-3,-1,5,]\x1e\
    list;1;'a;|sort||100\x1dTypeError: sort() got bad arguments|6|[1,'a',]\x1e\
    list;list~1;list~0;|sort||100\x1dTypeError: sort() got bad arguments|6|[node,node,]\x1e\
    list;None;|sort||100\x1dTypeError: sort() got bad arguments|2|[None,]\x1e\
    list;2;1;|sort|1;|100\x1dTypeError: sort() got bad arguments|0|[2,1,]\x1e\
    list;3;2;1;|sort||8\x1dspent|8|[3,2,1,]\x1e\
    list;3;2;1;|sort||9\x1dNone|9|[1,2,3,]\x1e\
    list;1;'a;|sort||5\x1dspent|5|[1,'a',]\x1e\
    tuple;1;2;|index|2;|100\x1d1|2|(1,2,)\x1e\
    tuple;|index|2;|100\x1dValueError: value not found|0|()\x1e\
    tuple;list~1;list~2;|index|list~2;|100\x1d1|4|(node,node,)\x1e\
    tuple;1;|index||100\x1dTypeError: index() got bad arguments|0|(1,)\x1e\
    tuple;1;2;|index|2;|1\x1dspent|1|(1,2,)\x1e\
    tuple;1;True;2;|count|1;|100\x1d2|3|(1,True,2,)\x1e\
    tuple;|count|None;|100\x1d0|0|()\x1e\
    tuple;1;|count|1;2;|100\x1dTypeError: count() got bad arguments|0|(1,)\x1e\
    dict;1='a;|get|1;|100\x1d'a'|0|{1: 'a',}\x1e\
    dict;1='a;|get|True;|100\x1d'a'|0|{1: 'a',}\x1e\
    dict;1='a;|get|2;|100\x1dNone|0|{1: 'a',}\x1e\
    dict;1='a;|get|2;'d;|100\x1d'd'|0|{1: 'a',}\x1e\
    dict;1='a;|get|1;'d;|100\x1d'a'|0|{1: 'a',}\x1e\
    dict;tuple~1~2='a;|get|tuple~1~2;|100\x1d'a'|2|{(1,2,): 'a',}\x1e\
    dict;|get|tuple~1~2;|1\x1dspent|1|{}\x1e\
    dict;|get|list;|100\x1dTypeError: unhashable key: 'list'|0|{}\x1e\
    dict;|get||100\x1dTypeError: get() got bad arguments|0|{}\x1e\
    dict;|get|1;2;3;|100\x1dTypeError: get() got bad arguments|0|{}\x1e\
    dict;'a=1;|get|'a;|0\x1d1|0|{'a': 1,}\x1e\
    dict;None=1;|get|None;|100\x1d1|0|{None: 1,}\x1e\
    dict;0=1;'=2;|get|None;|100\x1dNone|0|{0: 1,'': 2,}\x1e\
    dict;None=1;|get|False;|100\x1dNone|0|{None: 1,}\x1e\
    dict;|get|range~0~2~1;|100\x1dTypeError: unhashable key: 'range'|0|{}\x1e\
    dict;1='a;|setdefault|1;'d;|100\x1d'a'|0|{1: 'a',}\x1e\
    dict;1='a;|setdefault|2;'d;|100\x1d'd'|0|{1: 'a',2: 'd',}\x1e\
    dict;1='a;|setdefault|2;|100\x1dNone|0|{1: 'a',2: None,}\x1e\
    dict;|setdefault|tuple~1~'x;list;|100\x1d[]|2|{(1,'x',): node,}\x1e\
    dict;|setdefault|dict;|100\x1dTypeError: unhashable key: 'dict'|0|{}\x1e\
    dict;|setdefault||100\x1dTypeError: setdefault() got bad arguments|0|{}\x1e\
    dict;True='a;|setdefault|1;'b;|100\x1d'a'|0|{True: 'a',}\x1e\
    dict;0=1;|setdefault|tuple~1~2;3;|1\x1dspent|1|{0: 1,}\x1e\
    dict;1='a;2='b;|pop|1;|100\x1d'a'|0|{2: 'b',}\x1e\
    dict;1='a;2='b;3='c;|pop|2;|100\x1d'b'|0|{1: 'a',3: 'c',}\x1e\
    dict;1='a;|pop|True;|100\x1d'a'|0|{}\x1e\
    dict;1='a;|pop|2;'d;|100\x1d'd'|0|{1: 'a',}\x1e\
    dict;1='a;|pop|1;'d;|100\x1d'a'|0|{}\x1e\
    dict;1='a;|pop|2;|100\x1dKeyError(2)|0|{1: 'a',}\x1e\
    dict;|pop|'k;|100\x1dKeyError('k')|0|{}\x1e\
    dict;|pop|tuple~1~2;|100\x1dKeyError((1,2,))|2|{}\x1e\
    dict;1=2;|pop|list;|100\x1dTypeError: unhashable key: 'list'|0|{1: 2,}\x1e\
    dict;|pop|list;1;|100\x1dTypeError: unhashable key: 'list'|0|{}\x1e\
    dict;|pop||100\x1dTypeError: pop() got bad arguments|0|{}\x1e\
    dict;tuple~1=2;3=4;|pop|tuple~True;|100\x1d2|1|{3: 4,}\x1e\
    dict;1=2;|clear||100\x1dNone|0|{}\x1e\
    dict;|clear||100\x1dNone|0|{}\x1e\
    dict;1=2;|clear|1;|100\x1dTypeError: clear() got bad arguments|0|{1: 2,}\x1e\
    dict;'k=1;'j=2;|update|dict~'i=3~'k=4;|100\x1dNone|2|{'k': 4,'j': 2,'i': 3,}\x1e\
    dict;1='a;|update|dict~True='b;|100\x1dNone|1|{1: 'b',}\x1e\
    dict;|update|dict;|100\x1dNone|0|{}\x1e\
    dict;1=2;|update|itself;|100\x1dNone|1|{1: 2,}\x1e\
    dict;1=2;|update|list;|100\x1dTypeError: update() got bad arguments|0|{1: 2,}\x1e\
    dict;1=2;|update|5;|100\x1dTypeError: update() got bad arguments|0|{1: 2,}\x1e\
    dict;1=2;|update||100\x1dTypeError: update() got bad arguments|0|{1: 2,}\x1e\
    dict;1=2;|update|dict~3=4~5=6;|1\x1dspent|1|{1: 2,}\x1e\
    dict;1=2;|update|dict~3=4~5=6;|2\x1dNone|2|{1: 2,3: 4,5: 6,}\x1e\
    dict;1=list~2;'a=3;|copy||100\x1d{1: node,'a': 3,}|2|{1: node,'a': 3,}\x1e\
    dict;|copy||100\x1d{}|0|{}\x1e\
    dict;1=2;|copy||0\x1dspent|0|{1: 2,}\x1e\
    dict;|copy|1;|100\x1dTypeError: copy() got bad arguments|0|{}\x1e\
    'abc|startswith|'ab;|100\x1dTrue|3|'abc'\x1e\
    'abc|startswith|'b;|100\x1dFalse|3|'abc'\x1e\
    'abc|startswith|';|100\x1dTrue|3|'abc'\x1e\
    '|startswith|'a;|100\x1dFalse|0|''\x1e\
    'abc|startswith|1;|100\x1dTypeError: startswith() got bad arguments|0|'abc'\x1e\
    'abc|startswith||100\x1dTypeError: startswith() got bad arguments|0|'abc'\x1e\
    'abc|startswith|'a;|2\x1dspent|2|'abc'\x1e\
    'a|startswith|'ab;|100\x1dFalse|1|'a'\x1e\
    'abc|endswith|'bc;|100\x1dTrue|3|'abc'\x1e\
    'abc|endswith|'b;|100\x1dFalse|3|'abc'\x1e\
    '|endswith|';|100\x1dTrue|0|''\x1e\
    'abc|endswith|None;|100\x1dTypeError: endswith() got bad arguments|0|'abc'\x1e\
    'abc|endswith|'abcd;|100\x1dFalse|3|'abc'\x1e\
    'abc|endswith|'abc;|3\x1dTrue|3|'abc'\x1e\
    ' \t\n\r\x0b\x0cab c |strip||100\x1d'ab c'|11|' \t\n\r\x0b\x0cab c '\x1e\
    '|strip||100\x1d''|0|''\x1e\
    ' \t|strip||100\x1d''|2|' \t'\x1e\
    'a|strip|'a;|100\x1dTypeError: strip() got bad arguments|0|'a'\x1e\
    '\x08a\x0e|strip||100\x1d'\x08a\x0e'|3|'\x08a\x0e'\x1e\
    '\x1fa\u{a0}|strip||100\x1d'\x1fa\u{a0}'|3|'\x1fa\u{a0}'\x1e\
    ' a|strip||1\x1dspent|1|' a'\x1e\
    '0123456789|isdigit||100\x1dTrue|10|'0123456789'\x1e\
    '|isdigit||100\x1dFalse|0|''\x1e\
    '1a|isdigit||100\x1dFalse|2|'1a'\x1e\
    '-1|isdigit||100\x1dFalse|2|'-1'\x1e\
    '12|isdigit|1;|100\x1dTypeError: isdigit() got bad arguments|0|'12'\x1e\
    '1/|isdigit||100\x1dFalse|2|'1/'\x1e\
    '1:|isdigit||100\x1dFalse|2|'1:'\x1e\
    '\u{b2}|isdigit||100\x1dFalse|1|'\u{b2}'\x1e\
    '12|isdigit||1\x1dspent|1|'12'\x1e\
    'banana|find|'an;|100\x1d1|12|'banana'\x1e\
    'banana|find|'x;|100\x1d-1|6|'banana'\x1e\
    'banana|find|';|100\x1d0|6|'banana'\x1e\
    '|find|';|100\x1d0|0|''\x1e\
    '|find|'a;|100\x1d-1|0|''\x1e\
    '\u{e9}\u{1f600}\u{e9}|find|'\u{1f600};|100\x1d1|3|'\u{e9}\u{1f600}\u{e9}'\x1e\
    'banana|find|'na;|11\x1dspent|11|'banana'\x1e\
    'banana|find|'na;|12\x1d2|12|'banana'\x1e\
    'banana|find|1;|100\x1dTypeError: find() got bad arguments|0|'banana'\x1e\
    'banana|find|';|5\x1dspent|5|'banana'\x1e\
    'banana|count|'an;|100\x1d2|12|'banana'\x1e\
    'aaaa|count|'aa;|100\x1d2|8|'aaaa'\x1e\
    'abc|count|'x;|100\x1d0|3|'abc'\x1e\
    'abc|count|';|100\x1dValueError: empty separator|0|'abc'\x1e\
    '|count|'a;|100\x1d0|0|''\x1e\
    'abc|count|list;|100\x1dTypeError: count() got bad arguments|0|'abc'\x1e\
    'abc|count|'b;|2\x1dspent|2|'abc'\x1e\
    ' a  b\tc\n|split||100\x1d['a','b','c',]|8|' a  b\tc\n'\x1e\
    '|split||100\x1d[]|0|''\x1e\
    '   |split||100\x1d[]|3|'   '\x1e\
    'a\x0bb\x0cc|split||100\x1d['a','b','c',]|5|'a\x0bb\x0cc'\x1e\
    'a\x0eb\x08c|split||100\x1d['a\x0eb\x08c',]|5|'a\x0eb\x08c'\x1e\
    'a b|split||2\x1dspent|2|'a b'\x1e\
    'a b|split||3\x1d['a','b',]|3|'a b'\x1e\
    'a,b,,c|split|',;|100\x1d['a','b','','c',]|9|'a,b,,c'\x1e\
    ',|split|',;|100\x1d['','',]|1|','\x1e\
    '|split|',;|100\x1d['',]|0|''\x1e\
    'aXXbXX|split|'XX;|100\x1d['a','b','',]|14|'aXXbXX'\x1e\
    'aaa|split|'aa;|100\x1d['','a',]|7|'aaa'\x1e\
    'abc|split|';|100\x1dValueError: empty separator|0|'abc'\x1e\
    'abc|split|None;|100\x1dTypeError: split() got bad arguments|0|'abc'\x1e\
    'a,b|split|',;|4\x1dspent|4|'a,b'\x1e\
    'a,b|split|',;|5\x1d['a','b',]|5|'a,b'\x1e\
    'a,b|split|',;1;|100\x1dTypeError: split() got bad arguments|0|'a,b'\x1e\
    'aXbX|replace|'X;'--;|100\x1d'a--b--'|10|'aXbX'\x1e\
    'abc|replace|'x;'y;|100\x1d'abc'|6|'abc'\x1e\
    'aaa|replace|'aa;'b;|100\x1d'ba'|8|'aaa'\x1e\
    'ab|replace|'ab;';|100\x1d''|4|'ab'\x1e\
    'abc|replace|';'x;|100\x1dValueError: empty separator|0|'abc'\x1e\
    'abc|replace|'a;1;|100\x1dTypeError: replace() got bad arguments|0|'abc'\x1e\
    'abc|replace|1;'a;|100\x1dTypeError: replace() got bad arguments|0|'abc'\x1e\
    'abc|replace|'a;|100\x1dTypeError: replace() got bad arguments|0|'abc'\x1e\
    'ab|replace|'b;'ccc;|5\x1dspent|5|'ab'\x1e\
    'ab|replace|'b;'ccc;|6\x1d'accc'|6|'ab'\x1e\
    '|replace|'a;'b;|100\x1d''|0|''\x1e\
    ',|join|list~'a~'b;|100\x1d'a,b'|5|','\x1e\
    '|join|tuple~'a~'b~'c;|100\x1d'abc'|6|''\x1e\
    '--|join|list;|100\x1d''|0|'--'\x1e\
    ',|join|list~'a;|100\x1d'a'|2|','\x1e\
    '-|join|'abc;|100\x1d'a-b-c'|8|'-'\x1e\
    ',|join|dict~'a=1~'b=2;|100\x1d'a,b'|5|','\x1e\
    ',|join|list~'a~1;|100\x1dTypeError: join() got bad arguments|2|','\x1e\
    ',|join|range~0~3~1;|100\x1dTypeError: join() got bad arguments|3|','\x1e\
    ',|join|range~0~0~1;|100\x1d''|0|','\x1e\
    ',|join|5;|100\x1dTypeError: 'int' object is not iterable|0|','\x1e\
    ',|join||100\x1dTypeError: join() got bad arguments|0|','\x1e\
    ',|join|list~'a~'b;|4\x1dspent|4|','\x1e\
    ',|join|list~'a~'b;|5\x1d'a,b'|5|','\x1e\
    ',|join|list~1;|0\x1dspent|0|','\x1e\
";

pub(crate) const COUNT: usize = 243;
