// Printed by tools/cells/builtin_rows.py, from what CPython answers.

/// A builtin function or a class, its arguments and the budget; and what the call gives, with the
/// number of a node, and the steps that it takes.
pub(crate) const ROWS: &str = "\
    abs|-3;|1000\x1d3|0\x1e\
    abs|True;|1000\x1d1|0\x1e\
    abs|0;|1000\x1d0|0\x1e\
    abs|'a;|1000\x1dTypeError: abs() got bad arguments|0\x1e\
    abs||1000\x1dTypeError: abs() got bad arguments|0\x1e\
    abs|1;2;|1000\x1dTypeError: abs() got bad arguments|0\x1e\
    abs|list;|1000\x1dTypeError: abs() got bad arguments|0\x1e\
    chr|97;|1000\x1d'a'|0\x1e\
    chr|0;|1000\x1d'\0'|0\x1e\
    chr|1114111;|1000\x1d'\u{10ffff}'|0\x1e\
    chr|1114112;|1000\x1dValueError: not a character|0\x1e\
    chr|-1;|1000\x1dValueError: not a character|0\x1e\
    chr|None;|1000\x1dTypeError: chr() got bad arguments|0\x1e\
    chr||1000\x1dTypeError: chr() got bad arguments|0\x1e\
    chr|True;|1000\x1d'\x01'|0\x1e\
    divmod|-7;2;|1000\x1d3 tuple -4,1,|0\x1e\
    divmod|7;-2;|1000\x1d3 tuple -4,-1,|0\x1e\
    divmod|True;2;|1000\x1d3 tuple 0,1,|0\x1e\
    divmod|1;0;|1000\x1dZeroDivisionError: division by zero|0\x1e\
    divmod|1;|1000\x1dTypeError: divmod() got bad arguments|0\x1e\
    divmod|'a;1;|1000\x1dTypeError: divmod() got bad arguments|0\x1e\
    len|'h\u{e9};|1000\x1d2|0\x1e\
    len|';|1000\x1d0|0\x1e\
    len|list;|1000\x1d3|0\x1e\
    len|tuple;|1000\x1d2|0\x1e\
    len|dict;|1000\x1d2|0\x1e\
    len|range~0~10~3;|1000\x1d4|0\x1e\
    len|range~3~3~1;|1000\x1d0|0\x1e\
    len|5;|1000\x1dTypeError: len() got bad arguments|0\x1e\
    len|None;|1000\x1dTypeError: len() got bad arguments|0\x1e\
    len||1000\x1dTypeError: len() got bad arguments|0\x1e\
    ord|'a;|1000\x1d97|0\x1e\
    ord|'\u{1f600};|1000\x1d128512|0\x1e\
    ord|'ab;|1000\x1dTypeError: ord() got bad arguments|0\x1e\
    ord|';|1000\x1dTypeError: ord() got bad arguments|0\x1e\
    ord|97;|1000\x1dTypeError: ord() got bad arguments|0\x1e\
    all|list;|1000\x1dTrue|3\x1e\
    all|range~0~5~1;|1000\x1dFalse|1\x1e\
    all|';|1000\x1dTrue|0\x1e\
    all|dict;|1000\x1dFalse|1\x1e\
    all|5;|1000\x1dTypeError: 'int' object is not iterable|0\x1e\
    all|tuple;|1000\x1dTrue|2\x1e\
    all|range~1~10~1;|2\x1dspent|2\x1e\
    any|list;|1000\x1dTrue|1\x1e\
    any|dict;|1000\x1dTrue|3\x1e\
    any|range~0~1~1;|1000\x1dFalse|1\x1e\
    any|';|1000\x1dFalse|0\x1e\
    any|None;|1000\x1dTypeError: 'NoneType' object is not iterable|0\x1e\
    any|list;|2\x1dTrue|1\x1e\
    any|range~0~9~1;|1\x1dspent|1\x1e\
    sum|list;|1000\x1d6|3\x1e\
    sum|range~0~4~1;|1000\x1d6|4\x1e\
    sum|range~5~0~-2;|1000\x1d9|3\x1e\
    sum|'a;|1000\x1dTypeError: sum() got bad arguments|1\x1e\
    sum|';|1000\x1d0|0\x1e\
    sum|list;|2\x1dspent|2\x1e\
    sum|5;|1000\x1dTypeError: 'int' object is not iterable|0\x1e\
    sum|tuple;|1000\x1dTypeError: sum() got bad arguments|1\x1e\
    max|list;|1000\x1d3|3\x1e\
    min|list;|1000\x1dTrue|3\x1e\
    max|1;True;|1000\x1d1|2\x1e\
    max|True;1;|1000\x1dTrue|2\x1e\
    min|1;True;|1000\x1d1|2\x1e\
    min|'b;'a;|1000\x1d'a'|3\x1e\
    max|';|1000\x1dValueError: empty argument|0\x1e\
    min||1000\x1dTypeError: min() got bad arguments|0\x1e\
    max|1;'a;|1000\x1dTypeError: bad operand types for >: 'str' and 'int'|2\x1e\
    min|1;list;|1000\x1dTypeError: bad operand types for <: 'list' and 'int'|2\x1e\
    max|dict;|1000\x1d4 tuple 1,|3\x1e\
    min|dict;|1000\x1d3 tuple |3\x1e\
    max|range~0~5~1;|1000\x1d4|5\x1e\
    min|'banana;|1000\x1d'a'|11\x1e\
    max|5;|1000\x1dTypeError: 'int' object is not iterable|0\x1e\
    max|dict;|2\x1dspent|2\x1e\
    min|3;2;1;|1000\x1d1|3\x1e\
    max|list;list;|1000\x1d0 list 3,True,2,|5\x1e\
    sorted|list;|1000\x1d3 list True,2,3,|9\x1e\
    sorted|'banana;|1000\x1d3 list 'a','a','a','b','n','n',|24\x1e\
    sorted|';|1000\x1d3 list |0\x1e\
    sorted|tuple;|1000\x1dTypeError: sorted() got bad arguments|6\x1e\
    sorted|1;|1000\x1dTypeError: 'int' object is not iterable|0\x1e\
    sorted|range~3~0~-1;|1000\x1d3 list 1,2,3,|9\x1e\
    sorted|list;|2\x1dspent|2\x1e\
    isinstance|True;class~2;|1000\x1dTrue|0\x1e\
    isinstance|1;class~0;|1000\x1dFalse|0\x1e\
    isinstance|'a;tuple;|1000\x1dTrue|0\x1e\
    isinstance|None;tuple;|1000\x1dFalse|0\x1e\
    isinstance|1;2;|1000\x1dTypeError: isinstance() got bad arguments|0\x1e\
    isinstance|1;list;|1000\x1dTypeError: isinstance() got bad arguments|0\x1e\
    isinstance|dict;class~1;|1000\x1dTrue|0\x1e\
    isinstance|list;class~3;|1000\x1dTrue|0\x1e\
    isinstance|tuple;class~7;|1000\x1dTrue|0\x1e\
    isinstance|range~0~1~1;class~4;|1000\x1dTrue|0\x1e\
    isinstance|1;|1000\x1dTypeError: isinstance() got bad arguments|0\x1e\
    isinstance|list;class~5;|1000\x1dFalse|0\x1e\
    isinstance|None;class~8;|1000\x1dFalse|0\x1e\
    bool||1000\x1dFalse|0\x1e\
    bool|list;|1000\x1dTrue|0\x1e\
    bool|range~3~3~1;|1000\x1dFalse|0\x1e\
    bool|';|1000\x1dFalse|0\x1e\
    bool|'x;|1000\x1dTrue|0\x1e\
    bool|None;|1000\x1dFalse|0\x1e\
    bool|0;|1000\x1dFalse|0\x1e\
    bool|1;2;|1000\x1dTypeError: bool() got bad arguments|0\x1e\
    dict||1000\x1d3 dict of 0|0\x1e\
    dict|dict;|1000\x1d3 dict of 2|2\x1e\
    dict|5;|1000\x1dTypeError: dict() got bad arguments|0\x1e\
    dict|dict;dict;|1000\x1dTypeError: dict() got bad arguments|0\x1e\
    int||1000\x1d0|0\x1e\
    int|' 42 ;|1000\x1d42|4\x1e\
    int|'-7;|1000\x1d-7|2\x1e\
    int|'+7;|1000\x1d7|2\x1e\
    int|'x;|1000\x1dValueError: not a whole number|1\x1e\
    int|';|1000\x1dValueError: not a whole number|0\x1e\
    int|'- 1;|1000\x1dValueError: not a whole number|3\x1e\
    int|True;|1000\x1d1|0\x1e\
    int|None;|1000\x1dTypeError: int() got bad arguments|0\x1e\
    int|list;|1000\x1dTypeError: int() got bad arguments|0\x1e\
    int|'123;|2\x1dspent|2\x1e\
    int|5;|1000\x1d5|0\x1e\
    list||1000\x1d3 list |0\x1e\
    list|range~0~3~1;|1000\x1d3 list 0,1,2,|3\x1e\
    list|'ab;|1000\x1d3 list 'a','b',|2\x1e\
    list|1;|1000\x1dTypeError: 'int' object is not iterable|0\x1e\
    list|list;|1000\x1d3 list 3,True,2,|3\x1e\
    list|tuple;|1000\x1d3 list class,class,|2\x1e\
    list|'abc;|2\x1dspent|2\x1e\
    list|1;2;|1000\x1dTypeError: list() got bad arguments|0\x1e\
    range|3;|1000\x1drange 0 3 1|0\x1e\
    range|1;3;|1000\x1drange 1 3 1|0\x1e\
    range|3;1;-1;|1000\x1drange 3 1 -1|0\x1e\
    range|1;3;0;|1000\x1dValueError: step is zero|0\x1e\
    range||1000\x1dTypeError: range() got bad arguments|0\x1e\
    range|1;2;3;4;|1000\x1dTypeError: range() got bad arguments|0\x1e\
    range|'a;|1000\x1dTypeError: range() got bad arguments|0\x1e\
    range|True;|1000\x1drange 0 1 1|0\x1e\
    SimpleNamespace||1000\x1d3 object|0\x1e\
    tuple||1000\x1d3 tuple |0\x1e\
    tuple|tuple;|1000\x1d1 tuple class,class,|0\x1e\
    tuple|list;|1000\x1d3 tuple 3,True,2,|3\x1e\
    tuple|'ab;|1000\x1d3 tuple 'a','b',|2\x1e\
    tuple|range~0~2~1;|1000\x1d3 tuple 0,1,|2\x1e\
    tuple|5;|1000\x1dTypeError: 'int' object is not iterable|0\x1e\
    Exception||1000\x1d3 Exception |0\x1e\
    Exception|None;|1000\x1d3 Exception None,|0\x1e\
    ValueError|'x;1;|1000\x1d3 ValueError 'x',1,|0\x1e\
    ArithmeticError|None;|1000\x1d3 ArithmeticError None,|0\x1e\
    KeyError|1;|1000\x1d3 KeyError 1,|0\x1e\
    RecursionError|'deep;|1000\x1d3 RecursionError 'deep',|0\x1e\
    abs|-170141183460469231731687303715884105728;|1000\x1dOverflowError: whole number too large|0\x1e\
    divmod|-170141183460469231731687303715884105728;-1;|1000\x1dOverflowError: whole number too large|0\x1e\
    len|range~-170141183460469231731687303715884105728~170141183460469231731687303715884105727~1;|1000\x1dOverflowError: whole number too large|0\x1e\
    sum|range~170141183460469231731687303715884105727~-170141183460469231731687303715884105728~-170141183460469231731687303715884105728;|1000\x1d170141183460469231731687303715884105726|2\x1e\
    int|'170141183460469231731687303715884105728;|1000\x1dValueError: not a whole number|39\x1e\
    int|'-170141183460469231731687303715884105728;|1000\x1d-170141183460469231731687303715884105728|40\x1e\
    abs|170141183460469231731687303715884105727;|1000\x1d170141183460469231731687303715884105727|0\x1e\
    chr|55296;|1000\x1dValueError: not a character|0\x1e\
    chr|57343;|1000\x1dValueError: not a character|0\x1e\
    dict|list;|1000\x1dTypeError: dict() got bad arguments|0\x1e\
    int|'1_0;|1000\x1dValueError: not a whole number|3\x1e\
    int|'\u{663};|1000\x1dValueError: not a whole number|1\x1e\
    SimpleNamespace|None;|1000\x1dTypeError: SimpleNamespace() got bad arguments|0\x1e\
    sum|list;1;|1000\x1dTypeError: sum() got bad arguments|0\x1e\
    list|dict;|1000\x1d5 list node,node,|3\x1e\
    tuple|dict;|1000\x1d5 tuple node,node,|3\x1e\
    sorted|dict;|1000\x1dTypeError: sorted() got bad arguments|7\x1e\
    list|range~0~1000000000000000000000000000000~1;|2\x1dspent|2\x1e\
    tuple|range~0~9~1;|3\x1dspent|3\x1e\
    dict|dict;|1\x1dspent|1\x1e\
    dict|dict;|2\x1d3 dict of 2|2\x1e\
";

pub(crate) const COUNT: usize = 170;
