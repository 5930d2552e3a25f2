// The methods that there are, by what has them.
ghost use Rattle.std.specs.Prelude.{◌≡◌, IsTrue, map, nat_lt, option_map};
ghost use Rattle.std.specs.List.{list_all};
ghost use Rattle.kishu_meaning.specs.calls.Methods as m;
ghost use Rattle.kishu_meaning.specs.calls.Methods.{method_name, method_named, list_methods, tuple_methods, dict_methods, text_methods};

/// A method of one kind of receiver.
pub(crate) trait Method: Copy {
    ghost method_of: { Self → m.Method };

    /// The method's name, in ASCII characters.
    fn name(self) -> &'static str
        ensures text { result.now ≡ method_name (method_of self) }
        ensures plain { IsTrue (list_all (λ c. nat_lt c 128) result.now) };
}

// The method of this name among these.
fn named<M: Method>(name: &str, methods: &[M]) -> Option<M>
    ensures { option_map M.method_of result ≡ method_named name.now (map M.method_of methods.now) }
{
    for method in methods {
        if name == method.name() {
            return Some(*method);
        }
    }
    None
}

/// A method of a list.
#[derive(Clone, Copy, Debug, PartialEq, Eq)]
pub(crate) enum ListMethod {
    Append,
    Clear,
    Copy,
    Count,
    Extend,
    Index,
    Insert,
    Pop,
    Remove,
    Reverse,
    Sort,
}

impl ListMethod {
    ghost use Rattle.kishu_methods.specs.Called.{list_method_of};

    const ALL: [ListMethod; 11] = [
        ListMethod::Append,
        ListMethod::Pop,
        ListMethod::Insert,
        ListMethod::Clear,
        ListMethod::Extend,
        ListMethod::Remove,
        ListMethod::Index,
        ListMethod::Count,
        ListMethod::Reverse,
        ListMethod::Copy,
        ListMethod::Sort,
    ];

    /// The method of this name.
    pub(crate) fn named(name: &str) -> Option<ListMethod>
        ensures { option_map list_method_of result ≡ method_named name.now list_methods }
    {
        let methods: [ListMethod; 11] = ListMethod::ALL;
        named(name, methods.as_slice())
    }
}

impl Method for ListMethod {
    ghost use Rattle.kishu_methods.specs.Called.{list_method_of};

    ghost method_of = { list_method_of };

    fn name(self) -> &'static str {
        match self {
            ListMethod::Append => "append",
            ListMethod::Clear => "clear",
            ListMethod::Copy => "copy",
            ListMethod::Count => "count",
            ListMethod::Extend => "extend",
            ListMethod::Index => "index",
            ListMethod::Insert => "insert",
            ListMethod::Pop => "pop",
            ListMethod::Remove => "remove",
            ListMethod::Reverse => "reverse",
            ListMethod::Sort => "sort",
        }
    }
}

/// A method of a tuple.
#[derive(Clone, Copy, Debug, PartialEq, Eq)]
pub(crate) enum TupleMethod {
    Count,
    Index,
}

impl TupleMethod {
    ghost use Rattle.kishu_methods.specs.Called.{tuple_method_of};

    const ALL: [TupleMethod; 2] = [TupleMethod::Index, TupleMethod::Count];

    /// The method of this name.
    pub(crate) fn named(name: &str) -> Option<TupleMethod>
        ensures { option_map tuple_method_of result ≡ method_named name.now tuple_methods }
    {
        let methods: [TupleMethod; 2] = TupleMethod::ALL;
        named(name, methods.as_slice())
    }
}

impl Method for TupleMethod {
    ghost use Rattle.kishu_methods.specs.Called.{tuple_method_of};

    ghost method_of = { tuple_method_of };

    fn name(self) -> &'static str {
        match self {
            TupleMethod::Count => "count",
            TupleMethod::Index => "index",
        }
    }
}

/// A method of a dict.
#[derive(Clone, Copy, Debug, PartialEq, Eq)]
pub(crate) enum DictMethod {
    Clear,
    Copy,
    Get,
    Pop,
    SetDefault,
    Update,
}

impl DictMethod {
    ghost use Rattle.kishu_methods.specs.Called.{dict_method_of};

    const ALL: [DictMethod; 6] = [
        DictMethod::Get,
        DictMethod::SetDefault,
        DictMethod::Pop,
        DictMethod::Clear,
        DictMethod::Update,
        DictMethod::Copy,
    ];

    /// The method of this name.
    pub(crate) fn named(name: &str) -> Option<DictMethod>
        ensures { option_map dict_method_of result ≡ method_named name.now dict_methods }
    {
        let methods: [DictMethod; 6] = DictMethod::ALL;
        named(name, methods.as_slice())
    }
}

impl Method for DictMethod {
    ghost use Rattle.kishu_methods.specs.Called.{dict_method_of};

    ghost method_of = { dict_method_of };

    fn name(self) -> &'static str {
        match self {
            DictMethod::Clear => "clear",
            DictMethod::Copy => "copy",
            DictMethod::Get => "get",
            DictMethod::Pop => "pop",
            DictMethod::SetDefault => "setdefault",
            DictMethod::Update => "update",
        }
    }
}

/// A method of a text.
#[derive(Clone, Copy, Debug, PartialEq, Eq)]
pub(crate) enum TextMethod {
    Count,
    EndsWith,
    Find,
    IsDigit,
    Join,
    Replace,
    Split,
    StartsWith,
    Strip,
}

impl TextMethod {
    ghost use Rattle.kishu_methods.specs.Called.{text_method_of};

    const ALL: [TextMethod; 9] = [
        TextMethod::StartsWith,
        TextMethod::EndsWith,
        TextMethod::Strip,
        TextMethod::IsDigit,
        TextMethod::Find,
        TextMethod::Count,
        TextMethod::Split,
        TextMethod::Replace,
        TextMethod::Join,
    ];

    /// The method of this name.
    pub(crate) fn named(name: &str) -> Option<TextMethod>
        ensures { option_map text_method_of result ≡ method_named name.now text_methods }
    {
        let methods: [TextMethod; 9] = TextMethod::ALL;
        named(name, methods.as_slice())
    }
}

impl Method for TextMethod {
    ghost use Rattle.kishu_methods.specs.Called.{text_method_of};

    ghost method_of = { text_method_of };

    fn name(self) -> &'static str {
        match self {
            TextMethod::Count => "count",
            TextMethod::EndsWith => "endswith",
            TextMethod::Find => "find",
            TextMethod::IsDigit => "isdigit",
            TextMethod::Join => "join",
            TextMethod::Replace => "replace",
            TextMethod::Split => "split",
            TextMethod::StartsWith => "startswith",
            TextMethod::Strip => "strip",
        }
    }
}
