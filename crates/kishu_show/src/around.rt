// The nodes that are being shown.
ghost use Rattle.std.specs.Prelude.{◌≡◌, ◌==◌};
ghost use Rattle.std.specs.List.{list_any};
ghost use Rattle.kishu_show.specs.Stack.{around_of};

/// The nodes that are being shown, the innermost first.
#[derive(Clone, Copy)]
pub(crate) enum Around<'a> {
    Nothing,
    /// A node, and those around it.
    Inside(u32, &'a Around<'a>),
}

/// Whether a node is being shown already.
pub(crate) fn is_open(around: &Around, id: u32) -> bool
    ensures { result ≡ list_any (λ j. id == j) (around_of around.now) }
{
    match around {
        Around::Nothing => false,
        Around::Inside(innermost, outer) => id == *innermost || is_open(*outer, id),
    }
}
