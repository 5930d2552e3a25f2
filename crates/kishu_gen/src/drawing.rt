// What is drawn, and what it comes to.
ghost use Rattle.std.specs.Prelude.{◌≡◌, ◌≤◌, ◌<◌, ◌^◌, ◌+◌, ◌-◌};
ghost use Rattle.kishu_model.specs.generated.Requests.{is_checkout, next_number};
ghost use Rattle.kishu_gen.specs.Scripts.{cells_with};

/// So many requests make a list each, before others come.
pub(crate) const FIRST: u32 = 10;

/// The number behind another.
pub(crate) fn next_number(number: u32) -> u32
    ensures { result ≡ next_number number }
{
    ((1_103_515_245 * number as u64 + 12_345) % (1 << 31)) as u32
}

/// Whether the request behind so many others is a checkout.
pub(crate) fn is_checkout(before: u32, drawn: u32) -> bool
    ensures { result ≡ is_checkout before drawn }
{
    before >= FIRST && drawn / 100 % 10 == 9
}

/// How many requests are cells, with the one behind so many others.
pub(crate) fn cells_with(before: u32, cells: u32, drawn: u32) -> u32
    requires few { cells ≤ before }
    requires further { before < 2 ^ 32 - 1 }
    ensures value { result ≡ cells_with before cells drawn }
    ensures few { result ≤ before + 1 }
{
    if is_checkout(before, drawn) {
        cells
    } else {
        cells + 1
    }
}
