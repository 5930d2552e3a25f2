// Classes of numbers, of which two at a time are joined (Galler and Fischer, "An improved
// equivalence algorithm"): each number leads to one of its class that is no greater, and the first
// of a class to itself.
ghost use Rattle.std.specs.Prelude.{◌≡◌, ◌<◌, IfOk, length};
ghost use Rattle.kishu_groups.specs.Classes.{Falls, IsFirst, Leads, root, roots, each_alone, joined, replaced};

use std::alloc::{AllocError, Global};
use std::marker::Model;

/// Classes of the numbers from 0 on.
#[derive(Drop)]
pub(crate) struct Classes {
    parents: Vec<usize>,
}

impl Model for Classes {
    ghost use Rattle.std.specs.Prelude.{ℕ, List};
    ghost use Rattle.kishu_groups.specs.Classes.{Falls, roots};

    ghost Value = { List ℕ };

    ghost view = { λ c. roots c.parents.items };

    ghost invariant = { λ c. Falls c.parents.items };
}

impl Classes {
    /// So many numbers, each in a class by itself. An error says that no memory is left.
    pub(crate) fn new(alloc: Global, count: usize) -> Result<Classes, AllocError>
        ensures { IfOk result (λ c. c ≡ each_alone count) }
    {
        let parents = alone(alloc, count)?;
        Ok(Classes { parents })
    }

    /// The first number of a number's class.
    pub(crate) fn first(&mut self, number: usize) -> usize
        requires { number < length self.old }
        ensures first { Leads self.old number result }
        ensures stay { self.new ≡ self.old }
    {
        first_above(self.parents.as_mut_slice(), number)
    }

    /// Makes the classes of two numbers one.
    pub(crate) fn join(&mut self, a: usize, b: usize)
        requires a { a < length self.old }
        requires b { b < length self.old }
        ensures { self.new ≡ joined a b self.old }
    {
        let parents = self.parents.as_mut_slice();
        let first = first_above(parents, a);
        let second = first_above(parents, b);
        link(parents, first, second);
    }
}

/// Each number leads to itself.
fn alone(alloc: Global, count: usize) -> Result<Vec<usize>, AllocError>
    ensures falls { IfOk result (λ v. Falls v.items) }
    ensures roots { IfOk result (λ v. roots v.items ≡ each_alone count) }
{
    let mut parents = Vec::new(alloc);
    for number in 0..count {
        parents.push(number)?;
    }
    Ok(parents)
}

/// Where the ways up from a number end. Each step makes the way shorter for the next time.
fn first_above(parents: &mut [usize], number: usize) -> usize
    requires falls { Falls parents.old }
    requires there { number < length parents.old }
    ensures first { result ≡ root parents.old number }
    ensures falls { Falls parents.new }
    ensures stay { roots parents.new ≡ roots parents.old }
{
    let mut at = number;
    'up: while parents[at] != at {
        let next = parents[parents[at]];
        parents[at] = next;
        at = next;
    }
    at
}

/// Lets the greater of two first numbers lead to the lesser.
fn link(parents: &mut [usize], first: usize, second: usize)
    requires falls { Falls parents.old }
    requires first { IsFirst parents.old first }
    requires second { IsFirst parents.old second }
    ensures falls { Falls parents.new }
    ensures joined { roots parents.new ≡ replaced first second (roots parents.old) }
{
    if first < second {
        parents[second] = first;
    } else {
        parents[first] = second;
    }
}
