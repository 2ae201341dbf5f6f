//! The options that a boot manager tries: the options of an order whose variables exist.
#![tactic(auto, unfolding(crate::specs::Views::numbers_of, crate::specs::Views::options_left))]

ghost use Rattle.std.specs.Prelude.{◌≡◌};
ghost use Rattle.std.specs.Iterator.{YieldsFirstBy, item_count};
ghost use Rattle.std.specs.Option.{option_copied};
ghost use Rattle.uefi_boot_variables.specs.Present.{bytes_for, shown, present_options};
ghost use Rattle.uefi_boot_variables.specs.Views.{numbers_of, options_left};
ghost use Rattle.uefi_text.specs.Runs.{GivesEach};

use crate::orders::LoadOrder;
use uefi_text::unaligned_slice::UnalignedSliceIter;

/// Returns the bytes of the first of the variables that has a number.
fn bytes_for<'a>(variables: &'a [(u16, &'a [u8])], number: u16) -> Option<&'a [u8]>
    ensures { option_copied result ≡ bytes_for number variables.now }
{
    for variable in variables {
        if variable.0 == number {
            return Some(variable.1);
        }
    }
    None
}

/// An iterator over the options of an order whose variables exist, in its order: the number and the
/// bytes of each. A contract sees it as `options_left` of it: the options that remain. It does not
/// allocate.
#[derive(Drop)]
pub struct PresentOptions<'a> {
    order: UnalignedSliceIter<'a, u16>,
    variables: &'a [(u16, &'a [u8])],
}

impl<'a> LoadOrder<'a> {
    /// Returns an iterator over the options of the order whose variables exist. For each number of
    /// the order, in order, it gives the first of the given variables with this number, if there is
    /// one. A number that occurs twice is given twice. Each step searches the variables.
    ///
    /// ```rust
    /// let order = LoadOrder::from_bytes(&[2, 0, 7, 0, 1, 0])?;
    /// let variables = [(1, b"one".as_slice()), (2, b"two".as_slice())];
    /// let mut options = order.present(&variables);
    /// assert_eq!(rt; options.next(), Some((2, b"two".as_slice())));
    /// assert_eq!(rt; options.next(), Some((1, b"one".as_slice())));
    /// assert_eq!(rt; options.next(), None);
    /// ```
    pub fn present(&self, variables: &'a [(u16, &'a [u8])]) -> PresentOptions<'a>
        ensures same { options_left result ≡ present_options variables.now (numbers_of self.now) }
        ensures runs { GivesEach shown options_left result }
    {
        PresentOptions {
            order: self.iter(),
            variables,
        }
    }
}

/// Gives the options from the front, and then always `None`.
impl<'a> Iterator for PresentOptions<'a> {
    type Item = (u16, &'a [u8]);

    ghost next_gives = { YieldsFirstBy shown options_left };

    ghost remaining = { item_count options_left };

    fn next(&mut self) -> Option<(u16, &'a [u8])> {
        'numbers: while let Some(number) = self.order.next() {
            if let Some(bytes) = bytes_for(self.variables, number) {
                return Some((number, bytes));
            }
        }
        None
    }
}
