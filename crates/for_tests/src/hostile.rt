//! Positions at which tests hide a fault, including the edges of the blocks that loops over slices process.

use std::alloc::Global;
use std::test::Fail;

/// How many harmless items surround the fault: a few, and about as many as fill one or two blocks of a loop
/// over slices.
const LENGTHS: [usize; 21] = [
    0, 1, 2, 3, 4, 5, 7, 8, 9, 15, 16, 17, 31, 32, 33, 63, 64, 65, 127, 128, 129,
];

/// Returns pairs: a number of harmless items, and the position of the fault among them. Few items have every
/// position; more items have the first and the last position of each eight, which includes the edges of
/// longer blocks, and the position after all items.
pub fn hostile_places(alloc: Global) -> Result<Vec<(usize, usize)>, Fail> {
    let mut places = Vec::new(alloc);
    for others in LENGTHS {
        for place in 0..=others {
            if others < 6 || place % 8 == 0 || place % 8 == 7 || place == others {
                places.push((others, place))?;
            }
        }
    }
    Ok(places)
}
