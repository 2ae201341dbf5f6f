//! Orders that are edited in the caller's memory.
//!
//! The memory is a slice of numbers, as firmware keeps an order once it has read it: `SetVariable`
//! takes the address of these numbers, and twice their count as the size. If you need bytes
//! instead, [`OrderBuffer::write_bytes`] writes them.
#![tactic(auto, unfolding(crate::specs::Views::memory_of, crate::specs::Views::numbers_in, crate::specs::Views::numbers_of, crate::specs::Views::order_places))]

ghost use Rattle.std.specs.Prelude.{◌≡◌, ◌==◌, ◌+◌, ◌*◌, ◌<◌, ◌≤◌, ◌↔◌, ◌∷◌, ◌++◌, [], drop, insert, length, remove, take, true, false, IfOk, IsErr, IsTrue, OnErr, OnOk};
ghost use Rattle.uefi_boot_variables.specs.Orders.{NoTwice, once_each, over, stands_in, with_at, with_front, without};
ghost use Rattle.uefi_text.specs.UnitBytes.{unit_bytes};

use crate::order_edits::{OrderFull, copy, insert, move_to_front, put, remove};
use crate::orders::LoadOrder;

/// An order in the caller's memory, in which no number occurs twice. No call allocates memory.
///
/// A contract sees the list of its numbers (`numbers_in`), and the contents of all places of the
/// caller's memory (`order_places`): the numbers come first, and no call changes the places after
/// them. Once the order is no longer used, the caller's slice has the contents that the last call
/// left, because each call keeps the slice from which the order was made (`memory_of`).
///
/// ```rust
/// let mut places = [0; 4];
/// let mut order = OrderBuffer::new(&mut places);
/// order.push(3)?;
/// order.push(0)?;
/// assert_eq!(rt; order.as_slice(), [3, 0].as_slice());
/// assert!(rt; order.len() == 2 && !order.is_empty() && order.contains(3));
/// ```
#[derive(Drop)]
pub struct OrderBuffer<'a> {
    places: &'a mut [u16],
    len: usize,
    pub ghost within: { len ≤ length places.now },
    pub ghost once: { NoTwice (take len places.now) },
}

impl<'a> OrderBuffer<'a> {
    ghost use Rattle.uefi_boot_variables.specs.Views.{memory_of, numbers_in, numbers_of, order_places, room_of};

    /// Creates an order without numbers, in a slice. Its room is the number of places. Changes no
    /// place.
    pub fn new(places: &'a mut [u16]) -> Self
        ensures numbers { numbers_in result ≡ [] }
        ensures room { room_of result ≡ length places.old }
        ensures places { order_places result ≡ places.old }
        ensures memory { memory_of result ≡ places.entry.ghost_name }
    {
        OrderBuffer { places, len: 0 }
    }

    /// Replaces the numbers with the numbers of another order, each at its first occurrence.
    ///
    /// Fails with `OrderFull` if there is no room for them; the order is then unchanged. Compares
    /// each number with those before it, and does so twice if the other order has more numbers than
    /// this one has room for.
    ///
    /// ```rust
    /// let order = LoadOrder::from_bytes(&[3, 0, 1, 0, 3, 0])?;
    /// let mut places = [0; 2];
    /// let mut buffer = OrderBuffer::new(&mut places);
    /// buffer.copy_from(&order)?;
    /// assert_eq!(rt; buffer.as_slice(), [3, 1].as_slice());
    /// assert_eq!(rt; OrderBuffer::new(&mut [0; 1]).copy_from(&order), Err(OrderFull));
    /// ```
    pub fn copy_from(&mut self, order: &LoadOrder<'_>) -> Result<(), OrderFull>
        ensures ok { OnOk result (numbers_in self.new ≡ once_each (numbers_of order.now)) }
        ensures err { OnErr result (numbers_in self.new ≡ numbers_in self.old) }
        ensures room { room_of self.new ≡ room_of self.old }
        ensures places { OnOk result
            (order_places self.new ≡ over (numbers_in self.new) (order_places self.old)) }
        ensures unchanged { OnErr result (order_places self.new ≡ order_places self.old) }
        ensures memory { memory_of self.new ≡ memory_of self.old }
        ensures refused { IsErr result ↔ (room_of self.old < length (once_each (numbers_of order.now))) }
    {
        self.len = copy(self.places, order)?;
        Ok(())
    }

    /// Returns the numbers in order.
    pub fn as_slice(&self) -> &[u16]
        ensures numbers { result.now ≡ numbers_in self.now }
        ensures once { NoTwice result.now }
    {
        &self.places[..self.len]
    }

    /// Returns the length of the order.
    pub fn len(&self) -> usize
        ensures { result ≡ length (numbers_in self.now) }
    {
        self.len
    }

    /// Returns whether there are no numbers.
    pub fn is_empty(&self) -> bool
        ensures { IsTrue result ↔ (numbers_in self.now ≡ []) }
    {
        self.len == 0
    }

    /// Returns whether the order contains a number.
    pub fn contains(&self, number: u16) -> bool
        ensures { result ≡ stands_in number (numbers_in self.now) }
    {
        self.as_slice().contains(&number)
    }

    /// Inserts a number that the order does not contain at a place.
    fn put(&mut self, place: usize, number: u16)
        requires place { place ≤ length (numbers_in self.old) }
        requires room { length (numbers_in self.old) < room_of self.old }
        requires absent { stands_in number (numbers_in self.old) ≡ false }
        ensures numbers { numbers_in self.new ≡ insert (numbers_in self.old) place number }
        ensures room { room_of self.new ≡ room_of self.old }
        ensures places { order_places self.new ≡ over (numbers_in self.new) (order_places self.old) }
        ensures memory { memory_of self.new ≡ memory_of self.old }
    {
        put(self.places, self.len, place, number);
        self.len += 1;
    }

    /// Adds a number at the end, unless the order contains it. Fails exactly if the order does not
    /// contain it and there is no room; the order is then unchanged.
    ///
    /// ```rust
    /// let mut places = [0; 1];
    /// let mut order = OrderBuffer::new(&mut places);
    /// assert_eq!(rt; order.push(7), Ok(()));
    /// assert_eq!(rt; order.push(7), Ok(()));
    /// assert_eq!(rt; order.push(8), Err(OrderFull));
    /// ```
    pub fn push(&mut self, number: u16) -> Result<(), OrderFull>
        ensures ok { OnOk result (numbers_in self.new ≡ once_each (numbers_in self.old ++ number ∷ [])) }
        ensures err { OnErr result (numbers_in self.new ≡ numbers_in self.old) }
        ensures room { room_of self.new ≡ room_of self.old }
        ensures places { order_places self.new ≡ over (numbers_in self.new) (order_places self.old) }
        ensures memory { memory_of self.new ≡ memory_of self.old }
        ensures refused { IsErr result ↔ ((stands_in number (numbers_in self.old) ≡ false)
            × (length (numbers_in self.old) ≡ room_of self.old)) }
    {
        if self.contains(number) {
            return Ok(());
        }
        if self.len == self.places.len() {
            return Err(OrderFull);
        }
        self.put(self.len, number);
        Ok(())
    }

    /// Removes a number, and returns whether the order contained it. The others keep their order.
    ///
    /// ```rust
    /// let mut places = [0; 4];
    /// let mut order = OrderBuffer::new(&mut places);
    /// order.push(7)?;
    /// assert!(rt; order.remove(7) && !order.remove(7));
    /// ```
    pub fn remove(&mut self, number: u16) -> bool
        ensures numbers { numbers_in self.new ≡ without number (numbers_in self.old) }
        ensures stood { result ≡ stands_in number (numbers_in self.old) }
        ensures len { result ≡ true → length (numbers_in self.new) + 1 ≡ length (numbers_in self.old) }
        ensures room { room_of self.new ≡ room_of self.old }
        ensures places { order_places self.new ≡ over (numbers_in self.new) (order_places self.old) }
        ensures memory { memory_of self.new ≡ memory_of self.old }
    {
        let len = remove(self.places, self.len, number);
        let stood = len < self.len;
        self.len = len;
        stood
    }

    /// Inserts a number at a place among the others, which keep their order, or moves it there if
    /// the order contains it. A place beyond the end means the end. Fails exactly if the order does
    /// not contain the number and there is no room; the order is then unchanged.
    ///
    /// ```rust
    /// let mut places = [0; 3];
    /// let order = LoadOrder::from_bytes(&[1, 0, 2, 0, 3, 0])?;
    /// let mut buffer = OrderBuffer::new(&mut places);
    /// buffer.copy_from(&order)?;
    /// buffer.insert(0, 3)?;
    /// assert_eq!(rt; buffer.as_slice(), [3, 1, 2].as_slice());
    /// assert_eq!(rt; buffer.insert(0, 4), Err(OrderFull));
    /// ```
    pub fn insert(&mut self, place: usize, number: u16) -> Result<(), OrderFull>
        ensures ok { OnOk result (numbers_in self.new ≡ with_at place number (numbers_in self.old)) }
        ensures err { OnErr result (numbers_in self.new ≡ numbers_in self.old) }
        ensures room { room_of self.new ≡ room_of self.old }
        ensures places { order_places self.new ≡ over (numbers_in self.new) (order_places self.old) }
        ensures memory { memory_of self.new ≡ memory_of self.old }
        ensures refused { IsErr result ↔ ((stands_in number (numbers_in self.old) ≡ false)
            × (length (numbers_in self.old) ≡ room_of self.old)) }
    {
        self.len = insert(self.places, self.len, place, number)?;
        Ok(())
    }

    /// Moves a number to the front, and returns whether the order contained it. If it did not,
    /// nothing changes. The others keep their order.
    ///
    /// ```rust
    /// let mut places = [0; 3];
    /// let order = LoadOrder::from_bytes(&[1, 0, 2, 0, 3, 0])?;
    /// let mut buffer = OrderBuffer::new(&mut places);
    /// buffer.copy_from(&order)?;
    /// assert!(rt; buffer.move_to_front(2) && !buffer.move_to_front(4));
    /// assert_eq!(rt; buffer.as_slice(), [2, 1, 3].as_slice());
    /// ```
    pub fn move_to_front(&mut self, number: u16) -> bool
        ensures numbers { numbers_in self.new ≡ with_front number (numbers_in self.old) }
        ensures stood { result ≡ stands_in number (numbers_in self.old) }
        ensures room { room_of self.new ≡ room_of self.old }
        ensures places { order_places self.new ≡ over (numbers_in self.new) (order_places self.old) }
        ensures memory { memory_of self.new ≡ memory_of self.old }
    {
        let stood = self.contains(number);
        self.len = move_to_front(self.places, self.len, number);
        stood
    }

    /// Writes the bytes of the variable, two for each number, the low byte first, to the start of a
    /// buffer, and returns their number. Fails exactly if the buffer has fewer places; it is then
    /// unchanged. The rest of the buffer is unchanged.
    ///
    /// ```rust
    /// let mut places = [0; 4];
    /// let mut order = OrderBuffer::new(&mut places);
    /// order.push(0x1234)?;
    /// let mut bytes = [0xff; 3];
    /// assert_eq!(rt; order.write_bytes(&mut bytes), Ok(2));
    /// assert_eq!(rt; bytes, [0x34, 0x12, 0xff]);
    /// ```
    pub fn write_bytes(&self, dest: &mut [u8]) -> Result<usize, OrderFull>
        ensures ok { IfOk result (λ count. count ≡ 2 * length (numbers_in self.now)) }
        ensures bytes { OnOk result (dest.new ≡ unit_bytes (numbers_in self.now)
            ++ drop (2 * length (numbers_in self.now)) dest.old) }
        ensures err { OnErr result (dest.new ≡ dest.old) }
        ensures refused { IsErr result ↔ (length dest.old < 2 * length (numbers_in self.now)) }
    {
        if dest.len() / 2 < self.len {
            return Err(OrderFull);
        }
        put_bytes(self.as_slice(), &mut dest[..2 * self.len]);
        Ok(2 * self.len)
    }
}

/// Writes numbers, two bytes for each, the low byte first.
fn put_bytes(numbers: &[u16], dest: &mut [u8])
    requires { length dest.old ≡ 2 * length numbers.now }
    ensures { dest.new ≡ unit_bytes numbers.now }
{
    for place in 0..numbers.len() {
        let number = numbers[place];
        dest[2 * place] = (number % 256) as u8;
        dest[2 * place + 1] = (number / 256) as u8;
    }
}
