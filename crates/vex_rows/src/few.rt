//! A short list that a table may hold.

ghost use Rattle.std.specs.Prelude.{◌≡◌};
ghost use Rattle.vex_rows.specs.Few.{items};

use arrayvec::ArrayVec;

/// A list of at most four elements, as the rows of the table of forms hold it.
#[derive(Clone, Copy, PartialEq, Eq, Debug)]
pub enum Few<T> {
    /// No element.
    Zero,
    /// One element.
    One(T),
    /// Two elements.
    Two(T, T),
    /// Three elements.
    Three(T, T, T),
    /// Four elements.
    Four(T, T, T, T),
}

impl<T: Copy + Default> Few<T> {
    /// The elements in order.
    pub fn items(self) -> ArrayVec<T, 4>
        ensures { result.items ≡ items self }
    {
        let mut items = ArrayVec::new();
        match self {
            Few::Zero => {}
            Few::One(a) => {
                items.push(a);
            }
            Few::Two(a, b) => {
                items.push(a);
                items.push(b);
            }
            Few::Three(a, b, c) => {
                items.push(a);
                items.push(b);
                items.push(c);
            }
            Few::Four(a, b, c, d) => {
                items.push(a);
                items.push(b);
                items.push(c);
                items.push(d);
            }
        }
        items
    }
}
