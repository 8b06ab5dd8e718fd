//! The digit that stands for what has no number.

/// What a bit has that no number is given for: an x or z of a literal, a bit outside its signal, a quotient by 0, what a
/// case writes that promised an item and has none, and a bit that nothing writes.
#[derive(Clone, Copy, PartialEq, Eq, Debug)]
pub enum Fill {
    Zero,
    One,
}
