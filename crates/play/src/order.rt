// The order in which the active statements of a cycle are worked.
use std::alloc::{AllocError, Global};
use std::fmt;

#[derive(Drop)]
pub enum Order {
    Ascending,
    Descending,
    // As a book says.
    Book(Vec<u16>),
}

impl Order {
    // The entries that are read from cycle to cycle.
    pub fn book(&self) -> &[u16] {
        match self {
            Order::Book(book) => book.as_slice(),
            _ => &[],
        }
    }

    // The entries for a cycle, of the active statements in ascending order, or of the book's next entries.
    pub fn entries(
        &self,
        alloc: Global,
        active: &[u16],
        next: &[u16],
    ) -> Result<Vec<u16>, AllocError> {
        match self {
            Order::Ascending => active.to_vec(alloc),
            Order::Descending => active.iter().rev().copied().collect(alloc),
            Order::Book(_) => next.to_vec(alloc),
        }
    }
}

impl fmt::Display for Order {
    fn fmt<W: fmt::Write>(&self, f: &mut fmt::Formatter<W>) -> fmt::Result {
        f.write_str(match self {
            Order::Ascending => "in ascending order",
            Order::Descending => "in descending order",
            Order::Book(_) => "in the order of the book",
        })
    }
}
