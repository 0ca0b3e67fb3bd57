//! Tables that have a value at each place, which beyond their end is the default of its type: 0, or false.

use std::alloc::{AllocError, Global};

/// What is at a place of a table. Beyond its end, which is no error, that is the default of the type.
pub(crate) fn at<T: Copy + Default>(cells: &[T], place: usize) -> T {
    if place < cells.len() {
        cells[place]
    } else {
        T::default()
    }
}

/// Writes to a place of a table. Beyond its end, which is no error, nothing is written.
pub(crate) fn put<T: Copy>(cells: &mut [T], place: usize, value: T) {
    if place < cells.len() {
        cells[place] = value;
    }
}

/// A table of this length with the same value at each place.
pub(crate) fn table(alloc: Global, length: usize) -> Result<Vec<usize>, AllocError> {
    vec![in alloc; 0; length]
}

/// A table of this length with no place marked.
pub(crate) fn marks(alloc: Global, length: usize) -> Result<Vec<bool>, AllocError> {
    vec![in alloc; false; length]
}

/// The places that are marked, in their order.
pub(crate) fn marked(alloc: Global, marks: &[bool]) -> Result<Vec<usize>, AllocError> {
    let mut places = Vec::new(alloc);
    for place in 0..marks.len() {
        if marks[place] {
            places.push(place)?;
        }
    }
    Ok(places)
}
