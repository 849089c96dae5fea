// Lists by the numbers of points, actors, variables or objects, and rising lists of numbers.
use fr_program::Range;
use std::alloc::{AllocError, Global};

/// The list with this number; an empty one where there is none.
pub fn list_at<T>(lists: &[Vec<T>], number: usize) -> &[T] {
    match lists.get(number) {
        Some(list) => list,
        None => &[],
    }
}

/// Whether it is true in this place. Outside the list nothing is.
pub fn is_marked(marks: &[bool], place: usize) -> bool {
    match marks.get(place) {
        Some(mark) => *mark,
        None => false,
    }
}

/// Makes it true in this place, if the list has it.
pub fn mark(marks: &mut Vec<bool>, place: usize) {
    if let Some(mark) = marks.get_mut(place) {
        *mark = true;
    }
}

/// Adds a number at the end of a list, unless it is there.
pub fn add_once(list: &mut Vec<usize>, number: usize) -> Result<(), AllocError> {
    if list.contains(&number) {
        return Ok(());
    }
    Ok(list.push(number)?)
}

/// Adds a number to a rising list, unless it is there. Whether it is new.
pub fn insert(numbers: &mut Vec<i128>, number: i128) -> Result<bool, AllocError> {
    match numbers.binary_search(&number) {
        Ok(_) => Ok(false),
        Err(place) => {
            numbers.insert(place, number)?;
            Ok(true)
        }
    }
}

/// Adds a number to a rising list, if it is in the range.
pub fn insert_inside(
    numbers: &mut Vec<i128>,
    range: Range,
    number: i128,
) -> Result<(), AllocError> {
    if range.lo <= number && number <= range.hi {
        insert(numbers, number)?;
    }
    Ok(())
}
