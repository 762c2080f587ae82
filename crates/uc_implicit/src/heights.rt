// How many classes deep each class is.

ghost use Rattle.std.specs.Prelude.{◌≡◌, ◌<◌, ◌≤◌, ◌+◌, ℕ, IfOk, IsTrue, length};
ghost use Rattle.uc_tree.specs.Cells.{classes_of, rows_of};
ghost use Rattle.uc_tree.specs.Objects.{object_height, tallest};
ghost use Rattle.uc_implicit.specs.Heights.{AreBelow, AreDeep, AreHeights, AreNext, height_at};

use std::alloc::{AllocError, Global};
use uc_layout::sizes::Sizes;
use uc_tree::rows::FieldLayout;

// One more than the height of the class of a field; 0 where it holds none.
fn object_height(heights: &[usize], held: &FieldLayout, count: usize) -> usize
    requires { AreBelow count heights.now }
    ensures height { result ≡ object_height (height_at heights.now) held.now.object }
    ensures few { result ≤ count }
{
    match held.object {
        Some(object) => {
            if object.class < heights.len() {
                heights[object.class] + 1
            } else {
                1
            }
        }
        None => 0,
    }
}

// The height of a class with these fields, by those of the classes of its fields, which are below `count`.
fn tallest(heights: &[usize], held: &[FieldLayout], count: usize) -> usize
    requires { AreBelow count heights.now }
    ensures height { result ≡ tallest (height_at heights.now) held.now }
    ensures few { result ≤ count }
{
    let mut height: usize = 0;
    for field in held {
        height = height.max(object_height(heights, field, count));
    }
    height
}

// An order of the classes, so many, each behind those of its fields where there is one.
fn order_of(alloc: Global, sizes: &Sizes, count: usize) -> Result<Vec<usize>, AllocError> {
    let mut holders = Vec::new(alloc);
    let mut counts = Vec::new(alloc);
    note_holders(alloc, sizes, count, &mut holders, &mut counts)?;
    let mut order = Vec::new(alloc);
    put_in_order(&holders, &mut counts, &mut order)?;
    Ok(order)
}

// For each class, of which there are so many, which classes hold it, and how many it holds itself.
fn note_holders(
    alloc: Global,
    sizes: &Sizes,
    count: usize,
    holders: &mut Vec<Vec<usize>>,
    counts: &mut Vec<usize>,
) -> Result<(), AllocError> {
    for _place in 0..count {
        holders.push(Vec::new(alloc))?;
    }
    for place in 0..count {
        counts.push(note_holder(sizes.held_by_class(place), place, holders)?)?;
    }
    Ok(())
}

// The classes that hold none, and then each of which all that it holds are in the order.
fn put_in_order(
    holders: &[Vec<usize>],
    counts: &mut [usize],
    order: &mut Vec<usize>,
) -> Result<(), AllocError> {
    for (place, count) in counts.iter().enumerate() {
        if *count == 0 {
            order.push(place)?;
        }
    }
    for step in 0..holders.len() {
        let place = match order.get(step) {
            Some(place) => *place,
            None => return Ok(()),
        };
        if let Some(list) = holders.get(place) {
            count_down(counts, list, order)?;
        }
    }
    Ok(())
}

// This class holds the classes of its fields; how many of them there are.
fn note_holder(
    held: &[FieldLayout],
    place: usize,
    holders: &mut Vec<Vec<usize>>,
) -> Result<usize, AllocError> {
    let mut count: usize = 0;
    for field in held {
        if let Some(object) = field.object {
            if let Some(list) = holders.get_mut(object.class) {
                list.push(place)?;
                count = count.saturating_add(1);
            }
        }
    }
    Ok(count)
}

// Takes one from the count of each of these, and adds those of which none is left to the order.
fn count_down(
    counts: &mut [usize],
    holders: &[usize],
    order: &mut Vec<usize>,
) -> Result<(), AllocError> {
    for holder in holders {
        if let Some(count) = counts.get_mut(*holder) {
            *count = count.saturating_sub(1);
            if *count == 0 {
                order.push(*holder)?;
            }
        }
    }
    Ok(())
}

// The height of one class anew, where it is below the count of classes.
fn reckon(sizes: &Sizes, heights: &mut [usize], place: usize, count: usize)
    requires inside { place < length heights.old }
    requires few { AreBelow count heights.old }
    ensures long { length heights.new ≡ length heights.old }
    ensures few { AreBelow count heights.new }
{
    let height = tallest(heights, sizes.held_by_class(place), count);
    if height < count {
        heights[place] = height;
    }
}

// Heights reckoned once in an order; each is below the count of classes.
fn first_heights(
    alloc: Global,
    sizes: &Sizes,
    order: &[usize],
    count: usize,
) -> Result<Vec<usize>, AllocError>
    ensures long { IfOk result (λ v. length v.items ≡ count) }
    ensures few { IfOk result (λ v. 0 < count → AreBelow count v.items) }
{
    let mut heights = vec![in alloc; 0; count]?;
    for place in order {
        if *place < count {
            reckon(sizes, &mut heights, *place, count);
        }
    }
    Ok(heights)
}

// Whether each height is that of a class with its fields.
fn are_settled(sizes: &Sizes, heights: &[usize], count: usize) -> bool
    requires long { length heights.now ≡ count }
    requires few { 0 < count → AreBelow count heights.now }
    ensures { IsTrue result → AreNext (rows_of sizes.now) heights.now heights.now count }
{
    for place in 0..count {
        if heights[place] != tallest(heights, sizes.held_by_class(place), count) {
            return false;
        }
    }
    true
}

// Heights one class deeper than these.
fn next_heights(
    alloc: Global,
    sizes: &Sizes,
    heights: &[usize],
    count: usize,
) -> Result<Vec<usize>, AllocError>
    requires { AreBelow count heights.now }
    ensures long { IfOk result (λ v. length v.items ≡ count) }
    ensures next { IfOk result (λ v. AreNext (rows_of sizes.now) heights.now v.items count) }
{
    let mut next = Vec::new(alloc);
    for place in 0..count {
        next.push(tallest(heights, sizes.held_by_class(place), count))?;
    }
    Ok(next)
}

// Heights counted deeper and deeper.
fn deep_heights(alloc: Global, sizes: &Sizes, count: usize) -> Result<Vec<usize>, AllocError>
    requires { count ≡ length (classes_of sizes.now.items) }
    ensures { IfOk result (λ v. AreHeights sizes.now v.items) }
{
    let mut heights = vec![in alloc; 0; count]?;
    for _depth in 0..count {
        heights = next_heights(alloc, sizes, &heights, count)?;
    }
    Ok(heights)
}

/// How many classes deep each of the classes of a program is, of which there are so many, by their places. Where no class has itself
/// in its fields each is looked at twice.
pub fn heights_of(alloc: Global, sizes: &Sizes, count: usize) -> Result<Vec<usize>, AllocError>
    requires { count ≡ length (classes_of sizes.now.items) }
    ensures { IfOk result (λ v. AreHeights sizes.now v.items) }
{
    let order = order_of(alloc, sizes, count)?;
    let heights = first_heights(alloc, sizes, &order, count)?;
    if are_settled(sizes, &heights, count) {
        return Ok(heights);
    }
    deep_heights(alloc, sizes, count)
}
