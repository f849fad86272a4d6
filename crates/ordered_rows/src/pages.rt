ghost use Rattle.std.specs.Prelude.{◌≡◌, ◌<◌, ◌≤◌, ◌∷◌, [], length, set, slice_index_or, vec_capacity, IfOk, IfErr, OnOk, OnErr};
ghost use Rattle.std.specs.List.{insert, remove};
ghost use Rattle.ordered_rows.specs.Pages.{page_at, shown, HaveRoom, ArePages, HaveLost, AreJoinable};
ghost use Rattle.ordered_rows.specs.Pairs.{pairs};

use crate::moves::{level, move_end};
use std::alloc::AllocError;

// The most values of a page, the least where there are two pages or more, and the room that each has then.
const MOST: usize = 64;

const LEAST: usize = 16;

const ROOM: usize = MOST + 1;

// Makes the first page, of one value. Where memory is wanting the value comes back and nothing changes.
pub(crate) fn start<T>(pages: &mut Vec<Vec<T>>, value: T) -> Result<(), T>
    requires { pages.old.items ≡ [] }
    ensures stored { OnOk result (shown pages.new.items ≡ (value ∷ []) ∷ []) }
    ensures unchanged { OnErr result (shown pages.new.items ≡ []) }
    ensures handed_back { IfErr result (λ back. back ≡ value) }
    ensures pages { ArePages pages.new.items }
{
    if pages.reserve_exact(1).is_err() {
        return Err(value);
    }
    let mut page = Vec::new(*pages.allocator());
    if let Err(failed) = page.push(value) {
        page.destroy_empty();
        return Err(failed.value);
    }
    pages.push_reserved(page);
    Ok(())
}

// Inserts the value at that place of that page. A page that would have more than the most is split first.
// Where memory is wanting the value comes back and nothing changes.
pub(crate) fn insert_at<T>(pages: &mut Vec<Vec<T>>, i: usize, j: usize, value: T) -> Result<(), T>
    requires pages { ArePages pages.old.items }
    requires page { i < length pages.old.items }
    requires place { j ≤ length (page_at (shown pages.old.items) i) }
    ensures stored { OnOk result (pairs (shown pages.new.items)
        ≡ pairs (set (shown pages.old.items) i (insert (page_at (shown pages.old.items) i) j value))) }
    ensures unchanged { OnErr result (shown pages.new.items ≡ shown pages.old.items) }
    ensures handed_back { IfErr result (λ back. back ≡ value) }
    ensures pages { ArePages pages.new.items }
{
    if pages[i].len() == MOST {
        return insert_split(pages, i, j, value);
    }
    insert_within(pages, i, j, value)
}

// The page has less than the most.
fn insert_within<T>(pages: &mut Vec<Vec<T>>, i: usize, j: usize, value: T) -> Result<(), T>
    requires pages { ArePages pages.old.items }
    requires page { i < length pages.old.items }
    requires place { j ≤ length (page_at (shown pages.old.items) i) }
    requires more { length (page_at (shown pages.old.items) i) < 64 }
    ensures stored { OnOk result (shown pages.new.items
        ≡ set (shown pages.old.items) i (insert (page_at (shown pages.old.items) i) j value)) }
    ensures unchanged { OnErr result (shown pages.new.items ≡ shown pages.old.items) }
    ensures handed_back { IfErr result (λ back. back ≡ value) }
    ensures pages { ArePages pages.new.items }
{
    match pages[i].insert(j, value) {
        Ok(()) => Ok(()),
        Err(failed) => Err(failed.value),
    }
}

// The page has the most. It is split into two, of 32 values and 33.
fn insert_split<T>(pages: &mut Vec<Vec<T>>, i: usize, j: usize, value: T) -> Result<(), T>
    requires pages { ArePages pages.old.items }
    requires page { i < length pages.old.items }
    requires place { j ≤ length (page_at (shown pages.old.items) i) }
    requires full { length (page_at (shown pages.old.items) i) ≡ 64 }
    ensures stored { OnOk result (pairs (shown pages.new.items)
        ≡ pairs (set (shown pages.old.items) i (insert (page_at (shown pages.old.items) i) j value))) }
    ensures unchanged { OnErr result (shown pages.new.items ≡ shown pages.old.items) }
    ensures handed_back { IfErr result (λ back. back ≡ value) }
    ensures pages { ArePages pages.new.items }
{
    let Ok(upper) = room_for_split(pages, i) else {
        return Err(value);
    };
    split_with(pages, i, j, value, upper);
    Ok(())
}

// All the memory that a split of the page wants: it makes the new page, with nothing in it.
fn room_for_split<T>(pages: &mut Vec<Vec<T>>, i: usize) -> Result<Vec<T>, AllocError>
    requires pages { ArePages pages.old.items }
    requires page { i < length pages.old.items }
    requires full { length (page_at (shown pages.old.items) i) ≡ 64 }
    ensures same { shown pages.new.items ≡ shown pages.old.items }
    ensures pages { ArePages pages.new.items }
    ensures room { OnOk result (HaveRoom pages.new.items) }
    ensures place { OnOk result (length pages.new.items < vec_capacity pages.new) }
    ensures upper { IfOk result (λ upper. (upper.items ≡ []) × (65 ≤ vec_capacity upper)) }
{
    pages.reserve(1)?;
    pages[i].reserve_exact(1)?;
    Vec::with_capacity(*pages.allocator(), ROOM)
}

// Inserts the value into the page and moves what stands from the middle on to the upper page.
fn split_with<T>(pages: &mut Vec<Vec<T>>, i: usize, j: usize, value: T, mut upper: Vec<T>)
    requires pages { ArePages pages.old.items }
    requires page { i < length pages.old.items }
    requires place { j ≤ length (page_at (shown pages.old.items) i) }
    requires full { length (page_at (shown pages.old.items) i) ≡ 64 }
    requires room { HaveRoom pages.old.items }
    requires spare { length pages.old.items < vec_capacity pages.old }
    requires empty { upper.items ≡ [] }
    requires upper_room { 65 ≤ vec_capacity upper }
    ensures stored { pairs (shown pages.new.items)
        ≡ pairs (set (shown pages.old.items) i (insert (page_at (shown pages.old.items) i) j value)) }
    ensures pages { ArePages pages.new.items }
{
    let page = &mut pages[i];
    page.insert(j, value).unwrap();
    move_end(page, &mut upper, MOST / 2);
    pages.insert(i + 1, upper).unwrap();
}

// Takes the value at that place of that page away. It takes no memory.
pub(crate) fn take_at<T>(pages: &mut Vec<Vec<T>>, i: usize, j: usize) -> T
    requires pages { ArePages pages.old.items }
    requires page { i < length pages.old.items }
    requires place { j < length (page_at (shown pages.old.items) i) }
    ensures value { result ≡ slice_index_or (page_at (shown pages.old.items) i) j result }
    ensures others { pairs (shown pages.new.items)
        ≡ pairs (set (shown pages.old.items) i (remove (page_at (shown pages.old.items) i) j)) }
    ensures pages { ArePages pages.new.items }
{
    let value = pages[i].remove(j);
    if pages[i].len() < LEAST {
        mend(pages, i);
    }
    value
}

// Joins the page with its right neighbour, or the last page with its left one. A sole page goes where it is empty.
fn mend<T>(pages: &mut Vec<Vec<T>>, i: usize)
    requires { HaveLost pages.old.items i }
    ensures same { pairs (shown pages.new.items) ≡ pairs (shown pages.old.items) }
    ensures pages { ArePages pages.new.items }
{
    if i + 1 < pages.len() {
        join(pages, i);
    } else if i > 0 {
        join(pages, i - 1);
    } else if pages[i].is_empty() {
        pages.remove(i).destroy_empty();
    }
}

// Makes one page of this one and the one behind it. Where that would have more than the most, values move over until they
// differ by at most one.
fn join<T>(pages: &mut Vec<Vec<T>>, i: usize)
    requires { AreJoinable pages.old.items i }
    ensures same { pairs (shown pages.new.items) ≡ pairs (shown pages.old.items) }
    ensures pages { ArePages pages.new.items }
{
    let mut right = pages.remove(i + 1);
    let page = &mut pages[i];
    if page.len() + right.len() <= MOST {
        page.append(&mut right).unwrap();
        right.destroy_empty();
    } else {
        level(page, &mut right);
        pages.insert(i + 1, right).unwrap();
    }
}
