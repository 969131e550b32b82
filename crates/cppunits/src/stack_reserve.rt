//! Reserves memory for the main thread's stack.
use pptext::Memory;
use std::alloc::Global;

/// The number of bytes in a page.
const PAGE: usize = 4_096;

/// The number of pages to reserve. The deepest run takes 192 KB.
const PAGES: usize = 48;

/// The number of bytes in all pages, and some more. An allocation of this size has pages of its own, which the stack
/// can use after it is freed.
const RESERVED: usize = 256 * 1_024;

/// Touches a page of the stack in each of its frames. Each page is filled from the frame above it, so that no compiler
/// optimizes it away.
#[inline(never)]
fn touch(pages: usize, above: &[u8; PAGE]) -> u8 {
    if pages == 0 {
        return above[0];
    }
    let page = [above[pages % PAGE]; PAGE];
    touch(pages - 1, &page)
}

/// Reserves the stack pages that the deepest run needs. Fails if there is no memory for them. The system allocates
/// stack pages on first use, and kills a program by a signal if it then has none left.
pub fn reserve(alloc: Global) -> Result<(), Memory> {
    let reserved = Vec::<u8>::with_capacity(alloc, RESERVED)?;
    drop(reserved);
    let _ = touch(PAGES, &[0; PAGE]);
    Ok(())
}
