//! The sizes of a simulated machine, and the limits of what is read. Each is declared here alone.

/// The address of the first byte of the memory, where the page of vmap slots lies.
pub const BASE: u64 = 0xffff_8880_0000_0000;

/// The bytes of a page. A stack is one page, and no block of a slab page is larger.
pub const PAGE: u64 = 4096;

/// The words of a page. A memory has whole pages, and one at least.
pub const PAGE_WORDS: u64 = 512;

/// The most words of a memory.
pub const MOST_WORDS: u64 = 4_194_304;

/// The slots of the first page, one for each vmalloc area.
pub const VMAP_SLOTS: usize = 512;

/// The sizes that blocks of slab pages have.
pub const CLASSES: [u32; 12] = [8, 16, 32, 64, 96, 128, 192, 256, 512, 1024, 2048, 4096];

/// The most bytes of a script.
pub const LONGEST_INPUT: u64 = 67_108_864;

/// The most bytes of a line, without its line feed.
pub const LONGEST_LINE: usize = 256;

/// The column of the first byte that a line has no room for.
pub const TOO_LONG: u32 = 257;

/// The most scanner steps that one line makes, and the most that a generated script has.
pub const MOST_STEPS: u64 = 1_000_000;
