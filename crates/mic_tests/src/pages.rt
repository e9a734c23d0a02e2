//! The memory, which takes a page where a word of it is written for the first time.

use console_port::{Bus, MemoryMap};
use mic_base::PlainSink;
use std::test::Fail;

/// Writes the first word of each page, the last page first.
#[test]
fn every_page_has_words_of_its_own(rt: HostRuntime) -> Result<(), Fail> {
    let mut sink = PlainSink::new();
    for map in [MemoryMap::STANDARD, MemoryMap::LARGE] {
        let mut bus = Bus::new(rt.alloc(), map)?;
        let pages = map.stack_end / 1024;
        for page in (0..pages).rev() {
            assert_eq!(rt; bus.peek(1024 * page), Some(0), "page {page} before");
            assert_eq!(rt; bus.write_word(1024 * page, page + 7, &mut sink), Ok(()));
        }
        for page in 0..pages {
            let first = 1024 * page;
            assert_eq!(rt; bus.peek(first), Some(page + 7), "page {page}");
            assert_eq!(rt; bus.peek(first + 1), Some(0), "page {page}, next word");
            assert_eq!(rt; bus.peek(first + 1023), Some(0), "page {page}, last word");
        }
    }
    Ok(())
}
