//! The example at the head of the crate.

use crate::{ReadError, Reader, U8Reader};

#[test]
fn bytes_come_one_after_another(rt: HostRuntime) {
    let mut words = U8Reader::new(&[0xC5, 0xF8]);
    assert_eq!(rt; words.next(), Ok(0xC5));
    words.mark();
    assert_eq!(rt; words.next(), Ok(0xF8));
    assert_eq!(rt; words.next(), Err(ReadError::ExhaustedInput));
    assert_eq!(rt; (words.offset(), words.total_offset()), (1, 2));
}
