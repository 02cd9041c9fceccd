//! Records that are packed into spanned blocks and come back, and blocks and segments that are
//! refused.
ghost use Rattle.std.specs.Prelude.{◌≤◌};

use record_blocks::{BlockErr, Deblock, Format, JoinErr, Joiner, PackErr, Packer};
use std::test::Fail;

// Records of at most 20 bytes in blocks of at most 20.
const VBS: Format = Format {
    recfm: 0x58,
    lrecl: 24,
    blksize: 20,
};

const V: Format = Format {
    recfm: 0x40,
    lrecl: 84,
    blksize: 88,
};

// A record of 20 bytes lies in the first block and the second, and a record of 1 byte in the third.
const FIRST: &[u8; 20] = b"\0\x14\0\0\0\x10\x01\0ABCDEFGHIJKL";

const SECOND: &[u8; 16] = b"\0\x10\0\0\0\x0C\x02\0MNOPQRST";

const THIRD: &[u8; 9] = b"\0\x09\0\0\0\x05\0\0U";

// The second block where an empty record follows.
const SECOND_AND_EMPTY: &[u8; 20] = b"\0\x14\0\0\0\x0C\x02\0MNOPQRST\0\x04\0\0";

// The record's descriptor has a length that leaves the block.
const LEAVING: &[u8; 16] = b"\0\x10\0\0\0\x0D\0\0ABCDEFGH";

#[test]
fn spanned_records_are_packed(rt: HostRuntime) -> Result<(), Fail> {
    let alloc = rt.alloc();
    let mut out = Vec::new(alloc);
    assert_eq!(rt; VBS.check(), Ok(()));
    let mut packer = Packer::new(alloc, VBS)?;
    assert_eq!(rt;
        packer.push(b"ABCDEFGHIJKLMNOPQRSTU", &mut out),
        Err(PackErr::TooLong { len: 21 })
    );
    assert_eq!(rt; packer.push(b"ABCDEFGHIJKLMNOPQRST", &mut out), Ok(true));
    assert_eq!(rt; out.as_slice(), FIRST.as_slice());
    let more = packer.pull(&mut out)?;
    assert!(rt; !more);
    assert_eq!(rt; packer.push(b"U", &mut out), Ok(true));
    assert_eq!(rt; out.as_slice(), SECOND.as_slice());
    let more = packer.pull(&mut out)?;
    assert!(rt; !more);
    let rest = packer.finish(&mut out)?;
    assert!(rt; rest);
    assert_eq!(rt; out.as_slice(), THIRD.as_slice());
    assert_eq!(rt; packer.push(b"ABCDEFGHIJKLMNOPQRST", &mut out), Ok(true));
    let more = packer.pull(&mut out)?;
    assert!(rt; !more);
    assert_eq!(rt; packer.push(b"", &mut out), Ok(false));
    let more = packer.pull(&mut out)?;
    assert!(rt; !more);
    let rest = packer.finish(&mut out)?;
    assert!(rt; rest);
    assert_eq!(rt; out.as_slice(), SECOND_AND_EMPTY.as_slice());
    let rest = packer.finish(&mut out)?;
    assert!(rt; !rest);
    Ok(())
}

// The next segment of a block with its code, and no bytes where there is none.
fn segment_of<'a>(block: &mut Deblock<'a>) -> (u8, &'a [u8])
    ensures { result.0 ≤ 3 }
{
    match block.next() {
        Ok(Some(bytes)) => (block.code(), bytes),
        _ => (0, &[]),
    }
}

#[test]
fn blocks_are_read(rt: HostRuntime) -> Result<(), Fail> {
    let (mut first, mut second) = (
        Deblock::new(VBS, FIRST),
        Deblock::new(VBS, SECOND_AND_EMPTY),
    );
    let mut joiner = Joiner::new(rt.alloc(), VBS)?;
    let (code, bytes) = segment_of(&mut first);
    assert_eq!(rt; joiner.push(code, bytes), Ok(false));
    assert_eq!(rt; first.next(), Ok(None));
    assert_eq!(rt; joiner.finish(), Err(JoinErr::BadSegment));
    let (code, bytes) = segment_of(&mut second);
    assert_eq!(rt; joiner.push(code, bytes), Ok(true));
    assert_eq!(rt; joiner.whole(), b"ABCDEFGHIJKLMNOPQRST".as_slice());
    let (code, bytes) = segment_of(&mut second);
    assert_eq!(rt; joiner.push(code, bytes), Ok(true));
    assert!(rt; joiner.whole().is_empty());
    assert_eq!(rt; joiner.push(3, b"A"), Err(JoinErr::BadSegment));
    assert_eq!(rt; joiner.finish(), Ok(()));
    let mut leaving = Deblock::new(V, LEAVING);
    assert_eq!(rt; leaving.next(), Err(BlockErr::BadDescriptor { at: 4 }));
    Ok(())
}
