//! The flags of an END.

use crate::operations::EndFlags;
use bitflags::Flags;

#[test]
fn end_flags(rt: HostRuntime) {
    let flags = EndFlags::VALID | EndFlags::ENQUEUE | EndFlags::SILENT;
    assert_eq!(rt; flags.bits(), 67);
    assert!(rt; flags.contains(EndFlags::ENQUEUE));
    assert!(rt; !flags.contains(EndFlags::NOTIFY_ALWAYS));
    assert_eq!(rt; EndFlags::all().bits(), 127);
}
