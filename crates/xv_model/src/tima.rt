//! The pages of the TIMA (thread interrupt management area), by which a thread's ring is reached (POWER9's XIVE;
//! QEMU's include/hw/ppc/xive_regs.h, "TIMA"). Offsets and sizes are in bytes.

/// The hypervisor's page, of the hardware's, the hypervisor's, the operating system's and the user's, which are 0
/// to 3 (QEMU's XIVE_TM_HW_PAGE to XIVE_TM_USER_PAGE): a context is pushed and pulled there.
pub const TM_HV_PAGE: u8 = 1;

/// The operating system's page: a guest acknowledges there.
pub const TM_OS_PAGE: u8 = 2;

/// How many pages there are: of the hardware, the hypervisor, the OS and the user.
pub const TM_PAGES: u8 = 4;

/// Where the OS ring lies, on each page but the user's (QEMU's TM_QW1_OS).
pub const TM_QW1_OS: u16 = 0x10;

/// The bytes of a ring.
pub const TM_RING_SIZE: u16 = 0x10;

/// CPPR of the OS ring (QEMU's TM_QW1_OS + TM_CPPR).
pub const TM_OS_CPPR: u16 = 0x11;

/// The CAM word of the OS ring (QEMU's TM_QW1_OS + TM_WORD2).
pub const TM_OS_CAM: u16 = 0x18;

/// A load of 2 bytes here acknowledges (QEMU's TM_SPC_ACK_OS_REG).
pub const TM_ACKNOWLEDGE: u16 = 0x810;

/// A store of a byte here makes a priority pending (QEMU's TM_SPC_SET_OS_PENDING).
pub const TM_SET_PENDING: u16 = 0x812;

/// A load here pulls the context (QEMU's TM_SPC_PULL_OS_CTX).
pub const TM_PULL_CONTEXT: u16 = 0x818;

/// The bit of a CAM word that says that its context is valid (QEMU's TM_QW1W2_VO).
pub const CAM_VALID: u32 = 1 << 31;

/// The CAM word of processor 0, without its valid bit: processors are counted from here.
pub const CAM_FIRST: u32 = 0x400;

/// What an access to a page of the TIMA does to a thread's OS ring.
#[derive(Clone, Copy)]
pub enum RingOp {
    /// Loads `size` bytes of the ring, from byte `at` on.
    Load { at: u8, size: u8 },
    SetCppr { value: u8 },
    /// Acknowledges: accepts what is presented, if anything.
    Accept,
    /// Makes a priority pending, where it is one: at most 7.
    Inject { priority: u8 },
    /// Pushes the context whose CAM word this is.
    Push { cam: u32 },
    Pull,
}
