// The command codes, and the lengths of their requests. The same names stand in specs/Rules.antt. They stay numbers:
// C passes them as they are, and `Command::try_from` of `request` matches on them.
pub const STASH_CODE: u32 = 0x4D454153;

pub const DISABLE_CODE: u32 = 0x4453424C;

pub const IDENTITY_CODE: u32 = 0x49444549;

pub const VERIFY_CODE: u32 = 0x53494756;

pub const EXTEND_CODE: u32 = 0x50435245;

pub const INVOKE_CODE: u32 = 0x44504543;

pub const STASH_LENGTH: usize = 60;

// A request that is its checksum alone: disable, identity key.
pub const BARE_LENGTH: usize = 4;

pub const VERIFY_LENGTH: usize = 196;

pub const EXTEND_LENGTH: usize = 56;

// The most data of a tree command.
pub const DATA_MAX: usize = 1024;
