// The commands by their codes, and what every command tests first: the request's length, and its checksum.
ghost use Rattle.std.specs.Prelude.{◌≡◌, ◌≤◌, length};
ghost use Rattle.request.specs.Screen.{row_of, Names, screen_of};

use crate::invoke;
use layout::refusals::Refusal;
use opening::commands::{
    BARE_LENGTH, DISABLE_CODE, EXTEND_CODE, EXTEND_LENGTH, IDENTITY_CODE, INVOKE_CODE, STASH_CODE,
    STASH_LENGTH, VERIFY_CODE, VERIFY_LENGTH,
};
use slices::little_endian::read32;

#[derive(Clone, Copy, Debug, PartialEq, Eq)]
pub(crate) enum Command {
    Stash,
    Disable,
    Identity,
    Verify,
    Extend,
    Invoke,
}

impl TryFrom<u32> for Command {
    type Error = Refusal;

    ghost try_from_gives = { Names };

    fn try_from(code: u32) -> Result<Command, Refusal> {
        match code {
            STASH_CODE => Ok(Command::Stash),
            DISABLE_CODE => Ok(Command::Disable),
            IDENTITY_CODE => Ok(Command::Identity),
            VERIFY_CODE => Ok(Command::Verify),
            EXTEND_CODE => Ok(Command::Extend),
            INVOKE_CODE => Ok(Command::Invoke),
            _ => Err(Refusal::UnknownCode),
        }
    }
}

impl Command {
    // Whether a request is as long as the command's.
    fn is_long(self, bytes: &[u8]) -> bool
        ensures { result ≡ (row_of self).length_ok bytes.now }
    {
        match self {
            Command::Stash => bytes.len() == STASH_LENGTH,
            Command::Disable => bytes.len() == BARE_LENGTH,
            Command::Identity => bytes.len() == BARE_LENGTH,
            Command::Verify => bytes.len() == VERIFY_LENGTH,
            Command::Extend => bytes.len() == EXTEND_LENGTH,
            Command::Invoke => invoke::length_ok(bytes),
        }
    }

    pub(crate) fn screen(self, code: u32, bytes: &[u8]) -> Result<(), Refusal>
        ensures { result ≡ screen_of (row_of self) code bytes.now }
    {
        if !self.is_long(bytes) {
            return Err(Refusal::WrongLength);
        }
        if read32(bytes, 0) != message::checksum(code, &bytes[4..]) {
            return Err(Refusal::BadChecksum);
        }
        Ok(())
    }
}
