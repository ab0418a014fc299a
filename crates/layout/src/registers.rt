// The registers that a request may extend.
ghost use Rattle.std.specs.Prelude.{◌≡◌};
ghost use Rattle.layout.specs.Sizes.{extendable};

use crate::{EXTEND_FIRST, EXTEND_LAST};

// Whether a number is that of such a register.
pub fn may_extend(register: usize) -> bool
    ensures { result ≡ extendable register }
{
    EXTEND_FIRST <= register && register <= EXTEND_LAST
}
