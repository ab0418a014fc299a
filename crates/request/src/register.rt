// A register's new value, for the commands that extend one.
ghost use Rattle.std.specs.Prelude.{◌≡◌, ◌<◌};
ghost use Rattle.layout.specs.Sizes.{register_count};
ghost use Rattle.opening.specs.Works.{register_extended};

use layout::{REGISTER_WORDS, REGISTERS_AT};
use packing::bytes_in;
use sha384::digest::extend;
use slices::little_endian::pack;

pub(crate) fn extended_register(
    image: &[u32],
    register: usize,
    digest: [u8; 48],
) -> [u32; REGISTER_WORDS]
    requires { register < register_count }
    ensures { result ≡ register_extended image.now register digest }
{
    let old = bytes_in(image, REGISTERS_AT + REGISTER_WORDS * register);
    let extended = extend(old, digest);
    pack(&extended, 0)
}
