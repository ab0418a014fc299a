// The image that the program's request meets, and the request's opening.
ghost use Rattle.std.specs.Prelude.{◌≡◌};
ghost use Rattle.opening.specs.Openings.{open_request};
ghost use Rattle.respond.specs.Program.{cold_image, request_in};

use boot::cold::boot_cold;
use layout::IMAGE_WORDS;
use opening::Opened;
use request::open::open_request;
use slices::little_endian::read32;

// The image after the program's cold boot.
pub(crate) fn cold_image() -> [u32; IMAGE_WORDS]
    ensures { result ≡ cold_image }
{
    let mut image = [0u32; IMAGE_WORDS];
    let runtime = [0x11u8; 48];
    let manifest = [0x33u8; 48];
    let secret = [0x22u8; 48];
    let _ = boot_cold(&mut image, &runtime, &manifest, &secret);
    image
}

// Opens the request of an input: caller 0, no handoff table, verdict no.
pub(crate) fn open(image: &[u32], input: &[u8]) -> Opened<()>
    ensures { result ≡ open_request image.now (request_in input.now) }
{
    let none = &input[..0];
    if input.len() < 4 {
        return open_request(image, 0, none, 0, none, false, none);
    }
    open_request(image, read32(input, 0), &input[4..], 0, none, false, none)
}
