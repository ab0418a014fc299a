// The openings for C: an accepted one writes its work into the lent words, a refused one nothing.
ghost use Rattle.opening.specs.Tasks.{request_of, boot_of};
ghost use Rattle.opening.specs.Openings.{open_request, open_cold_boot, open_update_boot};
ghost use Rattle.flat.specs.Forms.{OpensAs, BootsAs};

use boot::cold::open_cold_boot;
use boot::update::open_update_boot;
use flat::opened::{boot_into, open_into};
use request::open::open_request;

#[unsafe(no_mangle)]
pub extern "C" fn waggleloft_open_request(
    image: &[u32],
    code: u32,
    bytes: &[u8],
    caller: u32,
    handoff: &[u8],
    verdict: bool,
    fresh: &[u8],
    work: &mut [u32],
) -> u32
    ensures { OpensAs work.old work.new result (open_request image.now (request_of code bytes.now caller handoff.now verdict fresh.now)) }
{
    let opened = open_request(image, code, bytes, caller, handoff, verdict, fresh);
    open_into(opened, work)
}

#[unsafe(no_mangle)]
pub extern "C" fn waggleloft_open_cold_boot(
    image: &[u32],
    runtime: &[u8],
    manifest: &[u8],
    secret: &[u8],
    work: &mut [u32],
    outcome: &mut u32,
) -> u32
    ensures { BootsAs work.old work.new outcome.old outcome.new result (open_cold_boot image.now (boot_of runtime.now manifest.now secret.now)) }
{
    let booted = open_cold_boot(image, runtime, manifest, secret);
    boot_into(booted, work, outcome)
}

#[unsafe(no_mangle)]
pub extern "C" fn waggleloft_open_update_boot(
    image: &[u32],
    runtime: &[u8],
    manifest: &[u8],
    secret: &[u8],
    verdict: bool,
    work: &mut [u32],
    outcome: &mut u32,
) -> u32
    ensures { BootsAs work.old work.new outcome.old outcome.new result (open_update_boot image.now (boot_of runtime.now manifest.now secret.now) verdict) }
{
    let booted = open_update_boot(image, runtime, manifest, secret, verdict);
    boot_into(booted, work, outcome)
}
