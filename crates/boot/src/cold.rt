// A cold boot: the same work whatever the image holds.
ghost use Rattle.std.specs.Prelude.{◌≡◌, Ok};
ghost use Rattle.std.specs.Result.{result_and};
ghost use Rattle.opening.specs.Tasks.{boot_of};
ghost use Rattle.opening.specs.Lent.{boot_in};
ghost use Rattle.opening.specs.Works.{cold_values};
ghost use Rattle.opening.specs.Openings.{status_number, boot_number, outcome_in, open_cold_boot, cold_booted};
ghost use Rattle.boot.specs.Given.{given, cold_ruled};

use crate::inputs::{Inputs, digests_of, extend_by_boot};
use crate::ready::ready_with;
use crate::screen::screened;
use layout::refusals::Refusal;
use layout::{HANDLE_BYTES, INTERNAL_FLAG, ROOT_MARK, ROOT_TYPE};
use making::Values;
use making::run::run_all;
use nodes::node_row;
use opening::inputs::BootInputs;
use opening::{Opened, Outcome};
use sha384::digest::extend;
use slices::little_endian::pack;
use table::Kind;
use work::Work;

// The root's locality and svn.
const ROOT_LOCALITY: u32 = 0;

const ROOT_SVN: u32 = 0;

// The words that a cold boot will store, and the digests that its entry tells.
fn cold_values(x: Inputs) -> Values
    ensures { result ≡ cold_values (given x) }
{
    let zero = [0u8; 48];
    let journey = extend_by_boot(zero, x);
    let cumulative = extend(zero, journey);
    let register = pack(&journey, 0);
    let node = node_row(
        ROOT_MARK as u16,
        [0u8; HANDLE_BYTES],
        INTERNAL_FLAG,
        journey,
        cumulative,
        ROOT_TYPE,
        ROOT_LOCALITY,
        ROOT_SVN,
    );
    let secret = x.secret;
    let words = pack(&secret, 0);
    let inputs = digests_of(x);
    Values {
        register,
        journey: register,
        node,
        secret: words,
        inputs,
    }
}

// The work that a cold boot opens.
fn cold_work(image: &[u32], lent: BootInputs) -> Result<(Work, Outcome), Refusal>
    ensures { result ≡ cold_ruled image.now (boot_in lent.entry) }
{
    let x = screened(image, lent)?;
    Ok((ready_with(Kind::ColdBoot, cold_values(x)), Outcome::Cold))
}

// Opens a cold boot: it reads only the image's length and changes nothing.
// The inputs stay loose parameters, since the C interface (`waggleloft_open_cold_boot`) takes them so.
pub fn open_cold_boot(
    image: &[u32],
    runtime: &[u8],
    manifest: &[u8],
    secret: &[u8],
) -> Opened<Outcome>
    ensures value { result ≡ open_cold_boot image.now (boot_of runtime.now manifest.now secret.now) }
    ensures status_value { boot_number result.status ≡ boot_number (open_cold_boot image.now (boot_of runtime.now manifest.now secret.now)).status }
    ensures status_value_2 { outcome_in result.status ≡ outcome_in (open_cold_boot image.now (boot_of runtime.now manifest.now secret.now)).status }
{
    let lent = BootInputs {
        runtime,
        manifest,
        secret,
    };
    Opened::from(cold_work(image, lent))
}

// Boots an image cold: opens the boot and makes all its stores. Refused, it stores nothing.
// (kept: loose inputs, as `open_cold_boot` takes them, which it hands them on to as they are)
pub fn boot_cold(
    image: &mut [u32],
    runtime: &[u8],
    manifest: &[u8],
    secret: &[u8],
) -> Result<(), Refusal>
    ensures value { result ≡ result_and (open_cold_boot image.old (boot_of runtime.now manifest.now secret.now)).status (Ok tt) }
    ensures number_value { status_number result ≡ boot_number (open_cold_boot image.old (boot_of runtime.now manifest.now secret.now)).status }
    ensures image_after { image.new ≡ cold_booted image.old (boot_of runtime.now manifest.now secret.now) }
{
    let booted = open_cold_boot(image, runtime, manifest, secret);
    booted.status?;
    run_all(booted.work, image);
    Ok(())
}
