// Runs what no script of the driver can: stores on images of a wrong length, which the store entry
// refuses with 1 whatever the work is: ready, finished or damaged.
#![tactic(auto)]

ghost use Rattle.std.specs.Prelude.{◌≡◌};
ghost use Rattle.layout.specs.Numbers.{told_number};

use boot::cold::open_cold_boot;
use layout::IMAGE_WORDS;
use layout::refusals::Refusal;
use std::io::Write;
use work::Work;

// One word more than an image has.
const LONGEST: usize = IMAGE_WORDS + 1;

// The number of a store: 0 where it is made.
fn number_of(stored: Result<Work, Refusal>) -> u32
    ensures { result ≡ told_number stored }
{
    match stored {
        Ok(_) => 0,
        Err(refusal) => u32::from(refusal),
    }
}

// Prints the number of a store on an image of that many words, at most the longest. One that cannot be
// written is lost.
fn print_store<W: Write>(out: &mut W, work: Work, words: usize) {
    let mut space = [0u32; LONGEST];
    if let Some(image) = space.get_mut(..words) {
        let number = number_of(work.store(image));
        let _ = writeln!(out, "{number}");
    }
}

fn main(rt: HostRuntime) {
    let image = [0u32; IMAGE_WORDS];
    let runtime = [0x11u8; 48];
    let manifest = [0x33u8; 48];
    let secret = [0x22u8; 48];
    let booted = open_cold_boot(&image, &runtime, &manifest, &secret);
    let Ok(_) = booted.status else {
        let _ = rt
            .stderr()
            .write_all(b"wrong_image: the cold boot is refused\n");
        return;
    };
    let ready = booted.work;
    let finished = Work {
        position: ready.left(),
        ..ready
    };
    let damaged = Work {
        position: usize::MAX,
        ..ready
    };
    let mut out = rt.stdout();
    for work in [ready, finished, damaged] {
        for words in [0, IMAGE_WORDS - 1, IMAGE_WORDS, LONGEST] {
            print_store(&mut out, work, words);
        }
    }
}
