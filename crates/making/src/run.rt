// All stores of a work.
ghost use Rattle.std.specs.Prelude.{◌≡◌};
ghost use Rattle.making.specs.Run.{all_stores};

use work::Work;

// Makes all stores that a work has left, one by one. On an image of the wrong size each is refused, and both stay.
pub fn run_all(work: Work, image: &mut [u32]) -> Work
    ensures value { result ≡ (all_stores work image.old).work }
    ensures image_after { image.new ≡ (all_stores work image.old).image }
{
    let n = work.left();
    let mut at = work;
    for i in 0..n {
        let _ = at.advance(image);
    }
    at
}
