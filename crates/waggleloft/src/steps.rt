// The entries over a work for C: stores left, one store, the answer, the journal entry, and the sizes of the
// buffers.
ghost use Rattle.std.specs.Prelude.{◌≡◌};
ghost use Rattle.layout.specs.Sizes.{image_words};
ghost use Rattle.flat.specs.Flat.{work_size, work_of};
ghost use Rattle.flat.specs.Forms.{left_in, store_number_in, store_words, store_hand, store_image_in, answer_number_in, answer_written, answer_buffer_in, entry_number_in, entry_written, entry_buffer_in};

use flat::WORK_WORDS;
use layout::IMAGE_WORDS;

#[unsafe(no_mangle)]
pub extern "C" fn waggleloft_work_words() -> usize
    ensures { result ≡ work_size }
{
    WORK_WORDS
}

#[unsafe(no_mangle)]
pub extern "C" fn waggleloft_image_words() -> usize
    ensures { result ≡ image_words }
{
    IMAGE_WORDS
}

#[unsafe(no_mangle)]
pub extern "C" fn waggleloft_left(work: &[u32]) -> usize
    ensures { result ≡ left_in work.now }
{
    held::left(work)
}

#[unsafe(no_mangle)]
pub extern "C" fn waggleloft_store(work: &mut [u32], image: &mut [u32]) -> u32
    ensures value { result ≡ store_number_in work.old image.old }
    ensures work_after { work.new ≡ store_words work.old image.old }
    ensures work_after_2 { work_of work.new ≡ store_hand work.old image.old }
    ensures image_after { image.new ≡ store_image_in work.old image.old }
{
    held::store(work, image)
}

#[unsafe(no_mangle)]
pub extern "C" fn waggleloft_answer(work: &[u32], buffer: &mut [u8], written: &mut usize) -> u32
    ensures value { result ≡ answer_number_in work.now buffer.old }
    ensures written_after { written.new ≡ answer_written work.now buffer.old written.old }
    ensures buffer_after { buffer.new ≡ answer_buffer_in work.now buffer.old }
{
    held::answer(work, buffer, written)
}

#[unsafe(no_mangle)]
pub extern "C" fn waggleloft_entry(work: &[u32], buffer: &mut [u8], written: &mut usize) -> u32
    ensures value { result ≡ entry_number_in work.now buffer.old }
    ensures written_after { written.new ≡ entry_written work.now buffer.old written.old }
    ensures buffer_after { buffer.new ≡ entry_buffer_in work.now buffer.old }
{
    held::entry(work, buffer, written)
}
